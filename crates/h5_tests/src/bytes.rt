//! Fields of numbers, the lowest byte first.

use h5_bytes::{get_u16, get_u32, get_u64, put_u16, put_u32, put_u64};

#[test]
fn has_the_lowest_byte_first(rt: HostRuntime) {
    let mut bytes = [0u8; 9];
    put_u64(&mut bytes, 1, 0x0102030405060708);
    assert!(rt; bytes == [0, 8, 7, 6, 5, 4, 3, 2, 1]);
    put_u16(&mut bytes, 0, 0xfffe);
    put_u32(&mut bytes, 5, 0);
    assert!(rt; bytes == [0xfe, 0xff, 7, 6, 5, 0, 0, 0, 0]);
    assert!(rt; get_u16(&bytes, 1) == Some(0x07ff));
    assert!(rt; get_u32(&bytes, 2) == Some(0x00050607));
    assert!(rt; get_u64(&bytes, 2).is_none());
}
