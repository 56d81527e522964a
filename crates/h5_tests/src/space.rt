//! That calls succeed where there is memory: no clause can say it.

use h5_bytes::Block;
use h5_space::{AddressMap, Image};
use std::test::Fail;

#[test]
fn takes_and_gives_in_reserved_room(rt: HostRuntime) -> Result<(), Fail> {
    let bytes = Vec::from_slice(rt.alloc(), &[7; 16])?;
    let mut image = Image::new(rt.alloc(), bytes);
    assert!(rt; image.reserve(16, 3).is_ok());
    let first = image.take(8);
    assert!(rt; first == 16);
    image.give(first, 8);
    let second = image.take(4);
    assert!(rt; second == 16);
    image.part_at_mut(18, 4).fill(9);
    assert!(rt; image.part(15, 5) == Some([7, 0, 0, 9, 9].as_slice()));
    assert!(rt; image.part(17, 8).is_none() && image.bytes().len() == 24);
    assert!(rt; image.into_bytes().len() == 24);
    Ok(())
}

#[test]
fn copies_an_image(rt: HostRuntime) -> Result<(), Fail> {
    let bytes = Vec::from_slice(rt.alloc(), &[7, 8, 9])?;
    let image = Image::new(rt.alloc(), bytes);
    let copy = image.copy_of(rt.alloc())?;
    assert!(rt; copy.bytes() == [7, 8, 9].as_slice());
    Ok(())
}

#[test]
fn lends_a_part_where_it_is_in_the_image(rt: HostRuntime) -> Result<(), Fail> {
    let bytes = Vec::from_slice(rt.alloc(), &[7; 8])?;
    let mut image = Image::new(rt.alloc(), bytes);
    assert!(rt; image.part_mut(6, 3).is_none());
    assert!(rt; image.part_mut(u64::MAX, 2).is_none());
    if let Some(last) = image.part_mut(6, 2) {
        last.fill(9);
    }
    assert!(rt; image.bytes() == [7, 7, 7, 7, 7, 7, 9, 9].as_slice());
    Ok(())
}

// Two blocks, and the image after the first was filled with 1 and the second with 2, or the image as it was.
static TWO_PARTS: [((u64, u64), (u64, u64), [u8; 8]); 9] = [
    ((0, 2), (6, 2), [1, 1, 7, 7, 7, 7, 2, 2]),
    ((6, 2), (0, 2), [2, 2, 7, 7, 7, 7, 1, 1]),
    ((2, 2), (4, 3), [7, 7, 1, 1, 2, 2, 2, 7]),
    ((4, 4), (0, 4), [2, 2, 2, 2, 1, 1, 1, 1]),
    ((0, 8), (3, 0), [1, 1, 1, 1, 1, 1, 1, 1]),
    ((3, 0), (0, 8), [2, 2, 2, 2, 2, 2, 2, 2]),
    ((0, 4), (3, 2), [7, 7, 7, 7, 7, 7, 7, 7]),
    ((2, 2), (2, 2), [7, 7, 7, 7, 7, 7, 7, 7]),
    ((0, 2), (6, 3), [7, 7, 7, 7, 7, 7, 7, 7]),
];

#[test]
fn lends_two_parts_that_share_no_byte(rt: HostRuntime) -> Result<(), Fail> {
    for k in 0..TWO_PARTS.len() {
        let ((at, len), (other, size), after) = TWO_PARTS[k];
        let bytes = Vec::from_slice(rt.alloc(), &[7; 8])?;
        let mut image = Image::new(rt.alloc(), bytes);
        let first = Block { at, len };
        let second = Block {
            at: other,
            len: size,
        };
        if let Some((one, two)) = image.two_parts_mut(first, second) {
            one.fill(1);
            two.fill(2);
        }
        assert!(rt; image.bytes() == after.as_slice(), "row {k}");
    }
    Ok(())
}

// Enough for many runs of entries, in an order that looks like chance: both numbers are primes.
const ADDRESSES: u64 = 1009;

const STEP: u64 = 7919;

#[test]
fn keeps_values_in_whatever_order_their_addresses_come(rt: HostRuntime) -> Result<(), Fail> {
    let mut numbers = AddressMap::new(rt.alloc());
    for k in 0..ADDRESSES {
        numbers.insert(k * STEP % ADDRESSES, k)?;
    }
    for k in 0..ADDRESSES {
        let address = k * STEP % ADDRESSES;
        assert!(rt;
            numbers.get(address) == Some(k)
                && numbers.last_before(address + 1) == Some((address, k))
        );
    }
    assert!(rt; numbers.get(ADDRESSES).is_none() && numbers.last_before(0).is_none());
    assert!(rt;
        numbers.remove(STEP % ADDRESSES) == Some(1) && numbers.get(STEP % ADDRESSES).is_none()
    );
    Ok(())
}
