//! A header in two blocks, as libhdf5 wrote it.

use h5_header::{Message, messages};
use h5_space::{Claims, Image};
use std::test::Fail;

/// The root's header in a file of libhdf5 (a comment was set on the root), at 96.
static COMMENTED: [u8; 40] = [
    1, 0, 3, 0, 1, 0, 0, 0, 24, 0, 0, 0, 0, 0, 0, 0, 16, 0, 16, 0, 0, 0, 0, 0, 40, 7, 0, 0, 0, 0,
    0, 0, 40, 0, 0, 0, 0, 0, 0, 0,
];

/// The block that its Continuation names, at 1832.
static COMMENT: [u8; 40] = [
    17, 0, 16, 0, 0, 0, 0, 0, 136, 0, 0, 0, 0, 0, 0, 0, 168, 2, 0, 0, 0, 0, 0, 0, 13, 0, 8, 0, 0,
    0, 0, 0, 114, 111, 111, 116, 0, 0, 0, 0,
];

/// The blocks, each in its place.
fn commented() -> [u8; 1872] {
    let mut bytes = [0; 1872];
    bytes[96..136].copy_from_slice(&COMMENTED);
    bytes[1832..].copy_from_slice(&COMMENT);
    bytes
}

/// Its messages: the Continuation, the Symbol Table and the comment.
static LIST: [Message; 3] = [
    Message {
        kind: 16,
        at: 120,
        size: 16,
    },
    Message {
        kind: 17,
        at: 1840,
        size: 16,
    },
    Message {
        kind: 13,
        at: 1864,
        size: 8,
    },
];

#[test]
fn reads_a_continuation_of_libhdf5(rt: HostRuntime) -> Result<(), Fail> {
    let image = Image::new(rt.alloc(), commented().to_vec(rt.alloc())?);
    let mut claims = Claims::new(rt.alloc(), image.bytes().len() as u64);
    let read = messages(rt.alloc(), &image, &mut claims, 96)?;
    assert!(rt; read.list() == LIST.as_slice());
    assert!(rt; read.list().len() == 3 && image.bytes().len() == 1872);
    assert!(rt; read.body(&image, 2) == b"root\0\0\0\0".as_slice());
    assert!(rt; read.links(&image) == 1);
    Ok(())
}
