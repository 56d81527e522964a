//! Texts of answers that the program does not reach yet, as the grammar's table and worked sessions have them.

use h5_model::{EditFault, Fixed, Store, ViewFault};
use h5_text::{
    ArrayText, PathText, push_accepted, push_array_line, push_dump_line, push_opened, push_rows,
    push_view_fault,
};
use std::alloc::AllocError;
use std::test::Fail;

fn push_answers(out: &mut Vec<u8>) -> Result<(), AllocError> {
    push_accepted(out, 12)?;
    push_opened(out, 4294967294)?;
    push_view_fault(out, ViewFault::OutsideNow)?;
    push_view_fault(out, ViewFault::Path(EditFault::BlocksOverlap))?;
    push_rows(out, 2, &[1, -1, 2147483647, -128])
}

#[test]
fn writes_answers(rt: HostRuntime) -> Result<(), Fail> {
    let mut out = Vec::new(rt.alloc());
    push_answers(&mut out)?;
    let wanted =
        b"ok 12\nview 4294967294\nfault 3 OutsideNow\nrefused 15 BlocksOverlap\n1 -1\n2147483647 -128\n";
    assert!(rt; out.as_slice() == wanted.as_slice());
    Ok(())
}

/// A line in a list, and that of a dump, of an array of three sizes in chunks.
fn push_in_chunks(out: &mut Vec<u8>, fixed: Fixed) -> Result<(), AllocError> {
    let array = ArrayText {
        fixed,
        sizes: &[5, 4, 3],
        maxima: &[None, Some(4), Some(9)],
        store: Store::Chunked(&[2, 3, 1]),
        fill: -7,
    };
    push_array_line(out, PathText::Plain(b"/d"), &array)?;
    push_dump_line(out, PathText::Plain(b"/d"), &array)
}

/// The line of a dump of an array of no sizes beside its header.
fn push_compact(out: &mut Vec<u8>, fixed: Fixed) -> Result<(), AllocError> {
    let array = ArrayText {
        fixed,
        sizes: &[],
        maxima: &[],
        store: Store::Compact,
        fill: 0,
    };
    push_dump_line(out, PathText::Plain(b"/s"), &array)
}

#[test]
fn writes_lines_of_arrays(rt: HostRuntime) -> Result<(), Fail> {
    let mut out = Vec::new(rt.alloc());
    let fixed = Fixed::new(2, false, true).ok_or(AllocError)?;
    push_in_chunks(&mut out, fixed)?;
    push_compact(&mut out, fixed)?;
    let wanted =
        b"/d dataset u16be {5/inf, 4, 3/9}\n/d dataset u16be {5/inf, 4, 3/9} chunked {2, 3, 1} fill -7\n/s dataset u16be {} compact fill 0\n";
    assert!(rt; out.as_slice() == wanted.as_slice());
    Ok(())
}
