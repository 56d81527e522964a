//! The lines at the head of `h5_file`'s documentation, run as they stand there.

use h5_file::{Fixed, HyperRef, Session, Spec};
use std::alloc::Global;
use std::test::Fail;

/// The image of a file with the array `/d`, of which the odd cells were written, and the last of them.
fn odd_cells(alloc: Global) -> anyhow::Result<(Vec<u8>, i128)> {
    let mut session = Session::create(alloc)?;
    let spec = Spec::contiguous(alloc, Fixed::I32_LE, &[4], -7)?;
    session.create_dataset(b"/d", &spec)?;
    let odd = HyperRef::new(&[1], &[2], &[2], &[1]);
    session.write(b"/d", &odd, &[1, 3])?;
    let view = session.open_view(b"/d", &odd)?;
    session.write(b"/d", &odd, &[5, 6])?;
    session.close_view(view)?;
    let last = session.file().cell(b"/d", &[3])?;
    Ok((session.into_image(), last))
}

#[test]
fn runs_the_first_lines(rt: HostRuntime) -> Result<(), Fail> {
    let (image, last) = odd_cells(rt.alloc())?;
    assert!(rt; last == 6 && image.len() > 800);
    Ok(())
}
