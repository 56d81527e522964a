//! Files made and opened, and bytes given back: that calls succeed where there is memory no clause can say.

use h5_file::{Cause, File, OpenFault};
use std::alloc::Global;
use std::test::Fail;

/// Whether the bytes are a file with so many names in its root.
fn holds(alloc: Global, image: Vec<u8>, names: usize) -> bool {
    let Ok(file) = File::open(alloc, image) else {
        return false;
    };
    match file.list(b"/") {
        Ok(found) => found.count() == names,
        Err(_) => false,
    }
}

#[test]
fn creates_and_opens_again(rt: HostRuntime) -> Result<(), Fail> {
    let mut file = File::create(rt.alloc())?;
    assert!(rt; file.image().len() == 800);
    file.create_group(b"/g")?;
    assert!(rt; holds(rt.alloc(), file.into_image(), 1));
    // Here the file's own bytes are copied, since one more stands behind them.
    let mut image = File::create(rt.alloc())?.into_image();
    image.push(1)?;
    assert!(rt; holds(rt.alloc(), image, 0));
    Ok(())
}

/// Whether the bytes are refused so, and as many are given back.
fn gives_back(alloc: Global, image: Vec<u8>, refusal: OpenFault) -> bool {
    let len = image.len();
    match File::open(alloc, image) {
        Ok(_) => false,
        Err(error) => error.fault == refusal && error.bytes.len() == len,
    }
}

#[test]
fn refuses_and_gives_bytes_back(rt: HostRuntime) -> Result<(), Fail> {
    let mut image = File::create(rt.alloc())?.into_image();
    image.truncate(799);
    let refusal = OpenFault {
        cause: Cause::Truncated,
        address: 40,
    };
    assert!(rt; gives_back(rt.alloc(), image, refusal));
    Ok(())
}
