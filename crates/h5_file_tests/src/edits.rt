//! Edits by calls: what is accepted where there is memory, and the object that is answered.

use crate::given::{line, note};
use h5_file::{Edited, File, Fixed, HyperRef, ObjectNo, Spec};
use std::test::Fail;

/// Whether the edit is of the object of this number.
fn is_of(made: Edited, number: u32) -> bool {
    made.object == Some(ObjectNo(number)) && made.refreshed == 0
}

#[test]
fn answers_the_object(rt: HostRuntime) -> Result<(), Fail> {
    let mut file = File::create(rt.alloc())?;
    assert!(rt; is_of(file.create_group(b"/g")?, 1));
    assert!(rt; is_of(file.create_dataset(b"/g/d", &line(rt.alloc())?)?, 2));
    assert!(rt; is_of(file.create_group(b"/a")?, 3));
    assert!(rt; is_of(file.hard_link(b"/g/d", b"/b")?, 2));
    assert!(rt; is_of(file.set_attr(b"/b", &note(rt.alloc())?)?, 2));
    assert!(rt; is_of(file.remove_attr(b"/g/d", b"note")?, 2));
    assert!(rt; file.soft_link(b"/nowhere", b"/s")?.object.is_none());
    // Objects have the numbers in which they were made, wherever their headers stand.
    assert!(rt; file.number(b"/a")? == ObjectNo(3) && file.number(b"/b")? == ObjectNo(2));
    Ok(())
}

#[test]
fn resizes(rt: HostRuntime) -> Result<(), Fail> {
    let alloc = rt.alloc();
    let mut file = File::create(alloc)?;
    let grows = Spec::chunked(alloc, Fixed::U8, &[3], &[None], &[2], 5)?;
    assert!(rt; is_of(file.create_dataset(b"/c", &grows)?, 1));
    assert!(rt; is_of(file.resize(b"/c", &[9])?, 1));
    assert!(rt; file.cell(b"/c", &[8])? == 5);
    Ok(())
}

#[test]
fn unlinks_and_repacks(rt: HostRuntime) -> Result<(), Fail> {
    let mut file = File::create(rt.alloc())?;
    file.create_group(b"/z")?;
    assert!(rt; is_of(file.create_dataset(b"/d", &line(rt.alloc())?)?, 2));
    assert!(rt; file.unlink(b"/z")?.object.is_none());
    file.repack()?;
    assert!(rt; file.number(b"/d")? == ObjectNo(2));
    Ok(())
}

#[test]
fn writes_cells(rt: HostRuntime) -> Result<(), Fail> {
    let mut file = File::create(rt.alloc())?;
    file.create_dataset(b"/d", &line(rt.alloc())?)?;
    let first = HyperRef::new(&[0], &[1], &[1], &[1]);
    assert!(rt; is_of(file.write(b"/d", &first, &[5])?, 1));
    assert!(rt; file.cell(b"/d", &[0])? == 5);
    Ok(())
}
