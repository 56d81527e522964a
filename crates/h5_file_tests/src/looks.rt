//! What a file answers of paths and of numbers of objects.

use crate::given::{line, note};
use h5_file::{EditFault, File, Kind, ObjectNo};
use std::alloc::Global;
use std::test::Fail;

/// Makes `/g`, an array `/g/d` that is also `/e` and has an attribute, and a soft link `/s`.
fn make(alloc: Global, file: &mut File) -> Result<(), EditFault> {
    file.create_group(b"/g")?;
    file.create_dataset(b"/g/d", &line(alloc)?)?;
    file.hard_link(b"/g/d", b"/e")?;
    file.soft_link(b"/g/d", b"/s")?;
    file.set_attr(b"/e", &note(alloc)?)?;
    Ok(())
}

/// The letter of what stands at a path: `g`, `d` or `s`.
fn letter(file: &File, path: &[u8]) -> char {
    match file.kind(path) {
        Ok(Kind::Group) => 'g',
        Ok(Kind::Dataset { .. }) => 'd',
        Ok(Kind::Soft(_)) => 's',
        Err(_) => '?',
    }
}

/// Whether an array of sizes and maxima of 3 and a fill of -7 stands at a path.
fn is_line(file: &File, path: &[u8]) -> bool {
    match file.kind(path) {
        Ok(
            Kind::Dataset {
                dims,
                maxima,
                fill,
                ..
            },
        ) => dims.sizes() == [3].as_slice() && maxima.sizes() == [3].as_slice() && fill == -7,
        _ => false,
    }
}

#[test]
fn tells_what_stands_at_a_path(rt: HostRuntime) -> Result<(), Fail> {
    let mut file = File::create(rt.alloc())?;
    make(rt.alloc(), &mut file)?;
    assert!(rt; letter(&file, b"/g") == 'g' && letter(&file, b"/s") == 's');
    assert!(rt; is_line(&file, b"/e") && letter(&file, b"/x") == '?');
    assert!(rt; file.cell(b"/e", &[2])? == -7);
    assert!(rt; file.cell(b"/e", &[3]) == Err(EditFault::OutOfExtent));
    let mut names = file.list(b"/")?;
    assert!(rt; names.next() == Some(b"e".as_slice()));
    assert!(rt; names.next() == Some(b"g".as_slice()) && names.next() == Some(b"s".as_slice()));
    assert!(rt; names.next().is_none());
    Ok(())
}

/// Whether the object at a path has the attribute `note`, of the bytes 7 and 8.
fn has_note(file: &File, path: &[u8]) -> bool {
    match file.get_attr(path, b"note") {
        Ok(note) => note.dims().sizes() == [2].as_slice()
            && note.stored() == b"\x07\x08".as_slice(),
        Err(_) => false,
    }
}

#[test]
fn tells_attributes(rt: HostRuntime) -> Result<(), Fail> {
    let mut file = File::create(rt.alloc())?;
    make(rt.alloc(), &mut file)?;
    let names = file.attrs(b"/e")?;
    assert!(rt; names.len() == 1 && names[0] == b"note".as_slice());
    assert!(rt; has_note(&file, b"/e") && !has_note(&file, b"/g"));
    assert!(rt; file.attributes(b"/e")?.len() == 1);
    assert!(rt; file.attrs(b"/")?.is_empty());
    Ok(())
}

/// How many links the group of this number has.
fn count(file: &File, number: u32) -> Option<usize> {
    match file.links(ObjectNo(number)) {
        Ok(Some(links)) => Some(links.len()),
        _ => None,
    }
}

#[test]
fn finds_objects_by_their_numbers(rt: HostRuntime) -> Result<(), Fail> {
    let mut file = File::create(rt.alloc())?;
    make(rt.alloc(), &mut file)?;
    assert!(rt; count(&file, 0) == Some(3) && count(&file, 1) == Some(1));
    assert!(rt; count(&file, 2).is_none());
    assert!(rt; file.array(ObjectNo(2)).is_some() && file.array(ObjectNo(3)).is_none());
    Ok(())
}
