//! Links as they are written, with the addresses to which they lead (File Format Specification 3.0, section III.C).

ghost use Rattle.std.specs.Prelude.{◌≡◌, ◌<◌, [], IfOk, length, map};
ghost use Rattle.h5_group.specs.Heap.Links.{name_and_leads, object_leads};
ghost use Rattle.h5_model.specs.Tree.Links.{tree_link};
ghost use Rattle.h5_repack.specs.Layout.{IsLowLayout, header_by, leads_by, written_at};

use crate::size::{Extent, Size};
use h5_group::ObjectPlace;
use h5_model::{KValues, Link, LinkTo, ObjectNo};
use std::alloc::{AllocError, Global};

/// Where objects stand: the addresses of their headers and their sizes, by their numbers; and the K values of the image. A number
/// without an object has no header, and no bytes.
#[derive(Clone, Copy)]
pub(crate) struct Layout<'a> {
    pub k: KValues,
    pub headers: &'a [Option<u64>],
    pub sizes: &'a [Size],
}

/// A layout in which no object stands yet.
pub(crate) fn nowhere<'a>(k: &KValues) -> Layout<'a>
    ensures low { IsLowLayout result }
    ensures k { result.k ≡ k.now }
    ensures none { result.sizes.now ≡ [] }
{
    Layout {
        k: *k,
        headers: &[],
        sizes: &[],
    }
}

/// Where the header of the object of this number stands; 0 where no object has it.
pub(crate) fn header_place(layout: &Layout<'_>, number: usize) -> u64
    requires { number < length layout.now.headers.now }
    ensures { result ≡ header_by layout.now number }
{
    layout.headers[number].unwrap_or(0)
}

/// Where the object of this number stands, to which a link leads.
fn object_place(layout: &Layout<'_>, number: u32) -> ObjectPlace
    requires { IsLowLayout layout.now }
    ensures { object_leads result ≡ leads_by layout.now number }
{
    let Some(size) = layout.sizes.get(number as usize) else {
        return ObjectPlace::Array(0);
    };
    let header = header_place(layout, number as usize);
    match size.extent {
        Extent::Links(places) => ObjectPlace::Group {
            header,
            tree: header + size.header,
            heap: header + size.header + places.tree,
        },
        Extent::Data(_) => ObjectPlace::Array(header),
    }
}

/// A link as it is written.
fn new_link<'a>(layout: &Layout<'_>, link: &Link<'a, ObjectNo>) -> Link<'a, ObjectPlace>
    requires { IsLowLayout layout.now }
    ensures { name_and_leads result ≡ written_at layout.now (tree_link link.now) }
{
    let to = match link.to {
        LinkTo::Object(number) => LinkTo::Object(object_place(layout, number.0)),
        LinkTo::Soft(text) => LinkTo::Soft(text),
    };
    Link {
        name: link.name,
        to,
    }
}

/// The links of a group as they are written.
pub(crate) fn new_links<'a>(
    alloc: Global,
    layout: &Layout<'_>,
    links: &[Link<'a, ObjectNo>],
) -> Result<Vec<Link<'a, ObjectPlace>>, AllocError>
    requires { IsLowLayout layout.now }
    ensures { IfOk result (λ v.
        map name_and_leads v.items ≡ map (written_at layout.now) (map tree_link links.now)) }
{
    let mut new = Vec::with_capacity(alloc, links.len())?;
    for link in links {
        new.push(new_link(layout, link))?;
    }
    Ok(new)
}
