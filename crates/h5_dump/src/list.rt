//! What `ls` prints of a file.

ghost use Rattle.std.specs.Prelude.{◌≡◌, ◌++◌, OnOk, codes, map};
ghost use Rattle.std.specs.List.{flat_map};
ghost use Rattle.h5_model.specs.Scripts.Text.{content_text, escaped_text, line_of, list_text};
ghost use Rattle.h5_model.specs.Tree.Objects.{Array, ToObject};
ghost use Rattle.h5_text.specs.Appends.{Appends};
ghost use Rattle.h5_text.specs.Listing.{path_text};
ghost use Rattle.h5_model.specs.Tree.Links.{tree_link};
ghost use Rattle.h5_dump.specs.Listing.{lines_of_link};

use crate::array::array_text;
use h5_file::{File, Link, LinkTo, MAX_DEPTH, MAX_RANK, StoredArray};
use h5_model::{ObjectNo, Store};
use h5_text::{
    PathText, push_array_line, push_escaped, push_group_line, push_soft_line, push_text,
};
use std::alloc::{AllocError, Global};

/// Appends the list of what the file holds.
///
/// Takes memory for the links of the groups on the way to a line, and for the path of the line.
///
/// # Errors
///
/// `AllocError` if memory is refused. `text` then still begins with its old bytes.
pub fn push_list(alloc: Global, text: &mut Vec<u8>, file: &File) -> Result<(), AllocError>
    ensures { Appends result text.old.items text.new.items (list_text file.now.tree) }
{
    push_group_line(text, PathText::Escaped(b"/"))?;
    let Some(links) = file.links(ObjectNo(0))? else {
        return Ok(());
    };
    let mut path = Vec::new(alloc);
    push_links(text, file, MAX_DEPTH - 1, &mut path, &links)
}

/// Appends the lines of links of the group at the path, which is escaped already. Each group is
/// followed by what it holds, so many names deep.
///
/// The path is as before then, unless memory is refused.
#[cycle(listed)]
fn push_links(
    text: &mut Vec<u8>,
    file: &File,
    depth: usize,
    path: &mut Vec<u8>,
    links: &[Link<'_, ObjectNo>],
) -> Result<(), AllocError>
    ensures lines { Appends result text.old.items text.new.items
        (flat_map (lines_of_link file.now.tree depth path.old.items) (map tree_link links.now)) }
    ensures path { OnOk result (path.new.items ≡ path.old.items) }
{
    // Cleared once for all arrays of the group.
    let mut maxima = [None; MAX_RANK];
    for link in links {
        match link.to {
            LinkTo::Soft(target) => {
                let line = PathText::Below {
                    path: path.as_slice(),
                    name: link.name,
                };
                push_soft_line(text, line, target)?;
            }
            LinkTo::Object(number) => {
                push_object(text, file, depth, path, link.name, number, &mut maxima)?;
            }
        }
    }
    Ok(())
}

/// Appends the line of the object that a link of this name below the path leads to, and what it
/// holds, so many names deep. `maxima` is room for the maxima of an array.
#[cycle(listed)]
fn push_object(
    text: &mut Vec<u8>,
    file: &File,
    depth: usize,
    path: &mut Vec<u8>,
    name: &[u8],
    number: ObjectNo,
    maxima: &mut [Option<u64>; MAX_RANK],
) -> Result<(), AllocError>
    ensures lines { Appends result text.old.items text.new.items
        (lines_of_link file.now.tree depth path.old.items (name.now, ToObject number.0)) }
    ensures path { OnOk result (path.new.items ≡ path.old.items) }
{
    let head = PathText::Below {
        path: path.as_slice(),
        name,
    };
    if let Some(array) = file.array(number) {
        return push_listed_array(text, head, &array, maxima);
    }
    let Some(links) = file.links(number)? else {
        return Ok(());
    };
    push_group_line(text, head)?;
    if depth == 0 {
        return Ok(());
    }
    let length = path.len();
    push_name(path, name)?;
    push_links(text, file, depth - 1, path, &links)?;
    path.truncate(length);
    Ok(())
}

/// Appends a name to a path that is escaped already.
fn push_name(path: &mut Vec<u8>, name: &[u8]) -> Result<(), AllocError>
    ensures { Appends result path.old.items path.new.items (codes "/" ++ escaped_text name.now) }
{
    push_text(path, b"/")?;
    push_escaped(path, name)
}

/// Appends the line of an array in a list, which does not tell how its cells are stored. `maxima` is room for its maxima.
fn push_listed_array(
    text: &mut Vec<u8>,
    path: PathText<'_>,
    array: &StoredArray<'_>,
    maxima: &mut [Option<u64>; MAX_RANK],
) -> Result<(), AllocError>
    ensures { Appends result text.old.items text.new.items
        (line_of (path_text path.entry) (content_text (Array array.now))) }
{
    let told = array_text(array.array(), Store::Contiguous, maxima);
    push_array_line(text, path, &told)
}
