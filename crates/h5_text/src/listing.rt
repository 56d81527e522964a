//! The lines that `ls` writes of an object. As with other texts, a buffer still begins with what it held where memory
//! is refused.
ghost use Rattle.std.specs.Prelude.{◌++◌, codes};
ghost use Rattle.h5_model.specs.Scripts.Text.{content_text, escaped_text, line_of};
ghost use Rattle.h5_model.specs.Tree.Objects.{Array};
ghost use Rattle.h5_text.specs.Appends.{Appends};
ghost use Rattle.h5_text.specs.Listing.{path_text, told_dataset};

use crate::texts::{push_escaped, push_extent, push_text, push_type};
use h5_model::{Fixed, Store};
use std::alloc::AllocError;

/// The path with which a line begins.
#[derive(Clone, Copy, PartialEq, Eq, Debug)]
pub enum PathText<'a> {
    /// A path of any bytes, which is escaped.
    Plain(&'a [u8]),
    /// A path that is escaped already.
    Escaped(&'a [u8]),
    /// A name of any bytes below a path that is escaped already; below the root the path is empty.
    Below { path: &'a [u8], name: &'a [u8] },
}

impl PathText<'_> {
    /// Appends the path.
    pub(crate) fn push_to(self, out: &mut Vec<u8>) -> Result<(), AllocError>
        ensures { Appends result out.old.items out.new.items (path_text self.entry) }
    {
        match self {
            PathText::Plain(path) => push_escaped(out, path),
            PathText::Escaped(path) => push_text(out, path),
            PathText::Below { path, name } => {
                push_text(out, path)?;
                push_text(out, b"/")?;
                push_escaped(out, name)
            }
        }
    }
}

/// What lines tell of a dataset: its type, its sizes, as many maxima (`None` is unlimited), how its cells are stored,
/// and its fill.
#[derive(Drop)]
pub struct ArrayText<'a, 'l> {
    pub fixed: Fixed,
    pub sizes: &'a [u64],
    pub maxima: &'a [Option<u64>],
    pub store: Store<&'l [u64]>,
    pub fill: i128,
}

/// Appends the line of a group in a listing.
///
/// # Errors
///
/// `AllocError` if memory is refused. `out` then still begins with its old bytes; a part of the text may stand behind
/// them.
pub fn push_group_line(out: &mut Vec<u8>, path: PathText<'_>) -> Result<(), AllocError>
    ensures { Appends result out.old.items out.new.items (line_of (path_text path.entry) (codes "group")) }
{
    path.push_to(out)?;
    push_text(out, b" group\n")
}

/// Appends the line of a soft link in a listing. `text` is the text of the link, of any bytes.
///
/// # Errors
///
/// `AllocError` if memory is refused. `out` then still begins with its old bytes; a part of the text may stand behind
/// them.
pub fn push_soft_line(out: &mut Vec<u8>, path: PathText<'_>, text: &[u8]) -> Result<(), AllocError>
    ensures { Appends result out.old.items out.new.items
        (line_of (path_text path.entry) (codes "soft " ++ escaped_text text.now)) }
{
    path.push_to(out)?;
    push_text(out, b" soft ")?;
    push_escaped(out, text)?;
    push_text(out, b"\n")
}

/// Appends what a line has behind a dataset's path: that it is one, its type and its sizes.
pub(crate) fn push_content(out: &mut Vec<u8>, array: &ArrayText<'_, '_>) -> Result<(), AllocError>
    ensures { Appends result out.old.items out.new.items (content_text (Array (told_dataset array.now))) }
{
    push_text(out, b"dataset ")?;
    push_type(out, &array.fixed)?;
    push_text(out, b" ")?;
    push_extent(out, array.sizes, array.maxima)
}

/// Appends the line of an array in a listing.
///
/// # Errors
///
/// `AllocError` if memory is refused. `out` then still begins with its old bytes; a part of the text may stand behind
/// them.
pub fn push_array_line(
    out: &mut Vec<u8>,
    path: PathText<'_>,
    array: &ArrayText<'_, '_>,
) -> Result<(), AllocError>
    ensures { Appends result out.old.items out.new.items
        (line_of (path_text path.entry) (content_text (Array (told_dataset array.now)))) }
{
    path.push_to(out)?;
    push_text(out, b" ")?;
    push_content(out, array)?;
    push_text(out, b"\n")
}
