//! The lines that `dump` writes of a dataset and of an attribute, up to their values. Where memory is refused, a
//! buffer still begins with what it held.
ghost use Rattle.std.specs.Prelude.{◌++◌};
ghost use Rattle.h5_model.specs.Scripts.Text.{dataset_text};
ghost use Rattle.h5_text.specs.Appends.{Appends};
ghost use Rattle.h5_text.specs.Listing.{attribute_line_head, dump_line, path_text, told_dataset};

use crate::listing::{ArrayText, PathText, push_content};
use crate::texts::{push_escaped, push_sizes, push_store, push_text, push_type, push_value};
use h5_model::Fixed;
use std::alloc::AllocError;

/// Appends how a dataset's cells are stored, and its fill.
fn push_detail(out: &mut Vec<u8>, array: &ArrayText<'_, '_>) -> Result<(), AllocError>
    ensures { Appends result out.old.items out.new.items (dataset_text (told_dataset array.now)) }
{
    push_text(out, b" ")?;
    push_store(out, &array.store)?;
    push_text(out, b" fill ")?;
    push_value(out, array.fill)
}

/// Appends the first line of the dump of an array: its path, type, sizes and maxima, how its cells are stored, and
/// the fill.
///
/// # Errors
///
/// `AllocError` if memory is refused. `out` then still begins with its old bytes; a part of the text may stand behind
/// them.
pub fn push_dump_line(
    out: &mut Vec<u8>,
    path: PathText<'_>,
    array: &ArrayText<'_, '_>,
) -> Result<(), AllocError>
    ensures { Appends result out.old.items out.new.items
        (dump_line (path_text path.entry) (told_dataset array.now)) }
{
    path.push_to(out)?;
    push_text(out, b" ")?;
    push_content(out, array)?;
    push_detail(out, array)?;
    push_text(out, b"\n")
}

/// Appends the line of an attribute up to its values. The values follow, with a space before each.
///
/// # Errors
///
/// `AllocError` if memory is refused. `out` then still begins with its old bytes; a part of the text may stand behind
/// them.
pub fn push_attribute_head(
    out: &mut Vec<u8>,
    name: &[u8],
    fixed: &Fixed,
    sizes: &[u64],
) -> Result<(), AllocError>
    ensures { Appends result out.old.items out.new.items (attribute_line_head name.now fixed.now sizes.now) }
{
    push_text(out, b"@")?;
    push_escaped(out, name)?;
    push_text(out, b" ")?;
    push_type(out, fixed)?;
    push_text(out, b" ")?;
    push_sizes(out, sizes)
}
