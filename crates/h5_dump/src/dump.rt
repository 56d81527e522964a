//! What `dump` prints of what stands at a path.

ghost use Rattle.std.specs.Prelude.{◌≡◌, ◌++◌, [], MatchResult, codes};
ghost use Rattle.std.specs.FinMap.{entries};
ghost use Rattle.std.specs.List.{flat_map};
ghost use Rattle.h5_model.specs.Tree.Paths.{location_of};
ghost use Rattle.h5_model.specs.Scripts.Answers.{dump_of};
ghost use Rattle.h5_model.specs.Scripts.Text.{attribute_line, dump_text, escaped_text, line_of};
ghost use Rattle.h5_model.specs.Tree.Objects.{Array, Group, Links, Object, Tree};
ghost use Rattle.h5_text.specs.Appends.{Appends};
ghost use Rattle.h5_text.specs.Listing.{dump_line};
ghost use Rattle.h5_file.specs.Found.{HasFound};
ghost use Rattle.h5_dump.specs.Dumped.{Dumps, IsDumped, IsUndumped};

use crate::array::{array_text, shown_store};
use crate::cells::{CELLS_ROOM, write_cells};
use crate::fault::DumpFault;
use h5_file::{AttrRef, File, Found, MAX_RANK, StoredArray, store_of};
use h5_text::{
    PathText, push_attribute_head, push_dump_line, push_group_line, push_soft_line,
    push_spaced_value, push_text, write_text,
};
use std::alloc::AllocError;
use std::io::Write;

/// Writes the dump of what stands at the path. A soft link is not followed.
///
/// The text is made in the buffer, in place of what was there. Cells are written as they are read, some thousands at
/// once, so the memory that is taken does not grow with their number. It takes a reference to each attribute of the
/// object.
///
/// # Errors
///
/// - `Refused`: the path is refused as [`File::find`] refuses it; or no rule refuses it, and memory is refused before
///   the first write. Nothing was written.
/// - `Cut`: the writer failed, or memory was refused, behind a beginning of the dump that was written.
pub fn write_dump<W: Write>(
    text: &mut Vec<u8>,
    file: &File,
    path: &[u8],
    output: &mut W,
) -> Result<(), DumpFault>
    ensures { MatchResult result
        (λ _. IsDumped file.now.tree path.now (W.contents output.old) (W.contents output.new))
        (IsUndumped file.now.tree path.now (W.contents output.old) (W.contents output.new)) }
{
    let found = file.find(path)?;
    text.clear();
    write_found(text, path, &found, output)
}

/// Writes what is dumped of what was found at the path.
fn write_found<W: Write>(
    text: &mut Vec<u8>,
    path: &[u8],
    found: &Found<'_>,
    output: &mut W,
) -> Result<(), DumpFault>
    requires { text.old.items ≡ [] }
    ensures { (tree : Tree) → HasFound tree path.now found.now
        → Dumps result (W.contents output.old) (W.contents output.new)
        (dump_of tree path.now (location_of tree path.now)) }
{
    match found {
        Found::Group { attributes, .. } => write_group(text, path, attributes, output),
        Found::Array {
            attributes,
            array,
            ..
        } => write_array(text, path, array, attributes, output),
        Found::Soft(target) => write_soft_link(text, path, target, output),
    }
}

/// Writes what is dumped of a group that has these attributes.
fn write_group<W: Write>(
    text: &mut Vec<u8>,
    path: &[u8],
    attributes: &[AttrRef<'_>],
    output: &mut W,
) -> Result<(), DumpFault>
    requires { text.old.items ≡ [] }
    ensures { (group : Object) (links : Links) → group.content ≡ Group links
        → attributes.now ≡ entries group.attributes
        → Dumps result (W.contents output.old) (W.contents output.new)
        (dump_text (escaped_text path.now) group) }
{
    push_group_line(text, PathText::Plain(path))?;
    push_attributes(text, attributes)?;
    write_text(output, text)?;
    Ok(())
}

/// Writes what is dumped of a soft link of this text.
fn write_soft_link<W: Write>(
    text: &mut Vec<u8>,
    path: &[u8],
    target: &[u8],
    output: &mut W,
) -> Result<(), DumpFault>
    requires { text.old.items ≡ [] }
    ensures { Dumps result (W.contents output.old) (W.contents output.new)
        (line_of (escaped_text path.now) (codes "soft " ++ escaped_text target.now)) }
{
    push_soft_line(text, PathText::Plain(path), target)?;
    write_text(output, text)?;
    Ok(())
}

/// Writes what is dumped of the array, which has these attributes.
fn write_array<W: Write>(
    text: &mut Vec<u8>,
    path: &[u8],
    array: &StoredArray<'_>,
    attributes: &[AttrRef<'_>],
    output: &mut W,
) -> Result<(), DumpFault>
    requires { text.old.items ≡ [] }
    ensures { (o : Object) → o.content ≡ Array array.now → attributes.now ≡ entries o.attributes
        → Dumps result (W.contents output.old) (W.contents output.new) (dump_text (escaped_text path.now) o) }
{
    push_array_head(text, path, array)?;
    push_attributes(text, attributes)?;
    // Memory for cells is taken before anything is written, since only then their want is a refusal.
    text.reserve(CELLS_ROOM)?;
    write_cells(text, array, output)?;
    Ok(())
}

/// Appends the first line of what is dumped of the array.
fn push_array_head(
    text: &mut Vec<u8>,
    path: &[u8],
    array: &StoredArray<'_>,
) -> Result<(), AllocError>
    ensures { Appends result text.old.items text.new.items (dump_line (escaped_text path.now) array.now) }
{
    let store = store_of(array);
    let mut maxima = [None; MAX_RANK];
    let told = array_text(array.array(), shown_store(&store), &mut maxima);
    push_dump_line(text, PathText::Plain(path), &told)
}

/// Appends a line for each attribute.
fn push_attributes(text: &mut Vec<u8>, attributes: &[AttrRef<'_>]) -> Result<(), AllocError>
    ensures { Appends result text.old.items text.new.items (flat_map attribute_line attributes.now) }
{
    for attribute in attributes {
        push_attribute(text, attribute)?;
    }
    Ok(())
}

/// Appends the line of an attribute.
fn push_attribute(text: &mut Vec<u8>, attribute: &AttrRef<'_>) -> Result<(), AllocError>
    ensures { Appends result text.old.items text.new.items (attribute_line attribute.now) }
{
    let dims = attribute.dims();
    push_attribute_head(text, attribute.name(), &attribute.fixed(), dims.sizes())?;
    for k in 0..attribute.cells() {
        push_spaced_value(text, attribute.value(k))?;
    }
    push_text(text, b"\n")
}
