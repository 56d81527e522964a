//! Arrays that are to get other sizes (File Format Specification 3.0, sections IV.A.2.b and IV.A.2.i).

ghost use Rattle.std.specs.Prelude.{◌≡◌, ◌+◌, ◌≤◌, drop, false, length, nat_lt, MatchResult};
ghost use Rattle.std.specs.Option.{option_map_or};
ghost use Rattle.h5_model.specs.Format.Limits.{most_dimensions};
ghost use Rattle.h5_model.specs.declared.edits.Edit.TheVariants.{Resize};
ghost use Rattle.h5_model.specs.Edits.Refusal as rule;
ghost use Rattle.h5_query.specs.Opened.Sound.{IsSound};
ghost use Rattle.h5_edit.specs.Refusals.Allowed.{IsResizeAt, IsRuledOut};

use h5_model::EditFault;
use h5_query::{ArrayExtent, Dims, Opened, extent_at};

/// The number of the array that is to have these sizes.
///
/// Refused by the lowest number that holds: `BadPath`, `PathTooDeep`, `NoSuchParent`, `NotAGroup`, `NotFound`, `NotADataset` also where a
/// soft link stands there, `RankMismatch`, `NotChunked` where the cells are not in chunks, whatever the sizes, `AboveMaximum` where a size
/// is above its maximum, `TooManyCells` where the product of the sizes other than 0 is above 2^40. It takes no memory.
pub(crate) fn check_resize(opened: &Opened, path: &[u8], dims: &[u64]) -> Result<u32, EditFault>
    ensures at { let tree = opened.now.tree in
        let next = opened.now.next in
        MatchResult result (IsResizeAt tree next path.now dims.now)
        (IsRuledOut tree next (Resize path.now dims.now)) }
    ensures sound { IsSound opened.now }
{
    let (number, extent) = extent_at(opened, path)?;
    if dims.len() != extent.rank() {
        return Err(EditFault::RankMismatch);
    }
    if !extent.is_chunked() {
        return Err(EditFault::NotChunked);
    }
    if is_above(&extent, 0, dims) {
        return Err(EditFault::AboveMaximum);
    }
    if !Dims::new(dims).unwrap().is_small() {
        return Err(EditFault::TooManyCells);
    }
    Ok(number)
}

/// Whether a size is above its maximum, of the sizes from dimension `k` on.
fn is_above(extent: &ArrayExtent<'_>, k: usize, sizes: &[u64]) -> bool
    requires ranked { length extent.now.sizes ≡ k + length sizes.now }
    requires few { length extent.now.sizes ≤ most_dimensions }
    ensures { result ≡ rule.some_above sizes.now (drop k extent.now.maxima) }
{
    let [size, sizes @ ..] = sizes else {
        return false;
    };
    is_size_above(*size, extent.maximum(k)) || is_above(extent, k + 1, sizes)
}

/// Whether the size is above the maximum, where there is one.
fn is_size_above(size: u64, maximum: Option<u64>) -> bool
    ensures { result ≡ option_map_or (λ most. nat_lt most size) maximum false }
{
    match maximum {
        Some(most) => most < size,
        None => false,
    }
}
