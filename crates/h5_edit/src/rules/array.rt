//! New arrays (File Format Specification 3.0, section IV.A.2.i).

ghost use Rattle.std.specs.Prelude.{◌≡◌, Some, None, IfOk, MatchResult};
ghost use Rattle.std.specs.List.{AllZip};
ghost use Rattle.h5_model.specs.declared.edits.Edit.TheVariants.{CreateDataset};
ghost use Rattle.h5_model.specs.Edits.Refusal.{first_holding};
ghost use Rattle.h5_repack.specs.Bodies.Sound.{IsBound};
ghost use Rattle.h5_edit.specs.Refusals.Allowed.{IsPlaceAllowed, IsRuledOut};
ghost use Rattle.h5_edit.specs.Refusals.Rules.{spec_rules};

use crate::rules::place::{NewPlace, is_full, new_place};
use crate::rules::store::{are_maxima, is_chunk_large, is_compact_large, is_store};
use h5_layout::fits;
use h5_model::{EditFault, Spec};
use h5_query::{Dims, Opened};

/// Where a new array is to stand.
///
/// # Errors
///
/// Where several hold, the one with the lowest number:
///
/// - `BadPath`: the bytes are no path.
/// - `PathTooDeep`: the path has more than 64 names.
/// - `IsRoot`: the path is `/`.
/// - `NoSuchParent`: a name before the last one is missing.
/// - `NotAGroup`: a name before the last one leads to no group.
/// - `AlreadyThere`: the group has a link of the last name already.
/// - `NameTooLong`: the last name has more than 1023 bytes.
/// - `BadSpec`: there are more than 32 sizes; there is not one maximum for each size; a maximum is below its size, or
///   another than the size where the array is not in chunks; or there is not one chunk size for each size, a chunk
///   size is 0, or one is above its maximum.
/// - `ChunkTooLarge`: a chunk would have more than 1073741824 bytes.
/// - `CompactTooLarge`: the cells of a compact array would have more than 65524 bytes.
/// - `TooManyCells`: the product of the sizes, with sizes of 0 left out, is above 2^40.
/// - `ValueRange`: the fill is not a value of the type.
/// - `TooManyObjects`: no object number is left.
pub fn check_create_dataset<'a>(
    opened: &Opened,
    path: &'a [u8],
    spec: &Spec,
) -> Result<NewPlace<'a>, EditFault>
    ensures placed { let tree = opened.now.tree in
        let next = opened.now.next in
        MatchResult result (IsPlaceAllowed tree next path.now (CreateDataset path.now spec.now))
        (IsRuledOut tree next (CreateDataset path.now spec.now)) }
    ensures typed { IfOk result (λ _. AllZip IsBound (spec.now).dims (spec.now).maxima) }
{
    let place = new_place(opened, path)?;
    check_spec(spec)?;
    if is_full(opened) {
        return Err(EditFault::TooManyObjects);
    }
    Ok(place)
}

/// Why the array is refused wherever it is to stand, by the lowest number that holds.
fn check_spec(spec: &Spec) -> Result<(), EditFault>
    ensures rules { let rules = spec_rules spec.now in
        MatchResult result (λ _. first_holding rules ≡ None) (λ e. first_holding rules ≡ Some e) }
    ensures typed { IfOk result (λ _. AllZip IsBound (spec.now).dims (spec.now).maxima) }
{
    let maxima = spec.maxima.as_slice();
    let Some(dims) = Dims::new(spec.dims.as_slice()) else {
        return Err(EditFault::BadSpec);
    };
    if !are_maxima(dims.sizes(), maxima) || !is_store(&spec.store, dims.sizes(), maxima) {
        return Err(EditFault::BadSpec);
    }
    if is_chunk_large(&spec.store, spec.fixed.size()) {
        return Err(EditFault::ChunkTooLarge);
    }
    if is_compact_large(&spec.store, &dims, spec.fixed.size()) {
        return Err(EditFault::CompactTooLarge);
    }
    if !dims.is_small() {
        return Err(EditFault::TooManyCells);
    }
    if !fits(&spec.fixed, spec.fill) {
        return Err(EditFault::ValueRange);
    }
    Ok(())
}
