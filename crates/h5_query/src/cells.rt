//! The cells of an array (File Format Specification 3.0, section IV.A.2.i).

ghost use Rattle.std.specs.Prelude.{◌≡◌, Some, MatchResult};
ghost use Rattle.h5_model.specs.Edits.Refusal.{first_holding};
ghost use Rattle.h5_model.specs.Scripts.Reading.{cell_rules};
ghost use Rattle.h5_query.specs.Look.{HasCell};

use crate::array::array_at;
use h5_model::EditFault;
use h5_open::Opened;

/// The value of one cell of the array at the path. The index has one number for each dimension, counted in cells.
/// Takes no memory.
///
/// # Errors
///
/// Those of [`crate::array_at`]; then `RankMismatch` if the index has not one number for each dimension; then
/// `OutOfExtent` if a number is not below the size of its dimension.
pub fn one_cell(opened: &Opened, path: &[u8], index: &[u64]) -> Result<i128, EditFault>
    ensures { let tree = opened.now.tree in
        MatchResult result (HasCell tree path.now index.now) (λ e.
        first_holding (cell_rules tree path.now index.now) ≡ Some e) }
{
    let (_, array) = array_at(opened, path)?;
    let dims = array.array().dims();
    if index.len() != dims.sizes().len() {
        return Err(EditFault::RankMismatch);
    }
    if !dims.is_inside(index) {
        return Err(EditFault::OutOfExtent);
    }
    Ok(array.cell(index))
}
