//! Cells to be written (File Format Specification 3.0, section IV.A.2.i; selections: HDF5 dataspace reference, H5Sselect_hyperslab).

ghost use Rattle.std.specs.Prelude.{◌≡◌, ◌++◌, None, Some, IfSome, MatchResult};
ghost use Rattle.h5_model.specs.Edits.Refusal.{first_holding};
ghost use Rattle.h5_query.specs.Selected.{hyper_rules};
ghost use Rattle.h5_edit.specs.Refusals.Allowed.{AreValuesOfRun};
ghost use Rattle.h5_edit.specs.Refusals.Rules.{counted_rules, value_rules};

use h5_layout::Buffer;
use h5_model::EditFault;
use h5_query::{ArrayRef, slab_within};
use h5_shape::{CellRun, HyperRef, one_run};

/// The selected cells as one run, where they are one, or by the lowest number why the lists select nothing of the array, or why the
/// values are none for its cells.
///
/// Refused are `RankMismatch`, `StrideZero`, `BlocksOverlap`, `OutOfExtent`, `ValueCount` where there is not one value for each selected
/// cell, `ValueRange`. It takes no memory.
pub(crate) fn check_cells(
    array: &ArrayRef<'_>,
    hyper: &HyperRef<'_>,
    values: &Buffer<'_>,
) -> Result<Option<CellRun>, EditFault>
    ensures { let rules = hyper_rules array.now.sizes hyper.now
        ++ value_rules array.now.fixed hyper.now values.now in
        MatchResult result (λ run. (first_holding rules ≡ None)
        × IfSome run (AreValuesOfRun array.now hyper.now values.now)) (λ e. first_holding rules ≡ Some e) }
{
    // Most selections are one run, and then no value of all axes is needed.
    let Some(run) = one_run(array.dims(), hyper) else {
        check_parted(array, hyper, values)?;
        return Ok(None);
    };
    check_values(array, run.length, values)?;
    Ok(Some(run))
}

/// Whether the lists select cells of the array, and the values are some for these cells, or by the lowest number why not.
fn check_parted(
    array: &ArrayRef<'_>,
    hyper: &HyperRef<'_>,
    values: &Buffer<'_>,
) -> Result<(), EditFault>
    ensures { let rules = hyper_rules array.now.sizes hyper.now
        ++ value_rules array.now.fixed hyper.now values.now in
        MatchResult result (λ _. first_holding rules ≡ None) (λ e. first_holding rules ≡ Some e) }
{
    let slab = slab_within(array.dims(), hyper)?;
    check_values(array, slab.cells(), values)
}

/// Whether there is a value of the array's type for each of so many cells, or by the lowest number why not.
fn check_values(array: &ArrayRef<'_>, cells: u64, values: &Buffer<'_>) -> Result<(), EditFault>
    ensures { let rules = counted_rules array.now.fixed cells values.now in
        MatchResult result (λ _. first_holding rules ≡ None) (λ e. first_holding rules ≡ Some e) }
{
    if cells != values.len() as u64 {
        return Err(EditFault::ValueCount);
    }
    if !values.are_of_type(&array.fixed()) {
        return Err(EditFault::ValueRange);
    }
    Ok(())
}
