//! Selections of an array's cells, and the runs of these (HDF5 dataspace reference, H5Sselect_hyperslab).

ghost use Rattle.std.specs.Prelude.{◌≡◌, true, Some, None, IfOk, IfSome, IsSome, MatchResult};
ghost use Rattle.h5_model.specs.Edits.Refusal.{first_holding};
ghost use Rattle.h5_model.specs.Scripts.Reading.{selection_rules};
ghost use Rattle.h5_model.specs.Views.Selection.{axes_of};
ghost use Rattle.h5_model.specs.Views.Shown.{is_in_line};
ghost use Rattle.h5_shape.specs.OneRun.{IsOneRun};
ghost use Rattle.h5_shape.specs.declared.runs.CellRun.{CellRun};
ghost use Rattle.h5_query.specs.Selected.{HasRuns, HasSelectedBytes, IsSelectedAt, IsSlabOf, fault_of_slab, hyper_rules};

use crate::array::array_at;
use h5_model::EditFault;
use h5_open::{Dims, Opened, Runs, StoredArray};
use h5_shape::{HyperRef, Slab, SlabFault};
use std::marker::Model;

/// The selected cells of an array, as runs.
#[derive(Debug, Drop)]
pub struct SelectedRuns<'a> {
    array: StoredArray<'a>,
    slab: Slab<'a>,
}

impl<'a> Model for SelectedRuns<'a> {
    ghost use Rattle.h5_model.specs.Views.Shown.{selected_values};
    ghost use Rattle.h5_open.specs.Pieces.{CellsLeft};
    ghost use Rattle.h5_query.specs.Selected.{IsSlabOf};

    ghost Value = { CellsLeft };

    ghost view = { λ s. record {
      fixed = s.array.fixed;
      fill = s.array.fill;
      values = selected_values s.array s.slab;
    } };

    ghost invariant = { λ s. IsSlabOf s.array.sizes s.slab };
}

impl<'a> SelectedRuns<'a> {
    /// The runs: pieces of consecutive cells, lent as they stand in the image, in row-major order. Neither the call nor a
    /// step takes memory.
    pub fn iter(&self) -> Runs<'a, '_>
        ensures { result ≡ self.now }
    {
        self.array.runs(&self.slab)
    }
}

/// The selected cells of the array at the path, as runs. Takes no memory.
///
/// # Errors
///
/// Those of [`crate::array_at`], then those of [`slab_within`].
pub fn runs_at<'a>(
    opened: &'a Opened,
    path: &[u8],
    hyper: &HyperRef<'a>,
) -> Result<SelectedRuns<'a>, EditFault>
    ensures { let tree = opened.now.tree in
        MatchResult result (HasRuns tree path.now hyper.now) (λ e.
        first_holding (selection_rules tree path.now hyper.now) ≡ Some e) }
{
    let (_, array, slab) = selected_at(opened, path, hyper)?;
    Ok(SelectedRuns { array, slab })
}

/// The array at the path with its number, and the selection of the four lists, which is within its sizes. Takes no
/// memory.
///
/// # Errors
///
/// Those of [`crate::array_at`], then those of [`slab_within`].
pub fn selected_at<'a, 'b>(
    opened: &'a Opened,
    path: &[u8],
    hyper: &HyperRef<'b>,
) -> Result<(u32, StoredArray<'a>, Slab<'b>), EditFault>
    ensures { let tree = opened.now.tree in
        MatchResult result (IsSelectedAt tree path.now hyper.now) (λ e.
        first_holding (selection_rules tree path.now hyper.now) ≡ Some e) }
{
    let (number, array) = array_at(opened, path)?;
    let slab = slab_within(array.array().dims(), hyper)?;
    Ok((number, array, slab))
}

/// The bytes of the selected cells of an array as they stand in the image, where no rule refuses the selection and the
/// cells stand one behind another there: cells of one row of a chunk, of a contiguous block, or in the header. `None`
/// else. In a block and in the header, selected cells that are one run are always found; in chunks it is left open
/// which are. Takes no memory.
pub fn standing_cells<'a>(array: &StoredArray<'a>, hyper: &HyperRef<'_>) -> Option<&'a [u8]>
    ensures bytes { IfSome result (λ bytes. HasSelectedBytes array.now hyper.now bytes.now) }
    ensures found { is_in_line array.now.storage ≡ true
        → (run : CellRun) → IsOneRun array.now.sizes hyper.now run → IsSome result }
{
    array.standing(hyper)
}

/// The selection of the four lists, in an array of these sizes. Takes no memory.
///
/// # Errors
///
/// The one with the lowest number that holds:
///
/// - `RankMismatch`: a list has not one number for each dimension.
/// - `StrideZero`: a stride is 0.
/// - `BlocksOverlap`: a stride is below its block, and there is more than one block.
/// - `OutOfExtent`: a selected cell is outside the sizes.
pub fn slab_within<'a>(dims: &Dims, hyper: &HyperRef<'a>) -> Result<Slab<'a>, EditFault>
    ensures rules { let rules = hyper_rules dims.now hyper.now in
        MatchResult result (λ slab. (first_holding rules ≡ None) × (slab ≡ axes_of hyper.now)) (λ e.
        first_holding rules ≡ Some e) }
    ensures inside { IfOk result (IsSlabOf dims.now) }
{
    if hyper.start().len() != dims.sizes().len() {
        return Err(EditFault::RankMismatch);
    }
    let slab = match Slab::new(hyper) {
        Ok(slab) => slab,
        Err(fault) => return Err(edit_fault(fault)),
    };
    if !slab.within(dims) {
        return Err(EditFault::OutOfExtent);
    }
    Ok(slab)
}

/// The refusal of an edit whose lists are no selection.
fn edit_fault(fault: SlabFault) -> EditFault
    ensures { result ≡ fault_of_slab fault }
{
    match fault {
        SlabFault::RankMismatch => EditFault::RankMismatch,
        SlabFault::StrideZero => EditFault::StrideZero,
        SlabFault::BlocksOverlap => EditFault::BlocksOverlap,
    }
}
