//! Cells that are to be written, and how they are stored (File Format Specification 3.0, sections III.A.1 and IV.A.2.i).

ghost use Rattle.std.specs.Prelude.{◌≡◌, ℕ, ℤ, List, None, IfOk, IfSome, MatchResult};
ghost use Rattle.h5_model.specs.Edits.Refusal.{first_holding};
ghost use Rattle.h5_model.specs.Tree.Objects.{Dataset};
ghost use Rattle.h5_model.specs.declared.edits.Edit.TheVariants.{Write};
ghost use Rattle.h5_query.specs.Data.{AreDataRead};
ghost use Rattle.h5_query.specs.Kept.{IsArrayAt};
ghost use Rattle.h5_query.specs.Selected.{hyper_rules};
ghost use Rattle.h5_edit.specs.Carried.{IsRefused};
ghost use Rattle.h5_edit.specs.Refusals.Allowed.{AreValuesOfRun};
ghost use Rattle.h5_edit.specs.WriteTarget.{AreCellsFound, IsTarget};

use crate::rules::check_cells;
use h5_layout::{Buffer, Missing, RunStorage, missing_of, run_storage};
use h5_model::{EditFault, Fixed};
use h5_query::{ArrayRef, Opened, StandingCells, described_of, slab_within};
use h5_shape::{CellRun, HyperRef};
use h5_space::Image;
use std::alloc::{AllocError, Global};

/// How cells that are to be written are stored.
#[derive(Drop)]
pub(crate) enum TargetCells {
    /// They stand one behind another in the image.
    Standing(StandingCells),
    /// They are one run, in a chunk or a block that is missing.
    Missing(MissingRun),
    /// Neither was found. So much is missing of their storage, or nothing.
    Parted(Option<Missing>),
}

/// A run of cells in a chunk or a block that is missing.
#[derive(Drop)]
pub(crate) struct MissingRun {
    /// What is missing.
    pub(crate) missing: Missing,
    /// The type of each cell.
    pub(crate) fixed: Fixed,
    /// The place of the first of them in the array, in row-major order. Contracts alone read it.
    pub(crate) place: u64,
    /// Its place in the chunk or the block, in cells.
    pub(crate) inner: u64,
}

/// How the selected cells of the array of this number are stored, into which values are to be written, or why the write is refused. The
/// array's header is read once. Takes memory for the keys of missing chunks.
///
/// Refused are, by the lowest number that holds, `RankMismatch`, `StrideZero`, `BlocksOverlap`, `OutOfExtent`, `ValueCount`, `ValueRange`;
/// where none of these holds, `NoMemory`.
pub(crate) fn cells_to_write(
    alloc: Global,
    opened: &Opened,
    number: u32,
    hyper: &HyperRef<'_>,
    values: &Buffer<'_>,
) -> Result<TargetCells, EditFault>
    requires { (path : List ℕ) × (d : Dataset) × IsArrayAt opened.now.tree path (number, d) }
    ensures { (path : List ℕ) (d : Dataset) → IsArrayAt opened.now.tree path (number, d)
        → MatchResult result (IsTarget opened.now path hyper.now values.now number)
        (IsRefused opened.now (Write path hyper.now values.now)) }
{
    let image = opened.image();
    let array = described_of(opened, number);
    let run = check_cells(&array, hyper, values)?;
    Ok(stored_cells(alloc, image, &array, hyper, run)?)
}

/// How the selected cells of an array are stored. Where they are one run, this is `run`.
///
/// That no rule refuses the selection, and that the array's data stand in the image, are the caller's conditions.
///
/// # Errors
///
/// `AllocError` if memory is refused.
fn stored_cells(
    alloc: Global,
    image: &Image,
    array: &ArrayRef<'_>,
    hyper: &HyperRef<'_>,
    run: Option<CellRun>,
) -> Result<TargetCells, AllocError>
    requires data { AreDataRead image.now.bytes array.now.fixed array.now.layout }
    requires selects { first_holding (hyper_rules array.now.sizes hyper.now) ≡ None }
    requires run { (values : List ℤ) × IfSome run (AreValuesOfRun array.now hyper.now values) }
    ensures { (values : List ℤ) → IfSome run (AreValuesOfRun array.now hyper.now values)
        → IfOk result (AreCellsFound image.now.bytes array.now hyper.now values) }
{
    let Some(run) = run else {
        return parted_cells(alloc, image, array, hyper);
    };
    let fixed = array.fixed();
    let place = run.place;
    match run_storage(alloc, image, array, run)? {
        RunStorage::Standing(at) => Ok(TargetCells::Standing(StandingCells { fixed, place, at })),
        RunStorage::Missing { missing, inner } => Ok(TargetCells::Missing(MissingRun {
            missing,
            fixed,
            place,
            inner,
        })),
        RunStorage::Parted => parted_cells(alloc, image, array, hyper),
    }
}

/// What is missing of the storage of selected cells that were not found to stand together.
///
/// That no rule refuses the selection, and that the array's data stand in the image, are the caller's conditions.
fn parted_cells(
    alloc: Global,
    image: &Image,
    array: &ArrayRef<'_>,
    hyper: &HyperRef<'_>,
) -> Result<TargetCells, AllocError>
    requires data { AreDataRead image.now.bytes array.now.fixed array.now.layout }
    requires selects { first_holding (hyper_rules array.now.sizes hyper.now) ≡ None }
    ensures { (values : List ℤ) → IfOk result (AreCellsFound image.now.bytes array.now hyper.now values) }
{
    let Ok(slab) = slab_within(array.dims(), hyper) else {
        unreachable!()
    };
    Ok(TargetCells::Parted(missing_of(alloc, image, array, &slab)?))
}
