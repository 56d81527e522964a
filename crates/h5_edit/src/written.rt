//! Cells written (File Format Specification 3.0, sections III.A.1 and IV.A.2.i).

ghost use Rattle.std.specs.Prelude.{◌≡◌, ◌≤◌, ℕ, ℤ, List, Some, MatchResult};
ghost use Rattle.h5_model.specs.Format.Limits.{most_cells};
ghost use Rattle.h5_model.specs.Tree.Objects.{Dataset, dataset_of};
ghost use Rattle.h5_model.specs.Tree.Places.{cells};
ghost use Rattle.h5_model.specs.declared.edits.Edit.TheVariants.{Write};
ghost use Rattle.h5_model.specs.declared.hyperslab.Hyper.{Hyper as TheHyper};
ghost use Rattle.h5_edit.specs.Carried.{IsRefused};
ghost use Rattle.h5_edit.specs.Edited.{IsEdited};
ghost use Rattle.h5_edit.specs.Stored.{AreSelectedReady, AreSelectedWritten, HasStorage, IsStoring, IsWriteMade};
ghost use Rattle.h5_edit.specs.WriteTarget.{IsTarget};
ghost use Rattle.h5_edit.specs.declared.target.TargetCells.TheVariants as target;

use crate::links::insertion_fault;
use crate::target::{MissingRun, TargetCells, cells_to_write};
use h5_layout::{Buffer, Missing};
use h5_model::{EditFault, Edited, ObjectNo};
use h5_query::{Opened, StandingCells, array_number, described_of, slab_within};
use h5_shape::{Dims, HyperRef};
use std::alloc::Global;

/// Writes values into the selected cells of the array at the path: one value for each cell, in row-major order.
///
/// The storage that is missing is made first, where the array stands: the block of a contiguous array, or the chunks that hold a selected
/// cell. The other cells of that storage are the fill. Then the cells are written where they stand. No other object changes, and no header
/// moves. The image keeps its length if all selected cells are stored. Otherwise it grows by no more than that block, or the missing chunks
/// with 17 nodes of their tree for each, and a node.
///
/// # Errors
///
/// The first of these that holds; they come in the order of their numbers. A refusal changes nothing.
///
/// - `BadPath`: the bytes are no path.
/// - `PathTooDeep`: the path has more than 64 names.
/// - `NoSuchParent`: a name before the last one is missing.
/// - `NotAGroup`: a name before the last one leads to no group.
/// - `NotFound`: the last name is missing.
/// - `NotADataset`: a group or a soft link stands there.
/// - `RankMismatch`: a list has not one number for each dimension of the array.
/// - `StrideZero`: a stride is 0.
/// - `BlocksOverlap`: a stride is below its block, and there is more than one block.
/// - `OutOfExtent`: a selected cell is outside the sizes.
/// - `ValueCount`: there is not one value for each selected cell.
/// - `ValueRange`: a value is not one of the type.
/// - `TreeTooDeep`: one of the missing chunks, in its turn, finds the root of the array's B-tree at level 15 and all on the way to the chunk
///   full. Where the first one does, always; where another does, `ImageFull` may come in its place.
/// - `ImageFull`: the image, and the bytes that the missing storage may add, are more than 2147483648 bytes.
/// - `NoMemory`: memory is refused. It may come in place of `TreeTooDeep` and `ImageFull`.
pub fn write(
    alloc: Global,
    opened: &mut Opened,
    path: &[u8],
    hyper: &HyperRef<'_>,
    values: &Buffer<'_>,
) -> Result<Edited, EditFault>
    ensures { MatchResult result (IsEdited opened.old (Write path.now hyper.now values.now) opened.new) (λ e.
        IsRefused opened.old (Write path.now hyper.now values.now) e × (opened.new ≡ opened.old)) }
{
    let number = array_number(opened, path)?;
    match cells_to_write(alloc, opened, number, hyper, values)? {
        TargetCells::Standing(cells) => opened.write_standing(number, &cells, values),
        TargetCells::Missing(run) => write_missing_run(alloc, opened, number, &run, values)?,
        TargetCells::Parted(missing) => {
            make_missing(alloc, opened, number, missing)?;
            write_by_runs(opened, number, hyper, values);
        }
    }
    Ok(Edited {
        object: Some(ObjectNo(number)),
        refreshed: 0,
    })
}

/// Writes values into a run of cells of the array of this number. The chunk or the block that has them all is made first.
///
/// `TreeTooDeep` where the chunk finds no room in the tree, `ImageFull` where the image may pass 2147483648 bytes with it, `NoMemory`
/// where memory is refused. A refusal changes nothing.
fn write_missing_run(
    alloc: Global,
    opened: &mut Opened,
    number: u32,
    run: &MissingRun,
    values: &Buffer<'_>,
) -> Result<(), EditFault>
    requires { (path : List ℕ) × (hyper : TheHyper)
        × IsTarget opened.old path hyper values.now number (target.Missing run.now) }
    ensures { (path : List ℕ) (hyper : TheHyper)
        → IsTarget opened.old path hyper values.now number (target.Missing run.now)
        → MatchResult result (λ _. IsWriteMade opened.old path hyper values.now number opened.new) (λ e.
        IsRefused opened.old (Write path hyper values.now) e × (opened.new ≡ opened.old)) }
{
    let at = match opened.make_storage(alloc, number, &run.missing) {
        Ok(at) => at,
        Err(fault) => return Err(insertion_fault(fault)),
    };
    let cells = StandingCells {
        fixed: run.fixed,
        place: run.place,
        at: at + run.inner * run.fixed.size() as u64,
    };
    opened.write_standing(number, &cells, values);
    Ok(())
}

/// Makes the storage that is missing of the array of this number, if any is. A refusal changes nothing.
fn make_missing(
    alloc: Global,
    opened: &mut Opened,
    number: u32,
    missing: Option<Missing>,
) -> Result<(), EditFault>
    requires { (path : List ℕ) × (hyper : TheHyper) × (values : List ℤ)
        × IsStoring opened.old path hyper values number missing }
    ensures { (path : List ℕ) (hyper : TheHyper) (values : List ℤ)
        → IsStoring opened.old path hyper values number missing
        → MatchResult result (λ _. HasStorage opened.old path hyper values number opened.new) (λ e.
        IsRefused opened.old (Write path hyper values) e × (opened.new ≡ opened.old)) }
{
    let Some(missing) = missing else {
        return Ok(());
    };
    match opened.make_storage(alloc, number, &missing) {
        Ok(_) => Ok(()),
        Err(fault) => Err(insertion_fault(fault)),
    }
}

/// Writes values into the selected cells of the array of this number, all of which are stored, run by run.
fn write_by_runs(opened: &mut Opened, number: u32, hyper: &HyperRef<'_>, values: &Buffer<'_>)
    requires { (d : Dataset) × AreSelectedReady opened.old number hyper.now values.now d }
    ensures { AreSelectedWritten opened.old number hyper.now values.now opened.new }
{
    let dims = dims_of(opened, number);
    let Ok(slab) = slab_within(&dims, hyper) else {
        unreachable!()
    };
    opened.write_cells(number, slab.runs(&dims), values);
}

/// The sizes of the array of this number.
///
/// That an array has the number is the caller's condition.
fn dims_of(opened: &Opened, number: u32) -> Dims
    requires { (d : Dataset) × dataset_of opened.now.tree number ≡ Some d }
    ensures sizes { (d : Dataset) → dataset_of opened.now.tree number ≡ Some d → result ≡ d.sizes }
    ensures small { cells result ≤ most_cells }
{
    let array = described_of(opened, number);
    let Some(dims) = Dims::new(array.dims().sizes()) else {
        unreachable!()
    };
    dims
}
