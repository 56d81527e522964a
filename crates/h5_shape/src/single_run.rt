//! Hyperslabs that are one run of consecutive cells (HDF5 dataspace reference, H5Sselect_hyperslab).
ghost use Rattle.std.specs.Prelude.{◌≡◌, ◌+◌, ◌^◌, ◌<◌, ◌≤◌, IfSome, IsSome, MatchOption, true, ◌∷◌, length, drop};
ghost use Rattle.h5_model.specs.Format.Limits.{most_cells};
ghost use Rattle.h5_model.specs.Tree.Places.{cells as cells_of};
ghost use Rattle.h5_shape.specs.OneRun.{IsOneRun};
ghost use Rattle.h5_shape.specs.InnerRuns.{HasNoInnerRun, IsInnerRun, follow_on, selects_along as selects_some};

use crate::axes::Axes;
use crate::dims::Dims;
use crate::hyper::HyperRef;
use crate::runs::CellRun;
use crate::slab::fits_size;
use h5_model::Axis;

/// The selected cells of the inner dimensions, where they are a run.
#[derive(Clone, Copy)]
struct InnerRun {
    /// The place of the first among the cells of these dimensions.
    place: u64,
    /// How many are selected.
    length: u64,
    /// How many cells these dimensions have.
    cells: u64,
}

/// The selected cells of an array of these sizes as one run of consecutive places in row-major order.
///
/// `None` where the lists are no selection within the sizes, where they select no cell, or where the selected cells
/// are more than one run. Takes no memory. That there are at most 2^40 cells is the caller's condition.
pub fn one_run(dims: &Dims, hyper: &HyperRef<'_>) -> Option<CellRun>
    requires small { cells_of dims.now ≤ most_cells }
    ensures run { IfSome result (IsOneRun dims.now hyper.now) }
    ensures exact { (run : CellRun) → IsOneRun dims.now hyper.now run → IsSome result }
{
    let sizes = dims.sizes();
    let axes = Axes::of(hyper)?;
    if axes.len() != sizes.len() {
        return None;
    }
    let InnerRun { place, length, .. } = run_from(sizes, &axes, 0)?;
    Some(CellRun { place, length })
}

/// The run of the selected cells of the dimensions from k on.
fn run_from(sizes: &[u64], axes: &Axes<'_>, k: usize) -> Option<InnerRun>
    requires rank { length axes.now ≡ length sizes.now }
    requires small { cells_of (drop k sizes.now) ≤ most_cells }
    ensures { MatchOption result (HasNoInnerRun (drop k sizes.now) (drop k axes.now))
        (IsInnerRun (drop k sizes.now) (drop k axes.now)) }
{
    if k >= sizes.len() {
        return Some(InnerRun {
            place: 0,
            length: 1,
            cells: 1,
        });
    }
    let size = sizes[k];
    let axis = axes.at(k);
    // Then the size is not 0, so that the inner dimensions have no more cells than all.
    if !selects_along(size, &axis) {
        return None;
    }
    let inner = run_from(sizes, axes, k + 1)?;
    if !is_gapless(&axis, &inner) {
        return None;
    }
    Some(InnerRun {
        place: axis.start * inner.cells + inner.place,
        length: axis.count * axis.block * inner.length,
        cells: size * inner.cells,
    })
}

/// Whether an axis selects a number, none twice, and all of them below the size.
fn selects_along(size: u64, axis: &Axis) -> bool
    ensures { result ≡ selects_some size axis.now }
{
    let has_cell = axis.stride > 0 && axis.count > 0 && axis.block > 0;
    let is_apart = axis.stride >= axis.block || axis.count <= 1;
    has_cell && is_apart && fits_size(size, axis)
}

/// Whether the inner runs at the numbers that an axis selects follow one another without a gap, or there is just one.
fn is_gapless(axis: &Axis, inner: &InnerRun) -> bool
    ensures { result ≡ follow_on axis.now inner.now.length inner.now.cells }
{
    let is_one_block = axis.count == 1;
    if is_one_block && axis.block == 1 {
        return true;
    }
    inner.length == inner.cells && (is_one_block || axis.stride == axis.block)
}
