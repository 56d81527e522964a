//! Sizes and selections at the limits, which the program does not reach yet; places are those of NumPy's `ravel_multi_index`.

use h5_shape::{Dims, HyperRef, Slab, SlabFault, one_run};
use std::alloc::AllocError;
use std::test::Fail;

const LARGE: u64 = 1 << 32;

/// Sizes, how many cells they have, and whether these are few enough.
static CELLS: [(&[u64], u64, bool); 7] = [
    (&[], 1, true),
    (&[2, 3, 4], 24, true),
    (&[1048576, 1048576], 1099511627776, true),
    (&[1099511627777], 1099511627777, false),
    (&[0, 1099511627777], 0, false),
    (&[LARGE, LARGE], u64::MAX, false),
    (&[LARGE, LARGE, 0], 0, false),
];

/// Whether the sizes are kept, have so many cells, and these are few enough or not.
fn counts(sizes: &[u64], cells: u64, small: bool) -> bool {
    match Dims::new(sizes) {
        Some(dims) => { dims.sizes() == sizes && dims.cells() == cells && dims.is_small() == small }
        None => false,
    }
}

#[test]
fn counts_cells(rt: HostRuntime) {
    for k in 0..CELLS.len() {
        let (sizes, cells, small) = CELLS[k];
        assert!(rt; counts(sizes, cells, small), "row {k}");
    }
    assert!(rt; counts(&[1; 32], 1, true));
    assert!(rt; Dims::new(&[1; 33]).is_none());
}

/// Sizes, an index, and its place, where it is inside.
static PLACES: [(&[u64], &[u64], Option<u64>); 5] = [
    (&[], &[], Some(0)),
    (&[5], &[5], None),
    (&[5], &[0, 0], None),
    (&[2, 3, 4], &[1, 2, 3], Some(23)),
    (&[2, 3, 4], &[1, 0, 2], Some(14)),
];

/// The place of an index inside sizes of a few cells.
fn place_in(sizes: &[u64], index: &[u64]) -> Option<u64> {
    let dims = Dims::new(sizes)?;
    if dims.is_small() && dims.is_inside(index) {
        return Some(dims.place(index));
    }
    None
}

#[test]
fn places_cells(rt: HostRuntime) {
    for k in 0..PLACES.len() {
        let (sizes, index, place) = PLACES[k];
        assert!(rt; place_in(sizes, index) == place, "row {k}");
    }
}

/// The selection of the first and the third row, and in them of cells 1, 2, 4 and 5.
fn rows() -> HyperRef<'static> {
    HyperRef::new(&[0, 1], &[2, 3], &[2, 2], &[1, 2])
}

/// Whether the selection is within the sizes, which are as many as its axes.
fn is_within(slab: &Slab<'_>, dims: &Dims) -> bool {
    slab.axes().len() == dims.sizes().len() && slab.within(dims)
}

#[test]
fn bounds_and_counts_a_selection(rt: HostRuntime) -> Result<(), Fail> {
    let slab = Slab::new(&rows())?;
    let dims = Dims::new(&[3, 6]).ok_or(AllocError)?;
    assert!(rt; slab.cells() == 8 && is_within(&slab, &dims));
    let dims = Dims::new(&[2, 6]).ok_or(AllocError)?;
    assert!(rt; !is_within(&slab, &dims));
    Ok(())
}

/// The last two rows of three.
fn last_rows() -> HyperRef<'static> {
    HyperRef::new(&[1, 0], &[1, 1], &[2, 1], &[1, 6])
}

/// Whether the hyperslab is this one run, as place and length, or none.
fn is_run(dims: &Dims, hyper: &HyperRef<'_>, wanted: Option<(u64, u64)>) -> bool {
    if !dims.is_small() {
        return false;
    }
    match one_run(dims, hyper) {
        Some(run) => wanted == Some((run.place, run.length)),
        None => wanted.is_none(),
    }
}

/// Whether the selection in the sizes has these runs, as places and lengths, and is one run where there is one, and this.
fn has_runs(hyper: &HyperRef<'_>, dims: &Dims, wanted: &[(u64, u64)]) -> Result<bool, SlabFault> {
    let slab = Slab::new(hyper)?;
    if slab.axes().len() != dims.sizes().len() || !slab.within(dims) || !dims.is_small() {
        return Ok(false);
    }
    let mut runs = slab.runs(dims);
    for (place, length) in wanted {
        match runs.next() {
            Some(run) if run.place == *place && run.length == *length => {}
            _ => return Ok(false),
        }
    }
    let only = match wanted {
        [run] => Some(*run),
        _ => None,
    };
    let is_one = slab.one_run(dims) == only.is_some();
    Ok(runs.next().is_none() && is_one && is_run(dims, hyper, only))
}

#[test]
fn goes_over_runs(rt: HostRuntime) -> Result<(), Fail> {
    let dims = Dims::new(&[3, 6]).ok_or(AllocError)?;
    assert!(rt; has_runs(&rows(), &dims, &[(1, 2), (4, 2), (13, 2), (16, 2)])?);
    assert!(rt; has_runs(&last_rows(), &dims, &[(6, 12)])?);
    Ok(())
}

/// Sizes, the starts, strides, counts and blocks of a hyperslab, and the one run that it is, as place and length.
static ONE_RUN: [(&[u64], [&[u64]; 4], Option<(u64, u64)>); 17] = [
    // A cell.
    (&[3, 6], [&[1, 2], &[1, 1], &[1, 1], &[1, 1]], Some((8, 1))),
    // Two rows, and two planes in blocks of one row.
    (&[3, 6], [&[1, 0], &[1, 1], &[2, 1], &[1, 6]], Some((6, 12))),
    (
        &[3, 2, 5],
        [&[1, 0, 0], &[9, 1, 1], &[1, 2, 1], &[2, 1, 5]],
        Some((10, 20)),
    ),
    // Three cells of a row, and three of each of two rows.
    (&[3, 6], [&[2, 1], &[1, 1], &[1, 1], &[1, 3]], Some((13, 3))),
    (&[3, 6], [&[1, 0], &[1, 1], &[2, 1], &[1, 3]], None),
    (&[3, 6], [&[1, 0], &[1, 1], &[1, 1], &[2, 3]], None),
    // Blocks of one cell and of two, two apart, and the first and the third row.
    (&[8], [&[1], &[2], &[3], &[1]], None),
    (&[8], [&[1], &[2], &[3], &[2]], Some((1, 6))),
    (&[3, 6], [&[0, 0], &[2, 1], &[2, 1], &[1, 6]], None),
    // No block, no cell of a block, a stride of 0, and blocks that overlap.
    (&[8], [&[1], &[1], &[0], &[1]], None),
    (&[8], [&[1], &[1], &[1], &[0]], None),
    (&[8], [&[1], &[0], &[1], &[1]], None),
    (&[8], [&[1], &[1], &[2], &[2]], None),
    // A list too long, lists for two dimensions where there is one, and a cell past the extent.
    (&[8], [&[1], &[1], &[1, 1], &[1]], None),
    (&[8], [&[0, 1], &[1, 1], &[1, 1], &[1, 1]], None),
    (&[8], [&[5], &[1], &[1], &[4]], None),
    // The cell of a scalar.
    (&[], [&[], &[], &[], &[]], Some((0, 1))),
];

#[test]
fn finds_one_run(rt: HostRuntime) -> Result<(), Fail> {
    for k in 0..ONE_RUN.len() {
        let (sizes, [start, stride, count, block], wanted) = ONE_RUN[k];
        let dims = Dims::new(sizes).ok_or(AllocError)?;
        let hyper = HyperRef::new(start, stride, count, block);
        assert!(rt; is_run(&dims, &hyper, wanted), "row {k}");
    }
    Ok(())
}
