//! Hyperslab selections (HDF5 dataspace reference, H5Sselect_hyperslab).
ghost use Rattle.std.specs.Prelude.{◌≡◌, ◌-◌, ◌^◌, ◌≤◌, ◌↔◌, IsTrue, EachIndex, length, min, replicate, slice_index};
ghost use Rattle.std.specs.List.{list_any};
ghost use Rattle.h5_model.specs.Format.Limits.{most_cells};
ghost use Rattle.h5_model.specs.Views.Selection.{Within, fits_along, fits_all, has_no_stride, is_one_run, is_within as is_within_sizes, overlaps, selected_cells, selection_of, selects_none};
ghost use Rattle.h5_model.specs.Tree.Places.{cells as cells_of};
ghost use Rattle.h5_shape.specs.Parts.{parts_of};
ghost use Rattle.h5_shape.specs.PartCells.{AreParted};
ghost use Rattle.h5_shape.specs.Runs.{AreMaximal, places_in, cell_runs};

use crate::axes::Axes;
use crate::dims::{Dims, MAX_RANK};
use crate::hyper::HyperRef;
use crate::parts::ChunkParts;
use crate::runs::CellRuns;
use h5_model::Axis;
use std::marker::Model;
use thiserror::Error;

/// Why four lists are no selection.
#[derive(Clone, Copy, PartialEq, Eq, Debug, Error)]
pub enum SlabFault {
    /// The lists have different lengths, or more than 32 numbers.
    #[error("the lists have different lengths, or more than 32 numbers")]
    RankMismatch,
    /// A stride is 0.
    #[error("a stride is 0")]
    StrideZero,
    /// A stride is below its block where there is more than one block.
    #[error("blocks overlap")]
    BlocksOverlap,
}

/// A selection, with an axis for each of at most 32 dimensions. Strides are at least 1, and blocks share no cell. Its
/// four lists are lent, so it takes no memory, and a move costs the same for any number of dimensions.
#[derive(Debug, Drop)]
pub struct Slab<'a> {
    axes: Axes<'a>,
}

impl<'a> Model for Slab<'a> {
    ghost use Rattle.std.specs.Prelude.{List};
    ghost use Rattle.h5_model.specs.declared.Axis.{Axis};
    ghost use Rattle.h5_shape.specs.Slab.{IsSlab};

    ghost Value = { List Axis };

    ghost view = { λ s. s.axes };

    ghost invariant = { λ s. IsSlab s.axes };
}

impl<'a> Slab<'a> {
    ghost use Rattle.h5_shape.specs.Slab.{IsSlab, slab_of};

    /// The selection of these four lists. Takes no memory.
    ///
    /// # Errors
    ///
    /// The first of these that holds:
    ///
    /// - `RankMismatch`: the lists have different lengths, or more than 32 numbers.
    /// - `StrideZero`: a stride is 0.
    /// - `BlocksOverlap`: a stride is below its block, and there is more than one block.
    pub fn new(hyper: &HyperRef<'a>) -> Result<Slab<'a>, SlabFault>
        ensures { result ≡ slab_of hyper.now }
    {
        let Some(axes) = Axes::of(hyper) else {
            return Err(SlabFault::RankMismatch);
        };
        if axes.len() > MAX_RANK {
            return Err(SlabFault::RankMismatch);
        }
        if has_zero_stride(&axes) {
            return Err(SlabFault::StrideZero);
        }
        if has_overlap(&axes) {
            return Err(SlabFault::BlocksOverlap);
        }
        Ok(Slab { axes })
    }

    /// The selection of these axes, which are known to be one.
    pub(crate) fn known(axes: Axes<'a>) -> Slab<'a>
        requires { IsSlab axes }
        ensures { result ≡ axes.entry }
    {
        Slab { axes }
    }

    /// The axes, the one that runs slowest first.
    pub fn axes(&self) -> &Axes<'a>
        ensures axes { result.now ≡ self.now }
        ensures sound { IsSlab self.now }
    {
        &self.axes
    }

    /// Whether every selected index is inside these sizes. A selection of no cell is inside any sizes of as many
    /// dimensions.
    pub fn within(&self, dims: &Dims) -> bool
        requires rank { length dims.now ≡ length self.now }
        ensures value { result ≡ is_within_sizes dims.now self.now }
        ensures inside { IsTrue result ↔ Within dims.now self.now }
        ensures cells { IsTrue result → length (selection_of dims.now self.now) ≡ selected_cells self.now }
    {
        is_within(dims.sizes(), self.axes())
    }

    /// How many cells are selected, or `u64::MAX` where there are more.
    pub fn cells(&self) -> u64
        ensures { result ≡ min (selected_cells self.now) (2 ^ 64 - 1) }
    {
        cells(self.axes())
    }

    /// The selected cells as runs of consecutive places in row-major order, each as long as it can be. Takes no
    /// memory.
    ///
    /// That the selection is within the sizes, and that these have at most 2^40 cells, are the caller's conditions.
    pub fn runs<'b>(&'b self, dims: &'b Dims) -> CellRuns<'b>
        requires rank { length dims.now ≡ length self.now }
        requires within { Within dims.now self.now }
        requires small { cells_of dims.now ≤ most_cells }
        ensures value { result ≡ cell_runs (selection_of dims.now self.now) }
        ensures places { places_in result ≡ selection_of dims.now self.now }
        ensures maximal { AreMaximal result }
    {
        let (sizes, axes) = (dims.sizes(), self.axes());
        if is_empty(axes) {
            return CellRuns::none(sizes, axes);
        }
        CellRuns::of(sizes, axes)
    }

    /// Whether there is a selected cell, and all selected cells stand at consecutive row-major places.
    ///
    /// That the selection is within the sizes, and that these have at most 2^40 cells, are the caller's conditions.
    pub fn one_run(&self, dims: &Dims) -> bool
        requires rank { length dims.now ≡ length self.now }
        requires within { Within dims.now self.now }
        requires small { cells_of dims.now ≤ most_cells }
        ensures { result ≡ is_one_run dims.now self.now }
    {
        let mut runs = self.runs(dims);
        runs.next().is_some() && runs.next().is_none()
    }

    /// The selection in parts: for each box of the grid of chunks that holds a selected cell, which of the selected
    /// cells it holds, in row-major order of the boxes. `chunk` has the sizes of a chunk, in cells. Boxes past the
    /// sizes of the array count too. Takes no memory.
    ///
    /// That there is a chunk size for each dimension, none of them 0, and that no selected index passes `u64::MAX`,
    /// are the caller's conditions.
    pub fn chunk_parts<'b>(&'b self, chunk: &'b [u64]) -> ChunkParts<'b>
        requires rank { length chunk.now ≡ length self.now }
        requires sizes { EachIndex chunk.now (λ d. 1 ≤ slice_index chunk.now d) }
        requires top { Within (replicate (length self.now) (2 ^ 64)) self.now }
        ensures value { result ≡ parts_of self.now chunk.now }
        ensures parted { AreParted self.now chunk.now result }
    {
        let mut parts = ChunkParts::none(self.axes(), chunk);
        if !is_empty(self.axes()) {
            parts.select(self.axes(), chunk);
        }
        parts
    }
}

/// Whether a stride is 0.
fn has_zero_stride(axes: &Axes<'_>) -> bool
    ensures { result ≡ list_any has_no_stride axes.now }
{
    let Some(axis) = axes.first() else {
        return false;
    };
    axis.stride == 0 || has_zero_stride(&axes.rest())
}

/// Whether blocks of an axis overlap.
fn has_overlap(axes: &Axes<'_>) -> bool
    ensures { result ≡ list_any overlaps axes.now }
{
    let Some(axis) = axes.first() else {
        return false;
    };
    axis.stride < axis.block && axis.count > 1 || has_overlap(&axes.rest())
}

/// Whether no cell is selected, or the last block of every axis ends within its size.
fn is_within(sizes: &[u64], axes: &Axes<'_>) -> bool
    ensures { result ≡ is_within_sizes sizes.now axes.now }
{
    is_empty(axes) || fits(sizes, axes)
}

/// Whether no cell is selected.
fn is_empty(axes: &Axes<'_>) -> bool
    ensures { result ≡ selects_none axes.now }
{
    let Some(axis) = axes.first() else {
        return false;
    };
    axis.count == 0 || axis.block == 0 || is_empty(&axes.rest())
}

/// Whether the last block of an axis ends within the size.
pub(crate) fn fits_size(size: u64, axis: &Axis) -> bool
    ensures { result ≡ fits_along size axis.now }
{
    let last = u128::from(axis.count.saturating_sub(1)) * u128::from(axis.stride);
    u128::from(axis.start) + last + u128::from(axis.block) <= u128::from(size)
}

/// Whether the last block of every axis ends within its size.
fn fits(sizes: &[u64], axes: &Axes<'_>) -> bool
    ensures { result ≡ fits_all sizes.now axes.now }
{
    let [size, sizes @ ..] = sizes else {
        return true;
    };
    let Some(axis) = axes.first() else {
        return true;
    };
    fits_size(*size, &axis) && fits(sizes, &axes.rest())
}

/// The product of counts and blocks, or `u64::MAX` where it is larger.
fn cells(axes: &Axes<'_>) -> u64
    ensures { result ≡ min (selected_cells axes.now) (2 ^ 64 - 1) }
{
    let Some(axis) = axes.first() else {
        return 1;
    };
    axis.count
        .saturating_mul(axis.block)
        .saturating_mul(cells(&axes.rest()))
}
