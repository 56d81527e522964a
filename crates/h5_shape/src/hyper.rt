//! The four lists of a hyperslab, lent by whoever selects (HDF5 dataspace reference, H5Sselect_hyperslab).
ghost use Rattle.std.specs.Prelude.{◌≡◌};

use h5_model::Hyper;
use std::marker::Model;

/// A hyperslab: in each dimension `count` blocks of `block` cells, `stride` apart, from `start` on. The four lists are lent
/// by the caller, so it takes no memory. Each has one number for each dimension, the one that runs slowest first.
///
/// Nothing is checked here. What is wrong with a selection is answered by the call that uses it.
#[derive(Debug, Drop)]
pub struct HyperRef<'a> {
    start: &'a [u64],
    stride: &'a [u64],
    count: &'a [u64],
    block: &'a [u64],
}

impl<'a> Model for HyperRef<'a> {
    ghost use Rattle.h5_model.specs.declared.hyperslab.Hyper.{Hyper};

    ghost Value = { Hyper };

    ghost view = { λ h. record { start = h.start.now; stride = h.stride.now; count = h.count.now; block = h.block.now } };
}

impl<'a> HyperRef<'a> {
    /// The selection of these four lists, in cells or blocks.
    pub fn new(start: &'a [u64], stride: &'a [u64], count: &'a [u64], block: &'a [u64]) -> Self
        ensures { result
            ≡ record { start = start.now; stride = stride.now; count = count.now; block = block.now } }
    {
        HyperRef {
            start,
            stride,
            count,
            block,
        }
    }

    /// The selection of an edit or of a line of a script.
    pub fn of(hyper: &'a Hyper) -> Self
        ensures { result ≡ hyper.now }
    {
        HyperRef {
            start: hyper.start.as_slice(),
            stride: hyper.stride.as_slice(),
            count: hyper.count.as_slice(),
            block: hyper.block.as_slice(),
        }
    }

    /// The same lists, lent once more.
    pub fn lend(&self) -> HyperRef<'a>
        ensures { result ≡ self.now }
    {
        HyperRef::new(self.start, self.stride, self.count, self.block)
    }

    /// The first index that is selected in each dimension.
    pub fn start(&self) -> &'a [u64]
        ensures { result.now ≡ self.now.start }
    {
        self.start
    }

    /// How far the first cells of two blocks are apart, in cells.
    pub fn stride(&self) -> &'a [u64]
        ensures { result.now ≡ self.now.stride }
    {
        self.stride
    }

    /// How many blocks there are.
    pub fn count(&self) -> &'a [u64]
        ensures { result.now ≡ self.now.count }
    {
        self.count
    }

    /// How many cells a block has.
    pub fn block(&self) -> &'a [u64]
        ensures { result.now ≡ self.now.block }
    {
        self.block
    }
}
