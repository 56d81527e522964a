//! Hyperslabs: regular selections of an array.

ghost use Rattle.std.specs.Prelude.{◌≡◌, IfOk};

use crate::list::Items;
use std::alloc::{AllocError, Global};

/// One dimension of a selection: `count` blocks of `block` cells, `stride` apart, from `start` on.
#[derive(Clone, Copy, PartialEq, Eq, Debug)]
pub struct Axis {
    pub start: u64,
    pub stride: u64,
    pub count: u64,
    pub block: u64,
}

/// A selection of a grid: in each dimension `count` blocks of `block` cells, `stride` apart, from `start` on.
#[derive(Debug, Drop)]
pub struct Hyper {
    pub start: Items<u64>,
    pub stride: Items<u64>,
    pub count: Items<u64>,
    pub block: Items<u64>,
}

impl Hyper {
    /// The selection with these four lists. Each list has one number for each dimension, in cells or blocks, for the
    /// dimension that runs slowest first.
    ///
    /// Nothing is checked here. What is wrong with a selection is answered by the call that uses it.
    ///
    /// # Errors
    ///
    /// `AllocError` if memory is refused.
    pub fn new(
        alloc: Global,
        start: &[u64],
        stride: &[u64],
        count: &[u64],
        block: &[u64],
    ) -> Result<Hyper, AllocError>
        ensures { IfOk result (λ hyper.
            hyper ≡ record { start = start.now; stride = stride.now; count = count.now; block = block.now }) }
    {
        Ok(Hyper {
            start: Items::from_slice(alloc, start)?,
            stride: Items::from_slice(alloc, stride)?,
            count: Items::from_slice(alloc, count)?,
            block: Items::from_slice(alloc, block)?,
        })
    }
}
