//! What an attribute is to be.

ghost use Rattle.std.specs.Prelude.{◌≡◌, IfOk};

use crate::fixed_point::Fixed;
use crate::list::Items;
use std::alloc::{AllocError, Global};

/// An attribute to be set.
#[derive(Debug, Drop)]
pub struct AttrSpec {
    pub name: Items<u8>,
    pub fixed: Fixed,
    pub dims: Items<u64>,
    pub values: Items<i128>,
}

impl AttrSpec {
    /// An attribute with this name, type, sizes and values. The bytes of the name stand in the file as they are.
    /// There is one value for each cell, in row-major order: the last size runs fastest. No size makes a scalar, with
    /// one value.
    ///
    /// Nothing is checked here. What is wrong with an attribute is answered by the call that sets it.
    ///
    /// # Errors
    ///
    /// `AllocError` if memory is refused.
    pub fn new(
        alloc: Global,
        name: &[u8],
        fixed: Fixed,
        dims: &[u64],
        values: &[i128],
    ) -> Result<AttrSpec, AllocError>
        ensures { IfOk result (λ attr.
            attr ≡ record { name = name.now; fixed = fixed; dims = dims.now; values = values.now }) }
    {
        Ok(AttrSpec {
            name: Items::from_slice(alloc, name)?,
            fixed,
            dims: Items::from_slice(alloc, dims)?,
            values: Items::from_slice(alloc, values)?,
        })
    }
}
