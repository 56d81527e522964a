//! What a new dataset is to be.

ghost use Rattle.std.specs.Prelude.{◌≡◌, IfOk, Some, map};
ghost use Rattle.h5_model.specs.declared.dataset.Store.TheVariants as stored;

use crate::fixed_point::Fixed;
use crate::list::Items;
use std::alloc::{AllocError, Global};

/// How the cells of a dataset are stored. Chunks come with their sizes, in cells, for each dimension one.
#[derive(Debug, Drop)]
pub enum Store<C> {
    Compact,
    Contiguous,
    Chunked(C),
}

/// A dataset to be created. A maximum of `None` is unlimited.
#[derive(Debug, Drop)]
pub struct Spec {
    pub fixed: Fixed,
    pub dims: Items<u64>,
    pub maxima: Items<Option<u64>>,
    pub store: Store<Items<u32>>,
    pub fill: i128,
}

impl Spec {
    /// A dataset of this type and these sizes, counted in cells, with all cells in one block. The last size runs
    /// fastest. Each cell has the value `fill` until it is written. The dataset cannot be resized. No size makes a
    /// scalar, with one cell.
    ///
    /// Nothing is checked here. What is wrong with a dataset is answered by the call that creates it.
    ///
    /// # Errors
    ///
    /// `AllocError` if memory is refused.
    pub fn contiguous(
        alloc: Global,
        fixed: Fixed,
        dims: &[u64],
        fill: i128,
    ) -> Result<Spec, AllocError>
        ensures { IfOk result (λ spec. spec ≡ record {
          fixed = fixed;
          dims = dims.now;
          maxima = map Some dims.now;
          store = stored.Contiguous;
          fill = fill;
        }) }
    {
        unresizable(alloc, fixed, dims, Store::Contiguous, fill)
    }

    /// A dataset as [`Spec::contiguous`] makes it, but with its cells in its header. They may have 65524 bytes at
    /// most.
    ///
    /// # Errors
    ///
    /// `AllocError` if memory is refused.
    pub fn compact(
        alloc: Global,
        fixed: Fixed,
        dims: &[u64],
        fill: i128,
    ) -> Result<Spec, AllocError>
        ensures { IfOk result (λ spec. spec ≡ record {
          fixed = fixed;
          dims = dims.now;
          maxima = map Some dims.now;
          store = stored.Compact;
          fill = fill;
        }) }
    {
        unresizable(alloc, fixed, dims, Store::Compact, fill)
    }

    /// A dataset as [`Spec::contiguous`] makes it, but in chunks; `chunks` has the cells of a chunk along each
    /// dimension. It can be resized up to the maxima, of which `None` means unlimited.
    ///
    /// # Errors
    ///
    /// `AllocError` if memory is refused.
    pub fn chunked(
        alloc: Global,
        fixed: Fixed,
        dims: &[u64],
        maxima: &[Option<u64>],
        chunks: &[u32],
        fill: i128,
    ) -> Result<Spec, AllocError>
        ensures { IfOk result (λ spec. spec ≡ record {
          fixed = fixed;
          dims = dims.now;
          maxima = maxima.now;
          store = stored.Chunked chunks.now;
          fill = fill;
        }) }
    {
        Ok(Spec {
            fixed,
            dims: Items::from_slice(alloc, dims)?,
            maxima: Items::from_slice(alloc, maxima)?,
            store: Store::Chunked(Items::from_slice(alloc, chunks)?),
            fill,
        })
    }
}

/// An array that is stored so, and whose maxima are its sizes.
fn unresizable(
    alloc: Global,
    fixed: Fixed,
    dims: &[u64],
    store: Store<Items<u32>>,
    fill: i128,
) -> Result<Spec, AllocError>
    ensures { IfOk result (λ spec. spec ≡ record {
      fixed = fixed;
      dims = dims.now;
      maxima = map Some dims.now;
      store = store;
      fill = fill;
    }) }
{
    Ok(Spec {
        fixed,
        dims: Items::from_slice(alloc, dims)?,
        maxima: own_maxima(alloc, dims)?,
        store,
        fill,
    })
}

/// Each size as its own maximum.
fn own_maxima(alloc: Global, dims: &[u64]) -> Result<Items<Option<u64>>, AllocError>
    ensures { IfOk result (λ maxima. maxima ≡ map Some dims.now) }
{
    let mut maxima = Vec::with_capacity(alloc, dims.len())?;
    for size in dims {
        maxima.push(Some(*size))?;
    }
    Ok(Items::new(maxima))
}
