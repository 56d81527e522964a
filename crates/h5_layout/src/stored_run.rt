//! Where the cells of a run stand, or the storage that is missing for them (File Format Specification 3.0, sections III.A.1 and
//! IV.A.2.i).

ghost use Rattle.std.specs.Prelude.{◌≡◌, ℕ, ◌+◌, ◌^◌, ◌<◌, ◌≤◌, Ok, Some, IfOk, [], ◌∷◌, length};
ghost use Rattle.h5_model.specs.Format.Limits.{most_dimensions};
ghost use Rattle.h5_model.specs.Tree.Places.{cells as cells_of};
ghost use Rattle.h5_layout.specs.ArrayChunks.{IsChunked};
ghost use Rattle.h5_layout.specs.Data.{AreDataRead};
ghost use Rattle.h5_layout.specs.RunStorage.{HasRunStorage, IsParted};
ghost use Rattle.h5_layout.specs.Standing.{address_at};
ghost use Rattle.h5_layout.specs.declared.stored_run.RunStorage.TheVariants as storage;

use crate::array::ArrayRef;
use crate::chunked::ChunkedArray;
use crate::lacking::Missing;
use crate::locate::{row_in_chunk, write_index};
use crate::new_chunks::stored_at;
use h5_chunks::{ChunkList, ChunkShape};
use h5_msg::Layout;
use h5_shape::{CellRun, MAX_RANK};
use h5_space::Image;
use std::alloc::{AllocError, Global};

/// Where the cells of a run of an array stand, or what is missing for them.
#[derive(Drop)]
pub enum RunStorage {
    /// One behind another in the image, the first at this address.
    Standing(u64),
    /// In one chunk, or in one block, that is not stored.
    Missing {
        /// What is missing.
        missing: Missing,
        /// The place of the first of them in it, in cells.
        inner: u64,
    },
    /// In several chunks or rows of a chunk, or in a header.
    Parted,
}

/// Where the cells of a run of an array stand one behind another in the image, or the one block or chunk that is missing for
/// them. No header is read.
///
/// It is `Parted` only where the cells are those of a header, or more than are left in the row of the chunk that has the first of
/// them. A cell alone that stands in a block or in a chunk is found there.
///
/// Takes memory for the key of a missing chunk. These are the caller's conditions: the data stand in the image; and the array
/// has the cells of the run, of which there is one at least.
///
/// # Errors
///
/// `AllocError` if memory is refused.
pub fn run_storage(
    alloc: Global,
    image: &Image,
    array: &ArrayRef<'_>,
    run: CellRun,
) -> Result<RunStorage, AllocError>
    requires data { AreDataRead image.now.bytes array.now.fixed array.now.layout }
    requires some { 0 < run.length }
    requires below { run.place + run.length ≤ cells_of array.now.sizes }
    ensures storage { IfOk result (HasRunStorage image.now.bytes array.now run) }
    ensures one { (at : ℕ) → run.length ≡ 1 → address_at image.now.bytes array.now run.place ≡ Some at
        → result ≡ Ok (storage.Standing at) }
    ensures parted { result ≡ Ok storage.Parted → IsParted array.now run array.now.layout }
{
    // The image is not longer than memory.
    let _bytes = image.bytes();
    let size = array.fixed().size() as u64;
    match array.layout() {
        Layout::Compact(_) => Ok(RunStorage::Parted),
        Layout::Contiguous(block) => {
            let Some(block) = block else {
                return Ok(RunStorage::Missing {
                    missing: Missing::Block,
                    inner: run.place,
                });
            };
            Ok(RunStorage::Standing(block.at + run.place * size))
        }
        Layout::Chunked { .. } => storage_in_chunks(alloc, image, array, run),
    }
}

/// Where the cells of a run of an array in chunks stand, or the chunk that is missing for them, if they are in one row of one
/// chunk.
fn storage_in_chunks(
    alloc: Global,
    image: &Image,
    array: &ArrayRef<'_>,
    run: CellRun,
) -> Result<RunStorage, AllocError>
    requires data { AreDataRead image.now.bytes array.now.fixed array.now.layout }
    requires chunked { IsChunked array.now.layout }
    requires some { 0 < run.length }
    requires below { run.place + run.length ≤ cells_of array.now.sizes }
    ensures storage { IfOk result (HasRunStorage image.now.bytes array.now run) }
    ensures one { (at : ℕ) → run.length ≡ 1 → address_at image.now.bytes array.now run.place ≡ Some at
        → result ≡ Ok (storage.Standing at) }
    ensures parted { result ≡ Ok storage.Parted → IsParted array.now run array.now.layout }
{
    let chunks = ChunkedArray::of(array);
    let Layout::Chunked { sizes: chunk, .. } = array.layout() else {
        unreachable!()
    };
    let sizes = array.dims().sizes();
    let row = row_in_chunk(sizes, chunk, run.place);
    if row.cells < run.length {
        return Ok(RunStorage::Parted);
    }
    let mut room = [0; MAX_RANK];
    let corner = &mut room[..sizes.len()];
    write_index(sizes, row.corner.place, corner);
    let shape = chunks.shape();
    if let Some(at) = stored_at(image, &shape, chunks.root(), corner) {
        // The image is not longer than memory.
        let _bytes = image.bytes();
        return Ok(RunStorage::Standing(at + row.inner * chunks.fixed().size() as u64));
    }
    let new = one_chunk(alloc, &shape, corner)?;
    Ok(RunStorage::Missing {
        missing: Missing::Chunks { array: chunks, new },
        inner: row.inner,
    })
}

/// The chunk of this shape at these offsets, alone.
fn one_chunk(
    alloc: Global,
    shape: &ChunkShape<'_>,
    offsets: &[u64],
) -> Result<ChunkList, AllocError>
    requires rank { length offsets.now ≡ length shape.now.sizes }
    requires small { shape.now.bytes < 2 ^ 32 }
    requires few { length offsets.now ≤ most_dimensions }
    ensures { IfOk result (λ new. new ≡ record {
      rank = length shape.now.sizes;
      bytes = shape.now.bytes;
      offsets = offsets.now ∷ [];
    }) }
{
    let mut new = ChunkList::new(alloc, shape);
    new.push(offsets)?;
    Ok(new)
}
