//! Storage that is missing of cells that are to be written (File Format Specification 3.0, sections III.A.1 and IV.A.2.i).

ghost use Rattle.std.specs.Prelude.{◌≡◌, ◌<◌, ◌==◌, ◌||◌, if◌then◌else◌, IfOk, None, Some, is_some, length};
ghost use Rattle.h5_model.specs.Views.Selection.{Within, selected_cells};
ghost use Rattle.h5_layout.specs.ArrayChunks.{ArrayChunks, IsChunked, IsInChunksOf};
ghost use Rattle.h5_layout.specs.Data.{AreDataRead};
ghost use Rattle.h5_layout.specs.Lacking.{IsFound};
ghost use Rattle.h5_layout.specs.declared.lacking.Missing.TheVariants as missing;

use crate::array::ArrayRef;
use crate::chunked::ChunkedArray;
use crate::new_chunks::missing_chunks;
use h5_bytes::Block;
use h5_chunks::ChunkList;
use h5_msg::Layout;
use h5_shape::Slab;
use h5_space::Image;
use std::alloc::{AllocError, Global};

/// Storage that is missing of an array.
#[derive(Drop)]
pub enum Missing {
    /// The block of a contiguous array.
    Block,
    /// Chunks of an array that is in chunks.
    Chunks {
        /// The array, as its header describes it.
        array: ChunkedArray,
        /// Those of its chunks that are missing.
        new: ChunkList,
    },
}

/// What is missing of the storage of the selected cells of an array of the image, or `None` where each of them is stored.
///
/// Takes memory for the keys of missing chunks. That the array's data stand in the image, and that the selection is within
/// its sizes, are the caller's conditions.
///
/// # Errors
///
/// `AllocError` if memory is refused.
pub fn missing_of(
    alloc: Global,
    image: &Image,
    array: &ArrayRef<'_>,
    slab: &Slab<'_>,
) -> Result<Option<Missing>, AllocError>
    requires data { AreDataRead image.now.bytes array.now.fixed array.now.layout }
    requires rank { length slab.now ≡ length array.now.sizes }
    requires within { Within array.now.sizes slab.now }
    ensures { IfOk result (IsFound image.now.bytes array.now slab.now) }
{
    match array.layout() {
        Layout::Compact(_) => Ok(None),
        Layout::Contiguous(block) => {
            // No two blocks of a selection share a cell.
            let _axes = slab.axes();
            Ok(missing_block(*block, slab))
        }
        Layout::Chunked { .. } => {
            let new = missing_chunks(alloc, image, array, slab)?;
            Ok(missing_part(array, new))
        }
    }
}

/// The block of an array, where it has none and a cell is selected.
fn missing_block(block: Option<Block>, slab: &Slab<'_>) -> Option<Missing>
    ensures { result ≡ (if is_some block || selected_cells slab.now == 0 then None else Some missing.Block) }
{
    if block.is_some() || slab.cells() == 0 {
        None
    } else {
        Some(Missing::Block)
    }
}

/// These chunks of an array in chunks, where there are any.
fn missing_part(array: &ArrayRef<'_>, new: ChunkList) -> Option<Missing>
    requires { IsChunked array.now.layout }
    ensures none { length new.offsets ≡ 0 → result ≡ None }
    ensures some { 0 < length new.offsets
        → (k : ArrayChunks) × IsInChunksOf array.now k × (result ≡ Some (missing.Chunks k new)) }
{
    if new.is_empty() {
        return None;
    }
    Some(Missing::Chunks {
        array: ChunkedArray::of(array),
        new,
    })
}
