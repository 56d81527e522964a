//! Arrays as the object headers of datasets describe them: type, sizes, maxima, fill value and layout, and their
//! cells (File Format Specification 3.0, section IV.A.2).
//!
//! Storage that is missing is made where an array stands, and so are other sizes given. Only `missing_chunks`,
//! `missing_of`, `run_storage`, `outside_of`, `make_storage` and the calls of `HeldChunks` take memory. Places and lengths of data are
//! in bytes, sizes of arrays and chunks in cells.
#![tactic(auto)]

mod address;
mod array;
mod beside;
mod bodies;
mod buffer;
mod cells;
mod chunked;
mod compact;
mod copied;
mod corner;
mod extent;
mod fill;
mod filled;
mod grid;
mod header;
mod held;
mod index;
mod judge;
mod lacking;
mod locate;
mod named_tree;
mod new_chunks;
mod pieces;
mod places;
mod read;
mod resize;
mod storage;
mod stored;
mod stored_extent;
mod stored_run;
mod trimmed;
mod values;

pub use address::{StoredRun, fill_stored, write_stored};
pub use array::ArrayRef;
pub use buffer::Buffer;
pub use chunked::ChunkedArray;
pub use extent::{lacks_maxima, set_sizes, sizes_of};
pub use h5_chunks::{ChunkList, InsertFault};
pub use h5_msg::{ChunkSizes, Layout};
pub use h5_shape::{Dims, MAX_RANK, Slab, SlabFault};
pub use h5_types::{encode, fits};
pub use held::{HeldChunks, copy_smaller};
pub use judge::MAX_CHUNK;
pub use lacking::{Missing, missing_of};
pub use named_tree::lacks_tree;
pub use new_chunks::missing_chunks;
pub use pieces::{Piece, Runs};
pub use places::CellPlaces;
pub use read::{known_array, read_array};
pub use resize::resize_array;
pub use storage::{check_storage, is_refused_first, make_storage};
pub use stored::StoredArray;
pub use stored_extent::{ArrayExtent, known_extent};
pub use stored_run::{RunStorage, run_storage};
pub use trimmed::{Outside, outside_of, trim};
pub use values::Values;
