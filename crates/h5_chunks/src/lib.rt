//! The chunks of datasets: the B-tree from their offsets to their addresses, read and claimed, the way to the chunk at
//! some offsets, and chunks that are stored and taken out where the tree stands (File Format Specification 3.0, section
//! III.A.1, node type 1).
//!
//! Offsets and chunk sizes are in cells, addresses and lengths in bytes. Nodes are read where they stand.
#![tactic(auto)]

mod beyond;
mod cursor;
mod held;
mod key;
mod list;
mod low;
mod offsets;
mod order;
mod outside;
mod put;
mod read;
mod root;
mod search;
mod shape;
mod take;
mod write;

pub use beyond::{Beyond, chunks_beyond};
pub use cursor::{ChunkCursor, chunk_from};
pub use h5_btree::InsertFault;
pub use held::{ChunkPlace, held_places};
pub use key::{OFFSETS, key_length};
pub use list::ChunkList;
pub use low::{is_low, is_low_level};
pub use offsets::is_key_before;
pub use outside::drop_outside;
pub use put::{is_full_at, store};
pub use read::read_chunks;
pub use root::{chunk_node_length, make_root};
pub use search::chunk_at;
pub use shape::ChunkShape;
pub use take::take_out;
pub use write::{ChunkKey, push_last_key};
