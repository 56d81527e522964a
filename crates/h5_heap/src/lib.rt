//! Local heaps: the segment that holds a group's names, and its free blocks (File Format Specification
//! 3.0, section III.D).
//!
//! Offsets are places in a segment, and all places and sizes are in bytes.
#![tactic(auto)]

mod around;
mod chain;
mod edit;
mod free_list;
mod header;
mod heap;
mod names;
mod put;
mod text;
mod units;
mod write;

pub use edit::free;
pub use h5_bytes::text_from;
pub use header::segment_at;
pub use heap::{Heap, read_heap};
pub use put::{insert, insert_in_room, text_room};
pub use write::{ObjectPlace, link_span, push_heap, push_text, segment_length, text_span};
