//! The heap of a group in the plain layout: the names of its links and the texts of its soft links, one behind another (File Format
//! Specification 3.0, section III.D).
mod heap;
mod link;
mod parts;

pub use heap::{link_span, push_heap, segment_length};
pub use link::ObjectPlace;
pub use parts::{push_text, text_span};
