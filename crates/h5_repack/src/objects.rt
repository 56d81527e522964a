//! The objects of a tree as they are handed to the writer, the order in which they are written, and how many links lead to each (File
//! Format Specification 3.0, sections III.C and IV.A).
mod counts;
mod object;
mod order;

pub use counts::count_links;
pub use object::{NewContent, NewObject};
pub use order::met_order;
