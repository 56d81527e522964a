//! Edits of a group in place (File Format Specification 3.0, sections III.A.1, III.B and III.D).
mod drop;
mod entries;
mod put;
mod retire;
mod split;
mod symbols;
mod take;
mod texts;
mod way;

pub use put::{is_too_deep, put_link, put_reserved, reserve_link};
pub(crate) use retire::KeysOf;
pub use take::{REMOVAL_CALLS, remove_link};
