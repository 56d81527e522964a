//! The order of a group's names, and that they stand between the keys of its tree (File Format Specification 3.0, sections
//! III.A.1 and III.B).
mod check;
mod keys;
mod names;
mod text;

pub use check::check_order;
