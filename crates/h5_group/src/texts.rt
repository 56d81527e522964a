//! The names, soft link texts and keys of a group: which texts of its heap they are (File Format Specification 3.0, sections
//! III.A.1, III.B and III.D).
mod allowed;
mod check;
mod keys;
mod linked;
mod names;

pub use check::check_texts;
