//! The order of a dataset's chunks, and that they stand between the keys of their tree (File Format Specification 3.0,
//! section III.A.1).
mod ascending;
mod check;
mod keys;

pub(crate) use check::check_order;
