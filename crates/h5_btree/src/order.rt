//! The order of the keys of a tree, and of what stands between them (File Format Specification 3.0, section III.A.1).
mod check;
mod ordered;

pub use check::check_keys;
pub use ordered::Ordered;
