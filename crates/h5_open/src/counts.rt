//! Reference counts: each object header says how many links lead to it (File Format Specification 3.0, section IV.A.1.a).
mod check;
mod tally;

pub(crate) use check::check_counts;
pub use tally::MAX_LINKS;
pub(crate) use tally::{Tally, count_again, push_counted};
