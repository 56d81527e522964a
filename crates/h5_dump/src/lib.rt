//! What is printed of a file: the list of its links, and the dump of an object with its attributes and cells.
#![tactic(auto)]

mod array;
mod cells;
mod dump;
mod fault;
mod list;

pub use dump::write_dump;
pub use fault::DumpFault;
pub use h5_file::{Cause, File, HyperRef, MAXIMUM_IMAGE, OpenFault, Session};
pub use list::push_list;
