//! Symbol nodes (File Format Specification 3.0, section III.B), which hold the links of a group in the order of their
//! names.
//!
//! A node is read where it stands, and nothing is copied. Names and the texts of soft links stand in the group's heap.
#![tactic(auto)]

mod edit;
mod entry;
mod node;
mod read;
mod search;
mod write;

pub use edit::{drop_front, insert_at, keep_front, remove_at, split_into};
pub use entry::{SymbolEntry, SymbolTarget};
pub use node::{ENTRY, HEAD, SymbolNode};
pub use read::{NodeFault, known_symbol_node, read_symbol_node};
pub use write::{NewSymbol, NewTarget, write_entry, write_head, write_symbol_node};
