//! The trees of groups, which are over symbol nodes (File Format Specification 3.0, sections III.A.1 and III.B).
mod stands;
mod symbol;

pub(crate) use stands::group_kind;
pub use stands::{symbol_node, tree_node};
pub use symbol::SymbolNodes;
