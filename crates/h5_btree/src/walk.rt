//! The walk of a tree over any leaves: which nodes and leaves it has, and that no other block shares a byte with them
//! (File Format Specification 3.0, section III.A.1).
mod below;
mod leaf;
mod leaves;
mod node;
mod read;
mod rows;
mod stands;

pub use leaves::{Leaves, Trees};
pub use read::{Tree, read_tree};
pub use rows::{bottom_nodes, tree_leaves};
pub use stands::tree_node;
