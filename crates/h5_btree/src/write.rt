//! A tree in the plain layout: nodes over a row of children, filled from the left, the root first (File Format
//! Specification 3.0, section III.A.1).
mod child;
mod count;
mod key;
mod node;
mod row;
mod rows;

pub use child::Child;
pub use count::{nodes_over, root_level, rows_of};
pub use key::TreeKey;
pub use rows::push_tree;
