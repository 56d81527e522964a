//! B-trees, version 1 (File Format Specification 3.0, section III.A.1): what the bytes of a node say; a tree read and
//! claimed, whatever its leaves are; the check of its order; and the way from a root down to what is sought.
//!
//! Nodes are read where they stand, and nothing is copied. Addresses and lengths are in bytes. How the children at
//! the bottom are claimed, and how keys are ordered, is for the layers above.
#![tactic(auto)]

mod descent;
mod edit;
mod ends;
mod exact;
mod halves;
mod held;
mod insertion;
mod key_copy;
mod kind;
mod name;
mod neighbours;
mod node;
mod order;
mod raise;
mod read;
mod removal;
mod retirement;
mod sought;
mod split;
mod walk;
mod way;
mod widening;
mod write;
mod written;

pub use descent::{ChildPlace, find_leaf, find_place};
pub use edit::{
    copy_node, drop_children, insert_child, keep_children, remove_child, set_child, set_key,
    set_left, set_level, set_right,
};
pub use ends::set_end;
pub use exact::are_keys_exact;
pub use held::{Follows, hold_keys};
pub use insertion::{InsertFault, insert_at, put_at, put_first};
pub use key_copy::LONGEST_KEY;
pub use kind::NodeKind;
pub use name::SoughtName;
pub use node::{MAX_LEVEL, Node};
pub use order::{Ordered, check_keys};
pub use read::{NodeFault, read_node, read_node_at};
pub use removal::{remove_at, take_from};
pub use retirement::{Hits, Look, retire};
pub use sought::{Sought, child_for};
pub use walk::{Leaves, Tree, Trees, bottom_nodes, read_tree, tree_leaves, tree_node};
pub use way::{MOST_STEPS, Step, Way, find_way, is_full_way};
pub use widening::{End, Ends, ends_to_widen, widen};
pub use write::{Child, TreeKey, nodes_over, push_tree, root_level, rows_of};
