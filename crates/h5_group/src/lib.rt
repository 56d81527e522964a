//! Groups: the links that stand in the symbol nodes of a B-tree, with their names and texts in a local heap (File Format
//! Specification 3.0, sections III.A.1, III.B, III.D and IV.A.2.r).
//!
//! A group is read once, when its image is opened; then its links are looked up and listed where they stand.
#![tactic(auto)]

mod edit;
mod exact;
mod group;
mod link;
mod list;
mod nodes;
mod order;
mod read;
mod search;
mod texts;
mod write;

pub use edit::{REMOVAL_CALLS, is_too_deep, put_link, put_reserved, remove_link, reserve_link};
pub use exact::has_exact_keys;
pub use group::read_group;
pub use h5_btree::InsertFault;
pub use h5_header::MAX_MESSAGES;
pub use h5_msg::{SymbolTable, read_symbol_table};
pub use h5_space::{MAXIMUM_IMAGE, Superblock, length_for, push_superblock};
pub use link::GroupLink;
pub use list::{Links, group_links, links_at, symbol_nodes};
pub use search::lookup;
pub use write::{GroupFault, GroupPlaces, ObjectPlace, group_places, push_links};
