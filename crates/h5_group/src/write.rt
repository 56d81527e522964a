//! A group's links in the plain layout: its tree, its heap and its symbol nodes, written from the links in the order of their names
//! (File Format Specification 3.0, sections III.A.1, III.B and III.D).
mod group;
mod places;
mod symbols;

pub use group::push_links;
pub use h5_heap::ObjectPlace;
pub use places::{GroupFault, GroupPlaces, group_places};
