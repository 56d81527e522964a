//! The plain image of a tree: the superblock, and then its objects one behind another, without gaps (File Format Specification 3.0,
//! sections II.A, III and IV.A).
//!
//! Addresses are computed first, then each object is appended, in one pass.
#![tactic(auto)]

mod bare;
mod blocks;
mod empty;
mod group;
mod object;
mod objects;
mod place;
mod size;
mod write;

pub use bare::{bare_group_length, bare_group_table, push_bare_group};
pub use blocks::{
    Cells, GROUP_HEADER, Others, array_header_length, cells_address, data_length, push_array_header,
};
pub use empty::empty_image;
pub use objects::{NewContent, NewObject};
pub use write::{WriteFault, Written, write_tree};
