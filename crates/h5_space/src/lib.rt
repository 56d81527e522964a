//! The bytes of a file image, its free blocks, the blocks that a walk over it has claimed, and the superblock (HDF5 File Format
//! Specification 3.0, section II.A).
//!
//! Places and lengths are in bytes.
#![tactic(auto)]

mod addresses;
mod claims;
mod faults;
mod free_list;
mod image;
mod superblock;

pub use addresses::AddressMap;
pub use claims::{ClaimFault, Claims};
pub use faults::{claim, fault};
pub use image::{Image, SpaceFault};
pub use superblock::{
    MAXIMUM_IMAGE, Superblock, chunk_k, end_field, end_of_file, internal_k, k_values, leaf_k,
    length_for, push_superblock, root_header, superblock_fault, superblock_length,
};
