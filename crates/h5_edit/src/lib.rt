//! Edits of an opened image: why one is refused, in the order of the refusals' numbers, and what an accepted one makes of it (File Format
//! Specification 3.0, sections III.C and IV.A).
//!
//! Each edit is made where its objects stand. To repack an image is to write it anew.
#![tactic(auto)]

mod attributes;
mod change;
mod created;
mod links;
mod made;
mod opening;
mod repacked;
mod resized;
mod rules;
mod target;
mod unlinked;
mod written;

pub use attributes::{remove_attr, set_attr};
pub use created::{create_dataset, create_group};
pub use h5_layout::{Buffer, encode};
pub use h5_query::{
    ArrayRef, AttrRef, Dims, Found, HyperRef, Kind, LinkNames, MAX_DEPTH, MAX_RANK, Opened, Piece,
    Runs, SelectedRuns, Slab, SlabFault, StoredArray, Values, array_at, array_of, attributes_at,
    found_at, kind_at, links_of, names_at, names_of_attributes, number_at, one_attribute, one_cell,
    runs_at, selected_at, store_of,
};
pub use h5_repack::empty_image;
pub use links::{hard_link, soft_link};
pub use made::Made;
pub use opening::{open_made, open_written};
pub use repacked::repack;
pub use resized::resize;
pub use unlinked::unlink;
pub use written::write;
