//! What an opened image holds, by path and by number: kinds, links, cells and attributes (File Format Specification 3.0, section IV.A).
//!
//! Nothing is copied out of the image but numbers: names, texts, attributes and cells are lent where they stand in it.
#![tactic(auto)]

mod array;
mod attributes;
mod cells;
mod found;
mod group;
mod kind;
mod links;
mod names;
mod path;
mod place;
mod selection;
mod step;

pub use array::{array_at, array_number, array_of, described_of, extent_at};
pub use attributes::{attributes_at, names_of_attributes, one_attribute};
pub use cells::one_cell;
pub use found::{Found, found_at};
pub use group::{links_of, tree_links};
pub use h5_open::{
    ArrayExtent, ArrayRef, AttrRef, ContentBytes, Dims, Layout, Links, MAX_LINKS, MAX_RANK,
    ObjectBytes, Opened, OpenedContent, OpenedObject, Piece, Runs, StandingCells, StoredArray,
    SymbolTable, Values, get, group_links, known_array, new_body, sorted,
};
pub use h5_shape::{HyperRef, Slab, SlabFault};
pub use kind::Kind;
pub use links::{kind_at, store_of};
pub use names::{LinkNames, names_at};
pub use path::MAX_DEPTH;
pub use place::{Place, Spot, look, look_up, number_at};
pub use selection::{SelectedRuns, runs_at, selected_at, slab_within, standing_cells};
