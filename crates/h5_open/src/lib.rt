//! Opening: from the bytes of an image to the objects that stand in it, and changes of these objects where they stand
//! (File Format Specification 3.0, sections II.A, III and IV.A).
#![tactic(auto)]

mod counts;
mod index;
mod judge;
mod numbers;
mod object;
mod opened;
mod steps;

pub use counts::MAX_LINKS;
pub use h5_attr::{AttrRef, get, list, new_body, sorted};
pub use h5_group::{Links, SymbolTable, group_links, lookup};
pub use h5_layout::{
    ArrayExtent, ArrayRef, Dims, Layout, MAX_RANK, Piece, Runs, StoredArray, Values, known_array,
    known_extent,
};
pub use opened::{ContentBytes, ObjectBytes, Opened, OpenedContent, OpenedObject, StandingCells};
