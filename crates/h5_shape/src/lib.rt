//! Sizes of arrays, places of their cells, and hyperslab selections.
#![tactic(auto)]

mod axes;
mod dims;
mod hyper;
mod met;
mod owned;
mod parts;
mod rows;
mod runs;
mod single_run;
mod slab;
mod spans;

pub use axes::Axes;
pub use dims::{Dims, MAX_CELLS, MAX_RANK};
pub use hyper::HyperRef;
pub use met::{MetBoxes, lie_apart, lost_boxes, written_boxes};
pub use owned::OwnedSlab;
pub use parts::{ChunkParts, Span};
pub use runs::{CellRun, CellRuns};
pub use single_run::one_run;
pub use slab::{Slab, SlabFault};
pub use spans::spans_in;
