//! Files of integer arrays in memory: an image of bytes, and the objects that stand in it.
//!
//! ```
//! use h5_file::{Fixed, HyperRef, Session, Spec};
//!
//! /// The image of a file with the array `/d`, of which the odd cells were written, and the last of them.
//! fn odd_cells(alloc: Global) -> anyhow::Result<(Vec<u8>, i128)> {
//!     let mut session = Session::create(alloc)?;
//!     let spec = Spec::contiguous(alloc, Fixed::I32_LE, &[4], -7)?;
//!     session.create_dataset(b"/d", &spec)?;
//!     let odd = HyperRef::new(&[1], &[2], &[2], &[1]);
//!     session.write(b"/d", &odd, &[1, 3])?;
//!     let view = session.open_view(b"/d", &odd)?;
//!     session.write(b"/d", &odd, &[5, 6])?;
//!     session.close_view(view)?;
//!     let last = session.file().cell(b"/d", &[3])?;
//!     Ok((session.into_image(), last))
//! }
//! ```
//!
//! What the view shows before it is closed, and the cells of the array, come value by value:
//!
//! ```
//! for value in session.show(view)?.values() { .. }
//! for value in session.file().dataset(b"/d")?.values() { .. }
//! ```
//!
//! A [`File`] is made by [`File::create`] or read from bytes by [`File::open`], which names the
//! rule that bytes break by an [`OpenFault`]. The form of the bytes is the HDF5 File Format
//! Specification's, version 3.0; docs/FORMAT.md says which part of it is accepted. This version
//! opens files of any groups and links, with arrays of any form and any attributes. It makes groups,
//! hard and soft links, and arrays of any form, takes links away, sets and removes attributes of any
//! object, writes cells, changes the sizes of arrays in chunks, and repacks a file ([`File::repack`]).
//!
//! A [`Session`] is a file with open views: each shows the selected cells of an array as the edits leave it.
#![tactic(auto)]

mod by_array;
mod edits;
mod file;
mod kept;
mod open_error;
mod open_views;
mod patch;
mod selected;
mod session;
mod touched;
mod views;

pub use file::File;
pub use h5_edit::{
    ArrayRef, AttrRef, Buffer, Dims, Found, HyperRef, Kind, LinkNames, MAX_DEPTH, MAX_RANK, Piece,
    Runs, SelectedRuns, Slab, SlabFault, StoredArray, Values, store_of,
};
pub use h5_model::{
    AttrSpec, Cause, Edit, EditFault, Edited, Fixed, Hyper, Items, Link, LinkTo, ObjectNo,
    OpenFault, Spec, Store, ViewFault, ViewNo,
};
pub use h5_space::MAXIMUM_IMAGE;
pub use kept::Kept;
pub use open_error::OpenError;
pub use selected::gather;
pub use session::{Session, Shown};
