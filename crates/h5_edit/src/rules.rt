//! Why an edit of an opened image is refused by its tree, in the order of the refusals' numbers, and where an edit takes place that is
//! not refused (links, cells and attributes: File Format Specification 3.0, sections III.C, IV.A.2.i and IV.A.2.m). Nothing here takes
//! memory.
mod array;
mod attribute;
mod limits;
mod links;
mod place;
mod resize;
mod store;
mod text;
mod unlink;
mod values;
mod write;

pub use array::check_create_dataset;
pub use attribute::{check_remove_attr, check_set_attr};
pub(crate) use limits::MAX_COMPACT;
pub use links::{check_create_group, check_hard_link, check_soft_link};
pub use place::NewPlace;
pub(crate) use resize::check_resize;
pub use unlink::{Removal, check_unlink};
pub(crate) use write::check_cells;
