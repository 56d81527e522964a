//! The blocks of the plain layout, each appended behind the bytes that stand there: the headers of objects and the
//! data of arrays (File Format Specification 3.0, sections III.A.1 and IV.A).
//!
//! Addresses are handed in. Where memory is refused, it is left open how many bytes were appended.
mod attribute;
mod cells;
mod chunks;
mod header;
mod layout;
mod others;
mod space;

pub(crate) use crate::blocks::cells::has_low_tree;
pub use crate::blocks::cells::{Cells, cells_address, data_length, push_data};
pub use crate::blocks::header::{
    GROUP_HEADER, array_header_length, group_header_length, push_array_header, push_group_header,
};
pub use crate::blocks::others::Others;
