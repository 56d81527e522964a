//! The types of header messages (File Format Specification 3.0, section IV.A.2).

/// Padding that says nothing.
pub const NIL: u16 = 0;

/// The sizes of an array or attribute.
pub const DATASPACE: u16 = 1;

/// Links of a group that has no symbol table.
pub const LINK_INFO: u16 = 2;

/// The type of an array's cells.
pub const DATATYPE: u16 = 3;

/// The fill value, in its old form.
pub const OLD_FILL_VALUE: u16 = 4;

/// The fill value.
pub const FILL_VALUE: u16 = 5;

/// One link of a group that has no symbol table.
pub const LINK: u16 = 6;

/// Files outside that have an array's data.
pub const EXTERNAL_FILES: u16 = 7;

/// How an array's data are laid out.
pub const DATA_LAYOUT: u16 = 8;

/// How a group without symbol table is stored.
pub const GROUP_INFO: u16 = 10;

/// The filters of an array's data.
pub const FILTER_PIPELINE: u16 = 11;

/// An attribute.
pub const ATTRIBUTE: u16 = 12;

/// A comment on the object.
pub const COMMENT: u16 = 13;

/// When the object was changed, in its old form.
pub const OLD_MODIFICATION_TIME: u16 = 14;

/// The place of a block of further messages.
pub const CONTINUATION: u16 = 16;

/// The tree and the heap of a group.
pub const SYMBOL_TABLE: u16 = 17;

/// When the object was changed.
pub const MODIFICATION_TIME: u16 = 18;
