//! The objects of an opened image (File Format Specification 3.0, section IV.A).

use h5_group::SymbolTable;
use h5_header::Messages;

/// What an object is: a group or an array.
#[derive(Drop)]
pub enum OpenedContent {
    /// A group, by the addresses of its tree and of its heap; its links are read where they stand.
    Group(SymbolTable),
    /// An array, which the messages of its header describe.
    Array,
}

/// An object of an opened image.
#[derive(Drop)]
pub struct OpenedObject {
    /// The messages of its header.
    pub messages: Messages,
    pub content: OpenedContent,
    /// Whether an array in chunks is known to store nothing outside its sizes, and a group to have exact keys (`has_exact_keys` of
    /// `h5_group`); `false` where that is not so, or was not looked at.
    pub tidy: bool,
}
