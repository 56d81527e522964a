//! What links lead to, as they are to be written.

/// Where an object stands to which a link leads that is to be written.
#[derive(Clone, Copy)]
pub enum ObjectPlace {
    /// A group: the addresses of its header, of its tree and of its heap.
    Group { header: u64, tree: u64, heap: u64 },
    /// An array: the address of its header.
    Array(u64),
}
