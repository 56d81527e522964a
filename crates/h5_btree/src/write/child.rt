//! Children of nodes.

/// A child of a node: a node of the row below, or what the tree is over.
///
/// In a group's tree the key behind it is the offset in the heap of the greatest name below it.
#[derive(Clone, Copy)]
pub struct Child<K> {
    /// Its address.
    pub at: u64,
    /// The key behind it: the one before the next child, or the last of all.
    pub key: K,
}
