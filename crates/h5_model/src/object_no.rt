//! Numbers of objects.

/// The number of an object in a session; the root group's is 0.
#[derive(Clone, Copy, PartialEq, Eq, Debug)]
pub struct ObjectNo(pub u32);
