//! Numbers of views.

/// The number of a view in a session. Numbers rise by one from 0 on, and none is used again.
#[derive(Clone, Copy, PartialEq, Eq, Debug)]
pub struct ViewNo(pub u32);
