//! The numbers of an opened image's objects, changed to those that the objects had before the image was written anew (File Format
//! Specification 3.0, section IV.A.1).
mod order;

pub(crate) use order::renumber;
