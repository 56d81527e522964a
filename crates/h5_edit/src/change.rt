//! The objects of an opened image, as they are handed to the writer (File Format Specification 3.0, sections III.C and IV.A).
mod attributes;
mod cells;
mod links;
mod objects;
mod parts;

pub(crate) use objects::opened_objects;
