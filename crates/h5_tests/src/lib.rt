//! Tests of the libraries of bytes, values, shapes, headers and texts, through their public calls.
//!
//! A crate with tests is proved twice, so the libraries have none of their own.
#![tactic(auto)]

#[cfg(test)]
mod bytes;
#[cfg(test)]
mod header;
#[cfg(test)]
mod shape;
#[cfg(test)]
mod space;
#[cfg(test)]
mod text;
#[cfg(test)]
mod types;
