//! What the tests give to calls.

use h5_file::{AttrSpec, Fixed, Spec};
use std::alloc::{AllocError, Global};

/// An array of three cells of -7, each of four bytes, the lowest first.
pub(crate) fn line(alloc: Global) -> Result<Spec, AllocError> {
    Spec::contiguous(alloc, Fixed::I32_LE, &[3], -7)
}

/// The attribute `note`, of the bytes 7 and 8.
pub(crate) fn note(alloc: Global) -> Result<AttrSpec, AllocError> {
    AttrSpec::new(alloc, b"note", Fixed::U8, &[2], &[7, 8])
}
