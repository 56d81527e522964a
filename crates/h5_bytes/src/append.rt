//! Numbers, bytes and zeros behind the bytes that stand there, little-endian.
ghost use Rattle.std.specs.Prelude.{◌≡◌, ◌++◌, OnOk};
ghost use Rattle.h5_bytes.specs.Numbers.{short, middle, word, zeros};

use std::alloc::AllocError;

/// Appends a number of 2 bytes.
///
/// # Errors
///
/// `AllocError` if memory is refused. How many of the bytes stand in `out` then is left open.
pub fn push_short(out: &mut Vec<u8>, count: u16) -> Result<(), AllocError>
    ensures { OnOk result (out.new.items ≡ out.old.items ++ short count) }
{
    out.extend_from_slice(&count.to_le_bytes())
}

/// Appends a number of 4 bytes.
///
/// # Errors
///
/// `AllocError` if memory is refused. How many of the bytes stand in `out` then is left open.
pub fn push_middle(out: &mut Vec<u8>, size: u32) -> Result<(), AllocError>
    ensures { OnOk result (out.new.items ≡ out.old.items ++ middle size) }
{
    out.extend_from_slice(&size.to_le_bytes())
}

/// Appends a number of 8 bytes: an address, a size or a length.
///
/// # Errors
///
/// `AllocError` if memory is refused. How many of the bytes stand in `out` then is left open.
pub fn push_word(out: &mut Vec<u8>, n: u64) -> Result<(), AllocError>
    ensures { OnOk result (out.new.items ≡ out.old.items ++ word n) }
{
    out.extend_from_slice(&n.to_le_bytes())
}

/// Appends these bytes.
///
/// # Errors
///
/// `AllocError` if memory is refused. How many of the bytes stand in `out` then is left open.
pub fn push_bytes(out: &mut Vec<u8>, bytes: &[u8]) -> Result<(), AllocError>
    ensures { OnOk result (out.new.items ≡ out.old.items ++ bytes.now) }
{
    out.extend_from_slice(bytes)
}

/// Appends `count` bytes of 0.
///
/// # Errors
///
/// `AllocError` if memory is refused. How many of the bytes stand in `out` then is left open.
pub fn push_zeros(out: &mut Vec<u8>, count: usize) -> Result<(), AllocError>
    ensures { OnOk result (out.new.items ≡ out.old.items ++ zeros count) }
{
    let len = out.len().checked_add(count).ok_or(AllocError)?;
    out.resize(len, 0)
}
