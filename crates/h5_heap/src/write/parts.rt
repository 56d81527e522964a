//! The parts of a heap: its header, its texts and what is free (File Format Specification 3.0, section III.D).
ghost use Rattle.std.specs.Prelude.{◌≡◌, ◌++◌, OnOk};
ghost use Rattle.h5_model.specs.Format.Plain.{heap_header_bytes, padded_text};
ghost use Rattle.h5_model.specs.Format.Sizes.{text_span as span};
ghost use Rattle.h5_heap.specs.Writing.Parts.{free_rest};

use h5_bytes::{push_bytes, push_word, push_zeros};
use std::alloc::AllocError;

/// The header of a heap whose segment has this size, first free block and address.
pub(crate) fn push_heap_header(
    out: &mut Vec<u8>,
    size: u64,
    head: u64,
    segment: u64,
) -> Result<(), AllocError>
    ensures { OnOk result (out.new.items ≡ out.old.items ++ heap_header_bytes size head segment) }
{
    push_bytes(out, b"HEAP")?;
    push_zeros(out, 4)?;
    push_word(out, size)?;
    push_word(out, head)?;
    push_word(out, segment)?;
    Ok(())
}

/// How many bytes a text takes in a heap, with its zero and its padding.
pub fn text_span(text: &[u8]) -> usize
    ensures { result ≡ span text.now }
{
    (text.len() + 8) / 8 * 8
}

/// Appends a text as it stands in a heap, with its zero and its padding.
///
/// # Errors
///
/// `AllocError` if memory is refused.
pub fn push_text(out: &mut Vec<u8>, text: &[u8]) -> Result<(), AllocError>
    ensures { OnOk result (out.new.items ≡ out.old.items ++ padded_text text.now) }
{
    push_bytes(out, text)?;
    push_zeros(out, text_span(text) - text.len())?;
    Ok(())
}

/// What stands behind the used bytes of a heap's segment: a free block where at most 72 are used.
pub(crate) fn push_free_rest(out: &mut Vec<u8>, used: u64) -> Result<(), AllocError>
    ensures { OnOk result (out.new.items ≡ out.old.items ++ free_rest used) }
{
    if used > 72 {
        return Ok(());
    }
    push_word(out, 1)?;
    push_word(out, 88 - used)?;
    push_zeros(out, 72 - used as usize)?;
    Ok(())
}
