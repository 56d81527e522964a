//! Texts of names and of soft links.

ghost use Rattle.std.specs.Prelude.{◌≡◌};
ghost use Rattle.h5_model.specs.Edits.Refusal.{has_zero as has_zero_byte, is_no_text as has_no_text};

/// Whether the text is empty, or has a zero byte.
pub(crate) fn is_no_text(text: &[u8]) -> bool
    ensures { result ≡ has_no_text text.now }
{
    text.is_empty() || has_zero(text)
}

/// Whether a byte of the text is 0.
fn has_zero(text: &[u8]) -> bool
    ensures { result ≡ has_zero_byte text.now }
{
    text.iter().any(|byte| *byte == 0)
}
