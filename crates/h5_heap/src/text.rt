//! Texts that end with a zero (File Format Specification 3.0, section III.D).

ghost use Rattle.std.specs.Prelude.{◌≡◌, ◌+◌, ◌^◌, ◌<◌, IfSome, IfNone};
ghost use Rattle.h5_bytes.specs.Texts.{text_at, pad8};
ghost use Rattle.h5_heap.specs.Spans.{IsSpan};

use h5_bytes::text_from;

/// The text at `offset`, or `None` where it begins at no multiple of 8, or passes the end of the segment
/// with its zero and its padding.
pub(crate) fn text_in(segment: &[u8], offset: u64) -> Option<&[u8]>
    ensures text { IfSome result (λ x. x.now ≡ text_at segment.now offset) }
    ensures span { IfSome result (λ x. IsSpan segment.now offset) }
    ensures none { IfNone result (IsSpan segment.now offset → ⊥) }
{
    if offset % 8 != 0 || offset >= segment.len() as u64 {
        return None;
    }
    let text = text_from(segment, offset);
    if span_len(text.len()) > segment.len() - offset as usize {
        return None;
    }
    Some(text)
}

/// How many bytes a text of `len` bytes occupies, with its zero and its padding.
pub(crate) fn span_len(len: usize) -> usize
    requires { len < 2 ^ 63 }
    ensures { result ≡ pad8 (len + 1) }
{
    len / 8 * 8 + 8
}
