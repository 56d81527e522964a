//! Bytes that are looked at sixteen at once.

ghost use Rattle.std.specs.Prelude.{◌↔◌, ◌+◌, ◌≤◌, IsTrue, length};

/// How many bytes are looked at together.
pub const LANES: usize = 16;

/// Whether sixteen bytes from a place on lie in the bytes. Takes no memory.
#[inline(always)]
pub fn has_lanes(bytes: &[u8], at: usize) -> bool
    ensures { IsTrue result ↔ (at + 16 ≤ length bytes.now) }
{
    bytes.len() >= LANES && at <= bytes.len() - LANES
}
