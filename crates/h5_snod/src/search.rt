//! The search for a name in a symbol node (File Format Specification 3.0, section III.B).

ghost use Rattle.std.specs.Prelude.{◌≡◌, ◌+◌, ◌*◌, ◌<◌, ◌≤◌, IfErr, IfOk, Some, length, map, slice_get};
ghost use Rattle.h5_model.specs.Format.Links.{Ascend};
ghost use Rattle.h5_model.specs.Format.Symbols.{entries_of, link_of, symbols_in};
ghost use Rattle.h5_snod.specs.Names.{IsPlace, name_at, entry_names};

use crate::node::entry_bytes;
use h5_bytes::{text_from, u64_at};
use std::cmp::Ordering;

/// Where the entry of this name stands, or else where one would stand.
pub(crate) fn find_name(
    bytes: &[u8],
    count: usize,
    segment: &[u8],
    name: &[u8],
) -> Result<usize, usize>
    requires count { count ≡ symbols_in bytes.now }
    requires entries { 8 + 40 * symbols_in bytes.now ≤ length bytes.now }
    requires ascending { Ascend (map (link_of segment.now) (entries_of bytes.now)) }
    ensures found { IfOk result (λ k.
        slice_get (entry_names segment.now (entries_of bytes.now)) k ≡ Some name.now) }
    ensures absent { IfErr result (λ k. IsPlace (entry_names segment.now (entries_of bytes.now)) name.now k) }
{
    let mut from = 0;
    let mut to = count;
    while from < to {
        let middle = from + (to - from) / 2;
        match entry_name(bytes, middle, segment).cmp(&name) {
            Ordering::Less => from = middle + 1,
            Ordering::Equal => return Ok(middle),
            Ordering::Greater => to = middle,
        }
    }
    Err(from)
}

/// The name of an entry, in a heap's segment.
fn entry_name<'a>(bytes: &[u8], k: usize, segment: &'a [u8]) -> &'a [u8]
    requires { 48 + 40 * k ≤ length bytes.now }
    ensures { result.now ≡ name_at segment.now bytes.now k }
{
    text_from(segment, u64_at(entry_bytes(bytes, k), 0))
}
