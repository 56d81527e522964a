//! What a symbol node's bytes say (File Format Specification 3.0, section III.B).

ghost use Rattle.std.specs.Prelude.{◌≡◌, ◌+◌, ◌*◌, ◌<◌, ◌≤◌, ◌==◌, IfErr, IfOk, Some, length, map, option_map, slice_get};
ghost use Rattle.h5_bytes.specs.Bytes.{part};
ghost use Rattle.h5_model.specs.Format.Links.{Ascend};
ghost use Rattle.h5_model.specs.Format.Symbols.{entries_of, link_of, symbols_in};
ghost use Rattle.h5_snod.specs.Entries.{symbol_from};
ghost use Rattle.h5_snod.specs.Names.{IsPlace, entry_names};

use crate::entry::{SymbolEntry, read_entry};
use crate::search::find_name;
use h5_bytes::u16_at;
use std::marker::Model;

/// How many bytes stand before the first entry.
pub const HEAD: usize = 8;

/// How many bytes an entry has.
pub const ENTRY: usize = 40;

/// A symbol node: the entries of some links of a group.
#[derive(Drop)]
pub struct SymbolNode<'a> {
    bytes: &'a [u8],
}

impl<'a> Model for SymbolNode<'a> {
    ghost use Rattle.std.specs.Prelude.{◌+◌, ◌*◌, ◌≤◌, List, length};
    ghost use Rattle.h5_model.specs.Format.Symbols.{Entry, entries_of, symbols_in};

    ghost Value = { List Entry };

    ghost view = { λ a. entries_of a.bytes.now };

    ghost invariant = { λ a. (8 ≤ length a.bytes.now) × (8 + 40 * symbols_in a.bytes.now ≤ length a.bytes.now) };
}

impl<'a> SymbolNode<'a> {
    /// The node that these bytes are.
    pub(crate) fn new(bytes: &'a [u8]) -> Self
        requires head { 8 ≤ length bytes.now }
        requires entries { 8 + 40 * symbols_in bytes.now ≤ length bytes.now }
        ensures { result ≡ entries_of bytes.now }
    {
        SymbolNode { bytes }
    }

    /// How many entries there are.
    pub fn len(&self) -> usize
        ensures { result ≡ length self.now }
    {
        usize::from(u16_at(self.bytes, 6))
    }

    /// Whether there are no entries.
    pub fn is_empty(&self) -> bool
        ensures { result ≡ (length self.now == 0) }
    {
        self.len() == 0
    }

    /// The entry with this index.
    pub fn entry(&self, k: usize) -> SymbolEntry
        requires { k < length self.now }
        ensures { option_map symbol_from (slice_get self.now k) ≡ Some result }
    {
        read_entry(entry_bytes(self.bytes, k))
    }

    /// The index of the entry with this name. The names stand in this heap segment, in ascending order of their
    /// bytes; that is the caller's condition.
    ///
    /// # Errors
    ///
    /// If no entry has this name: the index at which one would stand.
    pub fn find(&self, segment: &[u8], name: &[u8]) -> Result<usize, usize>
        requires { Ascend (map (link_of segment.now) self.now) }
        ensures found { IfOk result (λ k. slice_get (entry_names segment.now self.now) k ≡ Some name.now) }
        ensures absent { IfErr result (λ k. IsPlace (entry_names segment.now self.now) name.now k) }
    {
        find_name(self.bytes, self.len(), segment, name)
    }
}

/// The bytes of an entry.
#[tactic(auto, unfolding(h5_bytes::specs::Bytes::part))]
pub(crate) fn entry_bytes(bytes: &[u8], k: usize) -> &[u8]
    requires { 48 + 40 * k ≤ length bytes.now }
    ensures bytes { result.now ≡ part (8 + 40 * k) 40 bytes.now }
    ensures long { length result.now ≡ 40 }
{
    let from = HEAD + ENTRY * k;
    &bytes[from..from + ENTRY]
}
