//! Symbol table entries (File Format Specification 3.0, section III.C).

ghost use Rattle.std.specs.Prelude.{◌≡◌, length};
ghost use Rattle.h5_model.specs.Format.Symbols.{entry_of};
ghost use Rattle.h5_snod.specs.Entries.{symbol_from};

use h5_bytes::{u32_at, u64_at};

/// The cache type of a soft link's entry.
const SOFT_LINK: u32 = 2;

/// Where an entry leads.
#[derive(Clone, Copy, Debug, PartialEq, Eq)]
pub enum SymbolTarget {
    /// To the object header at this address.
    Header(u64),
    /// To a soft link's text, at this offset in the heap.
    Text(u32),
}

/// A symbol table entry: the offset of a name in the heap, and where the name leads.
#[derive(Clone, Copy, Debug, PartialEq, Eq)]
pub struct SymbolEntry {
    pub name: u64,
    pub target: SymbolTarget,
}

/// Reads the 40 bytes of an entry. Any cache type but that of a soft link is that of an object header.
#[tactic(auto, unfolding(h5_model::specs::Format::Symbols::entry_of))]
pub(crate) fn read_entry(bytes: &[u8]) -> SymbolEntry
    requires { length bytes.now ≡ 40 }
    ensures { result ≡ symbol_from (entry_of bytes.now) }
{
    let target = if u32_at(bytes, 16) == SOFT_LINK {
        SymbolTarget::Text(u32_at(bytes, 24))
    } else {
        SymbolTarget::Header(u64_at(bytes, 8))
    };
    SymbolEntry {
        name: u64_at(bytes, 0),
        target,
    }
}
