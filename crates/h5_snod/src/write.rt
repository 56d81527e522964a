//! Symbol nodes as they are written (File Format Specification 3.0, sections III.B and III.C).

ghost use Rattle.std.specs.Prelude.{◌≡◌, ℕ, ◌+◌, ◌*◌, ◌^◌, ◌<◌, ◌≤◌, length, map};
ghost use Rattle.std.specs.List.{AllByRecursion, flat_map};
ghost use Rattle.h5_model.specs.Format.Symbols.{IsEntry, IsSymbolNode, entries_of, entry_of};
ghost use Rattle.h5_snod.specs.Written.{IsSmall, entry_from, head_bytes, new_bytes, symbol_node_bytes};

use crate::node::{ENTRY, HEAD};
use byteorder::{ByteOrder, LittleEndian};
use h5_bytes::UNDEF;

/// Where the entry of a new link is to lead.
#[derive(Clone, Copy, Debug, PartialEq, Eq)]
pub enum NewTarget {
    /// To the object header of a dataset at this address.
    Dataset(u64),
    /// To the object header of a group, whose tree and heap stand at these addresses.
    Group { header: u64, tree: u64, heap: u64 },
    /// To a soft link's text, at this offset in the heap.
    Text(u32),
}

/// The entry of a new link: the offset of its name in the heap, and where it is to lead.
#[derive(Clone, Copy, Debug, PartialEq, Eq)]
pub struct NewSymbol {
    pub name: u64,
    pub target: NewTarget,
}

/// Writes a symbol node of these entries, and zeros behind them.
pub fn write_symbol_node(symbols: &[NewSymbol], bytes: &mut [u8])
    requires room { 8 + 40 * length symbols.now ≤ length bytes.old }
    requires counted { length symbols.now < 2 ^ 16 }
    ensures written { bytes.new ≡ symbol_node_bytes symbols.now (length bytes.old) }
    ensures form { (leaf : ℕ) → length symbols.now ≤ 2 * leaf → IsSymbolNode leaf bytes.new }
    ensures known { AllByRecursion IsEntry (entries_of bytes.new) }
    ensures reads { entries_of bytes.new ≡ map entry_from symbols.now }
{
    let (head, behind) = bytes.split_at_mut(HEAD);
    let (entries, unused) = behind.split_at_mut(ENTRY * symbols.len());
    write_head(symbols.len() as u16, head);
    write_entries(symbols, entries);
    unused.fill(0);
}

/// Writes the 8 bytes that stand before the entries: the signature, the version and how many entries there are.
pub fn write_head(count: u16, bytes: &mut [u8])
    requires { length bytes.old ≡ 8 }
    ensures { bytes.new ≡ head_bytes count }
{
    bytes.copy_from_slice(b"SNOD\x01\x00\x00\x00");
    LittleEndian::write_u16(&mut bytes[6..], count);
}

/// Writes entries one after another.
fn write_entries(symbols: &[NewSymbol], bytes: &mut [u8])
    requires { length bytes.old ≡ 40 * length symbols.now }
    ensures written { bytes.new ≡ flat_map new_bytes symbols.now }
    ensures small { AllByRecursion IsSmall symbols.now }
{
    for k in 0..symbols.len() {
        write_parts(symbols[k], &mut bytes[ENTRY * k..ENTRY * k + ENTRY]);
    }
}

/// Writes the 40 bytes of an entry.
pub fn write_entry(symbol: NewSymbol, bytes: &mut [u8])
    requires { length bytes.old ≡ 40 }
    ensures written { bytes.new ≡ new_bytes symbol }
    ensures reads { entry_of bytes.new ≡ entry_from symbol }
{
    write_parts(symbol, bytes);
}

/// Writes the parts of an entry, one behind another.
fn write_parts(symbol: NewSymbol, bytes: &mut [u8])
    requires { length bytes.old ≡ 40 }
    ensures written { bytes.new ≡ new_bytes symbol }
    ensures small { IsSmall symbol }
{
    bytes.fill(0);
    LittleEndian::write_u64(bytes, symbol.name);
    match symbol.target {
        NewTarget::Dataset(header) => LittleEndian::write_u64(&mut bytes[8..], header),
        NewTarget::Group { header, tree, heap } => {
            LittleEndian::write_u64(&mut bytes[8..], header);
            LittleEndian::write_u32(&mut bytes[16..], 1);
            LittleEndian::write_u64(&mut bytes[24..], tree);
            LittleEndian::write_u64(&mut bytes[32..], heap);
        }
        NewTarget::Text(offset) => {
            LittleEndian::write_u64(&mut bytes[8..], UNDEF);
            LittleEndian::write_u32(&mut bytes[16..], 2);
            LittleEndian::write_u32(&mut bytes[24..], offset);
        }
    }
}
