//! The reading of a symbol node's form (File Format Specification 3.0, section III.B).

ghost use Rattle.std.specs.Prelude.{◌≡◌, ℕ, ◌+◌, ◌*◌, ◌<◌, ◌≤◌, IfErr, IfOk, OnOk, MatchBool, length};
ghost use Rattle.std.specs.List.{AllByRecursion};
ghost use Rattle.h5_model.specs.Format.Symbols.{IsEntry, IsSymbolNode, entries_of, symbols_in};
ghost use Rattle.h5_snod.specs.Form.{BreaksSymbolNodeForm, cache_at};

use crate::node::{SymbolNode, entry_bytes};
use h5_bytes::{begins_with, u16_at, u32_at};

/// The first four bytes of a symbol node.
static SIGNATURE: [u8; 4] = *b"SNOD";

/// The greatest cache type of an entry.
const MAX_CACHE: u32 = 2;

/// Why bytes are no symbol node.
#[derive(Clone, Copy, Debug, PartialEq, Eq)]
pub enum NodeFault {
    /// The bytes are not of the form of a symbol node.
    NodeForm,
}

/// Reads a symbol node with room for 2 `leaf` entries. The slice has as many bytes as such a node. The order of the
/// names is not looked at. Takes no memory.
///
/// # Errors
///
/// `NodeForm` if the signature or the version is another, if there are more than 2 `leaf` entries, or if an entry has
/// a cache type above 2.
pub fn read_symbol_node(leaf: u16, bytes: &[u8]) -> Result<SymbolNode<'_>, NodeFault>
    requires { length bytes.now ≡ 8 + 80 * leaf }
    ensures node { IfOk result (λ node. node ≡ entries_of bytes.now) }
    ensures form { OnOk result (IsSymbolNode leaf bytes.now) }
    ensures entries { OnOk result (AllByRecursion IsEntry (entries_of bytes.now)) }
    ensures refused { IfErr result (λ fault.
        (fault ≡ NodeFault.NodeForm) × BreaksSymbolNodeForm leaf bytes.now) }
{
    if !begins_with(bytes, &SIGNATURE)
        || bytes[4] != 1
        || usize::from(u16_at(bytes, 6)) > 2 * usize::from(leaf)
        || !are_known(bytes)
    {
        return Err(NodeFault::NodeForm);
    }
    Ok(SymbolNode::new(bytes))
}

/// The symbol node that these bytes are, with room for 2 `leaf` entries. Nothing is checked. Takes no memory.
///
/// That they have the form of such a node is the caller's condition.
pub fn known_symbol_node(leaf: u16, bytes: &[u8]) -> SymbolNode<'_>
    requires long { length bytes.now ≡ 8 + 80 * leaf }
    requires form { IsSymbolNode leaf bytes.now }
    ensures { result ≡ entries_of bytes.now }
{
    // K counts in the contract alone: the bytes say how many entries there are.
    let _leaf = leaf;
    SymbolNode::new(bytes)
}

/// Whether each entry has one of the three cache types.
fn are_known(bytes: &[u8]) -> bool
    requires head { 8 ≤ length bytes.now }
    requires entries { 8 + 40 * symbols_in bytes.now ≤ length bytes.now }
    ensures { MatchBool result (AllByRecursion IsEntry (entries_of bytes.now))
        ((i : ℕ) × (i < symbols_in bytes.now) × (2 < cache_at bytes.now i)) }
{
    for i in 0..usize::from(u16_at(bytes, 6)) {
        if cache_type(bytes, i) > MAX_CACHE {
            return false;
        }
    }
    true
}

/// The cache type of an entry.
fn cache_type(bytes: &[u8], i: usize) -> u32
    requires { 48 + 40 * i ≤ length bytes.now }
    ensures { result ≡ cache_at bytes.now i }
{
    u32_at(entry_bytes(bytes, i), 16)
}
