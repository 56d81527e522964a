//! Symbol nodes edited in place (File Format Specification 3.0, section III.B).
//!
//! What is written changes the entries and their count alone: the head of six bytes stays, and so does all behind the
//! entries' room. No call takes memory.

ghost use Rattle.std.specs.Prelude.{◌≡◌, ◌+◌, ◌-◌, ◌*◌, ◌^◌, ◌<◌, ◌≤◌, length, take, drop};
ghost use Rattle.std.specs.List.{insert, remove};
ghost use Rattle.h5_bytes.specs.Bytes.{part};
ghost use Rattle.h5_model.specs.Format.Symbols.{entries_of, entry_of, symbols_in};
ghost use Rattle.h5_snod.specs.Raw.{raw_entries};

use crate::node::{ENTRY, HEAD};
use h5_bytes::{put_u16, u16_at};

/// Puts an entry of 40 bytes in as entry `k`, before those that stood from there on. Takes no memory.
pub fn insert_at(node: &mut [u8], k: usize, entry: &[u8])
    requires place { k ≤ symbols_in node.old }
    requires room { 48 + 40 * symbols_in node.old ≤ length node.old }
    requires small { symbols_in node.old + 1 < 2 ^ 16 }
    requires width { length entry.now ≡ 40 }
    ensures entries { entries_of node.new ≡ insert (entries_of node.old) k (entry_of entry.now) }
    ensures bytes { raw_entries node.new ≡ insert (raw_entries node.old) k entry.now }
    ensures head { part 0 6 node.new ≡ part 0 6 node.old }
    ensures long { length node.new ≡ length node.old }
{
    let n = usize::from(u16_at(node, 6));
    let from = HEAD + ENTRY * k;
    node.copy_within(from..HEAD + ENTRY * n, from + ENTRY);
    node[from..from + ENTRY].copy_from_slice(entry);
    put_u16(node, 6, (n + 1) as u16);
}

/// Takes entry `k` out. Takes no memory.
pub fn remove_at(node: &mut [u8], k: usize)
    requires place { k < symbols_in node.old }
    requires room { 8 + 40 * symbols_in node.old ≤ length node.old }
    ensures entries { entries_of node.new ≡ remove (entries_of node.old) k }
    ensures bytes { raw_entries node.new ≡ remove (raw_entries node.old) k }
    ensures head { part 0 6 node.new ≡ part 0 6 node.old }
    ensures long { length node.new ≡ length node.old }
{
    let n = usize::from(u16_at(node, 6));
    let from = HEAD + ENTRY * k;
    node.copy_within(from + ENTRY..HEAD + ENTRY * n, from);
    put_u16(node, 6, (n - 1) as u16);
}

/// Keeps the first `k` entries, and takes the others out. Takes no memory.
pub fn keep_front(node: &mut [u8], k: usize)
    requires place { k ≤ symbols_in node.old }
    requires head { 8 ≤ length node.old }
    requires small { symbols_in node.old < 2 ^ 16 }
    ensures entries { entries_of node.new ≡ take k (entries_of node.old) }
    ensures bytes { raw_entries node.new ≡ take k (raw_entries node.old) }
    ensures head { part 0 6 node.new ≡ part 0 6 node.old }
    ensures long { length node.new ≡ length node.old }
{
    put_u16(node, 6, k as u16);
}

/// Takes the first `k` entries out. Takes no memory.
pub fn drop_front(node: &mut [u8], k: usize)
    requires place { k ≤ symbols_in node.old }
    requires room { 8 + 40 * symbols_in node.old ≤ length node.old }
    ensures entries { entries_of node.new ≡ drop k (entries_of node.old) }
    ensures bytes { raw_entries node.new ≡ drop k (raw_entries node.old) }
    ensures head { part 0 6 node.new ≡ part 0 6 node.old }
    ensures long { length node.new ≡ length node.old }
{
    let n = usize::from(u16_at(node, 6));
    node.copy_within(HEAD + ENTRY * k..HEAD + ENTRY * n, HEAD);
    put_u16(node, 6, (n - k) as u16);
}

/// Makes `other` a symbol node of the entries from `k` on, and keeps the entries before them in `node`. Takes no
/// memory.
pub fn split_into(node: &mut [u8], other: &mut [u8], k: usize)
    requires place { k ≤ symbols_in node.old }
    requires room { 8 + 40 * symbols_in node.old ≤ length node.old }
    requires fits { 8 + 40 * (symbols_in node.old - k) ≤ length other.old }
    ensures front { entries_of node.new ≡ take k (entries_of node.old) }
    ensures back { entries_of other.new ≡ drop k (entries_of node.old) }
    ensures front_bytes { raw_entries node.new ≡ take k (raw_entries node.old) }
    ensures back_bytes { raw_entries other.new ≡ drop k (raw_entries node.old) }
    ensures head { part 0 6 node.new ≡ part 0 6 node.old }
    ensures other_head { part 0 6 other.new ≡ part 0 6 node.old }
    ensures long { length node.new ≡ length node.old }
    ensures other_long { length other.new ≡ length other.old }
{
    let n = usize::from(u16_at(node, 6));
    move_back(node, other, k, n);
    keep_front(node, k);
}

/// Writes the head, the count and the entries from place `k` on into other bytes.
fn move_back(node: &[u8], other: &mut [u8], k: usize, n: usize)
    requires count { n ≡ symbols_in node.now }
    requires place { k ≤ n }
    requires small { n < 2 ^ 16 }
    requires room { 8 + 40 * n ≤ length node.now }
    requires fits { 8 + 40 * (n - k) ≤ length other.old }
    ensures back { entries_of other.new ≡ drop k (entries_of node.now) }
    ensures bytes { raw_entries other.new ≡ drop k (raw_entries node.now) }
    ensures head { part 0 6 other.new ≡ part 0 6 node.now }
    ensures long { length other.new ≡ length other.old }
{
    other[0..6].copy_from_slice(&node[0..6]);
    put_u16(other, 6, (n - k) as u16);
    other[HEAD..HEAD + ENTRY * (n - k)].copy_from_slice(&node[HEAD + ENTRY * k..HEAD + ENTRY * n]);
}
