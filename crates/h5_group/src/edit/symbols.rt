//! Symbol nodes that are written where they stand (File Format Specification 3.0, section III.B).

ghost use Rattle.std.specs.Prelude.{◌≡◌, ◌+◌, ◌*◌, ◌<◌, ◌≤◌, drop, length, take};
ghost use Rattle.std.specs.List.{insert, remove};
ghost use Rattle.h5_model.specs.Format.Superblock.{highest_k};
ghost use Rattle.h5_model.specs.Format.Symbols.{IsSymbolNode, symbol_bytes, symbols_at};
ghost use Rattle.h5_snod.specs.Written.{entry_from};
ghost use Rattle.h5_group.specs.SymbolEdits.{IsSymbolsRewritten};

use h5_snod::{ENTRY, NewSymbol, drop_front, insert_at, keep_front, remove_at, write_entry};
use h5_space::Image;

/// Puts an entry into a symbol node, before those from index `j` on.
pub(crate) fn put_in(image: &mut Image, leaf: u16, at: u64, j: usize, symbol: NewSymbol)
    requires inside { at + (8 + 80 * leaf) ≤ length image.old.bytes }
    requires form { IsSymbolNode leaf (symbol_bytes image.old.bytes leaf at) }
    requires place { j ≤ length (symbols_at image.old.bytes leaf at) }
    requires room { length (symbols_at image.old.bytes leaf at) < 2 * leaf }
    requires few { leaf ≤ highest_k }
    ensures { IsSymbolsRewritten image.old image.new leaf at
        (insert (symbols_at image.old.bytes leaf at) j (entry_from symbol)) }
{
    let mut entry = [0; ENTRY];
    write_entry(symbol, &mut entry);
    let node = image.part_at_mut(at, 8 + 80 * u64::from(leaf));
    insert_at(node, j, &entry);
}

/// Takes entry `k` out of a symbol node.
pub(crate) fn take_at(image: &mut Image, leaf: u16, at: u64, k: usize)
    requires inside { at + (8 + 80 * leaf) ≤ length image.old.bytes }
    requires form { IsSymbolNode leaf (symbol_bytes image.old.bytes leaf at) }
    requires place { k < length (symbols_at image.old.bytes leaf at) }
    ensures { IsSymbolsRewritten image.old image.new leaf at
        (remove (symbols_at image.old.bytes leaf at) k) }
{
    let node = image.part_at_mut(at, 8 + 80 * u64::from(leaf));
    remove_at(node, k);
}

/// Keeps the first `n` entries of a symbol node.
pub(crate) fn keep_entries(image: &mut Image, leaf: u16, at: u64, n: usize)
    requires inside { at + (8 + 80 * leaf) ≤ length image.old.bytes }
    requires form { IsSymbolNode leaf (symbol_bytes image.old.bytes leaf at) }
    requires place { n ≤ length (symbols_at image.old.bytes leaf at) }
    requires few { leaf ≤ highest_k }
    ensures { IsSymbolsRewritten image.old image.new leaf at (take n (symbols_at image.old.bytes leaf at)) }
{
    let node = image.part_at_mut(at, 8 + 80 * u64::from(leaf));
    keep_front(node, n);
}

/// Takes the first `n` entries of a symbol node out.
pub(crate) fn drop_entries(image: &mut Image, leaf: u16, at: u64, n: usize)
    requires inside { at + (8 + 80 * leaf) ≤ length image.old.bytes }
    requires form { IsSymbolNode leaf (symbol_bytes image.old.bytes leaf at) }
    requires place { n ≤ length (symbols_at image.old.bytes leaf at) }
    ensures { IsSymbolsRewritten image.old image.new leaf at (drop n (symbols_at image.old.bytes leaf at)) }
{
    let node = image.part_at_mut(at, 8 + 80 * u64::from(leaf));
    drop_front(node, n);
}
