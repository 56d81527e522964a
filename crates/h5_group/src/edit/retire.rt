//! Keys of a group's tree that name a text which is to be freed (File Format Specification 3.0, section III.A.1).

ghost use Rattle.std.specs.Prelude.{◌≡◌, ℕ, List, [], ◌∷◌, None, Some, if◌then◌else◌};
ghost use Rattle.std.specs.List.{Contains};
ghost use Rattle.h5_bytes.specs.declared.Block.{Block};
ghost use Rattle.h5_model.specs.Format.Heap.{heap_header, segment_of};
ghost use Rattle.h5_model.specs.Format.Symbols.{Target};
ghost use Rattle.h5_space.specs.Moves.{Spends};
ghost use Rattle.h5_btree.specs.Looked.{steps_of};
ghost use Rattle.h5_group.specs.Edited.{HasGroupMoved, IsGroupIn, IsNamedByNoKey, IsSomeGroup};
ghost use Rattle.h5_group.specs.Exact.{AreExactBut, AreGroupKeys, AreKeysLooked};
ghost use Rattle.h5_group.specs.Retired.{StandsAt, is_of, entry_keys};
ghost use Rattle.h5_group.specs.Ways.{AreWaysKept};

use crate::nodes::group_kind;
use h5_btree::{Hits, Look, Step, retire};
use h5_bytes::u64_at;
use h5_msg::SymbolTable;
use h5_snod::known_symbol_node;
use h5_space::{Image, leaf_k};

/// The keys of a group's tree that name the text at this offset of its heap. This is the K of its symbol nodes.
#[derive(Clone, Copy)]
pub(crate) struct KeysOf {
    pub(crate) leaf: u16,
    pub(crate) offset: u64,
}

impl Hits for KeysOf {
    ghost hit = { λ s. is_of s.offset };

    ghost stands = { λ s. StandsAt s.leaf };

    ghost keys_at = { λ s. entry_keys s.leaf };

    fn is_hit(&self, key: &[u8]) -> bool {
        u64_at(key, 0) == self.offset
    }

    fn last_key(&self, image: &Image, child: u64) -> Option<[u8; 8]> {
        let len = 8 + 80 * u64::from(self.leaf);
        let symbols = known_symbol_node(self.leaf, image.part(child, len).unwrap());
        if symbols.is_empty() {
            return None;
        }
        Some(symbols.entry(symbols.len() - 1).name.to_le_bytes())
    }
}

/// Where keys that name a text are looked for: along these steps of a way, where the keys are known to be exact, or in
/// each node.
pub(crate) fn look_along(steps: &[Step], exact: bool) -> Look<'_>
    ensures { steps_of result ≡ (if exact then Some steps.now else None) }
{
    if exact {
        return Look::Along(steps);
    }
    Look::Everywhere
}

/// Lets each key of a group's tree that names a text of its heap give way to one that names another, so that the text
/// can be freed. All links stay. Takes no room and no memory.
///
/// That a group stands there, that no link of it names the text, and that keys which do are where they are looked for,
/// are the caller's conditions.
pub(crate) fn retire_name(image: &mut Image, table: SymbolTable, offset: u64, look: Look<'_>)
    requires group { (spare : List ℕ) × Contains spare offset × IsSomeGroup image.old table spare }
    requires looked { AreKeysLooked offset (steps_of look) image.old.bytes table }
    ensures retired { (links : List (List ℕ × Target)) (spare : List ℕ) (blocks : List Block)
        → IsGroupIn image.old table links spare blocks → Contains spare offset
        → (moved : HasGroupMoved image.old image.new table blocks links spare)
        × IsNamedByNoKey image.new table links spare moved.blocks moved.group offset }
    ensures exact { AreExactBut offset image.old.bytes table → AreGroupKeys (λ key. ⊥) image.new.bytes table }
    ensures ways { AreWaysKept image.old image.new table }
    ensures header { heap_header image.new.bytes table.heap ≡ heap_header image.old.bytes table.heap }
    ensures segment { segment_of image.new.bytes table.heap ≡ segment_of image.old.bytes table.heap }
    ensures spends { Spends image.old image.new 0 0 }
{
    let kind = group_kind(image);
    let keys = KeysOf {
        leaf: leaf_k(image.bytes()),
        offset,
    };
    retire(image, kind, table.tree(), &keys, look);
}
