//! The order of a group's names between the keys of its tree (File Format Specification 3.0, section III.A.1).

ghost use Rattle.std.specs.Prelude.{◌≡◌, ◌↔◌, ℕ, IsTrue, List, [], ◌∷◌, length};
ghost use Rattle.std.specs.List.{AllByRecursion};
ghost use Rattle.h5_bytes.specs.Texts.{text_at};
ghost use Rattle.h5_model.specs.Format.Superblock.{IsSuperblock, leaf_k};
ghost use Rattle.h5_model.specs.Format.Symbols.{symbols_at};
ghost use Rattle.h5_model.specs.Format.Links.{Before, NotAfter, offset_in};
ghost use Rattle.h5_laws.specs.Ladders.{IsOrderedBy, LieBetween, all_of};
ghost use Rattle.h5_laws.specs.NameLadders.{key_text, name_lists, name_sides};
ghost use Rattle.h5_btree.specs.Walk.Below.{IsBottom, reading_in};
ghost use Rattle.h5_btree.specs.Walk.Forms.{OfGroup};
ghost use Rattle.h5_group.specs.Order.Between.{LiesBetween, NamesAscend, names_at};

use crate::nodes::{group_kind, symbol_node};
use crate::order::text::{is_before, is_not_after};
use h5_btree::{Node, NodeKind, Ordered, Trees};
use h5_bytes::u64_at;
use h5_space::Image;

/// The names of a group: its keys and its entries are offsets of texts in this segment of its heap.
#[derive(Clone, Copy)]
pub(crate) struct Names<'a> {
    pub(crate) segment: &'a [u8],
}

/// The offsets of the names for which the two keys around a child stand.
#[derive(Clone, Copy)]
struct Bounds {
    low: u64,
    high: u64,
}

impl Trees for Names<'_> {
    ghost form = { λ s. OfGroup };

    fn kind(&self, image: &Image) -> NodeKind {
        group_kind(image)
    }
}

impl Ordered for Names<'_> {
    ghost Item = { List ℕ };

    ghost sides = { λ s. name_sides (key_text s.segment.now) };

    ghost bottom = { λ s image. name_lists (symbols_at image (leaf_k image)) s.segment.now };

    ghost known = { λ s image node. NamesAscend image s.segment.now node.children };

    fn is_ordered(&self, image: &Image, node: &Node<'_>) -> bool {
        are_ordered(image, self.segment, node)
    }

    fn lie_between(&self, image: &Image, node: &Node<'_>, low: &[u8], high: &[u8]) -> bool {
        let bounds = Bounds {
            low: u64_at(low, 0),
            high: u64_at(high, 0),
        };
        are_between(image, self.segment, node, bounds)
    }

    fn may_follow(&self, _image: &Image, key: &[u8], next: &[u8]) -> bool {
        is_not_after(self.segment, u64_at(key, 0), u64_at(next, 0))
    }
}

/// Whether the keys of a node of level 0 do not fall, and the names of each symbol node lie between those around it.
/// All its names ascend.
fn are_ordered(image: &Image, segment: &[u8], node: &Node) -> bool
    requires superblock { IsSuperblock image.now.bytes }
    requires level { node.now.level ≡ 0 }
    requires leaves { AllByRecursion (IsBottom image.now.bytes OfGroup) node.now.children }
    requires ascend { NamesAscend image.now.bytes segment.now node.now.children }
    ensures { IsTrue result ↔ IsOrderedBy (name_sides (key_text segment.now))
        (reading_in image.now.bytes OfGroup)
        (name_lists (symbols_at image.now.bytes (leaf_k image.now.bytes)) segment.now) node.now }
{
    let count = node.len();
    let mut low = node.key_offset(0);
    for i in 0..count {
        let high = node.key_offset(i + 1);
        if !is_child_ordered(image, segment, Bounds { low, high }, node.child(i)) {
            return false;
        }
        low = high;
    }
    true
}

/// Whether the bounds do not fall, and the names of the symbol node at this address, which ascend, lie between them:
/// its first is above the low one, and its last is not above the high one.
fn is_child_ordered(image: &Image, segment: &[u8], bounds: Bounds, at: u64) -> bool
    requires superblock { IsSuperblock image.now.bytes }
    requires symbols { IsBottom image.now.bytes OfGroup at }
    requires ascend { NamesAscend image.now.bytes segment.now (at ∷ []) }
    ensures { IsTrue result ↔
        (NotAfter (text_at segment.now bounds.low) (text_at segment.now bounds.high)
        × AllByRecursion (LiesBetween (text_at segment.now bounds.low) (text_at segment.now bounds.high))
        (names_at image.now.bytes segment.now (at ∷ []))) }
{
    let symbols = symbol_node(image, at);
    let count = symbols.len();
    if count == 0 {
        return is_not_after(segment, bounds.low, bounds.high);
    }
    // Where names lie between the bounds, these do not fall.
    is_before(segment, bounds.low, symbols.entry(0).name)
        && is_not_after(segment, symbols.entry(count - 1).name, bounds.high)
}

/// Whether the names of all symbol nodes below a node of level 0, which ascend, lie between the bounds.
fn are_between(image: &Image, segment: &[u8], node: &Node, bounds: Bounds) -> bool
    requires superblock { IsSuperblock image.now.bytes }
    requires leaves { AllByRecursion (IsBottom image.now.bytes OfGroup) node.now.children }
    requires ascend { NamesAscend image.now.bytes segment.now node.now.children }
    ensures { IsTrue result
        ↔ AllByRecursion (LiesBetween (text_at segment.now bounds.low) (text_at segment.now bounds.high))
        (all_of (name_lists (symbols_at image.now.bytes (leaf_k image.now.bytes)) segment.now node.now)) }
{
    start_above(image, segment, node, bounds.low) && end_within(image, segment, node, bounds.high)
}

/// Whether the names of all symbol nodes below a node of level 0, which ascend, are above a bound: whether the first
/// one is. A symbol node may have none.
fn start_above(image: &Image, segment: &[u8], node: &Node, low: u64) -> bool
    requires superblock { IsSuperblock image.now.bytes }
    requires leaves { AllByRecursion (IsBottom image.now.bytes OfGroup) node.now.children }
    requires ascend { NamesAscend image.now.bytes segment.now node.now.children }
    ensures { IsTrue result ↔ AllByRecursion (Before (text_at segment.now low))
        (names_at image.now.bytes segment.now node.now.children) }
{
    for i in 0..node.len() {
        let symbols = symbol_node(image, node.child(i));
        if symbols.len() != 0 {
            return is_before(segment, low, symbols.entry(0).name);
        }
    }
    true
}

/// Whether the names of all symbol nodes below a node of level 0, which ascend, are not above a bound: whether the
/// last one is not. A symbol node may have none.
fn end_within(image: &Image, segment: &[u8], node: &Node, high: u64) -> bool
    requires superblock { IsSuperblock image.now.bytes }
    requires leaves { AllByRecursion (IsBottom image.now.bytes OfGroup) node.now.children }
    requires ascend { NamesAscend image.now.bytes segment.now node.now.children }
    ensures { IsTrue result ↔ AllByRecursion (λ name. NotAfter name (text_at segment.now high))
        (names_at image.now.bytes segment.now node.now.children) }
{
    for i in (0..node.len()).rev() {
        let symbols = symbol_node(image, node.child(i));
        let count = symbols.len();
        if count != 0 {
            return is_not_after(segment, symbols.entry(count - 1).name, high);
        }
    }
    true
}
