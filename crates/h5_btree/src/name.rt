//! A name that is sought in the tree of a group, whose keys are offsets of names in a heap (File Format Specification
//! 3.0, section III.A.1).

ghost use Rattle.std.specs.Prelude.{◌≤◌};
ghost use Rattle.std.specs.Ordering.{is_lt, nat_cmp};
ghost use Rattle.std.specs.Cmp.Lexicographic.{slice_cmp};
ghost use Rattle.h5_bytes.specs.Texts.{text_at};
ghost use Rattle.h5_model.specs.Format.Superblock.{highest_k};
ghost use Rattle.h5_model.specs.Format.Links.{offset_in};
ghost use Rattle.h5_model.specs.Format.Nodes.{group_kind};

use crate::kind::NodeKind;
use crate::sought::Sought;
use h5_bytes::{text_from, u64_at};

/// A name that is sought in a group's tree with this K, which is at most 32767. `segment` is the segment of the heap that has the names of
/// the keys.
///
/// The name stands behind a key whose name is before it, in the order of their bytes.
#[derive(Clone, Copy)]
pub struct SoughtName<'a> {
    pub k: u16,
    pub segment: &'a [u8],
    pub name: &'a [u8],
    ghost few: { k ≤ highest_k },
}

impl Sought for SoughtName<'_> {
    ghost tree_kind = { λ s. group_kind s.k };

    ghost behind = { λ s key. is_lt (slice_cmp nat_cmp (text_at s.segment.now (offset_in key)) s.name.now) };

    fn kind(&self) -> NodeKind {
        NodeKind::group(self.k)
    }

    fn is_behind(&self, key: &[u8]) -> bool {
        text_from(self.segment, u64_at(key, 0))
            .cmp(&self.name)
            .is_lt()
    }
}
