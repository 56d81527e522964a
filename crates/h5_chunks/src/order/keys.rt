//! The order of chunks between the keys of their tree (File Format Specification 3.0, section III.A.1).

ghost use Rattle.std.specs.Prelude.{◌≡◌, ◌+◌, ◌*◌, ◌≤◌, ◌↔◌, ◌++◌, ◌∷◌, [], ℕ, IsTrue, List, length, ⊤};
ghost use Rattle.h5_model.specs.Format.Limits.{most_dimensions};
ghost use Rattle.h5_model.specs.Format.Links.{Before, NotAfter};
ghost use Rattle.h5_model.specs.Format.Chunks.{offsets_in};
ghost use Rattle.h5_laws.specs.ChunkLadders.{chunk_lists, chunk_sides};
ghost use Rattle.h5_chunks.specs.Between.{IsChunkHeld};

use crate::offsets::{Offsets, key_order};
use crate::shape::ChunkShape;
use h5_btree::{Node, Ordered};
use h5_space::Image;

impl Ordered for ChunkShape<'_> {
    ghost Item = { List ℕ × ℕ };

    ghost sides = { λ s. chunk_sides (length s.sizes) };

    ghost bottom = { λ s image. chunk_lists (length s.sizes) };

    ghost known = { λ s image node. ⊤ };

    fn is_ordered(&self, _image: &Image, node: &Node<'_>) -> bool {
        let rank = self.sizes.len();
        for i in 0..node.len() {
            let key = node.key(i);
            if !is_between(rank, key, node.key(i + 1), key) {
                return false;
            }
        }
        true
    }

    fn lie_between(&self, _image: &Image, node: &Node<'_>, low: &[u8], high: &[u8]) -> bool {
        let rank = self.sizes.len();
        for i in 0..node.len() {
            if !is_between(rank, low, high, node.key(i)) {
                return false;
            }
        }
        true
    }

    /// Of keys alone nothing is asked.
    fn may_follow(&self, _image: &Image, _key: &[u8], _next: &[u8]) -> bool {
        true
    }
}

/// Whether the chunk that a key names is at or above one key and below another.
fn is_between(rank: usize, low: &[u8], high: &[u8], key: &[u8]) -> bool
    requires few { rank ≤ most_dimensions }
    requires low { length low.now ≡ 8 + 8 * (rank + 1) }
    requires high { length high.now ≡ 8 + 8 * (rank + 1) }
    requires key { length key.now ≡ 8 + 8 * (rank + 1) }
    ensures { IsTrue result ↔ IsChunkHeld rank low.now high.now (offsets_in rank key.now) }
{
    let chunk = Offsets::of_key(rank, key);
    key_order(low, chunk.as_slice()).is_le() && key_order(high, chunk.as_slice()).is_gt()
}
