//! The stored chunks of a tree that hold no cell of an extent, taken out (File Format Specification 3.0, section
//! III.A.1).

ghost use Rattle.std.specs.Prelude.{◌≡◌, ◌*◌, ◌≤◌, length, map};
ghost use Rattle.std.specs.FinMap.{retain_keys, values};
ghost use Rattle.h5_bytes.specs.Blocks.{Keeps, block};
ghost use Rattle.h5_model.specs.Tree.Places.{is_inside};
ghost use Rattle.h5_space.specs.Moves.{Spends};
ghost use Rattle.h5_chunks.specs.Edited.{AreChunksApart, HasChunksNow};
ghost use Rattle.h5_chunks.specs.Lists.{offsets_outside};
ghost use Rattle.h5_chunks.specs.Told.{chunks_told};

use crate::list::ChunkList;
use crate::shape::ChunkShape;
use crate::take::take_out;
use h5_space::Image;

/// Takes the chunks that hold no cell of an extent of these sizes out of a tree, and gives their blocks back. The others
/// stay, with their bytes. Takes no memory.
///
/// These are the caller's conditions: the chunks were read, on blocks that share no byte with each other, with the
/// superblock or with a free block; `outside` are those of `chunks_beyond` for these sizes; and there is room for 16
/// calls of `give` for each of these chunks.
pub fn drop_outside(
    image: &mut Image,
    shape: &ChunkShape<'_>,
    root: u64,
    outside: &ChunkList,
    sizes: &[u64],
)
    requires chunks { AreChunksApart image.old shape.now root }
    requires rank { length sizes.now ≡ length shape.now.sizes }
    requires outside { outside.now ≡ record {
      rank = length shape.now.sizes;
      bytes = shape.now.bytes;
      offsets = offsets_outside sizes.now (chunks_told image.old.bytes shape.now root);
    } }
    requires calls { 16 * length outside.now.offsets ≤ image.old.room_blocks }
    ensures dropped { HasChunksNow image.old image.new shape.now root
        (retain_keys (chunks_told image.old.bytes shape.now root) (is_inside sizes.now)) }
    ensures kept { Keeps image.old.bytes image.new.bytes (map (λ at. block at shape.now.bytes)
        (values (chunks_told image.new.bytes shape.now root))) }
    ensures spends { Spends image.old image.new 0 (16 * length outside.now.offsets) }
{
    // From the last one on, since what stands behind a chunk in its node moves up.
    let mut k = outside.len();
    while k > 0 {
        k -= 1;
        take_out(image, shape, root, outside.key(k));
    }
}
