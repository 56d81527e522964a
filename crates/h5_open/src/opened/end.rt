//! Where an image ends, as its superblock says it (File Format Specification 3.0, section II.A).

ghost use Rattle.std.specs.Prelude.{◌≡◌, ◌≤◌, ◌∷◌, [], length};
ghost use Rattle.h5_model.specs.Format.Limits.{most_bytes};
ghost use Rattle.h5_model.specs.Format.Superblock.{end_field as field_in, end_of_file as end_in, k_values, superblock_length};
ghost use Rattle.h5_space.specs.Moves.{Moves};

use h5_bytes::put_u64;
use h5_space::{Image, end_field, end_of_file};

/// Writes where the image ends into its superblock, where that says another place. The version and all K values stay. Takes no memory.
///
/// That the superblock is there, and that the image has at most 2147483648 bytes, are the caller's conditions.
pub(super) fn write_end(image: &mut Image)
    requires superblock { superblock_length image.old.bytes ≤ length image.old.bytes }
    requires small { length image.old.bytes ≤ most_bytes }
    ensures end { end_in image.new.bytes ≡ length image.new.bytes }
    ensures length { length image.new.bytes ≡ length image.old.bytes }
    ensures k { k_values image.new.bytes ≡ k_values image.old.bytes }
    ensures moves { Moves image.old image.new (field_in image.old.bytes ∷ [])
        (field_in image.new.bytes ∷ []) }
{
    let end = image.bytes().len() as u64;
    if end_of_file(image.bytes()) != end {
        let field = end_field(image.bytes());
        put_u64(image.part_at_mut(field.at, field.len), 0, end);
    }
}
