//! An array in chunks given other sizes where it stands (File Format Specification 3.0, sections III.A.1 and IV.A.2.b).

ghost use Rattle.std.specs.Prelude.{◌≡◌, ◌+◌, ◌*◌, ◌≤◌, length};
ghost use Rattle.std.specs.Option.{option_copied};
ghost use Rattle.h5_space.specs.Moves.{Spends};
ghost use Rattle.h5_header.specs.Listed.{messages_in};
ghost use Rattle.h5_layout.specs.ArrayEdits.{IsArrayApart, described_in};
ghost use Rattle.h5_layout.specs.Extents.{CanHaveSizes, MayHaveSizes, extent_room};
ghost use Rattle.h5_layout.specs.Kept.{smaller_sizes};
ghost use Rattle.h5_layout.specs.Resized.{IsArrayResized, IsLookedAt, calls_outside};
ghost use Rattle.h5_layout.specs.Trimmed.{AreOutside, IsTrimmedTo};

use crate::extent::{set_sizes, sizes_of};
use crate::held::copy_smaller;
use crate::trimmed::{Outside, trim};
use h5_header::{HeaderRef, Messages};
use h5_shape::MAX_RANK;
use h5_space::Image;

/// Gives an array in chunks other sizes, where it stands. A cell inside the old and the new sizes keeps its value, and
/// each other cell is the fill, also once the array is made larger again: nothing is stored outside its sizes any more.
/// Takes no memory.
///
/// These are the caller's conditions: the array was read, with its data, on blocks that share no byte with each other,
/// with the superblock or with a free block; it can have these sizes; `outside` is what `outside_of` gives for the
/// smaller of the old and the new size in each dimension, or `None` where nothing is stored outside of these; there is
/// room for what `set_sizes` may need, and for 16 calls of `give` for each chunk that goes.
pub fn resize_array(
    image: &mut Image,
    messages: &mut Messages,
    sizes: &[u64],
    outside: Option<&Outside>,
)
    requires array { IsArrayApart image.old messages.old }
    requires sizes { CanHaveSizes (described_in image.old.bytes messages.old) sizes.now }
    requires room { MayHaveSizes image.old messages.old sizes.now }
    requires outside { IsLookedAt image.old.bytes (described_in image.old.bytes messages.old) sizes.now
        (option_copied outside) }
    requires calls { calls_outside (option_copied outside) + 1 ≤ image.old.room_blocks }
    ensures resized { IsArrayResized image.old image.new messages.old messages.new sizes.now }
    ensures spends { Spends image.old image.new
        (extent_room (messages_in image.old.bytes messages.old.list) sizes.now)
        (calls_outside (option_copied outside.entry) + 1) }
{
    if let Some(outside) = outside {
        trim_to_smaller(image, messages, sizes, outside);
    }
    set_sizes(image, messages, sizes);
}

/// Takes away what an array stores outside the smaller of its size and the one here in each dimension.
///
/// These are the caller's conditions: those of `trim` for the smaller sizes.
fn trim_to_smaller(image: &mut Image, messages: &Messages, sizes: &[u64], outside: &Outside)
    requires array { IsArrayApart image.old messages.now }
    requires sizes { CanHaveSizes (described_in image.old.bytes messages.now) sizes.now }
    requires outside { AreOutside image.old.bytes (described_in image.old.bytes messages.now)
        (smaller_sizes (described_in image.old.bytes messages.now).sizes sizes.now) outside.now }
    requires calls { 16 * length outside.now.lost.offsets ≤ image.old.room_blocks }
    ensures trimmed { IsTrimmedTo image.old image.new messages.now
        (smaller_sizes (described_in image.old.bytes messages.now).sizes sizes.now) }
    ensures spends { Spends image.old image.new 0 (16 * length outside.now.lost.offsets) }
{
    let mut room = [0; MAX_RANK];
    let smaller = &mut room[..sizes.len()];
    write_smaller(image, messages, sizes, smaller);
    trim(image, messages, smaller, outside);
}

/// Writes the smaller of the size that an array has and the one here in each dimension.
///
/// That the array was read, and that there are as many sizes as it has, are the caller's conditions.
fn write_smaller(image: &Image, messages: &Messages, sizes: &[u64], smaller: &mut [u64])
    requires array { IsArrayApart image.now messages.now }
    requires rank { length sizes.now ≡ length (described_in image.now.bytes messages.now).sizes }
    requires room { length smaller.old ≡ length sizes.now }
    ensures { smaller.new ≡ smaller_sizes (described_in image.now.bytes messages.now).sizes sizes.now }
{
    let mut room = [0; MAX_RANK];
    let old = sizes_of(&HeaderRef::new(image, messages), &mut room);
    copy_smaller(old, sizes, smaller);
}
