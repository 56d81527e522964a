//! An array given other sizes where it stands (File Format Specification 3.0, sections III.A.1, IV.A.1.a and IV.A.2.b).

ghost use Rattle.std.specs.Prelude.{◌≡◌, ◌↔◌, ◌+◌, ◌<◌, ◌≤◌, ◌∷◌, [], ◌&&◌, Bool, Err, IfOk, IsFalse, IsTrue, OnErr, OnOk, false, length, true};
ghost use Rattle.std.specs.FinMap.{get};
ghost use Rattle.std.specs.Option.{option_copied};
ghost use Rattle.h5_model.specs.Edits.Applied.{with_sizes, with_dataset};
ghost use Rattle.h5_model.specs.Format.Limits.{most_bytes, most_dimensions};
ghost use Rattle.h5_model.specs.Tree.Objects.{with_object};
ghost use Rattle.h5_model.specs.Format.Described.{Described};
ghost use Rattle.h5_header.specs.Listed.{messages_in};
ghost use Rattle.h5_layout.specs.Kept.{smaller_sizes};
ghost use Rattle.h5_layout.specs.ArrayEdits.{IsArrayApart, described_in};
ghost use Rattle.h5_layout.specs.Extents.{CanHaveSizes, extent_room};
ghost use Rattle.h5_layout.specs.Resized.{IsLookedAt, calls_outside};
ghost use Rattle.h5_layout.specs.Trimmed.{IsTrimmed};
ghost use Rattle.h5_open.specs.Attributed.{has_full_header};
ghost use Rattle.h5_open.specs.ChangedInPlace.{IsChangedInPlace};
ghost use Rattle.h5_open.specs.Opened.Sound.{IsSound};
ghost use Rattle.h5_open.specs.Resized.{IsArrayTrimmed, IsObjectResized, LacksMaxima, extent_bytes, has_no_place};
ghost use Rattle.h5_open.specs.Written.{IsArrayThere};

use super::end::write_end;
use super::{Opened, OpenedObject};
use h5_header::{AddFault, HeaderRef, MAX_MESSAGES, Messages};
use h5_layout::{
    MAX_RANK, Outside, copy_smaller, lacks_maxima, lacks_tree, outside_of, resize_array, sizes_of,
};
use h5_space::{Image, MAXIMUM_IMAGE};
use std::alloc::{AllocError, Global};

/// Bytes of a Dataspace message with maxima beside its sizes and these, and of a new block beside the message.
const EXTENT_AND_BLOCK: u64 = 40;

/// No memory has as many keys of chunks.
const MOST_LOST: usize = 1 << 40;

impl Opened {
    /// Gives an array in chunks other sizes. A cell inside the old and the new sizes keeps its value, and each other cell is the fill.
    ///
    /// It is done where the array stands (`resize_array` of `h5_layout`): chunks that hold no cell any more are given back, and cells
    /// outside the sizes become the fill. An array that was resized before, and only grows, has nothing outside: its chunks are not
    /// looked at. Takes memory for the keys of the chunks that have cells outside, and for a message, before the first change. A refusal
    /// changes nothing.
    ///
    /// That the object of the number is an array, and that it can have these sizes, are the caller's conditions.
    ///
    /// # Errors
    ///
    /// `HeaderFull` where the Dataspace message has no maxima, so that another one is needed, and the header's total of messages plus 2
    /// passes 65535; else `ImageFull` where the image has more than 2147483648 bytes with those of such a message and its block; else
    /// `NoMemory`.
    pub fn resize(&mut self, alloc: Global, number: u32, sizes: &[u64]) -> Result<(), AddFault>
        requires array { (a : Described) × IsArrayThere self.old number a × CanHaveSizes a sizes.now }
        ensures changed { OnOk result ((lacks : Bool)
            → LacksMaxima self.old.image (get self.old.table number) lacks
            → IsChangedInPlace self.old self.new
            (with_object self.old.tree number (with_dataset (with_sizes sizes.now)))
            self.old.next (number ∷ [])
            (extent_bytes lacks sizes.now)) }
        ensures sound { IsSound self.new }
        ensures trimmed { OnOk result (IsArrayTrimmed self.new number) }
        ensures header_full { (lacks : Bool) → LacksMaxima self.old.image (get self.old.table number) lacks
            → (result ≡ Err AddFault.HeaderFull) ↔ IsTrue (lacks && has_full_header self.old number) }
        ensures image_full { (lacks : Bool) → LacksMaxima self.old.image (get self.old.table number) lacks
            → (result ≡ Err AddFault.ImageFull)
            ↔ (IsFalse (lacks && has_full_header self.old number)
            × (most_bytes < length self.old.image + extent_bytes lacks sizes.now)) }
        ensures refused { OnErr result (self.new ≡ self.old) }
    {
        let object = self.index.objects[number as usize].as_mut().unwrap();
        resize_object(alloc, &mut self.image, object, sizes)?;
        write_end(&mut self.image);
        Ok(())
    }
}

/// Gives an array other sizes where it stands (`resize_array` of `h5_layout`), or changes nothing but what room there is in the image.
///
/// # Errors
///
/// Those of `Opened::resize`.
fn resize_object(
    alloc: Global,
    image: &mut Image,
    object: &mut OpenedObject,
    sizes: &[u64],
) -> Result<(), AddFault>
    requires array { IsArrayApart image.old object.old.messages }
    requires sizes { CanHaveSizes (described_in image.old.bytes object.old.messages) sizes.now }
    requires trimmed { object.old.tidy ≡ true → IsTrimmed image.old.bytes
        (described_in image.old.bytes object.old.messages)
        (described_in image.old.bytes object.old.messages).sizes }
    requires short { length image.old.bytes ≤ most_bytes }
    ensures resized { OnOk result (IsObjectResized image.old image.new object.old object.new sizes.now) }
    ensures spends { OnOk result (length image.new.bytes ≤ length image.old.bytes
        + extent_room (messages_in image.old.bytes object.old.messages.list) sizes.now) }
    ensures header_full { (result ≡ Err AddFault.HeaderFull)
        ↔ IsTrue (has_no_place image.old.bytes object.old.messages) }
    ensures image_full { (result ≡ Err AddFault.ImageFull)
        ↔ (IsFalse (has_no_place image.old.bytes object.old.messages)
        × (most_bytes < length image.old.bytes
        + extent_room (messages_in image.old.bytes object.old.messages.list) sizes.now)) }
    ensures same { OnErr result (object.new ≡ object.old) }
    ensures as_it_was { OnErr result (image.new ≡ record image.old {
      room_bytes = image.new.room_bytes;
      room_blocks = image.new.room_blocks;
    }) }
{
    let bytes = bytes_for(image, &object.messages, sizes)?;
    let Ok(outside) = look_outside(alloc, image, &object.messages, object.tidy, sizes) else {
        return Err(AddFault::NoMemory);
    };
    let Ok(()) = make_room(image, &mut object.messages, bytes, outside.as_ref()) else {
        return Err(AddFault::NoMemory);
    };
    resize_array(image, &mut object.messages, sizes, outside.as_ref());
    object.tidy = true;
    Ok(())
}

/// How many bytes a Dataspace message may take that is new, where the one that there is has no maxima; else 0.
///
/// # Errors
///
/// `HeaderFull` and `ImageFull`, as `Opened::resize`.
fn bytes_for(image: &Image, messages: &Messages, sizes: &[u64]) -> Result<u64, AddFault>
    requires array { IsArrayApart image.now messages.now }
    requires short { length image.now.bytes ≤ most_bytes }
    requires few { length sizes.now ≤ most_dimensions }
    ensures bytes { IfOk result (λ n. n
        ≡ extent_room (messages_in image.now.bytes messages.now.list) sizes.now) }
    ensures fits { IfOk result (λ n. length image.now.bytes + n ≤ most_bytes) }
    ensures place { OnOk result (has_no_place image.now.bytes messages.now ≡ false) }
    ensures header_full { (result ≡ Err AddFault.HeaderFull)
        ↔ IsTrue (has_no_place image.now.bytes messages.now) }
    ensures image_full { (result ≡ Err AddFault.ImageFull)
        ↔ (IsFalse (has_no_place image.now.bytes messages.now)
        × (most_bytes < length image.now.bytes
        + extent_room (messages_in image.now.bytes messages.now.list) sizes.now)) }
{
    if !lacks_maxima(&HeaderRef::new(image, messages)) {
        return Ok(0);
    }
    if messages.list().len() + 2 > MAX_MESSAGES {
        return Err(AddFault::HeaderFull);
    }
    let bytes = EXTENT_AND_BLOCK + 16 * sizes.len() as u64;
    if image.bytes().len() as u64 + bytes > MAXIMUM_IMAGE {
        return Err(AddFault::ImageFull);
    }
    Ok(bytes)
}

/// What an array stores outside the cells that it has with its sizes and with these; `None` where it stores no chunk, or is known to store
/// nothing outside its sizes and none of these is smaller.
///
/// # Errors
///
/// `AllocError` if memory is refused.
fn look_outside(
    alloc: Global,
    image: &Image,
    messages: &Messages,
    trimmed: bool,
    sizes: &[u64],
) -> Result<Option<Outside>, AllocError>
    requires array { IsArrayApart image.now messages.now }
    requires sizes { CanHaveSizes (described_in image.now.bytes messages.now) sizes.now }
    requires trimmed { trimmed ≡ true → IsTrimmed image.now.bytes (described_in image.now.bytes messages.now)
        (described_in image.now.bytes messages.now).sizes }
    ensures { IfOk result (λ outside.
        IsLookedAt image.now.bytes (described_in image.now.bytes messages.now) sizes.now outside) }
{
    let header = HeaderRef::new(image, messages);
    if lacks_tree(&header) {
        return Ok(None);
    }
    let mut sizes_room = [0; MAX_RANK];
    let old = sizes_of(&header, &mut sizes_room);
    let mut room = [0; MAX_RANK];
    let smaller = &mut room[..old.len()];
    copy_smaller(old, sizes, smaller);
    if trimmed && &*smaller == old {
        return Ok(None);
    }
    let outside = outside_of(alloc, image, messages, smaller)?;
    Ok(Some(outside))
}

/// Makes room for a message of so many bytes with its block, if there are some, and for what is outside to be given back. Changes nothing
/// but what room there is.
///
/// # Errors
///
/// `AllocError` if memory is refused. Then the messages are as they were.
fn make_room(
    image: &mut Image,
    messages: &mut Messages,
    bytes: u64,
    outside: Option<&Outside>,
) -> Result<(), AllocError>
    requires fits { length image.old.bytes + bytes ≤ most_bytes }
    ensures messages { OnOk result (messages.new ≡ record messages.old { room = messages.new.room }) }
    ensures place { OnOk result (0 < bytes → 1 ≤ messages.new.room) }
    ensures same { OnErr result (messages.new ≡ messages.old) }
    ensures image { image.new ≡ record image.old {
      room_bytes = image.new.room_bytes;
      room_blocks = image.new.room_blocks;
    } }
    ensures bytes { OnOk result (bytes ≤ image.new.room_bytes) }
    ensures calls { OnOk result (calls_outside (option_copied outside.entry) + 1 ≤ image.new.room_blocks) }
{
    let lost = match outside {
        Some(outside) => outside.lost.len(),
        None => 0,
    };
    // That many keys are more than memory has.
    if lost > MOST_LOST {
        return Err(AllocError);
    }
    if image.reserve(bytes, 16 * lost as u64 + 1).is_err() {
        return Err(AllocError);
    }
    if bytes > 0 {
        messages.reserve()?;
    }
    Ok(())
}
