//! Attributes set and removed in place (File Format Specification 3.0, section IV.A.2.m).

ghost use Rattle.std.specs.Prelude.{◌≡◌, ◌<◌, ◌≤◌, ◌+◌, ◌%◌, ◌^◌, ℕ, List, true, Some, IsSome, length, position, slice_index_or};
ghost use Rattle.std.specs.FinMap.{insert, remove as without};
ghost use Rattle.h5_model.specs.Format.AttributeBody.{attribute_of};
ghost use Rattle.h5_model.specs.Format.Limits.{most_cells};
ghost use Rattle.h5_model.specs.Format.Messages.{prefix_at, reference_count};
ghost use Rattle.h5_model.specs.Format.MessageTypes.{attribute_kind};
ghost use Rattle.h5_model.specs.Format.Reads.{HasAttributes};
ghost use Rattle.h5_model.specs.Tree.Objects.{Attribute, Attributes};
ghost use Rattle.h5_model.specs.Tree.Places.{extent_cells};
ghost use Rattle.h5_space.specs.Moves.{Moves, Spends};
ghost use Rattle.h5_space.specs.Whole.{IsApart};
ghost use Rattle.h5_header.specs.Added.{HasMovable};
ghost use Rattle.h5_header.specs.Listed.{messages_in};
ghost use Rattle.h5_header.specs.Standing.{IsStanding, kept_at, none as nothing};
ghost use Rattle.h5_attr.specs.Attributes.{is_attribute_named};
ghost use Rattle.h5_attr.specs.Still.{IsSaidStill};

use crate::find::find_named;
use h5_header::{HeaderRef, Messages};
use h5_model::message_type::ATTRIBUTE;
use h5_msg::read_attribute;
use h5_space::Image;

/// Sets the attribute whose message has this body. The message of an attribute with the same name, of whichever
/// version, becomes NIL. The new message stands in the space of a NIL message that is long enough, or else in a new
/// block. Takes no memory.
///
/// The caller's conditions: the body is an attribute's, has a multiple of 8 bytes, and fewer than 2^16; the header
/// stands in the image, shares no byte with a free block, and has a message that may move into a new block; there is
/// room for two messages more in the total, for one message more in what is kept, and in the image for a block with 32
/// bytes more than the body.
pub fn set(image: &mut Image, messages: &mut Messages, body: &[u8])
    requires attribute { IsSome (attribute_of body.now) }
    requires movable { HasMovable (messages_in image.old.bytes messages.old.list) }
    requires padded { length body.now % 8 ≡ 0 }
    requires low { length body.now < 2 ^ 16 }
    requires total { length messages.old.list < 65534 }
    requires room { 1 ≤ messages.old.room }
    requires bytes { 32 + length body.now ≤ image.old.room_bytes }
    requires calls { 1 ≤ image.old.room_blocks }
    requires apart { IsApart messages.old.blocks image.old.free (length image.old.bytes) }
    requires standing { IsStanding image.old.bytes messages.old }
    ensures standing { IsStanding image.new.bytes messages.new }
    ensures set { (name : List ℕ) → (attribute : Attribute)
        → attribute_of body.now ≡ Some (name, attribute)
        → extent_cells attribute.sizes ≤ most_cells
        → (attributes : Attributes)
        → HasAttributes (messages_in image.old.bytes messages.old.list) attributes
        → HasAttributes (messages_in image.new.bytes messages.new.list) (insert attributes name attribute) }
    ensures others { IsSaidStill (messages_in image.old.bytes messages.old.list)
        (messages_in image.new.bytes messages.new.list) }
    ensures header { messages.new.header ≡ messages.old.header }
    ensures count { reference_count (prefix_at image.new.bytes messages.new.header)
        ≡ reference_count (prefix_at image.old.bytes messages.old.header) }
    ensures room { messages.new.room + 1 ≡ messages.old.room }
    ensures moves { Moves image.old image.new messages.old.blocks messages.new.blocks }
    ensures spends { Spends image.old image.new (32 + length body.now) 1 }
{
    remove_same(image, messages, body);
    messages.put(image, ATTRIBUTE, body);
}

/// Removes the attribute in message `k`: the message becomes NIL. Takes no memory.
///
/// That message `k` is an attribute's, which `find_named` finds, and that the header stands in the image, are the
/// caller's conditions.
pub fn remove_at(image: &mut Image, messages: &mut Messages, k: usize)
    requires known { k < length messages.old.list }
    requires attribute { (kept_at messages.old.list k).kind ≡ attribute_kind }
    requires standing { IsStanding image.old.bytes messages.old }
    ensures standing { IsStanding image.new.bytes messages.new }
    ensures removed { (name : List ℕ)
        → is_attribute_named name
        (slice_index_or (messages_in image.old.bytes messages.old.list) k nothing) ≡ true
        → (attributes : Attributes)
        → HasAttributes (messages_in image.old.bytes messages.old.list) attributes
        → HasAttributes (messages_in image.new.bytes messages.new.list) (without attributes name) }
    ensures others { IsSaidStill (messages_in image.old.bytes messages.old.list)
        (messages_in image.new.bytes messages.new.list) }
    ensures movable { HasMovable (messages_in image.old.bytes messages.old.list)
        → HasMovable (messages_in image.new.bytes messages.new.list) }
    ensures total { length messages.new.list ≡ length messages.old.list }
    ensures header { messages.new.header ≡ messages.old.header }
    ensures count { reference_count (prefix_at image.new.bytes messages.new.header)
        ≡ reference_count (prefix_at image.old.bytes messages.old.header) }
    ensures blocks { messages.new.blocks ≡ messages.old.blocks }
    ensures room { messages.new.room ≡ messages.old.room }
    ensures moves { Moves image.old image.new messages.old.blocks messages.new.blocks }
    ensures spends { Spends image.old image.new 0 0 }
{
    messages.blank(image, k);
}

/// Removes the attribute that has the name of the one in this body, where there is one.
fn remove_same(image: &mut Image, messages: &mut Messages, body: &[u8])
    requires attribute { IsSome (attribute_of body.now) }
    requires standing { IsStanding image.old.bytes messages.old }
    ensures standing { IsStanding image.new.bytes messages.new }
    ensures removed { (name : List ℕ) → (attribute : Attribute)
        → attribute_of body.now ≡ Some (name, attribute)
        → (attributes : Attributes)
        → HasAttributes (messages_in image.old.bytes messages.old.list) attributes
        → HasAttributes (messages_in image.new.bytes messages.new.list) (without attributes name) }
    ensures others { IsSaidStill (messages_in image.old.bytes messages.old.list)
        (messages_in image.new.bytes messages.new.list) }
    ensures movable { HasMovable (messages_in image.old.bytes messages.old.list)
        → HasMovable (messages_in image.new.bytes messages.new.list) }
    ensures total { length messages.new.list ≡ length messages.old.list }
    ensures header { messages.new.header ≡ messages.old.header }
    ensures count { reference_count (prefix_at image.new.bytes messages.new.header)
        ≡ reference_count (prefix_at image.old.bytes messages.old.header) }
    ensures blocks { messages.new.blocks ≡ messages.old.blocks }
    ensures room { messages.new.room ≡ messages.old.room }
    ensures moves { Moves image.old image.new messages.old.blocks messages.new.blocks }
    ensures spends { Spends image.old image.new 0 0 }
{
    let Some(k) = find_same(&HeaderRef::new(image, messages), body) else {
        return;
    };
    remove_at(image, messages, k);
}

/// The place of the message whose attribute has the name of the one in this body, or `None` where there is none.
fn find_same(header: &HeaderRef<'_>, body: &[u8]) -> Option<usize>
    requires { IsSome (attribute_of body.now) }
    ensures { (name : List ℕ) → (attribute : Attribute)
        → attribute_of body.now ≡ Some (name, attribute)
        → result ≡ position (is_attribute_named name) header.now.messages }
{
    let attribute = read_attribute(body).ok()?;
    find_named(header, attribute.name())
}
