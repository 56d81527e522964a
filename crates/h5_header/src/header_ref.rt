//! An object header with the image in which it stands (File Format Specification 3.0, section IV.A.1.a).

ghost use Rattle.std.specs.Prelude.{◌≡◌, length};
ghost use Rattle.std.specs.Option.{option_copied};
ghost use Rattle.h5_model.specs.Format.Messages.{first_body};
ghost use Rattle.h5_header.specs.Listed.{header_told, messages_in, IsWithin};

use crate::find::find_message;
use crate::header::Messages;
use crate::message::Message;
use h5_space::Image;
use std::marker::Model;

/// The messages of a header with the image in which they stand, both lent. It is for reading: an edit takes the image and
/// the messages each by itself.
#[derive(Drop)]
pub struct HeaderRef<'a> {
    image: &'a Image,
    messages: &'a Messages,
}

impl<'a> Model for HeaderRef<'a> {
    ghost use Rattle.std.specs.Prelude.{length};
    ghost use Rattle.h5_header.specs.Listed.{HeaderIn, header_told, IsWithin};

    ghost Value = { HeaderIn };

    ghost view = { λ h. header_told h.image.now.bytes h.messages.now };

    ghost invariant = { λ h. IsWithin (length h.image.now.bytes) h.messages.now.list };
}

impl<'a> HeaderRef<'a> {
    /// The header with these messages in this image. Takes no memory.
    ///
    /// That the messages lie in the image is the caller's condition; they do in the image from which they were read.
    pub fn new(image: &'a Image, messages: &'a Messages) -> Self
        requires { IsWithin (length image.now.bytes) messages.now.list }
        ensures { result ≡ header_told image.now.bytes messages.now }
    {
        HeaderRef { image, messages }
    }

    /// The address of the header.
    pub fn address(&self) -> u64
        ensures { result ≡ self.now.address }
    {
        Messages::header(self.messages)
    }

    /// The image.
    pub fn image(&self) -> &'a Image
        ensures { result.now.bytes ≡ self.now.image }
    {
        self.image
    }

    /// The messages.
    pub fn messages(&self) -> &'a Messages
        ensures list { result.now.list ≡ self.now.list }
        ensures header { result.now.header ≡ self.now.address }
        ensures within { IsWithin (length self.now.image) self.now.list }
        ensures messages { self.now.messages ≡ messages_in self.now.image self.now.list }
    {
        self.messages
    }

    /// All bytes of the image.
    pub fn bytes(&self) -> &'a [u8]
        ensures { result.now ≡ self.now.image }
    {
        Image::bytes(self.image)
    }

    /// The messages in order, NIL and Continuation messages among them.
    pub fn list(&self) -> &'a [Message]
        ensures list { result.now ≡ self.now.list }
        ensures within { IsWithin (length self.now.image) self.now.list }
        ensures messages { self.now.messages ≡ messages_in self.now.image self.now.list }
    {
        Messages::list(self.messages)
    }

    /// The body of the first message of a type, or `None` where there is none. Takes no memory.
    pub fn find_body(&self, kind: u16) -> Option<&'a [u8]>
        ensures { option_copied result ≡ first_body kind self.now.messages }
    {
        let message = find_message(self.messages, kind)?;
        Image::part(self.image, message.at, u64::from(message.size))
    }
}
