//! The bodies of messages of which a header has one.

ghost use Rattle.std.specs.Prelude.{◌≡◌, Some};
ghost use Rattle.h5_model.specs.Format.Messages.{count_of, first_body};

use h5_header::HeaderRef;

/// The body of the message of a type of which there is one.
pub(crate) fn one_body<'a>(header: &HeaderRef<'a>, kind: u16) -> &'a [u8]
    requires { count_of kind header.now.messages ≡ 1 }
    ensures { first_body kind header.now.messages ≡ Some result.now }
{
    header.find_body(kind).unwrap()
}
