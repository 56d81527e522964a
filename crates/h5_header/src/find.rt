//! Messages of a header, by their types.

ghost use Rattle.std.specs.Prelude.{◌≡◌, ◌==◌, find};
ghost use Rattle.std.specs.Option.{option_copied};

use crate::header::Messages;
use crate::message::Message;

/// The first message of a type, or `None` where there is none. Takes no memory.
pub fn find_message(messages: &Messages, kind: u16) -> Option<&Message>
    ensures { option_copied result ≡ find (λ m. m.kind == kind) messages.now.list }
{
    messages.list().iter().find(|m| m.kind == kind)
}
