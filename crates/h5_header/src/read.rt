//! The reading of an object header (File Format Specification 3.0, section IV.A.1.a).

ghost use Rattle.std.specs.Prelude.{◌≡◌, IsTrue, length, IfOk, IfErr};
ghost use Rattle.std.specs.List.{AllByRecursion};
ghost use Rattle.h5_bytes.specs.Blocks.{Inside};
ghost use Rattle.h5_model.specs.Format.Messages.{HasMessages};
ghost use Rattle.h5_space.specs.Claimed.{HasClaimed};
ghost use Rattle.h5_header.specs.Heads.{is_read};
ghost use Rattle.h5_header.specs.Listed.{messages_in, IsWithin};
ghost use Rattle.h5_header.specs.Refused.{IsHeaderRefused, IsHeaderReadable};

use crate::header::{Messages, read_header};
use h5_bytes::u16_at;
use h5_model::{Cause, OpenFault};
use h5_space::{Claims, Image, fault};
use std::alloc::Global;

/// Reads the messages of the object header at `at`, and claims its blocks.
///
/// The prefix has to lie in the image and be of version 1; then it is claimed with its first block of messages. A
/// block that a Continuation names is claimed when its turn comes, after all messages of the blocks before it. For
/// each message its size is checked, then its shared flag, then its type. When all blocks are read, the messages are
/// counted.
///
/// It takes memory for the messages that are there, whatever the header says of their number, and time for the bytes
/// that are claimed. The claims end where the image ends, which is the caller's condition.
///
/// # Errors
///
/// - `Truncated`, `Overlap`, at the block that was to be claimed: it passes the end, or shares a byte with a claimed
///   block.
/// - `HeaderVersion`, at the header: it is not of version 1.
/// - `MessageSize`, at the header: the size of a message is no multiple of 8, does not fill its block, or is too
///   short for a Continuation.
/// - `SharedMessage`, at the header: a message is shared.
/// - `UnknownMessage`, `Filtered`, `ExternalFiles`, `NewStyleGroup`, at the header: a message is of a type that is
///   not read.
/// - `MessageCount`, at the header: there are not as many messages as the header says.
/// - `NoMemory`: memory is refused.
///
/// After a refusal it is left open which of the header's blocks are claimed.
pub fn messages(
    alloc: Global,
    image: &Image,
    claims: &mut Claims,
    at: u64,
) -> Result<Messages, OpenFault>
    requires { claims.old.end ≡ length image.now.bytes }
    ensures header { IfOk result (λ m. m.header ≡ at) }
    ensures read { IfOk result (λ m.
        HasMessages image.now.bytes at (messages_in image.now.bytes m.list) m.blocks) }
    ensures known { IfOk result (λ m. AllByRecursion (λ x. IsTrue (is_read x.kind)) m.list) }
    ensures within { IfOk result (λ m. IsWithin (length image.now.bytes) m.list) }
    ensures inside { IfOk result (λ m. Inside (length image.now.bytes) m.blocks) }
    ensures claimed { IfOk result (λ m. HasClaimed claims.old claims.new m.blocks) }
    ensures end { claims.new.end ≡ claims.old.end }
    ensures refused { IfErr result (λ fault.
        IsHeaderRefused image.now.bytes at claims.old.held fault.cause fault.address) }
    ensures only { IsHeaderReadable image.now.bytes at claims.old.held
        → IfErr result (λ fault. fault.cause ≡ Cause.NoMemory) }
{
    let bytes = image.bytes();
    let messages = read_header(alloc, bytes, claims, at)?;
    if messages.list().len() != u16_at(bytes, at as usize + 2) as usize {
        return Err(fault(Cause::MessageCount, at));
    }
    Ok(messages)
}
