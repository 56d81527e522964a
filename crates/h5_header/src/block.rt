//! One block of messages (File Format Specification 3.0, section IV.A.1.a).

ghost use Rattle.std.specs.Prelude.{◌≡◌, ◌+◌, ◌≤◌, ◌⊎◌, length, OnOk, IfErr};
ghost use Rattle.h5_header.specs.Progress.{ReadTo, StopsIn};

use crate::blocks::Blocks;
use crate::message::{Message, read_message};
use h5_bytes::Block;
use h5_model::Cause;

/// Reads the messages that fill `block`, and adds them to `list` and the blocks that they name to
/// `blocks`.
pub(crate) fn read_block(
    image: &[u8],
    block: Block,
    list: &mut Vec<Message>,
    blocks: &mut Blocks,
) -> Result<(), Cause>
    requires { block.at + block.len ≤ length image.now }
    ensures read { OnOk result
        (ReadTo image.now block list.old.items list.new.items blocks.old.items blocks.new.items block.len) }
    ensures refused { IfErr result (λ cause. (cause ≡ Cause.NoMemory) ⊎ StopsIn image.now block cause) }
{
    let end = block.at + block.len;
    let mut at = block.at;
    while at < end {
        let message = read_message(image, at, end)?;
        if let Some(named) = message.named_block(image) {
            if blocks.push(named).is_err() {
                return Err(Cause::NoMemory);
            }
        }
        if list.push(message).is_err() {
            return Err(Cause::NoMemory);
        }
        at = message.at + message.size as u64;
    }
    Ok(())
}
