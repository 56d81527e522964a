//! The claim of a header's prefix.

ghost use Rattle.std.specs.Prelude.{◌≡◌, ℕ, ◌+◌, ◌≤◌, length, OnOk, IfOk, IfErr};
ghost use Rattle.h5_bytes.specs.Bytes.{byte_at};
ghost use Rattle.h5_bytes.specs.Blocks.{holds, cover, Separate};
ghost use Rattle.h5_model.specs.Format.Messages.{prefix_at};
ghost use Rattle.h5_header.specs.Refused.{header_block};
ghost use Rattle.h5_header.specs.Progress.{PrefixBreach};

use h5_bytes::{Block, u32_at};
use h5_model::{Cause, OpenFault};
use h5_space::{Claims, claim, fault};

/// Bytes of a header before its first block of messages.
pub const PREFIX: u64 = 16;

/// Claims the prefix of a header with its first block of messages, and gives the two as one block.
pub(crate) fn claim_prefix(
    image: &[u8],
    claims: &mut Claims,
    header: u64,
) -> Result<Block, OpenFault>
    requires { claims.old.end ≡ length image.now }
    ensures block { IfOk result (λ b. b ≡ header_block image.now header) }
    ensures version { OnOk result (byte_at (prefix_at image.now header) 0 ≡ 1) }
    ensures inside { IfOk result (λ b. b.at + b.len ≤ length image.now) }
    ensures claimed { IfOk result (λ b.
        (p : ℕ) → cover p claims.new.held ≡ cover p claims.old.held + holds p b.at b.len) }
    ensures separate { OnOk result (Separate claims.new.held) }
    ensures end { claims.new.end ≡ claims.old.end }
    ensures refused { IfErr result (λ fault.
        PrefixBreach image.now header claims.old.held fault.cause fault.address) }
{
    let size = image.len() as u64;
    if header > size || PREFIX > size - header {
        return Err(fault(Cause::Truncated, header));
    }
    if image[header as usize] != 1 {
        return Err(fault(Cause::HeaderVersion, header));
    }
    let whole = Block {
        at: header,
        len: PREFIX + u32_at(image, header as usize + 8) as u64,
    };
    claim(claims, whole)?;
    Ok(whole)
}
