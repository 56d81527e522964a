//! Faults of opening, and claims that are refused with one.

ghost use Rattle.std.specs.Prelude.{◌≡◌, ℕ, ◌+◌, ◌≤◌, OnOk, IfErr};
ghost use Rattle.h5_bytes.specs.Blocks.{holds, cover, Separate};
ghost use Rattle.h5_space.specs.Claimed.{ClaimBreach};

use crate::claims::{ClaimFault, Claims};
use h5_bytes::Block;
use h5_model::{Cause, OpenFault};

/// Claims a block, as a step of opening a file.
///
/// # Errors
///
/// The fault has the address of the block, and one of these causes:
///
/// - `Truncated`: the block passes the end.
/// - `Overlap`: one of its bytes is claimed already.
/// - `NoMemory`: memory is refused.
pub fn claim(claims: &mut Claims, block: Block) -> Result<(), OpenFault>
    ensures inside { OnOk result (block.at + block.len ≤ claims.old.end) }
    ensures claimed { OnOk result
        ((p : ℕ) → cover p claims.new.held ≡ cover p claims.old.held + holds p block.at block.len) }
    ensures separate { Separate claims.new.held }
    ensures end { claims.new.end ≡ claims.old.end }
    ensures address { IfErr result (λ fault. fault.address ≡ block.at) }
    ensures refused { IfErr result (λ fault.
        ClaimBreach claims.old.end claims.old.held block fault.cause fault.address) }
{
    let cause = match claims.claim(block.at, block.len) {
        Ok(()) => return Ok(()),
        Err(ClaimFault::Truncated) => Cause::Truncated,
        Err(ClaimFault::Overlap) => Cause::Overlap,
        Err(ClaimFault::NoMemory) => Cause::NoMemory,
    };
    Err(fault(cause, block.at))
}

/// The fault of this cause, at this address.
pub fn fault(cause: Cause, address: u64) -> OpenFault
    ensures { result ≡ record { cause = cause; address = address } }
{
    OpenFault { cause, address }
}
