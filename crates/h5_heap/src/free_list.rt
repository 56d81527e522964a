//! The list of free blocks in a segment (File Format Specification 3.0, section III.D).

ghost use Rattle.std.specs.Prelude.{◌≡◌, ℕ, ◌+◌, ◌≤◌, ◌⊎◌, List, length, IfOk, IfErr, IfSome, IfNone, OnOk};
ghost use Rattle.h5_bytes.specs.Bytes.{number_at};
ghost use Rattle.h5_bytes.specs.Blocks.{block, holds, cover, Separate};
ghost use Rattle.h5_bytes.specs.declared.Block.{Block};
ghost use Rattle.h5_model.specs.Format.Heap.{IsFree};
ghost use Rattle.h5_heap.specs.FreeList.{IsFreeList, IsNext};

use h5_bytes::{Block, UNDEF, u64_at};
use h5_model::Cause;
use h5_space::{ClaimFault, Claims};
use std::alloc::Global;

/// The offset that ends the list.
pub(crate) const END: u64 = 1;

/// The least bytes of a free block: the next one's offset, and its own size.
pub(crate) const LEAST_FREE: u64 = 16;

/// Reads the list from the offset `head` on: the free blocks of a segment, in the order of the list.
///
/// `HeapForm` where there is no such list, else `NoMemory`.
pub(crate) fn read_free(alloc: Global, segment: &[u8], head: u64) -> Result<Vec<Block>, Cause>
    ensures list { IfOk result (λ blocks. IsFreeList segment.now head blocks.items) }
    ensures refused { IfErr result (λ cause. (cause ≡ Cause.NoMemory)
        ⊎ ((cause ≡ Cause.HeapForm) × ((free : List Block) → IsFreeList segment.now head free → ⊥))) }
{
    let mut blocks = Vec::new(alloc);
    let mut spans = Claims::new(alloc, segment.len() as u64);
    let mut next = if head == UNDEF { END } else { head };
    while next != END {
        let block = claim_free(segment, &mut spans, next)?;
        if blocks.push(block).is_err() {
            return Err(Cause::NoMemory);
        }
        next = u64_at(segment, next as usize);
    }
    Ok(blocks)
}

/// Claims the free block at `offset`.
fn claim_free(segment: &[u8], spans: &mut Claims, offset: u64) -> Result<Block, Cause>
    requires { spans.old.end ≡ length segment.now }
    ensures next { IfOk result (λ b. IsNext segment.now spans.old.held offset b) }
    ensures claimed { IfOk result (λ b. (p : ℕ)
        → cover p spans.new.held ≡ cover p spans.old.held + holds p b.at b.len) }
    ensures separate { OnOk result (Separate spans.new.held) }
    ensures end { spans.new.end ≡ spans.old.end }
    ensures refused { IfErr result (λ cause. (cause ≡ Cause.NoMemory)
        ⊎ ((cause ≡ Cause.HeapForm) × ((b : Block) → IsNext segment.now spans.old.held offset b → ⊥))) }
{
    let Some(block) = free_block(segment, offset) else {
        return Err(Cause::HeapForm);
    };
    match spans.claim(block.at, block.len) {
        Ok(()) => Ok(block),
        Err(ClaimFault::NoMemory) => Err(Cause::NoMemory),
        Err(_) => Err(Cause::HeapForm),
    }
}

/// The free block that stands at `offset`.
fn free_block(segment: &[u8], offset: u64) -> Option<Block>
    ensures some { IfSome result (λ b. IsFree b) }
    ensures place { IfSome result (λ b. b ≡ block offset (number_at segment.now (offset + 8) 8)) }
    ensures none { IfNone result (IsFree (block offset (number_at segment.now (offset + 8) 8))
        → offset + 16 ≤ length segment.now → ⊥) }
    ensures room { IfSome result (λ b. offset + 16 ≤ length segment.now) }
{
    let size = segment.len() as u64;
    if offset % 8 != 0 || size < LEAST_FREE || offset > size - LEAST_FREE {
        return None;
    }
    let len = u64_at(segment, offset as usize + 8);
    if len < LEAST_FREE {
        return None;
    }
    Some(Block { at: offset, len })
}
