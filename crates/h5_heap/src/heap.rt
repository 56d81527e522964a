//! A local heap (File Format Specification 3.0, section III.D).

ghost use Rattle.std.specs.Prelude.{◌≡◌, ℕ, ◌≤◌, [], length, IfOk, IfErr, OnOk};
ghost use Rattle.h5_bytes.specs.Blocks.{cover, Inside};
ghost use Rattle.h5_model.specs.Format.Heap.{heap_header, heap_blocks, segment_block, segment_of, IsHeap};
ghost use Rattle.h5_space.specs.Claimed.{HasClaimed};
ghost use Rattle.h5_heap.specs.Refused.{IsHeapRefused, IsHeapReadable};

use crate::free_list::read_free;
use crate::header::claim_heap;
use crate::units::Units;
use h5_bytes::Block;
use h5_model::{Cause, OpenFault};
use h5_space::{Claims, Image, fault};
use std::alloc::Global;
use std::marker::Model;

/// A local heap: where its segment lies, its free blocks, and which texts of it are taken.
///
/// It keeps no byte of the image.
#[derive(Drop)]
pub struct Heap {
    pub(crate) at: u64,
    pub(crate) segment: Block,
    free: Vec<Block>,
    // Which bytes the free blocks have, and what was taken.
    pub(crate) units: Units,
}

impl Model for Heap {
    ghost use Rattle.std.specs.Prelude.{◌≤◌, ◌++◌};
    ghost use Rattle.h5_heap.specs.Kept.{HeapState};
    ghost use Rattle.h5_heap.specs.Units.{text_blocks, text_begins, AreUnits};

    ghost Value = { HeapState };

    ghost view = { λ s. record { at = s.at; segment = s.segment; free = s.free.items; held = s.free.items ++ text_blocks 0 s.units.states.items; taken = text_begins 0 s.units.states.items } };

    ghost invariant = { λ s. (8 ≤ s.segment.len) × AreUnits s.segment.len s.free.items s.units.states.items };
}

/// Reads the local heap at `at`, and claims its header and its segment.
///
/// Takes memory for the free blocks that are there, and for one byte for each 8 bytes of the segment. The claims end
/// where the image ends, which is the caller's condition.
///
/// # Errors
///
/// These are looked for in this order:
///
/// - `Truncated`, `Overlap`, at the header: it passes the end, or shares a byte with a claimed block.
/// - `HeapForm`, at the header: it is not of version 0, or the segment has fewer than 8 bytes.
/// - `Truncated`, `Overlap`, at the segment: it passes the end, or shares a byte with a claimed block or the header.
/// - `HeapForm`, at the header: a block of the free list begins at no multiple of 8, has fewer than 16 bytes, is not
///   in the segment, or shares a byte with another one.
/// - `NoMemory`, at any time: memory is refused.
///
/// After a refusal it is left open which of the two blocks are claimed.
pub fn read_heap(
    alloc: Global,
    image: &Image,
    claims: &mut Claims,
    at: u64,
) -> Result<Heap, OpenFault>
    requires { claims.old.end ≡ length image.now.bytes }
    ensures at { IfOk result (λ h. h.at ≡ at) }
    ensures segment { IfOk result (λ h. h.segment ≡ segment_block image.now.bytes at) }
    ensures read { IfOk result (λ h.
        IsHeap (heap_header image.now.bytes at) (segment_of image.now.bytes at) h.free) }
    ensures held { IfOk result (λ h. (p : ℕ) → cover p h.held ≡ cover p h.free) }
    ensures taken { IfOk result (λ h. h.taken ≡ []) }
    ensures inside { OnOk result (Inside (length image.now.bytes) (heap_blocks image.now.bytes at)) }
    ensures claimed { OnOk result (HasClaimed claims.old claims.new (heap_blocks image.now.bytes at)) }
    ensures end { claims.new.end ≡ claims.old.end }
    ensures refused { IfErr result (λ fault.
        IsHeapRefused image.now.bytes at claims.old.held fault.cause fault.address) }
    ensures only { IsHeapReadable image.now.bytes at claims.old.held
        → IfErr result (λ fault. fault.cause ≡ Cause.NoMemory) }
{
    let header = claim_heap(image, claims, at)?;
    let segment = header.segment;
    let bytes = image.part(segment.at, segment.len).unwrap();
    let free = match read_free(alloc, bytes, header.free_head) {
        Ok(free) => free,
        Err(cause) => return Err(fault(cause, at)),
    };
    match Units::new(alloc, bytes.len(), free.as_slice()) {
        Ok(units) => Ok(Heap {
            at,
            segment,
            free,
            units,
        }),
        Err(_) => Err(fault(Cause::NoMemory, at)),
    }
}
