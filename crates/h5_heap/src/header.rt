//! The header of a heap (File Format Specification 3.0, section III.D).

ghost use Rattle.std.specs.Prelude.{◌≡◌, length, IfOk, IfErr, IfSome, IfNone, OnOk};
ghost use Rattle.h5_bytes.specs.Blocks.{block, Inside};
ghost use Rattle.h5_model.specs.Format.Heap.{heap_header, free_head, segment_place, segment_size, segment_block, segment_of, heap_blocks};
ghost use Rattle.h5_space.specs.Claimed.{HasClaimed};
ghost use Rattle.h5_heap.specs.Refused.{IsHeader, IsHeapRefused};

use h5_bytes::{Block, begins_with, u64_at};
use h5_model::{Cause, OpenFault};
use h5_space::{Claims, Image, claim, fault};

/// The first four bytes of a header.
static SIGNATURE: [u8; 4] = *b"HEAP";

/// Bytes of a header.
pub(crate) const HEADER: u64 = 32;

/// The least bytes of a segment: those of the empty name.
const LEAST_SEGMENT: u64 = 8;

/// What a header says.
#[derive(Clone, Copy)]
pub struct Header {
    pub segment: Block,
    /// The offset of the first free block, or a number that says that there is none.
    pub free_head: u64,
}

/// Claims the header and the segment of the heap at `at`.
pub(crate) fn claim_heap(image: &Image, claims: &mut Claims, at: u64) -> Result<Header, OpenFault>
    requires { claims.old.end ≡ length image.now.bytes }
    ensures header { OnOk result (IsHeader (heap_header image.now.bytes at)) }
    ensures segment { IfOk result (λ h. h.segment ≡ segment_block image.now.bytes at) }
    ensures free { IfOk result (λ h. h.free_head ≡ free_head (heap_header image.now.bytes at)) }
    ensures inside { OnOk result (Inside (length image.now.bytes) (heap_blocks image.now.bytes at)) }
    ensures claimed { OnOk result (HasClaimed claims.old claims.new (heap_blocks image.now.bytes at)) }
    ensures end { claims.new.end ≡ claims.old.end }
    ensures refused { IfErr result (λ fault.
        IsHeapRefused image.now.bytes at claims.old.held fault.cause fault.address) }
{
    let Some(bytes) = image.part(at, HEADER) else {
        return Err(fault(Cause::Truncated, at));
    };
    claim(claims, Block { at, len: HEADER })?;
    let Some(header) = read_header(bytes) else {
        return Err(fault(Cause::HeapForm, at));
    };
    claim(claims, header.segment)?;
    Ok(header)
}

/// What a header's bytes say, or `None` where they are no header of version 0 with a segment that has
/// room for the empty name.
fn read_header(header: &[u8]) -> Option<Header>
    requires { length header.now ≡ 32 }
    ensures read { IfSome result (λ h. IsHeader header.now) }
    ensures segment { IfSome result (λ h.
        h.segment ≡ block (segment_place header.now) (segment_size header.now)) }
    ensures free { IfSome result (λ h. h.free_head ≡ free_head header.now) }
    ensures none { IfNone result (IsHeader header.now → ⊥) }
{
    let segment = Block {
        at: u64_at(header, 24),
        len: u64_at(header, 8),
    };
    if !begins_with(header, &SIGNATURE) || header[4] != 0 || segment.len < LEAST_SEGMENT {
        return None;
    }
    Some(Header {
        segment,
        free_head: u64_at(header, 16),
    })
}

/// The bytes of the segment of the heap at `heap`. Takes no memory.
///
/// That the heap's header and its segment lie in the image is the caller's condition: they do in the image from
/// which the heap was read.
pub fn segment_at(image: &Image, heap: u64) -> &[u8]
    requires { Inside (length image.now.bytes) (heap_blocks image.now.bytes heap) }
    ensures { result.now ≡ segment_of image.now.bytes heap }
{
    let header = image.part(heap, HEADER).unwrap();
    image.part(u64_at(header, 24), u64_at(header, 8)).unwrap()
}
