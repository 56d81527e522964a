//! What a list of free blocks has around some bytes (File Format Specification 3.0, section III.D).

ghost use Rattle.std.specs.Prelude.{◌≡◌, ◌<◌, max};
ghost use Rattle.std.specs.Option.{option_map_or};
ghost use Rattle.h5_heap.specs.Around.{IsAround};
ghost use Rattle.h5_heap.specs.Chain.{HasChain, free_from};

use crate::free_list::END;
use h5_bytes::{Block, u64_at};

/// A free block beside some bytes, as the list has it.
#[derive(Clone, Copy)]
pub struct Neighbour {
    /// The offset of the free block that leads to it; `None` where the list begins with it.
    pub place: Option<u64>,
    pub block: Block,
}

/// What a list of free blocks has around some bytes.
#[derive(Clone, Copy)]
pub struct Around {
    /// The free block that ends where the bytes begin.
    pub left: Option<Neighbour>,
    /// The free block that begins where they end, in the list without the one on the left.
    pub right: Option<Neighbour>,
    /// The greatest offset below the bytes at which the list without the one on the left has a block.
    pub below: Option<u64>,
}

/// What the list from `first` on has around the bytes from `at` to `end`, by one walk along it.
pub(crate) fn look_around(segment: &[u8], first: u64, at: u64, end: u64) -> Around
    requires chain { HasChain segment.now first }
    requires filled { at < end }
    ensures { IsAround (free_from segment.now first) at end result }
{
    let mut around = Around {
        left: None,
        right: None,
        below: None,
    };
    let mut place = None;
    let mut next = first;
    while next != END {
        let block = Block {
            at: next,
            len: u64_at(segment, next as usize + 8),
        };
        next = u64_at(segment, next as usize);
        if block.at + block.len == at {
            around.left = Some(Neighbour { place, block });
            continue;
        }
        if block.at < at {
            around.below = Some(greater_of(around.below, block.at));
        } else if block.at == end {
            around.right = Some(Neighbour { place, block });
        }
        place = Some(block.at);
    }
    around
}

/// The greater of an offset and the greatest so far.
fn greater_of(greatest: Option<u64>, next: u64) -> u64
    ensures { result ≡ option_map_or (λ place. max place next) greatest next }
{
    match greatest {
        Some(place) => place.max(next),
        None => next,
    }
}
