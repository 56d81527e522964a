//! Chunks that stand beside one another, as they were found (File Format Specification 3.0, section III.A.1).

ghost use Rattle.std.specs.Prelude.{◌≡◌, ◌⊎◌, ◌^◌, ◌≤◌, ℕ, List, MatchOption, Some};
ghost use Rattle.std.specs.FinMap.{get};
ghost use Rattle.h5_model.specs.Format.Chunks.{Chunks};
ghost use Rattle.h5_model.specs.Tree.Places.{index_of};
ghost use Rattle.h5_layout.specs.FoundChunks.{AreChunksBeside, IsFirstCell, IsNumberBeside, address_found, address_kept, only_chunk};
ghost use Rattle.h5_layout.specs.GridKept.{no_chunk_found};

use h5_chunks::ChunkCursor;

/// How many chunks beside one another are kept at most. Of a longer row of chunks it is the first ones.
const MOST: usize = 64;

/// The first cell of a chunk: its place in the array, and the last number of its index there, which tells the column.
#[derive(Clone, Copy, Debug)]
pub(crate) struct ChunkCorner {
    pub(crate) place: u64,
    pub(crate) column: u64,
}

/// Stored chunks that stand beside one another, along the last dimension, and were found.
#[derive(Debug, Drop)]
pub(crate) struct FoundChunks {
    /// Where the first of them begins.
    pub(crate) first: ChunkCorner,
    /// The address of each that was found, by how many chunks behind the first it stands, or 0: no chunk stands there. Four
    /// bytes each, so that the whole is soon moved; one further away is not kept.
    pub(crate) at: [u32; 64],
}

/// Where chunks of an array were found: the last one in its tree, and those beside one another.
#[derive(Debug, Drop)]
pub(crate) struct RowCursor {
    /// Where the last chunk stands in the tree.
    pub(crate) tree: ChunkCursor,
    /// Those of a row of chunks.
    pub(crate) beside: FoundChunks,
}

impl RowCursor {
    /// None was found yet.
    pub(crate) fn new() -> Self
        ensures { result ≡ no_chunk_found }
    {
        RowCursor {
            tree: ChunkCursor::new(),
            beside: FoundChunks {
                first: ChunkCorner {
                    place: 0,
                    column: 0,
                },
                at: [0; MOST],
            },
        }
    }
}

impl FoundChunks {
    /// The address of the chunk with this number, where it was found.
    #[inline(always)]
    pub(crate) fn address_of(&self, number: Option<u64>) -> Option<u64>
        ensures { result ≡ address_found self.now number }
    {
        let number = number?;
        if number >= MOST as u64 {
            return None;
        }
        address(self.at[number as usize])
    }

    /// Keeps the address of the chunk that begins there and has this number, which is none of them. Returns its number
    /// then.
    pub(crate) fn put(&mut self, corner: ChunkCorner, number: Option<u64>, at: u64) -> Option<u64>
        ensures number { (sizes chunk : List ℕ)
            → IsNumberBeside chunk (index_of sizes self.old.first.place)
            (index_of sizes corner.place) number
            → IsNumberBeside chunk (index_of sizes self.new.first.place)
            (index_of sizes corner.place) result }
        ensures beside { (chunks : Chunks) (sizes chunk : List ℕ) → IsFirstCell sizes chunk corner
            → AreChunksBeside chunks sizes chunk self.old
            → IsNumberBeside chunk (index_of sizes self.old.first.place)
            (index_of sizes corner.place) number
            → get chunks (index_of sizes corner.place) ≡ Some at
            → AreChunksBeside chunks sizes chunk self.new }
    {
        let Some(kept) = kept_address(at) else {
            return number;
        };
        let Some(behind) = number else {
            self.begin(corner, kept);
            return Some(0);
        };
        if self.at[0] != 0 && behind < MOST as u64 {
            self.at[behind as usize] = kept;
            return number;
        }
        // Of a longer row of chunks the first ones are kept.
        if self.at[MOST - 1] != 0 {
            return number;
        }
        // None was found yet, or the row of chunks goes on far behind those that were.
        self.begin(corner, kept);
        Some(0)
    }

    /// Keeps this address alone, of the chunk that begins there.
    fn begin(&mut self, corner: ChunkCorner, kept: u32)
        ensures { self.new ≡ only_chunk corner kept }
    {
        self.first = corner;
        self.at = [0; MOST];
        self.at[0] = kept;
    }
}

/// An address as it is kept, if it can be.
#[inline(always)]
fn kept_address(at: u64) -> Option<u32>
    ensures { MatchOption result (at ≡ 0 ⊎ 2 ^ 32 ≤ at) (λ kept. address_kept kept ≡ Some at) }
{
    match u32::try_from(at) {
        Ok(kept) if kept != 0 => Some(kept),
        _ => None,
    }
}

/// The address that is kept, if one is.
#[inline(always)]
fn address(kept: u32) -> Option<u64>
    ensures { result ≡ address_kept kept }
{
    if kept == 0 {
        return None;
    }
    Some(u64::from(kept))
}
