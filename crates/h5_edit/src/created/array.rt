//! New arrays, as they are written (File Format Specification 3.0, section IV.A.2.i).

ghost use Rattle.std.specs.Prelude.{◌≡◌, ℕ};
ghost use Rattle.h5_layout.specs.Layouts.{layout_in};
ghost use Rattle.h5_model.specs.Edits.Applied.{new_dataset};
ghost use Rattle.h5_repack.specs.Bodies.Sound.{IsPlainArray};
ghost use Rattle.h5_repack.specs.Objects.Objects.{IsNewArray};
ghost use Rattle.h5_repack.specs.declared.blocks.cells.Cells.TheVariants.{Filled};
ghost use Rattle.h5_edit.specs.Changed.Cells.{HasChunkSizes, IsNewLayout, new_count};

use crate::rules::MAX_COMPACT;
use h5_layout::ChunkSizes;
use h5_model::{Items, Spec, Store};
use h5_query::{ArrayRef, Dims, Layout};

/// As many bytes as the cells of a compact array may have. The layout of one names bytes of its cells, and a new array has none that it
/// could name: each cell is the fill, and the writer makes their bytes itself.
static ROOM: [u8; MAX_COMPACT as usize] = [0; MAX_COMPACT as usize];

/// A new array, whose cells are to be written as the fill.
pub(crate) fn array_from<'a>(spec: &'a Spec) -> ArrayRef<'a>
    requires { (others : ℕ) × IsPlainArray (new_dataset spec.now) others }
    ensures { IsNewArray result Filled (new_dataset spec.now) }
{
    let dims = Dims::new(spec.dims.as_slice()).unwrap();
    let maxima = spec.maxima.as_slice();
    let layout = layout_from(&spec.store);
    ArrayRef::new(spec.fixed, dims, maxima, spec.fill, layout)
}

/// A layout of cells that are to be stored so, none of which stands anywhere yet.
fn layout_from(store: &Store<Items<u32>>) -> Layout<'_>
    requires { HasChunkSizes store.now }
    ensures { IsNewLayout store.now (layout_in result) }
{
    match store {
        Store::Compact => Layout::Compact(&ROOM),
        Store::Contiguous => Layout::Contiguous(None),
        Store::Chunked(chunk) => Layout::Chunked {
            sizes: ChunkSizes::new(chunk.as_slice()),
            tree: None,
        },
    }
}

/// How many cells of a new array stand in a block of their own: those of a contiguous one.
pub(crate) fn block_cells(array: &ArrayRef<'_>) -> u64
    ensures { result ≡ new_count array.now }
{
    match array.layout() {
        Layout::Contiguous(_) => array.cells(),
        Layout::Compact(_) | Layout::Chunked { .. } => 0,
    }
}
