//! What lines tell of an array.

ghost use Rattle.std.specs.Prelude.{◌≡◌};
ghost use Rattle.h5_model.specs.Scripts.Text.{row_length as length_of_row, storage_text};
ghost use Rattle.h5_model.specs.Tree.Objects.{Storage};
ghost use Rattle.h5_text.specs.Stores.{store_text};
ghost use Rattle.h5_file.specs.Look.{IsStored};

use h5_file::{ArrayRef, Dims, MAX_RANK};
use h5_model::Store;
use h5_text::ArrayText;

/// What lines tell of an array whose cells are stored so, with its maxima in this room.
pub(crate) fn array_text<'a, 'l>(
    array: &'a ArrayRef<'_>,
    store: Store<&'l [u64]>,
    room: &'a mut [Option<u64>; MAX_RANK],
) -> ArrayText<'a, 'l>
    ensures fixed { result.fixed ≡ array.now.fixed }
    ensures sizes { result.sizes.now ≡ array.now.sizes }
    ensures maxima { result.maxima.now ≡ array.now.maxima }
    ensures store { result.store ≡ store.entry }
    ensures fill { result.fill ≡ array.now.fill }
{
    ArrayText {
        fixed: array.fixed(),
        sizes: array.dims().sizes(),
        maxima: array.maxima(room),
        store,
        fill: array.fill(),
    }
}

/// How cells are stored, as a line tells it.
pub(crate) fn shown_store(store: &Store<Dims>) -> Store<&[u64]>
    ensures { (storage : Storage) → IsStored storage store.now → store_text result ≡ storage_text storage }
{
    match store {
        Store::Compact => Store::Compact,
        Store::Contiguous => Store::Contiguous,
        Store::Chunked(chunk) => Store::Chunked(chunk.sizes()),
    }
}

/// How many cells stand in a row: the last size, or 1 where there is none.
pub(crate) fn row_length(sizes: &[u64]) -> u64
    ensures { result ≡ length_of_row sizes.now }
{
    match sizes {
        [] => 1,
        [size] => *size,
        [_, sizes @ ..] => row_length(sizes),
    }
}
