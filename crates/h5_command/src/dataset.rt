//! What a script says of a dataset: its type, how it is stored, and its fill.
ghost use Rattle.std.specs.Prelude.{◌≡◌, IfOk};
ghost use Rattle.h5_model.specs.Scripts.Lines.{fill_from as fill_read, store_from as store_read, type_from as type_read};

use crate::number::value_from;
use crate::words::list_from;
use h5_model::{Fixed, Items, Store};
use std::alloc::{AllocError, Global};

/// The type of this text: `i8`, `u8`, or `i` or `u` with 16, 32 or 64 and `le` or `be`.
#[tactic(auto, using(crate::proofs::TypeTexts::type_from_is))]
pub(crate) fn type_from(word: &[u8]) -> Option<Fixed>
    ensures { result ≡ type_read word.now }
{
    if b"i8".as_slice() == word {
        return Fixed::new(1, true, false);
    }
    if b"u8".as_slice() == word {
        return Fixed::new(1, false, false);
    }
    if b"i16le".as_slice() == word {
        return Fixed::new(2, true, false);
    }
    if b"u16le".as_slice() == word {
        return Fixed::new(2, false, false);
    }
    if b"i16be".as_slice() == word {
        return Fixed::new(2, true, true);
    }
    if b"u16be".as_slice() == word {
        return Fixed::new(2, false, true);
    }
    if b"i32le".as_slice() == word {
        return Fixed::new(4, true, false);
    }
    if b"u32le".as_slice() == word {
        return Fixed::new(4, false, false);
    }
    if b"i32be".as_slice() == word {
        return Fixed::new(4, true, true);
    }
    if b"u32be".as_slice() == word {
        return Fixed::new(4, false, true);
    }
    if b"i64le".as_slice() == word {
        return Fixed::new(8, true, false);
    }
    if b"u64le".as_slice() == word {
        return Fixed::new(8, false, false);
    }
    if b"i64be".as_slice() == word {
        return Fixed::new(8, true, true);
    }
    if b"u64be".as_slice() == word {
        return Fixed::new(8, false, true);
    }
    None
}

/// How a dataset is to be stored: `compact`, `contiguous`, or `chunked:` and the chunk sizes.
pub(crate) fn store_from(
    alloc: Global,
    word: &[u8],
) -> Result<Option<Store<Items<u32>>>, AllocError>
    ensures { IfOk result (λ store. store ≡ store_read word.now) }
{
    if word == b"compact".as_slice() {
        return Ok(Some(Store::Compact));
    }
    if word == b"contiguous".as_slice() {
        return Ok(Some(Store::Contiguous));
    }
    let Some(sizes) = word.strip_prefix(b"chunked:") else {
        return Ok(None);
    };
    let Some(sizes) = list_from(alloc, sizes)? else {
        return Ok(None);
    };
    Ok(Some(Store::Chunked(Items::new(sizes))))
}

/// The value behind `fill=`.
pub(crate) fn fill_from(word: &[u8]) -> Option<i128>
    ensures { result ≡ fill_read word.now }
{
    value_from(word.strip_prefix(b"fill=")?)
}
