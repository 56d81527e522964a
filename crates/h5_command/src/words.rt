//! Words of a line, and lists in them.
ghost use Rattle.std.specs.Prelude.{◌≡◌, ◌<◌, ◌∷◌, ℕ, List, Option, length, option_map, IfOk, IfSome};
ghost use Rattle.h5_model.specs.Scripts.Lines.{maximum_read, size_from as size_read, u32_from as u32_read, u64_from as u64_read, list_from as list_read, value_from as value_read};
ghost use Rattle.h5_command.specs.Words.{parts, parts_left};

use crate::number::{u32_from, u64_from, value_from};
use std::alloc::{AllocError, Global};

/// What stands before the first such byte, and what stands behind it if there is one.
pub(crate) fn cut(bytes: &[u8], at: u8) -> (&[u8], Option<&[u8]>)
    ensures parts { parts at bytes.now ≡ result.0.now ∷ parts_left at result.1 }
    ensures shorter { IfSome result.1 (λ rest. length rest.now < length bytes.now) }
{
    for (k, byte) in bytes.iter().enumerate() {
        if *byte == at {
            return (&bytes[..k], Some(&bytes[k + 1..]));
        }
    }
    (bytes, None)
}

/// A kind of items of a list.
pub trait Item: Drop {
    ghost read: { List ℕ → Option Self };

    /// The item that a word stands for.
    fn from_word(word: &[u8]) -> Option<Self>
        ensures { result ≡ read word.now };
}

impl Item for u64 {
    ghost read = { u64_read };

    fn from_word(word: &[u8]) -> Option<u64> {
        u64_from(word)
    }
}

impl Item for u32 {
    ghost read = { u32_read };

    fn from_word(word: &[u8]) -> Option<u32> {
        u32_from(word)
    }
}

impl Item for i128 {
    ghost read = { value_read };

    fn from_word(word: &[u8]) -> Option<i128> {
        value_from(word)
    }
}

/// A size of a dataset, and its maximum, of which `None` is unlimited.
impl Item for (u64, Option<u64>) {
    ghost read = { size_read };

    fn from_word(word: &[u8]) -> Option<(u64, Option<u64>)> {
        size_from(word)
    }
}

/// A maximum: `inf`, which is `None`, or a number.
fn maximum_from(word: &[u8]) -> Option<Option<u64>>
    ensures { result ≡ maximum_read word.now }
{
    if word == b"inf".as_slice() {
        return Some(None);
    }
    Some(Some(u64_from(word)?))
}

/// A size, which is its own maximum, or a size, `/` and its maximum.
pub(crate) fn size_from(word: &[u8]) -> Option<(u64, Option<u64>)>
    ensures { result ≡ size_read word.now }
{
    let (size, rest) = cut(word, b'/');
    let Some(rest) = rest else {
        let size = u64_from(size)?;
        return Some((size, Some(size)));
    };
    let (most, rest) = cut(rest, b'/');
    if rest.is_some() {
        return None;
    }
    Some((u64_from(size)?, maximum_from(most)?))
}

/// The list that a word stands for: `-`, or items joined by commas. `None` where it stands for no
/// list.
pub(crate) fn list_from<T: Item>(alloc: Global, word: &[u8]) -> Result<Option<Vec<T>>, AllocError>
    ensures { IfOk result (λ list. option_map (λ v. v.items) list ≡ list_read T.read word.now) }
{
    if word == b"-".as_slice() {
        return Ok(Some(Vec::new(alloc)));
    }
    let mut items = Vec::new(alloc);
    let mut left = Some(word);
    'items: while let Some(word) = left {
        let (item, rest) = cut(word, b',');
        let Some(item) = T::from_word(item) else {
            return Ok(None);
        };
        items.push(item)?;
        left = rest;
    }
    Ok(Some(items))
}
