//! The forms of a script's lines, by how many words stand behind the first.
ghost use Rattle.std.specs.Prelude.{◌≡◌, IfOk, [], ◌∷◌, codes, map, option_map};
ghost use Rattle.h5_model.specs.Scripts.Lines.{dataset_from as dataset_read, fill_from as fill_read, hyper_from as hyper_read, words_ask};
ghost use Rattle.h5_command.specs.Commands.{Asks, command_of};

use crate::command::Command;
use crate::dataset::{fill_from, store_from, type_from};
use crate::escapes::unescaped;
use crate::number::u32_from;
use crate::words::list_from;
use h5_model::{AttrSpec, Edit, Hyper, Items, Spec};
use std::alloc::{AllocError, Global};

/// `ls` and `repack`.
pub(crate) fn of_no_argument(word: &[u8]) -> Option<Command>
    ensures { option_map command_of result ≡ words_ask (word.now ∷ []) }
{
    if word == b"ls".as_slice() {
        Some(Command::ListAll)
    } else if word == b"repack".as_slice() {
        Some(Command::Repack)
    } else {
        None
    }
}

/// `group`, `unlink`, `dump`, `show` and `close`.
pub(crate) fn of_one(
    alloc: Global,
    word: &[u8],
    first: &[u8],
) -> Result<Option<Command>, AllocError>
    ensures { Asks result (words_ask (word.now ∷ first.now ∷ [])) }
{
    if word == b"group".as_slice() {
        return Ok(unescaped(alloc, first)?.map(|path| Command::Change(Edit::CreateGroup { path })));
    }
    if word == b"unlink".as_slice() {
        return Ok(unescaped(alloc, first)?.map(|path| Command::Change(Edit::Unlink { path })));
    }
    if word == b"dump".as_slice() {
        return Ok(unescaped(alloc, first)?.map(|path| Command::Dump { path }));
    }
    if word == b"show".as_slice() {
        return Ok(u32_from(first).map(|number| Command::Show(number)));
    }
    if word == b"close".as_slice() {
        return Ok(u32_from(first).map(|number| Command::Close(number)));
    }
    Ok(None)
}

/// `link`, `soft`, `unattr` and `resize`.
pub(crate) fn of_two(
    alloc: Global,
    word: &[u8],
    first: &[u8],
    second: &[u8],
) -> Result<Option<Command>, AllocError>
    ensures { Asks result (words_ask (word.now ∷ first.now ∷ second.now ∷ [])) }
{
    let Some(text) = unescaped(alloc, first)? else {
        return Ok(None);
    };
    if word == b"resize".as_slice() {
        let Some(dims) = list_from(alloc, second)? else {
            return Ok(None);
        };
        return Ok(Some(Command::Change(Edit::Resize {
            path: text,
            dims: Items::new(dims),
        })));
    }
    let Some(name) = unescaped(alloc, second)? else {
        return Ok(None);
    };
    let edit = if word == b"link".as_slice() {
        Edit::HardLink {
            target: text,
            path: name,
        }
    } else if word == b"soft".as_slice() {
        Edit::SoftLink { text, path: name }
    } else if word == b"unattr".as_slice() {
        Edit::RemoveAttr { path: text, name }
    } else {
        return Ok(None);
    };
    Ok(Some(Command::Change(edit)))
}

/// `dataset` without a fill, which is then 0.
pub(crate) fn of_four(
    alloc: Global,
    word: &[u8],
    first: &[u8],
    second: &[u8],
    third: &[u8],
    fourth: &[u8],
) -> Result<Option<Command>, AllocError>
    ensures { Asks result (words_ask (
        word.now ∷ first.now ∷ second.now ∷ third.now ∷ fourth.now ∷ [])) }
{
    if word == b"dataset".as_slice() {
        return dataset_from(alloc, first, second, third, fourth, Some(0));
    }
    Ok(None)
}

/// `dataset` with a fill, `attr` and `view`.
pub(crate) fn of_five(
    alloc: Global,
    word: &[u8],
    first: &[u8],
    second: &[u8],
    third: &[u8],
    fourth: &[u8],
    fifth: &[u8],
) -> Result<Option<Command>, AllocError>
    ensures { Asks result (words_ask (
        word.now ∷ first.now ∷ second.now ∷ third.now ∷ fourth.now ∷ fifth.now ∷ [])) }
{
    if word == b"dataset".as_slice() {
        return filled_dataset_from(alloc, first, second, third, fourth, fifth);
    }
    if word == b"attr".as_slice() {
        return attribute_from(alloc, first, second, third, fourth, fifth);
    }
    if word == b"view".as_slice() {
        return view_from(alloc, first, second, third, fourth, fifth);
    }
    Ok(None)
}

/// `write`.
pub(crate) fn of_six(
    alloc: Global,
    word: &[u8],
    first: &[u8],
    second: &[u8],
    third: &[u8],
    fourth: &[u8],
    fifth: &[u8],
    values: &[u8],
) -> Result<Option<Command>, AllocError>
    ensures { Asks result (words_ask (
        word.now ∷ first.now ∷ second.now ∷ third.now ∷ fourth.now ∷ fifth.now ∷ values.now ∷ [])) }
{
    if word != b"write".as_slice() {
        return Ok(None);
    }
    let Some(path) = unescaped(alloc, first)? else {
        return Ok(None);
    };
    let Some(hyper) = hyper_from(alloc, second, third, fourth, fifth)? else {
        return Ok(None);
    };
    let Some(values) = list_from(alloc, values)? else {
        return Ok(None);
    };
    Ok(Some(Command::Change(Edit::Write {
        path,
        hyper,
        values: Items::new(values),
    })))
}

/// A hyperslab of its four lists.
fn hyper_from(
    alloc: Global,
    start: &[u8],
    stride: &[u8],
    count: &[u8],
    block: &[u8],
) -> Result<Option<Hyper>, AllocError>
    ensures { IfOk result (λ hyper. hyper ≡ hyper_read start.now stride.now count.now block.now) }
{
    let Some(start) = list_from(alloc, start)? else {
        return Ok(None);
    };
    let Some(stride) = list_from(alloc, stride)? else {
        return Ok(None);
    };
    let Some(count) = list_from(alloc, count)? else {
        return Ok(None);
    };
    let Some(block) = list_from(alloc, block)? else {
        return Ok(None);
    };
    Ok(Some(Hyper {
        start: Items::new(start),
        stride: Items::new(stride),
        count: Items::new(count),
        block: Items::new(block),
    }))
}

/// A view to be opened, of its path and the four lists of its hyperslab.
fn view_from(
    alloc: Global,
    path: &[u8],
    start: &[u8],
    stride: &[u8],
    count: &[u8],
    block: &[u8],
) -> Result<Option<Command>, AllocError>
    ensures { Asks result (words_ask (
        codes "view" ∷ path.now ∷ start.now ∷ stride.now ∷ count.now ∷ block.now ∷ [])) }
{
    let Some(path) = unescaped(alloc, path)? else {
        return Ok(None);
    };
    let Some(hyper) = hyper_from(alloc, start, stride, count, block)? else {
        return Ok(None);
    };
    Ok(Some(Command::OpenView { path, hyper }))
}

/// A dataset to be created, of its path, type, sizes, store and the word of its fill.
fn filled_dataset_from(
    alloc: Global,
    path: &[u8],
    kind: &[u8],
    sizes: &[u8],
    store: &[u8],
    fill: &[u8],
) -> Result<Option<Command>, AllocError>
    ensures { Asks result (
        dataset_read path.now kind.now sizes.now store.now (fill_read fill.now)) }
{
    let fill = fill_from(fill);
    dataset_from(alloc, path, kind, sizes, store, fill)
}

/// A dataset to be created, of its path, type, sizes, store and fill.
fn dataset_from(
    alloc: Global,
    path: &[u8],
    kind: &[u8],
    sizes: &[u8],
    store: &[u8],
    fill: Option<i128>,
) -> Result<Option<Command>, AllocError>
    ensures { Asks result (dataset_read path.now kind.now sizes.now store.now fill) }
{
    let Some(path) = unescaped(alloc, path)? else {
        return Ok(None);
    };
    let Some(fixed) = type_from(kind) else {
        return Ok(None);
    };
    let Some(sizes) = list_from(alloc, sizes)? else {
        return Ok(None);
    };
    let Some(store) = store_from(alloc, store)? else {
        return Ok(None);
    };
    let Some(fill) = fill else {
        return Ok(None);
    };
    let (dims, maxima) = parted(alloc, &sizes)?;
    let spec = Spec {
        fixed,
        dims,
        maxima,
        store,
        fill,
    };
    Ok(Some(Command::Change(Edit::CreateDataset { path, spec })))
}

/// Sizes and their maxima, apart.
fn parted(
    alloc: Global,
    pairs: &[(u64, Option<u64>)],
) -> Result<(Items<u64>, Items<Option<u64>>), AllocError>
    ensures sizes { IfOk result (λ lists. lists.0 ≡ map (λ d. d.0) pairs.now) }
    ensures maxima { IfOk result (λ lists. lists.1 ≡ map (λ d. d.1) pairs.now) }
{
    let mut sizes = Vec::with_capacity(alloc, pairs.len())?;
    let mut maxima = Vec::with_capacity(alloc, pairs.len())?;
    for (size, maximum) in pairs {
        sizes.push(*size)?;
        maxima.push(*maximum)?;
    }
    Ok((Items::new(sizes), Items::new(maxima)))
}

/// An attribute to be set, of its path, name, type, sizes and values.
fn attribute_from(
    alloc: Global,
    path: &[u8],
    name: &[u8],
    kind: &[u8],
    sizes: &[u8],
    values: &[u8],
) -> Result<Option<Command>, AllocError>
    ensures { Asks result (words_ask (
        codes "attr" ∷ path.now ∷ name.now ∷ kind.now ∷ sizes.now ∷ values.now ∷ [])) }
{
    let Some(path) = unescaped(alloc, path)? else {
        return Ok(None);
    };
    let Some(name) = unescaped(alloc, name)? else {
        return Ok(None);
    };
    let Some(fixed) = type_from(kind) else {
        return Ok(None);
    };
    let Some(dims) = list_from(alloc, sizes)? else {
        return Ok(None);
    };
    let Some(values) = list_from(alloc, values)? else {
        return Ok(None);
    };
    let attr = AttrSpec {
        name,
        fixed,
        dims: Items::new(dims),
        values: Items::new(values),
    };
    Ok(Some(Command::Change(Edit::SetAttr { path, attr })))
}
