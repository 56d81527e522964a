//! Edits of groups, links, arrays and attributes.

ghost use Rattle.std.specs.Prelude.{◌≡◌, true};
ghost use Rattle.h5_model.specs.declared.edits.Edit.TheVariants as edits;
ghost use Rattle.h5_model.specs.Format.Fixed.{fixed_from};
ghost use Rattle.h5_c.specs.Calls.{HasEdited, HasMadeAndEdited, HasRepacked, IsKeptOpen, IsRefusedEarly};
ghost use Rattle.h5_c.specs.Given.{IsArrayMadeWith, IsMadeWith, array_edit, is_whole, number_of, attribute_edit, store_of_number};

use crate::given::{CType, NewArray, array_spec, attr_spec};
use crate::held::Held;
use crate::slot::Slot;
use crate::status::{DONE, WRONG_STATE, edit_status};
use std::alloc::Global;

impl Held {
    /// Writes the image anew.
    fn repack(&mut self) -> u32
        ensures { HasRepacked self.old self.new result }
    {
        match self.session.repack() {
            Ok(()) => DONE,
            Err(fault) => fault.number(),
        }
    }
}

/// Creates an empty group at the path. The edits answer `WRONG_STATE` where the slot is closed, `NO_MEMORY` where
/// memory is refused, and else the number of the rule that refuses them, as h5_file says; a refusal changes nothing.
#[unsafe(no_mangle)]
pub extern "C" fn h5i_create_group(alloc: Global, slot: &mut Slot, path: &[u8]) -> u32
    ensures kept { IsKeptOpen slot.old.is_open slot.new.is_open result }
    ensures edited { slot.old.is_open ≡ true
        → HasEdited slot.old.held (edits.CreateGroup path.now) slot.new.held result }
{
    if !slot.is_open() {
        return WRONG_STATE;
    }
    let mut held = slot.take(alloc);
    let status = edit_status(held.session.create_group(path));
    slot.put(held);
    status
}

/// Gives the array at `target` a second name.
#[unsafe(no_mangle)]
pub extern "C" fn h5i_hard_link(alloc: Global, slot: &mut Slot, target: &[u8], path: &[u8]) -> u32
    ensures kept { IsKeptOpen slot.old.is_open slot.new.is_open result }
    ensures edited { slot.old.is_open ≡ true
        → HasEdited slot.old.held (edits.HardLink target.now path.now) slot.new.held result }
{
    if !slot.is_open() {
        return WRONG_STATE;
    }
    let mut held = slot.take(alloc);
    let status = edit_status(held.session.hard_link(target, path));
    slot.put(held);
    status
}

/// Makes a soft link with this text. It is never followed.
#[unsafe(no_mangle)]
pub extern "C" fn h5i_soft_link(alloc: Global, slot: &mut Slot, text: &[u8], path: &[u8]) -> u32
    ensures kept { IsKeptOpen slot.old.is_open slot.new.is_open result }
    ensures edited { slot.old.is_open ≡ true
        → HasEdited slot.old.held (edits.SoftLink text.now path.now) slot.new.held result }
{
    if !slot.is_open() {
        return WRONG_STATE;
    }
    let mut held = slot.take(alloc);
    let status = edit_status(held.session.soft_link(text, path));
    slot.put(held);
    status
}

/// Takes the link at the path away, and what no path reaches then. An array that is linked elsewhere stays.
#[unsafe(no_mangle)]
pub extern "C" fn h5i_unlink(alloc: Global, slot: &mut Slot, path: &[u8]) -> u32
    ensures kept { IsKeptOpen slot.old.is_open slot.new.is_open result }
    ensures edited { slot.old.is_open ≡ true
        → HasEdited slot.old.held (edits.Unlink path.now) slot.new.held result }
{
    if !slot.is_open() {
        return WRONG_STATE;
    }
    let mut held = slot.take(alloc);
    let status = edit_status(held.session.unlink(path));
    slot.put(held);
    status
}

/// Removes the attribute with this name.
#[unsafe(no_mangle)]
pub extern "C" fn h5i_remove_attribute(
    alloc: Global,
    slot: &mut Slot,
    path: &[u8],
    name: &[u8],
) -> u32
    ensures kept { IsKeptOpen slot.old.is_open slot.new.is_open result }
    ensures edited { slot.old.is_open ≡ true
        → HasEdited slot.old.held (edits.RemoveAttr path.now name.now) slot.new.held result }
{
    if !slot.is_open() {
        return WRONG_STATE;
    }
    let mut held = slot.take(alloc);
    let status = edit_status(held.session.remove_attr(path, name));
    slot.put(held);
    status
}

/// Gives the array in chunks at the path other sizes, one for each dimension.
#[unsafe(no_mangle)]
pub extern "C" fn h5i_resize(alloc: Global, slot: &mut Slot, path: &[u8], dims: &[u64]) -> u32
    ensures kept { IsKeptOpen slot.old.is_open slot.new.is_open result }
    ensures edited { slot.old.is_open ≡ true
        → HasEdited slot.old.held (edits.Resize path.now dims.now) slot.new.held result }
{
    if !slot.is_open() {
        return WRONG_STATE;
    }
    let mut held = slot.take(alloc);
    let status = edit_status(held.session.resize(path, dims));
    slot.put(held);
    status
}

/// Writes the image anew, without bytes that nothing uses.
#[unsafe(no_mangle)]
pub extern "C" fn h5i_repack(alloc: Global, slot: &mut Slot) -> u32
    ensures kept { IsKeptOpen slot.old.is_open slot.new.is_open result }
    ensures repacked { slot.old.is_open ≡ true
        → HasRepacked slot.old.held slot.new.held result }
{
    if !slot.is_open() {
        return WRONG_STATE;
    }
    let mut held = slot.take(alloc);
    let status = held.repack();
    slot.put(held);
    status
}

/// Creates an array at the path, each of whose cells reads the fill. `maxima` are as many as `dims`; one of
/// 18446744073709551615 is unlimited. `storage` is `COMPACT`, `CONTIGUOUS` or `CHUNKED`; the last one has the sizes of
/// its chunks in `chunks`. `fill` is one value of the type.
///
/// # Errors
///
/// As all edits; `NO_SUCH_TYPE` where there is no such type or storage, and `WRONG_ROOM` where `fill` has another
/// length than a value.
#[unsafe(no_mangle)]
pub extern "C" fn h5i_create_array(
    alloc: Global,
    slot: &mut Slot,
    path: &[u8],
    of: CType,
    dims: &[u64],
    maxima: &[u64],
    storage: u32,
    chunks: &[u32],
    fill: &[u8],
) -> u32
    ensures kept { IsKeptOpen slot.old.is_open slot.new.is_open result }
    ensures edited { slot.old.is_open ≡ true
        → IsArrayMadeWith (fixed_from of.size of.signed of.big) fill.now (store_of_number storage chunks.now)
        (λ t store. HasMadeAndEdited slot.old.held (array_edit path.now t dims.now maxima.now store fill.now)
        slot.new.held result)
        (λ u. IsRefusedEarly slot.old.held slot.new.held (number_of u) result) }
{
    if !slot.is_open() {
        return WRONG_STATE;
    }
    let new = NewArray {
        of,
        dims,
        maxima,
        storage,
        chunks,
        fill,
    };
    let spec = match array_spec(alloc, &new) {
        Ok(spec) => spec,
        Err(reason) => return reason.status(),
    };
    let mut held = slot.take(alloc);
    let status = edit_status(held.session.create_dataset(path, &spec));
    slot.put(held);
    status
}

/// Sets an attribute of the object at the path: its values are given as bytes of the type, one for each cell of the
/// sizes `dims`.
///
/// # Errors
///
/// As all edits; `NO_SUCH_TYPE` where there is no such type, and `WRONG_ROOM` where the bytes are no whole number of
/// values.
#[unsafe(no_mangle)]
pub extern "C" fn h5i_set_attribute(
    alloc: Global,
    slot: &mut Slot,
    path: &[u8],
    name: &[u8],
    of: CType,
    dims: &[u64],
    values: &[u8],
) -> u32
    ensures kept { IsKeptOpen slot.old.is_open slot.new.is_open result }
    ensures edited { slot.old.is_open ≡ true
        → IsMadeWith (fixed_from of.size of.signed of.big) (is_whole values.now)
        (λ t. HasMadeAndEdited slot.old.held (attribute_edit path.now name.now t dims.now values.now)
        slot.new.held result)
        (λ u. IsRefusedEarly slot.old.held slot.new.held (number_of u) result) }
{
    if !slot.is_open() {
        return WRONG_STATE;
    }
    let attr = match attr_spec(alloc, name, of, dims, values) {
        Ok(attr) => attr,
        Err(reason) => return reason.status(),
    };
    let mut held = slot.take(alloc);
    let status = edit_status(held.session.set_attr(path, &attr));
    slot.put(held);
    status
}
