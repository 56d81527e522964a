//! What stands at a path, with its attributes.

ghost use Rattle.std.specs.Prelude.{◌≡◌, ◌∷◌, [], ◌++◌, IfOk, OnOk, true, false, length, map, take};
ghost use Rattle.h5_c.specs.Asked.{HasAttributeBytes, HasAttributesListed, HasLinkText, HasListed, HasNumber, HasTold, HasToldAttribute, IsStorageTold, IsAbout, IsType, names_with_ends};
ghost use Rattle.h5_c.specs.Calls.{IsKeptOpen};

use crate::given::{CHUNKED, COMPACT, CONTIGUOUS, CType};
use crate::held::Held;
use crate::room::copy;
use crate::slot::Slot;
use crate::status::{DONE, NO_MEMORY, NOT_A_SOFT_LINK, WRONG_STATE};
use h5_file::{Dims, Fixed, Kind, LinkNames, Store};
use h5_types::encode;
use std::alloc::{AllocError, Global};

/// What stands at a path, or an attribute.
#[repr(C)]
#[derive(Clone, Copy)]
pub struct About {
    /// `GROUP`, `ARRAY` or `SOFT_LINK`.
    pub kind: u32,
    /// `COMPACT`, `CONTIGUOUS` or `CHUNKED`.
    pub storage: u32,
    /// How many dimensions there are.
    pub rank: u32,
    /// The type of the cells.
    pub of: CType,
    /// The bytes of the fill: as many as a cell has.
    pub fill: [u8; 8],
    /// The sizes, as many as there are dimensions.
    pub dims: [u64; 32],
    /// The maxima; 18446744073709551615 is unlimited.
    pub maxima: [u64; 32],
    /// The sizes of a chunk.
    pub chunks: [u64; 32],
}

pub const GROUP: u32 = 1;

pub const ARRAY: u32 = 2;

pub const SOFT_LINK: u32 = 3;

/// Writes the sizes to the front of a list, and says how many they are.
fn tell_sizes(dims: &Dims, list: &mut [u64; 32]) -> u32
    ensures count { result ≡ length dims.now }
    ensures told { take result list.new ≡ dims.now }
{
    let sizes = dims.sizes();
    list[..sizes.len()].copy_from_slice(sizes);
    sizes.len() as u32
}

/// Tells a type.
fn tell_type(fixed: &Fixed, of: &mut CType)
    ensures { IsType fixed.now of.new }
{
    // A type has 1, 2, 4 or 8 bytes.
    of.size = fixed.size() as u8;
    of.signed = fixed.is_signed();
    of.big = fixed.is_big();
}

/// Tells how cells are stored.
fn tell_storage(store: &Store<Dims>, about: &mut About)
    ensures { IsStorageTold store.now about.old about.new }
{
    match store {
        Store::Compact => about.storage = COMPACT,
        Store::Contiguous => about.storage = CONTIGUOUS,
        Store::Chunked(sizes) => {
            let _rank = tell_sizes(sizes, &mut about.chunks);
            about.storage = CHUNKED;
        }
    }
}

/// Tells what stands there.
fn tell_kind(kind: &Kind<'_>, about: &mut About)
    ensures { IsAbout kind.now about.new }
{
    match kind {
        Kind::Group => about.kind = GROUP,
        Kind::Soft(_) => about.kind = SOFT_LINK,
        Kind::Dataset {
            fixed,
            dims,
            maxima,
            store,
            fill,
        } => {
            about.kind = ARRAY;
            tell_type(fixed, &mut about.of);
            about.rank = tell_sizes(dims, &mut about.dims);
            let _rank = tell_sizes(maxima, &mut about.maxima);
            tell_storage(store, about);
            let _of_type = encode(fixed, *fill, &mut about.fill[..fixed.size()]);
        }
    }
}

/// The names in a group, each followed by a zero byte.
fn ended_links(alloc: Global, names: LinkNames<'_>) -> Result<Vec<u8>, AllocError>
    ensures { IfOk result (λ text. text.items ≡ names_with_ends names.entry) }
{
    let mut text = Vec::new(alloc);
    for name in names {
        push_ended(&mut text, name)?;
    }
    Ok(text)
}

/// The names, each followed by a zero byte.
fn ended_names(alloc: Global, names: &[&[u8]]) -> Result<Vec<u8>, AllocError>
    ensures { IfOk result (λ text. text.items ≡ names_with_ends (map (λ name. name.now) names.now)) }
{
    let room = names.iter().fold(0, |room: usize, name| {
        room.saturating_add(name.len()).saturating_add(1)
    });
    let mut text = Vec::with_capacity(alloc, room)?;
    for name in names {
        push_ended(&mut text, name)?;
    }
    Ok(text)
}

/// Appends a name and a zero byte.
fn push_ended(text: &mut Vec<u8>, name: &[u8]) -> Result<(), AllocError>
    ensures { OnOk result (text.new.items ≡ text.old.items ++ name.now ++ 0 ∷ []) }
{
    text.extend_from_slice(name)?;
    text.push(0)?;
    Ok(())
}

impl Held {
    fn tell(&self, path: &[u8], about: &mut About) -> u32
        ensures { HasTold self.now.session.file.tree path.now about.old about.new result }
    {
        match self.session.file().kind(path) {
            Ok(kind) => {
                tell_kind(&kind, about);
                DONE
            }
            Err(fault) => fault.number(),
        }
    }

    fn number(&self, path: &[u8], number: &mut u32) -> u32
        ensures { HasNumber self.now.session.file.tree path.now number.old number.new result }
    {
        match self.session.file().number(path) {
            Ok(found) => {
                *number = found.0;
                DONE
            }
            Err(fault) => fault.number(),
        }
    }

    fn list(&mut self, alloc: Global, path: &[u8]) -> u32
        ensures { HasListed self.old path.now self.new result }
    {
        match self.session.file().list(path) {
            Ok(names) => match ended_links(alloc, names) {
                Ok(text) => {
                    self.text = text;
                    DONE
                }
                Err(_) => NO_MEMORY,
            },
            Err(fault) => fault.number(),
        }
    }

    fn link_text(&mut self, alloc: Global, path: &[u8]) -> u32
        ensures { HasLinkText self.old path.now self.new result }
    {
        match self.session.file().kind(path) {
            Ok(Kind::Soft(text)) => match Vec::from_slice(alloc, text) {
                Ok(text) => {
                    self.text = text;
                    DONE
                }
                Err(_) => NO_MEMORY,
            },
            Ok(_) => NOT_A_SOFT_LINK,
            Err(fault) => fault.number(),
        }
    }

    fn attributes(&mut self, alloc: Global, path: &[u8]) -> u32
        ensures { HasAttributesListed self.old path.now self.new result }
    {
        match self.session.file().attrs(path) {
            Ok(names) => match ended_names(alloc, &names) {
                Ok(text) => {
                    self.text = text;
                    DONE
                }
                Err(_) => NO_MEMORY,
            },
            Err(fault) => fault.number(),
        }
    }

    fn tell_attribute(&self, path: &[u8], name: &[u8], about: &mut About) -> u32
        ensures { HasToldAttribute self.now.session.file.tree path.now name.now about.old about.new result }
    {
        match self.session.file().get_attr(path, name) {
            Ok(attribute) => {
                tell_type(&attribute.fixed(), &mut about.of);
                about.rank = tell_sizes(&attribute.dims(), &mut about.dims);
                DONE
            }
            Err(fault) => fault.number(),
        }
    }

    fn copy_attribute(&self, path: &[u8], name: &[u8], room: &mut [u8]) -> u32
        ensures { HasAttributeBytes self.now.session.file.tree path.now name.now room.old room.new result }
    {
        match self.session.file().get_attr(path, name) {
            Ok(attribute) => copy(attribute.stored(), room),
            Err(fault) => fault.number(),
        }
    }
}

/// Tells what stands at the path. A soft link is not followed. Of a group only `kind` is told; what is not told stays
/// as it was. Takes no memory.
///
/// # Errors
///
/// `WRONG_STATE` where the slot is closed, else the number of the rule that the path breaks. Nothing is told then.
#[unsafe(no_mangle)]
pub extern "C" fn h5i_stat(alloc: Global, slot: &mut Slot, path: &[u8], about: &mut About) -> u32
    ensures same { (slot.new.is_open ≡ slot.old.is_open)
        × (slot.old.is_open ≡ true → slot.new.held ≡ slot.old.held) }
    ensures closed { slot.old.is_open ≡ false → (result ≡ WRONG_STATE) × (about.new ≡ about.old) }
    ensures told { slot.old.is_open ≡ true
        → HasTold slot.old.held.session.file.tree path.now about.old about.new result }
{
    if !slot.is_open() {
        return WRONG_STATE;
    }
    let held = slot.take(alloc);
    let status = held.tell(path, about);
    slot.put(held);
    status
}

/// The number of the object at the path, which it keeps while the session is open. Takes no memory.
///
/// # Errors
///
/// As [`h5i_stat`], and `NotFound` where a soft link stands there. `number` stays as it was.
#[unsafe(no_mangle)]
pub extern "C" fn h5i_number(alloc: Global, slot: &mut Slot, path: &[u8], number: &mut u32) -> u32
    ensures same { (slot.new.is_open ≡ slot.old.is_open)
        × (slot.old.is_open ≡ true → slot.new.held ≡ slot.old.held) }
    ensures closed { slot.old.is_open ≡ false
        → (result ≡ WRONG_STATE) × (number.new ≡ number.old) }
    ensures told { slot.old.is_open ≡ true
        → HasNumber slot.old.held.session.file.tree path.now number.old number.new result }
{
    if !slot.is_open() {
        return WRONG_STATE;
    }
    let held = slot.take(alloc);
    let status = held.number(path, number);
    slot.put(held);
    status
}

/// Lists the group at the path: the session's text is then the names of its links, in ascending order of their
/// bytes, each followed by a zero byte.
///
/// # Errors
///
/// As [`h5i_stat`]; `NotAGroup` where no group stands there; last, `NO_MEMORY`, and no other holds then. The
/// session and its text stay as they were.
#[unsafe(no_mangle)]
pub extern "C" fn h5i_list(alloc: Global, slot: &mut Slot, path: &[u8]) -> u32
    ensures kept { IsKeptOpen slot.old.is_open slot.new.is_open result }
    ensures listed { slot.old.is_open ≡ true
        → HasListed slot.old.held path.now slot.new.held result }
{
    if !slot.is_open() {
        return WRONG_STATE;
    }
    let mut held = slot.take(alloc);
    let status = held.list(alloc, path);
    slot.put(held);
    status
}

/// Tells the soft link at the path: the session's text is then its text.
///
/// # Errors
///
/// As [`h5i_stat`]; `NOT_A_SOFT_LINK` where something else stands there; `NO_MEMORY`. The session and its text stay as
/// they were.
#[unsafe(no_mangle)]
pub extern "C" fn h5i_link_text(alloc: Global, slot: &mut Slot, path: &[u8]) -> u32
    ensures kept { IsKeptOpen slot.old.is_open slot.new.is_open result }
    ensures told { slot.old.is_open ≡ true
        → HasLinkText slot.old.held path.now slot.new.held result }
{
    if !slot.is_open() {
        return WRONG_STATE;
    }
    let mut held = slot.take(alloc);
    let status = held.link_text(alloc, path);
    slot.put(held);
    status
}

/// Lists the attributes of the object at the path: the session's text is then their names, in ascending order of
/// their bytes, each followed by a zero byte.
///
/// # Errors
///
/// As [`h5i_stat`]; `NotFound` where a soft link stands there; last, `NO_MEMORY`, and no other holds then. The session
/// and its text stay as they were.
#[unsafe(no_mangle)]
pub extern "C" fn h5i_attributes(alloc: Global, slot: &mut Slot, path: &[u8]) -> u32
    ensures kept { IsKeptOpen slot.old.is_open slot.new.is_open result }
    ensures listed { slot.old.is_open ≡ true
        → HasAttributesListed slot.old.held path.now slot.new.held result }
{
    if !slot.is_open() {
        return WRONG_STATE;
    }
    let mut held = slot.take(alloc);
    let status = held.attributes(alloc, path);
    slot.put(held);
    status
}

/// Tells the type and the sizes of an attribute of the object at the path. Takes no memory.
///
/// # Errors
///
/// As [`h5i_stat`]; `NotFound` where a soft link stands there; then `NoSuchAttribute`. Nothing is told then.
#[unsafe(no_mangle)]
pub extern "C" fn h5i_attribute(
    alloc: Global,
    slot: &mut Slot,
    path: &[u8],
    name: &[u8],
    about: &mut About,
) -> u32
    ensures same { (slot.new.is_open ≡ slot.old.is_open)
        × (slot.old.is_open ≡ true → slot.new.held ≡ slot.old.held) }
    ensures closed { slot.old.is_open ≡ false → (result ≡ WRONG_STATE) × (about.new ≡ about.old) }
    ensures told { slot.old.is_open ≡ true
        → HasToldAttribute slot.old.held.session.file.tree path.now name.now about.old about.new result }
{
    if !slot.is_open() {
        return WRONG_STATE;
    }
    let held = slot.take(alloc);
    let status = held.tell_attribute(path, name, about);
    slot.put(held);
    status
}

/// Copies the values of an attribute to `room`, each in as many bytes as its type has. Takes no memory.
///
/// # Errors
///
/// As [`h5i_attribute`], and `WRONG_ROOM` where the values have not just as many bytes as `room`. It stays as it was.
#[unsafe(no_mangle)]
pub extern "C" fn h5i_attribute_values(
    alloc: Global,
    slot: &mut Slot,
    path: &[u8],
    name: &[u8],
    room: &mut [u8],
) -> u32
    ensures same { (slot.new.is_open ≡ slot.old.is_open)
        × (slot.old.is_open ≡ true → slot.new.held ≡ slot.old.held) }
    ensures closed { slot.old.is_open ≡ false → (result ≡ WRONG_STATE) × (room.new ≡ room.old) }
    ensures copied { slot.old.is_open ≡ true
        → HasAttributeBytes slot.old.held.session.file.tree path.now name.now room.old room.new result }
{
    if !slot.is_open() {
        return WRONG_STATE;
    }
    let held = slot.take(alloc);
    let status = held.copy_attribute(path, name, room);
    slot.put(held);
    status
}
