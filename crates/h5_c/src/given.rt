//! What edits and selections take, made of what C gives.

ghost use Rattle.std.specs.Prelude.{◌≡◌, IfOk, Ok, Err, map};
ghost use Rattle.h5_model.specs.Format.Fixed.{fixed_from};
ghost use Rattle.h5_model.specs.Scripts.Answers.{stored_values};
ghost use Rattle.h5_c.specs.Given.{IsArrayMadeWith, IsMadeOf, IsMadeWith, IsStoreMade, given_array, given_attribute, is_whole, maximum_of, number_of, store_of_number};

use crate::status::{NO_MEMORY, NO_SUCH_TYPE, WRONG_ROOM};
use h5_file::{AttrSpec, Buffer, Fixed, Items, Spec, Store};
use h5_types::decode;
use std::alloc::{AllocError, Global};

/// The storage of an array's cells, as C names it: in the header of the array.
pub const COMPACT: u32 = 1;

/// In one block.
pub const CONTIGUOUS: u32 = 2;

/// In chunks.
pub const CHUNKED: u32 = 3;

/// Why the library is asked for no edit with what C gave.
#[derive(Clone, Copy, PartialEq, Eq, Debug)]
pub(crate) enum Unmade {
    /// Memory was refused.
    NoMemory,
    /// The bytes are no whole number of values.
    WrongRoom,
    /// There is no such type, or no such form of storage.
    NoSuchType,
}

impl Unmade {
    /// Its number.
    pub(crate) fn status(self) -> u32
        ensures { result ≡ number_of self }
    {
        match self {
            Unmade::NoMemory => NO_MEMORY,
            Unmade::WrongRoom => WRONG_ROOM,
            Unmade::NoSuchType => NO_SUCH_TYPE,
        }
    }
}

impl From<AllocError> for Unmade {
    ghost use Rattle.h5_c.specs.declared.given.Unmade.TheVariants.{NoMemory};

    ghost from_gives = { λ _ fault. fault ≡ NoMemory };

    fn from(_error: AllocError) -> Unmade {
        Unmade::NoMemory
    }
}

/// A type, as C names it.
#[derive(Clone, Copy)]
#[repr(C)]
pub struct CType {
    /// How many bytes a value has: 1, 2, 4 or 8.
    pub size: u8,
    /// Whether a value is signed.
    pub signed: bool,
    /// Whether the high byte stands first. One byte has no order.
    pub big: bool,
}

/// The values that bytes stand for, one behind another.
fn values_of(alloc: Global, fixed: &Fixed, bytes: &[u8]) -> Result<Vec<i128>, AllocError>
    ensures { IfOk result (λ values. values.items ≡ stored_values fixed.now bytes.now) }
{
    let size = fixed.size();
    let count = bytes.len() / size;
    let mut values = Vec::with_capacity(alloc, count)?;
    for k in 0..count {
        let at = k * size;
        values.push(decode(fixed, &bytes[at..at + size]))?;
    }
    Ok(values)
}

/// The type that C names, of which the bytes are a whole number of values.
fn type_of(of: CType, bytes: &[u8]) -> Result<Fixed, Unmade>
    ensures { IsMadeWith (fixed_from of.size of.signed of.big) (is_whole bytes.now) (λ t. result ≡ Ok t)
        (λ u. result ≡ Err u) }
{
    let Some(fixed) = Fixed::new(of.size, of.signed, of.big) else {
        return Err(Unmade::NoSuchType);
    };
    if bytes.len() % fixed.size() != 0 {
        return Err(Unmade::WrongRoom);
    }
    Ok(fixed)
}

/// The values that these bytes stand for, lent as they are.
pub(crate) fn buffer_of(of: CType, bytes: &[u8]) -> Result<Buffer<'_>, Unmade>
    ensures { IsMadeWith (fixed_from of.size of.signed of.big) (is_whole bytes.now)
        (λ t. result ≡ Ok (stored_values t bytes.now)) (λ u. result ≡ Err u) }
{
    let Some(fixed) = Fixed::new(of.size, of.signed, of.big) else {
        return Err(Unmade::NoSuchType);
    };
    let Some(buffer) = Buffer::cells(fixed, bytes) else {
        return Err(Unmade::WrongRoom);
    };
    Ok(buffer)
}

/// What an attribute of this name is to be, of values that are given as bytes.
pub(crate) fn attr_spec(
    alloc: Global,
    name: &[u8],
    of: CType,
    dims: &[u64],
    bytes: &[u8],
) -> Result<AttrSpec, Unmade>
    ensures { IsMadeWith (fixed_from of.size of.signed of.big) (is_whole bytes.now)
        (λ t. IsMadeOf (given_attribute name.now t dims.now bytes.now) result)
        (λ u. result ≡ Err u) }
{
    let fixed = type_of(of, bytes)?;
    Ok(AttrSpec {
        name: Items::from_slice(alloc, name)?,
        fixed,
        dims: Items::from_slice(alloc, dims)?,
        values: Items::new(values_of(alloc, &fixed, bytes)?),
    })
}

/// A form of storage, as C names it.
fn storage_named(alloc: Global, storage: u32, chunks: &[u32]) -> Result<Store<Items<u32>>, Unmade>
    ensures { IsStoreMade (store_of_number storage chunks.now) result }
{
    match storage {
        COMPACT => Ok(Store::Compact),
        CONTIGUOUS => Ok(Store::Contiguous),
        CHUNKED => Ok(Store::Chunked(Items::from_slice(alloc, chunks)?)),
        _ => Err(Unmade::NoSuchType),
    }
}

/// The maxima, as C gives them.
fn maxima_of(alloc: Global, maxima: &[u64]) -> Result<Items<Option<u64>>, AllocError>
    ensures { IfOk result (λ list. list ≡ map maximum_of maxima.now) }
{
    let mut list = Vec::with_capacity(alloc, maxima.len())?;
    for maximum in maxima {
        list.push(if *maximum == u64::MAX {
            None
        } else {
            Some(*maximum)
        })?;
    }
    Ok(Items::new(list))
}

/// What an array is to be, as C gives it.
#[derive(Clone, Copy)]
pub(crate) struct NewArray<'a> {
    pub(crate) of: CType,
    pub(crate) dims: &'a [u64],
    pub(crate) maxima: &'a [u64],
    pub(crate) storage: u32,
    pub(crate) chunks: &'a [u32],
    pub(crate) fill: &'a [u8],
}

/// What the array that is created is to be.
pub(crate) fn array_spec(alloc: Global, new: &NewArray<'_>) -> Result<Spec, Unmade>
    ensures { IsArrayMadeWith (fixed_from new.now.of.size new.now.of.signed new.now.of.big) new.now.fill.now
        (store_of_number new.now.storage new.now.chunks.now)
        (λ t store. IsMadeOf
        (given_array t new.now.dims.now new.now.maxima.now store new.now.fill.now) result)
        (λ u. result ≡ Err u) }
{
    let Some(fixed) = Fixed::new(new.of.size, new.of.signed, new.of.big) else {
        return Err(Unmade::NoSuchType);
    };
    if new.fill.len() != fixed.size() {
        return Err(Unmade::WrongRoom);
    }
    let store = storage_named(alloc, new.storage, new.chunks)?;
    Ok(Spec {
        fixed,
        dims: Items::from_slice(alloc, new.dims)?,
        maxima: maxima_of(alloc, new.maxima)?,
        store,
        fill: decode(&fixed, new.fill),
    })
}
