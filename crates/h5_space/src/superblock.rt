//! The superblock, versions 0 and 1: its places, its checks, its fields and its writer (File Format Specification 3.0, section
//! II.A).

ghost use Rattle.std.specs.Prelude.{◌≡◌, ◌+◌, ◌≤◌, ◌++◌, ◌<◌, ◌⊎◌, length, MatchBool, MatchOption, OnOk, Some};
ghost use Rattle.h5_bytes.specs.Bytes.{byte_at, number_at, undefined_address};
ghost use Rattle.h5_model.specs.Format.Superblock.{AreKValues, IsSuperblock, base_place as base_in, chunk_field as field_bytes, chunk_k as chunk_of, driver_place as driver_in, end_field as end_in, end_of_file as end_told, has_chunk_k, internal_k as internal_of, k_values as values_of, leaf_k as leaf_of, root_header as root_in, superblock_length as length_in, highest_k};
ghost use Rattle.h5_model.specs.Format.Plain.{chunk_k_bytes, plain_superblock_length, superblock_bytes, version_of};
ghost use Rattle.h5_model.specs.Faults.Breaches.{FieldBreach, SuperblockBreach};

use h5_bytes::{Block, UNDEF, push_bytes, push_short, push_word, push_zeros, u16_at, u64_at};
use h5_model::{Cause, KValues, OpenFault};
use std::alloc::AllocError;

/// Bytes of the superblock of version 0.
const LENGTH: u64 = 96;

/// Bytes of the field of chunk K, and of two reserved ones behind it.
const CHUNK_FIELD: usize = 4;

/// The most bytes of an image.
pub const MAXIMUM_IMAGE: u64 = 2147483648;

/// The greatest K.
const MAXIMUM_K: u16 = 32767;

/// The first eight bytes of a file.
static SIGNATURE: [u8; 8] = [137, 72, 68, 70, 13, 10, 26, 10];

/// Where the version stands.
const VERSION: usize = 8;

/// Where K of symbol nodes stands.
const LEAF: usize = 16;

/// Where K of the nodes of groups' trees stands.
const INTERNAL: usize = 18;

/// Where K of the nodes of chunk trees stands in version 1. The fields from here on stand 4 bytes later in it.
const CHUNK: usize = 24;

/// Where the base address stands.
const BASE: usize = 24;

/// Where the end of file address stands.
const END: usize = 40;

/// Where the address of the driver information block stands.
const DRIVER: usize = 48;

/// Where the address of the root's object header stands.
const ROOT: usize = 64;

/// The fields of a superblock that differ from file to file: the K values, the end of the file, and the addresses of the root's
/// header, tree and heap.
#[derive(Clone, Copy)]
pub struct Superblock {
    pub k: KValues,
    pub end: u64,
    pub root: u64,
    pub tree: u64,
    pub heap: u64,
}

/// Whether there is a field for K of the nodes of chunk trees: in version 1.
fn has_chunk_field(bytes: &[u8]) -> bool
    requires { 9 ≤ length bytes.now }
    ensures { result ≡ has_chunk_k bytes.now }
{
    bytes[VERSION] == 1
}

/// How many bytes such a field has where it is there.
fn chunk_field(has: bool) -> usize
    ensures exact { result ≡ field_bytes has }
    ensures few { result ≤ 4 }
{
    if has { CHUNK_FIELD } else { 0 }
}

fn broken(cause: Cause, at: usize) -> Option<OpenFault>
    ensures { result ≡ Some (record { cause = cause; address = at }) }
{
    Some(OpenFault {
        cause,
        address: at as u64,
    })
}

/// The first version or size of addresses and lengths that is not one that is read.
fn form_fault(bytes: &[u8]) -> Option<OpenFault>
    requires { length_in bytes.now ≤ length bytes.now }
    ensures { MatchOption result
        ((byte_at bytes.now 8 ≤ 1) × (byte_at bytes.now 9 ≡ 0) × (byte_at bytes.now 10 ≡ 0)
        × (byte_at bytes.now 12 ≡ 0) × (byte_at bytes.now 13 ≡ 8) × (byte_at bytes.now 14 ≡ 8))
        (λ fault. FieldBreach bytes.now fault.cause fault.address) }
{
    if bytes[VERSION] > 1 {
        return broken(Cause::SuperblockVersion, VERSION);
    }
    if bytes[9] != 0 {
        return broken(Cause::SuperblockVersion, 9);
    }
    if bytes[10] != 0 {
        return broken(Cause::SuperblockVersion, 10);
    }
    if bytes[12] != 0 {
        return broken(Cause::SuperblockVersion, 12);
    }
    if bytes[13] != 8 {
        return broken(Cause::FieldSizes, 13);
    }
    if bytes[14] != 8 {
        return broken(Cause::FieldSizes, 14);
    }
    None
}

/// The first of the base address and the driver information block that is none that is read.
fn address_fault(bytes: &[u8]) -> Option<OpenFault>
    requires { length_in bytes.now ≤ length bytes.now }
    ensures { MatchOption result
        ((number_at bytes.now (base_in bytes.now) 8 ≡ 0)
        × (number_at bytes.now (driver_in bytes.now) 8 ≡ undefined_address))
        (λ fault. FieldBreach bytes.now fault.cause fault.address) }
{
    let behind = chunk_field(has_chunk_field(bytes));
    if u64_at(bytes, BASE + behind) != 0 {
        return broken(Cause::BaseAddress, BASE + behind);
    }
    if u64_at(bytes, DRIVER + behind) != UNDEF {
        return broken(Cause::Driver, DRIVER + behind);
    }
    None
}

/// Whether a K is from 1 to 32767.
fn is_k(k: u16) -> bool
    ensures { MatchBool result ((1 ≤ k) × (k ≤ highest_k)) ((k ≡ 0) ⊎ (highest_k < k)) }
{
    1 <= k && k <= MAXIMUM_K
}

/// The first K that is not from 1 to 32767.
fn k_fault(bytes: &[u8]) -> Option<OpenFault>
    requires { length_in bytes.now ≤ length bytes.now }
    ensures { MatchOption result (AreKValues (values_of bytes.now)) (λ fault.
        FieldBreach bytes.now fault.cause fault.address) }
{
    let k = k_values(bytes);
    if !is_k(k.leaf) {
        return broken(Cause::KRange, LEAF);
    }
    if !is_k(k.internal) {
        return broken(Cause::KRange, INTERNAL);
    }
    if !is_k(k.chunk_k()) {
        return broken(Cause::KRange, CHUNK);
    }
    None
}

/// Checks the superblock with which the bytes of a file begin. `None` says that it is accepted. Takes no memory.
///
/// # Errors
///
/// `Some` with the first of these that holds, at the place of the field:
///
/// - `NotHdf5`, at 0: the signature is not there.
/// - `Truncated`, at 0: the file has fewer bytes than the superblock, 96 or, in version 1, 100.
/// - `SuperblockVersion`: the version is neither 0 nor 1, or another one is not 0.
/// - `FieldSizes`: addresses or lengths have not 8 bytes.
/// - `BaseAddress`: the base address is not 0.
/// - `Driver`: there is a driver information block.
/// - `KRange`: K of symbol nodes, of the nodes of groups' trees, or of those of chunk trees, is not from 1 to 32767.
/// - `TooLarge`: the end of file address is above 2147483648.
/// - `Truncated`: the end of file address lies in the superblock, or past the end of the bytes.
pub fn superblock_fault(bytes: &[u8]) -> Option<OpenFault>
    ensures { MatchOption result (IsSuperblock bytes.now) (λ fault.
        SuperblockBreach bytes.now fault.cause fault.address) }
{
    if !bytes.starts_with(&SIGNATURE) {
        return broken(Cause::NotHdf5, 0);
    }
    let size = bytes.len() as u64;
    if size < LENGTH || size < superblock_length(bytes) {
        return broken(Cause::Truncated, 0);
    }
    if let Some(fault) = form_fault(bytes) {
        return Some(fault);
    }
    if let Some(fault) = address_fault(bytes) {
        return Some(fault);
    }
    if let Some(fault) = k_fault(bytes) {
        return Some(fault);
    }
    let field = end_field(bytes);
    let end = end_of_file(bytes);
    if end > MAXIMUM_IMAGE {
        return broken(Cause::TooLarge, field.at as usize);
    }
    if end < superblock_length(bytes) || end > size {
        return broken(Cause::Truncated, field.at as usize);
    }
    None
}

/// How many bytes the superblock has: 96, and 100 in version 1. Takes no memory.
///
/// That the bytes have the version is the caller's condition.
pub fn superblock_length(bytes: &[u8]) -> u64
    requires { 9 ≤ length bytes.now }
    ensures exact { result ≡ length_in bytes.now }
    ensures few { result ≤ 100 }
{
    LENGTH + chunk_field(has_chunk_field(bytes)) as u64
}

/// How many bytes a superblock with these K values has. Takes no memory.
pub fn length_for(k: &KValues) -> u64
    ensures exact { result ≡ plain_superblock_length k.now }
    ensures few { result ≤ 100 }
{
    LENGTH + chunk_field(k.chunk.is_some()) as u64
}

/// The K values. Takes no memory.
///
/// That the bytes have a superblock is the caller's condition, as of the other fields.
pub fn k_values(bytes: &[u8]) -> KValues
    requires { 26 ≤ length bytes.now }
    ensures exact { result ≡ values_of bytes.now }
    ensures superblock { plain_superblock_length result ≡ length_in bytes.now }
{
    KValues {
        leaf: leaf_k(bytes),
        internal: internal_k(bytes),
        chunk: if has_chunk_field(bytes) {
            Some(u16_at(bytes, CHUNK))
        } else {
            None
        },
    }
}

/// K of symbol nodes. Takes no memory.
pub fn leaf_k(bytes: &[u8]) -> u16
    requires { 18 ≤ length bytes.now }
    ensures { result ≡ leaf_of bytes.now }
{
    u16_at(bytes, LEAF)
}

/// K of the nodes of groups' trees. Takes no memory.
pub fn internal_k(bytes: &[u8]) -> u16
    requires { 20 ≤ length bytes.now }
    ensures { result ≡ internal_of bytes.now }
{
    u16_at(bytes, INTERNAL)
}

/// K of the nodes of chunk trees: 32 in version 0. Takes no memory.
pub fn chunk_k(bytes: &[u8]) -> u16
    requires { 26 ≤ length bytes.now }
    ensures { result ≡ chunk_of bytes.now }
{
    k_values(bytes).chunk_k()
}

/// Where the end of file address stands. Takes no memory.
pub fn end_field(bytes: &[u8]) -> Block
    requires { 9 ≤ length bytes.now }
    ensures exact { result ≡ end_in bytes.now }
    ensures low { result.at ≤ 44 }
{
    Block {
        at: (END + chunk_field(has_chunk_field(bytes))) as u64,
        len: 8,
    }
}

/// The end of file address: how many bytes the file has. Takes no memory.
pub fn end_of_file(bytes: &[u8]) -> u64
    requires { length_in bytes.now ≤ length bytes.now }
    ensures { result ≡ end_told bytes.now }
{
    u64_at(bytes, END + chunk_field(has_chunk_field(bytes)))
}

/// The address of the root's object header. Takes no memory.
pub fn root_header(bytes: &[u8]) -> u64
    requires { length_in bytes.now ≤ length bytes.now }
    ensures { result ≡ root_in bytes.now }
{
    u64_at(bytes, ROOT + chunk_field(has_chunk_field(bytes)))
}

/// The version of a superblock with this K of the nodes of chunk trees.
fn version_for(chunk: Option<u16>) -> u8
    ensures { result ≡ version_of chunk }
{
    if chunk.is_some() { 1 } else { 0 }
}

/// Appends the field of K of the nodes of chunk trees, where there is one.
///
/// # Errors
///
/// `AllocError` if memory is refused.
fn push_chunk_k(out: &mut Vec<u8>, chunk: Option<u16>) -> Result<(), AllocError>
    ensures { OnOk result (out.new.items ≡ out.old.items ++ chunk_k_bytes chunk) }
{
    let Some(k) = chunk else {
        return Ok(());
    };
    push_short(out, k)?;
    push_zeros(out, 2)
}

/// Appends a superblock with addresses and lengths of 8 bytes, of version 0, or 1 where there is a K of the nodes of chunk trees.
///
/// # Errors
///
/// `AllocError` if memory is refused.
pub fn push_superblock(out: &mut Vec<u8>, fields: &Superblock) -> Result<(), AllocError>
    ensures { OnOk result
        (out.new.items ≡ out.old.items
        ++ superblock_bytes fields.now.k fields.now.end fields.now.root fields.now.tree fields.now.heap) }
{
    push_bytes(out, &SIGNATURE)?;
    push_bytes(out, &[version_for(fields.k.chunk)])?;
    push_zeros(out, 4)?;
    push_bytes(out, &[8, 8, 0])?;
    push_short(out, fields.k.leaf)?;
    push_short(out, fields.k.internal)?;
    push_zeros(out, 4)?;
    push_chunk_k(out, fields.k.chunk)?;
    push_zeros(out, 8)?;
    push_word(out, UNDEF)?;
    push_word(out, fields.end)?;
    push_word(out, UNDEF)?;
    push_word(out, 0)?;
    push_word(out, fields.root)?;
    push_word(out, 1)?;
    push_word(out, fields.tree)?;
    push_word(out, fields.heap)?;
    Ok(())
}
