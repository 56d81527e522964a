//! Dataspace messages, version 1 (File Format Specification 3.0, section IV.A.2.b).

ghost use Rattle.std.specs.Prelude.{◌≡◌, ◌+◌, ◌-◌, ◌*◌, ◌^◌, ◌<◌, ◌≤◌, ◌++◌, Some, length, ok_or, min, slice_index, slice_get, map, if◌then◌else◌, true};
ghost use Rattle.std.specs.List.{range_with_len, AllByRecursion};
ghost use Rattle.h5_model.specs.Format.Extent.{extent_of, has_maxima as says_maxima, is_dataspace as has_form, maximum_fits, size_in};
ghost use Rattle.h5_model.specs.Edits.Refusal.{are_maxima as bound_sizes};
ghost use Rattle.h5_model.specs.Format.Bodies.{bounded_bytes, dataspace_bytes, or_undefined, words};
ghost use Rattle.h5_model.specs.Format.Limits.{most_dimensions};
ghost use Rattle.h5_model.specs.Format.Plain.{with_zeros};
ghost use Rattle.h5_model.specs.Tree.Places.{cells as cells_of};
ghost use Rattle.h5_model.specs.Format.Sizes.{dataspace_length as dataspace_size};
ghost use Rattle.h5_model.specs.Scripts.Tests.{each_below};

use crate::fault::FormFault;
use byteorder::{ByteOrder, LittleEndian};
use h5_bytes::{UNDEF, u64_at};
use h5_shape::{Dims, MAX_RANK};
use std::marker::Model;

/// Where the sizes begin.
const SIZES: usize = 8;

/// How many bytes the body of a Dataspace message has as it is written.
pub fn dataspace_length(rank: usize, has_maxima: bool) -> usize
    requires { rank ≤ most_dimensions }
    ensures { result ≡ dataspace_size rank + (if has_maxima then 8 * rank else 0) }
{
    let numbers = if has_maxima { 2 * rank } else { rank };
    SIZES + 8 * numbers
}

/// Whether a body of a Dataspace message has maxima: whether its flags say that they stand behind the sizes. It takes no
/// memory.
///
/// A body that ends before its flags has none.
pub fn has_maxima(body: &[u8]) -> bool
    ensures { result ≡ says_maxima body.now }
{
    body.len() > 2 && body[2] == 1
}

/// What a Dataspace message says: sizes, and a maximum for each.
#[derive(Debug, Drop)]
pub struct Dataspace<'a> {
    body: &'a [u8],
}

impl<'a> Model for Dataspace<'a> {
    ghost use Rattle.h5_model.specs.Format.Extent.{Extent, is_dataspace, extent_in};
    ghost use Rattle.std.specs.Prelude.{◌≡◌, true};

    ghost Value = { Extent };

    ghost view = { λ a. extent_in a.body.now };

    ghost invariant = { λ a. is_dataspace a.body.now ≡ true };
}

impl<'a> Dataspace<'a> {
    /// How many dimensions there are.
    pub fn rank(&self) -> usize
        ensures rank { result ≡ length self.now.sizes }
        ensures maxima { result ≡ length self.now.maxima }
        ensures most { result ≤ most_dimensions }
    {
        usize::from(self.body[1])
    }

    /// The size in a dimension.
    pub fn size(&self, k: usize) -> u64
        requires { k < length self.now.sizes }
        ensures { result ≡ slice_index self.now.sizes k }
    {
        u64_at(self.body, SIZES + 8 * k)
    }

    /// The largest size in a dimension, or `None` where it is unlimited.
    pub fn maximum(&self, k: usize) -> Option<u64>
        requires { k < length self.now.sizes }
        ensures { slice_get self.now.maxima k ≡ Some result }
    {
        if self.body[2] == 0 {
            return Some(self.size(k));
        }
        let maximum = u64_at(self.body, SIZES + 8 * usize::from(self.body[1]) + 8 * k);
        if maximum == UNDEF {
            None
        } else {
            Some(maximum)
        }
    }

    /// The sizes. It takes no memory.
    pub fn dims(&self) -> Dims
        ensures { result ≡ self.now.sizes }
    {
        let mut dims = Dims::scalar();
        for k in 0..self.rank() {
            dims.push(self.size(k));
        }
        dims
    }

    /// How many cells there are, or `u64::MAX` where there are more.
    pub fn cells(&self) -> u64
        ensures { result ≡ min (cells_of self.now.sizes) (2 ^ 64 - 1) }
    {
        cells_from(self.body, 0, usize::from(self.body[1]))
    }
}

/// The product of so many sizes from dimension `k` on, or `u64::MAX` where it is larger.
#[tactic(auto, using(crate::proofs::ExtentLaws::cells_step))]
fn cells_from(body: &[u8], k: usize, count: usize) -> u64
    requires { 8 + 8 * (k + count) ≤ length body.now }
    ensures { result ≡ min (cells_of (map (size_in body.now) (range_with_len k count))) (2 ^ 64 - 1) }
{
    if count == 0 {
        return 1;
    }
    u64_at(body, SIZES + 8 * k).saturating_mul(cells_from(body, k + 1, count - 1))
}

/// Reads a Dataspace message: the current sizes and the maximum sizes.
///
/// # Errors
///
/// `DataspaceForm` if the message has another form than those that docs/FORMAT.md lists.
#[tactic(auto, unfolding(h5_model::specs::Format::Extent::extent_of))]
pub fn read_dataspace(body: &[u8]) -> Result<Dataspace<'_>, FormFault>
    ensures { result ≡ ok_or (extent_of body.now) FormFault.DataspaceForm }
{
    if is_dataspace(body) {
        Ok(Dataspace { body })
    } else {
        Err(FormFault::DataspaceForm)
    }
}

/// Whether a body is that of a Dataspace message.
fn is_dataspace(body: &[u8]) -> bool
    ensures { result ≡ has_form body.now }
{
    if body.len() < SIZES || body[0] != 1 || usize::from(body[1]) > MAX_RANK || body[2] > 1 {
        return false;
    }
    let rank = usize::from(body[1]);
    if body.len() < SIZES + 8 * (rank * (1 + usize::from(body[2]))) {
        return false;
    }
    body[2] == 0 || are_maxima(body, rank)
}

/// Whether no maximum is below its size.
fn are_maxima(body: &[u8], rank: usize) -> bool
    requires numbers { 8 + 8 * rank + 8 * rank ≤ length body.now }
    requires rank { rank ≡ slice_index body.now 1 }
    ensures { result ≡ each_below rank (maximum_fits body.now) }
{
    for k in 0..rank {
        if !is_maximum(body, rank, k) {
            return false;
        }
    }
    true
}

/// Whether the maximum in this dimension is not below the size.
#[tactic(auto, unfolding(h5_model::specs::Format::Extent::maximum_fits))]
fn is_maximum(body: &[u8], rank: usize, k: usize) -> bool
    requires numbers { 8 + 8 * rank + 8 * rank ≤ length body.now }
    requires dimension { k < rank }
    requires rank { rank ≡ slice_index body.now 1 }
    ensures { result ≡ maximum_fits body.now k }
{
    u64_at(body, SIZES + 8 * k) <= u64_at(body, SIZES + 8 * rank + 8 * k)
}

/// Writes a Dataspace message without maxima, and zeros behind it. The maxima are then the sizes.
#[tactic(auto, using(crate::proofs::WordLaws::words_long))]
pub fn write_dataspace(sizes: &[u64], bytes: &mut [u8])
    requires rank { length sizes.now ≤ most_dimensions }
    requires room { dataspace_size (length sizes.now) ≤ length bytes.old }
    ensures written { bytes.new ≡ with_zeros (dataspace_bytes sizes.now) (length bytes.old) }
    ensures reads { extent_of bytes.new ≡ Some (record { sizes = sizes.now; maxima = map Some sizes.now }) }
{
    let rank = sizes.len();
    let (head, behind) = bytes.split_at_mut(SIZES);
    let (numbers, padding) = behind.split_at_mut(8 * rank);
    head.copy_from_slice(&[1, rank as u8, 0, 0, 0, 0, 0, 0]);
    LittleEndian::write_u64_into(sizes, numbers);
    padding.fill(0);
}

/// Writes a Dataspace message with maxima, of which `None` is unlimited, and zeros behind it.
#[tactic(auto, using(crate::proofs::WordLaws::bounds_long, crate::proofs::WordLaws::as_many_maxima))]
pub fn write_bounded_dataspace(sizes: &[u64], maxima: &[Option<u64>], bytes: &mut [u8])
    requires rank { length sizes.now ≤ most_dimensions }
    requires bounds { bound_sizes sizes.now maxima.now ≡ true }
    requires room { dataspace_size (length sizes.now) + 8 * length sizes.now ≤ length bytes.old }
    ensures written { bytes.new ≡ with_zeros (bounded_bytes sizes.now maxima.now) (length bytes.old) }
    ensures reads { extent_of bytes.new ≡ Some (record { sizes = sizes.now; maxima = maxima.now }) }
{
    let rank = sizes.len();
    let (head, behind) = bytes.split_at_mut(SIZES);
    let (numbers, padding) = behind.split_at_mut(16 * rank);
    head.copy_from_slice(&[1, rank as u8, 1, 0, 0, 0, 0, 0]);
    write_bounds(sizes, maxima, numbers);
    padding.fill(0);
}

/// Writes sizes and then the numbers of maxima.
fn write_bounds(sizes: &[u64], maxima: &[Option<u64>], bytes: &mut [u8])
    requires rank { length sizes.now ≤ most_dimensions }
    requires same { length maxima.now ≡ length sizes.now }
    requires room { length bytes.old ≡ 16 * length sizes.now }
    ensures written { bytes.new ≡ words sizes.now ++ words (map or_undefined maxima.now) }
    ensures small { AllByRecursion (λ n. n < 2 ^ 64) (map or_undefined maxima.now) }
{
    let (first, behind) = bytes.split_at_mut(8 * sizes.len());
    LittleEndian::write_u64_into(sizes, first);
    write_maxima(maxima, behind);
}

/// Writes the numbers of maxima.
fn write_maxima(maxima: &[Option<u64>], bytes: &mut [u8])
    requires { length bytes.old ≡ 8 * length maxima.now }
    ensures written { bytes.new ≡ words (map or_undefined maxima.now) }
    ensures small { AllByRecursion (λ n. n < 2 ^ 64) (map or_undefined maxima.now) }
{
    let [maximum, rest @ ..] = maxima else {
        return;
    };
    let (first, behind) = bytes.split_at_mut(8);
    LittleEndian::write_u64(first, maximum.unwrap_or(UNDEF));
    write_maxima(rest, behind);
}
