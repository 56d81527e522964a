//! Values that a caller lends to be written (HDF5 dataset reference, H5Dwrite: the type in memory and the buffer).

ghost use Rattle.std.specs.Prelude.{◌≡◌, ◌*◌, ◌≤◌, drop, length, take, MatchOption, true, false};
ghost use Rattle.std.specs.List.{list_all};
ghost use Rattle.h5_model.specs.Format.Fixed.{IsFixed, fits as is_of_type};
ghost use Rattle.h5_model.specs.Format.Plain.{cells_bytes};
ghost use Rattle.h5_model.specs.Scripts.Answers.{stored_values};
ghost use Rattle.h5_layout.specs.Buffers.{are_whole_cells};

use h5_model::Fixed;
use h5_msg::{value_at, write_values};
use h5_types::fits;
use std::marker::Model;

/// How the values stand in memory.
#[derive(Debug, Drop)]
enum Lent<'a> {
    /// A number for each.
    Numbers(&'a [i128]),
    /// The bytes of cells of this type, one behind another.
    Cells(Fixed, &'a [u8]),
}

/// Values that a caller lends to be written: numbers, or the bytes of cells of a type that need not be the array's. They
/// are read where they stand, and converted as they are written.
#[derive(Debug, Drop)]
pub struct Buffer<'a> {
    lent: Lent<'a>,
    /// How many values there are: kept, since each piece that is written asks for it.
    count: usize,
}

impl<'a> Model for Buffer<'a> {
    ghost use Rattle.std.specs.Prelude.{ℤ, List};
    ghost use Rattle.h5_layout.specs.Buffers.{AreValuesCounted, values_lent};

    ghost Value = { List ℤ };

    ghost view = { λ b. values_lent b.lent };

    ghost invariant = { λ b. AreValuesCounted b.lent b.count };
}

impl<'a> Buffer<'a> {
    /// These numbers.
    pub fn numbers(values: &'a [i128]) -> Self
        ensures { result ≡ values.now }
    {
        Buffer {
            lent: Lent::Numbers(values),
            count: values.len(),
        }
    }

    /// The values of cells of this type, whose bytes stand one behind another. `None` where the bytes are no whole number
    /// of cells.
    pub fn cells(fixed: Fixed, bytes: &'a [u8]) -> Option<Self>
        ensures { MatchOption result (are_whole_cells fixed bytes.now ≡ false) (λ buffer.
            (are_whole_cells fixed bytes.now ≡ true) × (buffer ≡ stored_values fixed bytes.now)) }
    {
        if bytes.len() % fixed.size() != 0 {
            return None;
        }
        Some(Buffer {
            lent: Lent::Cells(fixed, bytes),
            count: bytes.len() / fixed.size(),
        })
    }

    /// The same values, lent once more.
    pub fn lend(&self) -> Buffer<'a>
        ensures { result ≡ self.now }
    {
        let lent = match &self.lent {
            Lent::Numbers(values) => Lent::Numbers(values),
            Lent::Cells(fixed, bytes) => Lent::Cells(*fixed, bytes),
        };
        Buffer {
            lent,
            count: self.count,
        }
    }

    /// How many values there are.
    pub fn len(&self) -> usize
        ensures { result ≡ length self.now }
    {
        self.count
    }

    /// The first so many values, and the others.
    pub fn split_at(&self, count: usize) -> (Buffer<'a>, Buffer<'a>)
        requires { count ≤ length self.now }
        ensures front { result.0 ≡ take count self.now }
        ensures back { result.1 ≡ drop count self.now }
    {
        let (first, others) = match &self.lent {
            Lent::Numbers(values) => {
                let (first, others) = values.split_at(count);
                (Lent::Numbers(first), Lent::Numbers(others))
            }
            Lent::Cells(fixed, bytes) => {
                let (first, others) = bytes.split_at(count * fixed.size());
                (Lent::Cells(*fixed, first), Lent::Cells(*fixed, others))
            }
        };
        (
            Buffer { lent: first, count },
            Buffer {
                lent: others,
                count: self.count - count,
            },
        )
    }

    /// Whether each value is one of this type. Cells of the type itself are not looked at.
    pub fn are_of_type(&self, fixed: &Fixed) -> bool
        ensures { result ≡ list_all (is_of_type fixed.now) self.now }
    {
        match &self.lent {
            Lent::Numbers(values) => values.iter().all(|value| fits(fixed, *value)),
            Lent::Cells(own, bytes) => own == fixed || are_cells_of_type(own, bytes, fixed),
        }
    }

    /// Writes the values as cells of this type, one behind another.
    // What converts them stands apart: cells of the type itself, as most are, are then one copy, and no register is
    // saved for more.
    pub(crate) fn write(&self, fixed: &Fixed, to: &mut [u8])
        requires room { length to.old ≡ length self.now * fixed.now.size }
        requires of_type { list_all (is_of_type fixed.now) self.now ≡ true }
        ensures { to.new ≡ cells_bytes fixed.now self.now }
    {
        match &self.lent {
            Lent::Numbers(values) => write_numbers(values, *fixed, to),
            Lent::Cells(own, bytes) => {
                if own == fixed {
                    to.copy_from_slice(bytes);
                } else {
                    write_converted(*own, bytes, *fixed, to);
                }
            }
        }
    }
}

/// Whether the value of each cell of the type `own` is one of the type `fixed`.
fn are_cells_of_type(own: &Fixed, bytes: &[u8], fixed: &Fixed) -> bool
    requires { are_whole_cells own.now bytes.now ≡ true }
    ensures { result ≡ list_all (is_of_type fixed.now) (stored_values own.now bytes.now) }
{
    let size = own.size();
    for k in 0..bytes.len() / size {
        if !fits(fixed, value_at(own, bytes, k * size)) {
            return false;
        }
    }
    true
}

/// Writes numbers as cells of the type `fixed`, which has them.
#[inline(never)]
fn write_numbers(values: &[i128], fixed: Fixed, to: &mut [u8])
    requires room { length to.old ≡ length values.now * fixed.size }
    requires of_type { list_all (is_of_type fixed) values.now ≡ true }
    ensures { to.new ≡ cells_bytes fixed values.now }
{
    write_values(&fixed, values, to);
}

/// Writes the values of cells of the type `own` as cells of the type `fixed`, which has them.
#[inline(never)]
fn write_converted(own: Fixed, bytes: &[u8], fixed: Fixed, to: &mut [u8])
    requires whole { are_whole_cells own bytes.now ≡ true }
    requires room { length to.old ≡ length (stored_values own bytes.now) * fixed.size }
    requires of_type { list_all (is_of_type fixed) (stored_values own bytes.now) ≡ true }
    ensures { to.new ≡ cells_bytes fixed (stored_values own bytes.now) }
{
    let size = own.size();
    let width = fixed.size();
    for k in 0..bytes.len() / size {
        let value = value_at(&own, bytes, k * size);
        write_values(&fixed, &[value], &mut to[k * width..k * width + width]);
    }
}
