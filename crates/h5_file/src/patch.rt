//! Kept cells that lie in one box of the chunk grid are set to the array's (File Format Specification 3.0, section III.A.1, chunked raw data).

ghost use Rattle.std.specs.Prelude.{◌≡◌, ℕ, List, ◌+◌, ◌*◌, ◌^◌, ◌<◌, ◌≤◌, true, length, take};
ghost use Rattle.h5_model.specs.Edits.Applied.{cell_or_fill};
ghost use Rattle.h5_model.specs.Format.Fixed.{bytes_of, fits};
ghost use Rattle.h5_model.specs.Tree.Places.{cells};
ghost use Rattle.h5_model.specs.Views.Selection.{fits_along};
ghost use Rattle.h5_shape.specs.PartCells.{selection_shape};
ghost use Rattle.h5_bytes.specs.Bytes.{with_part};
ghost use Rattle.h5_shape.specs.InBox.{AreSpans, number_along};
ghost use Rattle.h5_file.specs.Patched.{with_writes, writes_in};

use h5_edit::{StoredArray, encode};
use h5_model::{Axis, Fixed};
use h5_shape::{Axes, Span};

/// Sets the kept cells at these positions to the array's, the fill outside its sizes. The positions begin with those that led to the index
/// so far and to this place. It takes no memory, and one step for each cell.
pub(crate) fn patch_from(
    array: &StoredArray<'_>,
    axes: &Axes<'_>,
    spans: &[Span],
    index: &mut [u64],
    k: usize,
    place: u64,
    bytes: &mut [u8],
)
    requires of_type { (at : List ℕ) → fits array.now.fixed (cell_or_fill array.now at) ≡ true }
    requires rank { length index.old ≡ length array.now.sizes }
    requires left { k + length axes.now ≡ length index.old }
    requires spans { AreSpans axes.now spans.now }
    requires sized { 1 ≤ array.now.fixed.size }
    requires room { (place + 1) * cells (selection_shape axes.now) * array.now.fixed.size ≤ length bytes.old }
    ensures bytes { bytes.new ≡ with_writes array.now.fixed
        (writes_in array.now axes.now spans.now place (take k index.old)) bytes.old }
    ensures index { take k index.new ≡ take k index.old }
{
    let Some(axis) = axes.first() else {
        write_at(array, index, place, bytes);
        return;
    };
    let inner = axes.rest();
    let [span, spans @ ..] = spans else {
        return;
    };
    let cells = axis.count * axis.block;
    for t in span.from..span.from + span.length {
        index[k] = number_at(&axis, t);
        patch_from(array, &inner, spans, index, k + 1, place * cells + t, bytes);
    }
}

/// Writes the cell at an index, the fill outside the sizes, at a place among the kept ones.
fn write_at(array: &StoredArray<'_>, index: &[u64], place: u64, bytes: &mut [u8])
    requires of_type { (at : List ℕ) → fits array.now.fixed (cell_or_fill array.now at) ≡ true }
    requires rank { length index.now ≡ length array.now.sizes }
    requires room { (place + 1) * array.now.fixed.size ≤ length bytes.old }
    ensures { bytes.new ≡ with_part (place * array.now.fixed.size)
        (bytes_of array.now.fixed (cell_or_fill array.now index.now)) bytes.old }
{
    let fixed = array.fixed();
    let size = fixed.size();
    let start = place as usize * size;
    let value = cell_at(array, index);
    write_cell(&fixed, value, &mut bytes[start..start + size]);
}

/// Writes the bytes of a value of the type.
fn write_cell(fixed: &Fixed, value: i128, bytes: &mut [u8])
    requires room { length bytes.old ≡ fixed.now.size }
    requires of_type { fits fixed.now value ≡ true }
    ensures { bytes.new ≡ bytes_of fixed.now value }
{
    let _of_type = encode(fixed, value, bytes);
}

/// The value of the cell at an index, the fill outside the sizes.
fn cell_at(array: &StoredArray<'_>, index: &[u64]) -> i128
    ensures { result ≡ cell_or_fill array.now index.now }
{
    if array.dims().is_inside(index) {
        array.cell(index)
    } else {
        array.fill()
    }
}

/// The number that an axis selects at a position.
fn number_at(axis: &Axis, t: u64) -> u64
    requires inside { t < axis.now.count * axis.now.block }
    requires top { fits_along (2 ^ 63) axis.now ≡ true }
    ensures { result ≡ number_along axis.now t }
{
    axis.start + t / axis.block * axis.stride + t % axis.block
}
