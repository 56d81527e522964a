//! Cells of an array that stand one behind another in an image, and cells written there (File Format Specification 3.0, sections III.A.1
//! and IV.A.2.i).

ghost use Rattle.std.specs.Prelude.{◌≡◌, ◌+◌, ◌*◌, ◌≤◌, true, length, replicate};
ghost use Rattle.std.specs.List.{list_all};
ghost use Rattle.h5_model.specs.Format.Fixed.{fits};
ghost use Rattle.h5_model.specs.Format.Plain.{cells_bytes};
ghost use Rattle.h5_space.specs.Lending.{with_bytes_at};

use crate::buffer::Buffer;
use h5_model::Fixed;
use h5_msg::write_values;
use h5_space::Image;

/// How many cells are copied at a time at most: so many stay in the cache of a processor.
const CELLS_COPIED: usize = 2048;

/// Cells of an array that stand one behind another in its image.
#[derive(Clone, Copy)]
pub struct StoredRun {
    /// The address of the first of them.
    pub at: u64,
    /// How many there are.
    pub cells: u64,
}

/// Writes values into cells that stand one behind another from this address on. Takes no memory.
///
/// That the cells lie in the image, and that the values are of the type, are the caller's conditions.
pub fn write_stored(image: &mut Image, fixed: &Fixed, at: u64, values: &Buffer<'_>)
    requires inside { at + length values.now * fixed.now.size ≤ length image.old.bytes }
    requires of_type { list_all (fits fixed.now) values.now ≡ true }
    ensures { image.new ≡ with_bytes_at image.old at (cells_bytes fixed.now values.now) }
{
    // The image is not longer than memory.
    let _image = image.bytes();
    let bytes = image.part_at_mut(at, (values.len() * fixed.size()) as u64);
    values.write(fixed, bytes);
}

/// Writes one value into so many cells that stand one behind another from this address on. Takes no memory.
///
/// That the cells lie in the image, and that the value is of the type, are the caller's conditions.
pub fn fill_stored(image: &mut Image, fixed: &Fixed, at: u64, value: i128, count: u64)
    requires inside { at + count * fixed.now.size ≤ length image.old.bytes }
    requires of_type { fits fixed.now value ≡ true }
    ensures { image.new ≡ with_bytes_at image.old at (cells_bytes fixed.now (replicate count value)) }
{
    // The image is not longer than memory.
    let _image = image.bytes();
    let bytes = image.part_at_mut(at, count * fixed.size() as u64);
    fill_cells(fixed, value, count as usize, bytes);
}

/// Writes the bytes of one value, so many times.
pub(crate) fn fill_cells(fixed: &Fixed, value: i128, count: usize, bytes: &mut [u8])
    requires room { length bytes.old ≡ count * fixed.now.size }
    requires of_type { fits fixed.now value ≡ true }
    ensures { bytes.new ≡ cells_bytes fixed.now (replicate count value) }
{
    if count == 0 {
        return;
    }
    let size = fixed.size();
    write_values(fixed, &[value], &mut bytes[..size]);
    let mut done = 1;
    while done < count {
        let more = done.min(count - done).min(CELLS_COPIED);
        bytes.copy_within(..more * size, done * size);
        done += more;
    }
}
