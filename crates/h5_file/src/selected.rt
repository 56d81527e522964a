//! The selected cells of an array, gathered into a caller's bytes as they are stored.

ghost use Rattle.std.specs.Prelude.{◌≡◌, ℕ, ℤ, ◌+◌, ◌*◌, ◌<◌, ◌≤◌, ◌++◌, true, length, replicate, take};
ghost use Rattle.h5_model.specs.Format.Fixed.{Fixed as FixedType, bytes_of, fits};
ghost use Rattle.h5_model.specs.Format.Plain.{cells_bytes};
ghost use Rattle.h5_model.specs.Scripts.Answers.{stored_values};
ghost use Rattle.h5_model.specs.Views.Selection.{Within};
ghost use Rattle.h5_model.specs.Views.Shown.{selected_values};
ghost use Rattle.h5_edit.specs.Pieces.{IsPiece, piece_values};

use h5_edit::{Piece, Slab, StoredArray, encode};
use h5_model::Fixed;

/// Writes the selected cells of an array, in row-major order and each as the bytes of its type. It takes no memory.
///
/// That the selection is within the array's sizes, of as many dimensions, and that there is room for just its cells, are the caller's
/// conditions.
pub fn gather(array: &StoredArray<'_>, slab: &Slab<'_>, room: &mut [u8])
    requires rank { length slab.now ≡ length array.now.sizes }
    requires within { Within array.now.sizes slab.now }
    requires room { length room.old
        ≡ length (selected_values array.now slab.now) * array.now.fixed.size }
    ensures { room.new ≡ cells_bytes array.now.fixed (selected_values array.now slab.now) }
{
    let told = array.array();
    let (fixed, fill) = (told.fixed(), told.fill());
    let mut at = 0;
    for piece in array.runs(slab) {
        at = write_piece(&fixed, fill, piece, room, at);
    }
}

/// Writes the cells of a piece from a byte on, and says where they end. That there is room for them is the caller's condition.
fn write_piece(fixed: &Fixed, fill: i128, piece: Piece<'_>, room: &mut [u8], at: usize) -> usize
    requires of_type { fits fixed.now fill ≡ true }
    requires whole { IsPiece fixed.now piece }
    requires room { at + length (piece_values fixed.now fill piece) * fixed.now.size ≤ length room.old }
    ensures end { result ≡ at + length (piece_values fixed.now fill piece.entry) * fixed.now.size }
    ensures written { take result room.new
        ≡ take at room.old ++ cells_bytes fixed.now (piece_values fixed.now fill piece.entry) }
{
    match piece {
        Piece::Bytes(bytes) => copy_cells(fixed, bytes, room, at),
        Piece::Fill { cells } => {
            let cells = cells as usize;
            let end = at + cells * fixed.size();
            write_fill(fixed, fill, cells, &mut room[at..end]);
            end
        }
    }
}

/// Writes stored cells from a byte on, and says where they end. That there is room for them is the caller's condition.
fn copy_cells(fixed: &Fixed, bytes: &[u8], room: &mut [u8], at: usize) -> usize
    requires whole { (n : ℕ) × (0 < n) × (length bytes.now ≡ n * fixed.now.size) }
    requires room { at + length (stored_values fixed.now bytes.now) * fixed.now.size ≤ length room.old }
    ensures end { result ≡ at + length (stored_values fixed.now bytes.now) * fixed.now.size }
    ensures written { take result room.new
        ≡ take at room.old ++ cells_bytes fixed.now (stored_values fixed.now bytes.now) }
{
    // Types are sound.
    let _size = fixed.size();
    let end = at + bytes.len();
    room[at..end].copy_from_slice(bytes);
    end
}

/// Writes the fill into so many cells, for which there is room.
fn write_fill(fixed: &Fixed, fill: i128, cells: usize, room: &mut [u8])
    requires of_type { fits fixed.now fill ≡ true }
    requires room { length room.old ≡ cells * fixed.now.size }
    ensures { room.new ≡ cells_bytes fixed.now (replicate cells fill) }
{
    let size = fixed.size();
    let mut cell = [0; 8];
    write_cell(fixed, fill, &mut cell[..size]);
    repeat_cell(&cell[..size], cells, room);
}

/// Writes the bytes of a value of the type.
fn write_cell(fixed: &Fixed, value: i128, bytes: &mut [u8])
    requires room { length bytes.old ≡ fixed.now.size }
    requires of_type { fits fixed.now value ≡ true }
    ensures { bytes.new ≡ bytes_of fixed.now value }
{
    let _of_type = encode(fixed, value, bytes);
}

/// Writes these bytes so many times, for which there is room.
fn repeat_cell(cell: &[u8], cells: usize, room: &mut [u8])
    requires room { length room.old ≡ cells * length cell.now }
    ensures { (t : FixedType) (v : ℤ) → cell.now ≡ bytes_of t v
        → room.new ≡ cells_bytes t (replicate cells v) }
{
    let size = cell.len();
    for k in 0..cells {
        room[k * size..k * size + size].copy_from_slice(cell);
    }
}
