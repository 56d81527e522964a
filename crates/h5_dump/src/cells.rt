//! The cells of an array, written as they are read.

ghost use Rattle.std.specs.Prelude.{◌≡◌, ◌+◌, ◌/◌, ◌%◌, ◌++◌, OnOk, MatchResult, length, replicate};
ghost use Rattle.std.specs.Io.KnownBytes.{Appends};
ghost use Rattle.h5_model.specs.Scripts.Answers.{stored_values};
ghost use Rattle.h5_model.specs.Scripts.Text.{cells_text};
ghost use Rattle.h5_model.specs.Tree.Objects.{Array};
ghost use Rattle.h5_text.specs.Printed.{Prints, WritesSome};
ghost use Rattle.h5_text.specs.Rows.{cells_from};
ghost use Rattle.h5_file.specs.Pieces.{piece_values};

use crate::array::row_length;
use h5_file::{Piece, StoredArray};
use h5_model::Fixed;
use h5_text::{MOST_HELD, PrintFault, Rows, write_full, write_text};
use std::io::Write;

/// The most cells that are put into the buffer before it is written.
const AT_ONCE: u64 = 4096;

/// The bytes that a buffer holds back, and those of so many cells of 21 bytes behind them.
pub(crate) const CELLS_ROOM: usize = MOST_HELD + AT_ONCE as usize * 21;

/// Writes what the buffer holds, and the array's cells in rows behind it.
pub(crate) fn write_cells<W: Write>(
    text: &mut Vec<u8>,
    array: &StoredArray<'_>,
    output: &mut W,
) -> Result<(), PrintFault>
    ensures { let all = text.old.items ++ cells_text (Array array.now) in MatchResult result
        (λ _. Appends (W.contents output.old) (W.contents output.new) all)
        (λ _. WritesSome (W.contents output.old) (W.contents output.new) all) }
{
    print_cells(text, array, output)?;
    write_text(output, text)
}

/// Prints the array's cells in rows, or nothing where there is no cell.
fn print_cells<W: Write>(
    text: &mut Vec<u8>,
    array: &StoredArray<'_>,
    output: &mut W,
) -> Result<(), PrintFault>
    ensures { Prints result (W.contents output.old) (W.contents output.new) text.old.items text.new.items
        (cells_text (Array array.now)) }
{
    let told = array.array();
    if told.cells() == 0 {
        return Ok(());
    }
    let (fixed, fill) = (told.fixed(), told.fill());
    let mut rows = Rows::new(row_length(told.dims().sizes()));
    for piece in array.all() {
        print_piece(text, &mut rows, &fixed, fill, piece, output)?;
    }
    Ok(())
}

/// Prints the next cells, which are a piece of an array of this type and this fill.
fn print_piece<W: Write>(
    text: &mut Vec<u8>,
    rows: &mut Rows,
    fixed: &Fixed,
    fill: i128,
    piece: Piece<'_>,
    output: &mut W,
) -> Result<(), PrintFault>
    ensures text { Prints result (W.contents output.old) (W.contents output.new) text.old.items text.new.items
        (cells_from rows.old.width rows.old.column (piece_values fixed.now fill piece.entry)) }
    ensures width { rows.new.width ≡ rows.old.width }
    ensures column { OnOk result (rows.new.column
        ≡ (rows.old.column + length (piece_values fixed.now fill piece.entry)) % rows.old.width) }
{
    match piece {
        Piece::Bytes(bytes) => print_stored(text, rows, fixed, bytes, output),
        Piece::Fill { cells } => print_repeated(text, rows, fill, cells, output),
    }
}

/// Prints the next cells, which are stored bytes of the type.
fn print_stored<W: Write>(
    text: &mut Vec<u8>,
    rows: &mut Rows,
    fixed: &Fixed,
    bytes: &[u8],
    output: &mut W,
) -> Result<(), PrintFault>
    ensures text { Prints result (W.contents output.old) (W.contents output.new) text.old.items text.new.items
        (cells_from rows.old.width rows.old.column (stored_values fixed.now bytes.now)) }
    ensures width { rows.new.width ≡ rows.old.width }
    ensures column { OnOk result (rows.new.column
        ≡ (rows.old.column + length bytes.now / fixed.now.size) % rows.old.width) }
{
    let at_once = AT_ONCE as usize * fixed.size();
    let mut rest = bytes;
    while !rest.is_empty() {
        let (part, behind) = rest.split_at(rest.len().min(at_once));
        rows.push_stored(text, fixed, part)?;
        write_full(output, text)?;
        rest = behind;
    }
    Ok(())
}

/// Prints the next cells, so many of one value.
fn print_repeated<W: Write>(
    text: &mut Vec<u8>,
    rows: &mut Rows,
    value: i128,
    count: u64,
    output: &mut W,
) -> Result<(), PrintFault>
    ensures text { Prints result (W.contents output.old) (W.contents output.new) text.old.items text.new.items
        (cells_from rows.old.width rows.old.column (replicate count value)) }
    ensures width { rows.new.width ≡ rows.old.width }
    ensures column { OnOk result (rows.new.column ≡ (rows.old.column + count) % rows.old.width) }
{
    let mut left = count;
    while left > 0 {
        let part = left.min(AT_ONCE);
        rows.push_repeated(text, value, part)?;
        write_full(output, text)?;
        left -= part;
    }
    Ok(())
}
