//! Rows of cells, which may come in pieces.
ghost use Rattle.std.specs.Prelude.{◌≡◌, ◌+◌, ◌/◌, ◌%◌, ◌<◌, ◌==◌, if◌then◌else◌, OnOk, OnErr, [], length, replicate, codes};
ghost use Rattle.h5_model.specs.Scripts.Answers.{stored_values};
ghost use Rattle.h5_model.specs.Scripts.Text.{rows_text};
ghost use Rattle.h5_text.specs.Appends.{Appends};
ghost use Rattle.h5_text.specs.Rows.{cell_text, cells_from};

use crate::texts::{push_text, push_value};
use h5_model::Fixed;
use h5_types::decode;
use std::alloc::AllocError;

/// Rows of `width` cells, and the column in which the next cell stands.
#[derive(Clone, Copy, PartialEq, Eq, Debug)]
pub struct Rows {
    pub width: u64,
    pub column: u64,
    ghost in_row: { column < width },
}

impl Rows {
    /// Rows of `width` cells each, from the first cell on.
    pub fn new(width: u64) -> Rows
        requires { 0 < width }
        ensures width { result.width ≡ width }
        ensures column { result.column ≡ 0 }
    {
        Rows { width, column: 0 }
    }

    /// Appends the next cell.
    ///
    /// # Errors
    ///
    /// `AllocError` if memory is refused. `out` then still begins with its old bytes; a part of the text may stand
    /// behind them. The column stays as it was.
    pub fn push(&mut self, out: &mut Vec<u8>, value: i128) -> Result<(), AllocError>
        ensures text { Appends result out.old.items out.new.items
            (cell_text self.old.width self.old.column value) }
        ensures width { self.new.width ≡ self.old.width }
        ensures column { OnOk result (self.new.column ≡ (self.old.column + 1) % self.old.width) }
        ensures err { OnErr result (self.new ≡ self.old) }
    {
        push_text(out, before(self.column))?;
        push_value(out, value)?;
        push_text(out, behind(self.width, self.column))?;
        self.column = next_column(self.width, self.column);
        Ok(())
    }

    /// Appends the next cells. `bytes` are their values as they are stored: as many bytes for each cell as the type's
    /// size.
    ///
    /// # Errors
    ///
    /// `AllocError` if memory is refused. `out` then still begins with its old bytes; a part of the text may stand
    /// behind them. The column is left open.
    pub fn push_stored(
        &mut self,
        out: &mut Vec<u8>,
        fixed: &Fixed,
        bytes: &[u8],
    ) -> Result<(), AllocError>
        ensures text { Appends result out.old.items out.new.items
            (cells_from self.old.width self.old.column (stored_values fixed.now bytes.now)) }
        ensures width { self.new.width ≡ self.old.width }
        ensures column { OnOk result (self.new.column
            ≡ (self.old.column + length bytes.now / fixed.now.size) % self.old.width) }
    {
        let size = fixed.size();
        for k in 0..bytes.len() / size {
            let at = k * size;
            self.push(out, decode(fixed, &bytes[at..at + size]))?;
        }
        Ok(())
    }

    /// Appends the next `count` cells, which all have this value.
    ///
    /// # Errors
    ///
    /// `AllocError` if memory is refused. `out` then still begins with its old bytes; a part of the text may stand
    /// behind them. The column is left open.
    pub fn push_repeated(
        &mut self,
        out: &mut Vec<u8>,
        value: i128,
        count: u64,
    ) -> Result<(), AllocError>
        ensures text { Appends result out.old.items out.new.items
            (cells_from self.old.width self.old.column (replicate count value)) }
        ensures width { self.new.width ≡ self.old.width }
        ensures column { OnOk result (self.new.column
            ≡ (self.old.column + count) % self.old.width) }
    {
        for _ in 0..count {
            self.push(out, value)?;
        }
        Ok(())
    }
}

/// Appends values in rows of `width` values. The last row is whole, too.
///
/// # Errors
///
/// `AllocError` if memory is refused. `out` then still begins with its old bytes; a part of the text may stand behind
/// them.
pub fn push_rows(out: &mut Vec<u8>, width: u64, values: &[i128]) -> Result<(), AllocError>
    requires width { 0 < width }
    requires whole { length values.now % width ≡ 0 }
    ensures { Appends result out.old.items out.new.items
        (rows_text (length values.now / width) width values.now) }
{
    let mut rows = Rows::new(width);
    for value in values {
        rows.push(out, *value)?;
    }
    Ok(())
}

/// What stands before a cell.
fn before(column: u64) -> &'static [u8]
    ensures { result.now ≡ (if column == 0 then [] else codes " ") }
{
    if column == 0 { b"" } else { b" " }
}

/// What stands behind a cell.
fn behind(width: u64, column: u64) -> &'static [u8]
    requires { column < width }
    ensures { result.now ≡ (if column + 1 == width then codes "\n" else []) }
{
    if column + 1 == width { b"\n" } else { b"" }
}

/// The column of the next cell.
fn next_column(width: u64, column: u64) -> u64
    requires { column < width }
    ensures { result ≡ (column + 1) % width }
{
    if column + 1 == width { 0 } else { column + 1 }
}
