//! The values of cells, one by one (File Format Specification 3.0, section IV.A.2.d, class 0).

ghost use Rattle.std.specs.Prelude.{◌≡◌, ℤ, ◌<◌, [], ◌/◌, IfSome, MatchOption, length};
ghost use Rattle.std.specs.Iterator.{YieldsFirst, item_count};
ghost use Rattle.h5_model.specs.Format.Fixed.{IsFixed};
ghost use Rattle.h5_model.specs.Scripts.Answers.{stored_values};
ghost use Rattle.h5_layout.specs.Pieces.{IsPiece, piece_values};
ghost use Rattle.h5_layout.specs.Values.{ArePiecesOf, IsPart, part_values, value_in_part, values_behind, values_left};

use crate::array::value_in;
use crate::pieces::{Piece, Runs};
use h5_model::Fixed;
use std::marker::Model;

/// Cells of a piece.
#[derive(Clone, Copy, Debug)]
struct Part<'a> {
    /// The bytes of the whole piece, or `None` where each cell reads the fill.
    bytes: Option<&'a [u8]>,
    /// The first of the cells, by its place in the piece.
    place: u64,
    /// How many there are.
    left: u64,
}

/// The values of cells, in row-major order: those that are left. Each is decoded when it is asked for. No step takes
/// memory.
#[derive(Debug, Drop)]
pub struct Values<'a> {
    fixed: Fixed,
    fill: i128,
    /// What is left of the piece under way.
    part: Part<'a>,
    /// The pieces that follow, if any do.
    pieces: Option<Runs<'a, 'a>>,
}

impl<'a> Model for Values<'a> {
    ghost use Rattle.std.specs.Prelude.{List, ℤ};
    ghost use Rattle.h5_layout.specs.Values.{ArePiecesOf, IsPart, values_left};

    ghost Value = { List ℤ };

    ghost view = { λ v. values_left v.fixed v.fill v.part v.pieces };

    ghost invariant = { λ v. IsPart v.fixed v.part × ArePiecesOf v.fixed v.fill v.pieces };
}

impl<'a> Values<'a> {
    /// The values of cells of this type that are stored one behind another, in these bytes.
    pub fn stored(fixed: Fixed, bytes: &'a [u8]) -> Self
        ensures { result ≡ stored_values fixed bytes.now }
    {
        Values {
            fixed,
            fill: 0,
            part: stored_part(&fixed, bytes),
            pieces: None,
        }
    }

    /// The values of cells that come in pieces, of this type and this fill.
    pub(crate) fn new(fixed: Fixed, fill: i128, pieces: Runs<'a, 'a>) -> Self
        requires fixed { pieces.fixed ≡ fixed }
        requires fill { pieces.fill ≡ fill }
        ensures { result ≡ pieces.entry.values }
    {
        Values {
            fixed,
            fill,
            part: NO_PART,
            pieces: Some(pieces),
        }
    }
}

impl<'a> Iterator for Values<'a> {
    type Item = i128;

    ghost next_gives = { YieldsFirst (λ left. left) };

    ghost remaining = { item_count (λ left. left) };

    fn next(&mut self) -> Option<i128> {
        let part = part_under_way(&self.fixed, self.part, &mut self.pieces)?;
        self.part = Part {
            bytes: part.bytes,
            place: part.place + 1,
            left: part.left - 1,
        };
        Some(first_value(&self.fixed, self.fill, &part))
    }
}

/// What is left of a part, or where nothing is the piece that follows.
fn part_under_way<'a>(
    fixed: &Fixed,
    part: Part<'a>,
    pieces: &mut Option<Runs<'a, 'a>>,
) -> Option<Part<'a>>
    requires part { IsPart fixed.now part }
    requires pieces { (fill : ℤ) × ArePiecesOf fixed.now fill pieces.old }
    ensures step { (fill : ℤ) → ArePiecesOf fixed.now fill pieces.old → MatchOption result
        ((values_left fixed.now fill part.entry pieces.old ≡ [])
        × (values_left fixed.now fill part.entry pieces.new ≡ []))
        (λ next. values_left fixed.now fill part.entry pieces.old
        ≡ values_left fixed.now fill next pieces.new) }
    ensures pieces { (fill : ℤ) → ArePiecesOf fixed.now fill pieces.old
        → ArePiecesOf fixed.now fill pieces.new }
    ensures part { IfSome result (λ next. (0 < next.left) × IsPart fixed.now next) }
{
    if part.left > 0 {
        return Some(part);
    }
    match pieces {
        Some(pieces) => Some(whole_part(fixed, pieces.next()?)),
        None => None,
    }
}

/// All cells of a piece.
fn whole_part<'a>(fixed: &Fixed, piece: Piece<'a>) -> Part<'a>
    requires { IsPiece fixed.now piece }
    ensures some { 0 < result.left }
    ensures part { IsPart fixed.now result }
    ensures values { (fill : ℤ) → part_values fixed.now fill result
        ≡ piece_values fixed.now fill piece.entry }
{
    match piece {
        Piece::Bytes(bytes) => stored_part(fixed, bytes),
        Piece::Fill { cells } => Part {
            bytes: None,
            place: 0,
            left: cells,
        },
    }
}

/// All cells that are stored one behind another in these bytes.
fn stored_part<'a>(fixed: &Fixed, bytes: &'a [u8]) -> Part<'a>
    ensures count { result.left ≡ length bytes.now / fixed.now.size }
    ensures sound { IsFixed fixed.now }
    ensures part { IsPart fixed.now result }
    ensures values { (fill : ℤ) → part_values fixed.now fill result ≡ stored_values fixed.now bytes.now }
{
    Part {
        bytes: Some(bytes),
        place: 0,
        left: (bytes.len() / fixed.size()) as u64,
    }
}

/// The value of the first cell.
fn first_value(fixed: &Fixed, fill: i128, part: &Part<'_>) -> i128
    requires some { 0 < part.now.left }
    requires part { IsPart fixed.now part.now }
    ensures { result ≡ value_in_part fixed.now fill part.now part.now.place }
{
    match part.bytes {
        Some(bytes) => value_in(fixed, bytes, part.place as usize),
        None => fill,
    }
}

/// No cell.
const NO_PART: Part<'static> = Part {
    bytes: None,
    place: 0,
    left: 0,
};
