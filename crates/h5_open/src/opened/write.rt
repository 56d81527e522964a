//! Cells written where they stand (File Format Specification 3.0, section IV.A.2.i).

ghost use Rattle.std.specs.Prelude.{◌≡◌, ℕ, ◌<◌, ◌∷◌, [], List, Option, length};
ghost use Rattle.std.specs.BTreeMap.{BTreeMap};
ghost use Rattle.h5_model.specs.Edits.Applied.{with_dataset};
ghost use Rattle.h5_model.specs.Format.Superblock.{k_values};
ghost use Rattle.h5_model.specs.Format.Described.{Described};
ghost use Rattle.h5_model.specs.Tree.Objects.{Dataset, with_object};
ghost use Rattle.h5_layout.specs.Standing.{cell_blocks};
ghost use Rattle.h5_shape.specs.Runs.{places_in};
ghost use Rattle.h5_open.specs.declared.opened.object.OpenedObject.{OpenedObject};
ghost use Rattle.h5_open.specs.ChangedInPlace.{IsChangedInPlace};
ghost use Rattle.h5_open.specs.Opened.Kept.{IsOpened};
ghost use Rattle.h5_open.specs.Opened.State.{opened_state};
ghost use Rattle.h5_open.specs.Opened.Sound.{IsSound, IsWholeFile};
ghost use Rattle.h5_open.specs.Written.{AreRunsStored, AreStanding, AreWrittenAt, IsArrayThere, IsCellStored, IsKeptOutside, IsStoredRun, with_places, with_run};
ghost use Rattle.h5_open.specs.WrittenRun.{IsRunMade, IsRunReady};

use super::Opened;
use crate::index::Index;
use h5_header::HeaderRef;
use h5_layout::{Buffer, CellPlaces, write_stored};
use h5_model::Fixed;
use h5_shape::CellRuns;
use h5_space::Image;

/// Cells of an array that stand one behind another in an image.
#[derive(Clone, Copy)]
pub struct StandingCells {
    /// The type of each.
    pub fixed: Fixed,
    /// The place of the first of them in the array, in row-major order. Contracts alone read it.
    pub place: u64,
    /// Its address.
    pub at: u64,
}

impl Opened {
    /// Writes values into the cells of an array where they stand: one value for each cell of these runs, in their order.
    /// No byte changes outside the blocks in which the array's cells stand; that those of other cells stay too is
    /// tested. The array's header is read once, and what is kept of the objects stays. Takes no memory.
    ///
    /// These are the caller's conditions: the object with the number is an array, it has the cells of these runs, no run
    /// is empty, the cells are stored, there is one value for each, and the values are of its type.
    pub fn write_cells(&mut self, number: u32, runs: CellRuns<'_>, values: &Buffer<'_>)
        requires run { (d : Dataset) × AreRunsStored self.old number runs values.now d }
        ensures changed { self.new ≡ record self.old {
          image = self.new.image;
          tree = with_object self.old.tree number
              (with_dataset (with_places (places_in runs.entry) values.now));
        } }
        ensures k { k_values self.new.image ≡ k_values self.old.image }
        ensures sound { IsSound self.new }
        ensures whole { IsWholeFile self.old → IsWholeFile self.new }
        ensures in_place { IsChangedInPlace self.old self.new
            (with_object self.old.tree number (with_dataset (with_places (places_in runs.entry) values.now)))
            self.old.next (number ∷ []) 0 }
        ensures stored { (p : ℕ) → IsCellStored self.old number p → IsCellStored self.new number p }
        ensures local { (a : Described) (there : IsArrayThere self.old number a)
            → IsKeptOutside self.old.image self.new.image (cell_blocks self.old.image a there.blocks) }
    {
        write_runs(&mut self.image, &self.index, number, runs, values);
    }

    /// Writes values into cells of an array that are known to stand one behind another. No byte changes outside the
    /// blocks in which the array's cells stand; that those of other cells stay too is tested. Nothing is read, not even
    /// the header of the array, and what is kept of the objects stays. Takes no memory.
    ///
    /// These are the caller's conditions: the object with the number is an array, its cells stand as `cells` says,
    /// there is at least one value, and the values are of its type.
    pub fn write_standing(&mut self, number: u32, cells: &StandingCells, values: &Buffer<'_>)
        requires run { (d : Dataset) × IsStoredRun self.old number cells.now.place values.now d }
        requires some { 0 < length values.now }
        requires standing { AreStanding self.old number cells.now (length values.now) }
        ensures changed { self.new ≡ record self.old {
          image = self.new.image;
          tree = with_object self.old.tree number (with_dataset (with_run cells.now.place values.now));
        } }
        ensures k { k_values self.new.image ≡ k_values self.old.image }
        ensures sound { IsSound self.new }
        ensures whole { IsWholeFile self.old → IsWholeFile self.new }
        ensures in_place { IsChangedInPlace self.old self.new
            (with_object self.old.tree number (with_dataset (with_run cells.now.place values.now)))
            self.old.next (number ∷ []) 0 }
        ensures stored { (p : ℕ) → IsCellStored self.old number p → IsCellStored self.new number p }
        ensures local { (a : Described) (there : IsArrayThere self.old number a)
            → IsKeptOutside self.old.image self.new.image (cell_blocks self.old.image a there.blocks) }
    {
        write_stored(&mut self.image, &cells.fixed, cells.at, values);
    }
}

/// Writes values into the cells of an array of an opened image where they stand: one value for each cell of these runs,
/// in their order. The array's header is read once, and what is kept of the objects stays right.
///
/// These are the caller's conditions: the index is the image's, and those of `Opened::write_cells`.
fn write_runs(
    image: &mut Image,
    index: &Index,
    number: u32,
    runs: CellRuns<'_>,
    values: &Buffer<'_>,
)
    requires opened { IsOpened image.old index.now.objects.items index.now.numbers }
    requires run { (d : Dataset)
        × AreRunsStored (opened_state image.old index.now.objects.items) number runs values.now d }
    ensures opened { IsOpened image.new index.now.objects.items index.now.numbers }
    ensures written { AreWrittenAt (opened_state image.old index.now.objects.items)
        number (places_in runs.entry) values.now (opened_state image.new index.now.objects.items) }
{
    let object = index.objects[number as usize].as_ref().unwrap();
    let mut places = CellPlaces::new(&HeaderRef::new(image, &object.messages));
    let mut left = values.lend();
    for run in runs {
        let (first, others) = left.split_at(run.length as usize);
        write_run(image, &mut places, run.place, &first);
        left = others;
    }
}

/// Writes values into the cells of an array of an opened image where they stand, from this place on in row-major order:
/// piece by piece, each of which stands in one block. `places` says where the cells stand, and is right still.
///
/// These are the caller's conditions: the places are those of the array's cells, it has these cells, they are stored,
/// and the values are of its type.
fn write_run(image: &mut Image, places: &mut CellPlaces, place: u64, values: &Buffer<'_>)
    requires { (slots : List (Option OpenedObject)) × (numbers : BTreeMap ℕ ℕ) × (number : ℕ)
        × IsRunReady image.old slots numbers number places.old place values.now }
    ensures { (slots : List (Option OpenedObject)) (numbers : BTreeMap ℕ ℕ) (number : ℕ)
        → IsRunReady image.old slots numbers number places.old place values.now
        → IsRunMade image.old slots numbers number place values.now image.new places.new }
{
    let mut next = place;
    let mut left = values.lend();
    while left.len() > 0 {
        let run = places.run_at(image, next, left.len() as u64);
        let (piece, behind) = left.split_at(run.cells as usize);
        write_stored(image, &places.fixed(), run.at, &piece);
        next += run.cells;
        left = behind;
    }
}
