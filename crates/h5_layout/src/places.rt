//! Where the stored cells of an array stand, kept while they are written (File Format Specification 3.0, sections III.A.1
//! and IV.A.2.i).

ghost use Rattle.std.specs.Prelude.{◌≡◌, ℕ, ◌<◌, ◌≤◌, List};
ghost use Rattle.h5_header.specs.Kinds.{IsOfDataset};
ghost use Rattle.h5_header.specs.declared.message.Message.{Message as Placed};
ghost use Rattle.h5_layout.specs.CellPlaces.{ArePlacesOf, DoStandAs, IsStoredAmong};
ghost use Rattle.h5_layout.specs.Compact.{IsRunAt};
ghost use Rattle.h5_layout.specs.Data.{AreDataRead};
ghost use Rattle.h5_model.specs.Format.Described.{Described, HasArray};
ghost use Rattle.h5_layout.specs.Told.{array_told};

use crate::address::StoredRun;
use crate::array::ArrayRef;
use crate::compact::compact_place;
use crate::index::ChunkIndex;
use crate::read::known_array;
use h5_header::HeaderRef;
use h5_model::Fixed;
use h5_msg::Layout;
use h5_space::Image;
use std::marker::Model;

/// Where the cells of an array stand.
#[derive(Drop)]
pub(crate) enum CellStand {
    /// Nowhere: none is stored.
    Nowhere,
    /// One behind another, in the header's message or in a block.
    InLine {
        /// The address of the first.
        at: u64,
    },
    /// In chunks.
    InIndex(ChunkIndex),
}

/// Where the stored cells of an array stand: what is to be known of its header, which is read once. It borrows nothing
/// of the image, and is right still when values were written into these cells.
#[derive(Drop)]
pub struct CellPlaces {
    fixed: Fixed,
    stand: CellStand,
}

impl Model for CellPlaces {
    ghost use Rattle.h5_layout.specs.CellPlaces.{KeptPlaces};

    ghost Value = { KeptPlaces };

    ghost view = { λ p. record { fixed = p.fixed; stand = p.stand } };
}

impl CellPlaces {
    /// The places of the cells of the array of these messages. Takes no memory.
    ///
    /// That the array was read, with its data, is the caller's condition.
    pub fn new(header: &HeaderRef<'_>) -> CellPlaces
        requires dataset { IsOfDataset header.now.messages }
        requires array { HasArray header.now.messages (array_told header.now.messages) }
        requires read { let a = array_told header.now.messages in
            AreDataRead header.now.image a.fixed a.layout }
        ensures { ArePlacesOf header.now.image header.now.list (array_told header.now.messages) result }
    {
        let array = known_array(header);
        CellPlaces {
            fixed: array.fixed(),
            stand: stand_of(header, &array),
        }
    }

    /// The type of the cells.
    pub fn fixed(&self) -> Fixed
        ensures { result ≡ self.now.fixed }
    {
        self.fixed
    }

    /// Where the cells from a place on stand in the image, one behind another: `most` cells at most. The array's header
    /// is not read. Takes no memory.
    ///
    /// These are the caller's conditions: these are the places of the cells of an array in this image; it has `most`
    /// cells from the place on, at least one; and the first is stored.
    pub fn run_at(&mut self, image: &Image, place: u64, most: u64) -> StoredRun
        requires { (list : List Placed) × (a : Described)
            × IsStoredAmong image.now.bytes list a self.old place most }
        ensures some { 0 < result.cells }
        ensures few { result.cells ≤ most }
        ensures stand { (list : List Placed) (a : Described)
            → IsStoredAmong image.now.bytes list a self.old place most
            → IsRunAt image.now.bytes list a place result.cells result.at }
        ensures fixed { self.new.fixed ≡ self.old.fixed }
        ensures kept { (list : List Placed) (a : Described) → ArePlacesOf image.now.bytes list a self.old
            → ArePlacesOf image.now.bytes list a self.new }
    {
        // The image is not longer than memory.
        let _bytes = image.bytes();
        let size = self.fixed.size() as u64;
        match &mut self.stand {
            CellStand::Nowhere => unreachable!(),
            CellStand::InLine { at } => StoredRun {
                at: *at + place * size,
                cells: most,
            },
            CellStand::InIndex(index) => {
                let row = index.row_at(image, place);
                StoredRun {
                    at: row.at.unwrap() + row.place * size,
                    cells: most.min(row.cells),
                }
            }
        }
    }
}

/// Where the cells of this array stand, whose header has these messages.
fn stand_of(header: &HeaderRef<'_>, array: &ArrayRef<'_>) -> CellStand
    requires array { HasArray header.now.messages array.now }
    requires read { AreDataRead header.now.image array.now.fixed array.now.layout }
    ensures { DoStandAs header.now.image header.now.list array.now result }
{
    // The messages lie in the image.
    let _list = header.list();
    match array.layout() {
        Layout::Compact(_) => CellStand::InLine {
            at: compact_place(header),
        },
        Layout::Contiguous(block) => match block {
            Some(block) => CellStand::InLine { at: block.at },
            None => CellStand::Nowhere,
        },
        Layout::Chunked { sizes, tree } => {
            let Some(root) = tree else {
                return CellStand::Nowhere;
            };
            let size = array.fixed().size() as u64;
            CellStand::InIndex(ChunkIndex::new(array.dims(), sizes, size, *root))
        }
    }
}
