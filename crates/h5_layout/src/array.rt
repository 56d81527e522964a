//! An array as its header describes it, or as it is to be written.

ghost use Rattle.std.specs.Prelude.{◌≡◌, ◌+◌, ◌*◌, ◌<◌, ◌≤◌, None, Some, true, length, slice_get, MatchOption};
ghost use Rattle.std.specs.FinMap.{empty};
ghost use Rattle.std.specs.Option.{ForSome, option_map};
ghost use Rattle.h5_bytes.specs.Bytes.{part};
ghost use Rattle.h5_model.specs.Format.Fixed.{fits};
ghost use Rattle.h5_model.specs.Format.Limits.{most_cells};
ghost use Rattle.h5_model.specs.Tree.Places.{cells as cells_of, IsInside};
ghost use Rattle.h5_model.specs.Format.Cells.{value_in as value_at_place};
ghost use Rattle.h5_model.specs.Format.Described.{array_of, described_dataset};
ghost use Rattle.h5_msg.specs.Layouts.{layout_in};
ghost use Rattle.h5_layout.specs.Stored.{AreFilled, AreStored, IsArray, IsUnchunked, data_in};

use h5_bytes::Block;
use h5_model::Fixed;
use h5_msg::{Dataspace, Layout, value_at};
use h5_shape::{Dims, MAX_RANK};
use h5_space::Image;
use std::marker::Model;

/// The largest sizes of an array, `None` where one is unlimited.
#[derive(Debug, Drop)]
pub(crate) enum Maxima<'a> {
    /// As a Dataspace message has them.
    Read(Dataspace<'a>),
    /// As they were handed over, one for each size.
    Given(&'a [Option<u64>]),
}

/// An array: its type, sizes, maxima, fill value and layout. Either the messages of its object header describe it,
/// whose bodies it borrows; or it is to be written.
#[derive(Debug, Drop)]
pub struct ArrayRef<'a> {
    pub(crate) fixed: Fixed,
    pub(crate) dims: Dims,
    pub(crate) maxima: Maxima<'a>,
    pub(crate) fill: i128,
    pub(crate) layout: Layout<'a>,
}

impl<'a> Model for ArrayRef<'a> {
    ghost use Rattle.std.specs.Prelude.{◌≡◌, true};
    ghost use Rattle.h5_model.specs.Format.Fixed.{fits};
    ghost use Rattle.h5_msg.specs.Layouts.{layout_in};
    ghost use Rattle.h5_model.specs.Format.Described.{Described, array_of};
    ghost use Rattle.h5_layout.specs.Maxima.{AreMaximaOf, maxima_in};
    ghost use Rattle.h5_layout.specs.Stored.{IsArray};

    ghost Value = { Described };

    ghost view = { λ a. array_of a.fixed a.dims (maxima_in a.maxima) a.fill (layout_in a.layout) };

    ghost invariant = { λ a. AreMaximaOf a.maxima a.dims × (fits a.fixed a.fill ≡ true)
        × IsArray (array_of a.fixed a.dims (maxima_in a.maxima) a.fill (layout_in a.layout)) };
}

impl<'a> ArrayRef<'a> {
    /// An array with this type, these sizes and maxima, this fill value and this layout.
    ///
    /// These are the caller's conditions: there is a maximum for each size; the fill is a value of the type; the
    /// array is no larger than arrays may be; and its data, where the layout names some, have room for its cells.
    pub fn new(
        fixed: Fixed,
        dims: Dims,
        maxima: &'a [Option<u64>],
        fill: i128,
        layout: Layout<'a>,
    ) -> ArrayRef<'a>
        requires maxima { length maxima.now ≡ length dims }
        requires of_type { fits fixed fill ≡ true }
        requires sound { IsArray (array_of fixed dims maxima.now fill (layout_in layout)) }
        ensures { result ≡ array_of fixed dims maxima.now fill (layout_in layout.entry) }
    {
        ArrayRef {
            fixed,
            dims,
            maxima: Maxima::Given(maxima),
            fill,
            layout,
        }
    }

    /// The type of the cells.
    pub fn fixed(&self) -> Fixed
        ensures { result ≡ self.now.fixed }
    {
        self.fixed
    }

    /// The sizes.
    pub fn dims(&self) -> &Dims
        ensures sizes { result.now ≡ self.now.sizes }
        ensures sound { IsArray self.now }
    {
        &self.dims
    }

    /// How many cells there are.
    pub fn cells(&self) -> u64
        ensures exact { result ≡ cells_of self.now.sizes }
        ensures few { result ≤ most_cells }
    {
        self.dims().cells()
    }

    /// How many dimensions there are, each with a size and a maximum.
    pub fn rank(&self) -> usize
        ensures sizes { result ≡ length self.now.sizes }
        ensures maxima { result ≡ length self.now.maxima }
    {
        match &self.maxima {
            Maxima::Read(extent) => extent.rank(),
            Maxima::Given(maxima) => maxima.len(),
        }
    }

    /// The largest size in a dimension, or `None` where it is unlimited.
    pub fn maximum(&self, k: usize) -> Option<u64>
        requires { k < length self.now.sizes }
        ensures { slice_get self.now.maxima k ≡ Some result }
    {
        match &self.maxima {
            Maxima::Read(extent) => extent.maximum(k),
            Maxima::Given(maxima) => maximum_at(maxima, k),
        }
    }

    /// The largest sizes, one for each dimension, written to the front of `room`; `None` is unlimited.
    pub fn maxima<'b>(&self, room: &'b mut [Option<u64>; MAX_RANK]) -> &'b [Option<u64>]
        ensures { result.now ≡ self.now.maxima }
    {
        for k in 0..self.dims.sizes().len() {
            room[k] = self.maximum(k);
        }
        &room[..self.rank()]
    }

    /// The value of a cell that was never written.
    pub fn fill(&self) -> i128
        ensures value { result ≡ self.now.fill }
        ensures of_type { fits self.now.fixed self.now.fill ≡ true }
    {
        self.fill
    }

    /// Where the cells are: in the header; in a block, or in none yet; or in chunks, with a B-tree or none yet.
    pub fn layout(&self) -> &Layout<'a>
        ensures layout { layout_in result.now ≡ self.now.layout }
        ensures sound { IsArray self.now }
    {
        &self.layout
    }

    /// The bytes of the cells of an array that is not chunked, one cell behind another, each in as many bytes as the
    /// type has. `None` where no cell is stored; each reads the fill then.
    ///
    /// That the array is not chunked, and that the block of its data, where it has one, lies in the image, are the
    /// caller's conditions.
    pub fn stored(&self, image: &'a Image) -> Option<&'a [u8]>
        requires { IsUnchunked (length image.now.bytes) self.now.layout }
        ensures { MatchOption result (AreFilled (described_dataset image.now.bytes self.now empty)) (λ bytes.
            AreStored (described_dataset image.now.bytes self.now empty) bytes.now) }
    {
        let cells = self.dims.cells() as usize;
        if cells == 0 {
            return None;
        }
        match data_bytes(&self.layout, image) {
            Some(bytes) => Some(&bytes[..cells * self.fixed.size()]),
            None => None,
        }
    }
}

/// The maximum of this dimension.
fn maximum_at(maxima: &[Option<u64>], k: usize) -> Option<u64>
    requires { k < length maxima.now }
    ensures { slice_get maxima.now k ≡ Some result }
{
    maxima[k]
}

/// The bytes that the cells of a layout stand in, where they stand in any.
fn data_bytes<'b>(layout: &Layout<'b>, image: &'b Image) -> Option<&'b [u8]>
    requires { IsUnchunked (length image.now.bytes) (layout_in layout.now) }
    ensures { MatchOption result (data_in image.now.bytes (layout_in layout.now) ≡ None) (λ bytes.
        data_in image.now.bytes (layout_in layout.now) ≡ Some bytes.now) }
{
    match layout {
        Layout::Compact(bytes) => Some(bytes),
        Layout::Contiguous(block) => block_bytes(image, *block),
        Layout::Chunked { .. } => unreachable!(),
    }
}

/// The bytes of the block, where there is one.
pub(crate) fn block_bytes(image: &Image, block: Option<Block>) -> Option<&[u8]>
    requires { ForSome block (λ b. b.at + b.len ≤ length image.now.bytes) }
    ensures { MatchOption result (block ≡ None) (λ bytes.
        option_map (λ b. part b.at b.len image.now.bytes) block ≡ Some bytes.now) }
{
    let Some(block) = block else {
        return None;
    };
    Some(&image.bytes()[block.at as usize..(block.at + block.len) as usize])
}

/// The value at a place of cells that stand one after another.
pub(crate) fn value_in(fixed: &Fixed, bytes: &[u8], place: usize) -> i128
    requires { place * fixed.now.size + fixed.now.size ≤ length bytes.now }
    ensures { result ≡ value_at_place fixed.now bytes.now place }
{
    value_at(fixed, bytes, place * fixed.size())
}
