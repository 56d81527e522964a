//! An opened image as one value: its bytes, and the tree that they read as (File Format Specification 3.0, sections II.A, III and
//! IV.A).
mod added;
mod attributes;
mod end;
mod links;
mod losses;
mod object;
mod resized;
mod storage;
mod unlinked;
mod write;

ghost use Rattle.std.specs.Prelude.{◌≡◌, ◌≤◌, [], IfOk, IfErr, MatchOption, OnErr, OnOk, Some, None, length};
ghost use Rattle.std.specs.FinMap.{get, len};
ghost use Rattle.h5_model.specs.Format.Limits.{most_numbers};
ghost use Rattle.h5_model.specs.Format.Reads.{Reads};
ghost use Rattle.h5_model.specs.Format.Superblock.{IsSuperblock, end_of_file};
ghost use Rattle.h5_model.specs.Tree.Objects.{Tree};
ghost use Rattle.h5_open.specs.Opened.Refused.{IsOpenRefusedAt, ReadsSome};
ghost use Rattle.h5_open.specs.Opened.Sound.{IsSound, IsObjectOf, IsHeaderIn};
ghost use Rattle.h5_open.specs.Renumbered.Headers.{IsReadAt, table_with};

use crate::index::Index;
use crate::numbers::renumber;
use crate::steps::walk;
pub use added::{ContentBytes, ObjectBytes};
use h5_model::{Cause, OpenFault};
use h5_space::Image;
pub use object::{OpenedContent, OpenedObject};
use std::alloc::{AllocError, Global};
use std::marker::Model;
pub use write::StandingCells;

/// An image that was opened, with what is kept of its objects.
///
/// Callers see the bytes, the free blocks, the header address of each object by its number, the next object number, and the tree that
/// the bytes read as. Object 0 is the root; the others have their numbers in the order in which they were met, depth first and by the
/// names of links, or as `renumber` gives them.
#[derive(Drop)]
pub struct Opened {
    image: Image,
    index: Index,
}

impl Model for Opened {
    ghost use Rattle.h5_open.specs.Opened.Kept.{IsOpened};
    ghost use Rattle.h5_open.specs.Opened.State.{FileState, coded_state, opened_state};

    ghost Value = { FileState };

    ghost coded = { coded_state };

    ghost view = { λ o. opened_state o.image o.index.objects.items };

    ghost invariant = { λ o. IsOpened o.image o.index.objects.items o.index.numbers };
}

impl Opened {
    /// Opens an image: reads the root, and all objects to which links lead from there.
    ///
    /// Each block is looked at once. Memory is taken for the messages that stand in claimed blocks, for a number for
    /// each object, for the nodes and leaves of one tree at a time, and for the addresses of the symbol nodes of the
    /// groups on the way from the root. That the image begins with a superblock, ends where that says, and has no free
    /// block, are the caller's conditions.
    ///
    /// # Errors
    ///
    /// The first rule that is found broken, depth first and by the names of links, with the address of the block that
    /// breaks it. The image is given back.
    ///
    /// - Of each object: what is wrong with its header, and then with the heap, the B-tree, the symbol nodes and the
    ///   names of a group, or with the block or the chunks of an array.
    /// - `TooDeep`, at a symbol node: it has a link 65 names below the root.
    /// - `GroupLinkedTwice`, at the header of a group: a second link leads to it.
    /// - `TooLarge`, at the header of an array: a 65536th link leads to it.
    /// - `LinkCount`, at a header, by the objects' numbers when all are read: its reference count is not the count of
    ///   the links that lead to it.
    /// - `NoMemory`, at any time: memory is refused. An image that reads as a tree is refused by this alone.
    pub fn open(alloc: Global, image: Image) -> Result<Opened, (OpenFault, Image)>
        requires superblock { IsSuperblock image.bytes }
        requires whole { end_of_file image.bytes ≡ length image.bytes }
        requires free { image.free ≡ [] }
        ensures image { IfOk result (λ o. (o.image ≡ image.bytes) × (o.free ≡ [])) }
        ensures sound { IfOk result IsSound }
        // No number was used up before.
        ensures numbers { IfOk result (λ o. o.next ≡ len o.tree) }
        ensures refused { IfErr result (λ e. IsOpenRefusedAt image.bytes e.0.cause e.0.address) }
        ensures only { IfErr result (λ e. ReadsSome image.bytes → e.0.cause ≡ Cause.NoMemory) }
        ensures back { IfErr result (λ e. e.1 ≡ image) }
    {
        match walk(alloc, &image) {
            Ok(index) => Ok(Opened { image, index }),
            Err(fault) => Err((fault, image)),
        }
    }

    /// The image, in which the objects stand. Takes no memory.
    pub fn image(&self) -> &Image
        ensures bytes { result.now.bytes ≡ self.now.image }
        ensures free { result.now.free ≡ self.now.free }
        ensures sound { IsSound self.now }
    {
        &self.image
    }

    /// The image, with what is kept of its objects given up. Takes no memory.
    pub fn into_image(self) -> Image
        ensures bytes { result.bytes ≡ self.image }
        ensures free { result.free ≡ self.free }
        ensures sound { IsSound self }
    {
        self.image
    }

    /// The next object number: how many were given out. Takes no memory.
    pub fn next(&self) -> u32
        ensures next { result ≡ self.now.next }
        ensures sound { IsSound self.now }
    {
        self.index.objects.len() as u32
    }

    /// The root, object 0. Takes no memory.
    pub fn root(&self) -> &OpenedObject
        ensures root { IsObjectOf self.now 0 result.now }
        ensures sound { IsSound self.now }
    {
        self.index.objects[0].as_ref().unwrap()
    }

    /// The object of this number, or `None` where no object has it. Takes no memory.
    pub fn object(&self, number: u32) -> Option<&OpenedObject>
        ensures found { MatchOption result (get self.now.table number ≡ None)
            (λ o. IsObjectOf self.now number o.now) }
        ensures sound { IsSound self.now }
    {
        self.index.objects.get(number as usize)?.as_ref()
    }

    /// The number of the object whose header stands at this address, or `None` where none does. Takes no memory.
    pub fn number_at(&self, header: u64) -> Option<u32>
        ensures found { MatchOption result (IsHeaderIn self.now.table header → ⊥)
            (λ n. get self.now.table n ≡ Some header) }
        ensures sound { IsSound self.now }
    {
        self.index.numbers.get(header)
    }

    /// Gives each object a number: the index at which the address of its header stands in `headers`. An index without
    /// an address is a number without an object, and is not given out again. The image is not read again.
    ///
    /// These are the caller's conditions: the image reads as a tree whose objects have their headers at these
    /// addresses; the list has a place for each number that was given out; and numbers have 32 bits. Takes memory for
    /// a slot for each number that is new.
    ///
    /// # Errors
    ///
    /// `AllocError` if memory is refused. Then nothing changes.
    pub fn renumber(&mut self, headers: &[Option<u64>]) -> Result<(), AllocError>
        requires read { IsReadAt self.old.image headers.now }
        requires given { self.old.next ≤ length headers.now }
        requires few { length headers.now ≤ most_numbers }
        ensures renumbered { OnOk result ((tree : Tree) → Reads self.old.image (table_with headers.now) tree
            → self.new
            ≡ record self.old { table = table_with headers.now; next = length headers.now; tree = tree }) }
        ensures same { OnErr result (self.new ≡ self.old) }
    {
        renumber(&self.image, &mut self.index, headers)
    }
}
