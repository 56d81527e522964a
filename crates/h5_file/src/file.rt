//! A file in memory.

ghost use Rattle.std.specs.Prelude.{◌≡◌, [], IfOk, IfErr, MatchOption, MatchResult, OnErr, Some, length, map};
ghost use Rattle.h5_model.specs.Faults.Breaches.{up_to_end};
ghost use Rattle.h5_model.specs.Edits.Refusal.{first_holding};
ghost use Rattle.h5_model.specs.Scripts.Reading.{path_rules, attribute_rules, cell_rules, dataset_rules, selection_rules};
ghost use Rattle.h5_model.specs.Tree.Objects.{dataset_of};
ghost use Rattle.h5_model.specs.Format.Superblock.{IsSuperblock, end_of_file};
ghost use Rattle.std.specs.FinMap.{len};
ghost use Rattle.h5_edit.specs.Opened.Refused.{IsOpenRefusedAt, ReadsSome};
ghost use Rattle.h5_edit.specs.Opened.Sound.{IsSound, IsWholeFile};
ghost use Rattle.h5_edit.specs.Fits.Laws.{AreBytes};
ghost use Rattle.h5_edit.specs.Listed.{IsNoGroup, AreGroupLinks};
ghost use Rattle.h5_edit.specs.Look.{HasKind, HasLinksNamed, HasCell, HasAttribute, HasAttributeNames, HasAttributesOf, IsListRefused, IsNoDataset, IsUnlisted};
ghost use Rattle.h5_edit.specs.Found.{HasFound, IsUnfound};
ghost use Rattle.h5_edit.specs.Place.{IsNumber, IsNoObject};
ghost use Rattle.h5_edit.specs.Selected.{HasRuns};
ghost use Rattle.h5_space.specs.Space.{IsSpaced};
ghost use Rattle.h5_file.specs.State.{created_state};
ghost use Rattle.h5_file.specs.DatasetAt.{IsDatasetAt};
ghost use Rattle.h5_file.specs.Opening.{IsReadable, Refused};

use crate::open_error::OpenError;
use h5_edit::{
    AttrRef, Found, HyperRef, Kind, LinkNames, Opened, SelectedRuns, StoredArray, array_at,
    array_of, attributes_at, empty_image, found_at, kind_at, links_of, names_at,
    names_of_attributes, number_at, one_attribute, one_cell, open_written, runs_at,
};
use h5_model::{Cause, EditFault, Link, ObjectNo, OpenFault};
use h5_space::{Image, end_of_file, superblock_fault};
use std::alloc::{AllocError, Global};
use std::marker::Model;

/// A file: the bytes of its image, and what is kept of the objects in it.
///
/// Contracts see the bytes, the free blocks, the address of each object's header, the next object number, and the
/// tree that the bytes read as. `Debug` leaves all of it out.
#[derive(Drop)]
#[derive_where(Debug)]
pub struct File {
    #[derive_where(skip)]
    pub(crate) opened: Opened,
    #[derive_where(skip)]
    pub(crate) alloc: Global,
}

impl Model for File {
    ghost use Rattle.h5_edit.specs.Opened.State.{FileState, coded_state};

    ghost Value = { FileState };

    ghost coded = { coded_state };

    ghost view = { λ f. f.opened };
}

impl File {
    /// A file with an empty root group: 800 bytes, with a superblock of version 0, leaf K 4 and internal K 16.
    ///
    /// # Errors
    ///
    /// `AllocError` if memory is refused.
    pub fn create(alloc: Global) -> Result<File, AllocError>
        ensures created { IfOk result (λ f. f ≡ created_state) }
        ensures sound { IfOk result IsSound }
        ensures whole { IfOk result IsWholeFile }
    {
        let image = Image::new(alloc, empty_image(alloc)?);
        let opened = open_written(alloc, image)?;
        Ok(File { opened, alloc })
    }

    /// The file that these bytes are, up to their end of file address. Bytes behind that are dropped.
    ///
    /// Each block is looked at once. If bytes follow the end of file address, the bytes before it are copied first.
    ///
    /// # Errors
    ///
    /// The fault says which rule of docs/FORMAT.md is broken, and at which address: the first broken rule of the
    /// superblock (File Format Specification 3.0, section II.A), or else the first one on the way from there. Bytes
    /// that are a tree are refused as [`Cause::NoMemory`] alone. [`OpenError`] gives the bytes back whole.
    pub fn open(alloc: Global, bytes: Vec<u8>) -> Result<File, OpenError>
        ensures image { IfOk result (λ f. (f.image ≡ up_to_end bytes.items) × (f.free ≡ [])) }
        ensures sound { IfOk result IsSound }
        ensures refused { IfErr result (λ e. Refused bytes.items e.fault) }
        // Bytes that are a tree are refused for want of memory alone.
        ensures only { IfErr result (λ e. IsReadable bytes.items → e.fault.cause ≡ Cause.NoMemory) }
        // No number was used up before.
        ensures numbers { IfOk result (λ f. f.next ≡ len f.tree) }
        ensures back { IfErr result (λ e. e.bytes.items ≡ bytes.items) }
    {
        if let Some(fault) = superblock_fault(&bytes) {
            return Err(OpenError { fault, bytes });
        }
        let end = end_of_file(&bytes) as usize;
        if end < bytes.len() {
            return open_front(alloc, bytes, end);
        }
        match Opened::open(alloc, Image::new(alloc, bytes)) {
            Ok(opened) => Ok(File { opened, alloc }),
            Err((fault, image)) => Err(OpenError {
                fault,
                bytes: image.into_bytes(),
            }),
        }
    }

    /// The bytes of the file, from the superblock to the end of file address.
    pub fn image(&self) -> &[u8]
        ensures bytes { result.now ≡ self.now.image }
        ensures sound { IsSound self.now }
        ensures low { AreBytes self.now.image }
        // Free neighbours are joined.
        ensures joined { IsSpaced self.now.free (length self.now.image) }
    {
        let image = self.opened.image();
        // No two free blocks of an image stand side by side.
        let _free = image.free();
        let bytes = image.bytes();
        bytes
    }

    /// The bytes of the file; the file is given up.
    pub fn into_image(self) -> Vec<u8>
        ensures bytes { result.items ≡ self.image }
        ensures sound { IsSound self }
    {
        self.opened.into_image().into_bytes()
    }

    /// What the link at the path leads to. The path is `/`, or it has a `/` before each of up to 64 names. Takes no
    /// memory.
    ///
    /// # Errors
    ///
    /// Where several hold, the one with the lowest number:
    ///
    /// - `BadPath`: the bytes are no path.
    /// - `PathTooDeep`: the path has more than 64 names.
    /// - `NoSuchParent`: a name before the last one is missing.
    /// - `NotAGroup`: a name before the last one leads to no group.
    /// - `NotFound`: the last name is missing.
    pub fn kind(&self, path: &[u8]) -> Result<Kind<'_>, EditFault>
        ensures { MatchResult result (HasKind self.now.tree path.now) (λ e.
            first_holding (path_rules self.now.tree path.now) ≡ Some e) }
    {
        kind_at(&self.opened, path)
    }

    /// What stands at the path, with all that it holds. A soft link is not followed. Takes memory for a reference to
    /// each attribute.
    ///
    /// # Errors
    ///
    /// Those of [`File::kind`]; last, `NoMemory`: memory is refused. No other refusal holds then.
    pub fn find(&self, path: &[u8]) -> Result<Found<'_>, EditFault>
        ensures { MatchResult result (HasFound self.now.tree path.now) (IsUnfound self.now.tree path.now) }
    {
        found_at(self.alloc, &self.opened, path)
    }

    /// The names in the group at the path, one by one, in ascending order of their bytes. Takes memory for the addresses
    /// of the group's symbol nodes.
    ///
    /// # Errors
    ///
    /// Those of [`File::kind`]; `NotAGroup` if no group stands at the path; last, `NoMemory`: memory is refused. No other
    /// refusal holds then.
    pub fn list(&self, path: &[u8]) -> Result<LinkNames<'_>, EditFault>
        ensures { MatchResult result (HasLinksNamed self.now.tree path.now)
            (IsListRefused self.now.tree path.now) }
    {
        names_at(self.alloc, &self.opened, path)
    }

    /// The names of the attributes of the object at the path, in ascending order of their bytes.
    ///
    /// # Errors
    ///
    /// Those of [`File::kind`]; `NotFound` if a soft link stands at the path; last, `NoMemory`: memory is refused. No other
    /// refusal holds then.
    pub fn attrs(&self, path: &[u8]) -> Result<Vec<&[u8]>, EditFault>
        ensures { MatchResult result (λ names.
            HasAttributeNames self.now.tree path.now (map (λ name. name.now) names.items))
            (IsUnlisted self.now.tree path.now) }
    {
        names_of_attributes(self.alloc, &self.opened, path)
    }

    /// The attributes of the object at the path, in ascending order of the bytes of their names.
    ///
    /// # Errors
    ///
    /// Those of [`File::attrs`].
    pub fn attributes(&self, path: &[u8]) -> Result<Vec<AttrRef<'_>>, EditFault>
        ensures { MatchResult result (λ list.
            HasAttributesOf self.now.tree path.now list.items) (IsUnlisted self.now.tree path.now) }
    {
        attributes_at(self.alloc, &self.opened, path)
    }

    /// The attribute with this name of the object at the path. Takes no memory.
    ///
    /// # Errors
    ///
    /// Those of [`File::kind`]; `NotFound` if a soft link stands at the path; then `NoSuchAttribute` if the object
    /// has no attribute with this name.
    pub fn get_attr(&self, path: &[u8], name: &[u8]) -> Result<AttrRef<'_>, EditFault>
        ensures { MatchResult result (HasAttribute self.now.tree path.now name.now) (λ e.
            first_holding (attribute_rules self.now.tree path.now name.now) ≡ Some e) }
    {
        one_attribute(&self.opened, path, name)
    }

    /// The value of one cell of the array at the path. The index has one number for each dimension, in cells. Takes
    /// no memory.
    ///
    /// # Errors
    ///
    /// Those of [`File::kind`]; then the first of these that holds:
    ///
    /// - `NotADataset`: no array stands at the path.
    /// - `RankMismatch`: the index has not one number for each dimension.
    /// - `OutOfExtent`: a number is not below the size of its dimension.
    pub fn cell(&self, path: &[u8], index: &[u64]) -> Result<i128, EditFault>
        ensures { MatchResult result (HasCell self.now.tree path.now index.now) (λ e.
            first_holding (cell_rules self.now.tree path.now index.now) ≡ Some e) }
    {
        one_cell(&self.opened, path, index)
    }

    /// The selected cells of the array at the path, as runs: pieces of consecutive cells, in row-major order, as they stand
    /// in the image. The selection has four lists, with one number for each dimension. Neither the call nor a step takes
    /// memory.
    ///
    /// # Errors
    ///
    /// Those of [`File::kind`]; then the first of these that holds:
    ///
    /// - `NotADataset`: no array stands at the path.
    /// - `RankMismatch`: a list has not one number for each dimension.
    /// - `StrideZero`: a stride is 0.
    /// - `BlocksOverlap`: a stride is below its block, and there is more than one block.
    /// - `OutOfExtent`: a selected cell is outside the sizes.
    pub fn runs<'a>(
        &'a self,
        path: &[u8],
        hyper: &HyperRef<'a>,
    ) -> Result<SelectedRuns<'a>, EditFault>
        ensures { MatchResult result (HasRuns self.now.tree path.now hyper.now) (λ e.
            first_holding (selection_rules self.now.tree path.now hyper.now) ≡ Some e) }
    {
        runs_at(&self.opened, path, hyper)
    }

    /// The array at the path. Takes no memory.
    ///
    /// # Errors
    ///
    /// Those of [`File::kind`], and `NotADataset` if no array stands at the path.
    pub fn dataset(&self, path: &[u8]) -> Result<StoredArray<'_>, EditFault>
        ensures { MatchResult result (IsDatasetAt self.now.tree path.now) (λ e.
            first_holding (dataset_rules self.now.tree path.now) ≡ Some e) }
    {
        let (_number, array) = array_at(&self.opened, path)?;
        Ok(array)
    }

    /// The number of the object at the path. The object keeps it while the file is open. Takes no memory.
    ///
    /// # Errors
    ///
    /// Those of [`File::kind`], and `NotFound` if a soft link stands at the path.
    pub fn number(&self, path: &[u8]) -> Result<ObjectNo, EditFault>
        ensures { MatchResult result (λ number.
            IsNumber self.now.tree path.now number.0) (IsNoObject self.now.tree path.now) }
    {
        number_at(&self.opened, path)
    }

    /// The links of the group with this number, in ascending order of the bytes of their names; `Ok(None)` if no
    /// group has the number.
    ///
    /// Takes memory for a reference to each link, and none where no group has the number.
    ///
    /// # Errors
    ///
    /// `AllocError` if a group has the number, and memory is refused.
    pub fn links(&self, number: ObjectNo) -> Result<Option<Vec<Link<'_, ObjectNo>>>, AllocError>
        ensures found { IfOk result (λ found.
            MatchOption found (IsNoGroup self.now.tree number.0) (λ links.
            AreGroupLinks self.now.tree number.0 links.items)) }
        ensures refused { OnErr result (IsNoGroup self.now.tree number.0 → ⊥) }
    {
        links_of(self.alloc, &self.opened, number)
    }

    /// The array with this number, or `None` if no array has it. Takes no memory.
    pub fn array(&self, number: ObjectNo) -> Option<StoredArray<'_>>
        ensures { MatchOption result (IsNoDataset self.now.tree number.0) (λ array.
            dataset_of self.now.tree number.0 ≡ Some array) }
    {
        array_of(&self.opened, number)
    }
}

/// The file of the first bytes, up to their end of file address.
fn open_front(alloc: Global, bytes: Vec<u8>, end: usize) -> Result<File, OpenError>
    requires superblock { IsSuperblock bytes.items }
    requires end { end ≡ end_of_file bytes.items }
    ensures image { IfOk result (λ f. (f.image ≡ up_to_end bytes.items) × (f.free ≡ [])) }
    ensures sound { IfOk result IsSound }
    ensures numbers { IfOk result (λ f. f.next ≡ len f.tree) }
    ensures refused { IfErr result (λ e.
        IsOpenRefusedAt (up_to_end bytes.items) e.fault.cause e.fault.address) }
    ensures only { IfErr result (λ e. ReadsSome (up_to_end bytes.items) → e.fault.cause ≡ Cause.NoMemory) }
    ensures back { IfErr result (λ e. e.bytes.items ≡ bytes.items) }
{
    let Ok(front) = Vec::from_slice(alloc, &bytes[..end]) else {
        return Err(OpenError {
            fault: OpenFault::from(AllocError),
            bytes,
        });
    };
    match Opened::open(alloc, Image::new(alloc, front)) {
        Ok(opened) => Ok(File { opened, alloc }),
        Err((fault, _front)) => Err(OpenError { fault, bytes }),
    }
}
