//! Edits of a file. Each is made where its objects stand; to repack a file is to write its image anew (File Format Specification 3.0,
//! sections II.A, III and IV.A).

ghost use Rattle.std.specs.Prelude.{◌≡◌, MatchResult};
ghost use Rattle.h5_model.specs.declared.edits.Edit.TheVariants.{CreateGroup, CreateDataset, HardLink, SoftLink, Unlink, SetAttr, RemoveAttr, Write, Resize};
ghost use Rattle.h5_edit.specs.Carried.{IsRefused};
ghost use Rattle.h5_edit.specs.Repacked.{IsRepackRefused};
ghost use Rattle.h5_edit.specs.Edited.{IsEdited};
ghost use Rattle.h5_file.specs.Anew.{IsRepacked};

use crate::file::File;
use h5_edit::{
    Buffer, HyperRef, create_dataset, create_group, hard_link, open_made, remove_attr, repack,
    resize, set_attr, soft_link, unlink, write,
};
use h5_model::{AttrSpec, Edit, EditFault, Edited, Spec};

impl File {
    /// Carries an edit out. The image is then that of the tree that the edit gives.
    ///
    /// # Errors
    ///
    /// Those of the call for this kind of edit: those of [`File::create_group`] for `Edit::CreateGroup`, and so on. A
    /// refusal changes nothing.
    pub fn edit(&mut self, edit: &Edit) -> Result<Edited, EditFault>
        ensures edited { MatchResult result (IsEdited self.old edit.now self.new) (λ e.
            IsRefused self.old edit.now e × (self.new ≡ self.old)) }
    {
        match edit {
            Edit::CreateGroup { path } => self.create_group(path.as_slice()),
            Edit::CreateDataset { path, spec } => self.create_dataset(path.as_slice(), spec),
            Edit::HardLink { target, path } => self.hard_link(target.as_slice(), path.as_slice()),
            Edit::SoftLink { text, path } => self.soft_link(text.as_slice(), path.as_slice()),
            Edit::Unlink { path } => self.unlink(path.as_slice()),
            Edit::SetAttr { path, attr } => self.set_attr(path.as_slice(), attr),
            Edit::RemoveAttr { path, name } => self.remove_attr(path.as_slice(), name.as_slice()),
            Edit::Resize { path, dims } => self.resize(path.as_slice(), dims.as_slice()),
            Edit::Write {
                path,
                hyper,
                values,
            } => self.write(path.as_slice(), &HyperRef::of(hyper), values.as_slice()),
        }
    }

    /// Creates an empty group at the path.
    ///
    /// Its header, tree and heap come into one block, and the link into its group where that stands. No other object changes,
    /// and no header moves. The image grows by no more than these, 17 nodes of that group's tree, a symbol node, and a segment
    /// twice as long as its and 16 bytes more than that with the name.
    ///
    /// # Errors
    ///
    /// The first of these that holds; they come in the order of their numbers. A refusal changes nothing.
    ///
    /// - `BadPath`: the bytes are no path.
    /// - `PathTooDeep`: the path has more than 64 names.
    /// - `IsRoot`: the path is `/`.
    /// - `NoSuchParent`: a name before the last one is missing.
    /// - `NotAGroup`: a name before the last one leads to no group.
    /// - `AlreadyThere`: the group has a link of the last name already.
    /// - `NameTooLong`: the last name has more than 1023 bytes.
    /// - `TooManyObjects`: no object number is left.
    /// - `TreeTooDeep`: the root of the B-tree of the group that gets the link is at level 15, and all on the way to the
    ///   name is full.
    /// - `ImageFull`: the image, and the bytes that the group and its link may add, are more than 2147483648 bytes.
    /// - `NoMemory`: memory is refused. It may come in place of `TreeTooDeep` and `ImageFull`.
    pub fn create_group(&mut self, path: &[u8]) -> Result<Edited, EditFault>
        ensures edited { MatchResult result (IsEdited self.old (CreateGroup path.now) self.new)
            (λ e. IsRefused self.old (CreateGroup path.now) e × (self.new ≡ self.old)) }
    {
        create_group(self.alloc, &mut self.opened, path)
    }

    /// Creates an array at the path. Each of its cells has the value of the fill.
    ///
    /// Its header, and its cells where they are contiguous, come into one block, and the link into its group where that
    /// stands. No other object changes, and no header moves. The image grows by no more than these, 17 nodes of that group's
    /// tree, a symbol node, and a segment twice as long as its and 16 bytes more than that with the name.
    ///
    /// # Errors
    ///
    /// The first of these that holds; they come in the order of their numbers. A refusal changes nothing.
    ///
    /// - `BadPath`: the bytes are no path.
    /// - `PathTooDeep`: the path has more than 64 names.
    /// - `IsRoot`: the path is `/`.
    /// - `NoSuchParent`: a name before the last one is missing.
    /// - `NotAGroup`: a name before the last one leads to no group.
    /// - `AlreadyThere`: the group has a link of the last name already.
    /// - `NameTooLong`: the last name has more than 1023 bytes.
    /// - `BadSpec`: there are more than 32 sizes; there is not one maximum for each size; a maximum is below its
    ///   size, or another than the size where the array is not in chunks; or there is not one chunk size for each
    ///   size, a chunk size is 0, or one is above its maximum.
    /// - `ChunkTooLarge`: a chunk would have more than 1073741824 bytes.
    /// - `CompactTooLarge`: the cells of a compact array would have more than 65524 bytes.
    /// - `TooManyCells`: the product of the sizes, with sizes of 0 left out, is above 2^40.
    /// - `ValueRange`: the fill is not a value of the type.
    /// - `TooManyObjects`: no object number is left.
    /// - `TreeTooDeep`: the root of the B-tree of the group that gets the link is at level 15, and all on the way to the
    ///   name is full.
    /// - `ImageFull`: the image, and the bytes that the array and its link may add, are more than 2147483648 bytes.
    /// - `NoMemory`: memory is refused. It may come in place of `TreeTooDeep` and `ImageFull`.
    pub fn create_dataset(&mut self, path: &[u8], spec: &Spec) -> Result<Edited, EditFault>
        ensures edited { MatchResult result (IsEdited self.old (CreateDataset path.now spec.now) self.new)
            (λ e. IsRefused self.old (CreateDataset path.now spec.now) e × (self.new ≡ self.old)) }
    {
        create_dataset(self.alloc, &mut self.opened, path, spec)
    }

    /// Gives the array at `target` a second name, `path`.
    ///
    /// The link is put into its group where that stands, and the array's header counts it. No other object changes, and no
    /// header moves. The image grows by no more than 17 nodes of the group's tree, a symbol node, and a segment twice as
    /// long as the group's and 16 bytes more than that with the name.
    ///
    /// # Errors
    ///
    /// The first of these that holds; they come in the order of their numbers. A refusal changes nothing.
    ///
    /// - `BadPath`: the bytes of one of the paths are no path.
    /// - `PathTooDeep`: a path has more than 64 names.
    /// - `IsRoot`: `path` is `/`.
    /// - `NoSuchParent`: a name before the last one of a path is missing.
    /// - `NotAGroup`: a name before the last one of a path leads to no group.
    /// - `NotFound`: nothing stands at `target`, or a soft link.
    /// - `AlreadyThere`: the group has a link of the last name already.
    /// - `NameTooLong`: the last name of `path` has more than 1023 bytes.
    /// - `GroupLink`: a group stands at `target`.
    /// - `TooManyLinks`: 65535 hard links lead to the array already.
    /// - `TreeTooDeep`: the root of the B-tree of the group that gets the link is at level 15, and all on the way to the
    ///   name is full.
    /// - `ImageFull`: the image, and the bytes that a link may add, are more than 2147483648 bytes.
    /// - `NoMemory`: memory is refused.
    pub fn hard_link(&mut self, target: &[u8], path: &[u8]) -> Result<Edited, EditFault>
        ensures edited { MatchResult result (IsEdited self.old (HardLink target.now path.now) self.new)
            (λ e. IsRefused self.old (HardLink target.now path.now) e × (self.new ≡ self.old)) }
    {
        hard_link(&mut self.opened, target, path)
    }

    /// Makes a soft link at the path, with this text. A soft link is never followed.
    ///
    /// The link is put into its group where that stands. No other object changes, and no header moves. The image grows as
    /// for a hard link, with the text beside the name.
    ///
    /// # Errors
    ///
    /// The first of these that holds; they come in the order of their numbers. A refusal changes nothing.
    ///
    /// - `BadPath`: the bytes are no path; or the text is empty, or has a zero byte.
    /// - `PathTooDeep`: the path has more than 64 names.
    /// - `IsRoot`: the path is `/`.
    /// - `NoSuchParent`: a name before the last one is missing.
    /// - `NotAGroup`: a name before the last one leads to no group.
    /// - `AlreadyThere`: the group has a link of the last name already.
    /// - `NameTooLong`: the last name, or the text, has more than 1023 bytes.
    /// - `TreeTooDeep`: the root of the B-tree of the group that gets the link is at level 15, and all on the way to the
    ///   name is full.
    /// - `ImageFull`: the image, and the bytes that a link may add, are more than 2147483648 bytes.
    /// - `NoMemory`: memory is refused.
    pub fn soft_link(&mut self, text: &[u8], path: &[u8]) -> Result<Edited, EditFault>
        ensures edited { MatchResult result (IsEdited self.old (SoftLink text.now path.now) self.new)
            (λ e. IsRefused self.old (SoftLink text.now path.now) e × (self.new ≡ self.old)) }
    {
        soft_link(&mut self.opened, text, path)
    }

    /// Takes the link at the path away. What no path reaches then goes too: the object to which it was the last hard link,
    /// and of all below it what is linked nowhere else. The blocks of these are given back, and their numbers are not used
    /// again. An array that is linked elsewhere stays; its header counts as many links less as are lost. All objects that
    /// stay keep their numbers.
    ///
    /// The link is taken out of its group where that stands. Beside that group and what stands below the link no object
    /// changes, no header moves, and the image keeps its length.
    ///
    /// # Errors
    ///
    /// The first of these that holds; they come in the order of their numbers. A refusal changes nothing.
    ///
    /// - `BadPath`: the bytes are no path.
    /// - `PathTooDeep`: the path has more than 64 names.
    /// - `IsRoot`: the path is `/`.
    /// - `NoSuchParent`: a name before the last one is missing.
    /// - `NotAGroup`: a name before the last one leads to no group.
    /// - `NotFound`: the last name is missing.
    /// - `NoMemory`: memory is refused.
    pub fn unlink(&mut self, path: &[u8]) -> Result<Edited, EditFault>
        ensures edited { MatchResult result (IsEdited self.old (Unlink path.now) self.new)
            (λ e. IsRefused self.old (Unlink path.now) e × (self.new ≡ self.old)) }
    {
        unlink(self.alloc, &mut self.opened, path)
    }

    /// Sets an attribute of the object at the path: adds it, or puts it in place of the attribute with the same name.
    ///
    /// Only the object's header changes, which keeps its address. Where no NIL message of it is large enough, a block is
    /// taken for the new message, and one that moves there.
    ///
    /// # Errors
    ///
    /// The first of these that holds; they come in the order of their numbers. A refusal changes nothing.
    ///
    /// - `BadPath`: the bytes are no path.
    /// - `PathTooDeep`: the path has more than 64 names.
    /// - `NoSuchParent`: a name before the last one is missing.
    /// - `NotAGroup`: a name before the last one leads to no group.
    /// - `NotFound`: the last name is missing, or a soft link stands there.
    /// - `NameTooLong`: the attribute's name has more than 1023 bytes.
    /// - `BadSpec`: the attribute's name is empty or has a zero byte, or there are more than 32 sizes.
    /// - `TooManyCells`: the product of the sizes, with sizes of 0 left out, is above 2^40.
    /// - `ValueCount`: there is not one value for each cell.
    /// - `ValueRange`: a value is not one of the type.
    /// - `AttributeTooLarge`: the body of the message would have more than 65528 bytes.
    /// - `HeaderFull`: the header has 65534 messages or more.
    /// - `ImageFull`: the image, the body of the message and 32 bytes are more than 2147483648 bytes.
    /// - `NoMemory`: memory is refused. It may come in place of `HeaderFull` and `ImageFull`.
    pub fn set_attr(&mut self, path: &[u8], attr: &AttrSpec) -> Result<Edited, EditFault>
        ensures edited { MatchResult result (IsEdited self.old (SetAttr path.now attr.now) self.new)
            (λ e. IsRefused self.old (SetAttr path.now attr.now) e × (self.new ≡ self.old)) }
    {
        set_attr(self.alloc, &mut self.opened, path, attr)
    }

    /// Removes the attribute with this name from the object at the path. Its message becomes NIL, and the image keeps
    /// its length. Takes no memory.
    ///
    /// # Errors
    ///
    /// The first of these that holds; they come in the order of their numbers. A refusal changes nothing.
    ///
    /// - `BadPath`: the bytes are no path.
    /// - `PathTooDeep`: the path has more than 64 names.
    /// - `NoSuchParent`: a name before the last one is missing.
    /// - `NotAGroup`: a name before the last one leads to no group.
    /// - `NotFound`: the last name is missing, or a soft link stands there.
    /// - `NoSuchAttribute`: the object has no attribute with this name.
    pub fn remove_attr(&mut self, path: &[u8], name: &[u8]) -> Result<Edited, EditFault>
        ensures edited { MatchResult result (IsEdited self.old (RemoveAttr path.now name.now) self.new)
            (λ e. IsRefused self.old (RemoveAttr path.now name.now) e × (self.new ≡ self.old)) }
    {
        remove_attr(&mut self.opened, path, name)
    }

    /// Gives the array in chunks at the path other sizes, in cells, one for each dimension. A cell that is inside the
    /// old and the new sizes keeps its value. The other cells that the array then has are the fill. Cells outside the
    /// new sizes are gone for good: the chunks that hold no cell any more go, and in the others such a cell is the fill.
    ///
    /// The array is changed where it stands. No other object changes, and no header moves. The image keeps its length
    /// where the Dataspace message has maxima. Where it has none it is replaced by one that has, for which the image
    /// grows by at most 40 bytes and 16 for each dimension.
    ///
    /// # Errors
    ///
    /// The first of these that holds; they come in the order of their numbers. A refusal changes nothing.
    ///
    /// - `BadPath`: the bytes are no path.
    /// - `PathTooDeep`: the path has more than 64 names.
    /// - `NoSuchParent`: a name before the last one is missing.
    /// - `NotAGroup`: a name before the last one leads to no group.
    /// - `NotFound`: the last name is missing.
    /// - `NotADataset`: a group or a soft link stands there.
    /// - `RankMismatch`: there are not as many sizes as the array has.
    /// - `NotChunked`: the array is not in chunks.
    /// - `AboveMaximum`: a size is above its maximum.
    /// - `TooManyCells`: the product of the sizes, with sizes of 0 left out, is above 2^40.
    /// - `HeaderFull`: the Dataspace message of the array has no maxima, so it needs a new one, and the header has
    ///   65534 messages or more.
    /// - `ImageFull`: the image, and the bytes that a Dataspace message may add where a new one is needed, are more than
    ///   2147483648 bytes.
    /// - `NoMemory`: memory is refused. It may come in place of `HeaderFull` and `ImageFull`.
    pub fn resize(&mut self, path: &[u8], dims: &[u64]) -> Result<Edited, EditFault>
        ensures edited { MatchResult result (IsEdited self.old (Resize path.now dims.now) self.new)
            (λ e. IsRefused self.old (Resize path.now dims.now) e × (self.new ≡ self.old)) }
    {
        resize(self.alloc, &mut self.opened, path, dims)
    }

    /// Writes values into the selected cells of the array at the path: one value for each cell, in row-major order.
    ///
    /// The storage that is missing is made first, where the array stands: the block of a contiguous array, or the chunks
    /// that hold a selected cell. The other cells of that storage are the fill. Then the cells are written where they
    /// stand. No other object changes, and no header moves. The image keeps its length if all selected cells are stored.
    /// Otherwise it grows by no more than that block, or the missing chunks with 17 nodes of their tree for each, and a
    /// node.
    ///
    /// # Errors
    ///
    /// The first of these that holds; they come in the order of their numbers. A refusal changes nothing.
    ///
    /// - `BadPath`: the bytes are no path.
    /// - `PathTooDeep`: the path has more than 64 names.
    /// - `NoSuchParent`: a name before the last one is missing.
    /// - `NotAGroup`: a name before the last one leads to no group.
    /// - `NotFound`: the last name is missing.
    /// - `NotADataset`: a group or a soft link stands there.
    /// - `RankMismatch`: a list has not one number for each dimension of the array.
    /// - `StrideZero`: a stride is 0.
    /// - `BlocksOverlap`: a stride is below its block, and there is more than one block.
    /// - `OutOfExtent`: a selected cell is outside the sizes.
    /// - `ValueCount`: there is not one value for each selected cell.
    /// - `ValueRange`: a value is not one of the type.
    /// - `TreeTooDeep`: one of the missing chunks, in its turn, finds the root of the array's B-tree at level 15 and all
    ///   on the way to the chunk full. Where the first one does, always; where another does, `ImageFull` may come in its
    ///   place.
    /// - `ImageFull`: the image, and the bytes that the missing storage may add, are more than 2147483648 bytes.
    /// - `NoMemory`: memory is refused. It may come in place of `TreeTooDeep` and `ImageFull`.
    pub fn write(
        &mut self,
        path: &[u8],
        hyper: &HyperRef<'_>,
        values: &[i128],
    ) -> Result<Edited, EditFault>
        ensures edited { MatchResult result (IsEdited self.old (Write path.now hyper.now values.now) self.new)
            (λ e. IsRefused self.old (Write path.now hyper.now values.now) e × (self.new ≡ self.old)) }
    {
        self.write_from(path, hyper, &Buffer::numbers(values))
    }

    /// Writes values from a buffer: numbers, or the bytes of cells of a type in memory, which need not be the array's. It
    /// makes no copy of them. Else as [`File::write`].
    ///
    /// # Errors
    ///
    /// Those of [`File::write`]. A refusal changes nothing.
    pub fn write_from(
        &mut self,
        path: &[u8],
        hyper: &HyperRef<'_>,
        values: &Buffer<'_>,
    ) -> Result<Edited, EditFault>
        ensures edited { MatchResult result (IsEdited self.old (Write path.now hyper.now values.now) self.new)
            (λ e. IsRefused self.old (Write path.now hyper.now values.now) e × (self.new ≡ self.old)) }
    {
        write(self.alloc, &mut self.opened, path, hyper, values)
    }

    /// Writes the image anew, without bytes that nothing uses: each block stands behind the one before it. The tree, the
    /// numbers of its objects, the version of the superblock and all K values stay. Stored chunks that hold no cell of
    /// their array go.
    ///
    /// # Errors
    ///
    /// A refusal changes nothing.
    ///
    /// - `ImageFull`: the image written anew would have more than 2147483648 bytes.
    /// - `NoMemory`: memory is refused.
    pub fn repack(&mut self) -> Result<(), EditFault>
        ensures { MatchResult result (λ _. IsRepacked self.old self.new) (λ e.
            IsRepackRefused self.old e × (self.new ≡ self.old)) }
    {
        let made = repack(self.alloc, &self.opened)?;
        self.opened = open_made(self.alloc, made.image, &made.headers)?;
        Ok(())
    }
}
