//! Edits of a session: those of its file, which the open views follow.

ghost use Rattle.std.specs.Prelude.{◌≡◌, ℕ, MatchResult};
ghost use Rattle.h5_model.specs.declared.edits.Edit.{Edit as TheEdit};
ghost use Rattle.h5_model.specs.declared.edits.Edit.TheVariants.{CreateGroup, CreateDataset, HardLink, SoftLink, Unlink, SetAttr, RemoveAttr, Write, Resize};
ghost use Rattle.h5_edit.specs.Carried.{IsRefused};
ghost use Rattle.h5_edit.specs.Opened.State.{FileState};
ghost use Rattle.h5_file.specs.Following.{HaveFollowed, IsToFollow};
ghost use Rattle.h5_file.specs.Session.{IsSessionEdited};

use crate::file::File;
use crate::open_views::OpenViews;
use crate::session::Session;
use crate::touched::Touched;
use h5_edit::{Buffer, HyperRef};
use h5_model::{AttrSpec, Edit, EditFault, Edited, Spec};

impl Session {
    /// Carries an edit out. The open views of the array that it writes or resizes follow: in each view that keeps bytes,
    /// the cells in each chunk that the edit and the view both meet are set to the array's. `refreshed` is how many chunks
    /// these are, over all views; an array without chunks is one chunk. A view whose cells can be lent now keeps none of
    /// them any more.
    ///
    /// Views take no memory for it, and views of other arrays no time. Where none is open, nothing is looked at for them.
    ///
    /// # Errors
    ///
    /// Those of [`File::edit`]. A refusal changes nothing.
    pub fn edit(&mut self, edit: &Edit) -> Result<Edited, EditFault>
        ensures edited { MatchResult result (IsSessionEdited self.old edit.now self.new) (λ e.
            IsRefused self.old.file edit.now e × (self.new ≡ self.old)) }
    {
        if self.views.is_empty() {
            return self.file.edit(edit);
        }
        self.edit_with_views(edit)
    }

    /// The same, where views follow.
    fn edit_with_views(&mut self, edit: &Edit) -> Result<Edited, EditFault>
        ensures edited { MatchResult result (IsSessionEdited self.old edit.now self.new) (λ e.
            IsRefused self.old.file edit.now e × (self.new ≡ self.old)) }
    {
        let touched = Touched::of(&self.file, edit);
        let edited = self.file.edit(edit)?;
        Ok(follow(&self.file, &mut self.views, edited, touched))
    }

    /// Creates an empty group at the path. What views show stays.
    ///
    /// # Errors
    ///
    /// Those of [`File::create_group`]. A refusal changes nothing.
    pub fn create_group(&mut self, path: &[u8]) -> Result<Edited, EditFault>
        ensures edited { MatchResult result (IsSessionEdited self.old (CreateGroup path.now) self.new)
            (λ e. IsRefused self.old.file (CreateGroup path.now) e × (self.new ≡ self.old)) }
    {
        self.file.create_group(path)
    }

    /// Creates an array at the path. What views show stays.
    ///
    /// # Errors
    ///
    /// Those of [`File::create_dataset`]. A refusal changes nothing.
    pub fn create_dataset(&mut self, path: &[u8], spec: &Spec) -> Result<Edited, EditFault>
        ensures edited { MatchResult result
            (IsSessionEdited self.old (CreateDataset path.now spec.now) self.new)
            (λ e. IsRefused self.old.file (CreateDataset path.now spec.now) e × (self.new ≡ self.old)) }
    {
        self.file.create_dataset(path, spec)
    }

    /// Gives the array at `target` a second name, `path`. What views show stays.
    ///
    /// # Errors
    ///
    /// Those of [`File::hard_link`]. A refusal changes nothing.
    pub fn hard_link(&mut self, target: &[u8], path: &[u8]) -> Result<Edited, EditFault>
        ensures edited { MatchResult result (IsSessionEdited self.old (HardLink target.now path.now) self.new)
            (λ e. IsRefused self.old.file (HardLink target.now path.now) e × (self.new ≡ self.old)) }
    {
        self.file.hard_link(target, path)
    }

    /// Makes a soft link at the path, with this text. What views show stays.
    ///
    /// # Errors
    ///
    /// Those of [`File::soft_link`]. A refusal changes nothing.
    pub fn soft_link(&mut self, text: &[u8], path: &[u8]) -> Result<Edited, EditFault>
        ensures edited { MatchResult result (IsSessionEdited self.old (SoftLink text.now path.now) self.new)
            (λ e. IsRefused self.old.file (SoftLink text.now path.now) e × (self.new ≡ self.old)) }
    {
        self.file.soft_link(text, path)
    }

    /// Takes the link at the path away, and what no path reaches then. The views of an array that goes with it stay open,
    /// and show from then on that it is gone.
    ///
    /// # Errors
    ///
    /// Those of [`File::unlink`]. A refusal changes nothing.
    pub fn unlink(&mut self, path: &[u8]) -> Result<Edited, EditFault>
        ensures edited { MatchResult result (IsSessionEdited self.old (Unlink path.now) self.new)
            (λ e. IsRefused self.old.file (Unlink path.now) e × (self.new ≡ self.old)) }
    {
        self.file.unlink(path)
    }

    /// Sets an attribute of the object at the path. What views show stays.
    ///
    /// # Errors
    ///
    /// Those of [`File::set_attr`]. A refusal changes nothing.
    pub fn set_attr(&mut self, path: &[u8], attr: &AttrSpec) -> Result<Edited, EditFault>
        ensures edited { MatchResult result (IsSessionEdited self.old (SetAttr path.now attr.now) self.new)
            (λ e. IsRefused self.old.file (SetAttr path.now attr.now) e × (self.new ≡ self.old)) }
    {
        self.file.set_attr(path, attr)
    }

    /// Removes the attribute with this name from the object at the path. What views show stays.
    ///
    /// # Errors
    ///
    /// Those of [`File::remove_attr`]. A refusal changes nothing.
    pub fn remove_attr(&mut self, path: &[u8], name: &[u8]) -> Result<Edited, EditFault>
        ensures edited { MatchResult result (IsSessionEdited self.old (RemoveAttr path.now name.now) self.new)
            (λ e. IsRefused self.old.file (RemoveAttr path.now name.now) e × (self.new ≡ self.old)) }
    {
        self.file.remove_attr(path, name)
    }

    /// Gives the array in chunks at the path other sizes. Its open views follow, as they follow [`Session::edit`].
    ///
    /// # Errors
    ///
    /// Those of [`File::resize`]. A refusal changes nothing.
    pub fn resize(&mut self, path: &[u8], dims: &[u64]) -> Result<Edited, EditFault>
        ensures edited { MatchResult result (IsSessionEdited self.old (Resize path.now dims.now) self.new)
            (λ e. IsRefused self.old.file (Resize path.now dims.now) e × (self.new ≡ self.old)) }
    {
        if self.views.is_empty() {
            return self.file.resize(path, dims);
        }
        self.resize_with_views(path, dims)
    }

    /// The same, where views follow.
    fn resize_with_views(&mut self, path: &[u8], dims: &[u64]) -> Result<Edited, EditFault>
        ensures edited { MatchResult result (IsSessionEdited self.old (Resize path.now dims.now) self.new)
            (λ e. IsRefused self.old.file (Resize path.now dims.now) e × (self.new ≡ self.old)) }
    {
        let touched = Touched::lost(&self.file, path, dims);
        let edited = self.file.resize(path, dims)?;
        Ok(follow(&self.file, &mut self.views, edited, touched))
    }

    /// Writes values into the selected cells of the array at the path: one value for each cell, in row-major order. Its
    /// open views follow, as they follow [`Session::edit`].
    ///
    /// # Errors
    ///
    /// Those of [`File::write`]. A refusal changes nothing.
    pub fn write(
        &mut self,
        path: &[u8],
        hyper: &HyperRef<'_>,
        values: &[i128],
    ) -> Result<Edited, EditFault>
        ensures edited { MatchResult result
            (IsSessionEdited self.old (Write path.now hyper.now values.now) self.new)
            (λ e. IsRefused self.old.file (Write path.now hyper.now values.now) e × (self.new ≡ self.old)) }
    {
        self.write_from(path, hyper, &Buffer::numbers(values))
    }

    /// Writes values from a buffer: numbers, or the bytes of cells of a type in memory, which need not be the array's. It
    /// makes no copy of them. Else as [`Session::write`].
    ///
    /// # Errors
    ///
    /// Those of [`File::write`]. A refusal changes nothing.
    pub fn write_from(
        &mut self,
        path: &[u8],
        hyper: &HyperRef<'_>,
        values: &Buffer<'_>,
    ) -> Result<Edited, EditFault>
        ensures edited { MatchResult result
            (IsSessionEdited self.old (Write path.now hyper.now values.now) self.new)
            (λ e. IsRefused self.old.file (Write path.now hyper.now values.now) e × (self.new ≡ self.old)) }
    {
        if self.views.is_empty() {
            return self.file.write_from(path, hyper, values);
        }
        self.write_with_views(path, hyper, values)
    }

    /// The same, where views follow.
    fn write_with_views(
        &mut self,
        path: &[u8],
        hyper: &HyperRef<'_>,
        values: &Buffer<'_>,
    ) -> Result<Edited, EditFault>
        ensures edited { MatchResult result
            (IsSessionEdited self.old (Write path.now hyper.now values.now) self.new)
            (λ e. IsRefused self.old.file (Write path.now hyper.now values.now) e × (self.new ≡ self.old)) }
    {
        let touched = Touched::written(&self.file, hyper);
        let edited = self.file.write_from(path, hyper, values)?;
        Ok(follow(&self.file, &mut self.views, edited, touched))
    }
}

/// Lets the open views follow an edit that was carried out on the file, of which these cells were touched. The answer then tells how many
/// boxes were patched.
fn follow(
    file: &File,
    views: &mut OpenViews,
    edited: Edited,
    touched: Option<Touched<'_>>,
) -> Edited
    requires { (before : FileState) × (edit : TheEdit) × (next : ℕ)
        × IsToFollow before file.now views.old next edit touched edited }
    ensures { (before : FileState) (edit : TheEdit) (next : ℕ)
        → IsToFollow before file.now views.old next edit touched.entry edited
        → HaveFollowed before file.now views.old views.new next edit result }
{
    let Some(touched) = touched else {
        return edited;
    };
    let Some(number) = edited.object else {
        return edited;
    };
    let refreshed = views.follow(file, number, &touched);
    Edited {
        object: edited.object,
        refreshed,
    }
}
