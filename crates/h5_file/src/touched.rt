//! What an edit touches of an array, and the boxes of its grid that it and a view both meet.

ghost use Rattle.std.specs.Prelude.{◌≡◌, ℕ, ℤ, IsTrue, List, MatchOption, []};
ghost use Rattle.h5_model.specs.Tree.Objects.{Dataset};
ghost use Rattle.h5_model.specs.declared.edits.Edit.TheVariants.{Resize, Write};
ghost use Rattle.h5_file.specs.Following.{IsTouchedBy};
ghost use Rattle.h5_file.specs.Touched.{HasGrid, IsGridOf, met_with};

use crate::file::File;
use h5_edit::{Dims, HyperRef, Slab, array_at};
use h5_model::Edit;
use h5_shape::{MetBoxes, lie_apart, lost_boxes, written_boxes};

/// The cells of an array that an edit touches.
#[derive(Drop)]
pub(crate) enum Touched<'a> {
    /// Those that are written.
    Written(Slab<'a>),
    /// Those inside the sizes before that are not inside the ones that it keeps.
    Lost { before: Dims, kept: Dims },
}

impl<'a> Touched<'a> {
    /// What an edit touches, or `None` where this is no cell of an array or a rule refuses the edit. It takes no memory.
    pub(crate) fn of(file: &File, edit: &'a Edit) -> Option<Touched<'a>>
        ensures { IsTouchedBy file.now edit.now result }
    {
        match edit {
            Edit::Write { hyper, .. } => Touched::written(file, &HyperRef::of(hyper)),
            Edit::Resize { path, dims } => Touched::lost(file, path.as_slice(), dims.as_slice()),
            Edit::CreateGroup { .. }
            | Edit::CreateDataset { .. }
            | Edit::HardLink { .. }
            | Edit::SoftLink { .. }
            | Edit::Unlink { .. }
            | Edit::SetAttr { .. }
            | Edit::RemoveAttr { .. } => None,
        }
    }

    /// The cells that a write selects, or `None` where the lists are no selection.
    pub(crate) fn written(file: &File, hyper: &HyperRef<'a>) -> Option<Touched<'a>>
        ensures { (path : List ℕ) (values : List ℤ)
            → IsTouchedBy file.now (Write path hyper.now values) result }
    {
        // Its arrays are sound.
        let _image = file.image();
        let slab = Slab::new(hyper).ok()?;
        Some(Touched::Written(slab))
    }

    /// The cells that the array at the path may lose where it gets these sizes, or `None` where it can't get them.
    pub(crate) fn lost(file: &File, path: &[u8], dims: &[u64]) -> Option<Touched<'a>>
        ensures { IsTouchedBy file.now (Resize path.now dims.now) result }
    {
        // Its arrays are sound.
        let _image = file.image();
        let (_number, array) = array_at(&file.opened, path).ok()?;
        let before = Dims::new(array.dims().sizes())?;
        let kept = Dims::new(dims)?;
        Some(Touched::Lost { before, kept })
    }

    /// Whether a few comparisons tell that no box of an array's grid holds a cell touched and a cell of the selection. Where it says
    /// `false`, `boxes` tells which do, if any.
    pub(crate) fn misses(&self, grid: &Dims, slab: &Slab<'_>) -> bool
        requires { (d : Dataset) × HasGrid d self.now grid.now }
        ensures { IsTrue result → (d : Dataset) → HasGrid d self.now grid.now
            → met_with d self.now slab.now ≡ [] }
    {
        match self {
            Touched::Written(written) => lie_apart(grid, written, slab),
            Touched::Lost { .. } => false,
        }
    }

    /// The boxes of an array's grid that hold a cell touched and a cell of the selection. `None` where it is clear at once that there is
    /// none. It takes no memory.
    pub(crate) fn boxes<'b>(&'b self, grid: &'b Dims, slab: &'b Slab<'b>) -> Option<MetBoxes<'b>>
        requires { (d : Dataset) × IsGridOf d self.now grid.now slab.now }
        ensures { (d : Dataset) → IsGridOf d self.now grid.now slab.now
            → let met = met_with d self.now slab.now in
            MatchOption result (met ≡ []) (λ boxes. boxes ≡ met) }
    {
        match self {
            Touched::Written(written) => written_boxes(grid, written, slab),
            Touched::Lost { before, kept } => lost_boxes(before, kept, grid, slab),
        }
    }
}
