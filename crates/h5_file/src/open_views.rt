//! The open views of a session.

ghost use Rattle.std.specs.Prelude.{◌≡◌, ◌↔◌, ◌<◌, ◌≤◌, ℕ, IsTrue, OnOk, OnErr, Some, ◌∷◌, ◌++◌, [], length, map};
ghost use Rattle.std.specs.List.{AllByRecursion, remove};
ghost use Rattle.h5_model.specs.Format.Limits.{most_cells, most_views};
ghost use Rattle.h5_model.specs.Tree.Objects.{Dataset, dataset_of};
ghost use Rattle.h5_model.specs.Tree.Places.{cells};
ghost use Rattle.h5_model.specs.Tree.Sound.{IsDataset};
ghost use Rattle.h5_file.specs.OpenViews.{AreNumbered, AreViewsFollowed, IsViewFit, numbered_view};
ghost use Rattle.h5_file.specs.Touched.{HasBoxes, IsTouchOf, sizes_before};

use crate::by_array::{ArrayView, list_view, unlist_view};
use crate::file::File;
use crate::touched::Touched;
use crate::views::{KeptView, follow_all};
use h5_model::ObjectNo;
use std::alloc::{AllocError, Global};
use std::marker::Model;

/// The open views of a session, in the order of their numbers. Contracts see the list of them.
#[derive(Drop)]
pub(crate) struct OpenViews {
    /// By their numbers.
    views: Vec<KeptView>,
    /// The same views by the numbers of their arrays, and those of an array by their own.
    by_array: Vec<ArrayView>,
}

impl Model for OpenViews {
    ghost use Rattle.std.specs.Prelude.{List};
    ghost use Rattle.h5_file.specs.declared.views.KeptView.{KeptView};

    ghost Value = { List KeptView };

    ghost use Rattle.h5_file.specs.ByArray.{AreByArray};

    ghost view = { λ v. v.views.items };

    ghost invariant = { λ v. AreByArray v.by_array.items v.views.items };
}

impl OpenViews {
    /// No view. It takes no memory.
    pub(crate) fn new(alloc: Global) -> OpenViews
        ensures { result ≡ [] }
    {
        OpenViews {
            views: Vec::new(alloc),
            by_array: Vec::new(alloc),
        }
    }

    /// Whether no view is open.
    pub(crate) fn is_empty(&self) -> bool
        ensures { IsTrue result ↔ (self.now ≡ []) }
    {
        self.views.is_empty()
    }

    /// The views, by their numbers.
    pub(crate) fn as_slice(&self) -> &[KeptView]
        ensures { result.now ≡ self.now }
    {
        &self.views
    }

    /// Holds one view more, behind the others. Where memory is refused, nothing changes.
    pub(crate) fn push(&mut self, view: KeptView) -> Result<(), AllocError>
        ensures ok { OnOk result (self.new ≡ self.old ++ view ∷ []) }
        ensures err { OnErr result (self.new ≡ self.old) }
    {
        let listed = ArrayView {
            object: view.object,
            number: view.number,
        };
        self.views.reserve(1)?;
        list_view(&mut self.by_array, listed)?;
        // There is room for it.
        let _ = self.views.push(view);
        Ok(())
    }

    /// Takes the view at this place out.
    pub(crate) fn remove(&mut self, at: usize) -> KeptView
        requires place { at < length self.old }
        requires rise { (end : ℕ) × AreNumbered self.old end }
        ensures { self.new ≡ remove self.old at }
    {
        let closed = self.views.remove(at);
        unlist_view(&mut self.by_array, closed.number);
        closed
    }

    /// Lets the views of the array of this number follow it, of which cells were touched, and says how many boxes were patched in all. Any
    /// other view stays, and costs nothing.
    pub(crate) fn follow(&mut self, file: &File, number: ObjectNo, touched: &Touched<'_>) -> u64
        requires rise { (end : ℕ) × AreNumbered self.old end }
        requires fit { AllByRecursion (IsViewFit file.now.tree file.now.next) self.old }
        requires few { length self.old ≤ most_views }
        requires touch { (d : Dataset) → dataset_of file.now.tree number.0 ≡ Some d
            → IsTouchOf d touched.now
            × (cells d.sizes ≤ most_cells → cells (sizes_before d touched.now) ≤ most_cells) }
        ensures followed { (d : Dataset) → dataset_of file.now.tree number.0 ≡ Some d
            → AreViewsFollowed number.0 d touched.now self.old result self.new }
        ensures sound { (d : Dataset) → dataset_of file.now.tree number.0 ≡ Some d
            → IsDataset d × HasBoxes d }
    {
        follow_all(file, &mut self.views, &self.by_array, number, touched)
    }
}
