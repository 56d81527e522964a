//! The views that are open on a file, each with the bytes of its selected cells.

ghost use Rattle.std.specs.Prelude.{◌≡◌, ◌≤◌, ℕ, IfOk, IfErr, IfSome, MatchOption, MatchResult, Ok, Err, Some, false, length, map, slice_index_or};
ghost use Rattle.std.specs.FinMap.{contains_key};
ghost use Rattle.std.specs.List.{AllByRecursion, list_any};
ghost use Rattle.h5_model.specs.Format.Limits.{most_cells, most_views};
ghost use Rattle.h5_model.specs.Scripts.Answers.{view_is_lent};
ghost use Rattle.h5_model.specs.Edits.Refusal.{is_chunked};
ghost use Rattle.h5_model.specs.Tree.Objects.{Chunked, Dataset, dataset_of};
ghost use Rattle.h5_model.specs.Tree.Places.{cells as cells_of};
ghost use Rattle.h5_model.specs.Tree.Sound.{IsDataset};
ghost use Rattle.h5_model.specs.Views.Selection.{overlaps, selects_none};
ghost use Rattle.h5_model.specs.Views.Shown.{box_of, is_lent as can_lend, shown_of};
ghost use Rattle.h5_edit.specs.Selected.{IsSlabOf};
ghost use Rattle.h5_shape.specs.InBox.{AreApart};
ghost use Rattle.h5_file.specs.Session.{IsViewOf, IsViewRefusedBy, patches_at_first};
ghost use Rattle.h5_file.specs.ByArray.{AreByArray};
ghost use Rattle.h5_file.specs.OpenViews.{AreNumbered, AreViewsFollowed, AreViewsReady, HasKeptLength, IsKeptAfter, IsKeptOf, IsMetPatched, IsOneFollowed, IsViewAt, IsViewFit, IsViewReady, IsViewShown, patches_in, numbered_view, view_of, views_of};
ghost use Rattle.h5_file.specs.Touched.{HasBoxes, IsArrayLeft, IsTouchOf, sizes_before};

use crate::by_array::{ArrayView, views_on};
use crate::file::File;
use crate::kept::Kept;
use crate::session::Shown;
use crate::touched::Touched;
use h5_edit::{Dims, HyperRef, Slab, StoredArray, selected_at};
use h5_model::{ObjectNo, ViewFault};
use h5_shape::OwnedSlab;
use std::alloc::{AllocError, Global};

/// An open view.
#[derive(Drop)]
pub(crate) struct KeptView {
    /// The number of the view.
    pub(crate) number: u32,
    /// The number of the object of which it selects cells.
    pub(crate) object: u32,
    pub(crate) slab: OwnedSlab,
    /// The selected cells as the array has them, the fill for those outside its sizes; `None` where they are lent from the image.
    pub(crate) kept: Option<Kept>,
}

impl KeptView {
    /// A view, of this number, of the selected cells of the array at the path.
    ///
    /// Refused as `Path` with the refusal of [`File::runs`], else as `TooManyViews` where no more views may be open, else as `NoMemory`. It
    /// takes memory for the four lists and for the bytes of cells that are not lent, and no more.
    pub(crate) fn open(
        file: &File,
        path: &[u8],
        hyper: &HyperRef<'_>,
        number: u32,
        is_full: bool,
    ) -> Result<KeptView, ViewFault>
        ensures opened { IfOk result (λ v. (is_full ≡ false) × (v.number ≡ number)
            × IsViewOf file.now.tree path.now hyper.now (view_of v)) }
        ensures fit { IfOk result (IsViewFit file.now.tree file.now.next) }
        ensures shown { IfOk result (IsViewShown file.now.tree) }
        ensures first { IfOk result (λ v.
            patches_in v.kept ≡ patches_at_first file.now.tree (view_of v)) }
        ensures refused { IfErr result (IsViewRefusedBy file.now.tree path.now hyper.now is_full) }
    {
        let (object, array, slab) = match selected_at(&file.opened, path, hyper) {
            Ok(selected) => selected,
            Err(fault) => return Err(ViewFault::Path(fault)),
        };
        if is_full {
            return Err(ViewFault::TooManyViews);
        }
        // Its objects have numbers that were given out, its arrays few cells, and blocks of the selection share none.
        let _image = file.image();
        let _axes = slab.axes();
        let kept = kept_cells(file.alloc, &array, &slab)?;
        let slab = OwnedSlab::of(file.alloc, &slab)?;
        Ok(KeptView {
            number,
            object,
            slab,
            kept,
        })
    }

    /// What the view shows. It takes no memory.
    pub(crate) fn show<'a>(&'a self, file: &'a File) -> Result<Shown<'a>, ViewFault>
        requires fit { IsViewFit file.now.tree file.now.next self.now }
        requires shown { IsViewShown file.now.tree self.now }
        ensures shown { let showing = shown_of file.now.tree (view_of self.now) in MatchResult result
            (λ s. showing ≡ Ok (record { fixed = s.fixed; bytes = s.bytes.now })) (λ e. showing ≡ Err e) }
        ensures lent { IfOk result (λ s.
            s.lent ≡ view_is_lent file.now.tree (Some (view_of self.now))) }
    {
        let Some(array) = file.array(ObjectNo(self.object)) else {
            return Err(ViewFault::Gone);
        };
        let slab = self.slab.slab();
        if !slab.within(array.dims()) {
            return Err(ViewFault::OutsideNow);
        }
        // Its blocks share no cell.
        let _axes = slab.axes();
        let fixed = array.fixed();
        match &self.kept {
            Some(kept) => Ok(Shown {
                fixed,
                bytes: kept.bytes(),
                lent: false,
            }),
            None => {
                let bytes = array.lent(&slab).unwrap();
                Ok(Shown {
                    fixed,
                    bytes,
                    lent: true,
                })
            }
        }
    }

    /// Follows its array, of which cells were touched: of the kept cells those in each box that is met are set to the array's. Says how many
    /// boxes these are. Where the cells can be lent by now, none is kept any more.
    fn follow(&mut self, array: &StoredArray<'_>, grid: &Dims, touched: &Touched<'_>) -> u64
        requires array { IsArrayLeft array.now touched.now grid.now }
        requires rank { length self.old.slab ≡ length array.now.sizes }
        requires apart { selects_none self.old.slab ≡ false → AreApart self.old.slab }
        requires room { HasKeptLength array.now self.old.slab self.old.kept }
        ensures same { numbered_view self.new ≡ numbered_view self.old }
        ensures kept { IsKeptAfter array.now touched.now self.old.slab self.old.kept result self.new.kept }
        ensures few { result ≤ most_cells }
    {
        let Some(kept) = &mut self.kept else {
            return 0;
        };
        let slab = self.slab.slab();
        if is_lent(array, &slab) {
            self.kept = None;
            return 0;
        }
        patch_met(kept, array, &slab, grid, touched)
    }
}

/// The selected cells of an array, where they are not lent. It takes memory for these, and no more.
///
/// That the selection is within the array's sizes, of as many dimensions, is the caller's condition.
fn kept_cells(
    alloc: Global,
    array: &StoredArray<'_>,
    slab: &Slab<'_>,
) -> Result<Option<Kept>, AllocError>
    requires within { IsSlabOf array.now.sizes slab.now }
    requires apart { list_any overlaps slab.now ≡ false }
    ensures kept { IfOk result (IsKeptOf array.now slab.now) }
    ensures first { IfOk result (λ kept. IfSome kept (λ k. k.patches ≡ 0)) }
{
    if array.lent(slab).is_some() {
        return Ok(None);
    }
    Ok(Some(Kept::gather(alloc, array, slab)?))
}

/// Whether the selected cells are lent from the image.
fn is_lent(array: &StoredArray<'_>, slab: &Slab<'_>) -> bool
    requires { length slab.now ≡ length array.now.sizes }
    ensures { result ≡ can_lend array.now slab.now }
{
    if !array.stored() || !slab.within(array.dims()) {
        return false;
    }
    array.lent(slab).is_some()
}

/// Sets the kept cells in each box that is met to the array's, and says how many boxes these are. Most views of a large array lie far from
/// what a small edit touches, which a few comparisons tell.
fn patch_met(
    kept: &mut Kept,
    array: &StoredArray<'_>,
    slab: &Slab<'_>,
    grid: &Dims,
    touched: &Touched<'_>,
) -> u64
    requires array { IsArrayLeft array.now touched.now grid.now }
    requires rank { length slab.now ≡ length array.now.sizes }
    requires apart { selects_none slab.now ≡ false → AreApart slab.now }
    requires room { HasKeptLength array.now slab.now (Some kept.old) }
    ensures met { IsMetPatched array.now touched.now slab.now kept.old result kept.new }
    ensures few { result ≤ most_cells }
{
    if touched.misses(grid, slab) {
        return 0;
    }
    if slab.cells() == 0 {
        return 0;
    }
    patch_each(kept, array, slab, grid, touched)
}

/// The same, where each box that one of the two meets is looked at.
fn patch_each(
    kept: &mut Kept,
    array: &StoredArray<'_>,
    slab: &Slab<'_>,
    grid: &Dims,
    touched: &Touched<'_>,
) -> u64
    requires array { IsArrayLeft array.now touched.now grid.now }
    requires rank { length slab.now ≡ length array.now.sizes }
    requires apart { AreApart slab.now }
    requires room { HasKeptLength array.now slab.now (Some kept.old) }
    ensures met { IsMetPatched array.now touched.now slab.now kept.old result kept.new }
    ensures few { result ≤ most_cells }
{
    let Some(boxes) = touched.boxes(grid, slab) else {
        return 0;
    };
    kept.patch_boxes(array, slab, grid, boxes)
}

/// Where the view of this number is held, found by halving: their numbers rise.
pub(crate) fn place_of(views: &[KeptView], number: u32) -> Option<usize>
    requires { (end : ℕ) × AreNumbered views.now end }
    ensures { MatchOption result (contains_key (views_of views.now) number ≡ false)
        (IsViewAt views.now number) }
{
    views.binary_search_by_key(&number, |view| view.number).ok()
}

/// The same, where it is held at a place that is likely, or else by halving.
fn place_near(views: &[KeptView], place: usize, number: u32) -> Option<usize>
    requires { (end : ℕ) × AreNumbered views.now end }
    ensures { MatchOption result (contains_key (views_of views.now) number ≡ false)
        (IsViewAt views.now number) }
{
    if place < views.len() && views[place].number == number {
        return Some(place);
    }
    place_of(views, number)
}

/// Lets the views of the array of this number follow it, of which cells were touched, and says how many boxes were patched in all. Any
/// other view stays, and is not looked at.
pub(crate) fn follow_all(
    file: &File,
    views: &mut [KeptView],
    by_array: &[ArrayView],
    number: ObjectNo,
    touched: &Touched<'_>,
) -> u64
    requires rise { (end : ℕ) × AreNumbered views.old end }
    requires listed { AreByArray by_array.now views.old }
    requires fit { AllByRecursion (IsViewFit file.now.tree file.now.next) views.old }
    requires few { length views.old ≤ most_views }
    requires touch { (d : Dataset) → dataset_of file.now.tree number.0 ≡ Some d
        → IsTouchOf d touched.now
        × (cells_of d.sizes ≤ most_cells → cells_of (sizes_before d touched.now) ≤ most_cells) }
    ensures followed { (d : Dataset) → dataset_of file.now.tree number.0 ≡ Some d
        → AreViewsFollowed number.0 d touched.now views.old result views.new }
    ensures same { map numbered_view views.new ≡ map numbered_view views.old }
    ensures sound { (d : Dataset) → dataset_of file.now.tree number.0 ≡ Some d
        → IsDataset d × HasBoxes d }
{
    // Its arrays are sound.
    let _image = file.image();
    let Some(array) = file.array(number) else {
        return 0;
    };
    let chunk = array.chunk();
    let grid = box_sizes(&array, &chunk);
    follow_each(views, by_array, number, &array, grid, touched)
}

/// The sizes of a box of the array's grid, where this tells the sizes of its chunks. An array without chunks is one box.
fn box_sizes<'a>(array: &'a StoredArray<'_>, chunk: &'a Option<Dims>) -> &'a Dims
    requires { MatchOption chunk.now (is_chunked array.now.storage ≡ false) (λ sizes.
        array.now.storage ≡ Chunked sizes) }
    ensures { result.now ≡ box_of array.now }
{
    match chunk {
        Some(sizes) => sizes,
        None => array.dims(),
    }
}

/// Lets each view of the array of this number follow it, and says how many boxes were patched in all.
fn follow_each(
    views: &mut [KeptView],
    by_array: &[ArrayView],
    number: ObjectNo,
    array: &StoredArray<'_>,
    grid: &Dims,
    touched: &Touched<'_>,
) -> u64
    requires rise { (end : ℕ) × AreNumbered views.old end }
    requires listed { AreByArray by_array.now views.old }
    requires array { IsArrayLeft array.now touched.now grid.now }
    requires fit { AreViewsReady number.0 array.now views.old }
    requires few { length views.old ≤ most_views }
    ensures { AreViewsFollowed number.0 array.now touched.now views.old result views.new }
{
    let own = views_on(by_array, number.0);
    // Views of one array are often opened one after another, and then they are held so.
    let mut place = first_place(views, own);
    let mut count = 0;
    for view in own {
        count += follow_one(views, place, view.number, array, grid, touched);
        place = place.saturating_add(1);
    }
    count
}

/// Where the first of these views is held.
fn first_place(views: &[KeptView], own: &[ArrayView]) -> usize
    requires { (end : ℕ) × AreNumbered views.now end }
{
    match own.first() {
        Some(view) => place_of(views, view.number).unwrap_or(0),
        None => 0,
    }
}

/// Lets the view of this number follow its array, and says how many boxes were patched in it. It is likely to be held at `place`.
fn follow_one(
    views: &mut [KeptView],
    place: usize,
    number: u32,
    array: &StoredArray<'_>,
    grid: &Dims,
    touched: &Touched<'_>,
) -> u64
    requires rise { (end : ℕ) × AreNumbered views.old end }
    requires there { (at : ℕ) × IsViewAt views.old number at }
    requires array { IsArrayLeft array.now touched.now grid.now }
    requires fit { (at : ℕ) (d : KeptView) → IsViewAt views.old number at
        → IsViewReady array.now (slice_index_or views.old at d) }
    ensures followed { IsOneFollowed array.now touched.now views.old number result views.new }
    ensures few { result ≤ most_cells }
{
    let at = place_near(views, place, number).unwrap();
    views[at].follow(array, grid, touched)
}
