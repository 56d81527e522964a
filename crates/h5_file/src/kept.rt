//! Selected cells of an array as kept bytes.

ghost use Rattle.std.specs.Prelude.{◌≡◌, ◌+◌, ◌*◌, ◌^◌, ◌<◌, ◌≤◌, IfOk, length};
ghost use Rattle.h5_model.specs.Format.Limits.{most_dimensions};
ghost use Rattle.h5_model.specs.Tree.Sound.{IsDataset};
ghost use Rattle.h5_model.specs.Views.Selection.{selected_cells};
ghost use Rattle.h5_model.specs.Views.Shown.{selected_values};
ghost use Rattle.h5_model.specs.Format.Plain.{cells_bytes};
ghost use Rattle.h5_edit.specs.Selected.{IsSlabOf};
ghost use Rattle.h5_shape.specs.InBox.{AreApart, IsCorner};
ghost use Rattle.h5_file.specs.Patched.{AreCorners, ArePatched, IsPatched};

mod count;

use crate::patch::patch_from;
use crate::selected::gather;
use count::Count;
use h5_edit::{Dims, MAX_RANK, Slab, StoredArray};
use h5_shape::{Axes, MetBoxes, Span, spans_in};
use std::alloc::{AllocError, Global};
use std::marker::Model;

/// The bytes of the selected cells of an array, in row-major order. Only [`Kept::patch`] changes them.
#[derive(Drop)]
#[derive_where(Debug)]
pub struct Kept {
    #[derive_where(skip)]
    bytes: Vec<u8>,
    #[derive_where(skip)]
    patches: Count,
}

impl Model for Kept {
    ghost use Rattle.h5_file.specs.Patched.{KeptState};

    ghost Value = { KeptState };

    ghost view = { λ k. record { bytes = k.bytes.items; patches = k.patches.times } };
}

/// What stands behind the last dimension.
const NO_SPAN: Span = Span {
    corner: 0,
    from: 0,
    length: 0,
};

impl Kept {
    /// Keeps the bytes of the selected cells of an array, in row-major order. Takes memory for these bytes, and no
    /// more.
    ///
    /// That the selection is within the sizes of the array is the caller's condition.
    ///
    /// # Errors
    ///
    /// `AllocError` if memory is refused.
    pub fn gather(
        alloc: Global,
        array: &StoredArray<'_>,
        slab: &Slab<'_>,
    ) -> Result<Kept, AllocError>
        requires { IsSlabOf array.now.sizes slab.now }
        ensures { IfOk result (λ kept. (kept.patches ≡ 0)
            × (kept.bytes ≡ cells_bytes array.now.fixed (selected_values array.now slab.now))) }
    {
        let size = array.array().fixed().size();
        let mut bytes = vec![in alloc; 0u8; slab.cells() as usize * size]?;
        gather(array, slab, &mut bytes);
        Ok(Kept {
            bytes,
            patches: Count::none(),
        })
    }

    /// The bytes.
    pub fn bytes(&self) -> &[u8]
        ensures { result.now ≡ self.now.bytes }
    {
        &self.bytes
    }

    /// Sets the kept cells in one box of the array's grid to the array's cells, and to the fill outside its sizes.
    /// `corner` is the first index of the box, `sizes` are its sizes. Every other kept byte stays. It takes no
    /// memory, and time by the cells in the box alone.
    ///
    /// That the kept bytes are of this selection and of this array's type, and that this is a box of its grid, are
    /// the caller's conditions.
    pub fn patch(&mut self, array: &StoredArray<'_>, slab: &Slab<'_>, corner: &[u64], sizes: &[u64])
        requires sound { IsDataset array.now }
        requires rank { length slab.now ≡ length array.now.sizes }
        requires apart { AreApart slab.now }
        requires ranks { length corner.now ≡ length slab.now }
        requires corner { IsCorner sizes.now corner.now }
        requires room { length self.old.bytes ≡ selected_cells slab.now * array.now.fixed.size }
        ensures bytes { IsPatched array.now slab.now corner.now sizes.now self.old.bytes self.new.bytes }
        ensures patches { self.new.patches ≡ self.old.patches + 1 }
    {
        patch_bytes(array, slab, corner, sizes, &mut self.bytes);
        self.patches = self.patches.next();
    }

    /// Patches several boxes of the array's grid, and answers how many they were.
    ///
    /// That the kept bytes are of this selection and of this array's type, and that these are boxes of its grid, are
    /// the caller's conditions.
    pub fn patch_boxes(
        &mut self,
        array: &StoredArray<'_>,
        slab: &Slab<'_>,
        grid: &Dims,
        boxes: MetBoxes<'_>,
    ) -> u64
        requires sound { IsDataset array.now }
        requires rank { length slab.now ≡ length array.now.sizes }
        requires apart { AreApart slab.now }
        requires corners { AreCorners slab.now grid.now boxes }
        requires few { length boxes < 2 ^ 64 }
        requires room { length self.old.bytes ≡ selected_cells slab.now * array.now.fixed.size }
        ensures count { result ≡ length boxes.entry }
        ensures bytes { ArePatched array.now slab.now boxes.entry grid.now self.old.bytes self.new.bytes }
        ensures patches { self.new.patches ≡ self.old.patches + length boxes.entry }
    {
        let mut count = 0;
        for corner in boxes {
            self.patch(array, slab, corner.sizes(), grid.sizes());
            count += 1;
        }
        count
    }
}

/// The same of bytes.
fn patch_bytes(
    array: &StoredArray<'_>,
    slab: &Slab<'_>,
    corner: &[u64],
    sizes: &[u64],
    bytes: &mut [u8],
)
    requires sound { IsDataset array.now }
    requires rank { length slab.now ≡ length array.now.sizes }
    requires apart { AreApart slab.now }
    requires ranks { length corner.now ≡ length slab.now }
    requires corner { IsCorner sizes.now corner.now }
    requires room { length bytes.old ≡ selected_cells slab.now * array.now.fixed.size }
    ensures { IsPatched array.now slab.now corner.now sizes.now bytes.old bytes.new }
{
    let axes = slab.axes();
    let mut spans = [NO_SPAN; MAX_RANK];
    patch_box(array, axes, corner, sizes, &mut spans[..axes.len()], bytes);
}

/// The same, with room for the spans of the axes in the box.
fn patch_box(
    array: &StoredArray<'_>,
    axes: &Axes<'_>,
    corner: &[u64],
    sizes: &[u64],
    spans: &mut [Span],
    bytes: &mut [u8],
)
    requires sound { IsDataset array.now }
    requires rank { length axes.now ≡ length array.now.sizes }
    requires few { length axes.now ≤ most_dimensions }
    requires apart { AreApart axes.now }
    requires ranks { length corner.now ≡ length axes.now }
    requires corner { IsCorner sizes.now corner.now }
    requires spans { length spans.old ≡ length axes.now }
    requires room { length bytes.old ≡ selected_cells axes.now * array.now.fixed.size }
    ensures { IsPatched array.now axes.now corner.now sizes.now bytes.old bytes.new }
{
    // Its type is sound.
    let _told = array.array();
    if spans_in(axes, corner, sizes, spans, 0) {
        let mut index = [0; MAX_RANK];
        patch_from(array, axes, spans, &mut index[..axes.len()], 0, 0, bytes);
    }
}
