//! Selections that own their lists (HDF5 dataspace reference, H5Sselect_hyperslab).
ghost use Rattle.std.specs.Prelude.{◌≡◌, IfOk};

use crate::axes::Axes;
use crate::hyper::HyperRef;
use crate::slab::Slab;
use h5_model::Hyper;
use std::alloc::{AllocError, Global};
use std::marker::Model;

/// A selection with four lists of its own, for whoever keeps it longer than the lists that it was made of.
#[derive(Debug, Drop)]
pub struct OwnedSlab {
    lists: Hyper,
}

impl Model for OwnedSlab {
    ghost use Rattle.std.specs.Prelude.{◌≡◌, List, length, true};
    ghost use Rattle.h5_model.specs.declared.Axis.{Axis};
    ghost use Rattle.h5_model.specs.Views.Selection.{axes_of, has_rank};
    ghost use Rattle.h5_shape.specs.Slab.{IsSlab};

    ghost Value = { List Axis };

    ghost view = { λ s. axes_of s.lists };

    ghost invariant = { λ s. (has_rank (length s.lists.start) s.lists ≡ true) × IsSlab (axes_of s.lists) };
}

impl OwnedSlab {
    /// The same selection, with lists of its own. It takes memory for these, and no more.
    ///
    /// # Errors
    ///
    /// `AllocError` if memory is refused.
    pub fn of(alloc: Global, slab: &Slab<'_>) -> Result<OwnedSlab, AllocError>
        ensures { IfOk result (λ own. own ≡ slab.now) }
    {
        let lists = slab.axes().lists();
        let lists = Hyper::new(
            alloc,
            lists.start(),
            lists.stride(),
            lists.count(),
            lists.block(),
        )?;
        Ok(OwnedSlab { lists })
    }

    /// The selection, with these lists lent.
    pub fn slab(&self) -> Slab<'_>
        ensures { result ≡ self.now }
    {
        let axes = Axes::of(&HyperRef::of(&self.lists)).unwrap();
        Slab::known(axes)
    }
}
