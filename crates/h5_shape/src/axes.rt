//! The axes of a hyperslab, read from its four lists (HDF5 dataspace reference, H5Sselect_hyperslab).
ghost use Rattle.std.specs.Prelude.{◌≡◌, ◌<◌, [], ◌∷◌, IfSome, MatchOption, false, true, drop, length, slice_index_or};
ghost use Rattle.h5_model.specs.Views.Selection.{axes_of, has_rank};

use crate::hyper::HyperRef;
use h5_model::Axis;
use std::marker::Model;

/// The axes of a hyperslab, one for each dimension, the one that runs slowest first. They are read from its four lists,
/// which are lent and of one length, so a move costs the same for any number of dimensions.
#[derive(Debug, Drop)]
pub struct Axes<'a> {
    lists: HyperRef<'a>,
}

impl<'a> Model for Axes<'a> {
    ghost use Rattle.std.specs.Prelude.{◌≡◌, List, length, true};
    ghost use Rattle.h5_model.specs.declared.Axis.{Axis};
    ghost use Rattle.h5_model.specs.Views.Selection.{axes_of, has_rank};

    ghost Value = { List Axis };

    ghost view = { λ a. axes_of a.lists };

    ghost invariant = { λ a. has_rank (length a.lists.start) a.lists ≡ true };
}

impl<'a> Axes<'a> {
    /// The axes of these lists, or `None` where the lists have different lengths.
    pub(crate) fn of(lists: &HyperRef<'a>) -> Option<Axes<'a>>
        ensures axes { MatchOption result (has_rank (length lists.now.start) lists.now ≡ false) (λ axes.
            axes ≡ axes_of lists.now) }
        ensures rank { IfSome result (λ axes. has_rank (length axes) lists.now ≡ true) }
    {
        let rank = lists.start().len();
        if lists.stride().len() != rank
            || lists.count().len() != rank
            || lists.block().len() != rank
        {
            return None;
        }
        Some(Axes {
            lists: lists.lend(),
        })
    }

    /// The lists.
    pub(crate) fn lists(&self) -> &HyperRef<'a>
        ensures lists { axes_of result.now ≡ self.now }
        ensures rank { has_rank (length result.now.start) result.now ≡ true }
    {
        &self.lists
    }

    /// How many dimensions there are.
    pub fn len(&self) -> usize
        ensures { result ≡ length self.now }
    {
        self.lists.start().len()
    }

    /// The axis of a dimension.
    ///
    /// That there is the dimension is the caller's condition.
    pub fn at(&self, k: usize) -> Axis
        requires { k < length self.now }
        ensures { (d : Axis) → result ≡ slice_index_or self.now k d }
    {
        Axis {
            start: self.lists.start()[k],
            stride: self.lists.stride()[k],
            count: self.lists.count()[k],
            block: self.lists.block()[k],
        }
    }

    /// The axis of the dimension that runs slowest, or `None` where there is no dimension.
    pub fn first(&self) -> Option<Axis>
        ensures { MatchOption result (self.now ≡ []) (λ axis. self.now ≡ axis ∷ drop 1 self.now) }
    {
        if self.len() == 0 {
            return None;
        }
        Some(self.at(0))
    }

    /// The axes of the other dimensions.
    ///
    /// That there is a dimension is the caller's condition.
    pub fn rest(&self) -> Axes<'a>
        requires { 0 < length self.now }
        ensures { result ≡ drop 1 self.now }
    {
        let lists = HyperRef::new(
            &self.lists.start()[1..],
            &self.lists.stride()[1..],
            &self.lists.count()[1..],
            &self.lists.block()[1..],
        );
        Axes { lists }
    }
}
