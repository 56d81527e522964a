//! The sizes of an array, and the row-major places of its cells (File Format Specification 3.0, section IV.A.2.b).
ghost use Rattle.std.specs.Prelude.{◌≡◌, ◌-◌, ◌^◌, ◌<◌, ◌≤◌, ◌↔◌, [], ◌∷◌, ◌++◌, IsTrue, IsSome, IfSome, length, min, nat_le};
ghost use Rattle.h5_model.specs.Format.Limits.{most_cells, most_dimensions};
ghost use Rattle.h5_model.specs.Tree.Places.{cells as cells_of, extent_cells, place_of, IsInside, is_inside as inside};

use std::marker::Model;

/// The largest number of dimensions.
pub const MAX_RANK: usize = 32;

/// The largest product of an array's sizes. Sizes of 0 are left out of the product.
pub const MAX_CELLS: u64 = 1 << 40;

/// The sizes of an array, in cells, for at most 32 dimensions. They stand in the value itself, so it takes no memory.
/// No size makes a scalar, with one cell.
#[derive(Debug, Drop)]
pub struct Dims {
    sizes: [u64; 32],
    rank: usize,
}

impl Model for Dims {
    ghost use Rattle.std.specs.Prelude.{List, ℕ, ◌≤◌, take};

    ghost Value = { List ℕ };

    ghost view = { λ d. take d.rank d.sizes };

    ghost invariant = { λ d. d.rank ≤ 32 };
}

impl Dims {
    /// These sizes, or `None` where there are more than 32. It takes no memory.
    pub fn new(sizes: &[u64]) -> Option<Dims>
        ensures exact { IsSome result ↔ (length sizes.now ≤ most_dimensions) }
        ensures numbers { IfSome result (λ dims. dims ≡ sizes.now) }
    {
        let rank = sizes.len();
        if rank > MAX_RANK {
            return None;
        }
        let mut room = [0; MAX_RANK];
        room[..rank].copy_from_slice(sizes);
        Some(Dims { sizes: room, rank })
    }

    /// No sizes, those of a scalar. It takes no memory.
    pub fn scalar() -> Dims
        ensures { result ≡ [] }
    {
        Dims {
            sizes: [0; MAX_RANK],
            rank: 0,
        }
    }

    /// Puts a size behind the others: that of the dimension that runs fastest then. It takes no memory.
    ///
    /// That there are fewer than 32 is the caller's condition.
    pub fn push(&mut self, size: u64)
        requires few { length self.old < most_dimensions }
        ensures { self.new ≡ self.old ++ size ∷ [] }
    {
        self.sizes[self.rank] = size;
        self.rank += 1;
    }

    /// The sizes, in cells, with the dimension that runs slowest first.
    pub fn sizes(&self) -> &[u64]
        ensures numbers { result.now ≡ self.now }
        ensures rank { length self.now ≤ most_dimensions }
    {
        &self.sizes[..self.rank]
    }

    /// How many cells there are, or `u64::MAX` where there are more.
    pub fn cells(&self) -> u64
        ensures { result ≡ min (cells_of self.now) (2 ^ 64 - 1) }
    {
        product(self.sizes())
    }

    /// Whether the product of the sizes other than 0 is at most 2^40. Then there are at most 2^40 cells.
    #[tactic(auto, using(crate::proofs::Products::cells_few))]
    pub fn is_small(&self) -> bool
        ensures product { result ≡ nat_le (extent_cells self.now) most_cells }
        ensures cells { IsTrue result → cells_of self.now ≤ most_cells }
    {
        positive_product(self.sizes()) <= MAX_CELLS
    }

    /// Whether the index has one number for each dimension, each below the size.
    pub fn is_inside(&self, index: &[u64]) -> bool
        ensures value { result ≡ inside self.now index.now }
        ensures inside { IsTrue result ↔ IsInside self.now index.now }
    {
        is_inside(self.sizes(), index)
    }

    /// The place of an index in row-major order: how many cells stand before it.
    ///
    /// That the index is inside, and that there are fewer than 2^64 cells, are the caller's conditions.
    pub fn place(&self, index: &[u64]) -> u64
        requires inside { IsInside self.now index.now }
        requires small { cells_of self.now < 2 ^ 64 }
        ensures { result ≡ place_of self.now index.now }
    {
        place(self.sizes(), index)
    }
}

/// The product of the sizes, or `u64::MAX` where it is larger.
fn product(sizes: &[u64]) -> u64
    ensures { result ≡ min (cells_of sizes.now) (2 ^ 64 - 1) }
{
    let [size, rest @ ..] = sizes else {
        return 1;
    };
    size.saturating_mul(product(rest))
}

/// The product of the sizes other than 0, or `u64::MAX` where it is larger.
fn positive_product(sizes: &[u64]) -> u64
    ensures { result ≡ min (extent_cells sizes.now) (2 ^ 64 - 1) }
{
    let [size, rest @ ..] = sizes else {
        return 1;
    };
    let rest = positive_product(rest);
    if *size == 0 {
        rest
    } else {
        size.saturating_mul(rest)
    }
}

/// Whether each number of the index is below its size.
pub(crate) fn is_inside(sizes: &[u64], index: &[u64]) -> bool
    ensures value { result ≡ inside sizes.now index.now }
    ensures inside { IsTrue result ↔ IsInside sizes.now index.now }
{
    let [size, sizes @ ..] = sizes else {
        return index.is_empty();
    };
    let [at, index @ ..] = index else {
        return false;
    };
    at < size && is_inside(sizes, index)
}

/// The place of an index.
fn place(sizes: &[u64], index: &[u64]) -> u64
    requires inside { IsInside sizes.now index.now }
    requires small { cells_of sizes.now < 2 ^ 64 }
    ensures { result ≡ place_of sizes.now index.now }
{
    let mut place = 0;
    for k in 0..sizes.len() {
        place = place * sizes[k] + index[k];
    }
    place
}
