//! A count that only proofs read.
ghost use Rattle.std.specs.Prelude.{◌≡◌, ℕ, ◌+◌};
ghost use Rattle.std.specs.Borrow.{ftrue};

use std::marker::{Model, PhantomData};

/// How often something was done. It takes no memory.
#[derive(Drop)]
pub(super) struct Count {
    of: PhantomData<()>,
    pub(super) ghost times: { ℕ },
}

impl Model for Count {
    ghost also_owns = { λ _. ftrue };
}

impl Count {
    pub(super) fn none() -> Count
        ensures { result.times ≡ 0 }
    {
        Count { of: PhantomData }
    }

    pub(super) fn next(&self) -> Count
        ensures { result.times ≡ self.now.times + 1 }
    {
        Count { of: PhantomData }
    }
}
