//! Lists that values own.

ghost use Rattle.std.specs.Prelude.{◌≡◌, IfOk};

use std::alloc::{AllocError, Global};
use std::marker::Model;

/// A list that a value owns: sizes, offsets, bytes of a name, values.
#[derive(Debug, Drop)]
pub struct Items<T> {
    items: Vec<T>,
}

impl<T> Model for Items<T> {
    ghost use Rattle.std.specs.Prelude.{List};

    ghost Value = { List T };

    ghost view = { λ a. a.items.items };
}

impl<T> Items<T> {
    /// The list of these items.
    pub fn new(items: Vec<T>) -> Self
        ensures { result ≡ items.items }
    {
        Items { items }
    }

    /// A list with the items of the slice.
    ///
    /// # Errors
    ///
    /// `AllocError` if memory is refused.
    pub fn from_slice(alloc: Global, items: &[T]) -> Result<Self, AllocError>
    where
        T: Copy,
        ensures { IfOk result (λ list. list ≡ items.now) }
    {
        Ok(Items::new(Vec::from_slice(alloc, items)?))
    }

    /// The items.
    pub fn as_slice(&self) -> &[T]
        ensures { result.now ≡ self.now }
    {
        &self.items
    }

    /// The items as a vector.
    pub fn into_vec(self) -> Vec<T>
        ensures { result.items ≡ self }
    {
        self.items
    }
}

/// The list of the vector's items.
impl<T> From<Vec<T>> for Items<T> {
    ghost from_gives = { λ items list. list ≡ items.items };

    fn from(vector: Vec<T>) -> Self {
        Items::new(vector)
    }
}
