//! What stands at a path.

use h5_model::{Fixed, Store};
use h5_open::Dims;

/// What stands at a path.
#[derive(Debug, Drop)]
pub enum Kind<'a> {
    /// A group.
    Group,
    /// An array. A maximum that is unlimited is shown as 18446744073709551615.
    Dataset {
        fixed: Fixed,
        dims: Dims,
        maxima: Dims,
        store: Store<Dims>,
        fill: i128,
    },
    /// A soft link, with its text.
    Soft(&'a [u8]),
}
