//! Edits of a tree, and the answer to an accepted one.

use crate::attribute::AttrSpec;
use crate::dataset::Spec;
use crate::hyperslab::Hyper;
use crate::list::Items;
use crate::object_no::ObjectNo;

/// A change of the tree.
#[derive(Debug, Drop)]
pub enum Edit {
    CreateGroup {
        path: Items<u8>,
    },
    CreateDataset {
        path: Items<u8>,
        spec: Spec,
    },
    HardLink {
        target: Items<u8>,
        path: Items<u8>,
    },
    SoftLink {
        text: Items<u8>,
        path: Items<u8>,
    },
    Unlink {
        path: Items<u8>,
    },
    SetAttr {
        path: Items<u8>,
        attr: AttrSpec,
    },
    RemoveAttr {
        path: Items<u8>,
        name: Items<u8>,
    },
    Write {
        path: Items<u8>,
        hyper: Hyper,
        values: Items<i128>,
    },
    Resize {
        path: Items<u8>,
        dims: Items<u64>,
    },
}

/// The answer to an accepted edit.
#[derive(Clone, Copy, PartialEq, Eq, Debug)]
pub struct Edited {
    /// The new object, or the one that the edit names; `None` for soft links and unlinks.
    pub object: Option<ObjectNo>,
    /// How many chunks were refreshed, over all open views.
    pub refreshed: u64,
}
