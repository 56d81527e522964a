//! The attributes of an object, over the messages of its header (File Format Specification 3.0, section IV.A.2.m).
//!
//! Nothing of the image is kept: names and values are lent where they stand in it. Messages of versions 1 to 3 are
//! read; `new_body` makes one of version 1.
#![tactic(auto)]

mod bodies;
mod body;
mod edit;
mod find;
mod message;
mod names;
mod order;

pub use bodies::check_bodies;
pub use body::new_body;
pub use edit::{remove_at, set};
pub use find::{find_named, get};
pub use h5_msg::AttributeBody as AttrRef;
pub use names::{check_names, list};
pub use order::sorted;
