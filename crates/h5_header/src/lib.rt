//! Object headers: the messages of an object, over the blocks that Continuation messages name (File
//! Format Specification 3.0, section IV.A.1.a).
//!
//! Places and sizes are in bytes.
#![tactic(auto)]

mod add;
mod block;
mod block_put;
mod blocks;
mod claims;
mod edits;
mod find;
mod header;
mod header_ref;
mod kinds;
mod laid;
mod message;
mod put;
mod read;

pub use add::{AddFault, MAX_MESSAGES};
pub use find::find_message;
pub use h5_space::claim;
pub use header::Messages;
pub use header_ref::HeaderRef;
pub use kinds::ObjectKind;
pub use message::Message;
pub use read::messages;
