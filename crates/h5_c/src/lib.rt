//! What C may call of a session of a file. bindings/c/h5i.h has the same calls as C sees them.
//!
//! A session stands in a [`Slot`], whose memory is C's: all zeros are a closed slot. Each call answers a number
//! ([`status`] names them), and none has a condition on the slot: a closed one is answered as such.
#![tactic(auto)]

mod ask;
mod edit;
mod given;
mod held;
mod life;
mod parts;
mod read;
mod room;
mod script;
mod slot;
pub mod status;
mod view;
mod write;

pub use ask::About;
pub use given::CType;
pub use held::Held;
pub use slot::Slot;
