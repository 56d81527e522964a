//! The command line of `h5i`: words read as an order, as `clap` does.
#![tactic(auto)]

mod command;
mod lines;
mod orders;
mod read;
mod refusals;

pub use orders::{Order, OrderFault};
pub use read::order;
