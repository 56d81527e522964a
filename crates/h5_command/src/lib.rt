//! Lines of a script, read as what they ask for.
#![tactic(auto)]

mod command;
mod dataset;
mod escapes;
mod forms;
mod lines;
mod number;
mod words;

pub use crate::command::Command;
pub use crate::escapes::unescaped;
pub use crate::lines::{MAX_LINE, read_line};
