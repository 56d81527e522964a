//! Scripts: lines that edit a file and ask what it holds, run as they are read.
//!
//! [`run_script`] reads a script, runs each line in a session as soon as it is read whole, and writes its answer before
//! the next line is run. docs/SCRIPT.md has the forms of lines.
#![tactic(auto)]

mod answer;
mod fault;
mod lines;
mod ran;
mod run;
mod streams;

pub use fault::RunFault;
pub use h5_command::unescaped;
pub use h5_dump::{
    Cause, DumpFault, File, MAXIMUM_IMAGE, OpenFault, Session, push_list, write_dump,
};
pub use ran::Ran;
pub use run::run_script;
