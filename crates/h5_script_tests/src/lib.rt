//! Tests of scripts over readers and writers in memory, through public calls.
//!
//! A crate with tests is proved twice, so the libraries have none of their own.
#![tactic(auto)]

#[cfg(test)]
mod script;
#[cfg(test)]
mod streams;
