//! Tests of files, through public calls.
//!
//! A crate with tests is proved twice, so the libraries have none of their own.
#![tactic(auto)]

#[cfg(test)]
mod door;
#[cfg(test)]
mod edits;
#[cfg(test)]
mod file;
#[cfg(test)]
mod given;
#[cfg(test)]
mod looks;
