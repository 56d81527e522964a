//! What stands in an open slot.

ghost use Rattle.h5_c.specs.Calls.{HasRunScript};

use crate::status::{DONE, run_status};
use h5_file::Session;
use h5_script::run_script;
use std::alloc::Global;

/// A session, and the text that the last call has left that answers with text.
#[derive(Drop)]
pub struct Held {
    pub session: Session,
    pub text: Vec<u8>,
}

impl Held {
    /// Runs a script. The text is then what its lines answered.
    pub(crate) fn run(&mut self, alloc: Global, script: &[u8]) -> u32
        ensures { HasRunScript self.old script.now self.new result }
    {
        self.text.clear();
        let mut input = script;
        match run_script(alloc, &mut self.session, &mut input, &mut self.text) {
            Ok(_ran) => DONE,
            Err(fault) => run_status(fault),
        }
    }
}
