//! How the lines of a script count.

ghost use Rattle.std.specs.Prelude.{◌≡◌, ◌+◌, ◌<◌, ◌^◌, if◌then◌else◌};
ghost use Rattle.h5_model.specs.Scripts.Answers.{is_refused, is_accepted};
ghost use Rattle.h5_script.specs.Answered.{outcome_of};

/// How a line counts.
#[derive(Clone, Copy, PartialEq, Eq, Debug)]
pub enum Outcome {
    /// It was refused, or is a bad line.
    Refused,
    /// It is an edit, which was accepted.
    Accepted,
    /// It is neither.
    Told,
}

/// How many lines of a script were refused or bad, and how many edits were accepted.
#[derive(Clone, Copy, PartialEq, Eq, Debug)]
pub struct Ran {
    pub refused: u64,
    pub edits: u64,
}

impl Ran {
    /// Counts one more line.
    pub fn count(&mut self, outcome: Outcome)
        requires refused { self.old.refused < 2 ^ 63 }
        requires edits { self.old.edits < 2 ^ 63 }
        ensures refused { self.new.refused ≡ self.old.refused
            + (if is_refused (outcome_of outcome) then 1 else 0) }
        ensures edits { self.new.edits ≡ self.old.edits
            + (if is_accepted (outcome_of outcome) then 1 else 0) }
    {
        match outcome {
            Outcome::Refused => self.refused += 1,
            Outcome::Accepted => self.edits += 1,
            Outcome::Told => {}
        }
    }
}
