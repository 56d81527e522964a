//! How a run ends.

ghost use Rattle.std.specs.Prelude.{◌≡◌};
ghost use Rattle.h5_cli.specs.Status.{status_code};

/// How a run ended. Where several hold, the one with the highest code counts.
#[derive(Clone, Copy, PartialEq, Eq, Debug)]
pub enum Status {
    /// Done.
    Done,
    /// A command of a script was refused, or was none.
    CommandRefused,
    /// The words are no order.
    WrongWords,
    /// The bytes of the file were refused.
    ImageRefused,
    /// A file or a stream could not be read or written.
    StreamFailed,
    /// Memory was refused.
    NoMemory,
}

impl Status {
    /// The status that the process ends with, 0 to 5.
    pub fn code(self) -> u8
        ensures { result ≡ status_code self }
    {
        match self {
            Status::Done => 0,
            Status::CommandRefused => 1,
            Status::WrongWords => 2,
            Status::ImageRefused => 3,
            Status::StreamFailed => 4,
            Status::NoMemory => 5,
        }
    }
}
