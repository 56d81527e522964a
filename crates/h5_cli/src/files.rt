//! Files of the system: read whole and opened, and written whole.

ghost use Rattle.std.specs.Prelude.{◌≡◌, ◌⊎◌, ◌↔◌, ◌≤◌, IfOk, MatchResult, length};
ghost use Rattle.std.specs.IoError.{error_kind};
ghost use Rattle.std.specs.declared.io.ErrorKind.TheVariants.{OutOfMemory};
ghost use Rattle.h5_model.specs.Format.Limits.{most_bytes};
ghost use Rattle.h5_script.specs.Opened.Sound.{IsSound};
ghost use Rattle.h5_cli.specs.Ends.{IsUnopened};
ghost use Rattle.h5_cli.specs.declared.status.Status.TheVariants.{StreamFailed};

use crate::status::Status;
use crate::tell::{failed_on, no_memory, refused};
use h5_script::{File, MAXIMUM_IMAGE};
use std::alloc::{AllocError, Global};
use std::fs::{self, OpenFile, OpenOptions};
use std::io::{self, Read, Write};
use std::rt::Files;

/// Why a file gives no bytes.
#[derive(Clone, Copy, PartialEq, Eq, Debug)]
pub enum ReadFault {
    /// It cannot be read, or has more than 2147483648 bytes.
    Unreadable,
    /// Memory was refused.
    NoMemory,
}

impl From<io::Error> for ReadFault {
    ghost use Rattle.h5_cli.specs.declared.files.ReadFault.TheVariants.{NoMemory};

    ghost from_gives = { λ error fault. (fault ≡ NoMemory) ↔ (error_kind error ≡ OutOfMemory) };

    fn from(error: io::Error) -> ReadFault {
        if error.kind() == io::ErrorKind::OutOfMemory {
            ReadFault::NoMemory
        } else {
            ReadFault::Unreadable
        }
    }
}

impl From<AllocError> for ReadFault {
    ghost use Rattle.h5_cli.specs.declared.files.ReadFault.TheVariants.{NoMemory};

    ghost from_gives = { λ _ fault. fault ≡ NoMemory };

    fn from(_error: AllocError) -> ReadFault {
        ReadFault::NoMemory
    }
}

/// The bytes of the file of this name.
pub(crate) fn read_whole<R: Files>(rt: &R, alloc: Global, file: &str) -> Result<Vec<u8>, ReadFault>
    ensures { IfOk result (λ bytes. length bytes.items ≤ most_bytes) }
{
    let opened = fs::open(rt, file)?;
    let length = opened.metadata()?.len();
    if length > MAXIMUM_IMAGE {
        return Err(ReadFault::Unreadable);
    }
    // A file may have grown since, and not every file knows its length.
    let mut bytes = Vec::new(alloc);
    bytes.reserve(length as usize)?;
    opened.take(MAXIMUM_IMAGE + 1).read_to_end(&mut bytes)?;
    if bytes.len() as u64 > MAXIMUM_IMAGE {
        return Err(ReadFault::Unreadable);
    }
    Ok(bytes)
}

/// The file of this name, opened, or how the run ends where it cannot be.
pub(crate) fn open<R: Files, E: Write>(
    rt: &R,
    alloc: Global,
    file: &str,
    errors: &mut E,
) -> Result<File, Status>
    ensures { MatchResult result IsSound IsUnopened }
{
    let bytes = match read_whole(rt, alloc, file) {
        Ok(bytes) => bytes,
        Err(ReadFault::NoMemory) => return Err(no_memory(errors)),
        Err(ReadFault::Unreadable) => return Err(failed_on("cannot read", file, errors)),
    };
    match File::open(alloc, bytes) {
        Ok(opened) => Ok(opened),
        Err(error) => Err(refused(error.fault, errors)),
    }
}

/// Writes the bytes of a file whole, at the end of a run with this status.
pub(crate) fn write_whole<R: Files, E: Write>(
    rt: &R,
    file: &str,
    image: &[u8],
    status: Status,
    errors: &mut E,
) -> Status
    ensures { (result ≡ status) ⊎ (result ≡ StreamFailed) }
{
    match write_over(rt, file, image) {
        Ok(()) => status,
        Err(_) => failed_on("cannot write", file, errors),
    }
}

/// Writes bytes over those of the file of this name, which is made where there is none, and cuts off what stands behind.
///
/// It is not cut off first: its pages would be given up and taken again, and of a run that is stopped half way nothing
/// would be left but what was written until then.
fn write_over<R: Files>(rt: &R, file: &str, bytes: &[u8]) -> io::Result<()> {
    let mut opened = OpenOptions::new().write(true).create(true).open(rt, file)?;
    opened.write_all(bytes)?;
    if opened.metadata()?.len() > bytes.len() as u64 {
        opened.set_len(bytes.len() as u64)?;
    }
    Ok(())
}
