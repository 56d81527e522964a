//! Images that were written anew, opened (File Format Specification 3.0, sections II.A, III and IV.A).

ghost use Rattle.std.specs.Prelude.{◌≡◌, [], IfOk, length};
ghost use Rattle.std.specs.FinMap.{len};
ghost use Rattle.h5_model.specs.Format.Superblock.{IsSuperblock, end_of_file, k_values};
ghost use Rattle.h5_query.specs.Opened.Refused.{ReadsSome};
ghost use Rattle.h5_query.specs.Opened.Sound.{IsSound, IsWholeFile};
ghost use Rattle.h5_query.specs.Opened.State.{FileState, state_of};
ghost use Rattle.h5_query.specs.Renumbered.Headers.{table_with};
ghost use Rattle.h5_edit.specs.Repacked.{IsAnew};

use h5_model::Cause;
use h5_query::Opened;
use h5_space::Image;
use std::alloc::{AllocError, Global};

/// Opens an image that was written anew, and gives its objects the numbers of these headers.
///
/// # Errors
///
/// `AllocError` if memory is refused.
pub fn open_made(
    alloc: Global,
    image: Vec<u8>,
    headers: &[Option<u64>],
) -> Result<Opened, AllocError>
    requires { (f : FileState) × IsAnew f image.items headers.now }
    ensures anew { IfOk result (λ o. (f : FileState) → IsAnew f image.items headers.now
        → (state_of o ≡ state_of f) × (k_values o.image ≡ k_values f.image)) }
    ensures whole { IfOk result (λ o. IsSound o × IsWholeFile o × (o.free ≡ [])) }
    ensures image { IfOk result (λ o. o.image ≡ image.items) }
    ensures table { IfOk result (λ o. o.table ≡ table_with headers.now) }
{
    let mut opened = open_written(alloc, Image::new(alloc, image))?;
    opened.renumber(headers)?;
    Ok(opened)
}

/// Opens an image without free blocks that reads as a tree.
///
/// # Errors
///
/// `AllocError` if memory is refused.
pub fn open_written(alloc: Global, image: Image) -> Result<Opened, AllocError>
    requires superblock { IsSuperblock image.bytes }
    requires whole { end_of_file image.bytes ≡ length image.bytes }
    requires free { image.free ≡ [] }
    requires read { ReadsSome image.bytes }
    ensures image { IfOk result (λ o. (o.image ≡ image.bytes) × (o.free ≡ [])) }
    ensures sound { IfOk result IsSound }
    ensures numbers { IfOk result (λ o. o.next ≡ len o.tree) }
{
    match Opened::open(alloc, image) {
        Ok(opened) => Ok(opened),
        Err((fault, _image)) => match fault.cause {
            Cause::NoMemory => Err(AllocError),
            _ => unreachable!(),
        },
    }
}
