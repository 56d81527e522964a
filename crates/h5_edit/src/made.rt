//! What a repack makes (File Format Specification 3.0, sections II.A, III and IV.A).

ghost use Rattle.std.specs.Prelude.{◌≡◌};
ghost use Rattle.h5_edit.specs.Answers.{answer_to};

use h5_model::EditFault;
use h5_repack::{WriteFault, Written};

/// An image that was written anew, with the addresses of its objects' headers by their numbers, `None` for a number without an object.
#[derive(Drop)]
pub struct Made {
    pub image: Vec<u8>,
    pub headers: Vec<Option<u64>>,
}

/// What a repack is answered, by what was written.
pub(crate) fn answer(written: Result<Written, WriteFault>) -> Result<Made, EditFault>
    ensures { result ≡ answer_to written }
{
    match written {
        Ok(Written { image, headers }) => Ok(Made { image, headers }),
        Err(WriteFault::TooLong) => Err(EditFault::ImageFull),
        Err(WriteFault::TooDeep) => Err(EditFault::TreeTooDeep),
        Err(WriteFault::NoMemory) => Err(EditFault::NoMemory),
    }
}
