//! An opened image written anew, with nothing changed (File Format Specification 3.0, sections II.A, III and IV.A).

ghost use Rattle.std.specs.Prelude.{MatchResult};
ghost use Rattle.h5_query.specs.Opened.Sound.{IsSound};
ghost use Rattle.h5_edit.specs.Repacked.{IsRepackMade, IsRepackRefused};

use crate::change::opened_objects;
use crate::made::{Made, answer};
use h5_model::EditFault;
use h5_query::Opened;
use h5_repack::write_tree;
use h5_space::k_values;
use std::alloc::Global;

/// Writes the image anew: its objects keep their numbers, the superblock its version and all K values, and each byte is
/// used. Stored chunks that hold no cell of their array go.
///
/// # Errors
///
/// - `ImageFull`: the image would have more than 2147483648 bytes.
/// - `NoMemory`: memory is refused.
pub fn repack(alloc: Global, opened: &Opened) -> Result<Made, EditFault>
    ensures repacked { MatchResult result (IsRepackMade opened.now) (IsRepackRefused opened.now) }
    ensures sound { IsSound opened.now }
{
    let bytes = opened.image().bytes();
    let k = k_values(bytes);
    let Ok(objects) = opened_objects(alloc, opened) else {
        return Err(EditFault::NoMemory);
    };
    answer(write_tree(alloc, &k, &objects))
}
