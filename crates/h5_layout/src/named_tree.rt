//! Whether an array in chunks has a tree, of which one message of its header tells (File Format Specification 3.0,
//! section IV.A.2.i).

ghost use Rattle.std.specs.Prelude.{◌≡◌, ℕ, Option, List, true, is_none};
ghost use Rattle.h5_model.specs.Edits.Refusal.{is_chunked};
ghost use Rattle.h5_model.specs.Format.Layout.{InChunks};
ghost use Rattle.h5_model.specs.Format.Described.{HasArray, storage_of};
ghost use Rattle.h5_layout.specs.Told.{array_told};
ghost use Rattle.h5_layout.specs.Trimmed.{IsTrimmed};

use crate::bodies::one_body;
use h5_bytes::{UNDEF, u64_at};
use h5_header::HeaderRef;
use h5_model::message_type::DATA_LAYOUT;

/// Where the address of the tree stands in the body of a Data Layout message.
const TREE: usize = 3;

/// Whether an array in chunks has no tree, so that it stores no chunk, and nothing outside any extent. Only its Data
/// Layout message is read. Takes no memory.
///
/// That the array was read, and that it is in chunks, are the caller's conditions.
pub fn lacks_tree(header: &HeaderRef<'_>) -> bool
    requires array { HasArray header.now.messages (array_told header.now.messages) }
    requires chunked { let a = array_told header.now.messages in
        is_chunked (storage_of a.sizes a.layout) ≡ true }
    ensures exact { (chunk : List ℕ) (root : Option ℕ)
        → (array_told header.now.messages).layout ≡ InChunks chunk root
        → result ≡ is_none root }
    ensures trimmed { result ≡ true → (sizes : List ℕ)
        → IsTrimmed header.now.image (array_told header.now.messages) sizes }
{
    u64_at(one_body(header, DATA_LAYOUT), TREE) == UNDEF
}
