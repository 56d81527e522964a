//! Arrays of an opened image, as they are to be written (File Format Specification 3.0, sections IV.A.2.d and IV.A.2.i).

ghost use Rattle.std.specs.Prelude.{◌≡◌, IfOk};
ghost use Rattle.h5_model.specs.Tree.Objects.{Array};
ghost use Rattle.h5_query.specs.Data.{AreDataRead};
ghost use Rattle.h5_query.specs.Kept.{IsArrayKept, array_dataset};
ghost use Rattle.h5_repack.specs.Objects.Objects.{IsNewContent};
ghost use Rattle.h5_repack.specs.declared.blocks.cells.Cells.TheVariants.{Stored};
ghost use Rattle.h5_edit.specs.Changed.Cells.{AreCellsKept, AreChunksKept};
ghost use Rattle.h5_edit.specs.Fits.Laws.{AreBytes};

use h5_header::HeaderRef;
use h5_layout::HeldChunks;
use h5_query::{ArrayRef, Layout, known_array};
use h5_repack::{Cells, NewContent};
use h5_space::Image;
use std::alloc::{AllocError, Global};

/// The array that the messages of a header of the image describe, with its cells or its chunks as they are stored.
///
/// Takes memory for the place of each chunk.
pub(crate) fn kept_array<'a>(
    alloc: Global,
    header: &HeaderRef<'a>,
) -> Result<NewContent<'a>, AllocError>
    requires { IsArrayKept header.now }
    ensures array { IfOk result (λ content. IsNewContent content
        (Array (array_dataset header.now.image header.now.messages))) }
    ensures chunks { let h = header.now in
        IfOk result (AreChunksKept h.image h.messages (array_dataset h.image h.messages)) }
{
    let array = known_array(header);
    let cells = kept_cells(alloc, header.image(), &array)?;
    Ok(NewContent::Array { array, cells })
}

/// The cells of an array of the image as they are stored.
fn kept_cells<'a>(
    alloc: Global,
    image: &'a Image,
    array: &ArrayRef<'a>,
) -> Result<Cells<'a>, AllocError>
    requires { AreDataRead image.now.bytes array.now.fixed array.now.layout }
    ensures { IfOk result (AreCellsKept image.now.bytes array.now) }
{
    if let Layout::Chunked { .. } = array.layout() {
        return Ok(Cells::Chunks(HeldChunks::new(alloc, image, array, array.dims())?));
    }
    match array.stored(image) {
        Some(bytes) => Ok(stored_cells(bytes)),
        None => Ok(Cells::Unset),
    }
}

/// Cells that are stored in these bytes, each of which is below 256 by its type.
fn stored_cells(bytes: &[u8]) -> Cells<'_>
    ensures stored { result ≡ Stored bytes.entry }
    ensures low { AreBytes bytes.now }
{
    Cells::Stored(bytes)
}
