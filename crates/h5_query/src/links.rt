//! What the link at a path leads to.

ghost use Rattle.std.specs.Prelude.{◌≡◌, ℕ, List, Some, MatchResult, length, map};
ghost use Rattle.h5_model.specs.Edits.Refusal.{first_holding};
ghost use Rattle.h5_model.specs.Scripts.Reading.{path_rules, shown_maximum};
ghost use Rattle.h5_model.specs.Format.Described.{storage_of};
ghost use Rattle.h5_open.specs.Layouts.{layout_in};
ghost use Rattle.h5_query.specs.Look.{HasKind, IsArrayKind, IsStored};

use crate::array::stored_array;
use crate::kind::Kind;
use crate::place::{Place, look};
use h5_header::HeaderRef;
use h5_model::{EditFault, Store};
use h5_open::{ArrayRef, Dims, Layout, MAX_RANK, Opened, OpenedContent, StoredArray};

/// How a maximum that is unlimited is shown.
const UNLIMITED: u64 = u64::MAX;

/// What the link at the path leads to. Takes no memory.
///
/// # Errors
///
/// Those of [`crate::look`].
pub fn kind_at<'a>(opened: &'a Opened, path: &[u8]) -> Result<Kind<'a>, EditFault>
    ensures { let tree = opened.now.tree in
        MatchResult result (HasKind tree path.now) (λ e. first_holding (path_rules tree path.now) ≡ Some e) }
{
    match look(opened, path)? {
        Place::Object { object, .. } => match &object.content {
            OpenedContent::Group(_) => Ok(Kind::Group),
            OpenedContent::Array => {
                let header = HeaderRef::new(opened.image(), &object.messages);
                let array = stored_array(&header);
                Ok(array_kind(&array))
            }
        },
        Place::Soft(text) => Ok(Kind::Soft(text)),
    }
}

/// An array as it is shown.
fn array_kind<'a>(array: &StoredArray<'_>) -> Kind<'a>
    ensures { IsArrayKind array.now result }
{
    let array = array.array();
    Kind::Dataset {
        fixed: array.fixed(),
        dims: Dims::new(array.dims().sizes()).unwrap(),
        maxima: show_maxima(array),
        store: store_kind(array.layout()),
        fill: array.fill(),
    }
}

/// The maxima of an array as they are shown.
fn show_maxima(array: &ArrayRef<'_>) -> Dims
    ensures { result ≡ map shown_maximum array.now.maxima }
{
    let rank = array.dims().sizes().len();
    let mut maxima = [0; MAX_RANK];
    write_maxima(array, &mut maxima[..rank]);
    Dims::new(&maxima[..rank]).unwrap()
}

/// Writes the maxima of an array, 2^64 - 1 for one that is unlimited.
fn write_maxima(array: &ArrayRef<'_>, shown: &mut [u64])
    requires { length shown.old ≡ length array.now.sizes }
    ensures { shown.new ≡ map shown_maximum array.now.maxima }
{
    for k in 0..array.rank() {
        shown[k] = array.maximum(k).unwrap_or(UNLIMITED);
    }
}

/// How the cells of an array are stored. Chunks come with their sizes, in cells. Takes no memory.
pub fn store_of(array: &StoredArray<'_>) -> Store<Dims>
    ensures { IsStored array.now.storage result }
{
    store_kind(array.array().layout())
}

/// How the cells of a layout are stored.
fn store_kind(layout: &Layout<'_>) -> Store<Dims>
    ensures { (sizes : List ℕ) → IsStored (storage_of sizes (layout_in layout.now)) result }
{
    match layout {
        Layout::Compact(_) => Store::Compact,
        Layout::Contiguous(_) => Store::Contiguous,
        Layout::Chunked { sizes, .. } => Store::Chunked(sizes.dims()),
    }
}
