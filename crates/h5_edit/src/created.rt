//! New groups and arrays (File Format Specification 3.0, sections III.A.1, III.C, III.D and IV.A).
mod array;

ghost use Rattle.std.specs.Prelude.{◌≡◌, ◌↔◌, ◌+◌, ◌^◌, ◌<◌, ◌≤◌, ℕ, IsSome, MatchOption, MatchResult, length};
ghost use Rattle.h5_model.specs.Format.Addresses.{SymbolTable};
ghost use Rattle.h5_model.specs.Format.Limits.{most_bytes};
ghost use Rattle.h5_model.specs.Tree.Objects.{links_of};
ghost use Rattle.h5_model.specs.declared.edits.Edit.TheVariants.{CreateGroup, CreateDataset};
ghost use Rattle.h5_query.specs.LinkAdded.{IsGroupOf};
ghost use Rattle.h5_query.specs.LinkEdits.{IsFullFor};
ghost use Rattle.h5_query.specs.ObjectAdded.{place_in};
ghost use Rattle.h5_repack.specs.Blocks.ArrayHeader.{IsLength};
ghost use Rattle.h5_edit.specs.Answers.{added_answer};
ghost use Rattle.h5_edit.specs.Carried.{IsRefused};
ghost use Rattle.h5_edit.specs.Edited.{IsEdited};

use crate::created::array::{array_from, block_cells};
use crate::links::insertion_fault;
use crate::rules::{NewPlace, check_create_dataset, check_create_group};
use h5_btree::InsertFault;
use h5_model::{EditFault, Edited, ObjectNo, Spec};
use h5_query::{ContentBytes, ObjectBytes, Opened};
use h5_repack::{
    Cells, GROUP_HEADER, Others, array_header_length, bare_group_length, bare_group_table,
    cells_address, data_length, push_array_header, push_bare_group,
};
use h5_space::{SpaceFault, chunk_k, k_values};
use std::alloc::Global;

/// Creates an empty group at the path.
///
/// The group's header, tree and heap come into one block, and the link is put into the group before the last name where that stands. No other
/// object changes, and no header moves. The image grows by no more than these, 17 nodes of that group's tree, a symbol node, and a segment
/// twice as long as its and 16 bytes more than that with the name.
///
/// # Errors
///
/// Those of [`check_create_group`]; then the first of these that holds. A refusal changes nothing.
///
/// - `TreeTooDeep`: the root of the B-tree of the group that gets the link is at level 15, and all on the way to the name is full.
/// - `ImageFull`: the image, and the bytes that the group and its link may add, are more than 2147483648 bytes.
/// - `NoMemory`: memory is refused. It may come in place of `TreeTooDeep` and `ImageFull`.
pub fn create_group(alloc: Global, opened: &mut Opened, path: &[u8]) -> Result<Edited, EditFault>
    ensures { MatchResult result (IsEdited opened.old (CreateGroup path.now) opened.new) (λ e.
        IsRefused opened.old (CreateGroup path.now) e × (opened.new ≡ opened.old)) }
{
    let number = opened.next();
    let place = check_create_group(opened, path)?;
    let k = k_values(opened.image().bytes());
    let Some(at) = opened.place_for(bare_group_length(k.internal)) else {
        return Err(insertion_fault(no_room(opened, &place)));
    };
    let mut bytes = Vec::new(alloc);
    push_bare_group(alloc, &mut bytes, &k, at)?;
    let group = ObjectBytes {
        header: &bytes[..GROUP_HEADER as usize],
        content: ContentBytes::Group {
            table: bare_group_table(k.internal, at),
            bytes: &bytes[GROUP_HEADER as usize..],
        },
    };
    let added = opened.add_object(alloc, place.parent, place.name, &group);
    answered(added, number)
}

/// Creates an array at the path. Each of its cells has the value of the fill.
///
/// Its header, and its cells where it is contiguous, come into one block, and the link is put into the group before the last name where that
/// stands. No other object changes, and no header moves. The image grows by no more than these, 17 nodes of that group's tree, a symbol node,
/// and a segment twice as long as its and 16 bytes more than that with the name.
///
/// # Errors
///
/// Those of [`check_create_dataset`]; then the first of these that holds. A refusal changes nothing.
///
/// - `TreeTooDeep`: the root of the B-tree of the group that gets the link is at level 15, and all on the way to the name is full.
/// - `ImageFull`: the image, and the bytes that the array and its link may add, are more than 2147483648 bytes.
/// - `NoMemory`: memory is refused. It may come in place of `TreeTooDeep` and `ImageFull`.
pub fn create_dataset(
    alloc: Global,
    opened: &mut Opened,
    path: &[u8],
    spec: &Spec,
) -> Result<Edited, EditFault>
    ensures { MatchResult result (IsEdited opened.old (CreateDataset path.now spec.now) opened.new) (λ e.
        IsRefused opened.old (CreateDataset path.now spec.now) e × (opened.new ≡ opened.old)) }
{
    let number = opened.next();
    let place = check_create_dataset(opened, path, spec)?;
    // The call's contract says that the type is a sound one.
    let _size = spec.fixed.size();
    let array = array_from(spec);
    let others = Others::new(alloc);
    let header = array_header_length(&array, &others);
    let chunk = chunk_k(opened.image().bytes());
    let data = data_length(chunk, &array, &Cells::Filled);
    let Some(at) = place_with(opened, header, data) else {
        return Err(insertion_fault(no_room(opened, &place)));
    };
    let address = cells_address(&array, &Cells::Filled, at + header);
    let mut bytes = Vec::new(alloc);
    push_array_header(&mut bytes, &array, &Cells::Filled, &others, address, 1)?;
    let dataset = ObjectBytes {
        header: &bytes,
        content: ContentBytes::Cells {
            fixed: spec.fixed,
            fill: spec.fill,
            count: block_cells(&array),
        },
    };
    let added = opened.add_object(alloc, place.parent, place.name, &dataset);
    answered(added, number)
}

/// Where an array will stand whose header and cells have so many bytes; `None` where the image has more than 2147483648 bytes with them.
/// The cells alone have more than that where they are `None`.
fn place_with(opened: &Opened, header: u64, cells: Option<u64>) -> Option<u64>
    requires header { (0 < header) × (header ≤ 2 ^ 33) }
    requires cells { (long : ℕ) × IsLength cells long }
    ensures { (long : ℕ) → IsLength cells long
        → MatchOption result (most_bytes < length opened.now.image + (header + long))
        (λ at. (at ≡ place_in opened.now (header + long)) × (at + (header + long) ≤ most_bytes)) }
{
    opened.place_for(header + cells?)
}

/// Why an object is refused whose bytes alone, with those of the image, are more than 2147483648.
fn no_room(opened: &Opened, place: &NewPlace<'_>) -> InsertFault
    requires group { IsSome (links_of opened.now.tree place.now.parent) }
    ensures deep { (table : SymbolTable) → IsGroupOf opened.now place.now.parent table
        → (result ≡ InsertFault.TreeTooDeep) ↔ IsFullFor opened.now.image table place.now.name.now }
    ensures full { (table : SymbolTable) → IsGroupOf opened.now place.now.parent table
        → (result ≡ InsertFault.Space SpaceFault.ImageFull)
        ↔ (IsFullFor opened.now.image table place.now.name.now → ⊥) }
{
    if opened.is_too_deep(place.parent, place.name) {
        InsertFault::TreeTooDeep
    } else {
        InsertFault::Space(SpaceFault::ImageFull)
    }
}

/// What the creation of an object of this number is answered, by what came of adding it.
fn answered(added: Result<(), InsertFault>, number: u32) -> Result<Edited, EditFault>
    ensures { result ≡ added_answer added number }
{
    match added {
        Ok(()) => Ok(Edited {
            object: Some(ObjectNo(number)),
            refreshed: 0,
        }),
        Err(fault) => Err(insertion_fault(fault)),
    }
}
