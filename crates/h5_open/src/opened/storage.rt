//! Storage made for the cells of an array where it stands (File Format Specification 3.0, sections III.A.1 and IV.A.2.i).

ghost use Rattle.std.specs.Prelude.{◌≡◌, ◌↔◌, ℕ, ◌+◌, ◌<◌, ◌≤◌, Err, IfOk, OnErr, OnOk, Some, ◌∷◌, [], length};
ghost use Rattle.std.specs.List.{Contains};
ghost use Rattle.h5_model.specs.Edits.Applied.{with_dataset};
ghost use Rattle.h5_model.specs.Format.Limits.{most_bytes};
ghost use Rattle.h5_model.specs.Tree.Objects.{with_object};
ghost use Rattle.h5_model.specs.Views.Selection.{Slab, selection_of};
ghost use Rattle.h5_model.specs.Format.Described.{Described};
ghost use Rattle.h5_layout.specs.ArrayEdits.{IsArrayApart, described_in};
ghost use Rattle.h5_layout.specs.Lacking.{IsFound, IsMissing, stored_all};
ghost use Rattle.h5_layout.specs.RunStorage.{IsMadeAt};
ghost use Rattle.h5_layout.specs.Storage.{IsDeepFor, IsStorageMade, storage_bytes};
ghost use Rattle.h5_open.specs.ChangedInPlace.{IsChangedInPlace};
ghost use Rattle.h5_open.specs.Opened.Sound.{IsSound};
ghost use Rattle.h5_open.specs.Written.{IsArrayThere, IsCellStored};

use super::Opened;
use super::end::write_end;
use h5_group::InsertFault;
use h5_header::Messages;
use h5_layout::{Missing, check_storage, is_refused_first, make_storage};
use h5_space::{Image, SpaceFault};
use std::alloc::Global;

impl Opened {
    /// Makes the storage that is missing of an array: the block of a contiguous one, or chunks, each cell of which is the fill.
    /// Returns the address of the block, or of the first of these chunks.
    ///
    /// It is made where the array stands (`make_storage` of `h5_layout`); nothing else is read. Takes memory for the blocks that it may
    /// need, before the first change. Where several chunks are missing, and the root of their tree stands so high that the tree may get too
    /// deep (`is_low` of `h5_chunks`), one of them may be refused in its turn: then all is made on a copy of the image, which takes its
    /// place in the end. A refusal changes nothing.
    ///
    /// That the object of the number is an array, and that so much is missing of it for some selection, are the caller's conditions.
    ///
    /// # Errors
    ///
    /// - `TreeTooDeep`: one of the missing chunks, in its turn, finds the root at level 15 and each node on its way full. Where the first
    ///   one does, always.
    /// - `Space`: `ImageFull` where the image has more than 2147483648 bytes with those that the storage may take, and the first chunk
    ///   finds room; or `NoMemory`.
    pub fn make_storage(
        &mut self,
        alloc: Global,
        number: u32,
        missing: &Missing,
    ) -> Result<u64, InsertFault>
        requires missing { (a : Described) × IsArrayThere self.old number a
            × ((slab : Slab) × IsMissing self.old.image a slab missing.now) }
        ensures changed { OnOk result ((a : Described) → IsArrayThere self.old number a
            → IsChangedInPlace self.old self.new
            (with_object self.old.tree number (with_dataset stored_all)) self.old.next (number ∷ [])
            (storage_bytes self.old.image a missing.now)) }
        ensures sound { IsSound self.new }
        ensures stored { OnOk result ((a : Described) (slab : Slab) → IsArrayThere self.old number a
            → IsMissing self.old.image a slab missing.now
            → (place : ℕ) → Contains (selection_of a.sizes slab) place → IsCellStored self.new number place) }
        ensures placed { IfOk result (λ at. (a : Described) (slab : Slab) → IsArrayThere self.old number a
            → IsFound self.old.image a slab (Some missing.now)
            → (b : Described) → IsArrayThere self.new number b
            → IsMadeAt self.new.image b missing.now at × (at ≤ length self.new.image)) }
        ensures deep { (a : Described) → IsArrayThere self.old number a
            → result ≡ Err InsertFault.TreeTooDeep
            → (n : ℕ) × IsDeepFor self.old.image a missing.now n }
        ensures deep_first { (a : Described) → IsArrayThere self.old number a
            → IsDeepFor self.old.image a missing.now 0 → result ≡ Err InsertFault.TreeTooDeep }
        ensures full { (a : Described) → IsArrayThere self.old number a
            → (result ≡ Err (InsertFault.Space SpaceFault.ImageFull))
            ↔ ((IsDeepFor self.old.image a missing.now 0 → ⊥)
            × (most_bytes < length self.old.image + storage_bytes self.old.image a missing.now)) }
        ensures refused { OnErr result (self.new ≡ self.old) }
    {
        let object = self.index.objects[number as usize].as_ref().unwrap();
        let at = make_all_or_none(alloc, &mut self.image, &object.messages, missing)?;
        write_end(&mut self.image);
        Ok(at)
    }
}

/// Makes the storage that is missing of an array, or changes nothing (`make_storage` of `h5_layout`). Returns the address of the
/// block, or of the first chunk.
///
/// Where a chunk may be refused when others are made already, all is made on a copy of the image, which takes its place in the
/// end. That the copy has room is asked before it is made, so that memory is the last that can be short.
///
/// # Errors
///
/// Those of `Opened::make_storage`.
fn make_all_or_none(
    alloc: Global,
    image: &mut Image,
    messages: &Messages,
    missing: &Missing,
) -> Result<u64, InsertFault>
    requires array { IsArrayApart image.old messages.now }
    requires missing { (slab : Slab)
        × IsMissing image.old.bytes (described_in image.old.bytes messages.now) slab missing.now }
    requires short { length image.old.bytes ≤ most_bytes }
    ensures made { OnOk result ((slab : Slab)
        → IsMissing image.old.bytes (described_in image.old.bytes messages.now) slab missing.now
        → IsStorageMade image.old image.new messages.now slab missing.now) }
    ensures placed { IfOk result (λ at. (slab : Slab)
        → IsFound image.old.bytes (described_in image.old.bytes messages.now) slab (Some missing.now)
        → IsMadeAt image.new.bytes (described_in image.new.bytes messages.now) missing.now at) }
    ensures spends { OnOk result (length image.new.bytes ≤ length image.old.bytes
        + storage_bytes image.old.bytes (described_in image.old.bytes messages.now) missing.now) }
    ensures deep { result ≡ Err InsertFault.TreeTooDeep
        → (n : ℕ) × IsDeepFor image.old.bytes (described_in image.old.bytes messages.now) missing.now n }
    ensures deep_first { IsDeepFor image.old.bytes (described_in image.old.bytes messages.now) missing.now 0
        → result ≡ Err InsertFault.TreeTooDeep }
    ensures full { (result ≡ Err (InsertFault.Space SpaceFault.ImageFull))
        ↔ ((IsDeepFor image.old.bytes (described_in image.old.bytes messages.now) missing.now 0 → ⊥)
        × (most_bytes < length image.old.bytes
        + storage_bytes image.old.bytes (described_in image.old.bytes messages.now) missing.now)) }
    ensures refused { OnErr result (image.new ≡ image.old) }
{
    if is_refused_first(image, messages, missing) {
        return make_storage(image, messages, missing);
    }
    check_storage(image, messages, missing)?;
    let Ok(mut copy) = image.copy_of(alloc) else {
        return Err(InsertFault::Space(SpaceFault::NoMemory));
    };
    let at = make_storage(&mut copy, messages, missing)?;
    *image = copy;
    Ok(at)
}
