//! Attributes set and removed where their object stands (File Format Specification 3.0, section IV.A.2.m).

ghost use Rattle.std.specs.Prelude.{◌≡◌, ◌↔◌, ℕ, ◌+◌, ◌<◌, ◌≤◌, ◌^◌, ◌%◌, List, ◌∷◌, [], Some, Err, IsTrue, IsFalse, IsSome, OnOk, OnErr, length};
ghost use Rattle.std.specs.FinMap.{get, insert, remove as without};
ghost use Rattle.h5_model.specs.Edits.Applied.{with_attributes};
ghost use Rattle.h5_model.specs.Format.AttributeBody.{attribute_of};
ghost use Rattle.h5_model.specs.Format.Limits.{most_bytes, most_cells};
ghost use Rattle.h5_model.specs.Tree.Objects.{Attribute, with_object};
ghost use Rattle.h5_model.specs.Tree.Places.{extent_cells};
ghost use Rattle.h5_open.specs.Attributed.{IsAttributeThere, has_full_header};
ghost use Rattle.h5_open.specs.ChangedInPlace.{IsChangedInPlace};
ghost use Rattle.h5_open.specs.Opened.Sound.{IsSound};

use super::Opened;
use super::end::write_end;
use h5_attr::{find_named, remove_at, set};
use h5_header::{AddFault, HeaderRef};

impl Opened {
    /// Sets an attribute of an object, by the body of its message, in place of the one of its name where there is one.
    ///
    /// The message stands in the object's header, in a NIL one where one is long enough, or else in a new block of 32 bytes more than the
    /// body, with a Symbol Table or a Datatype that moves there. Nothing else is read. Takes memory for the block, the two messages and
    /// what is kept of them. A refusal changes nothing.
    ///
    /// That the object of the number is there, and that the body is an attribute's of at most 2^40 cells, sizes of 0 left out, and has a
    /// multiple of 8 bytes below 2^16, are the caller's conditions.
    ///
    /// # Errors
    ///
    /// `HeaderFull` where the header's total of messages plus 2 passes 65535; else `ImageFull` where the image has more than 2147483648
    /// bytes with those of the body and 32 more; else `NoMemory`.
    pub fn set_attribute(&mut self, number: u32, body: &[u8]) -> Result<(), AddFault>
        requires there { IsSome (get self.old.table number) }
        requires attribute { (name : List ℕ) × (a : Attribute)
            × (attribute_of body.now ≡ Some (name, a))
            × (extent_cells a.sizes ≤ most_cells) }
        requires padded { length body.now % 8 ≡ 0 }
        requires low { length body.now < 2 ^ 16 }
        ensures header_full { (result ≡ Err AddFault.HeaderFull) ↔ IsTrue (has_full_header self.old number) }
        ensures image_full { (result ≡ Err AddFault.ImageFull)
            ↔ (IsFalse (has_full_header self.old number)
            × (most_bytes < length self.old.image + (32 + length body.now))) }
        ensures refused { OnErr result (self.new ≡ self.old) }
        ensures sound { IsSound self.new }
        ensures changed { OnOk result ((name : List ℕ) → (a : Attribute)
            → attribute_of body.now ≡ Some (name, a)
            → IsChangedInPlace self.old self.new
            (with_object self.old.tree number (with_attributes (λ attributes. insert attributes name a)))
            self.old.next (number ∷ []) (32 + length body.now)) }
    {
        let object = self.index.objects[number as usize].as_mut().unwrap();
        object
            .messages
            .make_room(&mut self.image, body.len() as u16)?;
        set(&mut self.image, &mut object.messages, body);
        write_end(&mut self.image);
        Ok(())
    }

    /// Removes the attribute of this name from an object: its message in the object's header becomes NIL. Nothing else is read. Takes no
    /// memory.
    ///
    /// That the object of the number has an attribute of this name is the caller's condition.
    pub fn remove_attribute(&mut self, number: u32, name: &[u8])
        requires there { IsAttributeThere self.old number name.now }
        ensures changed { IsChangedInPlace self.old self.new
            (with_object self.old.tree number (with_attributes (λ attributes. without attributes name.now)))
            self.old.next (number ∷ []) 0 }
    {
        let object = self.index.objects[number as usize].as_mut().unwrap();
        match find_named(&HeaderRef::new(&self.image, &object.messages), name) {
            Some(k) => remove_at(&mut self.image, &mut object.messages, k),
            None => unreachable!(),
        }
    }
}
