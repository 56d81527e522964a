//! What an object is, by the types of its messages (File Format Specification 3.0, section IV.A.2).

ghost use Rattle.std.specs.Prelude.{◌≡◌, ℕ, List, ◌↔◌, Ok, Err, IfErr, MatchResult};
ghost use Rattle.h5_model.specs.Faults.HeaderFaults.{ListBreach};
ghost use Rattle.h5_model.specs.Format.Messages.{count_of};
ghost use Rattle.h5_header.specs.Kinds.{IsOfGroup, IsOfDataset};
ghost use Rattle.h5_header.specs.Listed.{messages_in};

use crate::header::Messages;
use h5_model::message_type::{
    DATA_LAYOUT, DATASPACE, DATATYPE, FILL_VALUE, OLD_FILL_VALUE, SYMBOL_TABLE,
};
use h5_model::{Cause, OpenFault};
use h5_space::fault;

/// What an object header is of.
#[derive(Clone, Copy, Debug, PartialEq, Eq)]
pub enum ObjectKind {
    Group,
    Dataset,
}

impl Messages {
    /// What the object is by its messages: a group if one of them is a Symbol Table, else a dataset. The names of
    /// attributes are not compared. Takes no memory.
    ///
    /// # Errors
    ///
    /// The first of these that holds, at the header:
    ///
    /// - `MissingMessage`: there is no Symbol Table, and no Dataspace, no Datatype or no Data Layout.
    /// - `DuplicateMessage`: one of these, or a Fill Value, stands twice or beside a Symbol Table.
    pub fn object_kind(&self) -> Result<ObjectKind, OpenFault>
        ensures group { (image : List ℕ)
            → (result ≡ Ok ObjectKind.Group) ↔ IsOfGroup (messages_in image self.now.list) }
        ensures dataset { (image : List ℕ)
            → (result ≡ Ok ObjectKind.Dataset) ↔ IsOfDataset (messages_in image self.now.list) }
        ensures address { IfErr result (λ fault. fault.address ≡ self.now.header) }
        ensures refused { (image : List ℕ)
            → IfErr result (λ fault.
            ListBreach image self.now.header (messages_in image self.now.list) fault.cause) }
    {
        let header = self.header();
        let table = self.count(SYMBOL_TABLE);
        let space = self.count(DATASPACE);
        let datatype = self.count(DATATYPE);
        let layout = self.count(DATA_LAYOUT);
        let old_fill = self.count(OLD_FILL_VALUE);
        let new_fill = self.count(FILL_VALUE);
        if table == 0 && (space == 0 || datatype == 0 || layout == 0) {
            return Err(fault(Cause::MissingMessage, header));
        }
        if table > 1 || space > 1 || datatype > 1 || layout > 1 || old_fill > 1 || new_fill > 1 {
            return Err(fault(Cause::DuplicateMessage, header));
        }
        if table == 0 {
            return Ok(ObjectKind::Dataset);
        }
        if space > 0 || datatype > 0 || layout > 0 || old_fill > 0 || new_fill > 0 {
            return Err(fault(Cause::DuplicateMessage, header));
        }
        Ok(ObjectKind::Group)
    }

    /// How many messages are of a type.
    fn count(&self, kind: u16) -> usize
        ensures { (image : List ℕ) → result ≡ count_of kind (messages_in image self.now.list) }
    {
        self.list().iter().filter(|m| m.kind == kind).count()
    }
}
