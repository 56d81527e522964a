//! What the messages of an object's header have to be.

ghost use Rattle.std.specs.Prelude.{◌≡◌, ◌≤◌, ◌↔◌, None, Ok, IfOk, IfErr, OnOk, MatchBool, MatchResult};
ghost use Rattle.h5_attr.specs.Attributes.{HasNamesOnce};
ghost use Rattle.h5_header.specs.Kinds.{IsOfGroup, IsOfDataset};
ghost use Rattle.h5_layout.specs.Told.{array_told};
ghost use Rattle.h5_model.specs.Format.MessageTypes.{symbol_table_kind};
ghost use Rattle.h5_model.specs.Format.Messages.{count_of};
ghost use Rattle.h5_open.specs.Opened.Judged.{IsGroupList, IsArrayList, IsKindBreach, IsBodiesBreach, IsFirstBreach, array_breach, group_breach};

use h5_attr::{check_bodies, check_names};
use h5_group::{SymbolTable, read_symbol_table};
use h5_header::{HeaderRef, ObjectKind};
use h5_layout::{ArrayRef, read_array};
use h5_model::message_type::SYMBOL_TABLE;
use h5_model::{Cause, OpenFault};
use h5_space::fault;
use std::alloc::Global;

/// What a header is of that stands so many links below the root; the root is a group.
///
/// `MissingMessage` where the root has no Symbol Table; then what is wrong with the types of the messages. Both are at the
/// header.
pub(crate) fn judge_kind(header: &HeaderRef<'_>, depth: u8) -> Result<ObjectKind, OpenFault>
    ensures group { (result ≡ Ok ObjectKind.Group) ↔ IsOfGroup header.now.messages }
    ensures dataset { (result ≡ Ok ObjectKind.Dataset)
        ↔ ((1 ≤ depth) × IsOfDataset header.now.messages) }
    ensures address { IfErr result (λ fault. fault.address ≡ header.now.address) }
    ensures refused { IfErr result (λ fault.
        IsKindBreach header.now.image header.now.address depth header.now.messages fault.cause) }
{
    if depth == 0 && !has_table(header) {
        return Err(fault(Cause::MissingMessage, header.address()));
    }
    header.messages().object_kind()
}

/// Whether one of the messages is a Symbol Table.
#[tactic(auto, using(crate::proofs::JudgeLaws::some_counted))]
fn has_table(header: &HeaderRef<'_>) -> bool
    ensures { let tables = count_of symbol_table_kind header.now.messages in
        MatchBool result (1 ≤ tables) (tables ≡ 0) }
{
    header.find_body(SYMBOL_TABLE).is_some()
}

/// The tree and heap of a group, by the messages of its header.
///
/// Two attributes of one name are `DuplicateMessage`; then what is wrong with an attribute's body; then `HeapForm` where the
/// Symbol Table is short. All are at the header. `NoMemory` where memory is refused.
pub(crate) fn judge_group(alloc: Global, header: &HeaderRef<'_>) -> Result<SymbolTable, OpenFault>
    requires { IsOfGroup header.now.messages }
    ensures read { IfOk result (λ table. IsGroupList header.now.messages table) }
    ensures names { OnOk result (HasNamesOnce header.now.messages) }
    ensures address { IfErr result (λ fault. fault.address ≡ header.now.address) }
    ensures first { let ms = header.now.messages in
        MatchResult result (λ table. group_breach ms ≡ None)
        (λ fault. IsFirstBreach ms (group_breach ms) fault.cause) }
    ensures refused { IfErr result (λ fault.
        IsBodiesBreach header.now.image header.now.address header.now.messages fault.cause) }
{
    check_names(alloc, header)?;
    check_bodies(header)?;
    let body = header.find_body(SYMBOL_TABLE).unwrap();
    let Ok(table) = read_symbol_table(body) else {
        return Err(fault(Cause::HeapForm, header.address()));
    };
    Ok(table)
}

/// The array that the messages of a dataset's header describe.
///
/// Two attributes of one name are `DuplicateMessage`; then the bodies are judged, those of attributes last. All are at the
/// header. `NoMemory` where memory is refused.
pub(crate) fn judge_array<'a>(
    alloc: Global,
    header: &HeaderRef<'a>,
) -> Result<ArrayRef<'a>, OpenFault>
    requires { IsOfDataset header.now.messages }
    ensures told { IfOk result (λ array. array ≡ array_told header.now.messages) }
    ensures read { OnOk result (IsArrayList header.now.messages) }
    ensures names { OnOk result (HasNamesOnce header.now.messages) }
    ensures address { IfErr result (λ fault. fault.address ≡ header.now.address) }
    ensures first { let ms = header.now.messages in
        MatchResult result (λ array. array_breach ms ≡ None)
        (λ fault. IsFirstBreach ms (array_breach ms) fault.cause) }
    ensures refused { IfErr result (λ fault.
        IsBodiesBreach header.now.image header.now.address header.now.messages fault.cause) }
{
    check_names(alloc, header)?;
    let array = read_array(header)?;
    check_bodies(header)?;
    Ok(array)
}
