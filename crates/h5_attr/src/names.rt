//! The names of the attributes of a header (File Format Specification 3.0, section IV.A.2.m).

ghost use Rattle.std.specs.Prelude.{◌≡◌, ◌⊎◌, map, IsPermutation, IsSorted, IfOk, IfErr, OnOk, MatchBool};
ghost use Rattle.std.specs.Ordering.{nat_cmp, eq_by_cmp};
ghost use Rattle.std.specs.Cmp.Lexicographic.{slice_cmp};
ghost use Rattle.std.specs.FinMap.{keys};
ghost use Rattle.std.specs.List.{IsDistinct};
ghost use Rattle.h5_model.specs.Faults.HeaderFaults.{HasNameTwice};
ghost use Rattle.h5_model.specs.Format.Reads.{HasAttributes};
ghost use Rattle.h5_model.specs.Tree.Objects.{Attributes};
ghost use Rattle.h5_attr.specs.Attributes.{attribute_names_in as names_of, HasNamesOnce};

use crate::message::attribute;
use h5_header::HeaderRef;
use h5_model::{Cause, OpenFault};
use std::alloc::{AllocError, Global};

/// Checks that the names of a header's attributes differ. Attributes that have another form are passed over;
/// `check_bodies` finds them. Takes memory for a reference to each name, and time to sort these.
///
/// # Errors
///
/// The address is that of the header.
///
/// - `DuplicateMessage`: two attributes have the same name.
/// - `NoMemory`: memory is refused.
pub fn check_names(alloc: Global, header: &HeaderRef<'_>) -> Result<(), OpenFault>
    ensures once { OnOk result (HasNamesOnce header.now.messages) }
    ensures refused { IfErr result (λ fault. (fault.cause ≡ Cause.NoMemory)
        ⊎ ((fault.cause ≡ Cause.DuplicateMessage) × HasNameTwice header.now.messages)) }
    ensures address { IfErr result (λ fault. fault.address ≡ header.now.address) }
    ensures only { (attributes : Attributes)
        → HasAttributes header.now.messages attributes
        → IfErr result (λ fault. fault.cause ≡ Cause.NoMemory) }
{
    let Ok(names) = list(alloc, header) else {
        return Err(OpenFault {
            cause: Cause::NoMemory,
            address: header.address(),
        });
    };
    if !is_distinct(&names) {
        return Err(OpenFault {
            cause: Cause::DuplicateMessage,
            address: header.address(),
        });
    }
    Ok(())
}

/// The names of a header's attributes, in ascending order of their bytes.
///
/// Attributes that have another form are passed over. Takes memory for a reference to each name.
///
/// # Errors
///
/// `AllocError` if memory is refused.
pub fn list<'a>(alloc: Global, header: &HeaderRef<'a>) -> Result<Vec<&'a [u8]>, AllocError>
    ensures sorted { IfOk result (λ names.
        IsSorted (slice_cmp nat_cmp) (map (λ name. name.now) names.items)) }
    ensures same { IfOk result (λ names.
        IsPermutation (names_of header.now.messages) (map (λ name. name.now) names.items)) }
    ensures names { IfOk result (λ names. (attributes : Attributes)
        → HasAttributes header.now.messages attributes
        → map (λ name. name.now) names.items ≡ keys attributes) }
{
    let mut names = names_in(alloc, header)?;
    names.sort_unstable();
    Ok(names)
}

/// The names in the order of the messages.
fn names_in<'a>(alloc: Global, header: &HeaderRef<'a>) -> Result<Vec<&'a [u8]>, AllocError>
    ensures { IfOk result (λ names.
        map (λ name. name.now) names.items ≡ names_of header.now.messages) }
{
    let bytes = header.bytes();
    let mut names = Vec::new(alloc);
    for message in header.list() {
        if let Some(attribute) = attribute(bytes, *message) {
            names.push(attribute.name())?;
        }
    }
    Ok(names)
}

/// Whether names that stand in order differ.
fn is_distinct(names: &[&[u8]]) -> bool
    requires { IsSorted (slice_cmp nat_cmp) (map (λ name. name.now) names.now) }
    ensures { let differ = IsDistinct (eq_by_cmp (slice_cmp nat_cmp)) (map (λ name. name.now) names.now) in
        MatchBool result differ (differ → ⊥) }
{
    names.is_sorted_by(|first, second| first < second)
}
