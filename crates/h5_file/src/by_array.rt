//! The open views listed by the arrays of which they select cells.

ghost use Rattle.std.specs.Prelude.{◌≡◌, ◌<◌, ℕ, OnOk, OnErr, ◌++◌, ◌∷◌, [], length, map, not, ◌==◌};
ghost use Rattle.std.specs.List.{filter};
ghost use Rattle.h5_file.specs.ByArray.{DoNotFall, listed_under};

use std::alloc::AllocError;

/// An open view, and the array of which it selects cells.
#[derive(Clone, Copy)]
pub(crate) struct ArrayView {
    /// The number of the array.
    pub(crate) object: u32,
    /// The number of the view.
    pub(crate) number: u32,
}

/// The views of the array of this number, in the order of their own numbers. They are found by halving.
pub(crate) fn views_on(listed: &[ArrayView], object: u32) -> &[ArrayView]
    requires { DoNotFall 0 listed.now }
    ensures { map (λ (view : ArrayView). view.number) result.now ≡ listed_under object listed.now }
{
    let from = listed.partition_point(|view| view.object < object);
    let end = listed.partition_point(|view| view.object <= object);
    &listed[from..end]
}

/// Lists one view more, behind the others of its array.
pub(crate) fn list_view(listed: &mut Vec<ArrayView>, view: ArrayView) -> Result<(), AllocError>
    requires { DoNotFall 0 listed.old.items }
    ensures ordered { DoNotFall 0 listed.new.items }
    ensures ok { OnOk result ((object : ℕ) → listed_under object listed.new.items
        ≡ listed_under object listed.old.items ++ listed_under object (view ∷ [])) }
    ensures err { OnErr result (listed.new.items ≡ listed.old.items) }
{
    let at = listed.partition_point(|other| other.object <= view.object);
    listed.insert(at, view)?;
    Ok(())
}

/// Lists the view of this number no more.
pub(crate) fn unlist_view(listed: &mut Vec<ArrayView>, number: u32)
    ensures { listed.new.items
        ≡ filter (λ (view : ArrayView). not (view.number == number)) listed.old.items }
{
    listed.retain(|view| view.number != number);
}
