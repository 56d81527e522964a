//! How many hard links lead to each object (File Format Specification 3.0, section IV.A.1.a).

ghost use Rattle.std.specs.Prelude.{◌≡◌, ℕ, IfOk, ◌+◌, ◌<◌, ◌^◌, length, Some, slice_get, slice_index};
ghost use Rattle.std.specs.List.{Contains};
ghost use Rattle.h5_model.specs.Tree.Objects.{Tree, hard_links};
ghost use Rattle.h5_laws.specs.Trees.Sound.{IsSoundTree};
ghost use Rattle.h5_repack.specs.Objects.Objects.{AreObjects};
ghost use Rattle.h5_repack.specs.Objects.Targets.{targets, times};

use crate::objects::object::{NewObject, links_of};
use h5_model::{Link, LinkTo, ObjectNo};
use std::alloc::{AllocError, Global};

/// How many hard links lead to each object, by its number. Each link is looked at once.
///
/// Takes memory for a number for each slot.
///
/// # Errors
///
/// `AllocError` if memory is refused.
pub fn count_links(alloc: Global, objects: &[Option<NewObject<'_>>]) -> Result<Vec<u32>, AllocError>
    requires few { length objects.now < 2 ^ 32 }
    requires tree { (tree : Tree) × AreObjects objects.now tree × IsSoundTree tree }
    ensures length { IfOk result (λ counts. length counts.items ≡ length objects.now) }
    ensures counted { IfOk result (λ counts. (tree : Tree) → AreObjects objects.now tree → IsSoundTree tree
        → (number : ℕ) → number < length objects.now
        → slice_get counts.items number ≡ Some (hard_links tree number)) }
{
    let mut counts = vec![in alloc; 0; objects.len()]?;
    for object in objects {
        count_group(links_of(object), &mut counts);
    }
    Ok(counts)
}

/// Adds the links of a group to the counts of the objects to which they lead.
fn count_group(links: &[Link<'_, ObjectNo>], counts: &mut [u32])
    requires below { (number : ℕ) → Contains (targets links.now) number → number < length counts.old }
    requires few { (number : ℕ) → Contains (targets links.now) number
        → slice_index counts.old number + times number (targets links.now) < 2 ^ 32 }
    ensures length { length counts.new ≡ length counts.old }
    ensures counted { (number : ℕ) → number < length counts.old
        → slice_index counts.new number ≡ slice_index counts.old number + times number (targets links.now) }
{
    for link in links {
        if let LinkTo::Object(number) = link.to {
            counts[number.0 as usize] += 1;
        }
    }
}
