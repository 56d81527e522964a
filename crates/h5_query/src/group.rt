//! The links of a group, by its number (File Format Specification 3.0, section III.C).

ghost use Rattle.std.specs.Prelude.{◌≡◌, IfOk, MatchOption, OnErr, map};
ghost use Rattle.std.specs.List.{AllByRecursion};
ghost use Rattle.h5_model.specs.Tree.Links.{tree_link, tree_target};
ghost use Rattle.h5_open.specs.Links.{lent_target};
ghost use Rattle.h5_query.specs.Listed.{IsNoGroup, AreGroupLinks, IsTargetLed, IsLinkLed, target_in, in_tree};

use crate::step::number_of;
use h5_model::{Link, LinkTo, ObjectNo};
use h5_open::{Links, Opened, OpenedContent, group_links};
use std::alloc::{AllocError, Global};

/// The links of the group with this number, in ascending order of the bytes of their names; `Ok(None)` if no group
/// has it.
///
/// Takes memory for a reference to each link, and none where no group has the number.
///
/// # Errors
///
/// `AllocError` if a group has the number, and memory is refused.
pub fn links_of<'a>(
    alloc: Global,
    opened: &'a Opened,
    number: ObjectNo,
) -> Result<Option<Vec<Link<'a, ObjectNo>>>, AllocError>
    ensures found { IfOk result (λ found.
        MatchOption found (IsNoGroup opened.now.tree number.0) (λ links.
        AreGroupLinks opened.now.tree number.0 links.items)) }
    ensures refused { OnErr result (IsNoGroup opened.now.tree number.0 → ⊥) }
{
    let Some(object) = opened.object(number.0) else {
        return Ok(None);
    };
    let OpenedContent::Group(table) = &object.content else {
        return Ok(None);
    };
    let found = group_links(alloc, opened.image(), *table)?;
    Ok(Some(tree_links(alloc, opened, found)?))
}

/// These links, with the number of the object to which each hard link leads in place of its address.
///
/// Takes memory for a reference to each link.
///
/// # Errors
///
/// `AllocError` if memory is refused.
pub fn tree_links<'a>(
    alloc: Global,
    opened: &Opened,
    found: Links<'a>,
) -> Result<Vec<Link<'a, ObjectNo>>, AllocError>
    requires { AllByRecursion (IsLinkLed opened.now.table) found }
    ensures { IfOk result (λ links.
        map tree_link links.items ≡ map (in_tree opened.now.table) found.entry) }
{
    let mut links = Vec::with_capacity(alloc, found.len())?;
    for link in found {
        links.push(Link {
            name: link.name(),
            to: link_to(opened, link.to()),
        })?;
    }
    Ok(links)
}

/// Where a link leads, with the number of the object.
fn link_to<'a>(opened: &Opened, target: LinkTo<'a, u64>) -> LinkTo<'a, ObjectNo>
    requires { IsTargetLed opened.now.table (lent_target target) }
    ensures { tree_target result ≡ target_in opened.now.table target.entry }
{
    match target {
        LinkTo::Object(header) => LinkTo::Object(ObjectNo(number_of(opened, header))),
        LinkTo::Soft(text) => LinkTo::Soft(text),
    }
}
