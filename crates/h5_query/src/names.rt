//! The names in a group (File Format Specification 3.0, section III.B).

ghost use Rattle.std.specs.Prelude.{◌≡◌, IfOk, MatchResult};
ghost use Rattle.std.specs.Iterator.{YieldsFirstBy, item_count};
ghost use Rattle.h5_open.specs.Links.{IsGroupRead};
ghost use Rattle.h5_query.specs.Kept.{names_of_group};
ghost use Rattle.h5_query.specs.Look.{HasLinksNamed, IsListRefused};

use crate::place::{Place, look};
use h5_model::EditFault;
use h5_open::{Links, Opened, OpenedContent, SymbolTable, group_links};
use h5_space::Image;
use std::alloc::{AllocError, Global};
use std::marker::Model;

/// The names in a group that are left, in ascending order of their bytes. No step takes memory.
#[derive(Drop)]
pub struct LinkNames<'a> {
    links: Links<'a>,
}

impl<'a> Model for LinkNames<'a> {
    ghost use Rattle.std.specs.Prelude.{ℕ, List, map};

    ghost Value = { List (List ℕ) };

    ghost view = { λ n. map (λ link. link.0) n.links };
}

impl<'a> Iterator for LinkNames<'a> {
    type Item = &'a [u8];

    ghost next_gives = { YieldsFirstBy (λ name. name.now) (λ left. left) };

    ghost remaining = { item_count (λ left. left) };

    fn next(&mut self) -> Option<&'a [u8]> {
        let link = self.links.next()?;
        Some(link.name())
    }
}

/// The names in the group at the path, in ascending order of their bytes. Takes memory for the addresses of the symbol
/// nodes.
///
/// # Errors
///
/// Those of [`crate::look`]; `NotAGroup` if no group stands at the path; last, `NoMemory`: memory is refused. No other
/// refusal holds then.
pub fn names_at<'a>(
    alloc: Global,
    opened: &'a Opened,
    path: &[u8],
) -> Result<LinkNames<'a>, EditFault>
    ensures { MatchResult result (HasLinksNamed opened.now.tree path.now)
        (IsListRefused opened.now.tree path.now) }
{
    let Place::Object { object, .. } = look(opened, path)? else {
        return Err(EditFault::NotAGroup);
    };
    let OpenedContent::Group(table) = &object.content else {
        return Err(EditFault::NotAGroup);
    };
    match group_names(alloc, opened.image(), *table) {
        Ok(names) => Ok(names),
        Err(_) => Err(EditFault::NoMemory),
    }
}

/// The names of the group's links.
fn group_names<'a>(
    alloc: Global,
    image: &'a Image,
    table: SymbolTable,
) -> Result<LinkNames<'a>, AllocError>
    requires { IsGroupRead image.now.bytes table }
    ensures { IfOk result (λ names. names ≡ names_of_group image.now.bytes table) }
{
    let links = group_links(alloc, image, table)?;
    Ok(LinkNames { links })
}
