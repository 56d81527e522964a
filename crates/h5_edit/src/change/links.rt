//! The links of a group to be written (File Format Specification 3.0, section III.C).

ghost use Rattle.std.specs.Prelude.{◌≡◌, IfOk, map};
ghost use Rattle.std.specs.List.{AllByRecursion};
ghost use Rattle.std.specs.FinMap.{entries as entries_of};
ghost use Rattle.h5_query.specs.Links.{IsGroupRead};
ghost use Rattle.h5_query.specs.GroupTold.{links_told};
ghost use Rattle.h5_query.specs.Opened.Objects.{links_by};
ghost use Rattle.h5_query.specs.Listed.{IsLinkLed};
ghost use Rattle.h5_model.specs.Tree.Links.{tree_link};

use h5_model::{Link, ObjectNo};
use h5_query::{Opened, SymbolTable, group_links, tree_links};
use std::alloc::{AllocError, Global};

/// The links of a group ascending by the bytes of their names.
///
/// Takes memory for a reference to each link.
pub(crate) fn links_in<'a>(
    alloc: Global,
    opened: &'a Opened,
    table: SymbolTable,
) -> Result<Vec<Link<'a, ObjectNo>>, AllocError>
    requires read { IsGroupRead opened.now.image table }
    requires led { AllByRecursion (IsLinkLed opened.now.table) (links_told opened.now.image table) }
    ensures { IfOk result (λ links. map tree_link links.items
        ≡ entries_of (links_by opened.now.table (links_told opened.now.image table))) }
{
    let found = group_links(alloc, opened.image(), table)?;
    tree_links(alloc, opened, found)
}
