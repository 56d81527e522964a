//! Links of a group (File Format Specification 3.0, section III.C).

ghost use Rattle.std.specs.Prelude.{◌≡◌, ◌<◌, Some, length, option_map, slice_get};
ghost use Rattle.h5_model.specs.Format.Symbols.{link_of};
ghost use Rattle.h5_group.specs.Links.{lent_link, lent_target};

use h5_heap::text_from;
use h5_model::{Link, LinkTo};
use h5_snod::{SymbolEntry, SymbolNode, SymbolTarget};
use std::marker::Model;

/// A link of a group, where it stands. Its texts are looked for where they are asked for, so that who follows links alone
/// looks for no name.
#[derive(Drop)]
pub struct GroupLink<'a> {
    /// The texts of the group.
    segment: &'a [u8],
    entry: SymbolEntry,
}

impl<'a> Model for GroupLink<'a> {
    ghost use Rattle.std.specs.Prelude.{ℕ, List};
    ghost use Rattle.h5_model.specs.Format.Symbols.{Target};
    ghost use Rattle.h5_group.specs.Links.{link_said};

    ghost Value = { List ℕ × Target };

    ghost view = { λ l. link_said l.segment.now l.entry };
}

impl<'a> GroupLink<'a> {
    /// Its name. Takes no memory.
    pub fn name(&self) -> &'a [u8]
        ensures { result.now ≡ self.now.0 }
    {
        text_from(self.segment, self.entry.name)
    }

    /// Where it leads: to the header at an address, or to the text of a soft link. Takes no memory.
    pub fn to(&self) -> LinkTo<'a, u64>
        ensures { lent_target result ≡ self.now.1 }
    {
        match self.entry.target {
            SymbolTarget::Header(header) => LinkTo::Object(header),
            SymbolTarget::Text(offset) => LinkTo::Soft(text_from(self.segment, u64::from(offset))),
        }
    }

    /// Its name, and where it leads. Takes no memory.
    pub(crate) fn link(&self) -> Link<'a, u64>
        ensures { lent_link result ≡ self.now }
    {
        Link {
            name: self.name(),
            to: self.to(),
        }
    }
}

/// The link of entry `i` of a symbol node, whose texts stand in this segment.
pub(crate) fn link_in<'a>(segment: &'a [u8], node: &SymbolNode, i: usize) -> GroupLink<'a>
    requires { i < length node.now }
    ensures { option_map (link_of segment.now) (slice_get node.now i) ≡ Some result }
{
    GroupLink {
        segment,
        entry: node.entry(i),
    }
}
