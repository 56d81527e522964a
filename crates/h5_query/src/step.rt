//! Where a name leads from a place (File Format Specification 3.0, sections III.B and III.C).

ghost use Rattle.std.specs.Prelude.{◌≡◌, Some, IsSome};
ghost use Rattle.std.specs.FinMap.{get};
ghost use Rattle.h5_model.specs.Tree.Objects.{ToObject};
ghost use Rattle.h5_open.specs.Opened.Objects.{number_in};
ghost use Rattle.h5_open.specs.Opened.Sound.{IsHeaderIn};
ghost use Rattle.h5_query.specs.Place.{IsOfNumber, link_at};
ghost use Rattle.h5_query.specs.Steps.{IsPathStep};

use crate::place::Place;
use h5_model::LinkTo;
use h5_open::{Opened, OpenedContent, lookup};

/// Where a name leads from a place.
#[derive(Clone, Copy)]
pub(crate) enum Step<'a> {
    /// No group stands at the place.
    NoGroup,
    /// The group, of this number, has no link of the name.
    Missing { parent: u32 },
    /// To what the link of the group, of this number, leads to.
    To { parent: u32, place: Place<'a> },
}

/// Where the name leads from the place.
pub(crate) fn follow_name<'a>(opened: &'a Opened, from: Place<'a>, name: &[u8]) -> Step<'a>
    requires { IsOfNumber opened.now from }
    ensures { IsPathStep opened.now (link_at from.entry) name.now result }
{
    let Place::Object { number, object } = from else {
        return Step::NoGroup;
    };
    let OpenedContent::Group(table) = &object.content else {
        return Step::NoGroup;
    };
    let Some(link) = lookup(opened.image(), *table, name) else {
        return Step::Missing { parent: number };
    };
    match link.to {
        LinkTo::Object(header) => Step::To {
            parent: number,
            place: object_place(opened, number_of(opened, header)),
        },
        LinkTo::Soft(text) => Step::To {
            parent: number,
            place: Place::Soft(text),
        },
    }
}

/// The root.
pub(crate) fn root_place(opened: &Opened) -> Place<'_>
    ensures at { IsOfNumber opened.now result }
    ensures link { link_at result ≡ ToObject 0 }
{
    Place::Object {
        number: 0,
        object: opened.root(),
    }
}

/// The object of this number.
fn object_place(opened: &Opened, number: u32) -> Place<'_>
    requires { IsSome (get opened.now.table number) }
    ensures at { IsOfNumber opened.now result }
    ensures link { link_at result ≡ ToObject number }
{
    Place::Object {
        number,
        object: opened.object(number).unwrap(),
    }
}

/// The number of the object whose header stands at the address.
pub(crate) fn number_of(opened: &Opened, header: u64) -> u32
    requires { IsHeaderIn opened.now.table header }
    ensures found { get opened.now.table result ≡ Some header }
    ensures only { number_in opened.now.table header ≡ result }
{
    opened.number_at(header).unwrap()
}
