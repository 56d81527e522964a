//! Links of groups (File Format Specification 3.0, section III.C).

/// Where a link leads.
#[derive(Clone, Copy, Debug)]
pub enum LinkTo<'a, T> {
    /// To an object, of which this tells: its number, or where it stands.
    Object(T),
    /// To the text of a soft link.
    Soft(&'a [u8]),
}

/// A link of a group, with what is told of an object to which it leads.
#[derive(Clone, Copy, Debug)]
pub struct Link<'a, T> {
    pub name: &'a [u8],
    pub to: LinkTo<'a, T>,
}
