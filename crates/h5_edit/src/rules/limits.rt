//! What links, attributes, arrays and objects have at most (File Format Specification 3.0, sections III.C, IV.A.2.i and IV.A.2.m).

/// The most bytes of a link's or an attribute's name, and of the text of a soft link.
pub(crate) const MAX_NAME: usize = 1023;

/// The most bytes of an attribute's message body.
pub(crate) const MAX_BODY: u64 = 65528;

/// The most bytes of the cells of a compact array: the body of its layout's message has 4 bytes before them, and at most 65528.
pub(crate) const MAX_COMPACT: u64 = 65524;

/// The most objects: the number of each has four bytes, and the last of these is not given out.
pub(crate) const MAX_OBJECTS: u32 = 4294967295;
