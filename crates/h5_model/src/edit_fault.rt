//! Why an edit is refused.

ghost use Rattle.std.specs.Prelude.{◌≡◌};

use std::alloc::AllocError;
use std::fmt;
use thiserror::Error;

/// Why an edit was refused. Where several rules hold, the one with the lowest number is named; want
/// of memory may be named in place of any.
#[derive(Clone, Copy, PartialEq, Eq, Debug, Error)]
pub enum EditFault {
    /// A path is not of the form of a path, or a soft link text is empty or has a zero byte.
    BadPath,
    /// A path has more than 64 names.
    PathTooDeep,
    /// A link is to be made at, or taken from, `/`.
    IsRoot,
    /// A name before the last is missing.
    NoSuchParent,
    /// A name before the last is a dataset or a soft link.
    NotAGroup,
    /// The last name is missing, or is a soft link where an object is needed.
    NotFound,
    /// The new link's name stands already.
    AlreadyThere,
    /// A new name, attribute name or soft link text has more than 1023 bytes.
    NameTooLong,
    /// A group or a soft link stands where a dataset is needed.
    NotADataset,
    /// The hard link's target is a group.
    GroupLink,
    /// Rank, maxima, chunk sizes or an attribute name are not of their form.
    BadSpec,
    /// A selection's lists differ in length, or a rank is not the dataset's.
    RankMismatch,
    /// A stride is 0.
    StrideZero,
    /// A stride is below its block where the count is above 1.
    BlocksOverlap,
    /// A selected cell, or an index, lies outside.
    OutOfExtent,
    /// A dataset that is not chunked cannot be resized.
    NotChunked,
    /// A size is above its maximum.
    AboveMaximum,
    /// A chunk has more than 1073741824 bytes.
    ChunkTooLarge,
    /// Compact data have more than 65524 bytes.
    CompactTooLarge,
    /// The product of the sizes other than 0 is above 1099511627776.
    TooManyCells,
    /// There is not one value for each cell.
    ValueCount,
    /// A value or the fill is not of the type.
    ValueRange,
    /// The attribute's message body would pass 65528 bytes.
    AttributeTooLarge,
    /// No attribute has that name.
    NoSuchAttribute,
    /// The target has 65535 hard links.
    TooManyLinks,
    /// The object numbers are used up.
    TooManyObjects,
    /// A message must be added to a header that has as many as it can.
    HeaderFull,
    /// A tree of nodes at level 15 would have to grow.
    TreeTooDeep,
    /// The image would pass 2147483648 bytes.
    ImageFull,
    /// Memory was refused.
    NoMemory,
}

impl EditFault {
    ghost use Rattle.h5_model.specs.Edits.EditFaults.{fault_number, fault_name};

    /// The number of the rule, from 1 on. No rule has the number 11.
    pub fn number(self) -> u32
        ensures { result ≡ fault_number self }
    {
        match self {
            EditFault::BadPath => 1,
            EditFault::PathTooDeep => 2,
            EditFault::IsRoot => 3,
            EditFault::NoSuchParent => 4,
            EditFault::NotAGroup => 5,
            EditFault::NotFound => 6,
            EditFault::AlreadyThere => 7,
            EditFault::NameTooLong => 8,
            EditFault::NotADataset => 9,
            EditFault::GroupLink => 10,
            EditFault::BadSpec => 12,
            EditFault::RankMismatch => 13,
            EditFault::StrideZero => 14,
            EditFault::BlocksOverlap => 15,
            EditFault::OutOfExtent => 16,
            EditFault::NotChunked => 17,
            EditFault::AboveMaximum => 18,
            EditFault::ChunkTooLarge => 19,
            EditFault::CompactTooLarge => 20,
            EditFault::TooManyCells => 21,
            EditFault::ValueCount => 22,
            EditFault::ValueRange => 23,
            EditFault::AttributeTooLarge => 24,
            EditFault::NoSuchAttribute => 25,
            EditFault::TooManyLinks => 26,
            EditFault::TooManyObjects => 27,
            EditFault::HeaderFull => 28,
            EditFault::TreeTooDeep => 29,
            EditFault::ImageFull => 30,
            EditFault::NoMemory => 31,
        }
    }

    /// The name of the rule.
    pub fn name(self) -> &'static str
        ensures { result.now ≡ fault_name self }
    {
        match self {
            EditFault::BadPath => "BadPath",
            EditFault::PathTooDeep => "PathTooDeep",
            EditFault::IsRoot => "IsRoot",
            EditFault::NoSuchParent => "NoSuchParent",
            EditFault::NotAGroup => "NotAGroup",
            EditFault::NotFound => "NotFound",
            EditFault::AlreadyThere => "AlreadyThere",
            EditFault::NameTooLong => "NameTooLong",
            EditFault::NotADataset => "NotADataset",
            EditFault::GroupLink => "GroupLink",
            EditFault::BadSpec => "BadSpec",
            EditFault::RankMismatch => "RankMismatch",
            EditFault::StrideZero => "StrideZero",
            EditFault::BlocksOverlap => "BlocksOverlap",
            EditFault::OutOfExtent => "OutOfExtent",
            EditFault::NotChunked => "NotChunked",
            EditFault::AboveMaximum => "AboveMaximum",
            EditFault::ChunkTooLarge => "ChunkTooLarge",
            EditFault::CompactTooLarge => "CompactTooLarge",
            EditFault::TooManyCells => "TooManyCells",
            EditFault::ValueCount => "ValueCount",
            EditFault::ValueRange => "ValueRange",
            EditFault::AttributeTooLarge => "AttributeTooLarge",
            EditFault::NoSuchAttribute => "NoSuchAttribute",
            EditFault::TooManyLinks => "TooManyLinks",
            EditFault::TooManyObjects => "TooManyObjects",
            EditFault::HeaderFull => "HeaderFull",
            EditFault::TreeTooDeep => "TreeTooDeep",
            EditFault::ImageFull => "ImageFull",
            EditFault::NoMemory => "NoMemory",
        }
    }
}

/// Shows the fault's name.
impl fmt::Display for EditFault {
    ghost use Rattle.std.specs.Prelude.{Some};
    ghost use Rattle.std.specs.Fmt.{padded};
    ghost use Rattle.h5_model.specs.Edits.EditFaults.{fault_name};

    ghost output = { λ fault. Some (fault_name fault) };

    ghost styled_output = { λ fault spec. Some (padded spec (fault_name fault)) };

    fn fmt<W: fmt::Write>(&self, f: &mut fmt::Formatter<W>) -> fmt::Result {
        f.pad(self.name())
    }
}

/// Want of memory refuses the edit as `NoMemory`.
impl From<AllocError> for EditFault {
    ghost use Rattle.h5_model.specs.declared.edit_fault.EditFault.TheVariants.{NoMemory};

    ghost from_gives = { λ _ fault. fault ≡ NoMemory };

    fn from(_error: AllocError) -> Self {
        Self::NoMemory
    }
}
