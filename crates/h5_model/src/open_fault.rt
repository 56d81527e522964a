//! Why bytes are refused as an image.

ghost use Rattle.std.specs.Prelude.{◌≡◌};
ghost use Rattle.h5_model.specs.Faults.OpenFaults.{cause_number, cause_name};

use std::alloc::AllocError;
use std::fmt;
use thiserror::Error;

/// What an image breaks, and the address of the block or field that breaks it.
#[derive(Clone, Copy, PartialEq, Eq, Debug, Error)]
pub struct OpenFault {
    pub cause: Cause,
    pub address: u64,
}

/// What an image breaks.
#[derive(Clone, Copy, PartialEq, Eq, Debug, Error)]
pub enum Cause {
    /// The bytes do not begin with the signature.
    NotHdf5,
    /// A block, or the end of file address, passes the end.
    Truncated,
    /// A version in the superblock is not 0.
    SuperblockVersion,
    /// Offsets or lengths have not 8 bytes.
    FieldSizes,
    /// The base address is not 0.
    BaseAddress,
    /// There is a driver information block.
    Driver,
    /// A K value of the superblock is not from 1 to 32767.
    KRange,
    /// An object header is not of version 1.
    HeaderVersion,
    /// A message's size is no multiple of 8, or does not fill its block, or is too short for a continuation.
    MessageSize,
    /// An object header has not as many messages as it says.
    MessageCount,
    /// A message is shared.
    SharedMessage,
    /// A message is of a type that is not known.
    UnknownMessage,
    /// A dataset has filters.
    Filtered,
    /// A dataset's data are in other files.
    ExternalFiles,
    /// A header has a message of the newer form of groups.
    NewStyleGroup,
    /// A header is neither a group's nor a whole dataset's; or the root's is no group's.
    MissingMessage,
    /// A message stands twice that may stand once, or beside one that excludes it; or two attributes
    /// have one name.
    DuplicateMessage,
    /// A dataspace message is not of the accepted form.
    DataspaceForm,
    /// A datatype message is not of the accepted form.
    DatatypeForm,
    /// A fill value message is not of the accepted form.
    FillForm,
    /// A data layout message is not of the accepted form.
    LayoutForm,
    /// An attribute message is not of the accepted form.
    AttributeForm,
    /// A local heap is not of the accepted form, or a group's header does not name one.
    HeapForm,
    /// A name's or a text's span in a heap is not sound, or shares a byte with another.
    HeapName,
    /// A B-tree node or a symbol node is not of the accepted form.
    NodeForm,
    /// The names of a group do not ascend.
    NameOrder,
    /// The keys of a B-tree do not bound what is below them.
    KeyOrder,
    /// A B-tree node does not name its neighbours.
    Sibling,
    /// A chunk's key is not of the accepted form.
    ChunkKey,
    /// A reference count is not the number of hard links.
    LinkCount,
    /// A group has two hard links.
    GroupLinkedTwice,
    /// Two blocks share a byte.
    Overlap,
    /// A link has more than 64 names on its way.
    TooDeep,
    /// A count or a size is above its limit.
    TooLarge,
    /// A link's name is none that is allowed.
    BadName,
    /// Memory was refused.
    NoMemory,
}

impl Cause {
    /// Its number, from 1 on.
    pub fn number(self) -> u32
        ensures { result ≡ cause_number self }
    {
        match self {
            Cause::NotHdf5 => 1,
            Cause::Truncated => 2,
            Cause::SuperblockVersion => 3,
            Cause::FieldSizes => 4,
            Cause::BaseAddress => 5,
            Cause::Driver => 6,
            Cause::KRange => 7,
            Cause::HeaderVersion => 8,
            Cause::MessageSize => 9,
            Cause::MessageCount => 10,
            Cause::SharedMessage => 11,
            Cause::UnknownMessage => 12,
            Cause::Filtered => 13,
            Cause::ExternalFiles => 14,
            Cause::NewStyleGroup => 15,
            Cause::MissingMessage => 16,
            Cause::DuplicateMessage => 17,
            Cause::DataspaceForm => 18,
            Cause::DatatypeForm => 19,
            Cause::FillForm => 20,
            Cause::LayoutForm => 21,
            Cause::AttributeForm => 22,
            Cause::HeapForm => 23,
            Cause::HeapName => 24,
            Cause::NodeForm => 25,
            Cause::NameOrder => 26,
            Cause::KeyOrder => 27,
            Cause::Sibling => 28,
            Cause::ChunkKey => 29,
            Cause::LinkCount => 30,
            Cause::GroupLinkedTwice => 31,
            Cause::Overlap => 32,
            Cause::TooDeep => 33,
            Cause::TooLarge => 34,
            Cause::BadName => 35,
            Cause::NoMemory => 36,
        }
    }

    /// Its name, as the program prints it.
    pub fn name(self) -> &'static str
        ensures { result.now ≡ cause_name self }
    {
        match self {
            Cause::NotHdf5 => "NotHdf5",
            Cause::Truncated => "Truncated",
            Cause::SuperblockVersion => "SuperblockVersion",
            Cause::FieldSizes => "FieldSizes",
            Cause::BaseAddress => "BaseAddress",
            Cause::Driver => "Driver",
            Cause::KRange => "KRange",
            Cause::HeaderVersion => "HeaderVersion",
            Cause::MessageSize => "MessageSize",
            Cause::MessageCount => "MessageCount",
            Cause::SharedMessage => "SharedMessage",
            Cause::UnknownMessage => "UnknownMessage",
            Cause::Filtered => "Filtered",
            Cause::ExternalFiles => "ExternalFiles",
            Cause::NewStyleGroup => "NewStyleGroup",
            Cause::MissingMessage => "MissingMessage",
            Cause::DuplicateMessage => "DuplicateMessage",
            Cause::DataspaceForm => "DataspaceForm",
            Cause::DatatypeForm => "DatatypeForm",
            Cause::FillForm => "FillForm",
            Cause::LayoutForm => "LayoutForm",
            Cause::AttributeForm => "AttributeForm",
            Cause::HeapForm => "HeapForm",
            Cause::HeapName => "HeapName",
            Cause::NodeForm => "NodeForm",
            Cause::NameOrder => "NameOrder",
            Cause::KeyOrder => "KeyOrder",
            Cause::Sibling => "Sibling",
            Cause::ChunkKey => "ChunkKey",
            Cause::LinkCount => "LinkCount",
            Cause::GroupLinkedTwice => "GroupLinkedTwice",
            Cause::Overlap => "Overlap",
            Cause::TooDeep => "TooDeep",
            Cause::TooLarge => "TooLarge",
            Cause::BadName => "BadName",
            Cause::NoMemory => "NoMemory",
        }
    }
}

impl OpenFault {
    /// The number of its cause.
    pub fn number(self) -> u32
        ensures { result ≡ cause_number self.cause }
    {
        self.cause.number()
    }

    /// The name of its cause.
    pub fn name(self) -> &'static str
        ensures { result.now ≡ cause_name self.cause }
    {
        self.cause.name()
    }

    /// Where the block or field lies that breaks the rule, in bytes from the image's begin.
    pub fn address(self) -> u64
        ensures { result ≡ self.address }
    {
        self.address
    }
}

/// Shows the cause's name.
impl fmt::Display for Cause {
    ghost use Rattle.std.specs.Prelude.{Some};
    ghost use Rattle.std.specs.Fmt.{padded};

    ghost output = { λ cause. Some (cause_name cause) };

    ghost styled_output = { λ cause spec. Some (padded spec (cause_name cause)) };

    fn fmt<W: fmt::Write>(&self, f: &mut fmt::Formatter<W>) -> fmt::Result {
        f.pad(self.name())
    }
}

/// Want of memory is a cause of its own, `NoMemory`.
impl From<AllocError> for Cause {
    ghost use Rattle.h5_model.specs.declared.open_fault.Cause.TheVariants.{NoMemory};

    ghost from_gives = { λ _ cause. cause ≡ NoMemory };

    fn from(_error: AllocError) -> Self {
        Self::NoMemory
    }
}

/// Shows the cause's name and the address, as `Truncated at 40`.
impl fmt::Display for OpenFault {
    ghost use Rattle.std.specs.Prelude.{◌++◌, Some, codes};
    ghost use Rattle.std.specs.Fmt.{decimal};

    ghost output = { λ fault. Some (cause_name fault.cause ++ codes " at " ++ decimal fault.address) };

    fn fmt<W: fmt::Write>(&self, f: &mut fmt::Formatter<W>) -> fmt::Result {
        write!(f, "{} at {}", self.cause, self.address)
    }
}

/// Want of memory has no place in the bytes: its address is 0.
impl From<AllocError> for OpenFault {
    ghost use Rattle.h5_model.specs.declared.open_fault.Cause.TheVariants.{NoMemory};

    ghost from_gives = { λ _ fault. fault ≡ record { cause = NoMemory; address = 0 } };

    fn from(error: AllocError) -> Self {
        OpenFault {
            cause: Cause::from(error),
            address: 0,
        }
    }
}
