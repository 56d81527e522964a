//! Why a body is not read.

use thiserror::Error;

/// A body that does not have the form of its kind.
#[derive(Clone, Copy, PartialEq, Eq, Debug, Error)]
pub enum FormFault {
    #[error("a dataspace message of another form")]
    DataspaceForm,
    #[error("a datatype message of another form")]
    DatatypeForm,
    #[error("a fill value message of another form")]
    FillForm,
    #[error("a data layout message of another form")]
    LayoutForm,
    #[error("an attribute message of another form")]
    AttributeForm,
    #[error("a symbol table message that is too short")]
    HeapForm,
    #[error("a continuation message that is too short")]
    MessageSize,
}
