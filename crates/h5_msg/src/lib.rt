//! Bodies of header messages: dataspace, datatype, fill value, data layout, attribute, symbol table and continuation
//! (File Format Specification 3.0, section IV.A.2).
//!
//! Each reader takes the body of a message, which may have padding behind it. It answers what the body says, or the
//! fault of its kind. It takes no memory; what it answers borrows the body. Each writer fills the bytes that it is
//! given: with the body in its written form, and zeros behind it.
#![tactic(auto)]

mod addresses;
mod attribute;
mod dataspace;
mod datatype;
mod fault;
mod fill;
mod layout;
mod values;

pub use addresses::{
    CONTINUATION_LENGTH, SYMBOL_TABLE_LENGTH, SymbolTable, read_continuation, read_symbol_table,
    write_continuation, write_symbol_table,
};
pub use attribute::{
    AttributeBody, attribute_length, read_attribute, write_attribute, write_stored_attribute,
};
pub use dataspace::{
    Dataspace, dataspace_length, has_maxima, read_dataspace, write_bounded_dataspace,
    write_dataspace,
};
pub use datatype::{DATATYPE_LENGTH, read_datatype, write_datatype};
pub use fault::FormFault;
pub use fill::{
    AllocationTime, fill_length, old_fill_length, read_fill, read_old_fill, write_fill,
    write_old_fill,
};
pub use layout::{
    CONTIGUOUS_LENGTH, ChunkSizes, Layout, chunked_length, compact_length, read_layout,
    write_chunked_layout, write_compact_layout, write_contiguous_layout,
};
pub use values::{value_at, write_values};
