//! Bodies of two addresses or lengths: Symbol Table messages and Continuation messages (File Format Specification
//! 3.0, sections IV.A.2.r and IV.A.2.q).

ghost use Rattle.std.specs.Prelude.{◌≡◌, ◌≤◌, Some, length, ok_or};
ghost use Rattle.h5_bytes.specs.Bytes.{number_at};
ghost use Rattle.h5_model.specs.Format.Addresses.{symbol_table_of, continuation_of};
ghost use Rattle.h5_model.specs.Format.Bodies.{pair_bytes};
ghost use Rattle.h5_model.specs.Format.Plain.{with_zeros};

use crate::fault::FormFault;
use byteorder::{ByteOrder, LittleEndian};
use h5_bytes::{Block, u64_at};
use std::marker::Model;

/// How many bytes a Symbol Table message's body has as it is written.
pub const SYMBOL_TABLE_LENGTH: usize = 16;

/// How many bytes a Continuation message's body has as it is written.
pub const CONTINUATION_LENGTH: usize = 16;

/// The addresses of a group's B-tree and of its local heap.
#[derive(Clone, Copy, Debug, PartialEq, Eq)]
pub struct SymbolTable {
    tree: u64,
    heap: u64,
}

impl Model for SymbolTable {
    ghost use Rattle.h5_model.specs.Format.Addresses as addresses;

    ghost Value = { addresses.SymbolTable };

    ghost view = { λ a. record { tree = a.tree; heap = a.heap } };

    ghost inverse = { λ t. record { tree = t.tree; heap = t.heap } };
}

impl SymbolTable {
    /// The pair of these addresses.
    pub fn new(tree: u64, heap: u64) -> Self
        ensures { result ≡ record { tree = tree; heap = heap } }
    {
        SymbolTable { tree, heap }
    }

    /// The address of the B-tree.
    pub fn tree(&self) -> u64
        ensures { result ≡ self.now.tree }
    {
        self.tree
    }

    /// The address of the local heap.
    pub fn heap(&self) -> u64
        ensures { result ≡ self.now.heap }
    {
        self.heap
    }
}

/// Reads a Symbol Table message: the addresses of the B-tree and of the local heap of a group.
///
/// # Errors
///
/// `HeapForm` if the body is too short.
#[tactic(auto, unfolding(h5_model::specs::Format::Addresses::symbol_table_of))]
pub fn read_symbol_table(body: &[u8]) -> Result<SymbolTable, FormFault>
    ensures { result ≡ ok_or (symbol_table_of body.now) FormFault.HeapForm }
{
    if body.len() < SYMBOL_TABLE_LENGTH {
        return Err(FormFault::HeapForm);
    }
    Ok(SymbolTable {
        tree: u64_at(body, 0),
        heap: u64_at(body, 8),
    })
}

/// Writes a Symbol Table message, and zeros behind it.
#[tactic(auto, unfolding(h5_model::specs::Format::Addresses::symbol_table_of))]
pub fn write_symbol_table(table: SymbolTable, bytes: &mut [u8])
    requires { 16 ≤ length bytes.old }
    ensures written { bytes.new ≡ with_zeros (pair_bytes table.tree table.heap) (length bytes.old) }
    ensures reads { symbol_table_of bytes.new ≡ Some table }
{
    write_pair(table.tree, table.heap, bytes);
}

/// Reads a Continuation message: the block in which the header goes on.
///
/// # Errors
///
/// `MessageSize` if the body is too short.
#[tactic(auto, unfolding(h5_model::specs::Format::Addresses::continuation_of))]
pub fn read_continuation(body: &[u8]) -> Result<Block, FormFault>
    ensures { result ≡ ok_or (continuation_of body.now) FormFault.MessageSize }
{
    if body.len() < CONTINUATION_LENGTH {
        return Err(FormFault::MessageSize);
    }
    Ok(Block {
        at: u64_at(body, 0),
        len: u64_at(body, 8),
    })
}

/// Writes a Continuation message, and zeros behind it.
#[tactic(auto, unfolding(h5_model::specs::Format::Addresses::continuation_of))]
pub fn write_continuation(block: Block, bytes: &mut [u8])
    requires { 16 ≤ length bytes.old }
    ensures written { bytes.new ≡ with_zeros (pair_bytes block.at block.len) (length bytes.old) }
    ensures reads { continuation_of bytes.new ≡ Some block }
{
    write_pair(block.at, block.len, bytes);
}

/// Writes two numbers of 8 bytes, and zeros behind them.
#[tactic(auto, using(crate::proofs::AddressLaws::first_back, crate::proofs::AddressLaws::second_back))]
fn write_pair(first: u64, second: u64, bytes: &mut [u8])
    requires { 16 ≤ length bytes.old }
    ensures written { bytes.new ≡ with_zeros (pair_bytes first second) (length bytes.old) }
    ensures first { number_at bytes.new 0 8 ≡ first }
    ensures second { number_at bytes.new 8 8 ≡ second }
{
    bytes.fill(0);
    LittleEndian::write_u64(bytes, first);
    LittleEndian::write_u64(&mut bytes[8..], second);
}
