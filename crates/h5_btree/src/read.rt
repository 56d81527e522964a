//! The reading of a node's form (File Format Specification 3.0, section III.A.1).

ghost use Rattle.std.specs.Prelude.{◌≡◌, ◌+◌, ◌≤◌, IfErr, IfOk, OnOk, length};
ghost use Rattle.std.specs.List.{AllByRecursion};
ghost use Rattle.h5_bytes.specs.Bytes.{part};
ghost use Rattle.h5_model.specs.Format.Nodes.{IsNode, node_at, node_bytes, node_length, node_of};
ghost use Rattle.h5_btree.specs.Form.{BreaksForm, IsRefusedAt};

use crate::kind::NodeKind;
use crate::node::Node;
use h5_bytes::{begins_with, u16_at};

/// The first four bytes of a node.
static SIGNATURE: [u8; 4] = *b"TREE";

/// Why bytes are no node.
#[derive(Clone, Copy, Debug, PartialEq, Eq)]
pub enum NodeFault {
    /// The bytes are not of the form of a node of the kind; or the node has a level or a count of children that none
    /// can have in its place.
    NodeForm,
    /// The node passes the end of the image.
    Truncated,
}

/// Reads a node of this kind. The slice has as many bytes as such a node; that is the caller's condition. The level
/// and the keys may be any. Takes no memory.
///
/// # Errors
///
/// `NodeForm` if the signature or the type is another, or if there are more than 2K children.
pub fn read_node(kind: NodeKind, bytes: &[u8]) -> Result<Node<'_>, NodeFault>
    requires { length bytes.now ≡ node_length kind }
    ensures node { IfOk result (λ node. node ≡ node_of kind bytes.now) }
    ensures keys { IfOk result (λ node. AllByRecursion (λ key. length key ≡ kind.key_length) node.keys) }
    ensures form { OnOk result (IsNode kind bytes.now) }
    ensures refused { IfErr result (λ fault. (fault ≡ NodeFault.NodeForm) × BreaksForm kind bytes.now) }
{
    if !begins_with(bytes, &SIGNATURE)
        || bytes[4] != kind.type_byte()
        || usize::from(u16_at(bytes, 6)) > kind.capacity()
    {
        return Err(NodeFault::NodeForm);
    }
    Ok(Node::new(kind, bytes))
}

/// Reads the node of this kind at an address of an image. Takes no memory.
///
/// # Errors
///
/// - `Truncated`: the node passes the end.
/// - `NodeForm`: as of [`read_node`].
pub fn read_node_at(image: &[u8], kind: NodeKind, at: u64) -> Result<Node<'_>, NodeFault>
    ensures node { IfOk result (λ node. node ≡ node_at image.now kind at) }
    ensures keys { IfOk result (λ node. AllByRecursion (λ key. length key ≡ kind.key_length) node.keys) }
    ensures form { OnOk result (IsNode kind (node_bytes image.now kind at)) }
    ensures inside { OnOk result (at + node_length kind ≤ length image.now) }
    ensures refused { IfErr result (λ fault. IsRefusedAt image.now kind at fault) }
{
    let end = image.len() as u64;
    if at > end || kind.node_length() as u64 > end - at {
        return Err(NodeFault::Truncated);
    }
    read_node(kind, bytes_at(image, kind, at as usize))
}

/// The node of this kind at an address where one stands. Takes no memory.
pub(crate) fn node_there(image: &[u8], kind: NodeKind, at: u64) -> Node<'_>
    requires inside { at + node_length kind ≤ length image.now }
    requires form { IsNode kind (node_bytes image.now kind at) }
    ensures { result ≡ node_at image.now kind at }
{
    Node::new(kind, bytes_at(image, kind, at as usize))
}

/// The bytes of a node.
#[tactic(auto, unfolding(h5_bytes::specs::Bytes::part))]
fn bytes_at(image: &[u8], kind: NodeKind, at: usize) -> &[u8]
    requires { at + node_length kind ≤ length image.now }
    ensures bytes { result.now ≡ node_bytes image.now kind at }
    ensures long { length result.now ≡ node_length kind }
{
    &image[at..at + kind.node_length()]
}
