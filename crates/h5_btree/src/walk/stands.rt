//! Nodes of a tree that were read before and are looked at where they stand (File Format Specification 3.0, section
//! III.A.1).

ghost use Rattle.std.specs.Prelude.{◌≡◌, ◌≤◌, length};
ghost use Rattle.h5_model.specs.Format.Superblock.{highest_k};
ghost use Rattle.h5_model.specs.Format.Nodes.{node_at};
ghost use Rattle.h5_btree.specs.Walk.Forms.{kind_of};
ghost use Rattle.h5_btree.specs.Walk.Stands.{IsNodeAt};

use crate::node::Node;
use crate::read::read_node;
use crate::walk::leaves::Trees;
use h5_space::Image;

/// The node of a tree of this form at this address. Takes no memory.
pub fn tree_node<'a, T: Trees>(image: &'a Image, over: &T, at: u64) -> Node<'a>
    requires long { 26 ≤ length image.now.bytes }
    requires few { (kind_of image.now.bytes (T.form over.now)).k ≤ highest_k }
    requires there { IsNodeAt image.now.bytes (T.form over.now) at }
    ensures { result ≡ node_at image.now.bytes (kind_of image.now.bytes (T.form over.now)) at }
{
    let kind = over.kind(image);
    let bytes = image.part(at, kind.node_length() as u64).unwrap();
    read_node(kind, bytes).unwrap()
}
