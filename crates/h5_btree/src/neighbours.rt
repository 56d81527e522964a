//! The neighbours of a node, which may not be there (File Format Specification 3.0, section III.A.1).

ghost use Rattle.std.specs.Prelude.{◌≡◌, ◌≢◌, ◌+◌, ◌≤◌, length};
ghost use Rattle.h5_bytes.specs.Bytes.{undefined_address};
ghost use Rattle.h5_model.specs.Format.Nodes.{IsNode, node_at, node_bytes, node_length};
ghost use Rattle.h5_btree.specs.Rewritten.{IsRewritten};

use crate::edit::{set_left, set_right};
use crate::kind::NodeKind;
use h5_bytes::UNDEF;
use h5_space::Image;

/// Names another neighbour to the right of a node, unless there is none at the address.
pub(crate) fn name_right(image: &mut Image, kind: NodeKind, at: u64, right: u64)
    requires inside { at ≢ undefined_address → at + node_length kind ≤ length image.old.bytes }
    requires form { at ≢ undefined_address → IsNode kind (node_bytes image.old.bytes kind at) }
    ensures written { at ≢ undefined_address → IsRewritten image.old image.new kind at
        (record (node_at image.old.bytes kind at) { right = right }) }
    ensures none { at ≡ undefined_address → image.new ≡ image.old }
{
    if at != UNDEF {
        set_right(image, kind, at, right);
    }
}

/// Names another neighbour to the left of a node, unless there is none at the address.
pub(crate) fn name_left(image: &mut Image, kind: NodeKind, at: u64, left: u64)
    requires inside { at ≢ undefined_address → at + node_length kind ≤ length image.old.bytes }
    requires form { at ≢ undefined_address → IsNode kind (node_bytes image.old.bytes kind at) }
    ensures written { at ≢ undefined_address → IsRewritten image.old image.new kind at
        (record (node_at image.old.bytes kind at) { left = left }) }
    ensures none { at ≡ undefined_address → image.new ≡ image.old }
{
    if at != UNDEF {
        set_left(image, kind, at, left);
    }
}
