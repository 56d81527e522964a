//! The end keys of the nodes on a way (File Format Specification 3.0, section III.A.1).

ghost use Rattle.std.specs.Prelude.{◌≡◌, ℕ, ◌<◌, List, length, slice_index_or, slice_set, if◌then◌else◌};
ghost use Rattle.h5_model.specs.Format.Nodes.{node_at};
ghost use Rattle.h5_btree.specs.Removal.{EndsInTree, EndsSomewhere};
ghost use Rattle.h5_btree.specs.Rewritten.{IsRewritten};
ghost use Rattle.h5_btree.specs.declared.way.Step.{Step};

use crate::edit::set_key;
use crate::kind::NodeKind;
use crate::read::node_there;
use crate::way::Way;
use h5_space::Image;

/// Writes the first or the last key of the node on a way that is `level` steps up, so that it lets in what is not
/// between the keys there are.
///
/// The way ends in the same tree as before. Takes no room and no memory.
pub fn set_end(image: &mut Image, kind: NodeKind, way: &Way, level: usize, last: bool, key: &[u8])
    requires ends { EndsSomewhere image.old kind way.now }
    requires level { level < length way.now }
    requires width { length key.now ≡ kind.key_length }
    ensures tree { (root height k : ℕ) (owned list : List ℕ)
        → EndsInTree image.old kind root height way.now owned list k
        → EndsInTree image.new kind root height way.now owned list k }
    ensures key { (step : Step) → slice_index_or way.now level step ≡ step
        → IsRewritten image.old image.new kind step.node (record (node_at image.old.bytes kind step.node) {
          keys = slice_set (node_at image.old.bytes kind step.node).keys
              (if last then length (node_at image.old.bytes kind step.node).children else 0) key.now;
        }) }
{
    let step = way.steps()[level];
    let count = node_there(image.bytes(), kind, step.node).len();
    let place = if last { count } else { 0 };
    set_key(image, kind, step.node, place, key);
}
