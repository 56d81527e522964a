//! The end keys of the nodes on a way, moved so that they let in what is sought (File Format Specification 3.0, section
//! III.A.1).

ghost use Rattle.std.specs.Prelude.{◌≡◌, ◌≢◌, ℕ, ◌+◌, ◌<◌, ◌≤◌, ◌==◌, ◌&&◌, not, List, [], ◌∷◌, ◌++◌, length, slice_index_or, slice_set, if◌then◌else◌};
ghost use Rattle.std.specs.List.{AllByRecursion};
ghost use Rattle.h5_model.specs.Format.Nodes.{node_at};
ghost use Rattle.h5_btree.specs.Held.{IsStepThere};
ghost use Rattle.h5_btree.specs.Insertion.{Owns};
ghost use Rattle.h5_btree.specs.Removal.{EndsInTree, EndsSomewhere};
ghost use Rattle.h5_btree.specs.Rewritten.{IsRewritten};
ghost use Rattle.h5_btree.specs.Widened.{IsWidened, end_at, ends_along};
ghost use Rattle.h5_btree.specs.declared.way.Step.{Step};

use crate::ends::set_end;
use crate::kind::NodeKind;
use crate::node::Node;
use crate::read::node_there;
use crate::sought::Sought;
use crate::way::{MOST_STEPS, Step, Way};
use h5_space::Image;
use std::marker::Model;

/// Which end keys of a node give way: the first one, and the last one.
#[derive(Clone, Copy, Debug)]
pub struct End {
    pub first: bool,
    pub last: bool,
}

/// Which end keys of the nodes on a way give way, from level 0 up. They stand in the value itself, so it takes no
/// memory.
#[derive(Drop)]
pub struct Ends {
    levels: [End; MOST_STEPS],
    len: usize,
}

impl Model for Ends {
    ghost use Rattle.std.specs.Prelude.{◌≡◌, List, ◌≤◌, length, take};
    ghost use Rattle.h5_btree.specs.declared.widening.End.{End};

    ghost Value = { List End };

    ghost view = { λ e. take e.len e.levels };

    ghost invariant = { λ e. (e.len ≤ 16) × (length e.levels ≡ 16) };
}

impl Ends {
    /// Those of no node.
    fn new() -> Ends
        ensures { result ≡ [] }
    {
        let none = End {
            first: false,
            last: false,
        };
        Ends {
            levels: [none; MOST_STEPS],
            len: 0,
        }
    }

    /// Goes on to the level above.
    fn push(&mut self, end: End)
        requires { length self.old < 16 }
        ensures { self.new ≡ self.old ++ end ∷ [] }
    {
        self.levels[self.len] = end;
        self.len += 1;
    }

    /// The ends, from level 0 up.
    pub fn by_level(&self) -> &[End]
        ensures ends { result.now ≡ self.now }
        ensures most { length self.now ≤ 16 }
    {
        &self.levels[..self.len]
    }
}

/// Which end keys of the nodes on a way do not let in what is sought, where the way goes on at that end: the first key,
/// where what is sought does not stand behind it, and the last one, where it does.
///
/// The first keys of the `stay` lowest nodes stay. That the way ends in a tree is the caller's condition. Takes no
/// memory.
pub fn ends_to_widen<S: Sought>(image: &Image, sought: &S, way: &Way, stay: usize) -> Ends
    requires ends { EndsSomewhere image.now (S.tree_kind sought.now) way.now }
    ensures { result ≡ ends_along (node_at image.now.bytes (S.tree_kind sought.now))
        (S.behind sought.now) stay way.now }
{
    let mut ends = Ends::new();
    for (level, step) in way.steps().iter().enumerate() {
        ends.push(ends_at(image.bytes(), sought, *step, level >= stay));
    }
    ends
}

/// Which end keys of the node at this step do not let in what is sought; the first key only where it may give way.
fn ends_at<S: Sought>(image: &[u8], sought: &S, step: Step, may_first: bool) -> End
    requires { IsStepThere image.now (S.tree_kind sought.now) step }
    ensures { result ≡ end_at (node_at image.now (S.tree_kind sought.now)) (S.behind sought.now)
        may_first step }
{
    let node = node_there(image, sought.kind(), step.node);
    End {
        first: may_first && is_before(&node, sought, step.place),
        last: is_past(&node, sought, step.place),
    }
}

/// Whether the first child of a node is taken for what does not stand behind the first key.
fn is_before<S: Sought>(node: &Node<'_>, sought: &S, place: usize) -> bool
    requires keys { AllByRecursion (λ key. length key ≡ (S.tree_kind sought.now).key_length) node.now.keys }
    requires some { 1 ≤ length node.now.keys }
    ensures { result ≡ ((place == 0)
        && not (S.behind sought.now (slice_index_or node.now.keys 0 []))) }
{
    place == 0 && !sought.is_behind(node.key(0))
}

/// Whether the last child of a node is taken for what stands behind the last key.
fn is_past<S: Sought>(node: &Node<'_>, sought: &S, place: usize) -> bool
    requires keys { AllByRecursion (λ key. length key ≡ (S.tree_kind sought.now).key_length) node.now.keys }
    requires place { place < length node.now.children }
    ensures { result ≡ ((place + 1 == length node.now.children)
        && S.behind sought.now (slice_index_or node.now.keys (length node.now.children) [])) }
{
    let count = node.len();
    place + 1 == count && sought.is_behind(node.key(count))
}

/// Writes the end keys that give way, of all nodes on a way: the first key of a node is then `low`, and the last one
/// `high`. Each other key stays.
///
/// The way ends in the same tree as before. That it ends in a tree is the caller's condition. Takes no room and no
/// memory.
pub fn widen(image: &mut Image, kind: NodeKind, way: &Way, ends: &Ends, low: &[u8], high: &[u8])
    requires tree { EndsSomewhere image.old kind way.now }
    requires ends { length ends.now ≤ length way.now }
    requires low { length low.now ≡ kind.key_length }
    requires high { length high.now ≡ kind.key_length }
    ensures tree { (root height k : ℕ) (owned list : List ℕ)
        → EndsInTree image.old kind root height way.now owned list k
        → EndsInTree image.new kind root height way.now owned list k }
    ensures widened { IsWidened image.old image.new kind way.now ends.now low.now high.now }
    ensures others { (root height k : ℕ) (owned list : List ℕ)
        → EndsInTree image.old kind root height way.now owned list k
        → (n : ℕ) → Owns owned n → AllByRecursion (λ (step : Step). n ≢ step.node) way.now
        → node_at image.new.bytes kind n ≡ node_at image.old.bytes kind n }
{
    for (level, end) in ends.by_level().iter().enumerate() {
        widen_end(image, kind, way, level, false, end.first, low);
        widen_end(image, kind, way, level, true, end.last, high);
    }
}

/// Writes the first or the last key of the node that is `level` steps up, if it gives way.
fn widen_end(
    image: &mut Image,
    kind: NodeKind,
    way: &Way,
    level: usize,
    last: bool,
    gives_way: bool,
    key: &[u8],
)
    requires ends { EndsSomewhere image.old kind way.now }
    requires level { level < length way.now }
    requires width { length key.now ≡ kind.key_length }
    ensures tree { (root height k : ℕ) (owned list : List ℕ)
        → EndsInTree image.old kind root height way.now owned list k
        → EndsInTree image.new kind root height way.now owned list k }
    ensures key { (step : Step) → slice_index_or way.now level step ≡ step
        → IsRewritten image.old image.new kind step.node (record (node_at image.old.bytes kind step.node) {
          keys = if gives_way then slice_set (node_at image.old.bytes kind step.node).keys
              (if last then length (node_at image.old.bytes kind step.node).children else 0) key.now
              else (node_at image.old.bytes kind step.node).keys;
        }) }
{
    if gives_way {
        set_end(image, kind, way, level, last, key);
    }
}
