//! The way from a node of a tree up to its root (File Format Specification 3.0, section III.A.1).

ghost use Rattle.std.specs.Prelude.{◌≡◌, ◌+◌, ◌<◌, ◌≤◌, ◌↔◌, ℕ, [], ◌∷◌, ◌++◌, List, None, IfErr, IfOk, IfSome, IsOk, IsTrue, length};
ghost use Rattle.h5_bytes.specs.Blocks.{Inside};
ghost use Rattle.h5_model.specs.Format.Limits.{highest_level};
ghost use Rattle.h5_model.specs.Format.Nodes.{HasTree, node_at, tree_blocks};
ghost use Rattle.h5_btree.specs.Descent.{IsInRow, IsWayTo, StopsDescent, StopsFromRoot};
ghost use Rattle.h5_btree.specs.Insertion.{IsFullWay};
ghost use Rattle.h5_btree.specs.Removal.{EndsSomewhere};

use crate::kind::NodeKind;
use crate::node::MAX_LEVEL;
use crate::read::{NodeFault, node_there, read_node_at};
use crate::sought::{Sought, child_for};
use h5_space::Image;
use std::marker::Model;

/// A node on the way, and the index in it of the child from which the way comes.
#[derive(Clone, Copy, Debug)]
pub struct Step {
    pub node: u64,
    pub place: usize,
}

/// How many steps a way has at most: one for each level.
pub const MOST_STEPS: usize = MAX_LEVEL as usize + 1;

/// The way from a node of level 0 up to the root, with a step for each level. The steps stand in the value itself, so
/// it takes no memory.
#[derive(Drop)]
pub struct Way {
    steps: [Step; MOST_STEPS],
    len: usize,
}

impl Model for Way {
    ghost use Rattle.std.specs.Prelude.{◌≡◌, List, ◌≤◌, length, take};
    ghost use Rattle.h5_btree.specs.declared.way.Step.{Step};

    ghost Value = { List Step };

    ghost view = { λ w. take w.len w.steps };

    ghost invariant = { λ w. (1 ≤ w.len) × (w.len ≤ 16) × (length w.steps ≡ 16) };
}

impl Way {
    /// The way of this step alone.
    fn new(step: Step) -> Way
        ensures { result ≡ step ∷ [] }
    {
        Way {
            steps: [step; MOST_STEPS],
            len: 1,
        }
    }

    /// Goes on to the level above.
    fn push(&mut self, step: Step)
        requires { length self.old < 16 }
        ensures { self.new ≡ self.old ++ step ∷ [] }
    {
        self.steps[self.len] = step;
        self.len += 1;
    }

    /// The steps, from level 0 up.
    pub fn steps(&self) -> &[Step]
        ensures steps { result.now ≡ self.now }
        ensures least { 1 ≤ length self.now }
        ensures most { length self.now ≤ 16 }
    {
        &self.steps[..self.len]
    }
}

/// The way up to the root, from the child of a node of level 0 below which the thing that is sought stands, if it
/// stands in the tree; `Ok(None)` if the tree has no children. Reads one node of each level, and takes no memory.
///
/// # Errors
///
/// Those of [`crate::find_place`].
pub fn find_way<S: Sought>(image: &[u8], root: u64, sought: &S) -> Result<Option<Way>, NodeFault>
    ensures empty { IfOk result (λ way. (way ≡ None)
        ↔ ((node_at image.now (S.tree_kind sought.now) root).children ≡ [])) }
    ensures leads { IfOk result (λ way. IfSome way (IsWayTo (node_at image.now (S.tree_kind sought.now))
        (S.behind sought.now) (node_at image.now (S.tree_kind sought.now) root).level root)) }
    ensures refused { IfErr result
        (StopsFromRoot image.now (S.tree_kind sought.now) (S.behind sought.now) root) }
    ensures only { (level : ℕ) (owned children : List ℕ)
        → HasTree image.now (S.tree_kind sought.now) root level owned children
        → Inside (length image.now) (tree_blocks (S.tree_kind sought.now) owned) → IsOk result }
{
    let node = read_node_at(image, sought.kind(), root)?;
    node.check_root()?;
    if node.is_empty() {
        return Ok(None);
    }
    let way = way_from(image, root, node.level(), sought)?;
    Ok(Some(way))
}

/// The way up to a node that is to stand at this level, with children.
fn way_from<S: Sought>(image: &[u8], at: u64, level: u8, sought: &S) -> Result<Way, NodeFault>
    requires low { level ≤ highest_level }
    ensures leads { IfOk result
        (IsWayTo (node_at image.now (S.tree_kind sought.now)) (S.behind sought.now) level at) }
    ensures levels { IfOk result (λ way. length way ≡ level + 1) }
    ensures refused { IfErr result
        (StopsDescent image.now (S.tree_kind sought.now) (S.behind sought.now) level at) }
    ensures only { (owned row : List ℕ) → IsInRow image.now (S.tree_kind sought.now) owned level row at
        → IsOk result }
{
    let node = read_node_at(image, sought.kind(), at)?;
    node.check_level(level)?;
    let place = child_for(&node, sought);
    let step = Step { node: at, place };
    if level == 0 {
        return Ok(Way::new(step));
    }
    let mut way = way_from(image, node.child(place), level - 1, sought)?;
    way.push(step);
    Ok(way)
}

/// Whether each node on the way has as many children as it has room for, so that a child more raises the root.
///
/// That the way ends in a tree is the caller's condition.
pub fn is_full_way(image: &Image, kind: NodeKind, way: &Way) -> bool
    requires ends { EndsSomewhere image.now kind way.now }
    ensures { IsTrue result ↔ IsFullWay image.now.bytes kind way.now }
{
    for step in way.steps() {
        if node_there(image.bytes(), kind, step.node).len() < kind.capacity() {
            return false;
        }
    }
    true
}
