//! The way from the root of a tree down to the child below which something stands (File Format Specification 3.0,
//! section III.A.1).

ghost use Rattle.std.specs.Prelude.{◌≡◌, ℕ, ◌↔◌, [], List, None, IfErr, IfOk, IfSome, IsOk, length};
ghost use Rattle.std.specs.List.{AllByRecursion};
ghost use Rattle.h5_bytes.specs.Blocks.{Inside};
ghost use Rattle.h5_model.specs.Format.Nodes.{HasTree, node_at, tree_blocks};
ghost use Rattle.h5_btree.specs.Descent.{EndsAt, IsInRow, LeadsTo, StopsDescent, StopsFromRoot};

use crate::node::Node;
use crate::read::{NodeFault, read_node_at};
use crate::sought::{Sought, child_for};

/// Where the way down a tree ends: at a child of a node of level 0.
#[derive(Drop)]
pub struct ChildPlace<'a> {
    pub node: Node<'a>,
    pub child: usize,
}

/// The child of a node of level 0 below which the thing that is sought stands, if it stands in the tree; `Ok(None)`
/// if the tree has no children. Reads one node of each level, and takes no memory. Other nodes are not looked at.
///
/// # Errors
///
/// - `Truncated`: a node on the way passes the end.
/// - `NodeForm`: a node on the way has another form, another level, or a count of children that cannot stand there.
pub fn find_place<'a, S: Sought>(
    image: &'a [u8],
    root: u64,
    sought: &S,
) -> Result<Option<ChildPlace<'a>>, NodeFault>
    ensures empty { IfOk result (λ place. (place ≡ None)
        ↔ ((node_at image.now (S.tree_kind sought.now) root).children ≡ [])) }
    ensures ends { IfOk result (λ place. IfSome place (λ p.
        EndsAt (node_at image.now (S.tree_kind sought.now)) (S.behind sought.now)
        (node_at image.now (S.tree_kind sought.now) root).level root p.node p.child)) }
    ensures keys { IfOk result (λ place. IfSome place (λ p.
        AllByRecursion (λ (key : List ℕ). length key ≡ (S.tree_kind sought.now).key_length) p.node.keys)) }
    ensures refused { IfErr result
        (StopsFromRoot image.now (S.tree_kind sought.now) (S.behind sought.now) root) }
    ensures only { (level : ℕ) (owned children : List ℕ)
        → HasTree image.now (S.tree_kind sought.now) root level owned children
        → Inside (length image.now) (tree_blocks (S.tree_kind sought.now) owned) → IsOk result }
{
    let node = read_node_at(image, sought.kind(), root)?;
    node.check_root()?;
    if node.is_empty() {
        return Ok(None);
    }
    let place = descend(image, root, node.level(), sought)?;
    Ok(Some(place))
}

/// The address to which the child at the end of the way leads; `Ok(None)` if the tree has no children.
///
/// # Errors
///
/// Those of [`find_place`].
pub fn find_leaf<S: Sought>(image: &[u8], root: u64, sought: &S) -> Result<Option<u64>, NodeFault>
    ensures empty { IfOk result (λ leaf. (leaf ≡ None)
        ↔ ((node_at image.now (S.tree_kind sought.now) root).children ≡ [])) }
    ensures leads { IfOk result (λ leaf. IfSome leaf (LeadsTo (node_at image.now (S.tree_kind sought.now))
        (S.behind sought.now) (node_at image.now (S.tree_kind sought.now) root).level root)) }
    ensures refused { IfErr result
        (StopsFromRoot image.now (S.tree_kind sought.now) (S.behind sought.now) root) }
    ensures only { (level : ℕ) (owned children : List ℕ)
        → HasTree image.now (S.tree_kind sought.now) root level owned children
        → Inside (length image.now) (tree_blocks (S.tree_kind sought.now) owned) → IsOk result }
{
    match find_place(image, root, sought)? {
        Some(place) => Ok(Some(place.node.child(place.child))),
        None => Ok(None),
    }
}

/// The child at the bottom below a node that is to stand at this level, with children.
fn descend<'a, S: Sought>(
    image: &'a [u8],
    at: u64,
    level: u8,
    sought: &S,
) -> Result<ChildPlace<'a>, NodeFault>
    ensures ends { IfOk result (λ p.
        EndsAt (node_at image.now (S.tree_kind sought.now)) (S.behind sought.now) level at p.node p.child) }
    ensures keys { IfOk result (λ p.
        AllByRecursion (λ (key : List ℕ). length key ≡ (S.tree_kind sought.now).key_length) p.node.keys) }
    ensures refused { IfErr result
        (StopsDescent image.now (S.tree_kind sought.now) (S.behind sought.now) level at) }
    ensures only { (owned row : List ℕ) → IsInRow image.now (S.tree_kind sought.now) owned level row at
        → IsOk result }
{
    let node = read_node_at(image, sought.kind(), at)?;
    node.check_level(level)?;
    let index = child_for(&node, sought);
    if level == 0 {
        return Ok(ChildPlace { node, child: index });
    }
    let child = node.child(index);
    descend(image, child, level - 1, sought)
}
