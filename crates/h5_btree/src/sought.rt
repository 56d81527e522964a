//! What is sought in a tree, and the child of a node below which it stands (File Format Specification 3.0, section
//! III.A.1).

ghost use Rattle.std.specs.Prelude.{◌≡◌, ℕ, ◌≤◌, Bool, List, length};
ghost use Rattle.std.specs.List.{AllByRecursion};
ghost use Rattle.h5_model.specs.Format.Nodes.{Kind};
ghost use Rattle.h5_btree.specs.Descent.{IsChildFor};

use crate::kind::NodeKind;
use crate::node::Node;

/// Something that is sought in the trees of one kind, by the order of their keys.
pub trait Sought {
    /// The kind of the trees.
    ghost tree_kind: { Self → Kind };

    /// Whether it stands behind a key.
    ghost behind: { Self → List ℕ → Bool };

    /// The kind of the trees.
    fn kind(&self) -> NodeKind
        ensures { result ≡ tree_kind self.now };

    /// Whether it stands behind a key.
    fn is_behind(&self, key: &[u8]) -> bool
        requires { length key.now ≡ (tree_kind self.now).key_length }
        ensures { result ≡ behind self.now key.now };
}

/// The child of a node below which the thing that is sought stands, if it stands below the node. Compares with at
/// most as many keys as the count of children has binary digits.
pub fn child_for<S: Sought>(node: &Node<'_>, sought: &S) -> usize
    requires filled { 1 ≤ length node.now.children }
    requires keys { AllByRecursion (λ key. length key ≡ (S.tree_kind sought.now).key_length) node.now.keys }
    ensures { IsChildFor (S.behind sought.now) node.now result }
{
    let mut from = 0;
    let mut to = node.len();
    while to - from > 1 {
        let middle = from + (to - from) / 2;
        if sought.is_behind(node.key(middle)) {
            from = middle;
        } else {
            to = middle;
        }
    }
    from
}
