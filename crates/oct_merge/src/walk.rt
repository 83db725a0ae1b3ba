//! What a walk through two trees side by side asks of a node.

ghost use Rattle.std.specs.Prelude.{◌≡◌, ◌↔◌, IsTrue, None};
ghost use Rattle.oct_arena.specs.Nodes.{link_of};

use oct_arena::Node;

/// Whether the node links no group.
pub(crate) fn is_plain(node: Node) -> bool
    ensures { IsTrue result ↔ (link_of node ≡ None) }
{
    !matches!(node, Node::Inner(..))
}
