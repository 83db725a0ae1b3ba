//! What a group's eight nodes come to, read from the arena.

ghost use Rattle.std.specs.Prelude.{◌≡◌, ◌≤◌, ◌<◌, ◌↔◌, ◌≤ℤ◌, ◌⊎◌, IsTrue, IfSome, IfNone, Some};
ghost use Rattle.std.specs.Prelude.{None};
ghost use Rattle.oct_arena.specs.Entries.{IsLive};
ghost use Rattle.oct_tree.specs.Nodes.{inherited, IsAll, IsCollapsible, IsKnown, IsGreatest};
ghost use Rattle.oct_arena.specs.Nodes.{link_of};
ghost use Rattle.oct_tree.specs.Survey.{IsSurvey};

use oct_arena::{GroupId, Node, NodeArena};

/// The value that an Inner node begins with where it takes the place of this one: a leaf's, or 0.
pub(crate) fn inherited(node: Node) -> i32
    ensures { result ≡ inherited node }
{
    match node {
        Node::Leaf(value) => value,
        _ => 0,
    }
}

/// The greater rank.
fn greater(a: i32, b: i32) -> i32
    ensures { (a ≤ℤ result) × (b ≤ℤ result) × ((result ≡ a) ⊎ (result ≡ b)) }
{
    a.max(b)
}

/// The one node that the group's eight nodes all are, if it isn't Inner.
pub(crate) fn common_node(arena: &NodeArena, id: GroupId) -> Option<Node>
    requires { IsLive arena.now id.number }
    ensures some { IfSome result (λ n. (link_of n ≡ None) × IsAll arena.now id.number n) }
    ensures none { IfNone result (IsCollapsible arena.now id.number → ⊥) }
{
    let group = arena.group(id);
    for i in 1..8 {
        if !group.are_same(0, i) {
            return None;
        }
    }
    match group.node(0) {
        Node::Inner(..) => None,
        first => Some(first),
    }
}

/// Whether the group's eight nodes are absent.
pub(crate) fn is_absent(arena: &NodeArena, id: GroupId) -> bool
    requires { IsLive arena.now id.number }
    ensures { IsTrue result ↔ IsAll arena.now id.number Node.Absent }
{
    let group = arena.group(id);
    for i in 0..8 {
        if !matches!(group.node(i), Node::Absent) {
            return false;
        }
    }
    true
}

/// The greatest value that stands in the group's nodes, of which one at least isn't absent.
pub(crate) fn greatest(arena: &NodeArena, id: GroupId) -> i32
    requires live { IsLive arena.now id.number }
    requires known { IsKnown arena.now id.number }
    ensures { IsGreatest arena.now id.number result }
{
    let group = arena.group(id);
    let mut most = i32::MIN;
    for i in 0..8 {
        most = greater(most, group.rank(i));
    }
    most
}

/// What the nodes of a group come to.
pub(crate) enum Survey {
    /// All are this node, which is not Inner.
    Alike(Node),
    /// They differ, or are Inner, and this is their greatest value.
    Varied(i32),
}

/// What the group's nodes come to. Where they differ, the second node read usually shows it.
pub(crate) fn read_group(arena: &NodeArena, id: GroupId) -> Survey
    requires { IsLive arena.now id.number }
    ensures { IsSurvey arena.now id.number result }
{
    match common_node(arena, id) {
        Some(node) => Survey::Alike(node),
        None => Survey::Varied(greatest(arena, id)),
    }
}
