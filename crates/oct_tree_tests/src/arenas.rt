//! Groups that are taken, split and given back under their ids.
ghost use Rattle.std.specs.Prelude.{◌≤◌};
ghost use Rattle.oct_arena.specs.Entries.{IsLive};

use oct_arena::{GroupId, Node, NodeArena};
use oct_key::Block;
use std::process::Abort;
use std::test::Fail;

/// A block of depth 8, by its number on the x axis.
fn block(x: u16) -> Block
    requires { x ≤ 255 }
{
    Block {
        depth: 8,
        x,
        y: 0,
        z: 3,
    }
}

/// Expects this many groups, and this many more that can be taken.
fn expect_counts(rt: &impl Abort, arena: &NodeArena, want: (u32, u32)) {
    assert_eq!(rt; (arena.live(), arena.spare()), want);
}

/// Expects this home of a group, and these nodes.
fn expect_group(rt: &impl Abort, arena: &NodeArena, id: GroupId, home: Block, nodes: [Node; 8])
    requires { IsLive arena.now id.number }
{
    assert_eq!(rt; arena.home(id), home);
    let group = arena.group(id);
    let found = [
        group.node(0),
        group.node(1),
        group.node(2),
        group.node(3),
        group.node(4),
        group.node(5),
        group.node(6),
        group.node(7),
    ];
    assert_eq!(rt; found, nodes);
}

#[test]
#[tactic(auto, using(crate::proofs::Callers::arena_callers))]
fn keeps_the_groups_that_are_not_given_back(rt: HostRuntime) -> Result<(), Fail> {
    let mut arena = NodeArena::new(rt.alloc());
    expect_counts(&rt, &arena, (0, 0));
    arena.reserve(5)?;
    let room = arena.spare();
    assert!(rt; room >= 5);
    let first = arena.take(block(1), [Node::Leaf(-400); 8]);
    let second = arena.take(block(2), [Node::Absent; 8]);
    let third = arena.take(block(3), [Node::Leaf(850); 8]);
    arena.give(second);
    let fourth = arena.take(block(4), [Node::Leaf(3500); 8]);
    expect_counts(&rt, &arena, (3, room - 3));
    expect_group(&rt, &arena, first, block(1), [Node::Leaf(-400); 8]);
    expect_group(&rt, &arena, third, block(3), [Node::Leaf(850); 8]);
    expect_group(&rt, &arena, fourth, block(4), [Node::Leaf(3500); 8]);
    arena.set_node(third, 2, Node::Inner(850, first));
    let mut nodes = [Node::Leaf(850); 8];
    nodes[2] = Node::Inner(850, first);
    expect_group(&rt, &arena, third, block(3), nodes);
    Ok(())
}

#[test]
fn takes_new_entries_in_the_order_of_their_ids(rt: HostRuntime) -> Result<(), Fail> {
    let alloc = rt.alloc();
    let mut arena = NodeArena::new(alloc);
    arena.reserve(3)?;
    let first = arena.take(block(0), [Node::Absent; 8]);
    let second = arena.take(block(1), [Node::Absent; 8]);
    let third = arena.take(block(2), [Node::Absent; 8]);
    let text = format!(in alloc; "{first:?} {second:?} {third:?}")?;
    assert_eq!(rt;
        text.as_str(),
        "GroupId { number: 0 } GroupId { number: 1 } GroupId { number: 2 }"
    );
    Ok(())
}

#[test]
#[tactic(auto, using(crate::proofs::Callers::arena_callers))]
fn keeps_three_thousand_homes(rt: HostRuntime) -> Result<(), Fail> {
    let mut arena = NodeArena::new(rt.alloc());
    arena.reserve(3000)?;
    let mut ids: Vec<GroupId> = Vec::new(rt.alloc());
    'take: for x in 0..3000 {
        ids.push(arena.take(
            Block {
                depth: 16,
                x,
                y: 0,
                z: 0,
            },
            [Node::Absent; 8],
        ))?;
    }
    'read: for (x, id) in ids.iter().enumerate() {
        assert_eq!(rt; arena.home(*id).x as usize, x);
    }
    Ok(())
}

/// Splits node 5 of a group whose home isn't a voxel's block, where there is room for it.
fn split(rt: &impl Abort, arena: &mut NodeArena, id: GroupId) -> GroupId
    requires { IsLive arena.old id.number }
    ensures over { IsLive arena.new id.number }
    ensures under { IsLive arena.new result.number }
{
    let home = arena.home(id);
    assert!(rt; home.depth <= 15);
    assert!(rt; arena.spare() >= 1);
    arena.split_to(id, 5, 400)
}

#[test]
fn splits_a_node_into_eight_copies(rt: HostRuntime) -> Result<(), Fail> {
    let mut arena = NodeArena::new(rt.alloc());
    arena.reserve(2)?;
    let over = arena.take(block(1), [Node::Leaf(850); 8]);
    let under = split(&rt, &mut arena, over);
    // Child 5 of the block lies in its upper half on the x and z axes.
    let child = Block {
        depth: 9,
        x: 3,
        y: 0,
        z: 7,
    };
    let leaves = [Node::Leaf(850); 8];
    expect_group(&rt, &arena, under, child, leaves);
    let mut nodes = leaves;
    nodes[5] = Node::Inner(400, under);
    expect_group(&rt, &arena, over, block(1), nodes);
    Ok(())
}
