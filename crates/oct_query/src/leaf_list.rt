//! The greatest blocks of one value.
ghost use Rattle.std.specs.Prelude.{◌≡◌, ◌++◌, [], Bool, Some, IsSome, IfOk, OnOk, OnErr};
ghost use Rattle.oct_arena.specs.Nodes.{link_of};
ghost use Rattle.oct_key.specs.Block.{HoldsVoxel};
ghost use Rattle.oct_key.specs.CubeOf.{cube_of};
ghost use Rattle.oct_key.specs.Voxel.{Voxel};
ghost use Rattle.oct_tree.specs.Classes.{classes_in};
ghost use Rattle.oct_tree.specs.Tree.{IsLinked, IsPlace, block_in, node_in, value_at};
ghost use Rattle.oct_query.specs.Leaves.{IsLeafList, IsOneValue, block_leaves, leaves_met};
ghost use Rattle.oct_query.specs.Leaves.{leaves_of, own_leaf, picked, those_sought};
ghost use Rattle.oct_query.specs.Extent.{is_sought};

use crate::block_list::BlockList;
use crate::extent::is_sought;
use crate::found::Found;
use crate::sought::Sought;
use oct_arena::Node;
use oct_key::{Block, Window};
use oct_num::Memory;
use oct_tree::{OccTree, Place};
use std::alloc::Global;

/// The leaves of the map: the greatest blocks whose voxels are known and have one value, each with
/// that value, in the order of the Morton codes of their first voxels.
///
/// The list is a function of the voxels' values. In a pruned tree these are the blocks of its leaf
/// nodes; one that isn't pruned gives the same list. Memory is asked for only where a voxel is
/// known.
pub fn leaves(alloc: Global, tree: &OccTree) -> Result<BlockList, Memory>
    ensures exact { IfOk result (λ list. list ≡ leaves_of (value_at tree.now)) }
    ensures leaves { IfOk result (λ list. IsLeafList (value_at tree.now) list) }
    ensures memory { OnErr result (leaves_of (value_at tree.now) ≡ [] → ⊥) }
    ensures linked { IsLinked tree.now }
{
    leaves_of(alloc, tree, Sought::Known)
}

/// The leaves of the map whose blocks meet the box, in the same order. Each is a leaf of the whole
/// map, and may reach beyond the box.
///
/// Blocks that don't meet the box are looked at only to tell whether they are part of a greater
/// one, as far as the first two values that differ, and not at all where the tree is known to be
/// pruned. Memory is asked for only where some leaf meets the box.
pub fn leaves_in(alloc: Global, tree: &OccTree, window: &Window) -> Result<BlockList, Memory>
    ensures exact { IfOk result
        (λ list. list ≡ leaves_met (value_at tree.now) window.now.lo window.now.hi) }
    ensures memory { OnErr result
        (leaves_met (value_at tree.now) window.now.lo window.now.hi ≡ [] → ⊥) }
    ensures linked { IsLinked tree.now }
{
    leaves_of_in(alloc, tree, window, Sought::Known)
}

/// Those of the leaves of the map whose voxels are sought, by their class, in the same order.
///
/// Where occupied ones are sought and the tree is known to be fresh, a block whose inner value is
/// below the threshold isn't entered. Memory is asked for only where some leaf is sought.
pub fn leaves_of(alloc: Global, tree: &OccTree, sought: Sought) -> Result<BlockList, Memory>
    ensures exact { IfOk result
        (λ list. list ≡ those_sought tree.now.odds sought (leaves_of (value_at tree.now))) }
    ensures memory { OnErr result
        (those_sought tree.now.odds sought (leaves_of (value_at tree.now)) ≡ [] → ⊥) }
    ensures linked { IsLinked tree.now }
{
    let mut found = BlockList::new(alloc);
    push_leaves(tree, Place::Root, Block::whole_map(), sought, &mut found)?;
    Ok(found)
}

/// Those of these leaves whose blocks meet the box, likewise.
pub fn leaves_of_in(
    alloc: Global,
    tree: &OccTree,
    window: &Window,
    sought: Sought,
) -> Result<BlockList, Memory>
    ensures exact { IfOk result (λ list. list ≡ those_sought tree.now.odds sought
        (leaves_met (value_at tree.now) window.now.lo window.now.hi)) }
    ensures memory { OnErr result (those_sought tree.now.odds sought
        (leaves_met (value_at tree.now) window.now.lo window.now.hi) ≡ [] → ⊥) }
    ensures linked { IsLinked tree.now }
{
    let mut found = BlockList::new(alloc);
    push_met(
        tree,
        Place::Root,
        Block::whole_map(),
        window,
        sought,
        &mut found,
    )?;
    Ok(found)
}

/// Adds the leaves in the place's block that are sought and meet the box, the block itself where
/// its voxels have one value.
fn push_met(
    tree: &OccTree,
    p: Place,
    block: Block,
    window: &Window,
    sought: Sought,
    found: &mut BlockList,
) -> Result<(), Memory>
    requires place { IsPlace tree.now p }
    requires block { block_in tree.now p ≡ Some (cube_of block) }
    ensures listed { OnOk result (found.new ≡ found.old
        ++ picked tree.now.odds sought window.now.lo window.now.hi
        (block_leaves (value_at tree.now) (cube_of block))) }
    ensures memory { OnErr result (picked tree.now.odds sought window.now.lo window.now.hi
        (block_leaves (value_at tree.now) (cube_of block)) ≡ [] → ⊥) }
    ensures linked { IsLinked tree.now }
{
    let node = tree.node(p);
    if !window.meets(block) {
        return Ok(());
    }
    if window.covers(block) {
        return push_leaves(tree, p, block, sought, found);
    }
    if holds_none(tree, p, block, sought) {
        return Ok(());
    }
    let Node::Inner(_, id) = node else {
        return push_block(tree, block, node.value(), sought, found);
    };
    if let Some(value) = shared_value(tree, p, block) {
        return push_block(tree, block, value, sought, found);
    }
    for i in 0..8 {
        let slot = Place::Slot(id, i);
        if let Node::Absent = tree.node(slot) {
            continue;
        }
        push_met(tree, slot, block.child(i), window, sought, found)?;
    }
    Ok(())
}

/// Adds the leaves in the place's block that are sought, the block itself where its voxels have one
/// value. A child that is a leaf is added here, without a call for it.
fn push_leaves(
    tree: &OccTree,
    p: Place,
    block: Block,
    sought: Sought,
    found: &mut BlockList,
) -> Result<(), Memory>
    requires place { IsPlace tree.now p }
    requires block { block_in tree.now p ≡ Some (cube_of block) }
    ensures listed { OnOk result (found.new ≡ found.old ++ those_sought tree.now.odds sought
        (block_leaves (value_at tree.now) (cube_of block))) }
    ensures memory { OnErr result (those_sought tree.now.odds sought
        (block_leaves (value_at tree.now) (cube_of block)) ≡ [] → ⊥) }
    ensures linked { IsLinked tree.now }
{
    let node = tree.node(p);
    if holds_none(tree, p, block, sought) {
        return Ok(());
    }
    let Node::Inner(_, id) = node else {
        return push_block(tree, block, node.value(), sought, found);
    };
    if let Some(value) = shared_value(tree, p, block) {
        return push_block(tree, block, value, sought, found);
    }
    for i in 0..8 {
        match tree.node(Place::Slot(id, i)) {
            Node::Absent => {}
            Node::Leaf(value) => push_block(tree, block.child(i), Some(value), sought, found)?,
            Node::Inner(..) => {
                push_leaves(tree, Place::Slot(id, i), block.child(i), sought, found)?;
            }
        }
    }
    Ok(())
}

/// Whether the place's node tells that no voxel of its block is sought: in a tree that is known to
/// be fresh, the value of the node is the greatest of the block.
fn holds_none(tree: &OccTree, p: Place, block: Block, sought: Sought) -> bool
    requires place { IsPlace tree.now p }
    requires block { block_in tree.now p ≡ Some (cube_of block) }
    ensures none { result ≡ Bool.true → (k : Voxel) → HoldsVoxel (cube_of block) k
        → is_sought sought (classes_in tree.now k) ≡ Bool.false }
{
    match sought {
        Sought::Occupied => {
            let greatest = tree.odds().class(tree.node(p).stored());
            tree.tidiness().fresh && !is_sought(Sought::Occupied, greatest)
        }
        _ => false,
    }
}

/// Adds a block whose voxels all have this value, where they are known and sought.
fn push_block(
    tree: &OccTree,
    block: Block,
    value: Option<i32>,
    sought: Sought,
    found: &mut BlockList,
) -> Result<(), Memory>
    ensures listed { OnOk result (found.new ≡ found.old
        ++ those_sought tree.now.odds sought (own_leaf (cube_of block) value)) }
    ensures memory { OnErr result
        (those_sought tree.now.odds sought (own_leaf (cube_of block) value) ≡ [] → ⊥) }
{
    let class = tree.odds().class(value);
    match value {
        Some(value) if is_sought(sought, class) => found.push(Found { block, value }),
        _ => Ok(()),
    }
}

/// The value of all voxels of the place's block, which has a group, or `None` where they have
/// several: in a tree that is known to be pruned each such block has several.
fn shared_value(tree: &OccTree, p: Place, block: Block) -> Option<Option<i32>>
    requires place { IsPlace tree.now p }
    requires block { block_in tree.now p ≡ Some (cube_of block) }
    requires inner { IsSome (link_of (node_in tree.now p)) }
    ensures exact { IsOneValue (value_at tree.now) (cube_of block) result }
    ensures linked { IsLinked tree.now }
{
    if tree.tidiness().pruned {
        return None;
    }
    one_value(tree, p, block)
}

/// The value of all voxels of the place's block, where unknown counts as one, or `None` where they
/// have several. Goes no further than the first two that differ.
fn one_value(tree: &OccTree, p: Place, block: Block) -> Option<Option<i32>>
    requires place { IsPlace tree.now p }
    requires block { block_in tree.now p ≡ Some (cube_of block) }
    ensures exact { IsOneValue (value_at tree.now) (cube_of block) result }
    ensures linked { IsLinked tree.now }
{
    let node = tree.node(p);
    let Node::Inner(_, id) = node else {
        return Some(node.value());
    };
    let first = one_value(tree, Place::Slot(id, 0), block.child(0))?;
    for i in 1..8 {
        let next = one_value(tree, Place::Slot(id, i), block.child(i))?;
        if next != first {
            return None;
        }
    }
    Some(first)
}
