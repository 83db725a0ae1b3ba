//! What is known of a block: nothing, one value, or a group of its children.
ghost use Rattle.std.specs.Prelude.{◌≡◌, ◌<◌, ◌+◌, ◌*◌, ◌/◌, ◌%◌, ◌^◌, ◌↔◌, IsTrue};
ghost use Rattle.std.specs.Int.{cast_signed, cast_unsigned};
ghost use Rattle.std.proofs.Common.{w32};

use crate::home::PackedBlock;
use std::marker::Model;
use std::mem::size_of;

/// Which group of an arena is meant. [`NodeArena::take`](crate::NodeArena::take) answers it, and it
/// stands for that group until the group is given back.
#[derive(Clone, Copy, Debug, PartialEq, Eq)]
pub struct GroupId {
    number: u32,
    pub ghost small: { number < 2 ^ 31 + 1023 },
}

impl GroupId {
    /// The id of the entry of that number.
    pub(crate) fn new(number: u32) -> GroupId
        requires { number < 2 ^ 31 + 1023 }
        ensures { result.number ≡ number }
    {
        GroupId { number }
    }

    /// The number of the entry.
    pub(crate) fn number(self) -> u32
        ensures same { result ≡ self.number }
        ensures small { result < 2 ^ 31 + 1023 }
    {
        self.number
    }
}

/// What is known of a block of voxels.
#[derive(Clone, Copy, Debug, PartialEq, Eq)]
pub enum Node {
    /// No voxel of the block is known.
    Absent,
    /// Each voxel of the block has this value, in thousandths of log-odds.
    Leaf(i32),
    /// The block's children are in that group. The value stands for the whole block: where the tree
    /// is fresh, it is the greatest of its children.
    Inner(i32, GroupId),
}

impl Node {
    ghost use Rattle.std.specs.Prelude.{Some, None};
    ghost use Rattle.oct_arena.specs.Nodes.{value_of, stored_in};

    /// The value that the node gives each voxel of its block, or `None` where it gives none.
    pub fn value(self) -> Option<i32>
        ensures exact { result ≡ value_of self }
    {
        match self {
            Node::Leaf(value) => Some(value),
            _ => None,
        }
    }

    /// The value that stands in the node, for queries at its depth.
    pub fn stored(self) -> Option<i32>
        ensures exact { result ≡ stored_in self }
    {
        match self {
            Node::Absent => None,
            Node::Leaf(value) | Node::Inner(value, _) => Some(value),
        }
    }
}

// The links above every `GroupId`.
const LEAF: u32 = 0xffff_fffe;

const ABSENT: u32 = 0xffff_ffff;

const LINK_UNIT: u64 = 0x1_0000_0000;

/// A node in eight bytes: the value in the lower four, and in the upper four the number of the
/// children's group, `LEAF` or `ABSENT`.
#[derive(Clone, Copy)]
pub(crate) struct PackedNode {
    bits: u64,
}

const _: () = prove!(size_of::<PackedNode>() == 8);

impl Model for PackedNode {
    ghost use Rattle.oct_arena.specs.declared.node.Node.{Node};
    ghost use Rattle.oct_arena.specs.Packing.{node_of_bits, bits_of, IsPacked, packed-unpacked};

    ghost Value = { Node };

    ghost view = { λ p. node_of_bits p.bits };

    ghost invariant = { λ p. IsPacked p.bits };

    ghost inverse = { λ n. record { bits = bits_of n } };

    ghost inverse_ok = { λ p h. packed-unpacked p h };
}

/// The bits of a link and a value.
fn packed(link: u32, value: i32) -> u64
    ensures { result ≡ 2 ^ 32 * link + cast_unsigned w32 value }
{
    link as u64 * LINK_UNIT + value.cast_unsigned() as u64
}

/// The link in the bits.
fn upper_half(bits: u64) -> u32
    ensures { result ≡ bits / 2 ^ 32 }
{
    (bits / LINK_UNIT) as u32
}

/// The value in the bits.
fn lower_half(bits: u64) -> i32
    ensures { result ≡ cast_signed w32 (bits % 2 ^ 32) }
{
    ((bits % LINK_UNIT) as u32).cast_signed()
}

impl PackedNode {
    ghost use Rattle.std.specs.Prelude.{option_map};
    ghost use Rattle.oct_arena.specs.Nodes.{link_of, stored_in, IsRankOf};

    pub(crate) fn new(node: Node) -> PackedNode
        ensures { result ≡ node }
    {
        match node {
            Node::Absent => PackedNode {
                bits: packed(ABSENT, i32::MIN),
            },
            Node::Leaf(value) => PackedNode {
                bits: packed(LEAF, value),
            },
            Node::Inner(value, id) => PackedNode {
                bits: packed(id.number(), value),
            },
        }
    }

    pub(crate) fn node(self) -> Node
        ensures { result ≡ self }
    {
        let value = lower_half(self.bits);
        match upper_half(self.bits) {
            ABSENT => Node::Absent,
            LEAF => Node::Leaf(value),
            link => Node::Inner(value, GroupId::new(link)),
        }
    }

    /// The group that the node links, if it is Inner: the links of the others are greater.
    #[inline(always)]
    pub(crate) fn link(self) -> Option<GroupId>
        ensures { option_map (λ g. g.number) result ≡ link_of self }
    {
        if self.bits < LEAF as u64 * LINK_UNIT {
            Some(GroupId::new(upper_half(self.bits)))
        } else {
            None
        }
    }

    /// Whether both are one node: nodes are where their bits are.
    pub(crate) fn is(self, other: PackedNode) -> bool
        ensures { IsTrue result ↔ (self ≡ other) }
    {
        self.bits == other.bits
    }

    /// The rank of the value that stands in the node.
    pub(crate) fn rank(self) -> i32
        ensures { IsRankOf (stored_in self) result }
    {
        lower_half(self.bits)
    }

    pub(crate) fn all(nodes: &[Node; 8]) -> [PackedNode; 8]
        ensures { result ≡ nodes.now }
    {
        [
            PackedNode::new(nodes[0]),
            PackedNode::new(nodes[1]),
            PackedNode::new(nodes[2]),
            PackedNode::new(nodes[3]),
            PackedNode::new(nodes[4]),
            PackedNode::new(nodes[5]),
            PackedNode::new(nodes[6]),
            PackedNode::new(nodes[7]),
        ]
    }
}

/// The nodes of a block's eight children, in the order of their child indices. The block is the
/// group's home.
#[derive(Clone, Copy)]
pub struct Group {
    pub(crate) home: PackedBlock,
    pub(crate) nodes: [PackedNode; 8],
}

const _: () = prove!(size_of::<Group>() == 72);
