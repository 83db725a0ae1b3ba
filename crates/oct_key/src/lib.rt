//! Points, voxels, and the voxel that holds a point.
//!
//! Space is cut into cubes of one edge length, the resolution. The map has 65,536 of them on each
//! axis, and a point whose coordinate is c has the key `floor(c / resolution) + 32768` on that
//! axis, as in the OctoMap library. Lengths are whole nanometres, so that no rounding error moves a
//! point to a neighbour. A voxel takes its lower faces and not its upper ones.
//!
//! ```text
//! let res = Res::new(100_000_000)?;                            // an edge of 0.1 m
//! let point = Point { x: 250_000_000, y: 0, z: -1 };           // in nanometres
//! if let Some(key) = res.key_of(point) {                       // 32770, 32768, 32767
//!     let block = Block::of(key, 15);                          // 16385, 16384, 16383
//!     let code = morton(key);                                  // from_morton(code) is the key
//! }
//! ```
//!
//! What the contracts promise:
//!
//! - [`Res::new`] accepts exactly the resolutions from 0.1 mm to 100 m, and each [`Res`] that
//!   exists is one of them.
//! - [`Res::key_of`] is the floor rule, and also what the rule is for: the voxel that is answered
//!   holds the point, no other voxel of the map does, and where none is answered no voxel of the
//!   map holds it.
//! - [`Block::of`] is the one block of its depth that holds the voxel, and [`child_index`] says
//!   which of that block's eight children holds it. A [`Block::child`] holds exactly the voxels of
//!   its block with that index, and [`Block::parent`] goes back.
//! - [`morton`] is the code of a voxel whose bits are those of its three numbers in turn, and
//!   [`from_morton`] the one voxel of a code. Two voxels lie in one block of a depth exactly where
//!   their codes have the same leading bits, three for each level down to there, and the three bits
//!   after them are the index of the child. So voxels in the order of their codes come block by
//!   block.
//! - The voxels of the map and the blocks of a depth have lists in their order, by x, then y, then
//!   z: [`orders_are_whole`] says that each stands there once, and no other does.
//! - [`Dilated`] is a number whose bits stand where its axis has them in a code. It is counted up
//!   and down as it stands, by [`Dilated::step`] without a branch, and [`morton_of_axes`] makes the
//!   code of three of them.
//! - A [`Window`] is a box of voxels, by its two corners, both included, of which on no axis the
//!   first is beyond the second. [`Window::holds`] says which voxels lie in it,
//!   [`Window::meets`] of which blocks some voxel does, and [`Window::covers`] of which each one.
//! - [`PointList`] and [`KeyList`] keep what they are given, in order.
//! - [`sorted_keys`] answers numbers that name each place of a list once (`AreKeys`), in the order
//!   of the codes that the things there have.
//!
//! A block is a cube of 2^(16 - depth) voxels on each axis: depth 0 is the whole map, and each
//! block is cut in half on each axis into the eight of the next depth, down to depth 16, where a
//! block is a voxel.
//!
//! Only `push` of a list and `sorted_keys` allocate, and no call touches anything but its
//! arguments. The crates of a map stand on this one, and cite its definitions: `Voxel`, `Values`
//! and `SameValues` for what a map means, `key_at` and `Holds` for where a point lies, `IsInBox`,
//! `MeetsBox` and `LiesInBox` for the voxels and blocks of a box, `morton_of` for the order of
//! voxels along the Z-order curve (Morton 1966), `key_cmp` and `voxels_in_order` for the one by x,
//! y and z, and `block_of`, `child_of`, `HoldsVoxel` and `LiesIn` for the blocks.

#![tactic(auto)]

mod block;
mod dilated;
mod laws;
mod morton_code;
mod place_keys;
mod point;
mod resolution;
mod window;

pub use block::{Block, child_index};
pub use dilated::{Dilated, morton_of_axes};
pub use laws::orders_are_whole;
pub use morton_code::{child_of_code, from_morton, morton};
pub use place_keys::sorted_keys;
pub use point::{Key, KeyList, Point, PointList};
pub use resolution::{BadResolution, Res};
pub use window::Window;
