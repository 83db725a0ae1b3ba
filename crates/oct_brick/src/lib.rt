//! Bricks: the voxels that a scan changes, 64 at a time.
//!
//! A brick is a block of depth 14, which has 4 voxels on each axis and 64 in all. In the order of
//! Morton codes (Morton 1966) they stand together: the code of a voxel is that of its brick, which
//! is the code without its last six bits, and its place in the brick, which is those six bits. So a
//! number of 64 bits says which voxels of a brick something is true of, the union of two such sets
//! is an `or`, and the octets of the number, its groups of eight bits, are the blocks of depth 15.
//!
//! A [`Brick`] has two such numbers: the voxels that a scan changes, and those of them that it
//! hits. The others are freed.
//!
//! ```text
//! let code = morton(Key { x: 32768, y: 32768, z: 32768 });
//! let passed = Brick::around(code).with_scanned(code);
//! let end = Brick::around(code + 1).with_hit(code + 1);
//! let bricks = merge_bricks(alloc, vec![in alloc; passed, end]?)?;   // one brick
//! let freed = bricks[0].frees();                                     // the bit of the first voxel
//! ```
//!
//! What the contracts promise:
//!
//! - Whether a number has a voxel is `HasCode`, and the codes of its voxels in their order are
//!   `codes_of`. A list of bricks is seen as two lists of voxels that ascend by their codes,
//!   `hit_voxels` and `freed_voxels`. This crate makes no such list.
//! - [`Brick::with_scanned`], [`Brick::with_hit`] and [`Brick::joined`] add exactly the voxels that
//!   they say, and [`Brick::frees`] has exactly those that change and aren't hit.
//! - [`merge_bricks`] keeps exactly the voxels that the bricks change and hit, and puts the bricks
//!   in the order of their codes, each code once (`AreAscending`).
//! - [`Brick::child_index`] and [`count_octets`] say where a brick lies in the tree: in which child
//!   of a block, and in how many blocks of depth 15 its voxels lie.
//!
//! Up to 2^22 bricks are put in order by keys, numbers that have the code of a brick above its
//! place in the list, which std sorts faster than bricks.
//!
//! Merging allocates a list of keys and one of bricks, and nothing else does. Scans (`oct_scan`),
//! edits of a tree (`oct_edit`), notes of changes (`oct_change`) and the map (`oct_map`) stand on
//! this crate. Their contracts cite `IsBrick`, `hit_voxels` and `freed_voxels`. Scans and edits
//! cite `AreAscending` too, scans and changes `codes_of` and `coded_voxel`, and scans `HasCode`,
//! `scanned_codes`, `hit_codes` and `octet_count`.

#![tactic(auto)]

mod brick;
mod merge;
mod octets;

pub use brick::Brick;
pub use merge::merge_bricks;
pub use octets::count_octets;
