//! Two maps side by side: one is merged into the other, and their classes are compared.
//!
//! ```text
//! let need = merge_need(&into, &other);
//! into.reserve(need)?;
//! merge(&mut into, &other, Rule::Greatest);
//! let table = class_table(&into, &other, lo, hi);
//! ```
//!
//! What the contracts promise of two well-formed trees:
//!
//! - [`merge`] gives each voxel the value `merged` of its two: unknown where it is unknown in both,
//!   the known one where it is known in one, and where it is known in both the one that the
//!   [`Rule`] takes. Whatever the rule, known beats unknown. The other tree stays.
//! - A merge is an eager edit of `oct_edit` whose event at each voxel is given by the other tree:
//!   the voxels that it knows are set to the merged value (`merge_events`). So it promises what
//!   each such edit does (`IsEdited`, `IsEagerEdit`): a well-formed tree stays well-formed, a fresh
//!   one fresh, and a pruned one pruned; what the other tree doesn't know stays as it is, group by
//!   group; and the path to each voxel that it knows is tidy.
//! - [`merge_need`] is the number of live groups of the other tree whose home is the home of no
//!   live group of the first. With room for this many a merge can't fail, and it takes no more.
//! - [`class_table`] has for each two classes the number of voxels of a box that have the one in
//!   the first map and the other in the second (`pair_counts`). The nine numbers add up to the
//!   voxels of the box.
//!
//! All three walk from the root down, block by block, with the node over the block in each tree.
//! Where one tree has a leaf and the other a group, the leaf stands for each child. `merge` passes
//! over what is absent in the other tree, and over a leaf that the rule keeps, writes a leaf where
//! neither tree has a group, and closes each group on the way up, once. Where the place is absent,
//! and the other tree is known to be fresh and pruned, what that one has there is copied with the
//! values over it, and no group has to be closed. `merge_need` visits only
//! the groups whose home both trees have, and takes these from all of the other tree. `class_table`
//! counts a block at once where neither tree has a group, by the lengths that its axes have in
//! common with the box. None takes memory, and how deep they call themselves is bounded by the
//! depth of the trees.
//!
//! The map of `oct_map` merges by these calls. The tasks `merge` and `table` of the program make no
//! trees: they go over two files, by `oct_join`. That crate stands on this one for the rules, and
//! counts in the same table: [`ClassTable::add`] counts voxels at one of its places, and
//! [`shared_across`] tells how many a block and a box have in common on an axis.
#![tactic(auto)]

mod merging;
mod need;
mod rule;
mod table;
mod walk;

pub use merging::merge;
pub use need::merge_need;
pub use rule::Rule;
pub use table::{ClassTable, class_table, shared_across};
