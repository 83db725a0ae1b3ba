//! What an occupancy map means, with no tree in it: a value for each voxel, what events make of it,
//! what a block answers, and how many groups and nodes a tree of these values needs at least.
//!
//! The definitions stand in `specs/`, just above voxels and blocks (`oct_key`) and the step of one
//! voxel (`oct_odds`):
//!
//! - `Events`: which voxels an edit touches and how. `event_at` is an event on one voxel,
//!   `scan_events` those of a scan, `after_event` the step of one value, and `updated` the step of
//!   all of them.
//! - `Blocks`: `voxels_of` lists the voxels that a block holds, and `blocks_above_voxels` the
//!   blocks of depth 0 to 15. Sums and counts go over these lists.
//! - `Depths`: `IsLargestIn` says what a block answers: the largest known value among its voxels,
//!   or none where each of them is unknown. `depth_value` computes it.
//! - `Uniform`: `IsUniform` says that all voxels of a block have one answer, whatever a voxel
//!   answers: a value, where unknown counts as one, or a class. `is_uniform_by` is the test, over a
//!   test for equal answers, and `uniform_answer` the one answer, if there is one.
//! - `Classes`: what each voxel counts as, and `class_of_block`, the class of a block of one class.
//! - `Counts`: `group_count` is the number of blocks of depth 0 to 15 that aren't uniform in value.
//!   `node_count` is 0 where all voxels are unknown, else one more than the children of these
//!   blocks that hold a known voxel.
//! - `Needs`: `IsReached` says that some voxel of a block has an event. `event_need` is the number
//!   of such blocks of depth 0 to 15: this many groups at most have to be made for the events.
//! - `Boxes`: `box_events` is one event on each voxel that lies between two corners (`IsInBox` of
//!   `oct_key`). `box_need` is the number of blocks of depth 0 to 15 that meet the box and don't
//!   lie in it: a block in the box takes one event as a whole.
//!
//! ```text
//! ensures { group_count (updated odds events values) ≤ group_count values + event_need events }
//! ```
//!
//! Its functions do nothing: their contracts are laws of these words.
//!
//! - Each voxel of a block and each block of depth 0 to 15 is listed once
//!   ([`voxels_are_listed_once`], [`blocks_are_listed_once`]).
//! - `is_uniform`, `is_known_in`, `is_reached`, `is_in_box`, `is_met_by` and `is_cut_by` say what
//!   they say in words of voxels ([`tests_tell_blocks`], [`tests_tell_boxes`]).
//! - Each block has one answer, and `depth_value` is it ([`blocks_have_one_answer`]).
//! - `group_count`, `node_count`, `depth_value` and `event_need` depend on the voxels of the map
//!   alone ([`answers_are_of_the_map`]).
//! - Events make no more groups needed than `event_need` and `box_need` say
//!   ([`events_make_few_groups`]).
//!
//! No law here ties `uniform_answer` and `is_listed` to other words; of `class_of_block` a law of
//! `oct_bt` does. Working words of the definitions above are `child_numbers`, `voxels_below`,
//! `blocks_below`, `larger`, `IsLargestKnown`, `is_uniform_by`, `is_same_value`, `is_same_class`,
//! `known_children`, `needed_nodes`, `met_on`, `within_on`, `met_at` and `cut_at`.
//!
//! Scans, the tree's edits and queries, the map, files and the session are held against these
//! words.
#![tactic(auto)]

mod laws;

pub use laws::{
    answers_are_of_the_map, blocks_are_listed_once, blocks_have_one_answer, events_make_few_groups,
    tests_tell_blocks, tests_tell_boxes, voxels_are_listed_once,
};
