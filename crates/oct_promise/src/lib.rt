//! The promise of a session, as laws: what the definitions of its answer come to.
//!
//! Three pages are to be read, and these laws say that they hold. They speak of bytes, files and
//! text as a caller of `serve` has them, and of the history, which has the accepted commands.
//!
//! - `specs/Promise.antt`, of scans, questions and files: [`scans_are_exact`],
//!   [`scans_are_counted`], [`values_are_folds`], [`gets_are_greatest`], [`casts_are_first`],
//!   [`lists_are_exact`], [`counts_are_exact`], [`changes_are_differences`],
//!   [`refusals_change_nothing`], [`faults_leave_a_prefix`], [`saves_write_files`],
//!   [`snapshots_are_restored`], [`saves_are_loaded`], [`loads_are_exact`],
//!   [`saves_are_canonical`], [`node_data_is_canonical`], [`prunes_are_least`],
//!   [`sessions_end_exactly`], [`quits_end_sessions`].
//! - `specs/Edits.antt`, of every other command, with `specs/Marks.antt`: [`edits_are_exact`],
//!   [`boxes_are_exact`], [`upkeep_changes_no_value`], [`maxlik_is_exact`], [`clears_are_exact`],
//!   [`limits_are_exact`], [`marks_are_exact`], [`marks_live`], [`maps_are_stale`];
//!   [`lines_add_their_own`] and [`histories_have_lines`] say which lines the history has.
//! - `specs/Regions.antt`, of one map that many sessions build, with `specs/RegionFiles.antt`:
//!   [`regions_hold_their_part`], [`merges_join_regions`], [`regions_join_to_one`],
//!   [`merges_are_answers`]; and with `specs/Shifts.antt` [`shifted_scans_are_shifted`].
//!
//! The others say what else sessions come to.
//!
//! - [`states_stay_sound`], [`groups_stay_within`]: between any two lines the log-odds in force
//!   make a model, each known value lies within the bounds, and the values need no more groups than
//!   the limit.
//! - [`blocks_have_one_reply`]: the block of a scan has one reply, and the first of its faults
//!   decides which; it is done as a whole or not at all, and leaves the files as they were
//!   (`specs/BlockReply.antt`).
//! - [`drills_sum_up`], [`drills_stay_within`]: what a drill tells of its replies are sums over
//!   them, below `2^64` (`specs/Sums.antt`); [`drills_end_as_sessions`]: its status is that of the
//!   session over its script.
//!
//! Nothing stands on this crate, so that the program's first start need not wait for it. It stands
//! on `oct_session` and `oct_file_tasks`, whose definitions it speaks of.
#![tactic(auto)]

mod laws;

pub use laws::{
    blocks_have_one_reply, boxes_are_exact, casts_are_first, changes_are_differences,
    clears_are_exact, counts_are_exact, drills_end_as_sessions, drills_stay_within, drills_sum_up,
    edits_are_exact, faults_leave_a_prefix, gets_are_greatest, groups_stay_within,
    histories_have_lines, limits_are_exact, lines_add_their_own, lists_are_exact, loads_are_exact,
    maps_are_stale, marks_are_exact, marks_live, maxlik_is_exact, merges_are_answers,
    merges_join_regions, node_data_is_canonical, prunes_are_least, quits_end_sessions,
    refusals_change_nothing, regions_hold_their_part, regions_join_to_one, saves_are_canonical,
    saves_are_loaded, saves_write_files, scans_are_counted, scans_are_exact, sessions_end_exactly,
    shifted_scans_are_shifted, snapshots_are_restored, states_stay_sound, upkeep_changes_no_value,
    values_are_folds,
};
