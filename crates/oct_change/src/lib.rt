//! Change sets: which voxels of a map count as something else than they did at a mark.
//!
//! A planner that follows a map wants to hear what has changed in it, and not to look through all
//! of it again. So whoever edits the map notes, before each edit, the class of every voxel that the
//! edit may change, and later asks for the changes: the voxels that were unknown and aren't, that
//! are unknown and weren't, and that turned from free to occupied or back. Voxels that became
//! unknown are reported too; that is this project's own choice, and the OctoMap library leaves them
//! out.
//!
//! ```text
//! let mut changes = Changes::new(alloc);
//! changes.reserve(1)?;               // the one call that can fail, before the edit
//! changes.note_class(&tree, key);
//! touch(&mut tree, key, Event::Add(850), false);
//! for change in changes.report(&tree)?.as_slice() { .. }
//! ```
//!
//! What the contracts promise:
//!
//! - [`Changes`] is seen as a list of notes, each a voxel and the class that it had, and as the
//!   number of notes that it has room for. [`Changes::note`] adds one at the end and can't fail,
//!   and [`Changes::mark`] drops all. [`Changes::reserve`] makes room, and all notes stay.
//!   [`Changes::compact`] makes room too, but where there is none, only each voxel's first note
//!   stays, in room for at least as many again (`IsCompacted`). So room is bounded by the voxels
//!   that were noted, each counted once, however often they are noted.
//! - [`Changes::copy`] answers other notes with the same value: the same list, in as much room.
//! - The first note of a voxel since the mark counts. So the classes at the mark (`marked_by`) are
//!   those of the first notes, and the classes now where nothing was noted. The lemma `mark_kept`
//!   says that an edit doesn't change them, if each voxel that changes its class was noted before.
//! - [`Changes::report`] gives exactly the voxels whose class now differs from that at the mark,
//!   each with its [`Kind`], by ascending x, y and z. The clause is the one list
//!   `changes_between`, a function of the classes then and now, and beside it `AreChanges`, which
//!   asks each voxel by itself. That the two agree is a law for all classes
//!   ([`changes_are_right`]).
//! - [`Changes::note_class`], [`Changes::note_bricks`] and [`Changes::note_box`] note exactly the
//!   voxels of an edit, of a scan and of a box, each with its class in the tree (`HasNoted`).
//!
//! A report puts the notes into an ordered map of std, so that it costs what n notes cost to sort,
//! however large the map is. A note takes eight bytes, and stays until the next mark or, where its
//! voxel was noted before, until the notes are compacted.
//!
//! The map stands on this crate, and the replies of a script print its [`Change`]s.
#![tactic(auto)]

mod changes;
mod kind;
mod laws;
mod voxels;

pub use changes::{Changes, Note};
pub use kind::{Change, ChangeList, Kind};
pub use laws::changes_are_right;
