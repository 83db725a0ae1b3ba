//! The laws. Each computes nothing, and its clause is a theorem: those of the pages
//! `specs/Promise.antt`, `specs/Edits.antt` and `specs/Regions.antt` first, one sentence each, and
//! then what else sessions come to.
ghost use Rattle.std.specs.Prelude.{◌≡◌, ◌≤◌, ◌^◌, ◌↔◌, ◌∷◌, ◌++◌, ℕ, List, [], length, Bool};
ghost use Rattle.std.specs.Prelude.{Option, Some, None, IfSome, Result, Ok, true, ℤ};
ghost use Rattle.oct_arena.specs.Entries.{live};
ghost use Rattle.oct_bt.specs.Canonical.{canonical_data};
ghost use Rattle.oct_bt.specs.DataClasses.{data_classes};
ghost use Rattle.oct_bt.specs.File.{FileRead, reading};
ghost use Rattle.oct_bt.specs.NodeData.{IsDataOf};
ghost use Rattle.oct_file_tasks.specs.OverStore.{store_reply};
ghost use Rattle.oct_file_tasks.specs.declared.store_task.PairTask.TheVariants.{Merge};
ghost use Rattle.oct_file_tasks.specs.declared.store_task.StoreTask.{StoreTask};
ghost use Rattle.oct_io.specs.Files.{Files};
ghost use Rattle.oct_io.specs.Taken.{IsBegun};
ghost use Rattle.oct_io.specs.declared.status.Status.TheVariants.{Done, TooLong};
ghost use Rattle.oct_io.specs.declared.status.Status.TheVariants.{Refused as EndedRefused};
ghost use Rattle.oct_io.specs.declared.status.Status.{Status};
ghost use Rattle.oct_join.specs.Merged.{merged_classes};
ghost use Rattle.oct_key.specs.Boxes.{Window};
ghost use Rattle.oct_key.specs.Values.{Values, SameValues};
ghost use Rattle.oct_key.specs.Voxel.{Voxel, IsInMap, IsResolution};
ghost use Rattle.oct_key.specs.declared.point.Point.{Point};
ghost use Rattle.oct_map.specs.Map.{Map};
ghost use Rattle.oct_map.specs.Merges.{merged_values};
ghost use Rattle.oct_merge.specs.declared.rule.Rule.{Rule};
ghost use Rattle.oct_promise.specs.BlockReply.{IsBlock, RepliesOnce};
ghost use Rattle.oct_promise.specs.Called.{AddsOwn, Adds};
ghost use Rattle.oct_promise.specs.Edits.{IsEdited, IsBoxEdited, IsRefreshed, IsPruned, IsSurest};
ghost use Rattle.oct_promise.specs.Edits.{IsCleared, IsLimitedTo, IsUnlimited, IsMarked};
ghost use Rattle.oct_promise.specs.Edits.{IsUnmarked};
ghost use Rattle.oct_promise.specs.Endings.{IsOverlong, HasRefusal, EndsBehind};
ghost use Rattle.oct_promise.specs.GivenBack.{AreSaveAndLoad, LoadsBack, WritesFile, LoadsFile};
ghost use Rattle.oct_promise.specs.GivenBack.{RestoresFile};
ghost use Rattle.oct_promise.specs.GivenBack.{TwoLines, AreSnapshotAndRestore, GivesBack};
ghost use Rattle.oct_promise.specs.Lines.{IsLine, Replies, state_behind, classes_in, WhereDone};
ghost use Rattle.oct_promise.specs.Lines.{Always};
ghost use Rattle.oct_promise.specs.Listed.{ListsBlocks, CountsNeeded, IsQuestion};
ghost use Rattle.oct_promise.specs.Marks.{IsLeftStale, IsMarkedBehind};
ghost use Rattle.oct_promise.specs.Promise.{IsScanDone, GetsGreatest, CastsFirst, TellsChanges};
ghost use Rattle.oct_promise.specs.Promise.{NeedsMark, NeedsRefresh};
ghost use Rattle.oct_promise.specs.RegionFiles.{merge_of, Plan, Merged, boxes_of, file_of, IsPlan};
ghost use Rattle.oct_promise.specs.RegionFiles.{values_in, AreBuilt, IsJoined};
ghost use Rattle.oct_promise.specs.Regions.{classes_within, values_within, Cover, CoverValues};
ghost use Rattle.oct_promise.specs.Regions.{IsRegion, HoldsPart};
ghost use Rattle.oct_promise.specs.ScanCounts.{AreHit, AreFreed};
ghost use Rattle.oct_promise.specs.States.{IsSetUp, IsState};
ghost use Rattle.oct_promise.specs.Sums.{IsSummed, IsBelow, IsDrill, drill_replies, drill_session};
ghost use Rattle.oct_promise.specs.Shifts.{LiesOff, scan_moved, IsMoved};
ghost use Rattle.oct_query.specs.Shown.{Shown};
ghost use Rattle.oct_scan.specs.Beam.{Sighting};
ghost use Rattle.oct_scan.specs.Answer.{IsInside};
ghost use Rattle.oct_scan.specs.Scanned.{IsHit, IsFreed};
ghost use Rattle.oct_script.specs.Lines.{Line};
ghost use Rattle.oct_script.specs.declared.command.Command.TheVariants as command;
ghost use Rattle.oct_script.specs.declared.command.Command.TheVariants.{End, Get, Cast, Changes};
ghost use Rattle.oct_script.specs.declared.command.Command.TheVariants.{Save, Snapshot};
ghost use Rattle.oct_script.specs.declared.command.Command.{Command};
ghost use Rattle.oct_script.specs.declared.command.Edit.{Edit};
ghost use Rattle.oct_script.specs.declared.reply.Refusal.{Refusal};
ghost use Rattle.oct_script.specs.declared.reply.Reply.TheVariants as reply_of;
ghost use Rattle.oct_script.specs.declared.reply.Reply.TheVariants.{Scanned, Refused, Blocks};
ghost use Rattle.oct_script.specs.declared.reply.ScanDone.{ScanDone};
ghost use Rattle.oct_session.specs.Building.{build, last_state};
ghost use Rattle.oct_session.specs.Drill.{drilled, drill};
ghost use Rattle.oct_session.specs.Ending.{MayEnd};
ghost use Rattle.oct_session.specs.FileCommands.{classes_file, snapshot_file};
ghost use Rattle.oct_session.specs.History.{History, state_after, value_after, alone_after};
ghost use Rattle.oct_session.specs.History.{Likened, Replaced, Restored, Tracked, Untracked};
ghost use Rattle.oct_session.specs.History.{State, Edited, Scanned as ScannedBy, Refreshed};
ghost use Rattle.oct_session.specs.History.{Cleared, Boxed, Limited, Unlimited, Pruned};
ghost use Rattle.oct_session.specs.Leaving.{StandsFor};
ghost use Rattle.oct_session.specs.ScanSoFar.{ScanSoFar, sighting_so_far};
ghost use Rattle.oct_session.specs.Session.{Progress, progress, effect_of, session};
ghost use Rattle.oct_session.specs.Setup.{Setup, IsLimited};
ghost use Rattle.oct_session.specs.declared.scan_block.ScanBlock.TheVariants.{Scanning};
ghost use Rattle.oct_session.specs.declared.scan_block.ScanBlock.{ScanBlock};
ghost use Rattle.oct_snap.specs.Reading.{Snapshot as SnapshotRead};
ghost use Rattle.oct_tree.specs.Tree.{Tree, IsLinked, value_at};
ghost use Rattle.oct_values.specs.Classes.{Classes};
ghost use Rattle.oct_values.specs.Counts.{group_count};

use oct_io::Store;
use oct_session::Options;

/// What the type of the options keeps: a resolution and log-odds that make a model, and limits in
/// their ranges.
fn keep(options: &Options)
    ensures set_up { IsSetUp options.now }
    ensures limited { IsLimited options.now }
{
    options.res.nm();
}

// ---- the page

/// A scan that isn't refused hits each voxel of the box in which a beam ends that isn't cut, frees
/// each one that a beam passes through and that isn't hit, and no other.
pub fn scans_are_exact(options: &Options)
    ensures { (files : Option Files) (bytes : List ℕ) (before : List Line) (line : Line)
        (scan : ScanSoFar) (done : ScanDone)
        → IsLine options.now files bytes before line (Some (Scanning scan)) (Ok End)
        → (effect_of options.now (progress options.now files before) line).reply
        ≡ Some (Scanned done)
        → Replies options.now files bytes before (Scanned done)
        × IsScanDone (sighting_so_far scan) scan.head.lazy (state_behind options.now files before)
        (state_behind options.now files (before ++ line ∷ [])) }
{
    keep(options);
}

/// The reply to a scan tells how many voxels of the map it hits, and how many it frees.
pub fn scans_are_counted(options: &Options)
    ensures listed { (files : Option Files) (bytes : List ℕ) (before : List Line) (line : Line)
        (scan : ScanSoFar) (done : ScanDone)
        → IsLine options.now files bytes before line (Some (Scanning scan)) (Ok End)
        → (effect_of options.now (progress options.now files before) line).reply
        ≡ Some (Scanned done)
        → ((hits : List Voxel)
        × AreHit (state_behind options.now files before) (sighting_so_far scan) hits)
        × ((frees : List Voxel)
        × AreFreed (state_behind options.now files before) (sighting_so_far scan) frees) }
    ensures counted { (files : Option Files) (bytes : List ℕ) (before : List Line) (line : Line)
        (scan : ScanSoFar) (done : ScanDone) (hits frees : List Voxel)
        → IsLine options.now files bytes before line (Some (Scanning scan)) (Ok End)
        → (effect_of options.now (progress options.now files before) line).reply
        ≡ Some (Scanned done)
        → AreHit (state_behind options.now files before) (sighting_so_far scan) hits
        → AreFreed (state_behind options.now files before) (sighting_so_far scan) frees
        → (done.hits ≡ length hits) × (done.frees ≡ length frees) }
{
    keep(options);
}

/// A voxel's value is the fold of its own events, each clamped to the bounds, from unknown on, and
/// reads no other voxel's.
pub fn values_are_folds()
    ensures { (o : Setup) (history : History) (k : Voxel)
        → value_after o history k ≡ alone_after o history k }
{}

/// The history, of which this speaks, has the commands that were accepted, one after another. A
/// line adds to it nothing, or the action of its own command or of the scan whose block it ends,
/// and this only where its reply is no refusal.
pub fn lines_add_their_own()
    ensures { (o : Setup) (p : Progress) (line : Line) → AddsOwn o p line }
{}

/// And each command that may change a state adds its action where it isn't refused, so that the
/// history lacks none.
pub fn histories_have_lines()
    ensures edits { (o : Setup) (p : Point) (edit : Edit) (lazy : Bool)
        → Adds o None (command.Edit p edit lazy) reply_of.Ok (λ a. a ≡ Edited p edit lazy) }
    ensures scans { (o : Setup) (scan : ScanSoFar) (done : ScanDone)
        → Adds o (Some (Scanning scan)) command.End (reply_of.Scanned done)
        (λ a. a ≡ ScannedBy (sighting_so_far scan) scan.head.lazy) }
    ensures boxes { (o : Setup) (from to : Point) (edit : Edit)
        → Adds o None (command.Box from to edit) reply_of.Ok (λ a. a ≡ Boxed from to edit) }
    ensures limit { (o : Setup) (from to : Point)
        → Adds o None (command.Limit from to) reply_of.Ok (λ a. a ≡ Limited from to) }
    ensures nolimit { (o : Setup) → Adds o None command.NoLimit reply_of.Ok (λ a. a ≡ Unlimited) }
    ensures prune { (o : Setup) → Adds o None command.Prune reply_of.Ok (λ a. a ≡ Pruned) }
    ensures refresh { (o : Setup) → Adds o None command.Refresh reply_of.Ok (λ a. a ≡ Refreshed) }
    ensures maxlik { (o : Setup) → Adds o None command.MaxLik reply_of.Ok (λ a. a ≡ Likened) }
    ensures clear { (o : Setup) → Adds o None command.Clear reply_of.Ok (λ a. a ≡ Cleared) }
    ensures track { (o : Setup) → Adds o None command.Track reply_of.Ok (λ a. a ≡ Tracked) }
    ensures untrack { (o : Setup) → Adds o None command.Untrack reply_of.Ok (λ a. a ≡ Untracked) }
    ensures load { (o : Setup) (name : List ℕ) (nodes : ℕ)
        → Adds o None (command.Load name) (reply_of.Loaded nodes)
        (λ a. (classes : Classes) × (a ≡ Replaced classes)) }
    ensures restore { (o : Setup) (name : List ℕ) (groups : ℕ)
        → Adds o None (command.Restore name) (reply_of.Restored groups)
        (λ a. (q : SnapshotRead) × (a ≡ Restored q)) }
{}

/// `get` at a depth answers the greatest value among the known voxels of the block of that depth
/// that holds the point, or unknown where none is known. Above a voxel it is refused while the map
/// is stale, and answers otherwise.
pub fn gets_are_greatest(options: &Options)
    ensures answers { (files : Option Files) (bytes : List ℕ) (before : List Line) (line : Line)
        (p : Point) (depth : ℕ)
        → IsLine options.now files bytes before line None (Ok (command.Get p depth))
        → GetsGreatest options.now files bytes before p depth }
    ensures stale { (files : Option Files) (bytes : List ℕ) (before : List Line) (line : Line)
        (p : Point) (depth : ℕ)
        → IsLine options.now files bytes before line None (Ok (command.Get p depth))
        → NeedsRefresh options.now files bytes before p depth }
{
    keep(options);
}

/// `cast` answers the first voxel on its segment that stops it, with its class, or clear where none
/// does.
pub fn casts_are_first(options: &Options)
    ensures { (files : Option Files) (bytes : List ℕ) (before : List Line) (line : Line)
        (from to : Point) (ignore : Bool)
        → IsLine options.now files bytes before line None (Ok (Cast from to ignore))
        → CastsFirst options.now files bytes before from to ignore }
{
    keep(options);
}

/// `list` shows, where it isn't refused, exactly the blocks of its depth that meet its box and hold
/// a known voxel, each with the greatest value of one, by ascending x, then y, then z.
pub fn lists_are_exact(options: &Options)
    ensures { (files : Option Files) (bytes : List ℕ) (before : List Line) (line : Line)
        (from to : Point) (depth : ℕ) (list : List Shown) (threshold : ℤ)
        → IsLine options.now files bytes before line None (Ok (command.List from to depth))
        → (effect_of options.now (progress options.now files before) line).reply
        ≡ Some (Blocks list threshold)
        → ListsBlocks options.now files bytes before from to depth list threshold }
{
    keep(options);
}

/// `counts` answers with the number of blocks above a voxel that aren't of one value, the groups of
/// the least tree of these values, and with its nodes: these, and its leaves.
pub fn counts_are_exact()
    ensures { (o : Setup) (files : Option Files) (bytes : List ℕ) (before : List Line)
        (line : Line) → IsLine o files bytes before line None (Ok command.Counts)
        → CountsNeeded o files bytes before }
{}

/// What only asks leaves state and files as they were; `counts` prunes, and changes nothing else.
pub fn questions_change_nothing()
    ensures asked { (o : Setup) (files : Option Files) (bytes : List ℕ) (before : List Line)
        (line : Line) (question : Command) → IsQuestion question
        → IsLine o files bytes before line None (Ok question)
        → (state_behind o files (before ++ line ∷ []) ≡ state_behind o files before)
        × ((progress o files (before ++ line ∷ [])).files ≡ (progress o files before).files) }
    ensures counts { (o : Setup) (files : Option Files) (bytes : List ℕ) (before : List Line)
        (line : Line) → IsLine o files bytes before line None (Ok command.Counts)
        → IsPruned (state_behind o files before) (state_behind o files (before ++ line ∷ []))
        × ((progress o files (before ++ line ∷ [])).files ≡ (progress o files before).files) }
{}

/// `changes` answers how the classes of voxels differ from those at the mark, and is refused where
/// no mark stands.
pub fn changes_are_differences()
    ensures answers { (o : Setup) (files : Option Files) (bytes : List ℕ) (before : List Line)
        (line : Line) → IsLine o files bytes before line None (Ok command.Changes)
        → TellsChanges o files bytes before }
    ensures unmarked { (o : Setup) (files : Option Files) (bytes : List ℕ) (before : List Line)
        (line : Line) → IsLine o files bytes before line None (Ok command.Changes)
        → NeedsMark o files bytes before }
{}

/// A line that is refused, whatever it is, changes no voxel and no file.
pub fn refusals_change_nothing()
    ensures { (o : Setup) (files : Option Files) (bytes : List ℕ) (before : List Line)
        (line : Line) (block : Option ScanBlock) (command : Result Command Refusal)
        (refusal : Refusal) → IsLine o files bytes before line block command
        → (effect_of o (progress o files before) line).reply ≡ Some (Refused refusal)
        → Replies o files bytes before (Refused refusal)
        × (state_behind o files (before ++ line ∷ []) ≡ state_behind o files before)
        × ((progress o files (before ++ line ∷ [])).files ≡ (progress o files before).files) }
{}

/// However a session ends, what it has written is a prefix of its answer.
pub fn faults_leave_a_prefix()
    ensures { (o : Setup) (files : Option Files) (bytes : List ℕ)
        (left old new : Option (List ℕ)) (status : Status)
        → MayEnd o files bytes left old new status
        → IsBegun (session o files bytes).text old new }
{}

/// A save writes the file of the classes under its name, and a snapshot that of the values. Each
/// replies with the number of its bytes, and changes no other file and no voxel.
pub fn saves_write_files()
    ensures saves { (o : Setup) (files : Files) (bytes : List ℕ) (before : List Line)
        (line : Line) (name : List ℕ)
        → IsLine o (Some files) bytes before line None (Ok (Save name))
        → WritesFile o files bytes before line name
        (classes_file (state_behind o (Some files) before)) }
    ensures snapshots { (o : Setup) (files : Files) (bytes : List ℕ) (before : List Line)
        (line : Line) (name : List ℕ)
        → IsLine o (Some files) bytes before line None (Ok (Snapshot name))
        → WritesFile o files bytes before line name
        (snapshot_file (state_behind o (Some files) before)) }
{}

/// A restore gives back the values that the snapshot of its name kept, and isn't refused, whatever
/// stands between them that doesn't write that file.
pub fn snapshots_are_restored<F: Store>(options: &Options, store: &F)
    ensures { IfSome (F.files store.now) (λ files. (bytes name : List ℕ) (t : TwoLines)
        → AreSnapshotAndRestore options.now files bytes name t
        → GivesBack options.now files bytes t) }
{
    keep(options);
}

/// A load gives back the classes that the save of its name wrote, by the log-odds in force before
/// it, and isn't refused, whatever stands between them that doesn't write that file.
pub fn saves_are_loaded(options: &Options)
    ensures { (files : Files) (bytes name : List ℕ) (t : TwoLines)
        → AreSaveAndLoad options.now files bytes name t
        → LoadsBack options.now files bytes t }
{
    keep(options);
}

/// A load that isn't refused, of whatever file, leaves the voxels the classes that the file is read
/// as, and tells the number of its nodes.
pub fn loads_are_exact(options: &Options)
    ensures { (files : Option Files) (bytes : List ℕ) (before : List Line) (line : Line)
        (name : List ℕ) (nodes : ℕ)
        → IsLine options.now files bytes before line None (Ok (command.Load name))
        → (effect_of options.now (progress options.now files before) line).reply
        ≡ Some (reply_of.Loaded nodes)
        → LoadsFile options.now files before line name nodes }
{
    keep(options);
}

/// A restore that isn't refused, of whatever file, leaves the voxels the values that the snapshot
/// is read as, with its log-odds and its box of scans, where it has them, and tells how many groups
/// they need.
pub fn restores_are_exact(options: &Options)
    ensures { (files : Option Files) (bytes : List ℕ) (before : List Line) (line : Line)
        (name : List ℕ) (groups : ℕ)
        → IsLine options.now files bytes before line None (Ok (command.Restore name))
        → (effect_of options.now (progress options.now files before) line).reply
        ≡ Some (reply_of.Restored groups)
        → RestoresFile options.now files before line name groups }
{
    keep(options);
}

/// Saves write equal files exactly where the classes are equal, and no file that is read as these
/// classes has less node data.
pub fn saves_are_canonical(options: &Options)
    ensures equal { (files more : Option Files) (lines others : List Line)
        → (classes_file (state_behind options.now files lines)
        ≡ classes_file (state_behind options.now more others))
        ↔ ((k : Voxel) → IsInMap k → classes_in (state_behind options.now files lines) k
        ≡ classes_in (state_behind options.now more others) k) }
    ensures least { (files : Option Files) (lines : List Line) (file : List ℕ)
        (saved read : FileRead)
        → reading (classes_file (state_behind options.now files lines)) ≡ Ok saved
        → reading file ≡ Ok read
        → ((k : Voxel) → IsInMap k
        → data_classes read.codes k ≡ classes_in (state_behind options.now files lines) k)
        → length saved.codes ≤ length read.codes }
{
    keep(options);
}

/// A save writes the canonical node data of its classes. For any two maps it is equal exactly where
/// the classes are, and of all node data that stands for the same classes none is shorter, and none
/// that is as short is another one.
pub fn node_data_is_canonical(options: &Options)
    ensures saved { (files : Option Files) (lines : List Line) (saved : FileRead)
        → reading (classes_file (state_behind options.now files lines)) ≡ Ok saved
        → saved.codes ≡ canonical_data (classes_in (state_behind options.now files lines)) }
    ensures equal { (c e : Classes)
        → (canonical_data c ≡ canonical_data e) ↔ ((k : Voxel) → IsInMap k → c k ≡ e k) }
    ensures least { (c : Classes) (bytes : List ℕ) → IsDataOf c bytes
        → length (canonical_data c) ≤ length bytes }
    ensures only { (c : Classes) (bytes : List ℕ) → IsDataOf c bytes
        → length bytes ≡ length (canonical_data c) → bytes ≡ canonical_data c }
{
    keep(options);
}

/// Where a session has pruned its map and no lazy edit stands behind that, the map has a group for
/// each block that isn't of one value, and no tree of the same values has fewer groups.
pub fn prunes_are_least()
    ensures { (map : Map) (s : State) (other : Tree) → StandsFor map s → s.is_pruned ≡ true
        → IsLinked map.tree → IsLinked other → SameValues s.values (value_at other)
        → (live map.tree.groups ≡ group_count s.values)
        × (live map.tree.groups ≤ live other.groups) }
{}

/// A session whose script is read to its end ends with status 1 exactly where some reply is a
/// refusal, and else with 0; and as too long exactly where the script has more bytes than it may
/// have, and no `quit` ends within these.
pub fn sessions_end_exactly()
    ensures too_long { (o : Setup) (files : Option Files) (bytes : List ℕ)
        → ((session o files bytes).status ≡ TooLong) ↔ IsOverlong o files bytes }
    ensures refused { (o : Setup) (files : Option Files) (bytes : List ℕ)
        → ((session o files bytes).status ≡ EndedRefused)
        ↔ ((¬ IsOverlong o files bytes) × HasRefusal o files bytes) }
    ensures done { (o : Setup) (files : Option Files) (bytes : List ℕ)
        → ((session o files bytes).status ≡ Done)
        ↔ ((¬ IsOverlong o files bytes) × (¬ HasRefusal o files bytes)) }
{}

/// A `quit` ends the session: it has no reply, and no line behind it has an effect.
pub fn quits_end_sessions()
    ensures { (o : Setup) (files : Option Files) (bytes : List ℕ) (before : List Line)
        (line : Line) → IsLine o files bytes before line None (Ok command.Quit)
        → EndsBehind o files bytes before }
{}

// ---- the page of edits

/// An edit of a point that isn't refused, lazy or not, changes the voxel that holds the point as
/// its word says, by the log-odds in force, and nothing else.
pub fn edits_are_exact(options: &Options)
    ensures { (p : Point) (edit : Edit) (lazy : Bool)
        → WhereDone options.now (command.Edit p edit lazy) (IsEdited p edit lazy) }
{
    keep(options);
}

/// An edit of a box that isn't refused changes so each voxel of the box, and nothing else.
pub fn boxes_are_exact(options: &Options)
    ensures { (from to : Point) (edit : Edit)
        → WhereDone options.now (command.Box from to edit) (IsBoxEdited from to edit) }
{
    keep(options);
}

/// `refresh` and `prune` change no value, no mark and no box.
pub fn upkeep_changes_no_value()
    ensures refresh { (o : Setup) → Always o command.Refresh IsRefreshed }
    ensures prune { (o : Setup) → Always o command.Prune IsPruned }
{}

/// `maxlik` leaves each voxel its class, with the value that is surest of it.
pub fn maxlik_is_exact()
    ensures { (o : Setup) → Always o command.MaxLik IsSurest }
{}

/// `clear` leaves each voxel unknown and no mark, and keeps log-odds, limits and the box of scans.
pub fn clears_are_exact()
    ensures { (o : Setup) → Always o command.Clear IsCleared }
{}

/// `limit` and `nolimit` change the box of scans, and nothing else.
pub fn limits_are_exact(options: &Options)
    ensures limits { (from to : Point)
        → WhereDone options.now (command.Limit from to) (IsLimitedTo from to) }
    ensures ends { Always options.now command.NoLimit IsUnlimited }
{
    keep(options);
}

/// `track` marks the classes that are there, `untrack` takes the mark away, and neither changes
/// anything else.
pub fn marks_are_exact()
    ensures track { (o : Setup) → Always o command.Track IsMarked }
    ensures untrack { (o : Setup) → Always o command.Untrack IsUnmarked }
{}

/// A mark stands behind some lines exactly where one of them is a `track` behind which there is no
/// other one, no `untrack`, and no clear, load or restore that wasn't refused. It has the classes
/// that were there at that `track`.
pub fn marks_live()
    ensures { (o : Setup) (files : Option Files) (lines : List Line) (c : Classes)
        → ((state_behind o files lines).marked ≡ Some c)
        ↔ ((before : List Line) × IsMarkedBehind o files lines before
        × (c ≡ classes_in (state_behind o files before))) }
{}

/// A map is stale behind some lines exactly where one of them is a lazy edit or the end of a lazy
/// scan that wasn't refused, behind which there is no refresh, `maxlik`, clear, load or restore
/// that wasn't.
pub fn maps_are_stale()
    ensures { (o : Setup) (files : Option Files) (lines : List Line)
        → ((state_behind o files lines).is_stale ≡ true) ↔ IsLeftStale o files lines }
{}

// ---- the page of regions

/// A session whose scans are limited to a box has within it the values of the session over the same
/// lines without that limit, and knows nothing outside, where neither map is ever full.
pub fn regions_hold_their_part()
    ensures { (o : Setup) (files more : Option Files) (box : Window) (limit : Line)
        (lines : List Line) → IsRegion o files more box limit lines
        → HoldsPart box (state_behind o files lines) (state_behind o more (limit ∷ lines)) }
{}

/// What is merged, by any rule, of the classes within some boxes and within others are the classes
/// within all of them; and boxes that leave out no known voxel have all classes. The same holds of
/// values, as two maps are merged (`OccMap::merge`).
pub fn merges_join_regions()
    ensures joined { (rule : Rule) (boxes others : List Window) (classes : Classes) (k : Voxel)
        → merged_classes rule (classes_within boxes classes) (classes_within others classes) k
        ≡ classes_within (boxes ++ others) classes k }
    ensures whole { (boxes : List Window) (classes : Classes) → Cover boxes classes
        → (k : Voxel) → IsInMap k → classes_within boxes classes k ≡ classes k }
    ensures values_joined { (rule : Rule) (boxes others : List Window) (values : Values)
        (k : Voxel)
        → merged_values rule (values_within boxes values) (values_within others values) k
        ≡ values_within (boxes ++ others) values k }
    ensures values_whole { (boxes : List Window) (values : Values) → CoverValues boxes values
        → (k : Voxel) → IsInMap k → values_within boxes values k ≡ values k }
{}

/// Whatever the regions, their number, and the order and the rules of the merges: no merge is
/// refused, and where the boxes leave out no voxel that one build of the script knows, what comes
/// out is byte for byte the file that it writes.
pub fn regions_join_to_one(options: &Options)
    ensures done { (files : Option Files) (bytes : List ℕ) (rule : Rule) (first second : Plan)
        → IsPlan options.now files bytes (Merged rule first second)
        → (merge_of rule (file_of options.now bytes first)
        (file_of options.now bytes second)).status ≡ Done }
    ensures joined { (files : Option Files) (bytes : List ℕ) (plan : Plan)
        → IsPlan options.now files bytes plan
        → Cover (boxes_of plan) (classes_in (last_state options.now files bytes))
        → file_of options.now bytes plan ≡ (build options.now files bytes).text }
{
    keep(options);
}

/// Whatever the regions, and the order and the rules of the merges: where the boxes leave out no
/// voxel that one session knows, the maps of regions are merged to its values. So the snapshot of a
/// map that has these, with the log-odds and the box of scans of that session, is its own snapshot,
/// byte for byte. (What is merged has the box of the first region, until a `nolimit`.)
pub fn maps_join_to_one<F: Store>(options: &Options, store: &F)
    ensures values { (bytes : List ℕ) (plan : Plan)
        → AreBuilt options.now (F.files store.now) bytes plan
        → CoverValues (boxes_of plan) (last_state options.now (F.files store.now) bytes).values
        → SameValues (values_in options.now bytes plan)
        (last_state options.now (F.files store.now) bytes).values }
    ensures snapshots { (bytes : List ℕ) (plan : Plan)
        → AreBuilt options.now (F.files store.now) bytes plan
        → CoverValues (boxes_of plan) (last_state options.now (F.files store.now) bytes).values
        → (map : State) → IsJoined options.now (F.files store.now) bytes plan map
        → snapshot_file map ≡ snapshot_file (last_state options.now (F.files store.now) bytes) }
{
    keep(options);
}

/// What these speak of, the merge of two files, is what the task `merge` answers where the store
/// has them.
pub fn merges_are_answers()
    ensures { (rule : Rule) (task : StoreTask) (files : Files) (first second : List ℕ)
        → task.asks ≡ Merge rule → files task.first ≡ Some first → files task.second ≡ Some second
        → store_reply task files ≡ merge_of rule first second }
{}

/// A scan of a sensor that stands whole voxels elsewhere hits and frees the voxels that lie so far
/// from those of the scan. So of two maps that are one world, whole voxels apart, such scans make
/// two that are so again.
pub fn shifted_scans_are_shifted()
    ensures voxels { (edge : ℕ) (way : Point) (scan : Sighting) (k l : Voxel)
        → IsResolution edge → IsInMap k → IsInMap l → LiesOff edge way k l
        → (IsHit edge (scan_moved way scan) l ↔ IsHit edge scan k)
        × (IsFreed edge (scan_moved way scan) l ↔ IsFreed edge scan k) }
    ensures maps { (way : Point) (scan : Sighting) (lazy : Bool) (s t u v : State)
        → IsResolution s.base.res → IsInside s.base.res scan → s.base.update_box ≡ None
        → t.base ≡ s.base → IsScanDone scan lazy s u → IsScanDone (scan_moved way scan) lazy t v
        → IsMoved s.base.res way s.values t.values → IsMoved s.base.res way u.values v.values }
{}

// ---- what else sessions come to

/// Between any two lines of a session over the files of a store, its log-odds make a model, the box
/// to which scans are restricted lies in the map, and each known value lies within the bounds.
pub fn states_stay_sound<F: Store>(options: &Options, store: &F)
    ensures { (lines : List Line)
        → IsState (state_after options.now
        (progress options.now (F.files store.now) lines).history) }
{
    keep(options);
}

/// The groups that the values of a session need are never more than its limit.
pub fn groups_stay_within()
    ensures { (o : Setup) (files : Option Files) (lines : List Line)
        → group_count (value_after o (progress o files lines).history) ≤ o.max_groups }
{}

/// The block of a scan has one reply. It is the fault of its first line, where that has one, else
/// the first fault of a line inside, in their order, of which one is a point too many; else that
/// the quaternion is 0, and else what the map answers to the scan of all its points. Where it isn't
/// a refusal that scan is done, and else nothing. The files stay as they were.
pub fn blocks_have_one_reply()
    ensures { (o : Setup) (p : Progress) (head : Line) (inside : List Line) (last : Line)
        → IsBlock p head inside last → RepliesOnce o p head inside last }
{}

/// What a drill tells of its replies are plain sums over them: how many were refused, how many
/// voxels the scans hit, and how many they freed.
pub fn drills_sum_up()
    ensures { (seed scans points : ℕ)
        → IsSummed (drilled seed scans points).tally (drill_replies seed scans points) }
{}

/// A drill ends with the status of the session over its script: refused where a reply is a refusal,
/// and else done.
pub fn drills_end_as_sessions()
    ensures { (seed scans points : ℕ) → IsDrill seed scans points
        → (drill seed scans points).status ≡ (drill_session seed scans points).status }
{}

/// The sums that a drill tells of are below `2^64`, so that none is cut off.
pub fn drills_stay_within()
    ensures { (seed scans points : ℕ) → IsDrill seed scans points
        → IsBelow (2 ^ 64) (drilled seed scans points).tally }
{}
