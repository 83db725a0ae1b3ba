//! Values and their snapshots determine each other, and refusals have one cause each.
ghost use Rattle.std.specs.Prelude.{◌≡◌, ◌+◌, ◌<◌, ◌++◌, ◌↔◌, ℕ, ◌⊎◌, List, Option, None, IfSome};
ghost use Rattle.std.specs.Prelude.{length, drop, Result, Ok, Err};
ghost use Rattle.std.specs.List.{All};
ghost use Rattle.oct_odds.specs.Odds.{Odds, IsSound};
ghost use Rattle.oct_odds.specs.Update.{IsWithin};
ghost use Rattle.oct_key.specs.Boxes.{Window, IsBox};
ghost use Rattle.oct_key.specs.Voxel.{Voxel, IsInMap, IsResolution};
ghost use Rattle.oct_key.specs.Values.{Values, SameValues};
ghost use Rattle.oct_snap.specs.Nodes.{Nodes, AreNodes, text_of, value_in, group_total};
ghost use Rattle.oct_snap.specs.Texts.{map_text, snap_text, old_text};
ghost use Rattle.oct_values.specs.Counts.{group_count};
ghost use Rattle.oct_snap.specs.Reading.{Found, Snapshot, found, read_node, read_snapshot};
ghost use Rattle.oct_snap.specs.Reading.{values_of, Fields, read_fields};
ghost use Rattle.oct_snap.specs.declared.fault.SnapFault.{SnapFault};
ghost use Rattle.oct_snap.specs.declared.fault.SnapFault.TheVariants.{Truncated, BadSnapshot};
ghost use Rattle.oct_snap.specs.Sound.{IsSoundSnapshot};
ghost use Rattle.oct_snap.specs.Refusals.{IsCutShort, IsFirstWrong, IsNodeAnswer, IsMapAnswer};

/// What is read as a node is exactly the text of one, with what stands after it.
pub fn nodes_are_read_exactly()
    ensures { (o : Odds) (depths at : ℕ) (nodes : Nodes) (bytes rest : List ℕ) → IsSound o
        → All (λ b. b < 256) bytes
        → (read_node o depths at bytes ≡ Ok (found nodes (at + length (text_of nodes)) rest))
        ↔ (AreNodes o depths 1 nodes × (bytes ≡ text_of nodes ++ rest)) }
{}

/// What is read as the node of the map is the text of the values that it gives the voxels.
pub fn maps_are_read_exactly()
    ensures { (o : Odds) (at : ℕ) (bytes : List ℕ) (f : Found) (values : Values)
        → All (λ b. b < 256) bytes → read_node o 16 at bytes ≡ Ok f
        → ((k : Voxel) → IsInMap k → value_in 0 f.nodes 0 k ≡ values k)
        → bytes ≡ map_text values ++ f.rest }
{}

/// Every map of values within the bounds has nodes, which give the voxels these values, and whose
/// text is read back.
pub fn values_have_nodes()
    ensures { (o : Odds) (values : Values) → IsSound o
        → ((k : Voxel) → IsInMap k → IsWithin o (values k))
        → (nodes : Nodes) × ((k : Voxel) → IsInMap k → value_in 0 nodes 0 k ≡ values k)
        × ((at : ℕ) (rest : List ℕ) → read_node o 16 at (map_text values ++ rest)
        ≡ Ok (found nodes (at + length (map_text values)) rest)) }
{}

/// An accepted snapshot has as many groups as the values that it gives the voxels need.
pub fn groups_are_needed()
    ensures { (o : Odds) (bytes : List ℕ) (s : Snapshot) → read_snapshot o bytes ≡ Ok s
        → group_total s.nodes ≡ group_count (values_of s) }
{}

/// The text of every map of values within the bounds of its log-odds is accepted, and says what it
/// is the text of; the older form is, where they are within the bounds that it is read with.
pub fn texts_are_accepted()
    ensures current { (o : Odds) (res : ℕ) (odds : Odds) (window : Option Window) (values : Values)
        → IsResolution res → IsSound odds
        → IfSome window (λ w. IsInMap w.lo × IsInMap w.hi × IsBox w.lo w.hi)
        → ((k : Voxel) → IsInMap k → IsWithin odds (values k))
        → (s : Snapshot) × (read_snapshot o (snap_text res odds window values) ≡ Ok s)
        × (s.head.res ≡ res) × (s.head.version ≡ 2) × (s.head.odds ≡ odds)
        × (s.head.window ≡ window) × SameValues (values_of s) values }
    ensures old { (o : Odds) (res : ℕ) (values : Values) → IsResolution res → IsSound o
        → ((k : Voxel) → IsInMap k → IsWithin o (values k))
        → (s : Snapshot) × (read_snapshot o (old_text res values) ≡ Ok s)
        × (s.head.res ≡ res) × (s.head.version ≡ 1) × SameValues (values_of s) values }
{}

/// A snapshot that is accepted is accepted with the log-odds that it goes by, and says the same. In
/// version 1 these are those that it is read with, and there is no box.
pub fn snapshots_are_read_again()
    ensures same { (o : Odds) (bytes : List ℕ) (s : Snapshot) → read_snapshot o bytes ≡ Ok s
        → read_snapshot s.head.odds bytes ≡ Ok s }
    ensures versions { (o : Odds) (bytes : List ℕ) (s : Snapshot) → read_snapshot o bytes ≡ Ok s
        → ((s.head.version ≡ 1) × (s.head.odds ≡ o) × (s.head.window ≡ None))
        ⊎ (s.head.version ≡ 2) }
{}

/// What is accepted is the text of its fields and of the values that it gives the voxels: no values
/// at one resolution, with one model and one box, have two accepted texts of one version.
pub fn texts_are_the_only_ones()
    ensures texts { (o : Odds) (bytes : List ℕ) (s : Snapshot) (values : Values)
        → All (λ b. b < 256) bytes → read_snapshot o bytes ≡ Ok s
        → SameValues (values_of s) values
        → ((s.head.version ≡ 1) × (bytes ≡ old_text s.head.res values))
        ⊎ ((s.head.version ≡ 2)
        × (bytes ≡ snap_text s.head.res s.head.odds s.head.window values)) }
    ensures sound { (o : Odds) (bytes : List ℕ) (s : Snapshot) → IsSound o
        → All (λ b. b < 256) bytes → read_snapshot o bytes ≡ Ok s → IsSoundSnapshot s }
{}

/// Each refusal of a node comes exactly where the bytes have its cause, and each text has exactly
/// one answer: a node stands at its front, or it is refused for one of these.
pub fn node_refusals_are_exact()
    ensures exact { (o : Odds) (depths at : ℕ) (bytes : List ℕ) (answer : Result Found SnapFault)
        → IsSound o → All (λ b. b < 256) bytes
        → read_node o depths at bytes ≡ answer ↔ IsNodeAnswer o depths at bytes answer }
    ensures truncated { (o : Odds) (depths at place : ℕ) (bytes : List ℕ)
        → IsSound o → All (λ b. b < 256) bytes
        → read_node o depths at bytes ≡ Err (Truncated place)
        ↔ IsCutShort o depths at bytes place }
    ensures bad { (o : Odds) (depths at place : ℕ) (bytes : List ℕ)
        → IsSound o → All (λ b. b < 256) bytes
        → read_node o depths at bytes ≡ Err (BadSnapshot place)
        ↔ IsFirstWrong o depths at bytes place }
    ensures fronts { (o : Odds) (depths at : ℕ) (nodes : Nodes) (front more : List ℕ)
        → IsSound o → All (λ b. b < 256) front → AreNodes o depths 1 nodes
        → text_of nodes ≡ front ++ more → 0 < length more
        → read_node o depths at front ≡ Err (Truncated (at + length front)) }
{}

/// A snapshot is refused for its fields, or else exactly where the bytes after them have a cause:
/// they end before the node of the map is whole, some node can't stand where it stands, or bytes
/// follow the node of the map.
pub fn snapshot_refusals_are_exact()
    ensures fields { (o : Odds) (file : List ℕ) (fault : SnapFault)
        → read_fields o file ≡ Err fault → read_snapshot o file ≡ Err fault }
    ensures nodes { (o : Odds) (file : List ℕ) (head : Fields) (answer : Result Snapshot SnapFault)
        → IsSound o → All (λ b. b < 256) file → read_fields o file ≡ Ok head
        → read_snapshot o file ≡ answer ↔ IsMapAnswer head (drop head.start file) answer }
{}
