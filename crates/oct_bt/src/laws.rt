//! Node data and the classes of voxels determine each other, and refusals have one cause each.
ghost use Rattle.std.specs.Prelude.{◌≡◌, ◌≤◌, ◌<◌, ◌++◌, ◌↔◌, ℕ, List, length, take, Ok, Err, Some};
ghost use Rattle.std.specs.Prelude.{◌+◌, ◌⊎◌, Result, drop, true};
ghost use Rattle.std.specs.List.{All};
ghost use Rattle.oct_key.specs.Voxel.{Voxel, IsInMap, IsResolution};
ghost use Rattle.oct_key.specs.Block.{Cube, IsBlock, HoldsVoxel};
ghost use Rattle.oct_odds.specs.declared.event.Class.{Class};
ghost use Rattle.oct_values.specs.Classes.{Classes, class_of_block};
ghost use Rattle.oct_bt.specs.Records.{Entries, IsRecord, flat};
ghost use Rattle.oct_bt.specs.Canonical.{canonical_data, canonical_size};
ghost use Rattle.oct_bt.specs.Header.{Header, head_of, header_of};
ghost use Rattle.oct_bt.specs.File.{bt_text, front_fault, header_text, reading};
ghost use Rattle.oct_bt.specs.NodeData.{IsAccepted, IsDataOf, read_nodes};
ghost use Rattle.oct_bt.specs.DataClasses.{data_classes, is_canonical};
ghost use Rattle.oct_bt.specs.Plain.{is_canonical_data};
ghost use Rattle.oct_bt.specs.declared.fault.BtFault.{BtFault};
ghost use Rattle.oct_bt.specs.declared.fault.BtFault.TheVariants.{TooDeep, Truncated};
ghost use Rattle.oct_bt.specs.declared.fault.BtFault.TheVariants.{TrailingBytes, SizeMismatch};
ghost use Rattle.oct_bt.specs.Refusals.{IsTooDeep, IsTruncated, IsTrailed, IsMiscounted};
ghost use Rattle.oct_bt.specs.Refusals.{IsAnswer, IsFront, IsHalfTooDeep};

/// A block is of a class exactly where all its voxels are.
pub fn block_classes_are_exact()
    ensures exact { (c : Classes) (b : Cube) (x : Class) → IsBlock b
        → class_of_block c b ≡ Some x ↔ ((k : Voxel) → HoldsVoxel b k → c k ≡ x) }
{}

/// Canonical data is the same exactly where the classes are.
pub fn data_tells_classes()
    ensures exact { (c e : Classes)
        → canonical_data c ≡ canonical_data e ↔ ((k : Voxel) → IsInMap k → c k ≡ e k) }
{}

/// A text that begins with that of a record tells the record, and what stands after it.
pub fn texts_tell_records()
    ensures exact { (r q : Entries) (depth : ℕ) (rest more : List ℕ) → IsRecord depth r
        → IsRecord depth q → flat r ++ rest ≡ flat q ++ more → (r ≡ q) × (rest ≡ more) }
{}

/// What stands for one classification stands for no other, and none of it is shorter than the
/// canonical data.
pub fn canonical_data_is_least()
    ensures one { (c e : Classes) (bytes : List ℕ) → IsDataOf c bytes → IsDataOf e bytes
        → (k : Voxel) → IsInMap k → c k ≡ e k }
    ensures least { (c : Classes) (bytes : List ℕ) → IsDataOf c bytes
        → length (canonical_data c) ≤ length bytes }
    ensures only { (c : Classes) (bytes : List ℕ) → IsDataOf c bytes
        → length bytes ≡ length (canonical_data c) → bytes ≡ canonical_data c }
{}

/// The reading accepts exactly the node data that is the text of a record, or empty, and is of its
/// size.
pub fn reading_is_exact()
    ensures exact { (start size : ℕ) (bytes whole : List ℕ) → All (λ b. b < 256) bytes
        → read_nodes start size bytes ≡ Ok whole ↔ ((whole ≡ bytes) × IsAccepted size bytes) }
{}

/// Canonical data is accepted, and stands for its classes.
pub fn canonical_data_reads_back()
    ensures accepted { (c : Classes) (start : ℕ)
        → read_nodes start (canonical_size c) (canonical_data c) ≡ Ok (canonical_data c) }
    ensures classes { (c : Classes) → IsDataOf c (canonical_data c) }
{}

/// A canonical file is read as its resolution, its node data and its number of nodes.
pub fn canonical_files_read_back()
    ensures read { (res : ℕ) (c : Classes) → IsResolution res → reading (bt_text res c)
        ≡ Ok (record { res = res; codes = canonical_data c; nodes = canonical_size c }) }
{}

/// Node data that is accepted stands for the classes that it gives the voxels.
pub fn data_classes_are_exact()
    ensures exact { (size : ℕ) (bytes : List ℕ) → IsAccepted size bytes
        → IsDataOf (data_classes bytes) bytes }
{}

/// A front of a canonical file is refused: before its first 28 bytes are there it is none of these
/// files, before its header is whole the data line is missing, and after that it is truncated where
/// it ends.
pub fn fronts_are_refused()
    ensures exact { (res : ℕ) (c : Classes) (n : ℕ) → IsResolution res → n < length (bt_text res c)
        → reading (take n (bt_text res c))
        ≡ Err (front_fault (length (header_text (canonical_size c) res)) n) }
{}

/// Node data is canonical exactly where it is the canonical data of the classes that it gives the
/// voxels, and of data that is accepted the test of records tells that.
pub fn canonical_test_is_exact()
    ensures meant { (bytes : List ℕ)
        → is_canonical bytes ≡ true ↔ (bytes ≡ canonical_data (data_classes bytes)) }
    ensures exact { (size : ℕ) (bytes : List ℕ) → IsAccepted size bytes
        → is_canonical_data bytes ≡ is_canonical bytes }
{}

/// Each refusal of node data comes exactly where the bytes have its cause, and each text of bytes
/// has exactly one answer: it is accepted, or it is one of these.
pub fn refusals_are_exact()
    ensures exact { (start size : ℕ) (bytes : List ℕ) (answer : Result (List ℕ) BtFault)
        → All (λ b. b < 256) bytes
        → read_nodes start size bytes ≡ answer ↔ IsAnswer start size bytes answer }
    ensures too_deep { (start size at : ℕ) (bytes : List ℕ) → All (λ b. b < 256) bytes
        → read_nodes start size bytes ≡ Err (TooDeep at) ↔ IsTooDeep start size bytes at }
    ensures truncated { (start size at : ℕ) (bytes : List ℕ) → All (λ b. b < 256) bytes
        → read_nodes start size bytes ≡ Err (Truncated at) ↔ IsTruncated start size bytes at }
    ensures trailed { (start size at : ℕ) (bytes : List ℕ) → All (λ b. b < 256) bytes
        → read_nodes start size bytes ≡ Err (TrailingBytes at) ↔ IsTrailed start size bytes at }
    ensures miscounted { (start size said found : ℕ) (bytes : List ℕ) → All (λ b. b < 256) bytes
        → read_nodes start size bytes ≡ Err (SizeMismatch said found)
        ↔ IsMiscounted size bytes said found }
    ensures fronts { (start size at : ℕ) (bytes : List ℕ) → All (λ b. b < 256) bytes
        → read_nodes start size bytes ≡ Err (Truncated at)
        ↔ ((0 < size) × (at ≡ start + length bytes) × (IsFront bytes ⊎ IsHalfTooDeep bytes)) }
    ensures apart { (bytes : List ℕ) → IsFront bytes → IsHalfTooDeep bytes → ⊥ }
{}

/// A file is refused for its header, or else exactly as the bytes after the header are as node data
/// of the size that it says; places count from the start of the file.
pub fn file_refusals_are_exact()
    ensures header { (file : List ℕ) (fault : BtFault) → header_of (head_of file) ≡ Err fault
        → reading file ≡ Err fault }
    ensures data { (file : List ℕ) (header : Header) (fault : BtFault) → All (λ b. b < 256) file
        → header_of (head_of file) ≡ Ok header → reading file ≡ Err fault
        ↔ IsAnswer header.start header.size (drop header.start file) (Err fault) }
{}
