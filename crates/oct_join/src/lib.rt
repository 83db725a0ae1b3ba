//! The maps of two `.bt` files, joined record by record.
//!
//! ```text
//! let file = join(alloc, Rule::Greatest, &first, &second)?;
//! rewrite(&file, &mut sink)?;
//! ```
//!
//! [`join`] makes the canonical file of the merged map of two files: each voxel has the class that
//! the rule makes of its two (`merged_class` in `specs/Merged.antt`), and the node data is the
//! canonical one of these classes, whatever the records of the two files were. No tree is made.
//!
//! It is one recursion over blocks, with the code of the block in each file and the text from its
//! record on. Both texts are read side by side, each byte once. A block of one class stands for
//! eight children of it, and reads nothing. Where no child has a record, the eight codes are merged
//! at once, by masks. Else a record's place is kept free, its children are appended after it, and
//! then the record is written there; where all eight came out as one class, it is taken off again,
//! and the block is of that class. So what was appended for a block is its canonical data. The list
//! has room for no more bytes than both files have, which [`join_codes`] promises.
//!
//! [`tabulate`] counts how many voxels of a box have which classes in the two files, by a walk of
//! the same kind: a block of one class in each file is counted as a whole, and the records of a
//! block that doesn't meet the box are passed over. It takes no memory.
//!
//! The recursions are at most 16 deep. The program stands on them, for its tasks `merge` and
//! `table` over two files.
#![tactic(auto)]

mod codes;
mod joining;
mod laws;
mod table;

pub use joining::{join, join_codes};
pub use laws::merged_classes_are_exact;
pub use table::tabulate;
