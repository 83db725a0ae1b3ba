//! What keeps bytes from being a file of classes, in their header or in their records.

use oct_num::Memory;
use thiserror::Error;

/// A word that a line of a header begins with.
#[derive(Clone, Copy, Debug, PartialEq, Eq, Error)]
pub enum HeaderWord {
    #[error("id")]
    Id,
    #[error("res")]
    Res,
    #[error("size")]
    Size,
    #[error("data")]
    Data,
}

/// What is wrong with a file. Places count bytes from the start of the file, from 0 on.
#[derive(Clone, Copy, Debug, PartialEq, Eq, Error)]
pub enum BtFault {
    /// The file doesn't begin as a file of this kind.
    #[error("not an OctoMap file")]
    NotOctomap,
    /// It begins as a file of a tree with values does.
    #[error("a file of a tree with values")]
    FloatTree,
    /// Its id is another one.
    #[error("the id isn't OcTree")]
    WrongId,
    /// The header has no line of this word.
    #[error("the header has no line {word}")]
    MissingField { word: HeaderWord },
    /// The value in the line of this word isn't of its form.
    #[error("the value of {word} isn't of its form")]
    BadField { word: HeaderWord },
    /// The data line hasn't ended within the first 65,536 bytes.
    #[error("the header is longer than 65,536 bytes")]
    HeaderTooLong,
    /// A record of a block of depth 15 says that a voxel has a record; its first byte stands here.
    #[error("the record at byte {at} is too deep")]
    TooDeep { at: u64 },
    /// The file ends here, where a record isn't whole.
    #[error("the file ends at byte {at} within its node data")]
    Truncated { at: u64 },
    /// The first byte after the node data stands here.
    #[error("bytes follow the node data from byte {at} on")]
    TrailingBytes { at: u64 },
    /// The header says another number of nodes than the node data has.
    #[error("the header says {said} nodes, and there are {found}")]
    SizeMismatch { said: u64, found: u64 },
    /// There was no memory for what the reader had to hold.
    #[error("out of memory")]
    Memory,
}

impl From<Memory> for BtFault {
    ghost use Rattle.std.specs.Prelude.{◌≡◌};
    ghost use Rattle.oct_bt.specs.declared.fault.BtFault.TheVariants.{Memory};

    ghost from_gives = { λ _ e. e ≡ Memory };

    fn from(_: Memory) -> Self {
        BtFault::Memory
    }
}
