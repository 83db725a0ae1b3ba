//! Why bytes aren't a snapshot, and at which of them that shows.

use thiserror::Error;

/// What is wrong with a snapshot. Places count bytes from its start, from 0 on.
#[derive(Clone, Copy, Debug, PartialEq, Eq, Error)]
pub enum SnapFault {
    /// It doesn't begin as a snapshot does.
    #[error("not a snapshot")]
    BadMagic,
    /// It ends here, before a field or a node is whole.
    #[error("the snapshot ends at byte {at}")]
    Truncated { at: u64 },
    /// Bytes follow its last node; the first of them stands here.
    #[error("bytes follow the snapshot at byte {at}")]
    TrailingBytes { at: u64 },
    /// The field or the node that begins here isn't one of a snapshot.
    #[error("the field or node at byte {at} isn't one of a snapshot")]
    BadSnapshot { at: u64 },
}
