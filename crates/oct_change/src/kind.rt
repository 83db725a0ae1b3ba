//! In which of four ways a voxel's class may change.
ghost use Rattle.std.specs.Prelude.{◌≡◌};
ghost use Rattle.oct_change.specs.Changes.{kind_between};

use oct_key::Key;
use oct_num::Items;
use oct_odds::Class;

/// How a voxel changed.
#[derive(Clone, Copy, Debug, PartialEq, Eq)]
pub enum Kind {
    /// It was unknown, and isn't any more.
    New,
    /// It is unknown, and wasn't before.
    Lost,
    /// It was free, and is occupied.
    Occupied,
    /// It was occupied, and is free.
    Freed,
}

/// A voxel that changed.
#[derive(Clone, Copy, Debug, PartialEq, Eq)]
pub struct Change {
    /// The voxel.
    pub key: Key,
    /// How its class has changed.
    pub kind: Kind,
}

/// Changes of voxels in order.
pub type ChangeList = Items<Change>;

/// How a voxel changes from one class to another, if it does.
pub(crate) fn kind_of_change(before: Class, after: Class) -> Option<Kind>
    ensures { result ≡ kind_between before after }
{
    match (before, after) {
        (Class::Unknown, Class::Unknown) => None,
        (Class::Unknown, _) => Some(Kind::New),
        (_, Class::Unknown) => Some(Kind::Lost),
        (Class::Free, Class::Occupied) => Some(Kind::Occupied),
        (Class::Occupied, Class::Free) => Some(Kind::Freed),
        (_, _) => None,
    }
}
