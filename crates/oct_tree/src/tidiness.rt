//! What a tree knows of its inner nodes, so that an edit can end its way up early.
ghost use Rattle.std.specs.Prelude.{◌↔◌, IsTrue};

/// What is known of the inner nodes of a tree, beside its links.
#[derive(Clone, Copy, Debug, PartialEq, Eq)]
pub struct Tidiness {
    /// Each inner value is the greatest of its group.
    pub fresh: bool,
    /// No group could be collapsed.
    pub pruned: bool,
}

impl Tidiness {
    /// Whether the tree is known to be fresh and pruned.
    pub fn is_tidy(self) -> bool
        ensures { IsTrue result ↔ (IsTrue self.fresh × IsTrue self.pruned) }
    {
        self.fresh && self.pruned
    }
}

/// Nothing is known.
pub(crate) const NOTHING: Tidiness = Tidiness {
    fresh: false,
    pruned: false,
};
