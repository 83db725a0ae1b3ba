//! Which of two maps decides a voxel that both know.
ghost use Rattle.std.specs.Prelude.{◌≡◌, Some};
ghost use Rattle.oct_merge.specs.Merged.{chosen, merged};

/// Which value a voxel gets that is known in both maps.
#[derive(Clone, Copy, Debug, PartialEq, Eq)]
pub enum Rule {
    /// The greater one.
    Greatest,
    /// The lesser one.
    Least,
    /// That of the first map.
    First,
}

impl Rule {
    /// The one of the two values that the rule takes.
    fn choose(self, first: i32, second: i32) -> i32
        ensures { result ≡ chosen self first second }
    {
        match self {
            Rule::Greatest => first.max(second),
            Rule::Least => first.min(second),
            Rule::First => first,
        }
    }

    /// The value of a voxel that has the first value in the first map, or none, and the second one
    /// in the second map.
    pub(crate) fn join(self, first: Option<i32>, second: i32) -> i32
        ensures { Some result ≡ merged self first (Some second) }
    {
        match first {
            Some(first) => self.choose(first, second),
            None => second,
        }
    }
}
