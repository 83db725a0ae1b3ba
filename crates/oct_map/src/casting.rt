//! Casts through a map.
ghost use Rattle.std.specs.Prelude.{◌≡◌};
ghost use Rattle.oct_map.specs.Casts.{cast_answer};

use crate::fault::MapFault;
use crate::map::OccMap;
use oct_cast::{Cast, cast};
use oct_key::Point;

impl OccMap {
    ghost use Rattle.oct_map.specs.Map.{IsMap, values_of, ground_of};

    /// The first voxel that the segment from `o` to `e` meets and that is occupied, or unknown
    /// where unknown voxels aren't ignored. Both ends count, and how many voxels lie between has no
    /// limit. A stale map answers as well.
    pub fn cast(&self, o: Point, e: Point, ignore_unknown: bool) -> Result<Cast, MapFault>
        ensures answer { result
            ≡ cast_answer (ground_of self.now) (values_of self.now) o e ignore_unknown }
        ensures map { IsMap self.now }
    {
        let tree = self.tree();
        if tree.res().key_of(o).is_none() {
            return Err(MapFault::Outside { point: 1 });
        }
        if tree.res().key_of(e).is_none() {
            return Err(MapFault::Outside { point: 2 });
        }
        Ok(cast(tree, o, e, ignore_unknown))
    }
}
