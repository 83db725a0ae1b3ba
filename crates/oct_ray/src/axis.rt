//! One axis of a segment, and the faces of voxels that it crosses.
ghost use Rattle.std.specs.Prelude.{◌≡◌, ◌*◌, ◌/◌, ◌^◌, ◌<◌, ◌≤◌, pos, ◌-ℤ◌};
ghost use Rattle.oct_key.specs.Voxel.{HoldsOnAxis, IsResolution};
ghost use Rattle.oct_ray.specs.Axis.{HasRoom, IsAxisBetween, IsAxisOf, IsOnMap};
ghost use Rattle.oct_ray.specs.Met.{crossings_within, axis_after_part};

/// One axis of a segment: where the origin stands, and which faces of voxels lie between it and the
/// end.
///
/// A segment that spans 0 on the axis crosses none. It gets a crossing beyond its end, at the place
/// 2/1, so that each axis has a next one.
#[derive(Clone, Copy)]
pub struct Axis {
    /// The number of the voxels that hold the origin.
    pub key: u16,
    /// Whether the end lies no lower than the origin.
    pub rises: bool,
    /// How many faces lie between.
    pub crossings: u16,
    /// How far the first of them is from the origin, in nanometres.
    pub distance: u64,
    /// How far the end is from the origin, in nanometres.
    pub span: u64,
    /// The edge of a voxel, in nanometres.
    pub edge: u64,
}

impl Axis {
    /// The axis of a segment from `o` to `e`, coordinates of the map in nanometres, which voxels of
    /// these two numbers hold.
    pub fn new(edge: u64, o: i64, e: i64, first: u16, last: u16) -> Axis
        requires edge { IsResolution edge }
        requires first { HoldsOnAxis edge first o }
        requires last { HoldsOnAxis edge last e }
        ensures of { IsAxisOf edge o e result }
        ensures room { HasRoom result }
    {
        Axis::between(edge, height(edge, o), height(edge, e), first, last)
    }

    /// What is left of the axis just after this part of its segment, in 65,536ths.
    pub fn after(&self, part: u16) -> Axis
        requires room { HasRoom self.now }
        ensures left { result ≡ axis_after_part part self.now }
        ensures room { HasRoom result }
    {
        let way = (u128::from(self.span) * u128::from(part) / 65_536) as u64;
        let taken = self.crossings_within(way);
        Axis {
            key: if self.rises {
                self.key + taken
            } else {
                self.key - taken
            },
            rises: self.rises,
            crossings: self.crossings - taken,
            distance: self.distance + u64::from(taken) * self.edge,
            span: self.span,
            edge: self.edge,
        }
    }

    /// How many faces lie at most this many nanometres from the origin.
    fn crossings_within(&self, way: u64) -> u16
        requires way { way < 2 ^ 62 }
        requires room { HasRoom self.now }
        ensures exact { result ≡ crossings_within way self.now }
        ensures few { result ≤ self.now.crossings }
    {
        if way < self.distance {
            return 0;
        }
        let most = (way - self.distance) / self.edge + 1;
        most.min(u64::from(self.crossings)) as u16
    }

    /// The axis of a segment whose ends lie that high above the map's lower face, in the voxels of
    /// these two numbers. A product takes less time than the remainder of a division.
    fn between(edge: u64, origin: u64, end: u64, key: u16, last: u16) -> Axis
        requires edge { IsResolution edge }
        requires origin { origin < 65536 * edge }
        requires end { end < 65536 * edge }
        requires key { key ≡ origin / edge }
        requires last { last ≡ end / edge }
        ensures laid { IsAxisBetween edge origin end result }
        ensures room { HasRoom result }
    {
        let above_face = origin - u64::from(key) * edge;
        if origin <= end {
            Axis {
                key,
                rises: true,
                crossings: last - key,
                distance: if origin == end { 2 } else { edge - above_face },
                span: (end - origin).max(1),
                edge,
            }
        } else {
            Axis {
                key,
                rises: false,
                crossings: key - last,
                distance: above_face,
                span: origin - end,
                edge,
            }
        }
    }
}

/// How far a coordinate lies above the map's lower face, in nanometres.
fn height(edge: u64, c: i64) -> u64
    requires edge { IsResolution edge }
    requires on_map { IsOnMap edge c }
    ensures value { c ≡ (pos result -ℤ pos (32768 * edge)) }
    ensures below { result < 65536 * edge }
{
    (c + 32_768 * edge as i64) as u64
}
