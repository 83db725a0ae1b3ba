//! The block of a scan that is being read.
ghost use Rattle.std.specs.Prelude.{◌≡◌, ℕ, option_map, All, IfOk, OnOk, OnErr, IfSome, Some};
ghost use Rattle.std.specs.Prelude.{Err, is_err, length, nat_le, pos, ◌≤ℤ◌, ◌<ℤ◌, ◌^◌};
ghost use Rattle.oct_pose.specs.Reach.{IsInReach};
ghost use Rattle.oct_scan.specs.Beam.{IsTrust, sighting_of};
ghost use Rattle.oct_script.specs.Commands.{IsOwnOdds, IsRange};
ghost use Rattle.oct_session.specs.ScanSoFar.{begun, sighting_so_far, trust_of};
ghost use Rattle.oct_session.specs.ScanBlock.{block_with, opens_block, with_line, spoilt_by};
ghost use Rattle.oct_session.specs.ScanBlock.{extended, GainsPoint};
ghost use Rattle.oct_session.specs.ScanBlock.{is_zero, end_refusal};
ghost use Rattle.oct_session.specs.Kinds.{Adds, IsSmallHead};

use oct_key::{Point, PointList};
use oct_num::Memory;
use oct_pose::{Pose, ZeroQuaternion};
use oct_scan::{Scan, ScanOdds};
use oct_script::{self as script, ReadLine, Refusal, ScanHead, opens_scan};
use std::alloc::Global;
use std::marker::Model;

/// The most points that a scan may have.
const MOST_POINTS: usize = 1_000_000;

/// A scan that is being read: what its head says, and the points so far.
#[derive(Drop)]
pub struct PendingScan {
    /// The number of the head's line, from 1 on.
    line: u64,
    head: ScanHead,
    points: PointList,
}

impl Model for PendingScan {
    ghost use Rattle.oct_session.specs.ScanSoFar.{ScanSoFar, IsReadable};

    ghost Value = { ScanSoFar };

    ghost view = { λ s. record { line = s.line; head = s.head; points = s.points } };

    ghost invariant = { λ s. IsReadable (record {
      line = s.line;
      head = s.head;
      points = s.points;
    }) };
}

/// The block of a scan, between two of its lines.
#[derive(Drop)]
pub enum ScanBlock {
    /// No line of it was wrong so far.
    Scanning(PendingScan),
    /// The first of its lines that was wrong is refused for this, and the block with it.
    Spoilt(Refusal),
}

/// The log-odds of a head, as a scan has them.
fn trust_of(own: Option<script::ScanOdds>) -> Option<ScanOdds>
    requires { IfSome own IsOwnOdds }
    ensures exact { result ≡ option_map trust_of own }
    ensures trusted { IfSome result IsTrust }
{
    match own {
        None => None,
        Some(own) => Some(ScanOdds {
            hit: own.hit,
            miss: own.miss,
        }),
    }
}

impl PendingScan {
    /// A scan of which the head was read.
    fn new(alloc: Global, line: u64, head: ScanHead) -> Self
        requires { IsInReach head.t × IsRange head.range × IfSome head.odds IsOwnOdds }
        ensures { result ≡ begun line head }
    {
        PendingScan {
            line,
            head,
            points: PointList::new(alloc),
        }
    }

    /// Whether inner values are left to a later refresh.
    pub fn is_lazy(&self) -> bool
        ensures { result ≡ self.now.head.lazy }
    {
        self.head.lazy
    }

    /// Whether the scan has as many points as one may have.
    fn is_full(&self) -> bool
        ensures { result ≡ nat_le 1000000 (length self.now.points) }
    {
        self.points.as_slice().len() >= MOST_POINTS
    }

    /// Adds a point.
    fn push(&mut self, p: Point) -> Result<(), Memory>
        requires { IsInReach p }
        ensures { OnOk result (self.new ≡ extended p self.old) }
    {
        self.points.push(p)
    }

    /// The scan of these points, unless its quaternion is 0.
    pub fn into_scan(self) -> Result<Scan, ZeroQuaternion>
        ensures zero { is_err result ≡ is_zero self.head }
        ensures sighting { IfOk result (λ scan. sighting_of scan ≡ sighting_so_far self) }
        ensures small { IfOk result (λ scan. All IsInReach scan.points
            × IfSome scan.range (λ r. (pos 0 ≤ℤ r) × (r <ℤ pos (10 ^ 16)))
            × IfSome scan.odds IsTrust) }
    {
        let head = self.head;
        let pose = Pose::new(head.t, head.w, head.x, head.y, head.z)?;
        Ok(Scan {
            pose,
            points: self.points,
            range: head.range,
            odds: trust_of(head.odds),
        })
    }
}

impl ScanBlock {
    /// Adds a point, which is on the line of this number, if no line was wrong so far. Memory is
    /// taken for it alone.
    fn push(&mut self, number: u64, p: Point) -> Result<(), Memory>
        requires { IsInReach p }
        ensures exact { OnOk result (self.new ≡ block_with number (Adds p) self.old) }
        ensures memory { OnErr result
            (GainsPoint (Some self.old) (Some (block_with number (Adds p) self.old))) }
    {
        let ScanBlock::Scanning(scan) = self else {
            return Ok(());
        };
        if scan.is_full() {
            *self = ScanBlock::Spoilt(Refusal::TooManyPoints { line: number });
            return Ok(());
        }
        scan.push(p)
    }

    /// The block with a line more that is refused for this.
    fn spoilt(self, refusal: Refusal) -> ScanBlock
        ensures { (number : ℕ) → result ≡ with_line number (Err refusal) self }
    {
        match self {
            ScanBlock::Spoilt(first) => ScanBlock::Spoilt(first),
            ScanBlock::Scanning(_) => ScanBlock::Spoilt(refusal),
        }
    }

    /// Why the block is refused where the script ends in it.
    pub fn end_refusal(&self) -> Refusal
        ensures { result ≡ end_refusal self.now }
    {
        match self {
            ScanBlock::Spoilt(refusal) => *refusal,
            ScanBlock::Scanning(scan) => Refusal::OpenScan { line: scan.line },
        }
    }
}

/// Whether a line opens a block, whatever its other words are.
pub fn opens_block(line: &ReadLine<'_>) -> bool
    ensures { result ≡ opens_block line.now }
{
    !line.is_long() && opens_scan(line.text())
}

/// Opens the block of a scan with this head.
pub fn open_scan(alloc: Global, number: u64, head: &ScanHead, block: &mut Option<ScanBlock>)
    requires { IsSmallHead head.now }
    ensures { block.new ≡ Some (ScanBlock.Scanning (begun number head.now)) }
{
    *block = Some(ScanBlock::Scanning(PendingScan::new(alloc, number, *head)));
}

/// Adds a point to the block that is open, as [`ScanBlock::push`] does.
pub fn add_point(block: &mut Option<ScanBlock>, number: u64, p: Point) -> Result<(), Memory>
    requires { IsInReach p }
    ensures ok { (first : ScanBlock) → block.old ≡ Some first
        → OnOk result (block.new ≡ Some (block_with number (Adds p) first)) }
    ensures memory { (first : ScanBlock) → block.old ≡ Some first
        → OnErr result (GainsPoint (Some first) (Some (block_with number (Adds p) first))) }
{
    match block {
        Some(standing) => standing.push(number, p),
        None => Ok(()),
    }
}

/// Spoils the block that is open, or the one that a faulty line opens.
pub fn spoil(opens: bool, refusal: Refusal, block: &mut Option<ScanBlock>)
    ensures { (number : ℕ) → block.new ≡ spoilt_by number opens refusal block.old }
{
    match block.take() {
        Some(standing) => *block = Some(standing.spoilt(refusal)),
        None => {
            if opens {
                *block = Some(ScanBlock::Spoilt(refusal));
            }
        }
    }
}
