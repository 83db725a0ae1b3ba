//! The lines of a script, one after another.
ghost use Rattle.std.specs.Prelude.{◌≡◌, ◌<◌, ◌++◌, [], length, IfSome, IfNone};
ghost use Rattle.oct_gen.specs.Lines.{to_come, text_from};
ghost use Rattle.oct_gen.specs.Script.{script_of};

use crate::draws::Draws;
use crate::line::{Line, end_line, header_line, point_line, quit_line, scan_line};

/// What the next line is.
#[derive(Clone, Copy, Debug)]
pub(crate) enum Stage {
    /// The first one.
    Header,
    /// The first one of a scan, or the last one of the script.
    Scans,
    /// That of a point, of which this many are left, or the end of the scan.
    Points { left: u32 },
    /// None.
    Over,
}

/// The lines of a script that are still to come.
#[derive(Clone, Copy, Debug)]
pub(crate) struct ScriptLines {
    draws: Draws,
    stage: Stage,
    scans_left: u32,
    points: u32,
}

impl ScriptLines {
    /// All lines of the script.
    pub(crate) fn new(seed: u64, scans: u32, points: u32) -> Self
        ensures { to_come result ≡ script_of seed scans points }
    {
        ScriptLines {
            draws: Draws::new(seed),
            stage: Stage::Header,
            scans_left: scans,
            points,
        }
    }

    /// The next line, or `None` where the last one was given.
    pub(crate) fn next_line(&mut self) -> Option<Line>
        ensures next { IfSome result (λ line. to_come self.old ≡ line.bytes ++ to_come self.new) }
        ensures some { IfSome result (λ line. 0 < length line.bytes) }
        ensures none { IfNone result ((to_come self.old ≡ []) × (to_come self.new ≡ [])) }
    {
        match self.stage {
            Stage::Header => Some(self.begin()),
            Stage::Scans => Some(self.scan_or_quit()),
            Stage::Points { left } => Some(self.point_or_end(left)),
            Stage::Over => None,
        }
    }

    /// The first line.
    fn begin(&mut self) -> Line
        ensures next { text_from Stage.Header self.old.draws.state self.old.scans_left
            self.old.points ≡ result.bytes ++ to_come self.new }
        ensures some { 0 < length result.bytes }
    {
        self.stage = Stage::Scans;
        header_line(self.draws.seed(), self.scans_left, self.points)
    }

    /// The first line of the next scan, or the last line of the script where no scan is left.
    fn scan_or_quit(&mut self) -> Line
        ensures next { text_from Stage.Scans self.old.draws.state self.old.scans_left
            self.old.points ≡ result.bytes ++ to_come self.new }
        ensures some { 0 < length result.bytes }
    {
        if self.scans_left == 0 {
            self.stage = Stage::Over;
            return quit_line();
        }
        self.scans_left -= 1;
        self.stage = Stage::Points { left: self.points };
        scan_line(&mut self.draws)
    }

    /// The line of the next of this many points, or the end of the scan where none is left.
    fn point_or_end(&mut self, left: u32) -> Line
        ensures next { text_from (Stage.Points left) self.old.draws.state self.old.scans_left
            self.old.points ≡ result.bytes ++ to_come self.new }
        ensures some { 0 < length result.bytes }
    {
        if left == 0 {
            self.stage = Stage::Scans;
            return end_line();
        }
        self.stage = Stage::Points { left: left - 1 };
        point_line(&mut self.draws)
    }
}
