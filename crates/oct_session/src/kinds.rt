//! Commands by what does them.
ghost use Rattle.std.specs.Prelude.{◌≡◌};
ghost use Rattle.oct_script.specs.Commands.{IsSmallCommand};
ghost use Rattle.oct_session.specs.Commands.{kind_changes};
ghost use Rattle.oct_session.specs.Kinds.{kind_of, kind_seen, IsSmallKind};

use oct_key::Point;
use oct_script::{Command, Edit, Name, ScanHead};

/// What the map is to do, and answers with `ok`, unless it refuses.
#[derive(Clone, Copy)]
pub enum Order {
    Edit { p: Point, e: Edit, lazy: bool },
    Box { lo: Point, hi: Point, e: Edit },
    Limit { lo: Point, hi: Point },
    NoLimit,
    Refresh,
    Prune,
    Clear,
    MaxLik,
    Track,
    Untrack,
}

/// What the map is asked.
#[derive(Clone, Copy)]
pub enum Question {
    Get { p: Point, depth: u32 },
    List { lo: Point, hi: Point, depth: u32 },
    Cast { o: Point, e: Point, ignore: bool },
    Counts,
    Changes,
}

/// A command by what does it.
#[derive(Clone, Copy)]
pub enum Kind<'a> {
    /// There is nothing to do.
    Nothing,
    /// It opens the block of a scan.
    Opens(&'a ScanHead),
    /// It adds a point to the block.
    Adds(Point),
    /// It closes the block.
    Closes,
    /// The map does it.
    Orders(Order),
    /// The map answers it.
    Asks(Question),
    /// It saves the file of the map's classes under a name.
    Saves(&'a Name),
    /// It loads the file of a name.
    Loads(&'a Name),
    /// It saves the map's snapshot under a name.
    Snaps(&'a Name),
    /// It restores the snapshot of a name.
    Restores(&'a Name),
}

impl Kind<'_> {
    /// Whether it may change the map, or names a file.
    pub fn may_change(&self) -> bool
        ensures { result ≡ kind_changes (kind_seen self.now) }
    {
        match self {
            Kind::Nothing | Kind::Opens(_) | Kind::Adds(_) => false,
            Kind::Asks(question) => matches!(question, Question::Counts),
            Kind::Closes
            | Kind::Orders(_)
            | Kind::Saves(_)
            | Kind::Loads(_)
            | Kind::Snaps(_)
            | Kind::Restores(_) => true,
        }
    }
}

/// The kind of a command.
#[inline(always)]
pub fn kind_of(command: &Command) -> Kind<'_>
    requires { IsSmallCommand command.now }
    ensures exact { kind_seen result ≡ kind_of command.now }
    ensures small { IsSmallKind (kind_seen result) }
{
    match *command {
        Command::Blank | Command::Quit => Kind::Nothing,
        Command::Scan(ref head) => Kind::Opens(head),
        Command::Beam(p) => Kind::Adds(p),
        Command::End => Kind::Closes,
        Command::Edit { p, e, lazy } => Kind::Orders(Order::Edit { p, e, lazy }),
        Command::Box { lo, hi, e } => Kind::Orders(Order::Box { lo, hi, e }),
        Command::Limit { lo, hi } => Kind::Orders(Order::Limit { lo, hi }),
        Command::NoLimit => Kind::Orders(Order::NoLimit),
        Command::Refresh => Kind::Orders(Order::Refresh),
        Command::Prune => Kind::Orders(Order::Prune),
        Command::Clear => Kind::Orders(Order::Clear),
        Command::MaxLik => Kind::Orders(Order::MaxLik),
        Command::Track => Kind::Orders(Order::Track),
        Command::Untrack => Kind::Orders(Order::Untrack),
        Command::Get { p, depth } => Kind::Asks(Question::Get { p, depth }),
        Command::List { lo, hi, depth } => Kind::Asks(Question::List { lo, hi, depth }),
        Command::Cast { o, e, ignore } => Kind::Asks(Question::Cast { o, e, ignore }),
        Command::Counts => Kind::Asks(Question::Counts),
        Command::Changes => Kind::Asks(Question::Changes),
        Command::Save(ref name) => Kind::Saves(name),
        Command::Load(ref name) => Kind::Loads(name),
        Command::Snapshot(ref name) => Kind::Snaps(name),
        Command::Restore(ref name) => Kind::Restores(name),
    }
}
