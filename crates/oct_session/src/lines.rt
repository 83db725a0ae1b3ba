//! What a line does: its reply, and the block that is open after it.
ghost use Rattle.std.specs.Prelude.{◌≡◌, ℕ, None, Ok, Some};
ghost use Rattle.oct_script.specs.Commands.{IsSmallCommand};
ghost use Rattle.oct_script.specs.Lines.{Line};
ghost use Rattle.oct_session.specs.Commands.{asked_of, command_on, is_quit, may_change};
ghost use Rattle.oct_session.specs.Moments.{Works};
ghost use Rattle.oct_session.specs.ScanBlock.{opens_block, spoilt_by, spoilt_reply};
ghost use Rattle.oct_session.specs.Session.{effect, effect_inside};
ghost use Rattle.oct_session.specs.Parsed.{command_in, IsSmallLine, TellsOpening};
ghost use Rattle.oct_session.specs.Standing.{with_reply, HasWorked};

use crate::commands::{ask, execute, finish};
use crate::context::Context;
use crate::files::{load, restore, save};
use crate::kinds::{Kind, kind_of};
use crate::scan_block::{ScanBlock, add_point, open_scan, opens_block, spoil};
use oct_io::{Sink, Store, StoreFault};
use oct_map::OccMap;
use oct_num::Memory;
use oct_script::{Command, ReadLine, Refusal, Reply, parse_into};

/// Whether a command ends the session.
fn is_quit(command: &Command) -> bool
    ensures { result ≡ is_quit (Ok command.now) }
{
    matches!(command, Command::Quit)
}

/// What was read of a line, in a place of its own, so that no command is moved from call to call.
#[derive(Clone, Copy)]
pub struct Parsed {
    /// The number of the line, from 1 on.
    number: u64,
    /// The command on the line, where it has one.
    command: Command,
    /// Why it has none.
    refusal: Option<Refusal>,
    /// Whether it has none, and opens a block all the same.
    opens: bool,
}

impl Parsed {
    /// That of a blank line, before any line was read.
    pub fn new() -> Self
        ensures { command_in result ≡ Ok Command.Blank }
    {
        Parsed {
            number: 0,
            command: Command::Blank,
            refusal: None,
            opens: false,
        }
    }

    /// Reads the line of this number, inside the block of a scan or outside.
    pub fn read(&mut self, line: &ReadLine<'_>, number: u64, inside: bool)
        ensures numbered { self.new.number ≡ number }
        ensures exact { command_in self.new ≡ command_on inside number line.now }
        ensures opens { TellsOpening self.new line.now }
        ensures small { IsSmallLine self.new }
    {
        self.number = number;
        self.refusal = None;
        if line.is_long() {
            self.refusal = Some(Refusal::LongLine { line: number });
            self.opens = false;
            return;
        }
        if let Err(syntax) = parse_into(line.text(), inside, &mut self.command) {
            self.refusal = Some(Refusal::Syntax {
                line: number,
                column: syntax.column,
            });
            self.opens = opens_block(line);
        }
    }

    /// Whether the line may change the map, or names a file. A faulty one does neither.
    pub fn may_change(&self) -> bool
        requires { IsSmallLine self.now }
        ensures { result ≡ may_change (command_in self.now) }
    {
        self.refusal.is_none() && kind_of(&self.command).may_change()
    }

    /// Whether the line ends the session.
    pub fn is_quit(&self) -> bool
        ensures { result ≡ is_quit (command_in self.now) }
    {
        self.refusal.is_none() && is_quit(&self.command)
    }
}

/// What a command does inside a block.
fn inside(
    map: &mut OccMap,
    parsed: &Parsed,
    block: &mut Option<ScanBlock>,
    reply: &mut Option<Reply>,
) -> Result<(), Memory>
    requires small { IsSmallCommand parsed.now.command }
    requires silent { reply.old ≡ None }
    ensures { (first : ScanBlock) → block.old ≡ Some first
        → HasWorked (λ s. effect_inside s parsed.now.number (Ok parsed.now.command) first) first
        map.old map.new block.new (with_reply result reply.new) }
{
    match kind_of(&parsed.command) {
        Kind::Adds(p) => add_point(block, parsed.number, p),
        Kind::Closes => {
            let Some(standing) = block.take() else {
                return Ok(());
            };
            finish(map, standing, reply)
        }
        Kind::Nothing
        | Kind::Opens(_)
        | Kind::Orders(_)
        | Kind::Asks(_)
        | Kind::Saves(_)
        | Kind::Loads(_)
        | Kind::Snaps(_)
        | Kind::Restores(_) => Ok(()),
    }
}

/// What a line does that isn't in the grammar: it spoils the block that is open, or the one that it
/// opens, and is refused where it does neither.
fn take_fault(
    opens: bool,
    refusal: Refusal,
    block: &mut Option<ScanBlock>,
    reply: &mut Option<Reply>,
)
    ensures block { (number : ℕ) → block.new ≡ spoilt_by number opens refusal block.old }
    ensures reply { reply.new ≡ spoilt_reply refusal block.new }
{
    spoil(opens, refusal, block);
    *reply = match block {
        None => Some(Reply::Refused(refusal)),
        Some(_) => None,
    };
}

/// Does what the line says of which this was read, inside a block or outside, and leaves the block
/// that is open afterwards and the reply in their places. Where it failed, nothing was done, but
/// for the file that it names.
pub fn take_line<K: Sink, F: Store>(
    context: &mut Context<'_, K, F>,
    parsed: &Parsed,
    block: &mut Option<ScanBlock>,
    reply: &mut Option<Reply>,
) -> Result<(), StoreFault>
    requires small { IsSmallLine parsed.now }
    requires silent { reply.old ≡ None }
    ensures { (line : Line) → TellsOpening parsed.now line → Works F.Store
        (λ files s. effect files s parsed.now.number line (command_in parsed.now) block.old)
        (asked_of (command_in parsed.now)) block.old block.new context.old context.new result
        reply.new }
{
    if let Some(refusal) = parsed.refusal {
        take_fault(parsed.opens, refusal, block, reply);
        return Ok(());
    }
    if block.is_some() {
        inside(context.map, parsed, block, reply)?;
        return Ok(());
    }
    match kind_of(&parsed.command) {
        Kind::Nothing | Kind::Adds(_) | Kind::Closes => {}
        Kind::Opens(head) => open_scan(context.alloc, parsed.number, head, block),
        Kind::Orders(order) => execute(context.map, order, reply)?,
        Kind::Asks(question) => ask(context.map, question, reply)?,
        Kind::Loads(name) => return load(context, name, reply),
        Kind::Restores(name) => return restore(context, name, reply),
        Kind::Saves(name) => {
            let file = context.map.to_bt();
            return save(context, name, file, reply);
        }
        Kind::Snaps(name) => {
            let file = context.map.to_snapshot();
            return save(context, name, file, reply);
        }
    }
    Ok(())
}
