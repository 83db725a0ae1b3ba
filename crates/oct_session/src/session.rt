//! A session between two bytes of its script, and what its lines do to it.
ghost use Rattle.std.specs.Prelude.{◌≡◌, ◌+◌, ◌<◌, ◌≤◌, ◌^◌, [], length, OnOk, IfOk, All, false};
ghost use Rattle.oct_script.specs.Lines.{unread, Line};
ghost use Rattle.oct_script.specs.Replies.{is_refusal};
ghost use Rattle.oct_map.specs.Edits.{IsSureOf};
ghost use Rattle.oct_session.specs.Ahead.{IsPlaced};
ghost use Rattle.oct_session.specs.Moments.{AnswersEdits};
ghost use Rattle.oct_session.specs.Moments.{seen, HasParsed, Answers, fault_in, IsReady, HasRoom};
ghost use Rattle.oct_session.specs.Moments.{Does, Answer, Take, Rest, End, taken_of, Closes};
ghost use Rattle.oct_session.specs.Parsed.{IsSmallLine};
ghost use Rattle.oct_session.specs.ScanBlock.{end_reply};
ghost use Rattle.oct_session.specs.Standing.{IsFresh};

use crate::ahead::{MOST_AHEAD, Run, VoxelEdit, begun, do_edits, may_begin, oks, write_counted};
use crate::buffer::{append_reply, flush, flush_before_change, flush_if_full};
use crate::context::Context;
use crate::lines::{Parsed, take_line};
use crate::scan_block::ScanBlock;
use crate::tally::Tally;
use oct_io::{Sink, SinkFault, Stop, Store, StoreFault};
use oct_script::{Lines, ReadLine, Reply};
use std::alloc::Global;
use std::mem::replace;

/// A session between two bytes of its script.
#[derive(Drop)]
pub struct Session {
    /// The line that is being read.
    pub line: Lines,
    /// The block that is open, if one is.
    pub block: Option<ScanBlock>,
    /// How many lines have been taken in.
    pub line_count: u64,
    /// Whether a reply was a refusal.
    pub refused: bool,
    /// What the replies come to.
    pub tally: Tally,
    /// Whether the last line that was taken in was `quit`.
    pub has_quit: bool,
    /// The replies that are still to be written.
    pub text: Vec<u8>,
}

/// Whether a reply is a refusal.
fn is_refused(reply: &Option<Reply>) -> bool
    ensures { result ≡ is_refusal reply.now }
{
    matches!(reply, Some(Reply::Refused(_)))
}

/// The reply at the end of the script, if a block is open there.
fn end_reply(block: Option<ScanBlock>) -> Option<Reply>
    ensures { result ≡ end_reply block }
{
    match block {
        None => None,
        Some(block) => Some(Reply::Refused(block.end_refusal())),
    }
}

impl Session {
    /// The session before its first line.
    pub fn new(alloc: Global) -> Self
        ensures { IsFresh result }
    {
        Session {
            line: Lines::new(),
            block: None,
            line_count: 0,
            refused: false,
            tally: Tally::new(),
            has_quit: false,
            text: Vec::new(alloc),
        }
    }

    /// Does what the next line says, of which this was read, and holds its reply. After an error
    /// what is held is as it was.
    fn answer<K: Sink, F: Store>(
        &mut self,
        context: &mut Context<'_, K, F>,
        parsed: &Parsed,
    ) -> Result<(), StoreFault>
        requires few { self.old.line_count < 2 ^ 63 }
        requires small { IsSmallLine parsed.now }
        ensures { (line : Line) → HasParsed self.old line parsed.now
            → Answers line (seen K.Sink F.Store context.old self.old)
            (seen K.Sink F.Store context.new self.new) (fault_in result) }
    {
        let mut reply = None;
        take_line(context, parsed, &mut self.block, &mut reply)?;
        append_reply(&mut self.text, &reply)?;
        self.refused |= is_refused(&reply);
        self.tally.count(&reply);
        self.has_quit = parsed.is_quit();
        self.line_count += 1;
        Ok(())
    }

    /// Answers a line, and holds its reply, with few others. What was held before is written first
    /// where the line may change the map, or names a file.
    fn respond<K: Sink, F: Store>(
        &mut self,
        context: &mut Context<'_, K, F>,
        line: &ReadLine<'_>,
    ) -> Result<(), Stop>
        requires { IsReady self.old }
        ensures does { Does K.Sink F.Store (Answer line.now) context.old self.old context.new
            self.new result }
        ensures line { self.new.line ≡ self.old.line }
    {
        let mut parsed = Parsed::new();
        parsed.read(line, self.line_count + 1, self.block.is_some());
        flush_before_change(&parsed, &mut self.text, context.sink)?;
        match self.answer(context, &parsed) {
            Ok(()) => {
                flush_if_full(&mut self.text, context.sink)?;
                Ok(())
            }
            Err(fault) => {
                flush(&mut self.text, context.sink)?;
                Err(Stop::from(fault))
            }
        }
    }

    /// Answers the line that was fed, as [`Session::respond`] does, and begins the next one.
    #[inline(never)]
    fn respond_fed<K: Sink, F: Store>(
        &mut self,
        context: &mut Context<'_, K, F>,
    ) -> Result<(), Stop>
        requires { IsReady self.old }
        ensures does { Does K.Sink F.Store (Answer self.old.line.line) context.old self.old
            context.new self.new result }
        ensures line { self.new.line ≡ unread }
    {
        let line = replace(&mut self.line, Lines::new());
        self.respond(context, &line.read())
    }

    /// Takes the bytes up to and with the next line feed, answers the line that ends there, and
    /// returns how many bytes were taken.
    fn advance<K: Sink, F: Store>(
        &mut self,
        context: &mut Context<'_, K, F>,
        piece: &[u8],
    ) -> Result<usize, Stop>
        requires ready { IsReady self.old }
        requires some { (self.old.line.has_ended ≡ false) × (0 < length piece.now) }
        ensures does { Does K.Sink F.Store (Take (taken_of result piece.now)) context.old self.old
            context.new self.new result }
        ensures within { IfOk result (λ n. (0 < n) × (n ≤ length piece.now)) }
    {
        if let Some(whole) = self.line.whole(piece) {
            let line = ReadLine::new(whole.text);
            self.respond(context, &line)?;
            return Ok(whole.taken);
        }
        let fed = self.line.feed(piece);
        if !fed.ended {
            return Ok(fed.taken);
        }
        self.respond_fed(context)?;
        Ok(fed.taken)
    }

    /// Answers the lines of edits that the map is sure of: writes their replies, and does each edit
    /// whose reply was begun.
    fn answer_edits<K: Sink, F: Store>(
        &mut self,
        context: &mut Context<'_, K, F>,
        edits: &[VoxelEdit],
    ) -> Result<(), SinkFault>
        requires few { length edits.now ≤ MOST_AHEAD }
        requires room { self.old.line_count + length edits.now < 2 ^ 63 }
        requires sure { IsSureOf context.old.map.now (length edits.now) }
        requires placed { All (IsPlaced context.old.map.now.tree.res) edits.now }
        ensures answers { AnswersEdits edits.now (seen K.Sink F.Store context.old self.old)
            (seen K.Sink F.Store context.new self.new) (fault_in result) }
        ensures running { self.new.has_quit ≡ self.old.has_quit }
    {
        let mut told = 0usize;
        let written = write_counted(context.sink, oks(edits.len()), &mut told);
        let (front, _) = edits.split_at(begun(told, edits.len()));
        do_edits(context.map, front);
        self.line_count += front.len() as u64;
        written
    }

    /// Takes lines at the front of a piece that say edits, as many as can be answered together, and
    /// returns how many bytes were taken.
    fn take_edits<K: Sink, F: Store>(
        &mut self,
        context: &mut Context<'_, K, F>,
        piece: &[u8],
    ) -> Result<usize, Stop>
        requires running { self.old.has_quit ≡ false }
        requires room { HasRoom self.old (length piece.now) }
        requires unended { self.old.line.has_ended ≡ false }
        ensures does { Does K.Sink F.Store (Take (taken_of result piece.now)) context.old self.old
            context.new self.new result }
        ensures within { IfOk result (λ n. n ≤ length piece.now) }
        ensures running { OnOk result (self.new.has_quit ≡ false) }
    {
        if self.block.is_some() || !may_begin(piece) {
            return Ok(0);
        }
        let mut run = Run::new();
        run.read(context.map, &self.line, piece);
        if run.edits.is_empty() {
            return Ok(0);
        }
        flush(&mut self.text, context.sink)?;
        self.answer_edits(context, &run.edits)?;
        Ok(run.taken)
    }

    /// Takes lines of edits at the front of a piece, where there are some that can be answered
    /// together, and else the bytes up to and with the next line feed, and answers what it takes.
    fn take_next<K: Sink, F: Store>(
        &mut self,
        context: &mut Context<'_, K, F>,
        piece: &[u8],
    ) -> Result<usize, Stop>
        requires running { self.old.has_quit ≡ false }
        requires room { HasRoom self.old (length piece.now) }
        requires some { (self.old.line.has_ended ≡ false) × (0 < length piece.now) }
        ensures does { Does K.Sink F.Store (Take (taken_of result piece.now)) context.old self.old
            context.new self.new result }
        ensures within { IfOk result (λ n. (0 < n) × (n ≤ length piece.now)) }
    {
        let taken = self.take_edits(context, piece)?;
        if taken > 0 {
            return Ok(taken);
        }
        self.advance(context, piece)
    }

    /// Takes a piece of the script, and answers each line that ends in it, up to a `quit`. Then all
    /// replies are written.
    pub fn take<K: Sink, F: Store>(
        &mut self,
        context: &mut Context<'_, K, F>,
        piece: &[u8],
    ) -> Result<(), Stop>
        requires room { HasRoom self.old (length piece.now) }
        requires unended { self.old.line.has_ended ≡ false }
        ensures does { Does K.Sink F.Store (Take piece.now) context.old self.old context.new
            self.new result }
        ensures empty { OnOk result (self.new.text.items ≡ []) }
    {
        let mut taken = 0;
        while taken < piece.len() && !self.has_quit {
            let (_, rest) = piece.split_at(taken);
            taken += self.take_next(context, rest)?;
        }
        flush(&mut self.text, context.sink)?;
        Ok(())
    }

    /// Answers the last line, if it lacks its line feed, where the script has ended.
    fn respond_last<K: Sink, F: Store>(
        &mut self,
        context: &mut Context<'_, K, F>,
    ) -> Result<(), Stop>
        requires ready { IsReady self.old }
        requires empty { self.old.text.items ≡ [] }
        ensures { Does K.Sink F.Store Rest context.old self.old context.new self.new result }
    {
        if !self.line.has_rest() {
            return Ok(());
        }
        self.respond_fed(context)?;
        flush(&mut self.text, context.sink)?;
        Ok(())
    }

    /// Closes the block that is open where the script has ended, if one is, and answers it.
    fn close<K: Sink>(&mut self, sink: &mut K) -> Result<(), SinkFault>
        requires empty { self.old.text.items ≡ [] }
        requires running { self.old.has_quit ≡ false }
        ensures { Closes K.Sink self.old sink.old self.new sink.new result }
    {
        let reply = end_reply(self.block.take());
        append_reply(&mut self.text, &reply)?;
        flush(&mut self.text, sink)?;
        self.refused |= is_refused(&reply);
        self.tally.count(&reply);
        Ok(())
    }

    /// Answers the last line, if it lacks its line feed, and closes the block that is open, where
    /// the script has ended.
    pub fn end<K: Sink, F: Store>(&mut self, context: &mut Context<'_, K, F>) -> Result<(), Stop>
        requires ready { IsReady self.old }
        requires empty { self.old.text.items ≡ [] }
        ensures { Does K.Sink F.Store End context.old self.old context.new self.new result }
    {
        self.respond_last(context)?;
        if self.has_quit {
            return Ok(());
        }
        self.close(context.sink)?;
        Ok(())
    }
}
