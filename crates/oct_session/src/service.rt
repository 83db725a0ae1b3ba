//! The loop of a session: from the bytes of a source to the replies in a sink.
ghost use Rattle.std.specs.Prelude.{◌≡◌, ◌+◌, ◌^◌, ◌<◌, length, IfSome};
ghost use Rattle.oct_io.specs.Told.{Rose};
ghost use Rattle.oct_io.specs.FaultCounts.{IsScriptCounted};
ghost use Rattle.oct_session.specs.History.{start_state};
ghost use Rattle.oct_session.specs.Session.{status_at_end, ReadsTold};
ghost use Rattle.oct_session.specs.Leaving.{StandsFor, desk, HasEndedAs, RunsScript};
ghost use Rattle.oct_io.specs.Shelf.{shelf};
ghost use Rattle.oct_session.specs.Moments.{seen, stop_in, TakesPiece, Reads, IsWaiting};
ghost use Rattle.oct_session.specs.Standing.{IsResting};

use crate::context::Context;
use crate::options::Options;
use crate::session::Session;
use oct_io::{Sink, Source, Status, Stop, Store, read_piece};
use oct_map::OccMap;
use std::alloc::Global;

/// The most bytes that one read asks for.
const MOST_READ: usize = 16 * 1024;

/// Takes what a read gave, of which the last byte may be one more than the script may have.
fn take_piece<K: Sink, F: Store>(
    context: &mut Context<'_, K, F>,
    session: &mut Session,
    piece: &[u8],
    room: u64,
) -> Result<(), Stop>
    requires small { session.old.line_count + length piece.now < 2 ^ 63 }
    requires rests { IsResting session.old session.old.line_count }
    ensures { TakesPiece piece.now room (seen K.Sink F.Store context.old session.old)
        (seen K.Sink F.Store context.new session.new) (stop_in result) }
{
    if piece.len() as u64 <= room {
        return session.take(context, piece);
    }
    let (front, _) = piece.split_at(room as usize);
    session.take(context, front)?;
    if session.has_quit {
        Ok(())
    } else {
        Err(Stop::TooLong)
    }
}

/// Reads the script to its end or to `quit`, and answers what a read gave before the next one.
pub(crate) fn read_all<S: Source, K: Sink, F: Store>(
    options: &Options,
    context: &mut Context<'_, K, F>,
    session: &mut Session,
    source: &mut S,
) -> Result<(), Stop>
    requires { IsWaiting options.now session.old 0 }
    ensures reads { Reads options.now (S.left source.old) (S.left source.new)
        (seen K.Sink F.Store context.old session.old) (seen K.Sink F.Store context.new session.new)
        (stop_in result) }
    ensures source_counts { IsScriptCounted result (S.faults source.old) (S.faults source.new)
        (S.ends source.old) (S.ends source.new) }
{
    let mut buffer = [0u8; MOST_READ];
    let mut taken = 0u64;
    'reading: loop {
        let room = options.max_bytes() - taken;
        let count = read_piece(source, &mut buffer, room)?;
        let (piece, _) = buffer.split_at(count);
        take_piece(context, session, piece, room)?;
        if session.has_quit {
            return Ok(());
        }
        if count == 0 {
            return session.end(context);
        }
        taken += count as u64;
    }
}

/// Answers a script line by line and block by block, to its end or to its `quit`. The replies to
/// what a read gave are written before the next one, and those before a line that may change the
/// map or names a file, before that line is done. It works on the map that it is lent: a map that
/// is set up as the options say, in which each voxel is unknown and which isn't stale. Files are
/// those of the store.
///
/// The clause `ends` says, status by status, what is written and what is left of the input
/// (`answer`), what map and files then stand for (`leaves`), and that the store is asked once at
/// most for each line that names a file, and isn't touched where none does (`asked`). It speaks
/// wherever the source tells its bytes and the sink what was written, as those in memory do, and
/// the store its files, or no line names one; that the map stands for some history is said for any
/// of them. A fault comes only where the count of that object rose in this call. Bytes after the
/// line of `quit` have no effect, and those that one read gave with it may have been taken.
pub fn serve<S: Source, K: Sink, F: Store>(
    alloc: Global,
    options: &Options,
    map: &mut OccMap,
    source: &mut S,
    sink: &mut K,
    store: &mut F,
) -> Status
    requires { StandsFor map.old (start_state options.now) }
    ensures ends { IfSome (S.left source.old) (λ bytes.
        ReadsTold options.now (F.files store.old) bytes
        → HasEndedAs options.now (F.files store.old) bytes (S.left source.new) (K.written sink.old)
        (K.written sink.new) (desk map.new (shelf F.files F.calls store.old store.new))
        (Rose (K.shortages sink.old) (K.shortages sink.new)) result) }

    // A fault is met once and ends the session.
    ensures runs { RunsScript S.Source K.Sink F.Store options.now map.new source.old source.new
        sink.old sink.new store.old store.new result }
{
    let mut session = Session::new(alloc);
    let mut context = Context {
        alloc,
        map,
        store,
        sink,
    };
    match read_all(options, &mut context, &mut session, source) {
        Ok(()) => done_or_refused(session.refused),
        Err(stop) => Status::from(stop),
    }
}

/// The status of a session that has read its script to the end.
pub(crate) fn done_or_refused(refused: bool) -> Status
    ensures { result ≡ status_at_end refused }
{
    if refused {
        Status::Refused
    } else {
        Status::Done
    }
}
