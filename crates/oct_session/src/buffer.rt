//! Replies that are held until they are written: those of one read together, as long as no line
//! that may change the map, or that names a file, comes between them.
ghost use Rattle.std.specs.Prelude.{◌≡◌, ◌⊎◌, ◌<◌, [], ◌++◌, length, OnOk, OnErr, IsSome, false};
ghost use Rattle.oct_script.specs.Replies.{text_of};
ghost use Rattle.oct_session.specs.Commands.{may_change};
ghost use Rattle.oct_session.specs.Parsed.{command_in, IsSmallLine};
ghost use Rattle.oct_session.specs.Moments.{Passes};

use crate::lines::Parsed;
use oct_io::{Sink, SinkFault, write_all};
use oct_num::Memory;
use oct_script::{Reply, push_reply};

/// As many bytes of replies as are written at once.
pub const MOST_HELD: usize = 4096;

/// Appends the text of a reply. After an error the text is as it was.
pub fn append_reply(text: &mut Vec<u8>, reply: &Option<Reply>) -> Result<(), Memory>
    ensures ok { OnOk result (text.new.items ≡ text.old.items ++ text_of reply.now) }
    ensures err { OnErr result (IsSome reply.now) }
    ensures kept { OnErr result (text.new.items ≡ text.old.items) }
{
    match reply {
        Some(reply) => push_reply(text, reply),
        None => Ok(()),
    }
}

/// Writes the replies that are held. None is held afterwards, also after an error.
pub fn flush<K: Sink>(text: &mut Vec<u8>, sink: &mut K) -> Result<(), SinkFault>
    ensures passes { Passes K.Sink sink.old sink.new text.old.items text.new.items result }
    ensures empty { text.new.items ≡ [] }
{
    let written = write_all(sink, text);
    text.clear();
    written
}

/// Writes the replies that are held, before a line that may change the map, or names a file.
pub fn flush_before_change<K: Sink>(
    parsed: &Parsed,
    text: &mut Vec<u8>,
    sink: &mut K,
) -> Result<(), SinkFault>
    requires { IsSmallLine parsed.now }
    ensures passes { Passes K.Sink sink.old sink.new text.old.items text.new.items result }
    ensures clear { OnOk result
        ((text.new.items ≡ []) ⊎ (may_change (command_in parsed.now) ≡ false)) }
    ensures kept { may_change (command_in parsed.now) ≡ false → text.new.items ≡ text.old.items }
{
    if !parsed.may_change() {
        return Ok(());
    }
    flush(text, sink)
}

/// Writes the replies that are held, where they are many.
pub fn flush_if_full<K: Sink>(text: &mut Vec<u8>, sink: &mut K) -> Result<(), SinkFault>
    ensures passes { Passes K.Sink sink.old sink.new text.old.items text.new.items result }
    ensures few { OnOk result (length text.new.items < MOST_HELD) }
    ensures kept { length text.old.items < MOST_HELD → text.new.items ≡ text.old.items }
{
    if text.len() < MOST_HELD {
        return Ok(());
    }
    flush(text, sink)
}
