//! Builds: a script in, and the file of the map that it leaves out.
ghost use Rattle.std.specs.Prelude.{◌≡◌, IfSome, None};
ghost use Rattle.oct_session.specs.Building.{has_ended, HasBuiltAs, IsUnasked};
ghost use Rattle.oct_session.specs.History.{start_state};
ghost use Rattle.oct_session.specs.Leaving.{StandsFor, desk, RunsScript};
ghost use Rattle.oct_io.specs.Shelf.{shelf};
ghost use Rattle.oct_session.specs.Session.{ReadsTold};

use crate::options::Options;
use crate::service::serve;
use oct_bt::write;
use oct_io::{Sink, SinkFault, Source, Status, Store, status_written};
use oct_map::OccMap;
use std::alloc::Global;

/// Takes all bytes, and keeps none.
#[derive(Drop)]
pub(crate) struct Discard {}

impl Sink for Discard {
    ghost written = { λ _. None };

    ghost faults = { λ _. 0 };

    ghost shortages = { λ _. 0 };

    fn write(&mut self, piece: &[u8]) -> Result<usize, SinkFault> {
        Ok(piece.len())
    }
}

/// Whether a script has ended with this status, so that its map is written.
fn has_ended(status: Status) -> bool
    ensures { result ≡ has_ended status }
{
    matches!(status, Status::Done | Status::Refused)
}

/// Does a script on the map that it is lent, as [`serve`] does, and writes the file of the classes
/// that the map then has, in place of the replies.
///
/// Nothing is written before the script has ended, by its end or its `quit`. The clause `ends`
/// says, status by status, what is written and what is left of the input (`answer`), what map and
/// files then stand for (`leaves`), and how often the store is asked (`asked`); it speaks where
/// that of [`serve`] does. A fault comes only where the count of that object rose in this call.
pub fn build<S: Source, K: Sink, F: Store>(
    alloc: Global,
    options: &Options,
    map: &mut OccMap,
    source: &mut S,
    sink: &mut K,
    store: &mut F,
) -> Status
    requires { StandsFor map.old (start_state options.now) }
    ensures ends { IfSome (S.left source.old) (λ bytes.
        ReadsTold options.now (F.files store.old) bytes
        → HasBuiltAs options.now (F.files store.old) bytes (S.left source.new)
        (K.written sink.old) (K.written sink.new)
        (desk map.new (shelf F.files F.calls store.old store.new)) result) }

    // Nothing is asked of the sink before the script has ended.
    ensures waits { IsUnasked result (sink.new ≡ sink.old) }

    // A fault is met once and ends the build.
    ensures runs { RunsScript S.Source K.Sink F.Store options.now map.new source.old source.new
        sink.old sink.new store.old store.new result }
{
    let ended = serve(alloc, options, map, source, &mut Discard {}, store);
    if has_ended(ended) {
        let written = write(map.tree(), sink);
        status_written(ended, written)
    } else {
        ended
    }
}
