//! What commands do to the map, and what they answer.
ghost use Rattle.std.specs.Prelude.{◌≡◌, ◌≢◌, ℕ, ◌+◌, OnErr, IfOk, Option, Some, IsSome, Ok, Err};
ghost use Rattle.oct_odds.specs.Odds.{odds_of};
ghost use Rattle.oct_odds.specs.Update.{IsSmallEvent};
ghost use Rattle.oct_map.specs.Edits.{IsSureOf};
ghost use Rattle.oct_map.specs.Map.{Map};
ghost use Rattle.oct_map.specs.declared.fault.MapFault.{MapFault};
ghost use Rattle.oct_script.specs.Commands.{IsSmallEdit};
ghost use Rattle.oct_session.specs.Ahead.{IsPlaced, order_of};
ghost use Rattle.oct_session.specs.History.{edit_event};
ghost use Rattle.oct_session.specs.Commands.{cast_reply, get_reply, list_reply, value_reply};
ghost use Rattle.oct_session.specs.Kinds.{IsSmallOrder};
ghost use Rattle.oct_session.specs.Refusals.{refusal_of, fault_reply};
ghost use Rattle.oct_session.specs.Standing.{with_reply, HasCarriedOut, HasObeyed};
ghost use Rattle.oct_session.specs.Standing.{HasScanned, HasTold, Tells};
ghost use Rattle.oct_session.specs.MapMemory.{OrderTakesMemory, QuestionTakesMemory};
ghost use Rattle.oct_session.specs.MapMemory.{BlockTakesMemory};

use crate::ahead::VoxelEdit;
use crate::kinds::{Order, Question};
use crate::scan_block::{PendingScan, ScanBlock};
use oct_cast::Cast;
use oct_map::{MapFault, OccMap};
use oct_num::Memory;
use oct_odds::{Event, OddsModel};
use oct_query::BlockList;
use oct_script::{Edit, Refusal, Reply, ScanDone};

/// The event of an edit.
fn event_of(odds: &OddsModel, e: Edit) -> Event
    requires { IsSmallEdit e }
    ensures exact { result ≡ edit_event (odds_of odds.now) e }
    ensures small { IsSmallEvent result }
{
    match e {
        Edit::Hit => Event::Add(odds.hit),
        Edit::Miss => Event::Add(odds.miss),
        Edit::Add(change) => Event::Add(change),
        Edit::Set(value) => Event::Set(value),
        Edit::Forget => Event::Forget,
    }
}

/// The reply that shows a value.
fn show(odds: &OddsModel, value: Option<i32>) -> Reply
    ensures { result ≡ value_reply (odds_of odds.now) value }
{
    match value {
        None => Reply::Unknown,
        Some(known) => Reply::Known {
            value: known,
            class: odds.class(value),
        },
    }
}

/// What a refusal of the map says, unless memory ran out.
fn refusal_of(fault: MapFault) -> Result<Refusal, Memory>
    ensures ok { IfOk result (λ refusal. refusal_of fault ≡ Some refusal) }
    ensures err { OnErr result (fault ≡ MapFault.Memory) }
{
    match fault {
        MapFault::Outside { point } => Ok(Refusal::Outside { point }),
        MapFault::BadDepth => Ok(Refusal::BadDepth),
        MapFault::BadBox => Ok(Refusal::BadBox),
        MapFault::TooManyBlocks { count } => Ok(Refusal::TooManyBlocks { count }),
        MapFault::Stale => Ok(Refusal::Stale),
        MapFault::Full { groups, need } => Ok(Refusal::Full { groups, need }),
        MapFault::OriginOutside => Ok(Refusal::OriginOutside),
        MapFault::PointOutside { index } => Ok(Refusal::PointOutside { index }),
        MapFault::TooManyCells { index, cells } => Ok(Refusal::TooManyCells { index, cells }),
        MapFault::BadMagic => Ok(Refusal::BadMagic),
        MapFault::Truncated { at } => Ok(Refusal::Truncated { at }),
        MapFault::TrailingBytes { at } => Ok(Refusal::TrailingBytes { at }),
        MapFault::BadSnapshot { at } => Ok(Refusal::BadSnapshot { at }),
        MapFault::OtherResolution { file, session } => {
            Ok(Refusal::OtherResolution { file, session })
        }
        MapFault::WideWhileTracked { count } => Ok(Refusal::WideWhileTracked { count }),
        MapFault::NotTracked => Ok(Refusal::NotTracked),
        MapFault::Memory => Err(Memory),
    }
}

/// Answers a call that the map refuses, unless memory ran out.
pub fn refuse(fault: MapFault, reply: &mut Option<Reply>) -> Result<(), Memory>
    ensures ok { IfOk (with_reply result reply.new) (λ reply. reply ≡ fault_reply fault) }
    ensures some { IfOk (with_reply result reply.new) IsSome }
    ensures err { OnErr result (fault ≡ MapFault.Memory) }
{
    let refusal = refusal_of(fault)?;
    *reply = Some(Reply::Refused(refusal));
    Ok(())
}

/// Answers a call that takes no memory and that the map refuses.
fn refuse_without_memory(fault: MapFault, reply: &mut Option<Reply>)
    requires { fault ≢ MapFault.Memory }
    ensures { reply.new ≡ fault_reply fault }
{
    let Ok(refusal) = refusal_of(fault) else {
        unreachable!();
    };
    *reply = Some(Reply::Refused(refusal));
}

/// Answers `ok` to what the map has done, or why it refuses.
#[inline(always)]
fn acknowledge(done: Result<(), MapFault>, reply: &mut Option<Reply>) -> Result<(), Memory>
    ensures obeyed { (old new : Map) (order : Order) → HasCarriedOut old new order done
        → HasObeyed old new order (with_reply result reply.new) }
    ensures memory { OnErr result (done ≡ Err MapFault.Memory) }
{
    match done {
        Ok(()) => {
            *reply = Some(Reply::Ok);
            Ok(())
        }
        Err(fault) => refuse(fault, reply),
    }
}

/// Has the map do an edit that it is sure of.
pub fn edit_surely(map: &mut OccMap, edit: VoxelEdit)
    requires sure { (count : ℕ) × IsSureOf map.old (count + 1) }
    requires placed { IsPlaced map.old.tree.res edit }
    ensures done { HasCarriedOut map.old map.new (order_of edit) (Ok tt) }
    ensures sure { (count : ℕ) → IsSureOf map.old (count + 1) → IsSureOf map.new count }
    ensures res { map.new.tree.res ≡ map.old.tree.res }
{
    let event = event_of(&map.tree().odds(), edit.e);
    let Ok(()) = map.edit(edit.p, event, edit.lazy) else {
        unreachable!();
    };
}

/// Has the map do something, and puts its reply in its place. Without memory nothing was done.
pub fn execute(map: &mut OccMap, order: Order, reply: &mut Option<Reply>) -> Result<(), Memory>
    requires { IsSmallOrder order }
    ensures obeyed { HasObeyed map.old map.new order (with_reply result reply.new) }
    ensures memory { OnErr result (OrderTakesMemory map.old order) }
{
    match order {
        Order::Edit { p, e, lazy } => {
            let event = event_of(&map.tree().odds(), e);
            acknowledge(map.edit(p, event, lazy), reply)
        }
        Order::Box { lo, hi, e } => {
            let event = event_of(&map.tree().odds(), e);
            acknowledge(map.edit_box(lo, hi, event), reply)
        }
        Order::Limit { lo, hi } => acknowledge(map.limit(lo, hi), reply),
        Order::NoLimit => {
            map.no_limit();
            acknowledge(Ok(()), reply)
        }
        Order::Refresh => {
            map.refresh();
            acknowledge(Ok(()), reply)
        }
        Order::Prune => {
            map.prune();
            acknowledge(Ok(()), reply)
        }
        Order::Clear => {
            map.clear();
            acknowledge(Ok(()), reply)
        }
        Order::MaxLik => {
            map.max_likelihood();
            acknowledge(Ok(()), reply)
        }
        Order::Track => {
            map.track();
            acknowledge(Ok(()), reply)
        }
        Order::Untrack => {
            map.untrack();
            acknowledge(Ok(()), reply)
        }
    }
}

/// Answers the value that the map has found of a block.
fn tell_value(odds: &OddsModel, found: Result<Option<i32>, MapFault>, reply: &mut Option<Reply>)
    requires { found ≢ Err MapFault.Memory }
    ensures { reply.new ≡ get_reply (odds_of odds.now) found }
{
    match found {
        Ok(value) => *reply = Some(show(odds, value)),
        Err(fault) => refuse_without_memory(fault, reply),
    }
}

/// Answers what the map has found on a straight way.
fn tell_found(found: Result<Cast, MapFault>, reply: &mut Option<Reply>)
    requires { found ≢ Err MapFault.Memory }
    ensures { reply.new ≡ cast_reply found }
{
    match found {
        Ok(found) => *reply = Some(Reply::Casted(found)),
        Err(fault) => refuse_without_memory(fault, reply),
    }
}

/// Answers the blocks that the map has listed, where values from a threshold on are occupied.
fn tell_blocks(
    listed: Result<BlockList, MapFault>,
    threshold: i32,
    reply: &mut Option<Reply>,
) -> Result<(), Memory>
    ensures ok { IfOk (with_reply result reply.new) (λ reply. reply ≡ list_reply threshold listed) }
    ensures some { IfOk (with_reply result reply.new) IsSome }
    ensures err { OnErr result (listed ≡ Err MapFault.Memory) }
{
    match listed {
        Ok(blocks) => {
            *reply = Some(Reply::Blocks { blocks, threshold });
            Ok(())
        }
        Err(fault) => refuse(fault, reply),
    }
}

/// Asks what has changed since the mark, and answers it.
fn changes(map: &OccMap, reply: &mut Option<Reply>) -> Result<(), Memory>
    ensures told { HasTold map.now map.now Question.Changes (with_reply result reply.new) }
    ensures memory { OnErr result (QuestionTakesMemory map.now Question.Changes) }
{
    match map.changes() {
        Ok(changes) => {
            *reply = Some(Reply::Changed(changes));
            Ok(())
        }
        Err(fault) => refuse(fault, reply),
    }
}

/// Counts the groups and nodes that the values need, and answers it.
fn count(map: &mut OccMap, reply: &mut Option<Reply>)
    ensures { Tells map.old map.new Question.Counts reply.new }
{
    let counts = map.counts();
    *reply = Some(Reply::Counted(counts));
}

/// Asks the map something, and puts its reply in its place. Without memory nothing was done.
pub fn ask(map: &mut OccMap, question: Question, reply: &mut Option<Reply>) -> Result<(), Memory>
    ensures told { HasTold map.old map.new question (with_reply result reply.new) }
    ensures memory { OnErr result (QuestionTakesMemory map.old question) }
{
    match question {
        Question::List { lo, hi, depth } => {
            let threshold = map.tree().odds().thr;
            return tell_blocks(map.list(lo, hi, depth), threshold, reply);
        }
        Question::Changes => return changes(map, reply),
        Question::Get { p, depth } => {
            tell_value(&map.tree().odds(), map.get(p, depth), reply);
        }
        Question::Cast { o, e, ignore } => tell_found(map.cast(o, e, ignore), reply),
        Question::Counts => count(map, reply),
    }
    Ok(())
}

/// Does a scan whose points have all been read, and answers it.
fn scan(map: &mut OccMap, pending: PendingScan, reply: &mut Option<Reply>) -> Result<(), Memory>
    ensures scanned { HasScanned map.old map.new (ScanBlock.Scanning pending)
        (with_reply result reply.new) }
    ensures memory { OnErr result (BlockTakesMemory map.old (ScanBlock.Scanning pending)) }
{
    let lazy = pending.is_lazy();
    let Ok(scan) = pending.into_scan() else {
        *reply = Some(Reply::Refused(Refusal::ZeroQuaternion));
        return Ok(());
    };
    match map.scan(&scan, lazy) {
        Ok(done) => {
            *reply = Some(Reply::Scanned(ScanDone {
                hits: done.hits,
                frees: done.frees,
            }));
            Ok(())
        }
        Err(fault) => refuse(fault, reply),
    }
}

/// Does what a block says that its `end` has closed, and puts its one reply in its place. Without
/// memory nothing was done.
pub fn finish(map: &mut OccMap, block: ScanBlock, reply: &mut Option<Reply>) -> Result<(), Memory>
    ensures scanned { HasScanned map.old map.new block (with_reply result reply.new) }
    ensures memory { OnErr result (BlockTakesMemory map.old block) }
{
    match block {
        ScanBlock::Spoilt(refusal) => {
            *reply = Some(Reply::Refused(refusal));
            Ok(())
        }
        ScanBlock::Scanning(pending) => scan(map, pending, reply),
    }
}
