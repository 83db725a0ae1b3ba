//! Scripts over a map that is lent, and what it is like after each way in which they end.
ghost use Rattle.std.specs.Prelude.{◌<◌, ◌≤◌, ◌^◌};

use oct_io::{
    FailingSink, FailingSource, FailingStore, FileBytes, KeptList, MemorySink, MemorySource,
    MemoryStore, Sink, Source, Status, Store,
};
use oct_key::{Point, Res};
use oct_map::{Limits, OccMap};
use oct_num::Memory;
use oct_odds::OddsModel;
use oct_query::Counts;
use oct_session::{Options, serve};
use std::alloc::Global;
use std::process::Abort;
use std::test::Fail;

mod files;
mod held;

/// A point of voxel 0.
const ORIGIN: Point = Point { x: 0, y: 0, z: 0 };

/// A point of voxel 1 of its row.
const BESIDE: Point = Point {
    x: 100_000_000,
    y: 0,
    z: 0,
};

/// Sessions at a resolution of 0.1 m, on scripts of at most `max_bytes` bytes.
fn options(max_bytes: u64) -> Result<Options, Fail>
    requires { max_bytes ≤ 2 ^ 40 }
{
    Ok(Options {
        res: Res::new(100_000_000)?,
        odds: OddsModel::default(),
        limits: Limits {
            max_groups: 1000,
            max_cells: 1000,
        },
        max_bytes,
    })
}

/// The list of this number alone.
fn only(alloc: Global, number: u64) -> Result<KeptList, Fail> {
    let mut list = KeptList::new(alloc);
    list.push(number)?;
    Ok(list)
}

/// How a session on the unknown world ends, and the map that it leaves.
fn ended<S: Source, K: Sink, F: Store>(
    alloc: Global,
    options: &Options,
    source: &mut S,
    sink: &mut K,
    store: &mut F,
) -> (Status, OccMap) {
    let mut map = options.new_map(alloc);
    let status = serve(alloc, options, &mut map, source, sink, store);
    (status, map)
}

/// How a session without files on the unknown world ends, and the map that it leaves.
fn ended_alone<S: Source, K: Sink>(
    alloc: Global,
    max_bytes: u64,
    source: &mut S,
    sink: &mut K,
) -> Result<(Status, OccMap), Fail>
    requires { max_bytes ≤ 2 ^ 40 }
{
    let options = options(max_bytes)?;
    let mut store = MemoryStore::new(alloc);
    Ok(ended(alloc, &options, source, sink, &mut store))
}

/// A source of a script in reads of this many bytes.
fn script(alloc: Global, text: &str, most: usize) -> Result<MemorySource, Memory>
    requires { 0 < most }
{
    Ok(MemorySource::new(FileBytes::from_slice(alloc, text.as_bytes())?, most))
}

/// Expects that a session ended so.
fn expect_status(rt: &impl Abort, status: Status, want: Status) {
    assert_eq!(rt; status, want);
}

/// Expects that a session on this script ended so, and what it wrote.
fn expect_answer(
    rt: &impl Abort,
    text: &str,
    (status, written): (Status, &[u8]),
    (want, replies): (Status, &str),
) {
    assert_eq!(rt; status, want, "{text}");
    assert_eq!(rt; written, replies.as_bytes(), "{text}");
}

/// Expects that the map has this many groups and nodes.
fn expect_counts(rt: &impl Abort, map: &mut OccMap, groups: u32, nodes: u64) {
    assert_eq!(rt; map.counts(), Counts { groups, nodes });
}

/// Expects that the voxels have these values, and that the map is stale or isn't.
fn expect_map(
    rt: &impl Abort,
    map: &OccMap,
    origin: Option<i32>,
    beside: Option<i32>,
    is_stale: bool,
) {
    assert_eq!(rt; map.get(ORIGIN, 16), Ok(origin));
    assert_eq!(rt; map.get(BESIDE, 16), Ok(beside));
    assert_eq!(rt; map.is_stale(), is_stale);
}

/// Expects that a script of at most this many bytes ends so, and that the map has then these values
/// and this many nodes, and is stale or isn't.
fn expect_end(
    rt: &impl Abort,
    alloc: Global,
    max_bytes: u64,
    want: Status,
    left: (Option<i32>, bool, u64),
) -> Result<(), Fail>
    requires { max_bytes ≤ 2 ^ 40 }
{
    let (beside, is_stale, nodes) = left;
    let text = "hit 0 0 0\nmiss 0.1 0 0 lazy\nget 0 0 0 0\nprune\n";
    let mut source = script(alloc, text, 7)?;
    let mut sink = MemorySink::new(alloc, 100);
    let (status, mut map) = ended_alone(alloc, max_bytes, &mut source, &mut sink)?;
    expect_status(rt, status, want);
    expect_map(rt, &map, Some(850), beside, is_stale);
    expect_counts(rt, &mut map, 16, nodes);
    Ok(())
}

#[test]
fn the_lent_map_stands_for_all_lines_that_count(rt: HostRuntime) -> Result<(), Fail> {
    let all = (Some(-400), true, 18);
    expect_end(&rt, rt.alloc(), 1000, Status::Refused, all)?;
    let first = (None, false, 17);
    expect_end(&rt, rt.alloc(), 20, Status::TooLong, first)?;
    Ok(())
}

#[test]
fn the_lent_map_stands_for_the_lines_before_a_fault(rt: HostRuntime) -> Result<(), Fail> {
    let text = b"hit 0 0 0 lazy\nrefresh\nhit 0.1 0 0\nmiss 0 0";
    let bytes = FileBytes::from_slice(rt.alloc(), text)?;
    let mut source = FailingSource::new(bytes, 100, only(rt.alloc(), 2)?);
    let mut sink = MemorySink::new(rt.alloc(), 100);
    let (status, map) = ended_alone(rt.alloc(), 1000, &mut source, &mut sink)?;
    expect_status(&rt, status, Status::ReadFault);
    expect_map(&rt, &map, Some(850), Some(850), false);
    Ok(())
}

/// Eight voxels that are hit lazily, in a group of their own below fifteen others, and a prune.
const PRUNED: &str = "hit 0 0 0 lazy\nhit 0.1 0 0 lazy\nhit 0 0.1 0 lazy\nhit 0.1 0.1 0 lazy\n\
    hit 0 0 0.1 lazy\nhit 0.1 0 0.1 lazy\nhit 0 0.1 0.1 lazy\nhit 0.1 0.1 0.1 lazy\nprune\n";

/// Expects that this script of at most this many bytes leaves a tree of so many groups.
fn expect_groups(rt: &impl Abort, alloc: Global, max_bytes: u64, want: u32) -> Result<(), Fail>
    requires { max_bytes ≤ 2 ^ 40 }
{
    let mut source = script(alloc, PRUNED, 100)?;
    let mut sink = MemorySink::new(alloc, 100);
    let (_, map) = ended_alone(alloc, max_bytes, &mut source, &mut sink)?;
    assert_eq!(rt; map.tree().arena().live(), want);
    Ok(())
}

#[test]
fn prune_gives_back_the_group_of_eight_equal_voxels(rt: HostRuntime) -> Result<(), Fail> {
    // One byte less, and the last line is left out.
    expect_groups(&rt, rt.alloc(), 149, 16)?;
    expect_groups(&rt, rt.alloc(), 150, 15)
}

/// The statuses, their numbers and their names.
const STATUSES: &[(Status, u8, &str)] = &[
    (Status::Done, 0, "done"),
    (Status::Refused, 1, "refused"),
    (Status::Usage, 2, "usage"),
    (Status::BadFile, 3, "bad file"),
    (Status::TooLong, 4, "input too long"),
    (Status::ReadFault, 5, "read fault"),
    (Status::WriteFault, 6, "write fault"),
    (Status::Memory, 7, "out of memory"),
    (Status::StoreFault, 8, "store fault"),
];

#[test]
fn statuses_have_their_numbers_and_names(rt: HostRuntime) -> Result<(), Fail> {
    for (status, number, name) in STATUSES {
        let text = format!(in rt.alloc(); "{status}")?;
        assert_eq!(rt; text.as_str(), *name);
        assert_eq!(rt; *status as u8, *number);
    }
    Ok(())
}
