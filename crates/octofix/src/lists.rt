//! Blocks that are known.
ghost use Rattle.std.specs.Prelude.{◌≡◌, [], length, map, Ok, Err, IsOk};
ghost use Rattle.oct_map.specs.Answers.{IsAnswerOrMemory};
ghost use Rattle.oct_map.specs.declared.fault.MapFault.{MapFault};
ghost use Rattle.oct_query.specs.Shown.{shown_as};
ghost use Rattle.octofix.specs.Asked.{asked, told_each};
ghost use Rattle.octofix.specs.Buffers.{IsListTold, IsSomeList, count_left, filled, list_code};
ghost use Rattle.octofix.specs.Buffers.{list_left, room_code};
ghost use Rattle.octofix.specs.Codes.{answer_details};
ghost use Rattle.octofix.specs.Lists.{block_told, blocks_between, leaves_between};
ghost use Rattle.octofix.specs.Lists.{leaves_listed, leaves_sought, leaves_sought_in};
ghost use Rattle.octofix.specs.Lists.{leaves_told, listed, sought_listed};

use crate::bounds::sought_numbered;
use crate::handle::Octofix;
use crate::refusal::{DONE, Refusal, SMALL_BUFFER};
use crate::types::{Details, KnownBlock, PointNm};
use oct_map::{MapFault, OccMap};
use oct_query::{BlockList, Found, Sought};

impl KnownBlock {
    /// The same block and value.
    fn of(found: &Found) -> KnownBlock
        ensures { result ≡ block_told (shown_as found.now) }
    {
        let block = found.block;
        KnownBlock {
            depth: u16::from(block.depth),
            x: block.x,
            y: block.y,
            z: block.z,
            value: found.value,
        }
    }
}

/// Puts blocks into a buffer, and tells how many there are.
fn put_blocks(found: &[Found], blocks: &mut [KnownBlock], count: &mut usize) -> u32
    ensures code { result ≡ room_code (length blocks.old) (length found.now) }
    ensures blocks { blocks.new
        ≡ filled blocks.old (map block_told (map shown_as found.now)) }
    ensures count { count.new ≡ length found.now }
{
    *count = found.len();
    if blocks.len() < found.len() {
        return SMALL_BUFFER;
    }
    for (i, each) in found.iter().enumerate() {
        blocks[i] = KnownBlock::of(each);
    }
    DONE
}

/// The known blocks of a depth in a box.
fn blocks_between(
    map: &OccMap,
    low: &PointNm,
    high: &PointNm,
    depth: u32,
) -> Result<BlockList, MapFault>
    ensures answer { IsAnswerOrMemory (listed low.now high.now depth map.now) result }
    ensures memory { result ≡ Err MapFault.Memory → IsOk (listed low.now high.now depth map.now)
        × (listed low.now high.now depth map.now ≡ Ok [] → ⊥) }
{
    map.list(low.point(), high.point(), depth)
}

/// The leaves that meet a box.
fn leaves_between(map: &OccMap, low: &PointNm, high: &PointNm) -> Result<BlockList, MapFault>
    ensures answer { IsAnswerOrMemory (leaves_listed low.now high.now map.now) result }
    ensures memory { result ≡ Err MapFault.Memory
        → IsOk (leaves_listed low.now high.now map.now)
        × (leaves_listed low.now high.now map.now ≡ Ok [] → ⊥) }
{
    map.leaves_in(low.point(), high.point())
}

/// The leaves that are sought and meet a box.
fn sought_between(
    map: &OccMap,
    sought: Sought,
    low: &PointNm,
    high: &PointNm,
) -> Result<BlockList, MapFault>
    ensures answer { IsAnswerOrMemory (sought_listed sought low.now high.now map.now) result }
    ensures memory { result ≡ Err MapFault.Memory
        → IsOk (sought_listed sought low.now high.now map.now)
        × (sought_listed sought low.now high.now map.now ≡ Ok [] → ⊥) }
{
    map.leaves_of_in(low.point(), high.point(), sought)
}

/// Puts a list that the map answers into a buffer, and tells how many blocks there are.
fn tell_blocks(
    found: &Result<BlockList, MapFault>,
    blocks: &mut [KnownBlock],
    count: &mut usize,
) -> u32
    ensures code { result ≡ list_code (length blocks.old) (told_each block_told found.now) }
    ensures blocks { blocks.new ≡ list_left blocks.old (told_each block_told found.now) }
    ensures count { count.new ≡ count_left count.old (told_each block_told found.now) }
{
    match found {
        Ok(list) => put_blocks(list.as_slice(), blocks, count),
        Err(fault) => Refusal::Map(*fault).code(),
    }
}

/// What the answer to a list names.
fn details_of_list(found: &Result<BlockList, MapFault>) -> Details
    ensures { result ≡ answer_details (told_each block_told found.now) }
{
    match found {
        Ok(_) => Details::none(),
        Err(fault) => Refusal::Map(*fault).details(),
    }
}

/// Lists the known blocks of a depth in a box.
fn list(
    map: &OccMap,
    low: &PointNm,
    high: &PointNm,
    depth: u32,
    blocks: &mut [KnownBlock],
    count: &mut usize,
    details: &mut Details,
) -> u32
    ensures told { IsListTold (blocks_between low.now high.now depth map.now)
        (IsSomeList (blocks_between low.now high.now depth map.now)) result
        blocks.old blocks.new count.old count.new }
    ensures details { details.new
        ≡ answer_details (blocks_between low.now high.now depth map.now) }
{
    let found = blocks_between(map, low, high, depth);
    *details = details_of_list(&found);
    tell_blocks(&found, blocks, count)
}

/// Lists the leaves of a map.
fn leaves(map: &OccMap, blocks: &mut [KnownBlock], count: &mut usize) -> u32
    ensures { IsListTold (leaves_told map.now) (IsSomeList (leaves_told map.now)) result
        blocks.old blocks.new count.old count.new }
{
    tell_blocks(&map.leaves(), blocks, count)
}

/// Lists the leaves that meet a box.
fn leaves_in(
    map: &OccMap,
    low: &PointNm,
    high: &PointNm,
    blocks: &mut [KnownBlock],
    count: &mut usize,
    details: &mut Details,
) -> u32
    ensures told { IsListTold (leaves_between low.now high.now map.now)
        (IsSomeList (leaves_between low.now high.now map.now)) result
        blocks.old blocks.new count.old count.new }
    ensures details { details.new ≡ answer_details (leaves_between low.now high.now map.now) }
{
    let found = leaves_between(map, low, high);
    *details = details_of_list(&found);
    tell_blocks(&found, blocks, count)
}

/// Lists the leaves of a map that a number means.
fn leaves_of(map: &OccMap, sought: u32, blocks: &mut [KnownBlock], count: &mut usize) -> u32
    ensures { IsListTold (leaves_sought sought map.now) (IsSomeList (leaves_sought sought map.now))
        result blocks.old blocks.new count.old count.new }
{
    match sought_numbered(sought) {
        Some(sought) => tell_blocks(&map.leaves_of(sought), blocks, count),
        None => Refusal::BadArgument { index: 0 }.code(),
    }
}

/// Lists the leaves that a number means and that meet a box.
fn leaves_of_in(
    map: &OccMap,
    sought: u32,
    low: &PointNm,
    high: &PointNm,
    blocks: &mut [KnownBlock],
    count: &mut usize,
    details: &mut Details,
) -> u32
    ensures told { IsListTold (leaves_sought_in sought low.now high.now map.now)
        (IsSomeList (leaves_sought_in sought low.now high.now map.now)) result
        blocks.old blocks.new count.old count.new }
    ensures details { details.new
        ≡ answer_details (leaves_sought_in sought low.now high.now map.now) }
{
    match sought_numbered(sought) {
        Some(sought) => {
            let found = sought_between(map, sought, low, high);
            *details = details_of_list(&found);
            tell_blocks(&found, blocks, count)
        }
        None => Refusal::BadArgument { index: 0 }.tell(details),
    }
}

/// The known blocks of a depth that meet the box between two points, by ascending x, y and z.
#[unsafe(no_mangle)]
pub extern "C" fn octofix_list(
    handle: &mut Octofix,
    low: &PointNm,
    high: &PointNm,
    depth: u32,
    blocks: &mut [KnownBlock],
    count: &mut usize,
    details: &mut Details,
) -> u32
    ensures same { handle.new ≡ handle.old }
    ensures told { IsListTold (asked handle.old.slot.map (blocks_between low.now high.now depth))
        (IsSomeList (asked handle.old.slot.map (blocks_between low.now high.now depth))) result
        blocks.old blocks.new count.old count.new }
    ensures details { details.new
        ≡ answer_details (asked handle.old.slot.map (blocks_between low.now high.now depth)) }
{
    match handle.map_mut() {
        Ok(map) => list(map, low, high, depth, blocks, count, details),
        Err(refusal) => refusal.tell(details),
    }
}

/// The leaves of the map: the greatest blocks whose voxels are known and have one value, in the
/// order of the Morton codes of their first voxels.
#[unsafe(no_mangle)]
pub extern "C" fn octofix_leaves(
    handle: &mut Octofix,
    blocks: &mut [KnownBlock],
    count: &mut usize,
) -> u32
    ensures same { handle.new ≡ handle.old }
    ensures told { IsListTold (asked handle.old.slot.map leaves_told)
        (IsSomeList (asked handle.old.slot.map leaves_told)) result blocks.old blocks.new
        count.old count.new }
{
    match handle.map_mut() {
        Ok(map) => leaves(map, blocks, count),
        Err(refusal) => refusal.code(),
    }
}

/// The leaves of the map that meet the box between two points, in the same order.
#[unsafe(no_mangle)]
pub extern "C" fn octofix_leaves_in(
    handle: &mut Octofix,
    low: &PointNm,
    high: &PointNm,
    blocks: &mut [KnownBlock],
    count: &mut usize,
    details: &mut Details,
) -> u32
    ensures same { handle.new ≡ handle.old }
    ensures told { IsListTold (asked handle.old.slot.map (leaves_between low.now high.now))
        (IsSomeList (asked handle.old.slot.map (leaves_between low.now high.now))) result
        blocks.old blocks.new count.old count.new }
    ensures details { details.new
        ≡ answer_details (asked handle.old.slot.map (leaves_between low.now high.now)) }
{
    match handle.map_mut() {
        Ok(map) => leaves_in(map, low, high, blocks, count, details),
        Err(refusal) => refusal.tell(details),
    }
}

/// Those of the leaves of the map whose voxels are known (0), occupied (1) or free (2), in the same
/// order.
#[unsafe(no_mangle)]
pub extern "C" fn octofix_leaves_of(
    handle: &mut Octofix,
    sought: u32,
    blocks: &mut [KnownBlock],
    count: &mut usize,
) -> u32
    ensures same { handle.new ≡ handle.old }
    ensures told { IsListTold (asked handle.old.slot.map (leaves_sought sought))
        (IsSomeList (asked handle.old.slot.map (leaves_sought sought))) result blocks.old blocks.new
        count.old count.new }
{
    match handle.map_mut() {
        Ok(map) => leaves_of(map, sought, blocks, count),
        Err(refusal) => refusal.code(),
    }
}

/// Those of these leaves that meet the box between two points, in the same order.
#[unsafe(no_mangle)]
pub extern "C" fn octofix_leaves_of_in(
    handle: &mut Octofix,
    sought: u32,
    low: &PointNm,
    high: &PointNm,
    blocks: &mut [KnownBlock],
    count: &mut usize,
    details: &mut Details,
) -> u32
    ensures same { handle.new ≡ handle.old }
    ensures told { IsListTold (asked handle.old.slot.map (leaves_sought_in sought low.now high.now))
        (IsSomeList (asked handle.old.slot.map (leaves_sought_in sought low.now high.now))) result
        blocks.old blocks.new count.old count.new }
    ensures details { details.new
        ≡ answer_details (asked handle.old.slot.map (leaves_sought_in sought low.now high.now)) }
{
    match handle.map_mut() {
        Ok(map) => leaves_of_in(map, sought, low, high, blocks, count, details),
        Err(refusal) => refusal.tell(details),
    }
}
