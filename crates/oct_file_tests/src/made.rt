//! Scripts that a second program wrote from the same numbers, in pieces of any length, and a sink
//! that fails.
ghost use Rattle.std.specs.Prelude.{◌≤◌};

use oct_gen::{Generator, gen_script, generate};
use oct_io::{FailingSink, KeptList, MemorySink, Sink, SinkFault, Source};
use oct_num::Memory;
use std::alloc::Global;
use std::process::Abort;
use std::test::Fail;

/// Seeds, how many scans of how many points, and their scripts.
const SCRIPTS: &[(u64, u32, u32, &str)] = &[
    (7, 0, 0, "# octomap gen 7 0 0\nquit\n"),
    (7, 0, 100_000, "# octomap gen 7 0 100000\nquit\n"),
    (
        u64::MAX,
        0,
        u32::MAX,
        "# octomap gen 18446744073709551615 0 4294967295\nquit\n",
    ),
    (
        1,
        1,
        0,
        "# octomap gen 1 1 0\nscan 1.623 0.736 -0.802 1 0 0 -2 8\nend\nquit\n",
    ),
    (
        1,
        1,
        2,
        "# octomap gen 1 1 2\nscan 1.623 0.736 -0.802 1 0 0 -2 8\np -4.77 -2.678 3.186\n\
            p -2.145 2.778 -0.864\nend\nquit\n",
    ),
    (
        0,
        2,
        1,
        "# octomap gen 0 2 1\nscan -0.17 -0.161 -0.962 1 0 0 -1 8\np 2.751 1.46 -3.803\nend\n\
            scan -1.092 -1.869 0.445 1 0 0 1 8\np 3.066 -2.062 -2.249\nend\nquit\n",
    ),
    (
        999_999_999_999_999_999,
        2,
        1,
        "# octomap gen 999999999999999999 2 1\nscan -0.703 -0.261 0.227 1 0 0 1 8\n\
            p 3.847 -1.51 4.972\nend\n\
            scan -0.148 1.671 -1.984 1 0 0 2 8\np 4.411 2.439 -2.668\nend\nquit\n",
    ),
];

/// The 64 bits of the hash by Fowler, Noll and Vo (FNV-1a) of a text.
fn hash_of(text: &[u8]) -> u64 {
    let mut hash = 0xcbf2_9ce4_8422_2325u64;
    for byte in text {
        hash = (hash ^ u64::from(*byte)).wrapping_mul(0x0100_0000_01b3);
    }
    hash
}

/// The script of a seed.
fn script(alloc: Global, seed: u64, scans: u32, points: u32) -> Result<Vec<u8>, Memory> {
    let mut text = Vec::new(alloc);
    gen_script(&mut text, seed, scans, points)?;
    Ok(text)
}

/// Expects that this is the script of a seed.
fn expect_script(
    rt: &impl Abort,
    alloc: Global,
    seed: u64,
    scans: u32,
    points: u32,
    want: &str,
) -> Result<(), Memory> {
    let text = script(alloc, seed, scans, points)?;
    assert_eq!(rt; text.as_slice(), want.as_bytes());
    Ok(())
}

/// Expects the scripts of a table.
fn expect_scripts(
    rt: &impl Abort,
    alloc: Global,
    cases: &[(u64, u32, u32, &str)],
) -> Result<(), Memory> {
    for (seed, scans, points, want) in cases {
        expect_script(rt, alloc, *seed, *scans, *points, want)?;
    }
    Ok(())
}

#[test]
fn writes_the_scripts_of_the_table(rt: HostRuntime) -> Result<(), Fail> {
    expect_scripts(&rt, rt.alloc(), SCRIPTS)?;
    Ok(())
}

/// Expects the length of the script of a seed, and its hash.
fn expect_hash(
    rt: &impl Abort,
    alloc: Global,
    (seed, scans, points): (u64, u32, u32),
    size: usize,
    hash: u64,
) -> Result<(), Memory> {
    let text = script(alloc, seed, scans, points)?;
    assert_eq!(rt; (text.len(), hash_of(&text)), (size, hash));
    Ok(())
}

#[test]
fn writes_what_a_second_program_writes(rt: HostRuntime) -> Result<(), Fail> {
    expect_hash(&rt, rt.alloc(), (1, 3, 50), 3338, 0xb774_dfe8_4595_431b)?;
    expect_hash(&rt, rt.alloc(), (0, 1000, 0), 38554, 0x0639_dc40_e451_7dfa)?;
    Ok(())
}

/// The script of seed 1 with three scans of 50 points.
fn middle_script(alloc: Global) -> Result<Vec<u8>, Memory> {
    script(alloc, 1, 3, 50)
}

/// Reads at most this many bytes, and appends them.
fn read_more(source: &mut Generator, text: &mut Vec<u8>, most: usize) -> Result<(), Memory>
    requires { most ≤ 4096 }
{
    let mut buffer = [0u8; 4096];
    if let Ok(count) = source.read(&mut buffer[..most]) {
        text.extend_from_slice(&buffer[..count])?;
    }
    Ok(())
}

/// The same script, by reads of this length.
fn read_all(alloc: Global, most: usize) -> Result<Vec<u8>, Memory>
    requires { most ≤ 4096 }
{
    let mut source = Generator::new(1, 3, 50);
    let mut text = Vec::new(alloc);
    for _ in 0u32..3400 {
        read_more(&mut source, &mut text, most)?;
    }
    Ok(text)
}

/// Expects that reads of this length give the same text.
fn expect_read(rt: &impl Abort, alloc: Global, most: usize, want: &[u8]) -> Result<(), Memory>
    requires { most ≤ 4096 }
{
    let text = read_all(alloc, most)?;
    assert_eq!(rt; text.as_slice(), want);
    Ok(())
}

#[test]
fn reads_of_any_length_give_the_same_text(rt: HostRuntime) -> Result<(), Fail> {
    let want = middle_script(rt.alloc())?;
    expect_read(&rt, rt.alloc(), 1, &want)?;
    expect_read(&rt, rt.alloc(), 7, &want)?;
    expect_read(&rt, rt.alloc(), 4096, &want)?;
    Ok(())
}

/// Expects how the writing of that script ends.
fn expect_end<K: Sink>(rt: &impl Abort, sink: &mut K, want: Result<(), SinkFault>) {
    assert_eq!(rt; generate(1, 3, 50, sink), want);
}

#[test]
fn a_sink_gets_the_same_text(rt: HostRuntime) -> Result<(), Fail> {
    let want = middle_script(rt.alloc())?;
    let mut sink = MemorySink::new(rt.alloc(), 1000);
    expect_end(&rt, &mut sink, Ok(()));
    assert_eq!(rt; sink.written(), want.as_slice());
    Ok(())
}

/// Numbers of writes of a byte that fail, how many bytes are written, and how that ends.
const ENDS: &[(u64, usize, Result<(), SinkFault>)] = &[
    (1, 0, Err(SinkFault::Failed)),
    (2, 1, Err(SinkFault::Failed)),
    (3338, 3337, Err(SinkFault::Failed)),
    (3339, 3338, Ok(())),
];

/// Expects how many bytes of a text are written where a write fails, and how that ends.
fn expect_prefix(
    rt: &impl Abort,
    alloc: Global,
    text: &[u8],
    number: u64,
    want: (usize, Result<(), SinkFault>),
) -> Result<(), Memory> {
    let mut fails = KeptList::new(alloc);
    fails.push(number)?;
    let mut sink = FailingSink::new(alloc, 1, fails);
    expect_end(rt, &mut sink, want.1);
    assert_eq!(rt; Some(sink.written()), text.get(..want.0));
    Ok(())
}

/// Expects what each failing write of a table leaves of a text, and how that ends.
fn expect_prefixes(
    rt: &impl Abort,
    alloc: Global,
    text: &[u8],
    cases: &[(u64, usize, Result<(), SinkFault>)],
) -> Result<(), Memory> {
    for (number, length, end) in cases {
        expect_prefix(rt, alloc, text, *number, (*length, *end))?;
    }
    Ok(())
}

#[test]
fn a_sink_that_fails_has_a_prefix(rt: HostRuntime) -> Result<(), Fail> {
    let text = middle_script(rt.alloc())?;
    expect_prefixes(&rt, rt.alloc(), &text, ENDS)?;
    Ok(())
}
