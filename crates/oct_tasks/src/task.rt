//! What the words of the command line ask for.
ghost use Rattle.std.specs.Prelude.{◌≡◌, ◌≤◌, ◌^◌, option_map, Option, Some, None, IfOk, IfSome};
ghost use Rattle.std.specs.Result.{result_ok};
ghost use Rattle.oct_odds.specs.Odds.{odds_of, IsSmall};
ghost use Rattle.oct_tasks.specs.Words.{bytes_of};
ghost use Rattle.oct_tasks.specs.Task.{IsInRange, file_bytes, file_number, point_of, stretch_of};
ghost use Rattle.oct_tasks.specs.Task.{merge_asked, table_asked, table_between, store_task_of};
ghost use Rattle.oct_tasks.specs.Task.{rule_of, workload_of, options_asked, task_by};
ghost use Rattle.oct_tasks.specs.Task.{resolution_of, count_of, chosen_number, chosen_count};
ghost use Rattle.oct_tasks.specs.Task.{chosen_model, chosen_groups, chosen_cells, chosen_bytes};
ghost use Rattle.oct_tasks.specs.Task.{setup_asked, task_of};
ghost use Rattle.oct_tasks.specs.Meant.{meant_task};
ghost use Rattle.oct_tasks.specs.Task as meant;
ghost use Rattle.oct_file_tasks.specs.declared.store_task.PairTask.TheVariants.{Merge};

use crate::words::{are_options, value_of};
use oct_file_tasks::{FileTask, PairTask, StoreTask};
use oct_key::{Point, Res};
use oct_map::Limits;
use oct_merge::Rule;
use oct_num::{read_metres, read_whole};
use oct_odds::OddsModel;
use oct_script::{Name, number_of};
use oct_session::{MOST_BYTES, Options};
use thiserror::Error;

/// The numbers that a word may spell, both ends included.
#[derive(Clone, Copy)]
struct Range {
    low: u64,
    high: u64,
}

/// The numbers that an option may choose, and the one that stands where it isn't given.
#[derive(Clone, Copy)]
struct Choice {
    numbers: Range,
    default: u64,
    ghost above: { numbers.low ≤ default },
    ghost below: { default ≤ numbers.high },
}

/// How many groups a map may have: at least those that one edit may need.
const GROUPS: Choice = Choice {
    numbers: Range {
        low: 16,
        high: 1 << 26,
    },
    default: 1 << 24,
};

/// How many voxels a scan may meet.
const CELLS: Choice = Choice {
    numbers: Range {
        low: 1,
        high: 1 << 27,
    },
    default: 1 << 26,
};

/// How many bytes a script may have.
const BYTES: Choice = Choice {
    numbers: Range {
        low: 0,
        high: MOST_BYTES,
    },
    default: MOST_BYTES,
};

/// How many bytes a file may have that a task reads from its input.
const FILE_BYTES: Choice = Choice {
    numbers: Range {
        low: 0,
        high: 1 << 32,
    },
    default: 1 << 26,
};

/// The seeds of a script: one to eighteen digits.
const SEEDS: Range = Range {
    low: 0,
    high: 1_000_000_000_000_000_000,
};

/// How many scans a script may have that a number makes.
const SCANS: Range = Range { low: 0, high: 1000 };

/// How many points each of its scans may have.
const POINTS: Range = Range {
    low: 0,
    high: 100_000,
};

/// A script that a number makes: of which seed, and of how many scans of how many points each.
#[derive(Clone, Copy)]
pub(crate) struct Workload {
    pub(crate) seed: u64,
    pub(crate) scans: u32,
    pub(crate) points: u32,
}

/// Two points, and the most bytes of the file of which something is asked between them.
#[derive(Clone, Copy)]
pub(crate) struct Stretch {
    pub(crate) lo: Point,
    pub(crate) hi: Point,
    pub(crate) max_bytes: u64,
}

/// A task of the program.
#[derive(Debug, Drop)]
pub enum Task {
    /// A script from the input, and its replies to the output.
    Session(Options),
    /// A script from the input, and the file of the map that it leaves to the output.
    Build(Options),
    /// A file of classes from the input, and what is asked of it to the output.
    OverFile { task: FileTask, max_bytes: u64 },
    /// Two files of the store, and what is asked of both to the output.
    OverStore(StoreTask),
    /// The script that a seed makes, of this many scans of this many points each, to the output.
    Gen { seed: u64, scans: u32, points: u32 },
    /// The session over such a script, and four lines about it to the output.
    Drill { seed: u64, scans: u32, points: u32 },
}

/// The words ask for no task.
#[derive(Clone, Copy, Debug, PartialEq, Eq, Error)]
#[error("usage")]
pub struct Usage;

/// Reads a resolution, a length in metres.
fn read_resolution(word: &[u8]) -> Option<Res>
    ensures { result ≡ resolution_of word.now }
{
    let nm = read_metres(word).ok()?;
    Res::new(nm).ok()
}

/// Reads one of these numbers: one to eighteen digits.
fn read_count(word: &[u8], numbers: Range) -> Option<u64>
    ensures exact { result ≡ count_of numbers.low numbers.high word.now }
    ensures within { IfSome result (λ n. (numbers.low ≤ n) × (n ≤ numbers.high)) }
{
    if word.first() == Some(&b'-') {
        return None;
    }
    let n = u64::try_from(read_whole(word)?).ok()?;
    if n < numbers.low || n > numbers.high {
        None
    } else {
        Some(n)
    }
}

/// The log-odds that an option of this name chooses.
fn choose_number(words: &[String], name: &[u8], default: i32) -> Option<i32>
    requires { IsSmall default }
    ensures exact { result ≡ chosen_number (bytes_of words.now) name.now default }
    ensures small { IfSome result IsSmall }
{
    match value_of(words, name) {
        None => Some(default),
        Some(word) => number_of(word),
    }
}

/// The model that the options choose.
#[tactic(auto, unfolding(crate::specs::Task::chosen_model))]
fn choose_model(words: &[String]) -> Option<OddsModel>
    ensures { option_map odds_of result ≡ chosen_model (bytes_of words.now) }
{
    let default = OddsModel::default();
    let hit = choose_number(words, b"--hit", default.hit)?;
    let miss = choose_number(words, b"--miss", default.miss)?;
    let min = choose_number(words, b"--min", default.min)?;
    let max = choose_number(words, b"--max", default.max)?;
    let thr = choose_number(words, b"--thr", default.thr)?;
    OddsModel::new(hit, miss, min, max, thr).ok()
}

/// The number that an option of this name chooses.
fn choose_count(words: &[String], name: &[u8], choice: Choice) -> Option<u64>
    ensures exact { result ≡ chosen_count
        (bytes_of words.now) name.now choice.default choice.numbers.low choice.numbers.high }
    ensures within { IfSome result
        (λ n. (choice.numbers.low ≤ n) × (n ≤ choice.numbers.high)) }
{
    match value_of(words, name) {
        None => Some(choice.default),
        Some(word) => read_count(word, choice.numbers),
    }
}

/// The most groups of the map that the options choose.
#[tactic(auto, unfolding(crate::specs::Task::chosen_groups))]
fn choose_groups(words: &[String]) -> Option<u32>
    ensures exact { result ≡ chosen_groups (bytes_of words.now) }
    ensures within { IfSome result (λ n. (16 ≤ n) × (n ≤ 2 ^ 26)) }
{
    let groups = choose_count(words, b"--max-groups", GROUPS)?;
    Some(groups as u32)
}

/// The most voxels that a scan may meet, as the options choose.
#[tactic(auto, unfolding(crate::specs::Task::chosen_cells))]
fn choose_cells(words: &[String]) -> Option<u64>
    ensures exact { result ≡ chosen_cells (bytes_of words.now) }
    ensures within { IfSome result (λ n. (1 ≤ n) × (n ≤ 2 ^ 27)) }
{
    choose_count(words, b"--max-cells", CELLS)
}

/// The most bytes of a script that the options choose.
#[tactic(auto, unfolding(crate::specs::Task::chosen_bytes))]
fn choose_bytes(words: &[String]) -> Option<u64>
    ensures exact { result ≡ chosen_bytes (bytes_of words.now) }
    ensures few { IfSome result (λ n. n ≤ 2 ^ 40) }
{
    choose_count(words, b"--max-bytes", BYTES)
}

/// Reads the options of a session at a resolution.
fn read_options(res: &[u8], words: &[String]) -> Option<Options>
    ensures { result ≡ setup_asked res.now (bytes_of words.now) }
{
    Some(Options {
        res: read_resolution(res)?,
        odds: choose_model(words)?,
        limits: Limits {
            max_groups: choose_groups(words)?,
            max_cells: choose_cells(words)?,
        },
        max_bytes: choose_bytes(words)?,
    })
}

/// Reads the words after `session` or `build`: RES, and pairs of an option and its value, in any
/// order, each option at most once.
fn read_setup(words: &[String]) -> Option<Options>
    ensures { result ≡ options_asked (bytes_of words.now) }
{
    let [res, options @ ..] = words else {
        return None;
    };
    if !are_options(options) {
        return None;
    }
    read_options(res.as_bytes(), options)
}

/// Reads the number of a file's bytes, which is the only word.
fn read_file_number(words: &[String]) -> Option<u64>
    ensures exact { result ≡ file_number (bytes_of words.now) }
    ensures few { IfSome result (λ n. n ≤ 2 ^ 32) }
{
    match words {
        [word] => read_count(word.as_bytes(), FILE_BYTES.numbers),
        _ => None,
    }
}

/// Reads the words after `convert`, `inspect` or `vrml`: none, or `--max-bytes` and a number.
fn read_file_bytes(words: &[String]) -> Option<u64>
    ensures exact { result ≡ file_bytes (bytes_of words.now) }
    ensures few { IfSome result (λ n. n ≤ 2 ^ 32) }
{
    let [name, rest @ ..] = words else {
        return Some(FILE_BYTES.default);
    };
    if name.as_bytes() == b"--max-bytes".as_slice() {
        read_file_number(rest)
    } else {
        None
    }
}

/// Reads a point, by three words.
fn read_point(x: &[u8], y: &[u8], z: &[u8]) -> Option<Point>
    ensures { result ≡ point_of x.now y.now z.now }
{
    Some(Point {
        x: read_metres(x).ok()?,
        y: read_metres(y).ok()?,
        z: read_metres(z).ok()?,
    })
}

/// Reads the words after `frontier` or `project`: two points, and after them what stands after
/// `convert`.
fn read_stretch(words: &[String]) -> Option<Stretch>
    ensures exact { result ≡ stretch_of (bytes_of words.now) }
    ensures few { IfSome result (λ stretch. stretch.max_bytes ≤ 2 ^ 32) }
{
    let [a, b, c, d, e, f, rest @ ..] = words else {
        return None;
    };
    Some(Stretch {
        lo: read_point(a.as_bytes(), b.as_bytes(), c.as_bytes())?,
        hi: read_point(d.as_bytes(), e.as_bytes(), f.as_bytes())?,
        max_bytes: read_file_bytes(rest)?,
    })
}

/// Reads a rule, by its name.
fn read_rule(word: &[u8]) -> Option<Rule>
    ensures { result ≡ rule_of word.now }
{
    if word == b"greatest".as_slice() {
        Some(Rule::Greatest)
    } else if word == b"least".as_slice() {
        Some(Rule::Least)
    } else if word == b"first".as_slice() {
        Some(Rule::First)
    } else {
        None
    }
}

/// Reads the names of a task over two files, of which it is known what is asked.
#[tactic(auto, unfolding(crate::specs::Task::store_task_of))]
fn read_store_task(first: &[u8], second: &[u8], asks: Option<PairTask>) -> Option<StoreTask>
    ensures { result ≡ store_task_of first.now second.now asks }
{
    Some(StoreTask {
        first: Name::new(first)?,
        second: Name::new(second)?,
        asks: asks?,
    })
}

/// Reads what is asked of two files that are merged.
fn read_merge_rule(word: &[u8]) -> Option<PairTask>
    ensures { result ≡ option_map Merge (rule_of word.now) }
{
    Some(PairTask::Merge(read_rule(word)?))
}

/// Reads the words after `merge`: a rule and two names.
fn read_merge(words: &[String]) -> Option<StoreTask>
    ensures { result ≡ merge_asked (bytes_of words.now) }
{
    let [rule, first, second] = words else {
        return None;
    };
    let asks = read_merge_rule(rule.as_bytes());
    read_store_task(first.as_bytes(), second.as_bytes(), asks)
}

/// Reads the points of a table.
fn read_table_points(words: &[String]) -> Option<PairTask>
    ensures { result ≡ table_between (bytes_of words.now) }
{
    let [a, b, c, d, e, f] = words else {
        return None;
    };
    Some(PairTask::Table {
        lo: read_point(a.as_bytes(), b.as_bytes(), c.as_bytes())?,
        hi: read_point(d.as_bytes(), e.as_bytes(), f.as_bytes())?,
    })
}

/// Reads the words after `table`: two names and two points.
fn read_table(words: &[String]) -> Option<StoreTask>
    ensures { result ≡ table_asked (bytes_of words.now) }
{
    let [first, second, points @ ..] = words else {
        return None;
    };
    let asks = read_table_points(points);
    read_store_task(first.as_bytes(), second.as_bytes(), asks)
}

/// Reads the words after `gen` or `drill`: SEED, SCANS and POINTS.
fn read_workload(words: &[String]) -> Option<Workload>
    ensures exact { result ≡ workload_of (bytes_of words.now) }
    ensures small { IfSome result (λ load. (load.scans ≤ 1000) × (load.points ≤ 100000)) }
{
    let [seed, scans, points] = words else {
        return None;
    };
    Some(Workload {
        seed: read_count(seed.as_bytes(), SEEDS)?,
        scans: read_count(scans.as_bytes(), SCANS)? as u32,
        points: read_count(points.as_bytes(), POINTS)? as u32,
    })
}

/// The task that writes such a script.
fn gen_task(load: Workload) -> Task
    ensures { result ≡ Task.Gen load.seed load.scans load.points }
{
    Task::Gen {
        seed: load.seed,
        scans: load.scans,
        points: load.points,
    }
}

/// The task that does such a script, and writes four lines about it.
fn drill_task(load: Workload) -> Task
    ensures { result ≡ Task.Drill load.seed load.scans load.points }
{
    Task::Drill {
        seed: load.seed,
        scans: load.scans,
        points: load.points,
    }
}

/// Reads the words after the name of a task over a file that has no points.
fn read_file_task(task: FileTask, words: &[String]) -> Option<Task>
    ensures exact { option_map meant_task result
        ≡ option_map (meant.OverFile task) (file_bytes (bytes_of words.now)) }
    ensures few { IfSome result (λ task. IsInRange (meant_task task)) }
{
    let max_bytes = read_file_bytes(words)?;
    Some(Task::OverFile { task, max_bytes })
}

/// Reads the words after the name of a task.
fn read_task(name: &[u8], words: &[String]) -> Option<Task>
    ensures exact { option_map meant_task result ≡ task_by name.now (bytes_of words.now) }
    ensures few { IfSome result (λ task. IsInRange (meant_task task)) }
{
    if name == b"session".as_slice() {
        Some(Task::Session(read_setup(words)?))
    } else if name == b"build".as_slice() {
        Some(Task::Build(read_setup(words)?))
    } else if name == b"convert".as_slice() {
        read_file_task(FileTask::Convert, words)
    } else if name == b"inspect".as_slice() {
        read_file_task(FileTask::Inspect, words)
    } else if name == b"frontier".as_slice() {
        let Stretch { lo, hi, max_bytes } = read_stretch(words)?;
        let task = FileTask::Frontier { lo, hi };
        Some(Task::OverFile { task, max_bytes })
    } else if name == b"project".as_slice() {
        let Stretch { lo, hi, max_bytes } = read_stretch(words)?;
        let task = FileTask::Project { lo, hi };
        Some(Task::OverFile { task, max_bytes })
    } else if name == b"vrml".as_slice() {
        read_file_task(FileTask::Vrml, words)
    } else if name == b"merge".as_slice() {
        Some(Task::OverStore(read_merge(words)?))
    } else if name == b"table".as_slice() {
        Some(Task::OverStore(read_table(words)?))
    } else if name == b"gen".as_slice() {
        Some(gen_task(read_workload(words)?))
    } else if name == b"drill".as_slice() {
        Some(drill_task(read_workload(words)?))
    } else {
        None
    }
}

/// Reads the words of the command line, which don't have the program's own name: the name of a
/// task, and the words that it may have.
#[tactic(auto, unfolding(crate::specs::Task::task_of))]
pub fn read_words(words: &[String]) -> Result<Task, Usage>
    ensures exact { option_map meant_task (result_ok result) ≡ task_of (bytes_of words.now) }
    ensures few { IfOk result (λ task. IsInRange (meant_task task)) }
{
    let [name, rest @ ..] = words else {
        return Err(Usage);
    };
    read_task(name.as_bytes(), rest).ok_or(Usage)
}
