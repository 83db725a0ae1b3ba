//! Why what is asked of a file is refused.
ghost use Rattle.std.specs.Prelude.{◌≡◌, ◌++◌, codes, decimal, IfOk, OnOk};
ghost use Rattle.oct_file_tasks.specs.Refusals.{refused, box_between};

use crate::pair_text::push_refusal;
use itoa::Buffer;
use oct_key::{Point, Res, Window};
use oct_num::Memory;
use oct_script as script;
use std::alloc::Global;

/// Why what is asked of a file is refused.
#[derive(Clone, Copy, Debug, PartialEq, Eq)]
pub enum Refusal {
    /// As a line of a script is: a point lies outside the map, or two points are no corners.
    Line(script::Refusal),
    /// A frontier has more than 1,000,000 voxels.
    TooManyFrontiers,
    /// A grid has more than 2^26 columns.
    WideGrid { count: u64 },
    /// Occupied space makes more than 1,000,000 boxes.
    TooManyBoxes { count: u64 },
}

/// Appends the line of a refusal that no line of a script has, by its number and its name.
fn push_named(line: &mut Vec<u8>, name: &[u8]) -> Result<(), Memory>
    ensures { OnOk result
        (line.new.items ≡ line.old.items ++ (codes "refused " ++ name.now ++ codes "\n")) }
{
    line.extend_from_slice(b"refused ")?;
    line.extend_from_slice(name)?;
    line.extend_from_slice(b"\n")?;
    Ok(())
}

/// The same with a number behind them.
fn push_counted(line: &mut Vec<u8>, name: &[u8], count: u64) -> Result<(), Memory>
    ensures { OnOk result (line.new.items
        ≡ line.old.items ++ (codes "refused " ++ (name.now ++ decimal count) ++ codes "\n")) }
{
    line.extend_from_slice(b"refused ")?;
    line.extend_from_slice(name)?;
    line.extend_from_slice(Buffer::new().format(count).as_bytes())?;
    line.extend_from_slice(b"\n")?;
    Ok(())
}

/// Appends the line of a refusal.
fn push_line(line: &mut Vec<u8>, refusal: Refusal) -> Result<(), Memory>
    ensures { OnOk result (line.new.items ≡ line.old.items ++ (refused refusal).text) }
{
    match refusal {
        Refusal::Line(refusal) => push_refusal(line, refusal),
        Refusal::TooManyFrontiers => push_named(line, b"37 TooManyFrontiers"),
        Refusal::WideGrid { count } => push_counted(line, b"38 WideGrid count ", count),
        Refusal::TooManyBoxes { count } => push_counted(line, b"39 TooManyBoxes count ", count),
    }
}

/// The line of a refusal.
pub fn line_of(alloc: Global, refusal: Refusal) -> Result<Vec<u8>, Memory>
    ensures { IfOk result (λ line. line.items ≡ (refused refusal).text) }
{
    let mut line = Vec::new(alloc);
    push_line(&mut line, refusal)?;
    Ok(line)
}

/// The box of the voxels of two points, or why there is none.
#[tactic(auto, unfolding(crate::specs::Refusals::box_between))]
pub fn box_between(res: Res, lo: Point, hi: Point) -> Result<Window, Refusal>
    ensures { result ≡ box_between res lo hi }
{
    let Some(low) = res.key_of(lo) else {
        return Err(Refusal::Line(script::Refusal::Outside { point: 1 }));
    };
    let Some(high) = res.key_of(hi) else {
        return Err(Refusal::Line(script::Refusal::Outside { point: 2 }));
    };
    Window::new(low, high).ok_or(Refusal::Line(script::Refusal::BadBox))
}
