//! The line of a box.
ghost use Rattle.std.specs.Prelude.{◌≡◌, ◌+◌, ◌^◌, ◌<◌, ◌≤◌, ◌++◌};
ghost use Rattle.arrayvec.specs.ArrayString.{array_string_len};
ghost use Rattle.oct_key.specs.CubeOf.{cube_of};
ghost use Rattle.oct_key.specs.Voxel.{IsResolution};
ghost use Rattle.oct_num.specs.Sign.{sign_text};
ghost use Rattle.oct_export.specs.BoxTexts.{box_line, fine_text, middle_text, size_text};

use arrayvec::ArrayString;
use itoa::Buffer;
use oct_key::{Block, Res};
use oct_num::{fraction_text, metres_text};

/// How many ten-billionths a metre has.
const PER_METRE: u64 = 10_000_000_000;

/// Twice the number of voxels from the lowest face of the map to the origin.
const ORIGIN: u64 = 65_536;

/// Appends a length in ten-billionths of a metre, in metres.
fn push_fine(text: &mut ArrayString<32>, n: u64)
    requires { array_string_len text.old ≤ 1 }
    ensures { text.new.bytes ≡ text.old.bytes ++ fine_text n }
{
    text.push_str(Buffer::new().format(n / PER_METRE));
    text.push_str(fraction_text(10, n % PER_METRE).as_str());
}

/// A minus, or nothing.
fn sign_of(minus: bool) -> ArrayString<32>
    ensures { result.bytes ≡ sign_text minus }
{
    let mut text = ArrayString::new();
    if minus {
        text.push('-');
    }
    text
}

/// The middle of a block of this depth and number on an axis, in metres.
fn middle_of(edge: u64, depth: u8, number: u16) -> ArrayString<32>
    requires edge { IsResolution edge }
    requires depth { depth ≤ 16 }
    requires number { number < 2 ^ depth }
    ensures { result.bytes ≡ middle_text edge depth number }
{
    let side = 1u64 << (16 - depth);
    let faces = (2 * u64::from(number) + 1) * side;
    let mut text = sign_of(faces < ORIGIN);
    let gap = faces.abs_diff(ORIGIN) * edge;
    push_fine(&mut text, 5 * gap);
    text
}

/// The edge of a voxel, in nanometres.
fn edge_of(res: Res) -> u64
    ensures value { result ≡ res }
    ensures range { IsResolution result }
{
    res.nm() as u64
}

/// The edge of a block of this depth, in metres.
fn size_of(edge: u64, depth: u8) -> ArrayString<24>
    requires edge { IsResolution edge }
    requires depth { depth ≤ 16 }
    ensures { result.bytes ≡ size_text edge depth }
{
    let side = 1u64 << (16 - depth);
    let nm = side * edge;
    metres_text(nm as i64)
}

/// The line of a box.
pub(crate) fn line_of(res: Res, block: Block) -> ArrayString<256>
    ensures { result.bytes ≡ box_line res (cube_of block) }
{
    let edge = edge_of(res);
    let size = size_of(edge, block.depth);
    let mut text = ArrayString::new();
    text.push_str("Transform { translation ");
    text.push_str(middle_of(edge, block.depth, block.x).as_str());
    text.push_str(" ");
    text.push_str(middle_of(edge, block.depth, block.y).as_str());
    text.push_str(" ");
    text.push_str(middle_of(edge, block.depth, block.z).as_str());
    text.push_str(" children [ Shape { geometry Box { size ");
    text.push_str(size.as_str());
    text.push_str(" ");
    text.push_str(size.as_str());
    text.push_str(" ");
    text.push_str(size.as_str());
    text.push_str(" } } ] }\n");
    text
}
