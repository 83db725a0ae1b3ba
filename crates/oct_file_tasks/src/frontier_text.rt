//! The lines that list a frontier.
ghost use Rattle.std.specs.Prelude.{◌≡◌, ◌++◌, decimal, IfOk, OnOk};
ghost use Rattle.std.specs.List.{flat_map};
ghost use Rattle.oct_file_tasks.specs.Frontiers.{voxel_line, listing};

use itoa::Buffer;
use oct_key::Key;
use oct_num::Memory;
use std::alloc::Global;

/// Appends a number.
fn push_number(text: &mut Vec<u8>, n: u64) -> Result<(), Memory>
    ensures { OnOk result (text.new.items ≡ text.old.items ++ decimal n) }
{
    text.extend_from_slice(Buffer::new().format(n).as_bytes())?;
    Ok(())
}

/// Appends the line of a voxel.
fn push_voxel(text: &mut Vec<u8>, key: Key) -> Result<(), Memory>
    ensures { OnOk result (text.new.items ≡ text.old.items ++ voxel_line key) }
{
    text.extend_from_slice(b"frontier ")?;
    push_number(text, u64::from(key.x))?;
    text.extend_from_slice(b" ")?;
    push_number(text, u64::from(key.y))?;
    text.extend_from_slice(b" ")?;
    push_number(text, u64::from(key.z))?;
    text.extend_from_slice(b"\n")?;
    Ok(())
}

/// Appends a line for each voxel.
fn push_voxels(text: &mut Vec<u8>, keys: &[Key]) -> Result<(), Memory>
    ensures { OnOk result (text.new.items ≡ text.old.items ++ flat_map voxel_line keys.now) }
{
    for key in keys {
        push_voxel(text, *key)?;
    }
    Ok(())
}

/// A line for each voxel, and one with their number.
#[tactic(auto, unfolding(crate::specs::Frontiers::listing))]
pub fn listing_text(alloc: Global, keys: &[Key]) -> Result<Vec<u8>, Memory>
    ensures { IfOk result (λ text. text.items ≡ listing keys.now) }
{
    let mut text = Vec::new(alloc);
    push_voxels(&mut text, keys)?;
    text.extend_from_slice(b"end ")?;
    push_number(&mut text, keys.len() as u64)?;
    text.extend_from_slice(b"\n")?;
    Ok(text)
}
