//! Six lines about a file.
ghost use Rattle.std.specs.Prelude.{◌≡◌, ◌++◌, OnOk, IfOk, decimal};
ghost use Rattle.oct_bt.specs.NodeData.{IsAccepted};
ghost use Rattle.oct_file_tasks.specs.Answers.{line, report, yes_or_no};

use itoa::Buffer;
use oct_bt::BtFile;
use oct_num::{Memory, metres_text};
use std::alloc::Global;

/// Appends a line of a word and what it says.
fn push_line(out: &mut Vec<u8>, word: &[u8], said: &[u8]) -> Result<(), Memory>
    ensures { OnOk result (out.new.items ≡ out.old.items ++ line word.now said.now) }
{
    out.extend_from_slice(word)?;
    out.extend_from_slice(said)?;
    out.extend_from_slice(b"\n")?;
    Ok(())
}

/// Appends a line of a word and a number.
fn push_count(out: &mut Vec<u8>, word: &[u8], n: u64) -> Result<(), Memory>
    ensures { OnOk result (out.new.items ≡ out.old.items ++ line word.now (decimal n)) }
{
    push_line(out, word, Buffer::new().format(n).as_bytes())
}

/// The word for whether something is so.
fn yes_or_no(so: bool) -> &'static [u8]
    ensures { result.now ≡ yes_or_no so }
{
    if so { b"yes" } else { b"no" }
}

/// The six lines about a file: its resolution, how many nodes, records, free voxels and occupied
/// voxels it has, and whether its node data is the canonical one of its classes.
pub(crate) fn report(alloc: Global, file: &BtFile) -> Result<Vec<u8>, Memory>
    requires accepted { IsAccepted file.now.nodes file.now.codes }
    ensures { IfOk result (λ out. out.items ≡ report file.now) }
{
    let voxels = file.voxels();
    let mut out = Vec::new(alloc);
    push_line(&mut out, b"res ", metres_text(file.res().nm()).as_bytes())?;
    push_count(&mut out, b"size ", file.nodes())?;
    push_count(&mut out, b"records ", file.records())?;
    push_count(&mut out, b"free ", voxels.free)?;
    push_count(&mut out, b"occupied ", voxels.occupied)?;
    push_line(&mut out, b"canonical ", yes_or_no(file.is_canonical()))?;
    Ok(out)
}
