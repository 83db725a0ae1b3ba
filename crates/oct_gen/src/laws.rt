//! What the definitions come to, with nothing to compute.
ghost use Rattle.std.specs.Prelude.{ℕ, ◌+◌, ◌*◌, ◌^◌, ◌<◌, ◌≤◌, length};
ghost use Rattle.oct_gen.specs.Script.{script_of};

/// A script has at most 62 bytes, and for each scan 59, and 41 for each of its points. A law, with
/// nothing to compute.
pub fn scripts_are_short()
    ensures { (seed scans points : ℕ) → seed < 2 ^ 64 → scans < 2 ^ 32 → points < 2 ^ 32
        → length (script_of seed scans points) ≤ 62 + scans * (59 + points * 41) }
{}
