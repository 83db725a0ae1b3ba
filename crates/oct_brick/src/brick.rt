//! Sixty-four voxels side by side, as two masks.
ghost use Rattle.std.specs.Prelude.{◌≡◌, ℕ, ◌-◌, bit_and, ◌*◌, ◌/◌, ◌%◌, ◌^◌, ◌<◌, ◌≤◌, ◌↔◌, ◌⊎◌};
ghost use Rattle.oct_key.specs.Voxel.{Voxel};
ghost use Rattle.oct_key.specs.Block.{child_index_of};
ghost use Rattle.oct_key.specs.Morton.{morton_of};
ghost use Rattle.oct_brick.specs.Masks.{HasCode};
ghost use Rattle.oct_brick.specs.Bricks.{frees_of, HitsAreScanned, IsBrick};

/// The voxels of a block of 64 that a scan changes, a bit for each by the last six bits of its
/// Morton code.
#[derive(Clone, Copy, Debug, PartialEq, Eq)]
pub struct Brick {
    /// The Morton code of each of its voxels, without the last six bits.
    pub code: u64,
    /// The voxels that the scan changes.
    pub scanned: u64,
    /// Those of them that it hits.
    pub hits: u64,
}

impl Brick {
    /// The brick around a voxel of this Morton code, with nothing in it.
    pub fn around(code: u64) -> Brick
        ensures code { result.code ≡ code / 64 }
        ensures scanned { result.scanned ≡ 0 }
        ensures hits { result.hits ≡ 0 }
    {
        Brick {
            code: code >> 6,
            scanned: 0,
            hits: 0,
        }
    }

    /// The brick with one more voxel that the scan changes.
    pub fn with_scanned(self, code: u64) -> Brick
        requires { code / 64 ≡ self.code }
        ensures code { result.code ≡ self.code }
        ensures scanned { (c : ℕ) → HasCode result.code result.scanned c ↔
            (HasCode self.code self.scanned c ⊎ (code ≡ c)) }
        ensures hits { result.hits ≡ self.hits }
        ensures brick { self.code < 2 ^ 42 → HitsAreScanned self → IsBrick result }
    {
        Brick {
            scanned: self.scanned | bit_of(code),
            ..self
        }
    }

    /// The brick with one more voxel that the scan hits.
    pub fn with_hit(self, code: u64) -> Brick
        requires { code / 64 ≡ self.code }
        ensures code { result.code ≡ self.code }
        ensures scanned { (c : ℕ) → HasCode result.code result.scanned c ↔
            (HasCode self.code self.scanned c ⊎ (code ≡ c)) }
        ensures hits { (c : ℕ) → HasCode result.code result.hits c ↔
            (HasCode self.code self.hits c ⊎ (code ≡ c)) }
        ensures brick { self.code < 2 ^ 42 → HitsAreScanned self → IsBrick result }
    {
        Brick {
            code: self.code,
            scanned: self.scanned | bit_of(code),
            hits: self.hits | bit_of(code),
        }
    }

    /// The voxels of two bricks of one code together.
    pub fn joined(self, other: Brick) -> Brick
        requires { self.code ≡ other.code }
        ensures code { result.code ≡ other.code }
        ensures scanned { (c : ℕ) → HasCode result.code result.scanned c ↔
            (HasCode self.code self.scanned c ⊎ HasCode other.code other.scanned c) }
        ensures hits { (c : ℕ) → HasCode result.code result.hits c ↔
            (HasCode self.code self.hits c ⊎ HasCode other.code other.hits c) }
        ensures brick { IsBrick self → IsBrick other → IsBrick result }
    {
        Brick {
            code: self.code,
            scanned: self.scanned | other.scanned,
            hits: self.hits | other.hits,
        }
    }

    /// Those of its voxels whose bits are set in a mask.
    pub fn within(self, mask: u64) -> Brick
        ensures code { result.code ≡ self.code }
        ensures scanned { result.scanned ≡ bit_and self.scanned mask }
        ensures hits { result.hits ≡ bit_and self.hits mask }
    {
        Brick {
            code: self.code,
            scanned: self.scanned & mask,
            hits: self.hits & mask,
        }
    }

    /// Which child of the block of that depth holds the brick.
    pub fn child_index(&self, depth: u8) -> u8
        requires { depth ≤ 13 }
        ensures exact { result ≡ self.now.code / 2 ^ (3 * (13 - depth)) % 8 }
        ensures child { (k : Voxel) →
            morton_of k / 64 ≡ self.now.code → result ≡ child_index_of depth k }
        ensures few { result < 8 }
    {
        ((self.code >> (3 * (13 - depth))) & 7) as u8
    }

    /// The voxels that the scan changes and doesn't hit.
    pub fn frees(&self) -> u64
        ensures exact { result ≡ frees_of self.now }
        ensures has { (c : ℕ) → HasCode self.now.code result c ↔
            (HasCode self.now.code self.now.scanned c × ¬ HasCode self.now.code self.now.hits c) }
    {
        self.scanned & !self.hits
    }
}

/// The bit of a voxel in its brick, by the last six bits of its code.
fn bit_of(code: u64) -> u64
    ensures { result ≡ 2 ^ (code % 64) }
{
    1 << (code & 63)
}
