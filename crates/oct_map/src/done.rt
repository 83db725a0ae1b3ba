//! What a scan tells when it is in the map.

/// How many voxels a scan hit, and how many it freed.
#[derive(Clone, Copy, Debug, PartialEq, Eq)]
pub struct ScanDone {
    pub hits: u64,
    pub frees: u64,
}
