//! A region that is open or restored, and its stores.
ghost use Rattle.std.specs.Prelude.{◌≡◌};
ghost use Rattle.nv_plain.specs.Layouts.{mount_version};

use nv_header::Region;
use nv_pmem::Lines;
use nv_recover::Recovered;

/// A region that is open, and the stores of its files: one for each of its names, in their order. The region has the version
/// that a mount opens over.
#[derive(Drop)]
pub struct Opened<L: Lines, B> {
    pub region: Region<L>,
    pub stores: Vec<B>,
    pub ghost version: { region.version ≡ mount_version },
}

/// A region that was recovered, with the version that it has, the stores of its files, and what recovery found of its log. There is
/// one store for each of its names, in their order. Of one of an earlier version than mounts have, `open` makes one that can be mounted.
#[derive(Drop)]
pub struct Restored<L: Lines, B> {
    pub region: Region<L>,
    pub stores: Vec<B>,
    pub found: Recovered,
}
