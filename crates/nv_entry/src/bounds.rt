//! What a region's header says of its entries.
ghost use Rattle.std.specs.Prelude.{◌^◌, ◌≤◌};
ghost use Rattle.nv_pmem.specs.Limits.{IsPageSize, IsEntryCount};

use nv_plain::limits::Version;

/// What a region's header says of the entries of its log.
#[derive(Clone, Copy, Debug, PartialEq, Eq)]
pub struct Bounds {
    /// The region's version, which limits its groups.
    pub version: Version,
    /// Bytes of a page.
    pub page: u64,
    /// Entries of the log.
    pub entries: u64,
    /// Files of the region.
    pub files: u64,
    /// The persistent tail: the least number that may be committed.
    pub tail: u64,
    pub ghost page_in_limits: { IsPageSize page },
    pub ghost entries_in_limits: { IsEntryCount entries },
    pub ghost tail_in_limits: { tail ≤ 2 ^ 60 },
}
