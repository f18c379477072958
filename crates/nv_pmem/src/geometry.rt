//! The sizes of a region.
ghost use Rattle.std.specs.Prelude.{◌≡◌, Err, IfOk, IsOk};
ghost use Rattle.nv_pmem.specs.Limits.{IsPageSize, IsEntryCount};
ghost use Rattle.nv_pmem.specs.declared.geometry.GeometryField.TheVariants.{Page, Entries};

use thiserror::Error;

/// The sizes of a region: bytes of a page and entries of the log, both within their limits.
#[derive(Clone, Copy, Debug, PartialEq, Eq)]
pub struct Geometry {
    /// 64 to 4,096 bytes, a multiple of 64.
    pub page: u64,
    /// 2 to 1,024 entries.
    pub entries: u64,
    pub ghost page_in_limits: { IsPageSize page },
    pub ghost entries_in_limits: { IsEntryCount entries },
}

/// A field of a geometry.
#[derive(Clone, Copy, Debug, PartialEq, Eq)]
pub enum GeometryField {
    Page,
    Entries,
}

/// The first field that is out of its limits, and its value.
#[derive(Clone, Copy, Debug, PartialEq, Eq, Error)]
#[error("bad geometry")]
pub struct BadGeometry {
    pub field: GeometryField,
    pub found: u64,
}

impl Geometry {
    /// The geometry of these sizes, or the first of them, page before entries, that is out of its limits.
    pub fn new(page: u64, entries: u64) -> Result<Self, BadGeometry>
        ensures made { IsPageSize page → IsEntryCount entries → IfOk result (λ g. (g.page ≡ page) × (g.entries ≡ entries)) }
        ensures page { ¬ (IsPageSize page) → result ≡ Err (record { field = Page; found = page }) }
        ensures entries { IsPageSize page → ¬ (IsEntryCount entries) → result ≡ Err (record { field = Entries; found = entries }) }
        ensures good { IsPageSize page → IsEntryCount entries → IsOk result }
    {
        if !(64..=4096).contains(&page) || page % 64 != 0 {
            return Err(BadGeometry {
                field: GeometryField::Page,
                found: page,
            });
        }
        if !(2..=1024).contains(&entries) {
            return Err(BadGeometry {
                field: GeometryField::Entries,
                found: entries,
            });
        }
        Ok(Geometry { page, entries })
    }
}
