//! A region whose log is empty.
ghost use Rattle.std.specs.Prelude.{map};
ghost use Rattle.nv_plain.specs.Layouts.{layout_of};
ghost use Rattle.nv_header.specs.Regions.{IsRegion, IsRegion-prop};

use crate::Names;
use nv_plain::limits::Version;
use nv_pmem::{Geometry, Lines};

/// The parts of a region whose log is empty: part 0 is the header, and part 1 + i the slot of each entry whose number
/// is i modulo the number of entries. There may be further parts, which belong to no slot and stay as they are. Each
/// part is quiet, and each line that the layout has can take 15 stores. The names are allowed and all different. The
/// header says the geometry, the names and the next entry number, and in no image is an entry from that number on
/// committed, whatever tail the header comes to have.
#[derive(Drop)]
pub struct Region<L: Lines> {
    pub(crate) parts: Vec<L>,
    pub(crate) version: Version,
    pub(crate) geometry: Geometry,
    pub(crate) names: Names,
    pub(crate) next: u64,
    pub ghost is_region: { IsRegion (layout_of version) geometry.page geometry.entries names next (map L.room parts.items) (map L.history parts.items) } by { IsRegion-prop (layout_of version) geometry.page geometry.entries names next (map L.room parts.items) (map L.history parts.items) },
}

impl<L: Lines> Region<L> {
    ghost use Rattle.std.specs.Prelude.{◌≡◌};

    /// A region of these parts, which are at rest with an empty log. Takes no memory.
    pub fn from_parts(
        parts: Vec<L>,
        version: Version,
        geometry: Geometry,
        names: Names,
        next: u64,
    ) -> Self
        requires { IsRegion (layout_of version) geometry.page geometry.entries names next (map L.room parts.items) (map L.history parts.items) }
        ensures parts { result.parts ≡ parts }
        ensures version { result.version ≡ version }
        ensures geometry { result.geometry ≡ geometry }
        ensures names { result.names ≡ names }
        ensures next { result.next ≡ next }
    {
        Region {
            parts,
            version,
            geometry,
            names,
            next,
        }
    }

    /// The version of the layout.
    pub fn version(&self) -> Version
        ensures { result ≡ self.now.version }
    {
        self.version
    }

    /// The sizes of a page and of the log.
    pub fn geometry(&self) -> Geometry
        ensures { result ≡ self.now.geometry }
    {
        self.geometry
    }

    /// The names of the files, in their order.
    pub fn names(&self) -> &Names
        ensures { result.now ≡ self.now.names }
    {
        &self.names
    }

    /// The number of the next entry of the log; at most 2^60.
    pub fn next(&self) -> u64
        ensures { result ≡ self.now.next }
    {
        self.next
    }

    /// The parts, in their order. Takes no memory.
    pub fn into_parts(self) -> Vec<L>
        ensures parts { result ≡ self.parts }
        ensures region { IsRegion (layout_of self.version) self.geometry.page self.geometry.entries self.names self.next
            (map L.room result.items) (map L.history result.items) }
    {
        self.parts
    }

    /// The parts, in their order, and the names. Takes no memory.
    pub fn into_parts_and_names(self) -> (Vec<L>, Names)
        ensures parts { result.0 ≡ self.parts }
        ensures names { result.1 ≡ self.names }
        ensures region { IsRegion (layout_of self.version) self.geometry.page self.geometry.entries self.names self.next
            (map L.room result.0.items) (map L.history result.0.items) }
    {
        (self.parts, self.names)
    }
}
