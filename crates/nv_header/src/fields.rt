//! The fields of a header.
ghost use Rattle.std.specs.Prelude.{◌≡◌, ◌≤◌, IfOk, IfErr, OnOk};
ghost use Rattle.nv_plain.specs.Faults.{HasCause};
ghost use Rattle.nv_plain.specs.Layouts.{layout_of};
ghost use Rattle.nv_pmem.specs.Moments.{Tells};
ghost use Rattle.nv_pmem.specs.Room.{Keeps};
ghost use Rattle.nv_header.specs.Fields.{fields_in, header_in};
ghost use Rattle.nv_header.specs.Heads.{HasFields};
ghost use Rattle.nv_header.specs.Refusals.{IsBadField, IsNotTruncated, IsOurs};
ghost use Rattle.nv_header.specs.Unread.{IsOfNoVersion};

use crate::head::{HeadError, HeadField, MAGIC, TAIL_LIMIT};
use nv_plain::limits::Version;
use nv_pmem::{Geometry, LineFault, Lines, RegionFault};

/// The fields of a header as they read.
#[derive(Clone, Copy)]
pub(crate) struct Fields {
    pub(crate) magic: u64,
    pub(crate) version: u64,
    pub(crate) page: u64,
    pub(crate) entries: u64,
    pub(crate) files: u64,
    pub(crate) tail: u64,
}

impl Fields {
    pub(crate) fn load<L: Lines>(part: &mut L) -> Result<Self, RegionFault>
        requires lines { 2 ≤ (L.room part.old).lines }
        ensures fields { IfOk result (λ fields. Tells (L.history part.old) (λ now. fields ≡ fields_in now)) }
        ensures history { L.history part.new ≡ L.history part.old }
        ensures room { Keeps (L.room part.old) (L.room part.new) }
        ensures cause { HasCause (L.fault_count part.old) (L.fault_count part.new) result }
        ensures device { L.device part.new ≡ L.device part.old }
    {
        Ok(Fields {
            magic: part.load(0, 0)?,
            version: part.load(0, 1)?,
            page: part.load(0, 2)?,
            entries: part.load(0, 3)?,
            files: part.load(0, 4)?,
            tail: part.load(1, 0)?,
        })
    }

    /// The version of the header, where it is a region's.
    pub(crate) fn version(&self) -> Result<Version, HeadError>
        ensures ours { IfOk result (λ version. IsOurs (layout_of version) (header_in self.now)) }
        ensures bad { IfErr result (λ e. IsOfNoVersion (header_in self.now) e) }
    {
        if self.magic != MAGIC {
            return Err(HeadError::BadMagic);
        }
        match Version::of_number(self.version) {
            Some(version) => Ok(version),
            None => Err(HeadError::BadVersion {
                found: self.version,
            }),
        }
    }

    /// That the header is a region's, of this version.
    pub(crate) fn check_version(&self, version: Version) -> Result<(), HeadError>
        ensures ours { OnOk result (IsOurs (layout_of version) (header_in self.now)) }
        ensures bad { IfErr result (λ e. IsBadField (layout_of version) (header_in self.now) e) }
        ensures lines { IfErr result IsNotTruncated }
    {
        if self.magic != MAGIC {
            return Err(HeadError::BadMagic);
        }
        if self.version != version.number() {
            return Err(HeadError::BadVersion {
                found: self.version,
            });
        }
        Ok(())
    }

    /// The geometry, where each field is within the limits of the header's version.
    pub(crate) fn geometry(&self, version: Version) -> Result<Geometry, HeadError>
        requires { IsOurs (layout_of version) (header_in self.now) }
        ensures good { IfOk result (λ geometry. HasFields (layout_of version) (header_in self.now)) }
        ensures page { IfOk result (λ geometry. geometry.page ≡ self.now.page) }
        ensures entries { IfOk result (λ geometry. geometry.entries ≡ self.now.entries) }
        ensures bad { IfErr result (λ e. IsBadField (layout_of version) (header_in self.now) e) }
        ensures lines { IfErr result IsNotTruncated }
    {
        let geometry = Geometry::new(self.page, self.entries)?;
        if self.files > version.file_limit() {
            return Err(HeadError::BadGeometry {
                field: HeadField::Files,
                found: self.files,
            });
        }
        if self.tail > TAIL_LIMIT {
            return Err(HeadError::BadGeometry {
                field: HeadField::Tail,
                found: self.tail,
            });
        }
        Ok(geometry)
    }
}
