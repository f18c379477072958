//! The reading of a header.
ghost use Rattle.std.specs.Prelude.{◌≡◌, ◌<◌, ◌≤◌, ◌==◌, true, length, map, sum_by, Ok, Err, IfOk, IfErr, IfSome};
ghost use Rattle.nv_plain.specs.Faults.{HasCause};
ghost use Rattle.nv_plain.specs.Images.{header_of};
ghost use Rattle.nv_plain.specs.Layouts.{layout_of, version_1};
ghost use Rattle.nv_pmem.specs.Moments.{Tells};
ghost use Rattle.nv_pmem.specs.Room.{Keeps};
ghost use Rattle.nv_pmem.specs.Rows.{AreOnlyRead};
ghost use Rattle.nv_header.specs.FileNames.{AreFileNames, IsNewName};
ghost use Rattle.nv_header.specs.Fields.{fields_in, header_in};
ghost use Rattle.nv_header.specs.Heads.{IsHeadOf, HeadIsWithinLimits, header_image};
ghost use Rattle.nv_header.specs.Needs.{header_history, header_lines_in};
ghost use Rattle.nv_header.specs.NextName.{IsNextName, AreNames, IsNameRefusal};
ghost use Rattle.nv_header.specs.Refusals.{IsRefused, IsNotTruncated, IsOurs, HeadHasCause};
ghost use Rattle.nv_header.specs.Unread.{IsUnread, LacksLines};

use crate::fields::Fields;
use crate::head::{Head, HeadError};
use crate::names::Names;
use crate::record::Record;
use nv_plain::Bytes;
use nv_plain::limits::Version;
use nv_pmem::{Lines, RegionFault};
use std::alloc::Global;

/// Whether a region is blank: it has no part 0, that part has no line, or the word of its magic is 0. Takes no memory.
pub fn is_blank<L: Lines>(parts: &mut [L]) -> Result<bool, RegionFault>
    ensures no_lines { header_lines_in (map L.room parts.old) ≡ 0 → result ≡ Ok true }
    ensures told { 1 ≤ header_lines_in (map L.room parts.old) → IfOk result (λ blank.
        Tells (header_history (map L.history parts.old)) (λ now. blank ≡ ((header_of (header_image now)).magic == 0))) }
    ensures read { AreOnlyRead L.history L.room L.device parts.old parts.new }
    ensures cause { HasCause (sum_by L.fault_count parts.old) (sum_by L.fault_count parts.new) result }
{
    if parts.is_empty() {
        return Ok(true);
    }
    is_blank_part(&mut parts[0])
}

fn is_blank_part<L: Lines>(part: &mut L) -> Result<bool, RegionFault>
    ensures no_lines { (L.room part.old).lines ≡ 0 → result ≡ Ok true }
    ensures told { 1 ≤ (L.room part.old).lines → IfOk result (λ blank.
        Tells (L.history part.old) (λ now. blank ≡ ((header_of (header_image now)).magic == 0))) }
    ensures history { L.history part.new ≡ L.history part.old }
    ensures room { Keeps (L.room part.old) (L.room part.new) }
    ensures cause { HasCause (L.fault_count part.old) (L.fault_count part.new) result }
    ensures device { L.device part.new ≡ L.device part.old }
{
    Ok(part.lines() == 0 || part.load(0, 0)? == 0)
}

/// What the header of a region says, whatever version it is of. It takes memory for the names, and writes nothing.
///
/// # Errors
///
/// The first of the tests that fails, in the order of `HeadError`, where the lines of the shorter header are counted first and
/// those of the header's own version once that is known; a fault of a part, or want of memory, may come before it. Parts that
/// tell nothing are taken at what is read of them.
pub fn read_head<L: Lines>(alloc: Global, parts: &mut [L]) -> Result<Head, HeadError>
    ensures head { IfOk result (λ head. Tells (header_history (map L.history parts.old)) (λ now.
        IsHeadOf (layout_of head.version) (header_lines_in (map L.room parts.old)) (header_image now) head)) }
    ensures limits { IfOk result (λ head. HeadIsWithinLimits (layout_of head.version) head) }
    ensures refused { IfErr result (λ e. Tells (header_history (map L.history parts.old)) (λ now.
        IsUnread (header_lines_in (map L.room parts.old)) (header_image now) e)) }
    ensures truncated { header_lines_in (map L.room parts.old) < version_1.header_lines →
        result ≡ Err (HeadError.Truncated (header_lines_in (map L.room parts.old)) version_1.header_lines) }
    ensures lack { IfErr result (LacksLines (header_lines_in (map L.room parts.old))) }

    ensures read { AreOnlyRead L.history L.room L.device parts.old parts.new }
    ensures cause { HeadHasCause (sum_by L.fault_count parts.old) (sum_by L.fault_count parts.new) result }
{
    if parts.is_empty() {
        return Err(HeadError::Truncated {
            found: 0,
            wanted: Version::One.header_lines(),
        });
    }
    read_part(alloc, &mut parts[0])
}

fn read_part<L: Lines>(alloc: Global, part: &mut L) -> Result<Head, HeadError>
    ensures head { IfOk result (λ head. Tells (L.history part.old) (λ now.
        IsHeadOf (layout_of head.version) (L.room part.old).lines (header_image now) head)) }
    ensures limits { IfOk result (λ head. HeadIsWithinLimits (layout_of head.version) head) }
    ensures refused { IfErr result (λ e. Tells (L.history part.old) (λ now.
        IsUnread (L.room part.old).lines (header_image now) e)) }
    ensures truncated { (L.room part.old).lines < version_1.header_lines →
        result ≡ Err (HeadError.Truncated (L.room part.old).lines version_1.header_lines) }
    ensures lack { IfErr result (LacksLines (L.room part.old).lines) }
    ensures history { L.history part.new ≡ L.history part.old }
    ensures room { Keeps (L.room part.old) (L.room part.new) }
    ensures cause { HeadHasCause (L.fault_count part.old) (L.fault_count part.new) result }
    ensures device { L.device part.new ≡ L.device part.old }
{
    let found = part.lines();
    if found < Version::One.header_lines() {
        return Err(HeadError::Truncated {
            found,
            wanted: Version::One.header_lines(),
        });
    }
    let fields = Fields::load(part)?;
    let version = fields.version()?;
    let wanted = version.header_lines();
    if found < wanted {
        return Err(HeadError::Truncated { found, wanted });
    }
    read_rest(alloc, part, version, fields)
}

/// What the header of a region of this version says; that of any other version is refused. It takes memory for the names, and
/// writes nothing.
///
/// # Errors
///
/// As of [`read_head`], but that the lines of this version's header are counted first.
pub fn read_head_of<L: Lines>(
    alloc: Global,
    parts: &mut [L],
    version: Version,
) -> Result<Head, HeadError>
    ensures version { IfOk result (λ head. head.version ≡ version) }
    ensures head { IfOk result (λ head. Tells (header_history (map L.history parts.old)) (λ now.
        IsHeadOf (layout_of version) (header_lines_in (map L.room parts.old)) (header_image now) head)) }
    ensures limits { IfOk result (λ head. HeadIsWithinLimits (layout_of version) head) }
    ensures refused { IfErr result (λ e. Tells (header_history (map L.history parts.old)) (λ now.
        IsRefused (layout_of version) (header_lines_in (map L.room parts.old)) (header_image now) e)) }
    ensures truncated { header_lines_in (map L.room parts.old) < (layout_of version).header_lines →
        result ≡ Err (HeadError.Truncated (header_lines_in (map L.room parts.old)) (layout_of version).header_lines) }
    ensures long_enough { (layout_of version).header_lines ≤ header_lines_in (map L.room parts.old) → IfErr result IsNotTruncated }

    ensures read { AreOnlyRead L.history L.room L.device parts.old parts.new }
    ensures cause { HeadHasCause (sum_by L.fault_count parts.old) (sum_by L.fault_count parts.new) result }
{
    if parts.is_empty() {
        return Err(HeadError::Truncated {
            found: 0,
            wanted: version.header_lines(),
        });
    }
    read_part_of(alloc, &mut parts[0], version)
}

fn read_part_of<L: Lines>(alloc: Global, part: &mut L, version: Version) -> Result<Head, HeadError>
    ensures version { IfOk result (λ head. head.version ≡ version) }
    ensures head { IfOk result (λ head. Tells (L.history part.old) (λ now.
        IsHeadOf (layout_of version) (L.room part.old).lines (header_image now) head)) }
    ensures limits { IfOk result (λ head. HeadIsWithinLimits (layout_of version) head) }
    ensures refused { IfErr result (λ e. Tells (L.history part.old) (λ now.
        IsRefused (layout_of version) (L.room part.old).lines (header_image now) e)) }
    ensures truncated { (L.room part.old).lines < (layout_of version).header_lines →
        result ≡ Err (HeadError.Truncated (L.room part.old).lines (layout_of version).header_lines) }
    ensures long_enough { (layout_of version).header_lines ≤ (L.room part.old).lines → IfErr result IsNotTruncated }
    ensures history { L.history part.new ≡ L.history part.old }
    ensures room { Keeps (L.room part.old) (L.room part.new) }
    ensures cause { HeadHasCause (L.fault_count part.old) (L.fault_count part.new) result }
    ensures device { L.device part.new ≡ L.device part.old }
{
    let found = part.lines();
    let wanted = version.header_lines();
    if found < wanted {
        return Err(HeadError::Truncated { found, wanted });
    }
    let fields = Fields::load(part)?;
    fields.check_version(version)?;
    read_rest(alloc, part, version, fields)
}

// The head of a header of this version, whose lines are there and whose fields are read.
fn read_rest<L: Lines>(
    alloc: Global,
    part: &mut L,
    version: Version,
    fields: Fields,
) -> Result<Head, HeadError>
    requires lines { (layout_of version).header_lines ≤ (L.room part.old).lines }
    requires fields { Tells (L.history part.old) (λ now. fields ≡ fields_in now) }
    requires ours { IsOurs (layout_of version) (header_in fields) }
    ensures version { IfOk result (λ head. head.version ≡ version) }
    ensures head { IfOk result (λ head. Tells (L.history part.old) (λ now.
        IsHeadOf (layout_of version) (L.room part.old).lines (header_image now) head)) }
    ensures limits { IfOk result (λ head. HeadIsWithinLimits (layout_of version) head) }
    ensures refused { IfErr result (λ e. Tells (L.history part.old) (λ now.
        IsRefused (layout_of version) (L.room part.old).lines (header_image now) e)) }
    ensures lines { IfErr result IsNotTruncated }
    ensures history { L.history part.new ≡ L.history part.old }
    ensures room { Keeps (L.room part.old) (L.room part.new) }
    ensures cause { HeadHasCause (L.fault_count part.old) (L.fault_count part.new) result }
    ensures device { L.device part.new ≡ L.device part.old }
{
    let geometry = fields.geometry(version)?;
    let names = read_names(alloc, part, version, fields.files)?;
    Ok(Head {
        version,
        geometry,
        names,
        tail: fields.tail,
    })
}

// The first so many names.
fn read_names<L: Lines>(
    alloc: Global,
    part: &mut L,
    version: Version,
    count: u64,
) -> Result<Names, HeadError>
    requires lines { (layout_of version).header_lines ≤ (L.room part.old).lines }
    requires count { count ≤ (layout_of version).file_limit }
    ensures names { IfOk result (λ names. Tells (L.history part.old) (λ now.
        AreNames (layout_of version) (header_image now) count names)) }
    ensures allowed { IfOk result (AreFileNames (layout_of version)) }
    ensures refused { IfErr result (λ e. Tells (L.history part.old) (λ now.
        count ≡ (header_of (header_image now)).files → IsNameRefusal (layout_of version) (header_image now) e)) }
    ensures lines { IfErr result IsNotTruncated }
    ensures history { L.history part.new ≡ L.history part.old }
    ensures room { Keeps (L.room part.old) (L.room part.new) }
    ensures cause { HeadHasCause (L.fault_count part.old) (L.fault_count part.new) result }
    ensures device { L.device part.new ≡ L.device part.old }
{
    let mut names = Names::new(alloc);
    for i in 0..count {
        let Some(name) = read_name(alloc, part, version, i, &names)? else {
            return Err(HeadError::BadName { index: i });
        };
        names.push(name)?;
    }
    Ok(names)
}

// Name i, or none where it isn't good, beside the names before it.
fn read_name<L: Lines>(
    alloc: Global,
    part: &mut L,
    version: Version,
    i: u64,
    earlier: &Names,
) -> Result<Option<Bytes>, HeadError>
    requires lines { (layout_of version).header_lines ≤ (L.room part.old).lines }
    requires index { i < (layout_of version).file_limit }
    ensures next { IfOk result (λ name. Tells (L.history part.old) (λ now.
        IsNextName (layout_of version) (header_image now) earlier.now i name)) }
    ensures allowed { IfOk result (λ name. IfSome name (IsNewName (layout_of version) earlier.now)) }
    ensures refused { IfErr result (λ e. Tells (L.history part.old) (λ now.
        IsNameRefusal (layout_of version) (header_image now) e)) }
    ensures lines { IfErr result IsNotTruncated }
    ensures history { L.history part.new ≡ L.history part.old }
    ensures room { Keeps (L.room part.old) (L.room part.new) }
    ensures cause { HeadHasCause (L.fault_count part.old) (L.fault_count part.new) result }
    ensures device { L.device part.new ≡ L.device part.old }
{
    let record = Record::load(part, version, i)?;
    let Some(name) = record.name(version) else {
        return Ok(None);
    };
    if earlier.contains(name) {
        return Ok(None);
    }
    let bytes = Vec::from_slice(alloc, name)?;
    Ok(Some(Bytes::from_vec(bytes)))
}
