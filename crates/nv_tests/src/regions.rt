//! Tests of regions.

use crate::given::blank_parts;
use nv_header::{
    AddError, HeadError, Region, add_file, format, is_blank, migrate, move_tail, read_head,
    read_head_of,
};
use nv_plain::limits::Version;
use nv_pmem::{Fuse, Geometry, Lines, MemPart, RegionFault};
use std::alloc::Global;
use std::test::Fail;

// A region of 2 entries of a page of 64 bytes, formatted in this version, with these parts behind; its calls fail as the fuse says.
fn formatted(
    alloc: Global,
    version: Version,
    fuse: &Fuse,
    more: &[u64],
) -> Result<Region<MemPart>, Fail> {
    let geometry = Geometry::new(64, 2)?;
    let parts = blank_parts(alloc, version, geometry, fuse, more)?;
    match format(parts, version, geometry) {
        Ok(region) => Ok(region),
        Err((_, fault)) => Err(fault.into()),
    }
}

// A word, where the part has it.
fn word(part: &mut MemPart, line: u64, word: u64) -> Option<u64> {
    if line < part.lines() && word < 8 {
        part.load(line, word).ok()
    } else {
        None
    }
}

// Words 0 to 4 of a header, and the tail.
fn header_words(header: &mut MemPart) -> [Option<u64>; 6] {
    [
        word(header, 0, 0),
        word(header, 0, 1),
        word(header, 0, 2),
        word(header, 0, 3),
        word(header, 0, 4),
        word(header, 1, 0),
    ]
}

// What the header of each version is to have once two names are added: words 0 to 4 of line 0 and the tail, and of the second
// record the length, the first word, and a word of its last line.
struct HeaderRow {
    version: Version,
    header: [u64; 6],
    second: [(u64, u64, u64); 3],
}

const HEADER_ROWS: [HeaderRow; 2] = [
    HeaderRow {
        version: Version::One,
        header: [0x3145_4843_4143_564e, 1, 64, 2, 2, 0],
        second: [(3, 0, 2), (3, 1, 0x6362), (3, 7, 0)],
    },
    HeaderRow {
        version: Version::Two,
        header: [0x3145_4843_4143_564e, 2, 64, 2, 2, 0],
        second: [(22, 0, 2), (22, 1, 0x6362), (25, 7, 0)],
    },
];

// Whether a part has these words, each at a place of a line.
fn holds(part: &mut MemPart, words: &[(u64, u64, u64)]) -> bool {
    for (line, at, value) in words {
        if word(part, *line, *at) != Some(*value) {
            return false;
        }
    }
    true
}

#[test]
fn a_header_has_its_words(rt: HostRuntime) -> Result<(), Fail> {
    for row in &HEADER_ROWS {
        let fuse = Fuse::new(rt.alloc(), &[])?;
        let region = formatted(rt.alloc(), row.version, &fuse, &[5])?;
        let (region, _first) = add_file(rt.alloc(), region, b"a").map_err(|failed| failed.1)?;
        let (region, second) = add_file(rt.alloc(), region, b"bc").map_err(|failed| failed.1)?;
        assert_eq!(rt; (second, region.version()), (1, row.version));
        let mut parts = region.into_parts();
        assert_eq!(rt; parts.len(), 4);
        assert_eq!(rt; parts[3].lines(), 5);
        assert_eq!(rt; header_words(&mut parts[0]), row.header.map(Some));
        assert!(rt; holds(&mut parts[0], &row.second));
        let head = read_head(rt.alloc(), &mut parts)?;
        assert_eq!(rt;
            (head.version, head.tail, head.names.len()),
            (row.version, 0, 2)
        );
        let of_one = read_head_of(rt.alloc(), &mut parts, Version::One).map(|head| head.tail);
        let known = match row.version {
            Version::One => Ok(0),
            Version::Two => Err(HeadError::BadVersion { found: 2 }),
        };
        assert_eq!(rt; of_one, known);
    }
    Ok(())
}

// A region of version 1 whose header's part has the lines of version 2.
fn roomy(alloc: Global) -> Result<Region<MemPart>, Fail> {
    let geometry = Geometry::new(64, 2)?;
    let fuse = Fuse::new(alloc, &[])?;
    let parts = blank_parts(alloc, Version::Two, geometry, &fuse, &[])?;
    match format(parts, Version::One, geometry) {
        Ok(region) => Ok(region),
        Err((_, fault)) => Err(fault.into()),
    }
}

// That region in version 2, where its header's part has the lines for that.
fn migrated(region: Region<MemPart>) -> Result<Region<MemPart>, Fail> {
    let (version, geometry, next) = (region.version(), region.geometry(), region.next());
    let (parts, names) = region.into_parts_and_names();
    if parts[0].lines() < Version::Two.header_lines() {
        return Err(RegionFault.into());
    }
    match migrate(Region::from_parts(parts, version, geometry, names, next)) {
        Ok(region) => Ok(region),
        Err((_, fault)) => Err(fault.into()),
    }
}

#[test]
fn a_region_is_migrated(rt: HostRuntime) -> Result<(), Fail> {
    let row = &HEADER_ROWS[1];
    let region = roomy(rt.alloc())?;
    let (region, _first) = add_file(rt.alloc(), region, b"a").map_err(|failed| failed.1)?;
    let (region, _second) = add_file(rt.alloc(), region, b"bc").map_err(|failed| failed.1)?;
    let region = migrated(region)?;
    assert_eq!(rt;
        (region.version(), region.next(), region.names().len()),
        (row.version, 0, 2)
    );
    let mut parts = region.into_parts();
    assert_eq!(rt; header_words(&mut parts[0]), row.header.map(Some));
    assert!(rt; holds(&mut parts[0], &row.second));
    let head = read_head(rt.alloc(), &mut parts)?;
    assert_eq!(rt;
        (head.version, head.tail, head.names.len()),
        (row.version, 0, 2)
    );
    Ok(())
}

#[test]
fn a_header_of_version_2_has_274_lines(rt: HostRuntime) -> Result<(), Fail> {
    let mut parts = Vec::new(rt.alloc());
    parts.push(MemPart::new(rt.alloc(), 273)?)?;
    let magic = parts[0].store(0, 0, 0x3145_4843_4143_564e);
    let version = parts[0].store(0, 1, 2);
    let refused = read_head(rt.alloc(), &mut parts).map(|head| head.tail);
    let lack = HeadError::Truncated {
        found: 273,
        wanted: 274,
    };
    assert_eq!(rt; (magic, version, refused), (Ok(()), Ok(()), Err(lack)));
    Ok(())
}

// Adds so many names of one letter of 64, and says whether one more is too many.
fn fill(alloc: Global, version: Version, count: u8) -> Result<AddError, Fail> {
    let fuse = Fuse::new(alloc, &[])?;
    let mut region = formatted(alloc, version, &fuse, &[])?;
    for i in 0..count {
        let name = [b'a' + i / 16, b'a' + i % 16];
        region = add_file(alloc, region, &name).map_err(|failed| failed.1)?.0;
    }
    match add_file(alloc, region, b"z") {
        Ok(_region) => Err(AddError::NoMemory.into()),
        Err((_parts, error)) => Ok(error),
    }
}

#[test]
fn names_are_added_up_to_the_limit(rt: HostRuntime) -> Result<(), Fail> {
    let one = fill(rt.alloc(), Version::One, 16)?;
    let two = fill(rt.alloc(), Version::Two, 64)?;
    assert_eq!(rt;
        (one, two),
        (AddError::TooManyFiles, AddError::TooManyFiles)
    );
    Ok(())
}

#[test]
fn a_tail_is_moved(rt: HostRuntime) -> Result<(), Fail> {
    let mut parts = Vec::new(rt.alloc());
    parts.push(MemPart::new(rt.alloc(), 18)?)?;
    let blank = is_blank(&mut parts);
    let moved = move_tail(&mut parts[0], 9);
    let tail = word(&mut parts[0], 1, 0);
    assert_eq!(rt; (blank, moved, tail), (Ok(true), Ok(()), Some(9)));
    Ok(())
}
