//! Trusted edge: the parts of a region that stand in a folder.
ghost use Rattle.std.specs.Prelude.{◌≡◌, ◌<◌, true, length, sum_by, IfOk};
ghost use Rattle.nv_plain.specs.Faults.{saturated};
ghost use Rattle.nv_pmem.specs.FilePart.{part_faults};
ghost use Rattle.nv_store.specs.FileStore.{store_faults};

use crate::BenchError;
use crate::file_ids::FileIds;
use crate::parts::MAGIC;
use nv_plain::limits::{ENTRY_LIMIT, HEADER_LINES, Version};
use nv_pmem::{FilePart, Geometry, Lines, PartError, sync_folder_of};
use nv_store::{Backing, FileStore, StoreFault};
use std::alloc::{AllocError, AllocFailed, Global};
use std::fs::{self, File};
use std::io::{self, ErrorKind, Read};
use std::rt::Files;

const LINE_BYTES: u64 = 64;

const WORD_BYTES: u64 = 8;

/// Makes a folder where there is none.
pub(crate) fn make_folder<R: Files>(rt: &R, path: &str) -> io::Result<()> {
    match fs::create_dir(rt, path) {
        Err(error) if error.kind() != ErrorKind::AlreadyExists => Err(error),
        _ => Ok(()),
    }
}

/// A folder, locked as long as what this gives lives; refused where another has it locked.
pub(crate) fn lock_folder<R: Files<File = File>>(rt: &R, path: &str) -> io::Result<File> {
    let folder = File::open(rt, path)?;
    folder.try_lock()?;
    Ok(folder)
}

/// A folder, locked together with all others that look at it, as long as what this gives lives; none where
/// there is none. Refused where another has it locked alone.
pub(crate) fn share_folder<R: Files<File = File>>(rt: &R, path: &str) -> io::Result<Option<File>> {
    if !is_there(rt, path)? {
        return Ok(None);
    }
    let folder = File::open(rt, path)?;
    folder.try_lock_shared()?;
    Ok(Some(folder))
}

/// The parts of the region that stand in a folder, and which files they are; where they are blank and a geometry is wanted, the
/// parts of that, and where a header of version 1 is shorter than a mount's, with that made longer. Refused where two are one
/// file, or where what would be made anew may be the rest of a region.
pub(crate) fn open_parts<R: Files + Copy>(
    rt: R,
    alloc: Global,
    folder: &str,
    want: Option<Geometry>,
) -> Result<(Vec<FilePart<R>>, FileIds), BenchError>
    ensures { IfOk result (λ opened. sum_by part_faults opened.0.items ≡ 0) }
{
    let mut ids = FileIds::new(alloc);
    let mut there = parts_there(rt, alloc, folder, false, &mut ids)?;
    match want {
        Some(geometry) if are_blank(&there) => {
            refuse_remains(&rt, alloc, folder, &there)?;
            let mut ids = FileIds::new(alloc);
            let parts = sized_parts(rt, alloc, folder, geometry, &mut ids)?;
            Ok((parts, ids))
        }
        Some(_) if are_of_version_1(&there) => {
            // What it holds is read anew: the file is the one that was noted.
            there[0] = FilePart::open(rt, alloc, &part_path(alloc, folder, 0)?, HEADER_LINES)?;
            Ok((there, ids))
        }
        _ => Ok((there, ids)),
    }
}

/// The parts from number 0 on, up to the first that isn't there.
pub(crate) fn parts_there<R: Files + Copy>(
    rt: R,
    alloc: Global,
    folder: &str,
    is_read_only: bool,
    ids: &mut FileIds,
) -> Result<Vec<FilePart<R>>, BenchError>
    ensures { IfOk result (λ parts. sum_by part_faults parts.items ≡ 0) }
{
    let mut parts = Vec::new(alloc);
    for i in 0..u64::MAX {
        let path = part_path(alloc, folder, i)?;
        if !is_there(&rt, path.as_str())? {
            break;
        }
        let part = if is_read_only {
            FilePart::read_only(rt, alloc, path.as_str())?
        } else {
            FilePart::open(rt, alloc, path.as_str(), 0)?
        };
        parts.push(part)?;
        ids.note(&rt, path.as_str())?;
    }
    Ok(parts)
}

/// Whether a region of these parts is blank: it has no part 0, no line in it, or 0 in its first word.
pub(crate) fn are_blank<R: Files + Copy>(parts: &[FilePart<R>]) -> bool {
    match parts.first() {
        None => true,
        Some(header) if header.lines() == 0 => true,
        Some(header) => header.peek(0, 0) == 0,
    }
}

// Whether the parts are those of a region of version 1, as far as its magic, its version and the header's lines tell.
fn are_of_version_1<R: Files + Copy>(parts: &[FilePart<R>]) -> bool
    ensures { result ≡ true → 0 < length parts.now }
{
    match parts.first() {
        Some(header) if header.lines() >= Version::One.header_lines() => {
            header.peek(0, 0) == MAGIC && header.peek(0, 1) == Version::One.number()
        }
        _ => false,
    }
}

// Refuses to make a region over what may be the rest of one, or of something else: a header that has bytes and no whole line,
// or an entry that begins with a commit word. A region that was cut short while it was made has none of these: until its
// magic is durable all bytes of its files are zeros, but for the header's fields behind the magic's place.
fn refuse_remains<R: Files + Copy>(
    rt: &R,
    alloc: Global,
    folder: &str,
    parts: &[FilePart<R>],
) -> Result<(), BenchError> {
    if let Some(header) = parts.first() {
        let path = part_path(alloc, folder, 0)?;
        if header.lines() == 0 && begins_with_bytes(rt, path.as_str(), LINE_BYTES)? {
            return Err(BenchError::Failed);
        }
    }
    for i in 1..=ENTRY_LIMIT {
        let path = part_path(alloc, folder, i)?;
        if is_there(rt, path.as_str())? && begins_with_bytes(rt, path.as_str(), WORD_BYTES)? {
            return Err(BenchError::Failed);
        }
    }
    Ok(())
}

// Whether a file has a byte that isn't zero among its first ones, of which there are at most so many.
fn begins_with_bytes<R: Files>(rt: &R, path: &str, most: u64) -> io::Result<bool> {
    if !fs::metadata(rt, path)?.is_file() {
        return Err(ErrorKind::Unsupported.into());
    }
    for byte in File::open(rt, path)?.take(most).bytes() {
        if byte? != 0 {
            return Ok(true);
        }
    }
    Ok(false)
}

// The parts of a geometry: those that are there are made as long, and those that are too many removed.
fn sized_parts<R: Files + Copy>(
    rt: R,
    alloc: Global,
    folder: &str,
    geometry: Geometry,
    ids: &mut FileIds,
) -> Result<Vec<FilePart<R>>, BenchError>
    ensures { IfOk result (λ parts. sum_by part_faults parts.items ≡ 0) }
{
    let mut parts = Vec::new(alloc);
    parts.push(sized_part(rt, alloc, folder, 0, HEADER_LINES, ids)?)?;
    for i in 0..geometry.entries {
        let entry = sized_part(rt, alloc, folder, 1 + i, 1 + geometry.page / 64, ids)?;
        parts.push(entry)?;
    }
    remove_parts(&rt, alloc, folder, 1 + geometry.entries)?;
    Ok(parts)
}

fn sized_part<R: Files + Copy>(
    rt: R,
    alloc: Global,
    folder: &str,
    i: u64,
    lines: u64,
    ids: &mut FileIds,
) -> Result<FilePart<R>, BenchError>
    ensures { IfOk result (λ part. part_faults part ≡ 0) }
{
    let path = part_path(alloc, folder, i)?;
    let part = FilePart::sized(rt, alloc, path.as_str(), lines)?;
    ids.note(&rt, path.as_str())?;
    Ok(part)
}

// Removes the parts from this number on, up to the first that isn't there.
fn remove_parts<R: Files>(
    rt: &R,
    alloc: Global,
    folder: &str,
    first: u64,
) -> Result<(), BenchError> {
    for i in first..u64::MAX {
        let path = part_path(alloc, folder, i)?;
        if !is_there(rt, path.as_str())? {
            sync_folder_of(rt, path.as_str())?;
            break;
        }
        fs::remove_file(rt, path.as_str())?;
    }
    Ok(())
}

fn part_path(alloc: Global, folder: &str, i: u64) -> Result<String, AllocError> {
    format!(in alloc; "{folder}/part-{i}")
}

/// Whether anything has this path, be it a link that leads nowhere.
pub(crate) fn is_there<R: Files>(rt: &R, path: &str) -> io::Result<bool> {
    match fs::symlink_metadata(rt, path) {
        Ok(_) => Ok(true),
        Err(error) if error.kind() == ErrorKind::NotFound => Ok(false),
        Err(error) => Err(error),
    }
}

/// How often the parts have failed.
pub(crate) fn faults_of_parts<R: Files + Copy>(parts: &[FilePart<R>]) -> u64
    ensures { result ≡ saturated (sum_by part_faults parts.now) }
{
    let mut faults: u64 = 0;
    for part in parts {
        faults = faults.saturating_add(part.faults());
    }
    faults
}

/// How often the stores have failed.
pub(crate) fn faults_of_stores(stores: &[FileStore<File>]) -> u64
    ensures { result ≡ saturated (sum_by store_faults stores.now) }
{
    let mut faults: u64 = 0;
    for store in stores {
        faults = faults.saturating_add(store.faults());
    }
    faults
}

impl From<PartError> for BenchError {
    fn from(error: PartError) -> Self {
        match error {
            PartError::Failed => BenchError::Failed,
            PartError::NoMemory => BenchError::NoMemory,
        }
    }
}

impl From<StoreFault> for BenchError {
    fn from(_: StoreFault) -> Self {
        BenchError::Failed
    }
}

impl From<io::Error> for BenchError {
    fn from(_: io::Error) -> Self {
        BenchError::Failed
    }
}

impl From<AllocError> for BenchError {
    fn from(_: AllocError) -> Self {
        BenchError::NoMemory
    }
}

impl<T: Drop> From<AllocFailed<T>> for BenchError {
    fn from(_: AllocFailed<T>) -> Self {
        BenchError::NoMemory
    }
}
