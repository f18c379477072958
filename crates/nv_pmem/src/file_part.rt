//! Trusted edge: a part over a file.
ghost use Rattle.std.specs.Prelude.{◌≡◌, ◌<◌, ◌≤◌, true, false, vec_len, IfOk};
ghost use Rattle.nv_pmem.specs.FilePart.{is_read_only, part_device, part_history, part_room, part_faults, part_told_lines};

use crate::durable_file::{open_durable, open_to_read};
use crate::fault_counter::FaultCounter;
use crate::mem_line::word_of_bytes;
use crate::{LineFault, Lines};
use std::alloc::{AllocError, AllocFailed, Global};
use std::fs::{OpenFile, OpenOptions};
use std::io::{self, ErrorKind, Read, Seek, SeekFrom, Write};
use std::rt::Files;
use thiserror::Error;

/// Why a part over a file wasn't opened.
#[derive(Clone, Copy, Debug, PartialEq, Eq, Error)]
pub enum PartError {
    /// A call of the host failed. The file may be made or longer, its lines are as they were.
    #[error("a file of the region could not be opened")]
    Failed,
    /// There was not enough memory for the lines.
    #[error("no memory")]
    NoMemory,
}

/// A part over a file, of lines of 64 bytes; what stands behind the last whole line is not read. It holds its
/// lines in memory, and a fence writes those that were flushed, as they are then, to the file and syncs it.
/// The file is open inside a call alone, so a process may have more parts than files open. One that is
/// read-only writes nothing: its fence is refused where a line was flushed. It tells nothing. It is trusted
/// that the host leaves each word of a line of a file old or new where power fails, and keeps what a sync
/// that went well was given.
#[derive(Drop)]
pub struct FilePart<R> {
    rt: R,
    path: String,
    is_read_only: bool,
    lines: Vec<FileLine>,
    fault_counter: FaultCounter,
}

#[derive(Clone, Copy)]
struct FileLine {
    bytes: [u8; 64],
    is_flushed: bool,
}

impl<R: Files + Copy> FilePart<R> {
    /// The part over the file of this path, with at least so many lines: where there is no file or a shorter one, it is made or
    /// made longer, with lines of zeros. What the lines hold is durable. It takes about 72 bytes a line.
    pub fn open(rt: R, alloc: Global, path: &str, least: u64) -> Result<Self, PartError>
        ensures lines { IfOk result (λ part. least ≤ (part_room part).lines) }
        ensures faults { IfOk result (λ part. part_faults part ≡ 0) }
        ensures writable { IfOk result (λ part. is_read_only part ≡ false) }
    {
        let mut file = open_durable(&rt, path)?;
        let lines = (file.metadata()?.len() / 64).max(least);
        Self::over(rt, alloc, path, &mut file, lines)
    }

    /// As `open`, but with exactly so many lines: a longer file is cut.
    pub fn sized(rt: R, alloc: Global, path: &str, lines: u64) -> Result<Self, PartError>
        ensures lines { IfOk result (λ part. (part_room part).lines ≡ lines) }
        ensures faults { IfOk result (λ part. part_faults part ≡ 0) }
        ensures writable { IfOk result (λ part. is_read_only part ≡ false) }
    {
        let mut file = open_durable(&rt, path)?;
        if lines < file.metadata()?.len().div_ceil(64) {
            file.set_len(lines.saturating_mul(64))?;
        }
        Self::over(rt, alloc, path, &mut file, lines)
    }

    /// The part over the file of this path, with its lines, to be looked at: no right to write is needed, and
    /// nothing is made, written or synced, so of what the lines hold a power failure may leave less. Refused
    /// where there is no file. It takes about 72 bytes a line.
    pub fn read_only(rt: R, alloc: Global, path: &str) -> Result<Self, PartError>
        ensures faults { IfOk result (λ part. part_faults part ≡ 0) }
        ensures read_only { IfOk result (λ part. is_read_only part ≡ true) }
    {
        let Some(mut file) = open_to_read(&rt, path)? else {
            return Err(PartError::Failed);
        };
        let path = String::from_str(alloc, path)?;
        let lines = file.metadata()?.len() / 64;
        Ok(FilePart {
            rt,
            path,
            is_read_only: true,
            lines: read_lines(alloc, &mut file, lines as usize)?,
            fault_counter: FaultCounter::new(None),
        })
    }

    // The part of so many lines over this file, which is made longer where it has less. What stands behind its last whole line is
    // cut first, so that all new lines are zeros.
    fn over(
        rt: R,
        alloc: Global,
        path: &str,
        file: &mut R::File,
        lines: u64,
    ) -> Result<Self, PartError>
        ensures lines { IfOk result (λ part. (part_room part).lines ≡ lines) }
        ensures faults { IfOk result (λ part. part_faults part ≡ 0) }
        ensures writable { IfOk result (λ part. is_read_only part ≡ false) }
    {
        let path = String::from_str(alloc, path)?;
        let whole = file.metadata()?.len() / 64;
        if whole < lines {
            file.set_len(whole * 64)?;
            file.set_len(lines.saturating_mul(64))?;
        }
        file.sync_all()?;
        Ok(FilePart {
            rt,
            path,
            is_read_only: false,
            lines: read_lines(alloc, file, lines as usize)?,
            fault_counter: FaultCounter::new(None),
        })
    }

    /// The value of a word. It isn't a call of `Lines`, and never fails.
    pub fn peek(&self, line: u64, word: u64) -> u64
        requires line { line < (part_room self.now).lines }
        requires word { word < 8 }
    {
        word_of_bytes(&self.lines[line as usize].bytes, word as usize)
    }

    // Writes the flushed lines to the file and syncs it. Where this fails they stay flushed, so the next fence writes them again.
    fn write_flushed(&self) -> io::Result<()> {
        if !self.lines.iter().any(|line| line.is_flushed) {
            return Ok(());
        }
        if self.is_read_only {
            return Err(ErrorKind::PermissionDenied.into());
        }
        let mut file = OpenOptions::new()
            .write(true)
            .open(&self.rt, self.path.as_str())?;
        let mut at: u64 = 0;
        for line in &self.lines {
            if line.is_flushed {
                file.seek(SeekFrom::Start(at))?;
                file.write_all(&line.bytes)?;
            }
            at = at.saturating_add(64);
        }
        file.sync_data()
    }
}

impl<R: Files + Copy> Lines for FilePart<R> {
    ghost device = { part_device };

    ghost history = { part_history };

    ghost room = { part_room };

    ghost fault_count = { part_faults };

    fn lines(&self) -> u64 {
        self.lines.len() as u64
    }

    fn load(&mut self, line: u64, word: u64) -> Result<u64, LineFault> {
        Ok(word_of_bytes(&self.lines[line as usize].bytes, word as usize))
    }

    fn store(&mut self, line: u64, word: u64, value: u64) -> Result<(), LineFault> {
        self.lines[line as usize].bytes[8 * word as usize..][..8].copy_from_slice(
            &value.to_le_bytes(),
        );
        Ok(())
    }

    fn store_line(&mut self, line: u64, bytes: &[u8; 64]) -> Result<(), LineFault> {
        self.lines[line as usize].bytes = *bytes;
        Ok(())
    }

    fn flush(&mut self, line: u64) -> Result<(), LineFault> {
        self.lines[line as usize].is_flushed = true;
        Ok(())
    }

    fn fence(&mut self) -> Result<(), LineFault> {
        let written = self.write_flushed();
        self.fault_counter.noted(written)?;
        forget_flushes(&mut self.lines);
        Ok(())
    }

    fn faults(&self) -> u64 {
        self.fault_counter.faults()
    }

    ghost told_lines = { part_told_lines };
}

// The first lines of a file.
fn read_lines<F: Read + Seek>(
    alloc: Global,
    file: &mut F,
    count: usize,
) -> Result<Vec<FileLine>, PartError>
    ensures { IfOk result (λ lines. vec_len lines ≡ count) }
{
    let mut lines = Vec::new(alloc);
    lines.reserve(count)?;
    file.seek(SeekFrom::Start(0))?;
    for _ in 0..count {
        let mut line = FileLine {
            bytes: [0; 64],
            is_flushed: false,
        };
        file.read_exact(&mut line.bytes)?;
        lines.push(line)?;
    }
    Ok(lines)
}

fn forget_flushes(lines: &mut [FileLine]) {
    for line in lines {
        line.is_flushed = false;
    }
}

impl From<io::Error> for PartError {
    fn from(_: io::Error) -> Self {
        PartError::Failed
    }
}

impl From<AllocError> for PartError {
    fn from(_: AllocError) -> Self {
        PartError::NoMemory
    }
}

impl<T: Drop> From<AllocFailed<T>> for PartError {
    fn from(_: AllocFailed<T>) -> Self {
        PartError::NoMemory
    }
}
