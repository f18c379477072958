//! Trusted edge: a store over a file.
ghost use Rattle.std.specs.Prelude.{◌≡◌, IfOk};
ghost use Rattle.nv_store.specs.FileStore.{store_device, store_history, store_faults, store_told_whole};

use crate::{Backing, StoreError, StoreFault};
use nv_pmem::{FaultCounter, open_durable, open_to_read};
use std::fs::OpenFile;
use std::io::{self, ErrorKind, Read, Seek, SeekFrom, Write};
use std::rt::Files;

/// A store over a file, which is open as long as the store lives. It tells nothing. It is trusted that the host gives to reads
/// what was written, and keeps what a sync that went well was given.
#[derive(Drop)]
pub struct FileStore<F> {
    // None where a store was opened to be read and there is no file.
    file: Option<F>,
    // A host may forget what it could not write, and then say of a later sync that it went well.
    is_lost: bool,
    fault_counter: FaultCounter,
}

impl<F: Read + Write + Seek + OpenFile> FileStore<F> {
    /// The store over the file of this path, an empty one where there is none. What it holds is durable.
    pub fn open<R: Files<File = F>>(rt: &R, path: &str) -> Result<Self, StoreFault>
        ensures { IfOk result (λ store. store_faults store ≡ 0) }
    {
        match open_durable(rt, path) {
            Ok(file) => Ok(Self::over(file)),
            Err(_) => Err(StoreFault),
        }
    }

    /// The store over the file of this path, to be looked at: no right to write is needed, and nothing is
    /// made, changed or synced, so of what it holds a power failure may leave less. Where there is no file it
    /// is empty. A write of bytes is refused.
    pub fn read_only<R: Files<File = F>>(rt: &R, path: &str) -> Result<Self, StoreFault>
        ensures { IfOk result (λ store. store_faults store ≡ 0) }
    {
        match open_to_read(rt, path) {
            Ok(file) => Ok(Self::of(file)),
            Err(_) => Err(StoreFault),
        }
    }

    /// The store over an open file, which it is trusted with: what the file holds is to be durable.
    pub fn over(file: F) -> Self
        ensures { store_faults result ≡ 0 }
    {
        Self::of(Some(file))
    }

    fn of(file: Option<F>) -> Self
        ensures { store_faults result ≡ 0 }
    {
        FileStore {
            file,
            is_lost: false,
            fault_counter: FaultCounter::new(None),
        }
    }
}

impl<F: Read + Write + Seek + OpenFile> Backing for FileStore<F> {
    ghost device = { store_device };

    ghost history = { store_history };

    ghost fault_count = { store_faults };

    fn len(&mut self) -> Result<u64, StoreFault> {
        let len = len_of(&self.file);
        Ok(self.fault_counter.noted(len)?)
    }

    fn pread(&mut self, at: u64, buf: &mut [u8]) -> Result<u64, StoreFault> {
        let count = self.len()?.saturating_sub(at).min(buf.len() as u64);
        let read = read_from(&mut self.file, at, &mut buf[..count as usize]);
        self.fault_counter.noted(read)?;
        Ok(count)
    }

    fn pwrite(&mut self, at: u64, bytes: &[u8]) -> Result<(), StoreError> {
        let written = write_from(&mut self.file, at, bytes);
        match self.fault_counter.noted(written) {
            Ok(()) => Ok(()),
            Err(_) => Err(StoreError::Fault),
        }
    }

    fn sync(&mut self) -> Result<(), StoreFault> {
        let synced = sync_unless_lost(&self.file, &mut self.is_lost);
        self.fault_counter.noted(synced)?;
        Ok(())
    }

    fn faults(&self) -> u64 {
        self.fault_counter.faults()
    }

    ghost told_whole = { store_told_whole };
}

fn len_of<F: OpenFile>(file: &Option<F>) -> io::Result<u64> {
    match file {
        Some(file) => Ok(file.metadata()?.len()),
        None => Ok(0),
    }
}

fn read_from<F: Read + Seek>(file: &mut Option<F>, at: u64, buf: &mut [u8]) -> io::Result<()> {
    if buf.is_empty() {
        return Ok(());
    }
    let file = there(file)?;
    file.seek(SeekFrom::Start(at))?;
    file.read_exact(buf)
}

fn write_from<F: Write + Seek>(file: &mut Option<F>, at: u64, bytes: &[u8]) -> io::Result<()> {
    if bytes.is_empty() {
        return Ok(());
    }
    let file = there(file)?;
    file.seek(SeekFrom::Start(at))?;
    file.write_all(bytes)
}

// The file, which isn't there where a store is only looked at.
fn there<F>(file: &mut Option<F>) -> io::Result<&mut F> {
    file.as_mut().ok_or(ErrorKind::PermissionDenied.into())
}

// Once a sync has failed, each later one does. Where there is no file nothing was written.
fn sync_unless_lost<F: OpenFile>(file: &Option<F>, is_lost: &mut bool) -> io::Result<()> {
    if *is_lost {
        return Err(ErrorKind::Other.into());
    }
    let Some(file) = file else {
        return Ok(());
    };
    let synced = file.sync_data();
    *is_lost = synced.is_err();
    synced
}
