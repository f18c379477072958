//! Trusted edge: the host's files that are in use, so that no two names are one file.
use crate::BenchError;
use std::alloc::Global;
use std::fs;
use std::os::unix::fs::MetadataExt;
use std::rt::Files;

// Which of the host's files one is: its device, and its number there, which is 0 where the host tells none.
#[derive(Clone, Copy, PartialEq, Eq)]
struct FileId {
    device: u64,
    number: u64,
}

/// The host's files that are in use: no two names may be one file, as by a hard link or a link to another's file, since what is
/// written under the one would change the other.
#[derive(Drop)]
pub(crate) struct FileIds {
    ids: Vec<FileId>,
}

impl FileIds {
    pub(crate) fn new(alloc: Global) -> Self {
        FileIds {
            ids: Vec::new(alloc),
        }
    }

    /// Notes the file of this path; refused where it is one that was noted before.
    pub(crate) fn note<R: Files>(&mut self, rt: &R, path: &str) -> Result<(), BenchError> {
        let metadata = fs::metadata(rt, path)?;
        let id = FileId {
            device: metadata.dev(),
            number: metadata.ino(),
        };
        if id.number != 0 && self.ids.contains(&id) {
            return Err(BenchError::Failed);
        }
        self.ids.push(id)?;
        Ok(())
    }
}
