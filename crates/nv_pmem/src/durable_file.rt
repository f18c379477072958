//! Trusted edge: a file whose entry in its folder is durable too.
use std::fs::{self, File, OpenFile, OpenOptions};
use std::io::{self, ErrorKind};
use std::path::Path;
use std::rt::Files;

/// Opens a file to read and to write, made where there is none. It and its entry in its folder are durable when this
/// returns, so what is read of it then is what a power failure leaves. What stands there and is no file, or a link that leads
/// to none, is refused.
pub fn open_durable<R: Files>(rt: &R, path: &str) -> io::Result<R::File> {
    let file = open_or_make(rt, path)?;
    file.sync_all()?;
    sync_folder_of(rt, path)?;
    Ok(file)
}

/// Opens a file to read it alone; none where there is none. Nothing is made, changed or synced, so of what is
/// read a power failure may leave less. What stands there and is no file, or a link that leads to none, is
/// refused.
pub fn open_to_read<R: Files>(rt: &R, path: &str) -> io::Result<Option<R::File>> {
    if !is_file_there(rt, path)? {
        return Ok(None);
    }
    Ok(Some(File::open(rt, path)?))
}

/// Makes durable which files the folder of a path has.
pub fn sync_folder_of<R: Files>(rt: &R, path: &str) -> io::Result<()> {
    match Path::new(path).parent() {
        Some(folder) if folder.as_str() != "" => File::open(rt, folder)?.sync_all(),
        _ => File::open(rt, ".")?.sync_all(),
    }
}

// A new file is made at no link.
fn open_or_make<R: Files>(rt: &R, path: &str) -> io::Result<R::File> {
    let mut how = OpenOptions::new();
    how.read(true).write(true);
    if !is_file_there(rt, path)? {
        how.create_new(true);
    }
    how.open(rt, path)
}

// Whether a file stands there. Anything else is refused, since the opening or the reading of other things may
// never end.
fn is_file_there<R: Files>(rt: &R, path: &str) -> io::Result<bool> {
    match fs::symlink_metadata(rt, path) {
        Err(error) if error.kind() == ErrorKind::NotFound => Ok(false),
        Err(error) => Err(error),
        Ok(_) if fs::metadata(rt, path)?.is_file() => Ok(true),
        Ok(_) => Err(ErrorKind::Unsupported.into()),
    }
}
