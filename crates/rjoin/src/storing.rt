//! Storing a file of the host, whole or not at all.

use std::fs::{File, OpenFile};
use std::io::{ErrorKind, Write};
use std::rt::Files;
use std::{fs, io};

/// How many names of a temporary file are tried.
const TRIES: u32 = 100;

/// Stores these bytes as the file at a path.
///
/// They are written to a temporary file beside it, which then takes its name: so the file is stored
/// whole or not at all. What is there and isn't a regular file, such as a device, a pipe or a link,
/// is written to as it stands.
pub fn store<R: Files + AllocGlobal>(rt: &R, path: &str, bytes: &[u8]) -> io::Result<()> {
    if is_special(rt, path) {
        return fs::write(rt, path, bytes);
    }
    let (name, file) = create_beside(rt, path)?;
    let stored = fill_and_rename(rt, file, bytes, name.as_str(), path);
    if stored.is_err() {
        // The first fault is reported, whatever becomes of the temporary file.
        let _ = fs::remove_file(rt, name.as_str());
    }
    stored
}

/// Whether there is something at a path that isn't a regular file.
fn is_special<R: Files>(rt: &R, path: &str) -> bool {
    match fs::symlink_metadata(rt, path) {
        Ok(metadata) => !metadata.is_file(),
        Err(_) => false,
    }
}

/// A new file beside this path, and its name.
fn create_beside<R: Files + AllocGlobal>(rt: &R, path: &str) -> io::Result<(String, R::File)> {
    for number in 0..TRIES {
        let name = format!(in rt.alloc(); "{path}.{number}.part")?;
        match File::create_new(rt, name.as_str()) {
            Ok(file) => return Ok((name, file)),
            Err(error) if error.kind() == ErrorKind::AlreadyExists => {}
            Err(error) => return Err(error),
        }
    }
    Err(io::Error::from(ErrorKind::AlreadyExists))
}

/// Writes the bytes to a file with this name, which then takes the path.
fn fill_and_rename<R: Files>(
    rt: &R,
    mut file: R::File,
    bytes: &[u8],
    name: &str,
    path: &str,
) -> io::Result<()> {
    file.write_all(bytes)?;
    file.sync_all()?;
    fs::rename(rt, name, path)
}
