//! Writing a file of the system so that it comes into its place whole.
//!
//! The bytes go into a new file beside the name, which is moved onto the name once they are on the disk. So a program that
//! is killed at any moment leaves under the name what stood there, or all of the bytes; it may leave the new file behind.

use std::alloc::Global;
use std::fs::{File, OpenFile, Permissions};
use std::io::{ErrorKind, Write};
use std::path::{Path, PathBuf};
use std::{fs, io, rt};

/// Makes `name` hold exactly these bytes. A link to a regular file stays, and the file that it leads to is replaced. What is
/// no regular file, as a device or a pipe, is written straight to.
pub(crate) fn write_whole<R: rt::Files>(
    runtime: &R,
    alloc: Global,
    name: &str,
    bytes: &[u8],
) -> io::Result<()> {
    let found = match fs::symlink_metadata(runtime, name) {
        Ok(found) => found,
        Err(e) if e.kind() == ErrorKind::NotFound => {
            return replace(runtime, alloc, Path::new(name), bytes, None);
        }
        Err(e) => return Err(e),
    };
    if found.is_file() {
        return replace(
            runtime,
            alloc,
            Path::new(name),
            bytes,
            Some(found.permissions()),
        );
    }
    if found.is_symlink() && fs::metadata(runtime, name)?.is_file() {
        return write_linked(runtime, alloc, name, bytes);
    }
    fs::write(runtime, name, bytes)
}

/// Replaces the regular file that the link `name` leads to.
fn write_linked<R: rt::Files>(
    runtime: &R,
    alloc: Global,
    name: &str,
    bytes: &[u8],
) -> io::Result<()> {
    let path = runtime.canonicalize(alloc, name)?;
    let found = fs::metadata(runtime, path.as_path())?;
    replace(
        runtime,
        alloc,
        path.as_path(),
        bytes,
        Some(found.permissions()),
    )
}

/// Puts a new file with these bytes, and with the permissions of the old one, in the place of `path`.
fn replace<R: rt::Files>(
    runtime: &R,
    alloc: Global,
    path: Path<'_>,
    bytes: &[u8],
    permissions: Option<Permissions>,
) -> io::Result<()> {
    let NewFile { path: beside, file } = new_beside(runtime, alloc, path)?;
    let moved = match fill(file, bytes, permissions) {
        Ok(()) => fs::rename(runtime, beside.as_path(), path),
        Err(e) => Err(e),
    };
    if moved.is_err() {
        let _ = fs::remove_file(runtime, beside.as_path());
    }
    moved
}

/// A file that was not there before.
#[derive(Drop)]
struct NewFile<F: Drop> {
    path: PathBuf,
    file: F,
}

/// How many names beside a path are tried for its new file.
const MOST_TRIES: u32 = 1000;

/// A new file in the folder of this path, under the first name of its kind that nothing has.
fn new_beside<R: rt::Files>(
    runtime: &R,
    alloc: Global,
    path: Path<'_>,
) -> io::Result<NewFile<R::File>> {
    for number in 0..MOST_TRIES {
        let name = format!(in alloc; ".new-{number}.obf")?;
        let path = path.with_file_name(alloc, name.as_str())?;
        match File::create_new(runtime, path.as_path()) {
            Ok(file) => return Ok(NewFile { path, file }),
            Err(e) if e.kind() == ErrorKind::AlreadyExists => {}
            Err(e) => return Err(e),
        }
    }
    Err(io::Error::from(ErrorKind::AlreadyExists))
}

/// Writes the bytes to a new file, and waits until they are on the disk.
fn fill<F: Write + OpenFile + Drop>(
    mut file: F,
    bytes: &[u8],
    permissions: Option<Permissions>,
) -> io::Result<()> {
    file.write_all(bytes)?;
    if let Some(permissions) = permissions {
        file.set_permissions(permissions)?;
    }
    file.sync_all()
}
