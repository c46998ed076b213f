//! Files that are written whole, or not at all.

use std::fs::{File, OpenOptions, Permissions};
use std::io::Write;
use std::os::unix::fs::MetadataExt;
use std::{fs, io, process};

/// What leads to the files of standard output and standard error.
const STREAMS: [&str; 2] = ["/dev/stdout", "/dev/stderr"];

/// Whether a path leads to no file that another could take the place of: to a device, a pipe or a folder, to the file
/// that standard output or standard error goes to, or, as a link, to none.
fn is_written_in_place(rt: &HostRuntime, path: &str) -> bool {
    let Ok(there) = fs::metadata(rt, path) else {
        return fs::symlink_metadata(rt, path).is_ok();
    };
    if !there.is_file() {
        return true;
    }
    for stream in STREAMS {
        if let Ok(other) = fs::metadata(rt, stream) {
            if other.dev() == there.dev() && other.ino() == there.ino() {
                return true;
            }
        }
    }
    false
}

/// The place of a file, and the name beside it that the file has until it is whole.
#[derive(Drop)]
struct Places {
    place: String,
    beside: String,
}

impl Places {
    /// Those of a path, whose links are followed. The number of the process keeps the names of two processes apart.
    fn of(rt: &HostRuntime, path: &str) -> io::Result<Places> {
        let place = match fs::symlink_metadata(rt, path) {
            Ok(there) if there.is_symlink() => fs::canonicalize(rt, path)?.into_string(),
            _ => String::from_str(rt.alloc(), path)?,
        };
        let number = process::id(rt.process());
        let beside = format!(in rt.alloc(); "{place}.{number}.tmp")?;
        Ok(Places { place, beside })
    }
}

/// The permissions of the file in a place, if there is one. One that may not be written is an error.
fn permissions_of(rt: &HostRuntime, place: &str) -> io::Result<Option<Permissions>> {
    match OpenOptions::new().write(true).open(rt, place) {
        Ok(file) => Ok(Some(file.metadata()?.permissions())),
        Err(error) if error.kind() == io::ErrorKind::NotFound => Ok(None),
        Err(error) => Err(error),
    }
}

/// Writes a file that was made beside its place, and moves it there.
fn fill(
    rt: &HostRuntime,
    mut file: File,
    places: &Places,
    permissions: Option<Permissions>,
    bytes: &[u8],
) -> io::Result<()> {
    if let Some(permissions) = permissions {
        file.set_permissions(permissions)?;
    }
    file.write_all(bytes)?;
    // What the disk doesn't take may be known only now.
    file.sync_data()?;
    fs::rename(rt, places.beside.as_str(), places.place.as_str())
}

/// Writes a file. Where that fails, what stood there before stands there, and nothing else was left. What no other file
/// can take the place of is written where it is.
pub fn write_whole(rt: &HostRuntime, path: &str, bytes: &[u8]) -> io::Result<()> {
    if is_written_in_place(rt, path) {
        return fs::write(rt, path, bytes);
    }
    // Where there is no memory for the names, the file needs none.
    let Ok(places) = Places::of(rt, path) else {
        return fs::write(rt, path, bytes);
    };
    let permissions = permissions_of(rt, places.place.as_str())?;
    // A process of the same number may have been ended as it wrote.
    let _ = fs::remove_file(rt, places.beside.as_str());
    let file = File::create_new(rt, places.beside.as_str())?;
    let done = fill(rt, file, &places, permissions, bytes);
    if done.is_err() {
        let _ = fs::remove_file(rt, places.beside.as_str());
    }
    done
}
