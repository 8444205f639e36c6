//! What is to become of a file that is saved.

use std::fs::{self, Metadata};
use std::io::{self, ErrorKind};
use std::os::unix::fs::MetadataExt;
use std::path::{Path, PathBuf};
use std::rt::Files;

/// How many links one after the other are followed, which is as many as the machine follows.
const LINKS: u32 = 40;

/// What is to become of a file that is saved.
#[derive(Debug, Drop)]
pub enum Target {
    /// It is not there, or a regular file that may be written: a new file takes its place.
    Replaced {
        /// Its name, where all links were followed.
        place: String,
        /// What the machine tells of the file that is there.
        old: Option<Metadata>,
    },
    /// It is the regular file that standard output goes to.
    StandardOutput,
    /// It is another thing, as a device or a pipe: it is written through.
    Written,
}

/// Whether both are of one file.
pub fn is_same_file(one: &Metadata, other: &Metadata) -> bool {
    one.dev() == other.dev() && one.ino() == other.ino()
}

// Whether standard output goes to this file. Where the machine has no /proc, it does not tell.
fn is_standard_output<R: Files>(rt: &R, file: &Metadata) -> bool {
    fs::metadata(rt, "/proc/self/fd/1").is_ok_and(|output| is_same_file(&output, file))
}

/// What is to become of the file of a name. An error is that of memory that was refused.
pub fn target_of<R: Files + AllocGlobal>(rt: &R, name: &str) -> io::Result<Target> {
    let old = match fs::metadata(rt, name) {
        Ok(file) if !file.is_file() => return Ok(Target::Written),
        Ok(file) if is_standard_output(rt, &file) => return Ok(Target::StandardOutput),
        Ok(file) if file.permissions().readonly() => return Ok(Target::Written),
        Ok(file) => Some(file),
        Err(error) if error.kind() == ErrorKind::NotFound => None,
        Err(_) => return Ok(Target::Written),
    };
    match place_of(rt, name) {
        Ok(Some(place)) => Ok(Target::Replaced {
            place: place.into_string(),
            old,
        }),
        Err(error) if error.kind() == ErrorKind::OutOfMemory => Err(error),
        Ok(None) | Err(_) => Ok(Target::Written),
    }
}

// The name to which a name leads by links, or nothing where one of the links is the machine's own.
fn place_of<R: Files + AllocGlobal>(rt: &R, name: &str) -> io::Result<Option<PathBuf>> {
    let mut place = PathBuf::from_str(rt.alloc(), name)?;
    for _ in 0..LINKS {
        if !is_link(rt, place.as_path()) {
            return Ok(Some(place));
        }
        let folder = place.as_path().parent().unwrap_or(Path::new(""));
        if is_of_the_machine(rt, folder)? {
            return Ok(None);
        }
        let target = fs::read_link(rt, place.as_path())?;
        place = folder.join(rt.alloc(), target)?;
    }
    Ok(None)
}

fn is_link<R: Files>(rt: &R, place: Path<'_>) -> bool {
    fs::symlink_metadata(rt, place).is_ok_and(|found| found.is_symlink())
}

// Whether a folder lies under /dev or /proc, whose links may lead to things that have no name.
fn is_of_the_machine<R: Files + AllocGlobal>(rt: &R, folder: Path<'_>) -> io::Result<bool> {
    match fs::canonicalize(rt, Path::new(".").join(rt.alloc(), folder)?) {
        Ok(folder) => Ok(
            folder.as_path().starts_with("/dev") || folder.as_path().starts_with("/proc"),
        ),
        Err(error) if error.kind() == ErrorKind::OutOfMemory => Err(error),
        Err(_) => Ok(false),
    }
}
