//! How a new file takes the place of an old one: it is made beside it, as a part, and renamed when it is whole.

use crate::files::target::is_same_file;
use std::fs::{self, File, Metadata, OpenOptions, Permissions};
use std::io::{self, ErrorKind, Write};
use std::os::unix::fs::{MetadataExt, PermissionsExt, fchown};
use std::rt::Files;

/// How many names beside a file are tried for the one that is to take its place.
const NAMES_BESIDE: u32 = 100;

/// The permissions of a part that is locked while it is written. By them a later run knows one that a killed run has left.
const PART_MODE: u32 = 0o200;

/// The permissions that stay where a file is replaced: all but set-user-id and set-group-id.
const KEPT_MODE: u32 = 0o1777;

// A file that is to take the place of another, and its name until then.
#[derive(Drop)]
struct Part {
    name: String,
    file: File,
}

impl Part {
    // Locks the file and gives it the mode of parts, or tells that this cannot be had here.
    fn mark(&self) -> bool {
        let mode = Permissions::from_mode(PART_MODE);
        self.file.try_lock().is_ok() && self.file.set_permissions(mode).is_ok()
    }

    // Writes all bytes of the file, and then gives it the owner and the permissions of the old one, or those that it was made with.
    fn fill(&mut self, bytes: &[u8], old: Option<&Metadata>) -> io::Result<()> {
        let made = self.file.metadata()?;
        let is_marked = self.mark();
        self.file.write_all(bytes)?;
        let mode = match old {
            Some(old) => {
                give_back_owner(&self.file, old);
                old.mode()
            }
            None if is_marked => made.mode(),
            None => return Ok(()),
        };
        self.file
            .set_permissions(Permissions::from_mode(mode & KEPT_MODE))
    }
}

// Gives a file the owner and the group of another, or the group alone, where the process may.
fn give_back_owner(file: &File, old: &Metadata) {
    let group = Some(old.gid());
    if fchown(file, Some(old.uid()), group).is_err() {
        let _ = fchown(file, None, group);
    }
}

// Whether this is the file of a part that was locked while it was written.
fn is_part(found: &Metadata) -> bool {
    found.is_file() && found.mode() & 0o7777 == PART_MODE
}

// Removes the part of this name that a killed run has left. Nobody else has it open then: who writes a part holds its lock
// until it has another name.
fn remove_left<R: Files<File = File>>(rt: &R, name: &str) -> io::Result<()> {
    if !is_part(&fs::symlink_metadata(rt, name)?) {
        return Err(io::Error::from(ErrorKind::AlreadyExists));
    }
    let file = OpenOptions::new().write(true).open(rt, name)?;
    file.try_lock()?;
    let found = fs::symlink_metadata(rt, name)?;
    if is_part(&found) && is_same_file(&found, &file.metadata()?) {
        fs::remove_file(rt, name)
    } else {
        Err(io::Error::from(ErrorKind::AlreadyExists))
    }
}

fn create<R: Files>(rt: &R, name: &str) -> io::Result<R::File> {
    OpenOptions::new()
        .write(true)
        .create_new(true)
        .open(rt, name)
}

// Makes a file of this name, which is not there yet, or was left by a killed run.
fn create_anew<R: Files<File = File>>(rt: &R, name: &str) -> io::Result<File> {
    match create(rt, name) {
        Err(error) if error.kind() == ErrorKind::AlreadyExists => match remove_left(rt, name) {
            Ok(()) => create(rt, name),
            Err(_) => Err(error),
        },
        made => made,
    }
}

// Makes a part for this place, or nothing where the folder takes none.
fn make_part<R: Files<File = File> + AllocGlobal>(rt: &R, place: &str) -> io::Result<Option<Part>> {
    for number in 0..NAMES_BESIDE {
        let name = format!(in rt.alloc(); "{place}.part{number}")?;
        match create_anew(rt, &name) {
            Ok(file) => return Ok(Some(Part { name, file })),
            Err(error) => match error.kind() {
                ErrorKind::AlreadyExists => {}
                ErrorKind::StorageFull | ErrorKind::QuotaExceeded => return Err(error),
                _ => return Ok(None),
            },
        }
    }
    Ok(None)
}

/// Writes a file through, and makes it where it is not there.
pub fn write_through<R: Files>(rt: &R, name: &str, bytes: &[u8]) -> io::Result<()> {
    let opened = OpenOptions::new().write(true).truncate(true).open(rt, name);
    let mut file = match opened {
        Err(error) if error.kind() == ErrorKind::NotFound => fs::create(rt, name)?,
        opened => opened?,
    };
    file.write_all(bytes)
}

/// Gives a place to a file of these bytes. It is whole before it takes the place of the old one, so that a run that is cut short leaves one or
/// the other. Where it may not take that place, the old one is written through once the part is away, so that its bytes have the disk.
pub fn replace<R: Files<File = File> + AllocGlobal>(
    rt: &R,
    place: &str,
    bytes: &[u8],
    old: Option<&Metadata>,
) -> io::Result<()> {
    let Some(mut part) = make_part(rt, place)? else {
        return write_through(rt, place, bytes);
    };
    let done = match part.fill(bytes, old) {
        Ok(()) => fs::rename(rt, &part.name, place),
        Err(error) => Err(error),
    };
    let Err(error) = done else {
        return Ok(());
    };
    let _ = fs::remove_file(rt, &part.name);
    match error.kind() {
        ErrorKind::PermissionDenied | ErrorKind::ResourceBusy => write_through(rt, place, bytes),
        _ => Err(error),
    }
}
