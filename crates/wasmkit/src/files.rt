//! The machine's files.

mod part;
mod target;

use crate::store::{Store, StoreFault};
use part::{replace, write_through};
use std::fs::{self, File, OpenFile};
use std::io::{self, ErrorKind, Read, Write};
use std::rt::Files;
use target::{Target, target_of};
use wk_bytes::LIMIT;

/// What standard output gets once a file is saved.
#[derive(Clone, Copy, Debug, PartialEq, Eq)]
pub enum AfterSave {
    /// A report.
    Report,
    /// Nothing.
    Nothing,
}

/// The machine's files.
#[derive(Drop)]
pub struct MachineFiles<'a, R> {
    rt: &'a R,
    after_save: AfterSave,
}

impl<'a, R: Files<File = File> + Print + AllocGlobal> MachineFiles<'a, R> {
    /// Those that the machine lends to a program that prints this once a file is saved.
    pub fn new(rt: &'a R, after_save: AfterSave) -> MachineFiles<'a, R> {
        MachineFiles { rt, after_save }
    }
}

fn fault_of(error: io::Error) -> StoreFault {
    match error.kind() {
        ErrorKind::OutOfMemory => StoreFault::Memory,
        _ => StoreFault::Failed,
    }
}

// All bytes of a file; of one that has more than a module may have, the first of them, one too many. Where the machine tells the file's
// length, memory for that is asked for at once, with a byte for the read that finds the end, so that none is made in vain. A pipe, and a
// file that is made as it is read, tell none.
fn read_whole<R: Files + AllocGlobal>(rt: &R, name: &str) -> io::Result<Vec<u8>> {
    let most = LIMIT as u64 + 1;
    let file = fs::open(rt, name)?;
    let told = file.metadata().map_or(0, |metadata| metadata.len());
    let capacity = match told.min(most) as usize {
        0 => 0,
        len => len.saturating_add(1),
    };
    let mut bytes = Vec::with_capacity(rt.alloc(), capacity)?;
    file.take(most).read_to_end(&mut bytes)?;
    Ok(bytes)
}

// Writes a file whole, as it is to be.
fn write_whole<R: Files<File = File> + Print + AllocGlobal>(
    rt: &R,
    name: &str,
    bytes: &[u8],
    after_save: AfterSave,
) -> io::Result<()> {
    match target_of(rt, name)? {
        Target::Replaced { place, old } => replace(rt, &place, bytes, old.as_ref()),
        Target::Written => write_through(rt, name, bytes),
        Target::StandardOutput => match after_save {
            AfterSave::Report => Err(io::Error::from(ErrorKind::ResourceBusy)),
            AfterSave::Nothing => io::writer(rt).write_all(bytes),
        },
    }
}

impl<'a, R: Files<File = File> + Print + AllocGlobal> Store for MachineFiles<'a, R> {
    ghost use Rattle.std.specs.Prelude.{None};

    ghost asked = { λ files. None };

    fn load(&mut self, name: &str) -> Result<Vec<u8>, StoreFault> {
        read_whole(self.rt, name).map_err(fault_of)
    }

    fn save(&mut self, name: &str, bytes: &[u8]) -> Result<(), StoreFault> {
        write_whole(self.rt, name, bytes, self.after_save).map_err(fault_of)
    }
}
