//! `wasmkit`: reads, judges, lists, strips and edits WebAssembly 1.0 binary modules.
//!
//! # What it promises
//!
//! - `program` is the whole behind the words, for every `Store` of files and every `Out` (`specs/Runs`, beside `docs/CLI.md`). The files of
//!   the command are loaded in their order and nothing else is; OUT is saved at most once, behind them; standard output gets its text, or a
//!   beginning of it where it fails or a listing wants memory, or nothing where memory is refused before; standard error gets the text of what
//!   failed, but for what `clap` says of words; and the exit status is that of what came of the files, or of what failed, or 5.
//! - What came of them is by the definitions of `wk_answers`, `wk_strip` and `wk_edit` (`specs/Answers`).
//! - The words decide the command (`wk_command_line`, beside `docs/CLI.md`): what is carried out is the only command that they spell. Where they
//!   spell none, nothing is asked of the store, and nothing is printed on standard output.
//!
//! `main` hands the machine's words, files and streams to `program`, and its status to the machine. This, the machine's files and what `clap` says of
//! words have no clauses: they are tested.
#![tactic(auto)]

ghost use Rattle.wasmkit.specs.Faults.{IsOfWords};

mod commands;
mod fault;
mod files;
mod store;

use crate::commands::{program, tell};
use crate::fault::ProgramFault;
use crate::files::{AfterSave, MachineFiles};
use std::process::ExitCode;
use std::{env, io};
use wk_bytes::Stream;

// The words after the program's name.
fn words(rt: &HostRuntime) -> io::Result<Vec<String>> {
    let mut words = Vec::new(rt.alloc());
    for word in env::args(rt)?.skip(1) {
        words.push(word)?;
    }
    Ok(words)
}

// What the command of these words prints once OUT is made. The first word names the command.
fn after_save(words: &[String]) -> AfterSave {
    match words.first() {
        Some(word) if word.as_str() == "edit" => AfterSave::Report,
        _ => AfterSave::Nothing,
    }
}

// Words that are no text are a bad command line.
fn fault_of(error: &io::Error) -> ProgramFault<'static>
    ensures { IsOfWords result }
{
    match error.kind() {
        io::ErrorKind::OutOfMemory => ProgramFault::Memory,
        _ => ProgramFault::BadWords,
    }
}

fn main(rt: HostRuntime) -> io::Result<ExitCode> {
    let alloc = rt.alloc();
    let mut err = Stream::new(rt.stderr());
    let status = match words(&rt) {
        Ok(words) => {
            let mut store = MachineFiles::new(&rt, after_save(&words));
            let mut out = Stream::new(rt.stdout());
            program(alloc, &words, &mut store, &mut out, &mut err)
        }
        Err(error) => tell(alloc, &fault_of(&error), &mut err),
    };
    Ok(ExitCode::from(status))
}
