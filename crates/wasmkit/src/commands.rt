//! The commands: what is read, what is made of it, and what is saved and printed.
//!
//! `specs/Answers` says what each command makes of the files that it reads, and `specs/Runs` in which order they are read, what is
//! saved, what is printed, and how it ends.
ghost use Rattle.std.specs.Prelude.{◌≡◌, ℕ, ◌-◌, ◌<◌, ◌^◌, false, if◌then◌else◌, List, [], map, option_map, string_bytes, Result, Ok, Err, IfOk, MatchResult};
ghost use Rattle.std.specs.List.{list_any};
ghost use Rattle.wk_module.specs.Reading.{module_at};
ghost use Rattle.wk_module.specs.Writing.{Fits};
ghost use Rattle.wk_list.specs.Listing.{lists_bodies};
ghost use Rattle.wk_edit.specs.Outcome.{outcome_of};
ghost use Rattle.wasmkit.specs.declared.fault.ProgramFault.{ProgramFault as Fault};
ghost use Rattle.wasmkit.specs.declared.store.StoreFault.{StoreFault as Why};
ghost use Rattle.wasmkit.specs.Answers.{listed, on_module, saved_of, AreOf};
ghost use Rattle.wasmkit.specs.Events.{Loaded, Saved, then_asked};
ghost use Rattle.wasmkit.specs.Faults.{IsOfLoad, IsOfSave};
ghost use Rattle.wasmkit.specs.Runs.{between, printing, Carries, Dumps, Edits, Exits, Frames, Gives, Goes, Hears, IsAnswered, Judges, Prints, Refuses, Saves, Strips};

mod each;
mod judging;
mod telling;

use crate::commands::each::run_each;
use crate::commands::judging::judged;
use crate::commands::telling::tell_after;
use crate::fault::ProgramFault;
use crate::store::Store;
use std::alloc::Global;
pub use telling::tell;
use wk_answers::{
    Explanation, Listing, list_bodies, list_parts, list_sections, list_summary_parts,
};
use wk_bytes::{LIMIT, Out, OutOfMemory, ReadFault, ReadKind, Sink, put_all};
use wk_check::malformed_line;
use wk_command_line::{
    Asked, EditCommand, ObjdumpCommand, StripCommand, ValidateCommand, read_words,
};
use wk_edit::{Status, edit_owned};
use wk_judging::Validator;
use wk_list::{Layout, Part, Summary};
use wk_module::{EncodeFault, Module, Profile, read_in};
use wk_strip::strip_bytes;

// Loads a file.
fn load<'a, S: Store>(store: &mut S, name: &'a str) -> Result<Vec<u8>, ProgramFault<'a>>
    ensures { MatchResult result
        (λ bytes. S.asked store.new
        ≡ then_asked (S.asked store.old) (Loaded name.now (Ok bytes.items)))
        (λ fault. (why : Why) × IsOfLoad name.now why fault
        × (S.asked store.new ≡ then_asked (S.asked store.old) (Loaded name.now (Err why)))) }
{
    match store.load(name) {
        Ok(bytes) => Ok(bytes),
        Err(fault) => Err(ProgramFault::of_load(fault, name)),
    }
}

// Saves a file.
fn save<'a, S: Store>(store: &mut S, name: &'a str, bytes: &[u8]) -> Result<(), ProgramFault<'a>>
    ensures { MatchResult result
        (λ x. S.asked store.new ≡ then_asked (S.asked store.old) (Saved name.now bytes.now (Ok x)))
        (λ fault. (why : Why) × IsOfSave name.now why fault
        × (S.asked store.new
        ≡ then_asked (S.asked store.old) (Saved name.now bytes.now (Err why)))) }
{
    match store.save(name, bytes) {
        Ok(()) => Ok(()),
        Err(fault) => Err(ProgramFault::of_save(fault, name)),
    }
}

// Prints a text, behind which there is only the status.
fn print<'a, X: Out>(text: &[u8], status: u8, out: &mut X) -> Result<u8, ProgramFault<'a>>
    requires { X.failed out.old < 2 ^ 64 - 1 }
    ensures { Prints status text.now [] (between X.taken X.failed out.old out.new) result }
{
    match put_all(out, text) {
        Ok(()) => Ok(status),
        Err(_) => Err(ProgramFault::Output),
    }
}

// Saves a file, if there are bytes for it, and then prints a text.
fn give<'a, S: Store, X: Out>(
    name: &'a str,
    saved: Option<&[u8]>,
    text: &[u8],
    status: u8,
    store: &mut S,
    out: &mut X,
) -> Result<u8, ProgramFault<'a>>
    requires { X.failed out.old < 2 ^ 64 - 1 }
    ensures { Goes
        (Saves name.now (option_map (λ bytes. bytes.now) saved.entry) (Prints status text.now))
        (S.asked store.old) (S.asked store.new)
        (between X.taken X.failed out.old out.new) result }
{
    if let Some(bytes) = saved {
        save(store, name, bytes)?;
    }
    print(text, status, out)
}

// Prints why the input is no module.
fn refuse_module<'a, X: Out>(
    alloc: Global,
    fault: &ReadFault,
    out: &mut X,
) -> Result<u8, ProgramFault<'a>>
    requires { X.failed out.old < 2 ^ 64 - 1 }
    ensures { Refuses fault.now (between X.taken X.failed out.old out.new) result }
{
    if let ReadKind::Memory = fault.kind {
        return Err(ProgramFault::Memory);
    }
    let line = malformed_line(alloc, fault)?;
    print(line.as_bytes(), 2, out)
}

// What comes of a module and a script.
#[derive(Drop)]
struct Edited {
    module: Vec<u8>,
    report: Vec<u8>,
    status: Status,
}

impl Edited {
    // The bytes of OUT, if it is to be made.
    fn saved(&self) -> Option<&[u8]>
        ensures { option_map (λ bytes. bytes.now) result
            ≡ saved_of self.now.status self.now.module.items }
    {
        match self.status {
            Status::Accepted | Status::Refused => Some(&self.module),
            Status::Malformed | Status::BadScript => None,
        }
    }
}

// Makes the edits of a script on a module. Both outputs lie in memory, so that each fault is a growth that was refused.
fn edit_bytes(
    alloc: Global,
    input: Vec<u8>,
    script: &[u8],
    keep_valid: bool,
    profile: Profile,
) -> Result<Edited, OutOfMemory>
    ensures { IfOk result (λ e. AreOf (outcome_of keep_valid profile input.items script.now)
        e.status e.module.items e.report.items) }
{
    // What is written is seldom longer than both files, and room that stays unwritten takes no memory of the machine.
    let room = input.len().saturating_add(script.len());
    let mut module = Sink::new(Vec::with_capacity(alloc, room)?);
    let mut report = Sink::new(Vec::new(alloc));
    match edit_owned(
        alloc,
        input,
        script,
        keep_valid,
        profile,
        &mut module,
        &mut report,
    ) {
        Ok(status) => Ok(Edited {
            module: module.into_inner(),
            report: report.into_inner(),
            status,
        }),
        Err(_) => Err(OutOfMemory),
    }
}

// Makes the edits of a script on a module: OUT is made once all is computed, and the report is printed behind it.
fn run_edit<'a, S: Store, X: Out>(
    alloc: Global,
    command: EditCommand<'a>,
    store: &mut S,
    out: &mut X,
) -> Result<u8, ProgramFault<'a>>
    requires { X.failed out.old < 2 ^ 64 - 1 }
    ensures { Goes (Edits command.entry) (S.asked store.old) (S.asked store.new)
        (between X.taken X.failed out.old out.new) result }
{
    let input = load(store, command.file)?;
    let script = load(store, command.script)?;
    if script.len() > LIMIT {
        return Err(ProgramFault::Read(command.script));
    }
    let edited = edit_bytes(alloc, input, &script, command.keep_valid, command.profile)?;
    give(
        command.out,
        edited.saved(),
        &edited.report,
        edited.status.code(),
        store,
        out,
    )
}

// Lists parts of a module, whose bodies are measured once: they go out as they are worked out.
fn list_module<'a, X: Out>(
    alloc: Global,
    whole: &Module,
    parts: &[Part],
    out: &mut X,
) -> Result<u8, ProgramFault<'a>>
    requires room { X.failed out.old < 2 ^ 64 - 1 }
    requires fits { Fits whole.now }
    ensures { Gives [] (listed parts.now whole.now) []
        (between X.taken X.failed out.old out.new) result }
{
    let layout = match Layout::of(alloc, whole) {
        Ok(layout) => layout,
        Err(EncodeFault::Memory) => return Err(ProgramFault::Memory),
        Err(EncodeFault::TooLarge) => unreachable!(),
    };
    list_parts(alloc, &layout, parts, out)?;
    Ok(0)
}

// Lists parts of a module whose bodies were not kept: they go out as they are worked out.
fn list_summary<'a, X: Out>(
    alloc: Global,
    summary: &Summary<'_>,
    parts: &[Part],
    out: &mut X,
) -> Result<u8, ProgramFault<'a>>
    requires room { X.failed out.old < 2 ^ 64 - 1 }
    requires parts { list_any lists_bodies parts.now ≡ false }
    ensures { Gives [] (listed parts.now summary.now) []
        (between X.taken X.failed out.old out.new) result }
{
    list_summary_parts(alloc, summary, parts, out)?;
    Ok(0)
}

// Lists parts of the module that the bytes spell, which is read with its bodies.
fn list_whole<'a, X: Out>(
    alloc: Global,
    input: &[u8],
    profile: Profile,
    parts: &[Part],
    out: &mut X,
) -> Result<u8, ProgramFault<'a>>
    requires { X.failed out.old < 2 ^ 64 - 1 }
    ensures { Gives [] (on_module (listed parts.now) (module_at profile input.now)) []
        (between X.taken X.failed out.old out.new) result }
{
    match read_in(alloc, input, profile) {
        Ok(module) => list_module(alloc, &module, parts, out),
        Err(fault) => refuse_module(alloc, &fault, out),
    }
}

// Lists parts of the module that the bytes spell, which tell nothing of what stands in its bodies: none of them is kept.
fn list_without_bodies<'a, X: Out>(
    alloc: Global,
    input: &[u8],
    profile: Profile,
    parts: &[Part],
    out: &mut X,
) -> Result<u8, ProgramFault<'a>>
    requires room { X.failed out.old < 2 ^ 64 - 1 }
    requires parts { list_any lists_bodies parts.now ≡ false }
    ensures { Gives [] (on_module (listed parts.now) (module_at profile input.now)) []
        (between X.taken X.failed out.old out.new) result }
{
    match Summary::read(alloc, input, profile) {
        Ok(summary) => list_summary(alloc, &summary, parts, out),
        Err(fault) => refuse_module(alloc, &fault, out),
    }
}

// Lists parts of the module of a file.
fn run_objdump<'a, S: Store, X: Out>(
    alloc: Global,
    command: ObjdumpCommand<'a>,
    store: &mut S,
    out: &mut X,
) -> Result<u8, ProgramFault<'a>>
    requires { X.failed out.old < 2 ^ 64 - 1 }
    ensures { Goes (Dumps command.entry) (S.asked store.old) (S.asked store.new)
        (between X.taken X.failed out.old out.new) result }
{
    let ObjdumpCommand {
        parts,
        profile,
        file,
    } = command;
    let input = load(store, file)?;
    if list_bodies(&parts) {
        list_whole(alloc, &input, profile, &parts, out)
    } else {
        list_without_bodies(alloc, &input, profile, &parts, out)
    }
}

// The status of a listing of sections.
fn status_of(has_fault: bool) -> u8
    ensures { result ≡ (if has_fault then 2 else 0) }
{
    if has_fault { 2 } else { 0 }
}

// Lists the sections of a module, and then the fault of their frames, if there is one.
fn run_sections<'a, S: Store, X: Out>(
    alloc: Global,
    file: &'a str,
    store: &mut S,
    out: &mut X,
) -> Result<u8, ProgramFault<'a>>
    requires { X.failed out.old < 2 ^ 64 - 1 }
    ensures { Goes (Frames file.entry.now) (S.asked store.old) (S.asked store.new)
        (between X.taken X.failed out.old out.new) result }
{
    let input = load(store, file)?;
    let Listing { text, has_fault } = list_sections(alloc, &input)?;
    print(&text, status_of(has_fault), out)
}

// Removes the custom sections of a module, in the room of its bytes: OUT is made once all is computed, and nothing is printed.
fn run_strip<'a, S: Store, X: Out>(
    alloc: Global,
    command: StripCommand<'a>,
    store: &mut S,
    out: &mut X,
) -> Result<u8, ProgramFault<'a>>
    requires { X.failed out.old < 2 ^ 64 - 1 }
    ensures { Goes (Strips command.entry) (S.asked store.old) (S.asked store.new)
        (between X.taken X.failed out.old out.new) result }
{
    let StripCommand {
        keep,
        profile,
        file,
        out: out_file,
    } = command;
    let input = load(store, file)?;
    match strip_bytes(alloc, input, profile, keep.as_ref()) {
        Ok(stripped) => give(out_file, Some(stripped.as_slice()), b"", 0, store, out),
        Err(fault) => refuse_module(alloc, &fault, out),
    }
}

// Prints whether a module is valid.
fn run_validate<'a, S: Store, X: Out>(
    alloc: Global,
    command: ValidateCommand<'a>,
    store: &mut S,
    out: &mut X,
) -> Result<u8, ProgramFault<'a>>
    requires { X.failed out.old < 2 ^ 64 - 1 }
    ensures { Goes (Judges command.entry) (S.asked store.old) (S.asked store.new)
        (between X.taken X.failed out.old out.new) result }
{
    let ValidateCommand {
        explain,
        profile,
        file,
    } = command;
    let input = load(store, file)?;
    let mut validator = Validator::new(alloc);
    let Explanation { text, status } = judged(alloc, &mut validator, explain, &input, profile)?;
    print(&text, status, out)
}

// Carries out a command.
fn run<'a, S: Store, X: Out, Y: Out>(
    alloc: Global,
    asked: Asked<'a>,
    store: &mut S,
    out: &mut X,
    err: &mut Y,
) -> Result<u8, ProgramFault<'a>>
    requires out { X.failed out.old < 2 ^ 64 - 1 }
    requires err { Y.failed err.old < 2 ^ 64 - 1 }
    ensures { (told : List ℕ)
        × Goes (Carries asked.entry told) (S.asked store.old) (S.asked store.new)
        (between X.taken X.failed out.old out.new) result
        × Hears told (between Y.taken Y.failed err.old err.new) }
{
    match asked {
        Asked::Edit(command) => run_edit(alloc, command, store, out),
        Asked::Objdump(command) => run_objdump(alloc, command, store, out),
        Asked::Sections(file) => run_sections(alloc, file, store, out),
        Asked::Strip(command) => run_strip(alloc, command, store, out),
        Asked::Validate(command) => run_validate(alloc, command, store, out),
        Asked::ValidateEach(command) => run_each(alloc, command, store, out, err),
    }
}

// Reads the words, and carries out their command.
fn answer<'a, S: Store, X: Out, Y: Out>(
    alloc: Global,
    words: &'a [String],
    store: &mut S,
    out: &mut X,
    err: &mut Y,
) -> Result<u8, ProgramFault<'a>>
    requires out { X.failed out.old < 2 ^ 64 - 1 }
    requires err { Y.failed err.old < 2 ^ 64 - 1 }
    ensures { (told : List ℕ)
        × IsAnswered (map string_bytes words.now) (S.asked store.old) (S.asked store.new)
        (between X.taken X.failed out.old out.new) told result
        × Hears told (between Y.taken Y.failed err.old err.new) }
{
    let asked = read_words(alloc, words)?;
    run(alloc, asked, store, out, err)
}

/// Runs the command of these words, the ones after the program's name, and gives the exit status: 0 to 3 of a run
/// (`Status`) or of `validate`, 0 or 2 of the other commands, 3 for a bad command line, 4 where a file or standard output failed, 5 for want
/// of memory. Of `validate --each` it is the highest of its files.
///
/// Where the words spell a command (`read_words` of `wk_command_line`), it is carried out. Where they spell none, or memory is refused
/// before that is known, nothing is loaded, saved or printed. Where standard error fails, nothing else changes.
pub fn program<S: Store, X: Out, Y: Out>(
    alloc: Global,
    words: &[String],
    store: &mut S,
    out: &mut X,
    err: &mut Y,
) -> u8
    requires out { X.failed out.old < 2 ^ 64 - 1 }
    requires err { Y.failed err.old < 2 ^ 64 - 1 }
    ensures { (r : Result ℕ Fault) × (told : List ℕ)
        × IsAnswered (map string_bytes words.now) (S.asked store.old) (S.asked store.new)
        (printing (X.taken out.old) (X.taken out.new) (X.failed out.old) (X.failed out.new)) told r
        × Exits told r result
        (printing (Y.taken err.old) (Y.taken err.new) (Y.failed err.old) (Y.failed err.new)) }
{
    let start = err.failures();
    match answer(alloc, words, store, out, err) {
        Ok(status) => status,
        Err(fault) => tell_after(start, alloc, &fault, err),
    }
}
