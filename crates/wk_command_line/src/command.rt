//! The command line.

ghost use Rattle.std.specs.Prelude.{◌≡◌, ◌++◌, IfErr, IfOk, OnOk, Some, codes, map, option_map, string_bytes};
ghost use Rattle.clap.specs.Words.{all_of, first_of, found_of, rows_of, subcommand_rows_of};
ghost use Rattle.wk_command_line.specs.CommandLine.{part_if, profile_of, KeepsName, SpellsOnly};
ghost use Rattle.wk_command_line.specs.Faults.{RefusesWords};
ghost use Rattle.wk_command_line.specs.Syntax.{is_on, AreParts, IsFlag, IsProfile, Reads, ReadsEdit, ReadsJudging, ReadsObjdump, ReadsStrip, Unreadable};

mod parser;

use crate::command::parser::command;
use crate::fault::WordsFault;
use clap::ArgMatches;
use std::alloc::{AllocError, Global};
use wk_bytes::Text;
use wk_edit::read_name;
use wk_list::Part;
use wk_module::Profile;

/// What the words ask for.
#[derive(Debug, Drop)]
pub enum Asked<'a> {
    /// `edit`
    Edit(EditCommand<'a>),
    /// `objdump`
    Objdump(ObjdumpCommand<'a>),
    /// `sections FILE`: the name of the file, as it stands.
    Sections(&'a str),
    /// `strip`
    Strip(StripCommand<'a>),
    /// `validate`
    Validate(ValidateCommand<'a>),
    /// `validate --each`
    ValidateEach(EachCommand<'a>),
}

/// `edit [--keep-valid] [--extended] FILE SCRIPT OUT`: the names of files, as they stand.
#[derive(Clone, Copy, Debug)]
pub struct EditCommand<'a> {
    /// Whether an edit is refused where the module would be invalid after it.
    pub keep_valid: bool,
    /// The profile that the module is read in.
    pub profile: Profile,
    /// The module.
    pub file: &'a str,
    /// The script.
    pub script: &'a str,
    /// Where the edited module goes.
    pub out: &'a str,
}

/// `objdump [--headers] [--details] [--code] [--uses] [--extended] FILE`: the name of the file, as it stands.
#[derive(Debug, Drop)]
pub struct ObjdumpCommand<'a> {
    /// The parts that are listed, in their order.
    pub parts: Vec<Part>,
    /// The profile that the module is read in.
    pub profile: Profile,
    /// The module.
    pub file: &'a str,
}

/// `strip [--keep NAME] [--extended] FILE OUT`: the names of files, as they stand.
#[derive(Debug, Drop)]
pub struct StripCommand<'a> {
    /// The name of the custom sections that stay.
    pub keep: Option<Text>,
    /// The profile that the module is read in.
    pub profile: Profile,
    /// The module.
    pub file: &'a str,
    /// Where the stripped module goes.
    pub out: &'a str,
}

/// `validate --each [--explain] [--extended] FILE..`: the names of files, as they stand.
#[derive(Debug, Drop)]
pub struct EachCommand<'a> {
    /// Whether a line says where in the bytes each fault is.
    pub explain: bool,
    /// The profile that the modules are read and judged in.
    pub profile: Profile,
    /// The modules, in order.
    pub files: Vec<&'a str>,
}

/// `validate [--explain] [--extended] FILE`: the name of the file, as it stands.
#[derive(Clone, Copy, Debug)]
pub struct ValidateCommand<'a> {
    /// Whether a line says where in the bytes the fault is.
    pub explain: bool,
    /// The profile that the module is read and judged in.
    pub profile: Profile,
    /// The module.
    pub file: &'a str,
}

// The word of an argument, if it was found.
fn text_of<'a>(found: &ArgMatches<'a>, id: &'static str) -> Option<&'a str>
    ensures { option_map (λ s. s.now) result
        ≡ first_of id.entry.now (rows_of (found_of found.now)) }
{
    found.get_str(id)
}

// Whether an option without a value was found.
fn is_set(found: &ArgMatches<'_>, id: &'static str) -> bool
    ensures { IsFlag id.entry.now (rows_of (found_of found.now)) result }
{
    found.get_flag(id)
}

// All words of an argument, if it was found.
fn texts_of<'b, 'a>(found: &'b ArgMatches<'a>, id: &'static str) -> Option<&'b [&'a str]>
    ensures { option_map (λ words. map (λ word. word.now) words.now) result
        ≡ all_of id.entry.now (rows_of (found_of found.now)) }
{
    found.get_strs(id)
}

// Whether `--each` was found: the text of an option without a value is `true` or `false`.
fn is_each(found: &ArgMatches<'_>) -> bool
    ensures { result ≡ is_on (codes "each") (rows_of (found_of found.now)) }
{
    match text_of(found, "each") {
        Some(text) => text == "true",
        None => false,
    }
}

// The profile of a command that is extended, or is not.
fn profile_if(is_extended: bool) -> Profile
    ensures { result ≡ profile_of is_extended }
{
    if is_extended {
        Profile::Extended
    } else {
        Profile::Core
    }
}

// The profile that was asked for.
fn profile_in(found: &ArgMatches<'_>) -> Profile
    ensures { IsProfile (rows_of (found_of found.now)) result }
{
    profile_if(is_set(found, "extended"))
}

fn read_edit<'a>(found: &ArgMatches<'a>) -> Result<EditCommand<'a>, WordsFault>
    ensures ok { IfOk result (ReadsEdit (rows_of (found_of found.now))) }
    ensures err { IfErr result (Unreadable (ReadsEdit (rows_of (found_of found.now)))) }
{
    let (Some(file), Some(script), Some(out)) = (
        text_of(found, "FILE"),
        text_of(found, "SCRIPT"),
        text_of(found, "OUT"),
    ) else {
        return Err(WordsFault::BadWords);
    };
    if out == file || out == script {
        return Err(WordsFault::BadWords);
    }
    Ok(EditCommand {
        keep_valid: is_set(found, "keep-valid"),
        profile: profile_in(found),
        file,
        script,
        out,
    })
}

// Adds a part that is asked for.
fn add_part(parts: &mut Vec<Part>, is_asked: bool, part: Part) -> Result<(), AllocError>
    ensures { OnOk result (parts.new.items ≡ parts.old.items ++ part_if is_asked part) }
{
    if is_asked {
        parts.push(part)?;
    }
    Ok(())
}

// The parts that were asked for, in their order: the headers where there are none.
fn read_parts(alloc: Global, found: &ArgMatches<'_>) -> Result<Vec<Part>, AllocError>
    ensures { IfOk result (λ parts. AreParts (rows_of (found_of found.now)) parts.items) }
{
    let mut parts = Vec::new(alloc);
    add_part(&mut parts, is_set(found, "headers"), Part::Headers)?;
    add_part(&mut parts, is_set(found, "details"), Part::Details)?;
    add_part(&mut parts, is_set(found, "code"), Part::Code)?;
    add_part(&mut parts, is_set(found, "uses"), Part::Uses)?;
    if parts.is_empty() {
        parts.push(Part::Headers)?;
    }
    Ok(parts)
}

fn read_objdump<'a>(alloc: Global, found: &ArgMatches<'a>) -> Result<ObjdumpCommand<'a>, WordsFault>
    ensures ok { IfOk result (ReadsObjdump (rows_of (found_of found.now))) }
    ensures err { IfErr result (Unreadable (ReadsObjdump (rows_of (found_of found.now)))) }
{
    let Some(file) = text_of(found, "FILE") else {
        return Err(WordsFault::BadWords);
    };
    Ok(ObjdumpCommand {
        parts: read_parts(alloc, found)?,
        profile: profile_in(found),
        file,
    })
}

fn read_sections<'a>(found: &ArgMatches<'a>) -> Result<&'a str, WordsFault>
    ensures ok { IfOk result (λ file.
        first_of (codes "FILE") (rows_of (found_of found.now)) ≡ Some file.now) }
    ensures err { IfErr result (Unreadable (λ file.
        first_of (codes "FILE") (rows_of (found_of found.now)) ≡ Some file)) }
{
    match text_of(found, "FILE") {
        Some(file) => Ok(file),
        None => Err(WordsFault::BadWords),
    }
}

// The name to keep, spelled as in a script.
fn read_keep<'a>(alloc: Global, word: Option<&str>) -> Result<Option<Text>, WordsFault>
    ensures ok { IfOk result (KeepsName (option_map (λ s. s.now) word.entry)) }
    ensures err { IfErr result (Unreadable (KeepsName (option_map (λ s. s.now) word.entry))) }
{
    let Some(word) = word else {
        return Ok(None);
    };
    match read_name(alloc, word.as_bytes())? {
        Some(name) => Ok(Some(name)),
        None => Err(WordsFault::BadWords),
    }
}

fn read_strip<'a>(alloc: Global, found: &ArgMatches<'a>) -> Result<StripCommand<'a>, WordsFault>
    ensures ok { IfOk result (ReadsStrip (rows_of (found_of found.now))) }
    ensures err { IfErr result (Unreadable (ReadsStrip (rows_of (found_of found.now)))) }
{
    let (Some(file), Some(out)) = (text_of(found, "FILE"), text_of(found, "OUT")) else {
        return Err(WordsFault::BadWords);
    };
    if out == file {
        return Err(WordsFault::BadWords);
    }
    Ok(StripCommand {
        keep: read_keep(alloc, text_of(found, "keep"))?,
        profile: profile_in(found),
        file,
        out,
    })
}

// Without `--each` there is one FILE.
fn read_validate<'a>(alloc: Global, found: &ArgMatches<'a>) -> Result<Asked<'a>, WordsFault>
    ensures ok { IfOk result (ReadsJudging (rows_of (found_of found.now))) }
    ensures err { IfErr result (Unreadable (ReadsJudging (rows_of (found_of found.now)))) }
{
    let explain = is_set(found, "explain");
    let profile = profile_in(found);
    match (is_each(found), texts_of(found, "FILE")) {
        (true, Some(files)) => Ok(Asked::ValidateEach(EachCommand {
            explain,
            profile,
            files: files.to_owned(alloc)?,
        })),
        (false, Some([file])) => Ok(Asked::Validate(ValidateCommand {
            explain,
            profile,
            file,
        })),
        _ => Err(WordsFault::BadWords),
    }
}

// What was found in the words asks for.
fn asked_of<'a>(alloc: Global, matches: &ArgMatches<'a>) -> Result<Asked<'a>, WordsFault>
    ensures ok { IfOk result (Reads (subcommand_rows_of matches.now)) }
    ensures err { IfErr result (Unreadable (Reads (subcommand_rows_of matches.now))) }
{
    match matches.subcommand() {
        Some(("edit", found)) => Ok(Asked::Edit(read_edit(found)?)),
        Some(("objdump", found)) => Ok(Asked::Objdump(read_objdump(alloc, found)?)),
        Some(("sections", found)) => Ok(Asked::Sections(read_sections(found)?)),
        Some(("strip", found)) => Ok(Asked::Strip(read_strip(alloc, found)?)),
        Some(("validate", found)) => read_validate(alloc, found),
        _ => Err(WordsFault::BadWords),
    }
}

/// Reads the words after the program's name: the command that they spell (`specs/CommandLine`).
///
/// # Errors
///
/// `CommandLine`, with what `clap` says of words that are no command; `BadWords` where OUT is spelled as FILE or SCRIPT, NAME is no name,
/// or `validate` has several FILEs without `--each`; and `Memory` where a growth was refused.
pub fn read_words<'a>(alloc: Global, words: &'a [String]) -> Result<Asked<'a>, WordsFault>
    ensures ok { IfOk result (SpellsOnly (map string_bytes words.now)) }
    ensures err { IfErr result (RefusesWords (map string_bytes words.now)) }
{
    let matches = command(alloc)?.try_get_matches_from(words)?;
    let asked = asked_of(alloc, &matches);
    drop(matches);
    asked
}
