//! The parser of the command line.

ghost use Rattle.std.specs.Prelude.{◌≡◌, IfOk, codes, false};
ghost use Rattle.clap.specs.Words.{app_of, rule_of};
ghost use Rattle.wk_command_line.specs.CommandLine.{edit, objdump, sections, strip, validate, Form};
ghost use Rattle.wk_command_line.specs.Syntax.{flag_rule, setting_rule, wasmkit_app, with_form, word_rule, words_rule, IsOfForm};

use clap::{Arg, ArgAction, Command};
use std::alloc::{AllocError, Global};

/// The version of the program.
const VERSION: &str = "0.9.0";

const EXAMPLE: &str = "Example:
  wasmkit validate app.wasm

Exit status:
  0  it was done; of edit and validate: the module is valid, and each edit was made
  1  the module is invalid, or an edit was refused
  2  the file is not a module
  3  the command line or the script is wrong, or it asked for help or the version
  4  a file could not be read or written, or standard output could not be written
  5  there was not enough memory";

const EDIT_EXAMPLE: &str =
    "Example, where the file edits has the lines `custom set build 0142` and `export func main 3`:
  wasmkit edit --keep-valid app.wasm edits out.wasm

It makes both edits, writes out.wasm and prints
  1 ok
  2 ok
  valid

All lines that a script may have are in docs/SCRIPTS.md.

Offsets that custom sections hold or lead to (linking, reloc.*, .debug_*, sourceMappingURL) stay as they
are, and even an empty script can make them wrong: edit linked modules, and strip .debug_* sections.";

const OBJDUMP_EXAMPLE: &str = "Example:
  wasmkit objdump --details --code app.wasm

It lists the items of each section, and then the instructions of each function, with their offsets.";

const SECTIONS_EXAMPLE: &str = "Example:
  wasmkit sections app.wasm

It prints a line for each section, such as
    Type start=0x0000000a end=0x0000000e size=0x00000004";

const STRIP_EXAMPLE: &str = "Example:
  wasmkit strip --keep name app.wasm out.wasm

It writes the module to out.wasm without its custom sections, but for those named `name`.

Offsets that a kept section holds or leads to (linking, reloc.*, .debug_*, sourceMappingURL) stay as they
are, and can be wrong then: strip linked modules, and keep none of these.";

const VALIDATE_EXAMPLE: &str = "Example:
  wasmkit validate app.wasm

It prints `valid`, or the first fault and its place, such as
  invalid V15 StackHeight at section 10 item 0 token 1
and with --explain behind it the offset in the file, the function and the instruction, such as
   at 0x00000058 in func[2]: call 1";

// An operand.
fn word<'a>(alloc: Global, id: &'static str, help: &'static str) -> Arg<'a>
    ensures { (rule_of result ≡ word_rule id.entry.now) × (result.global ≡ false) }
{
    Arg::new(alloc, id)
        .required(true)
        .action(ArgAction::Set)
        .help(help)
}

// An operand that may be given more than once.
fn words<'a>(alloc: Global, id: &'static str, help: &'static str) -> Arg<'a>
    ensures { (rule_of result ≡ words_rule id.entry.now) × (result.global ≡ false) }
{
    Arg::new(alloc, id)
        .required(true)
        .action(ArgAction::Append)
        .help(help)
}

// An option without a value.
fn flag<'a>(alloc: Global, id: &'static str, help: &'static str) -> Arg<'a>
    ensures { (rule_of result ≡ flag_rule id.entry.now) × (result.global ≡ false) }
{
    Arg::new(alloc, id)
        .long(id)
        .action(ArgAction::SetTrue)
        .help(help)
}

// An option with a value, which help calls `value`.
fn setting<'a>(alloc: Global, id: &'static str, value: &'static str, help: &'static str) -> Arg<'a>
    ensures { (rule_of result ≡ setting_rule id.entry.now) × (result.global ≡ false) }
{
    Arg::new(alloc, id)
        .long(id)
        .value_name(value)
        .action(ArgAction::Set)
        .help(help)
}

// `--extended`, the option of commands that read a module.
fn extended<'a>(alloc: Global) -> Arg<'a>
    ensures { (rule_of result ≡ flag_rule (codes "extended")) × (result.global ≡ false) }
{
    flag(
        alloc,
        "extended",
        "reads sign extension, and blocks of any function type, as well",
    )
}

fn edit_command<'a>(alloc: Global) -> Result<Command<'a>, AllocError>
    ensures { IfOk result (IsOfForm edit) }
{
    let args = vec![in alloc;
        flag(
            alloc,
            "keep-valid",
            "refuses an edit that would leave an invalid module"
        ),
        extended(alloc),
        word(alloc, "FILE", "the module"),
        word(alloc, "SCRIPT", "the edits, one a line"),
        word(alloc, "OUT", "where the edited module goes"),
    ]?;
    Command::new(alloc, "edit")
        .about("Makes the edits of a script on a module")
        .after_help(EDIT_EXAMPLE)
        .args(args)
}

fn objdump_command<'a>(alloc: Global) -> Result<Command<'a>, AllocError>
    ensures { IfOk result (IsOfForm objdump) }
{
    let args = vec![in alloc;
        flag(
            alloc,
            "headers",
            "lists the sections; so it is without any of these options"
        ),
        flag(alloc, "details", "lists the items of each section"),
        flag(alloc, "code", "lists the instructions of each function"),
        flag(alloc, "uses", "lists what each function refers to"),
        extended(alloc),
        word(alloc, "FILE", "the module"),
    ]?;
    Command::new(alloc, "objdump")
        .about("Lists parts of a module, by its written form")
        .after_help(OBJDUMP_EXAMPLE)
        .args(args)
}

fn sections_command<'a>(alloc: Global) -> Result<Command<'a>, AllocError>
    ensures { IfOk result (IsOfForm sections) }
{
    Command::new(alloc, "sections")
        .about("Lists the sections of a module, unread")
        .after_help(SECTIONS_EXAMPLE)
        .arg(word(alloc, "FILE", "the module"))
}

fn strip_command<'a>(alloc: Global) -> Result<Command<'a>, AllocError>
    ensures { IfOk result (IsOfForm strip) }
{
    let keep = setting(
        alloc,
        "keep",
        "NAME",
        "keeps the custom sections of this name",
    );
    let args = vec![in alloc;
        keep,
        extended(alloc),
        word(alloc, "FILE", "the module"),
        word(alloc, "OUT", "where the stripped module goes"),
    ]?;
    Command::new(alloc, "strip")
        .about("Removes the custom sections of a module")
        .after_help(STRIP_EXAMPLE)
        .args(args)
}

fn validate_command<'a>(alloc: Global) -> Result<Command<'a>, AllocError>
    ensures { IfOk result (IsOfForm validate) }
{
    let args = vec![in alloc;
        flag(
            alloc,
            "each",
            "takes one module or more, and begins each line with its name"
        ),
        extended(alloc),
        flag(
            alloc,
            "explain",
            "says where in the file the fault is, in which function and at which instruction"
        ),
        words(alloc, "FILE", "the module"),
    ]?;
    Command::new(alloc, "validate")
        .about("Says whether a module is valid, or its first fault")
        .after_help(VALIDATE_EXAMPLE)
        .args(args)
}

// The command with another below it, if that could be made.
fn with_subcommand<'a>(
    command: Command<'a>,
    made: Result<Command<'a>, AllocError>,
) -> Result<Command<'a>, AllocError>
    ensures { (f : Form) → IfOk made.entry (IsOfForm f)
        → IfOk result (λ c. app_of c ≡ with_form (app_of command.entry) f) }
{
    match made {
        Ok(subcommand) => command.subcommand(subcommand),
        Err(fault) => {
            drop(command);
            Err(fault)
        }
    }
}

/// The parser of the whole command line.
pub fn command<'a>(alloc: Global) -> Result<Command<'a>, AllocError>
    ensures { IfOk result (λ c. app_of c ≡ wasmkit_app) }
{
    let command = Command::new(alloc, "wasmkit")
        .bin_name("wasmkit")?
        .about("Reads, judges, lists and edits WebAssembly 1.0 binary modules")
        .version(VERSION)
        .after_help(EXAMPLE)
        .no_binary_name(true)
        .subcommand_required(true);
    let command = with_subcommand(command, edit_command(alloc))?;
    let command = with_subcommand(command, objdump_command(alloc))?;
    let command = with_subcommand(command, sections_command(alloc))?;
    let command = with_subcommand(command, strip_command(alloc))?;
    with_subcommand(command, validate_command(alloc))
}
