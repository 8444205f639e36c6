//! `validate --each`: files, one after the other.

ghost use Rattle.std.specs.Prelude.{◌≡◌, ◌++◌, ◌-◌, ◌<◌, ◌^◌, ℕ, List, IfOk, MatchResult, Ok, Result, codes, string_bytes};
ghost use Rattle.std.specs.List.{list_any};
ghost use Rattle.wk_list.specs.Text.{begins_hex};
ghost use Rattle.wk_module.specs.Reading.{module_at};
ghost use Rattle.wk_answers.specs.Validation.{status_of};
ghost use Rattle.wasmkit.specs.declared.store.StoreFault.{StoreFault as Why};
ghost use Rattle.wasmkit.specs.Answers.{is_control, named_line, shown, IsPrinted};
ghost use Rattle.wasmkit.specs.Events.{then_asked, Loaded};
ghost use Rattle.wasmkit.specs.Runs.{between, Goes, Hears, IsLeft, JudgesEach};

use crate::commands::judging::judged;
use crate::commands::telling::tell_after;
use crate::commands::{load, print};
use crate::fault::ProgramFault;
use crate::store::Store;
use std::alloc::{AllocError, Global};
use wk_answers::Explanation;
use wk_bytes::Out;
use wk_command_line::EachCommand;
use wk_judging::Validator;

// Whether a byte is a control character of ASCII.
fn is_control(b: u8) -> bool
    ensures { result ≡ is_control b }
{
    b < 0x20 || b == 0x7F
}

fn has_control(name: &[u8]) -> bool
    ensures { result ≡ list_any is_control name.now }
{
    name.iter().any(|b| is_control(*b))
}

// Whether a name begins as the names that listings write in hexadecimal digits.
fn begins_hex(name: &[u8]) -> bool
    ensures { result ≡ begins_hex name.now }
{
    matches!(name, [b'x', b':', ..])
}

// The name of a file, and a colon.
fn head(alloc: Global, name: &str) -> Result<String, AllocError>
    ensures { IfOk result (λ text. string_bytes text ≡ shown name.now ++ codes ": ") }
{
    let bytes = name.as_bytes();
    if has_control(bytes) || begins_hex(bytes) {
        let digits = hex::encode(alloc, bytes)?;
        format!(in alloc; "x:{digits}: ")
    } else {
        format!(in alloc; "{name}: ")
    }
}

// What is printed of a file, behind its name.
fn named(alloc: Global, name: &str, text: &[u8]) -> Result<Vec<u8>, AllocError>
    ensures { IfOk result (λ line. line.items ≡ named_line name.now text.now) }
{
    let mut line = head(alloc, name)?.into_bytes();
    line.extend_from_slice(text)?;
    Ok(line)
}

// Loads a file, and judges it: its name and what is printed of it.
fn judge<'a, S: Store>(
    alloc: Global,
    validator: &mut Validator,
    command: &EachCommand<'_>,
    name: &'a str,
    store: &mut S,
) -> Result<Explanation, ProgramFault<'a>>
    ensures { MatchResult result
        (λ x. (input text : List ℕ)
        × (S.asked store.new ≡ then_asked (S.asked store.old) (Loaded name.now (Ok input)))
        × IsPrinted command.now.explain command.now.profile input text
        × (x.text.items ≡ named_line name.now text)
        × (x.status ≡ status_of (module_at command.now.profile input)))
        (λ fault. (answer : Result (List ℕ) Why)
        × (S.asked store.new ≡ then_asked (S.asked store.old) (Loaded name.now answer))
        × IsLeft name.now answer fault) }
{
    let input = load(store, name)?;
    let Explanation { text, status } = judged(
        alloc,
        validator,
        command.explain,
        &input,
        command.profile,
    )?;
    Ok(Explanation {
        text: named(alloc, name, &text)?,
        status,
    })
}

/// Judges files in order, with one validator, and gives the highest status. Why a file is not judged is told on standard error, and
/// the others are judged.
///
/// # Errors
///
/// `Output`, at the file in whose line standard output failed: none behind it is loaded.
pub fn run_each<'a, S: Store, X: Out, Y: Out>(
    alloc: Global,
    command: EachCommand<'a>,
    store: &mut S,
    out: &mut X,
    err: &mut Y,
) -> Result<u8, ProgramFault<'a>>
    requires out { X.failed out.old < 2 ^ 64 - 1 }
    requires err { Y.failed err.old < 2 ^ 64 - 1 }
    ensures { (told : List ℕ)
        × Goes (JudgesEach command.entry told) (S.asked store.old) (S.asked store.new)
        (between X.taken X.failed out.old out.new) result
        × Hears told (between Y.taken Y.failed err.old err.new) }
{
    let start = err.failures();
    let mut validator = Validator::new(alloc);
    let mut highest = 0;
    for name in &command.files {
        let status = match judge(alloc, &mut validator, &command, name, store) {
            Ok(judged) => print(judged.text.as_slice(), judged.status, out)?,
            Err(fault) => {
                let status = tell_after(start, alloc, &fault, err);
                drop(fault);
                status
            }
        };
        highest = status.max(highest);
    }
    Ok(highest)
}
