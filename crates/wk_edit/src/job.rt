//! The main job, from bytes to bytes.
ghost use Rattle.std.specs.Prelude.{◌≡◌, ◌-◌, ◌<◌, ◌^◌, IfOk, OnOk, IfErr};
ghost use Rattle.std.specs.Io.KnownBytes.{Appends};
ghost use Rattle.wk_session.specs.Written.{Leaves, failures_after_write};
ghost use Rattle.wk_edit.specs.Outcome.{Outcome, outcome_of, out_failures, report_failures, OnRun, OutTakes, ReportTakes};
ghost use Rattle.wk_edit.specs.Prepared.{IsPrepared, made_bytes};
ghost use Rattle.wk_edit.specs.Theorem.{IsReport};

use crate::fault::{RunFault, Status};
use crate::prepare::{EditedModule, Prepared, prepare};
use std::alloc::Global;
use wk_bytes::{Out, OutFault, put_all};
use wk_module::Profile;
use wk_session::WriteFault;

// Writes the edited module, if there is one.
fn write_edited<W: Out>(made: &EditedModule, out: &mut W) -> Result<(), WriteFault>
    requires { W.failed out.old < 2 ^ 64 - 1 }
    ensures ok { OnOk result (Appends (W.taken out.old) (W.taken out.new) (made_bytes made.now)) }
    ensures err { IfErr result (Leaves (W.taken out.old) (W.taken out.new) (made_bytes made.now)) }
    ensures failures { W.failed out.new ≡ failures_after_write (W.failed out.old) result }
{
    match made {
        EditedModule::Nothing => Ok(()),
        EditedModule::Session(session) => session.write(out),
        EditedModule::Edited(edited) => edited.write(out),
    }
}

// Writes what was prepared: the module, and behind it the report.
fn put_prepared<W: Out, X: Out>(
    prepared: &Prepared,
    out: &mut W,
    report: &mut X,
) -> Result<Status, RunFault>
    requires out { W.failed out.old < 2 ^ 64 - 1 }
    requires report { X.failed report.old < 2 ^ 64 - 1 }
    ensures status { (o : Outcome) → IsPrepared o prepared.now
        → IfOk result (λ status. status ≡ o.status) }
    ensures out { (o : Outcome) → IsPrepared o prepared.now
        → OutTakes (W.taken out.old) (W.taken out.new) o result }
    ensures report { (o : Outcome) → IsPrepared o prepared.now
        → ReportTakes (X.taken report.old) (X.taken report.new) o result }
    ensures out_failures { W.failed out.new ≡ out_failures (W.failed out.old) result }
    ensures report_failures { X.failed report.new ≡ report_failures (X.failed report.old) result }
{
    match write_edited(&prepared.made, out) {
        Ok(()) => {}
        Err(WriteFault::Write) => return Err(RunFault::Out),
        Err(WriteFault::Memory) => return Err(RunFault::Memory),
    }
    match put_all(report, prepared.text.as_bytes()) {
        Ok(()) => Ok(prepared.status),
        Err(OutFault) => Err(RunFault::Report),
    }
}

/// Reads the module `input` of a profile, makes the edits of `script` on it in order, writes the edited module to `out` and a
/// report to `report`. Where `keep_valid` says so, an edit that would leave an invalid module is refused.
///
/// The module is read first, then the script, and all is computed before the first byte is written. The bytes of the module
/// are let go before that. A module or a script that cannot be read gives a report of one line and no module. Want of
/// memory, also where an edit met it, is `Memory`, and then nothing was written. `Out` and `Report` come only where that
/// output failed.
pub fn edit_owned<W: Out, X: Out>(
    alloc: Global,
    input: Vec<u8>,
    script: &[u8],
    keep_valid: bool,
    profile: Profile,
    out: &mut W,
    report: &mut X,
) -> Result<Status, RunFault>
    requires out { W.failed out.old < 2 ^ 64 - 1 }
    requires report { X.failed report.old < 2 ^ 64 - 1 }
    ensures status { IfOk result
        (λ status. status ≡ (outcome_of keep_valid profile input.items script.now).status) }
    ensures out { OutTakes (W.taken out.old) (W.taken out.new)
        (outcome_of keep_valid profile input.items script.now) result }
    ensures report { ReportTakes (X.taken report.old) (X.taken report.new)
        (outcome_of keep_valid profile input.items script.now) result }
    ensures out_failures { W.failed out.new ≡ out_failures (W.failed out.old) result }
    ensures report_failures { X.failed report.new ≡ report_failures (X.failed report.old) result }
    // The outcome is what the grammar, the edits and the verdict say, and what is written spells the edited module and no other.
    ensures means { OnRun result
        (IsReport keep_valid profile input.items script.now
        (outcome_of keep_valid profile input.items script.now)) }
{
    let prepared = prepare(alloc, input, script, keep_valid, profile);
    let status = match &prepared {
        Ok(prepared) => put_prepared(prepared, out, report),
        Err(fault) => Err(*fault),
    };
    // By a call: the proof is checked in a fraction of the time so.
    drop(prepared);
    status
}

/// Edits a module whose bytes are lent, as [`edit_owned`] does: they are copied.
pub fn edit_in<W: Out, X: Out>(
    alloc: Global,
    input: &[u8],
    script: &[u8],
    keep_valid: bool,
    profile: Profile,
    out: &mut W,
    report: &mut X,
) -> Result<Status, RunFault>
    requires out { W.failed out.old < 2 ^ 64 - 1 }
    requires report { X.failed report.old < 2 ^ 64 - 1 }
    ensures status { IfOk result
        (λ status. status ≡ (outcome_of keep_valid profile input.now script.now).status) }
    ensures out { OutTakes (W.taken out.old) (W.taken out.new)
        (outcome_of keep_valid profile input.now script.now) result }
    ensures report { ReportTakes (X.taken report.old) (X.taken report.new)
        (outcome_of keep_valid profile input.now script.now) result }
    ensures out_failures { W.failed out.new ≡ out_failures (W.failed out.old) result }
    ensures report_failures { X.failed report.new ≡ report_failures (X.failed report.old) result }
    ensures means { OnRun result
        (IsReport keep_valid profile input.now script.now
        (outcome_of keep_valid profile input.now script.now)) }
{
    let input = Vec::from_slice(alloc, input)?;
    edit_owned(alloc, input, script, keep_valid, profile, out, report)
}

/// Edits a module of WebAssembly 1.0, as [`edit_in`] does.
///
/// # Example
///
/// ```rust
/// let alloc = rt.alloc();
/// let module = b"\0asm\x01\0\0\0";
/// let script = b"type - -\nunexport main\n";
/// let mut out = Sink::new(Vec::new(alloc));
/// let mut report = Sink::new(Vec::new(alloc));
/// let status = edit(alloc, module, script, false, &mut out, &mut report)?;
/// assert_eq!(rt; status, Status::Refused);
/// let lines = "1 ok\n2 refused E2 NoSuchExport\nvalid\n";
/// assert_eq!(rt; report.into_inner().as_slice(), lines.as_bytes());
/// // The header, and a section of the one type.
/// assert_eq!(rt; out.into_inner().len(), 14);
/// ```
pub fn edit<W: Out, X: Out>(
    alloc: Global,
    input: &[u8],
    script: &[u8],
    keep_valid: bool,
    out: &mut W,
    report: &mut X,
) -> Result<Status, RunFault>
    requires out { W.failed out.old < 2 ^ 64 - 1 }
    requires report { X.failed report.old < 2 ^ 64 - 1 }
    ensures status { IfOk result
        (λ status. status ≡ (outcome_of keep_valid Profile.Core input.now script.now).status) }
    ensures out { OutTakes (W.taken out.old) (W.taken out.new)
        (outcome_of keep_valid Profile.Core input.now script.now) result }
    ensures report { ReportTakes (X.taken report.old) (X.taken report.new)
        (outcome_of keep_valid Profile.Core input.now script.now) result }
    ensures out_failures { W.failed out.new ≡ out_failures (W.failed out.old) result }
    ensures report_failures { X.failed report.new ≡ report_failures (X.failed report.old) result }
    ensures means { OnRun result
        (IsReport keep_valid Profile.Core input.now script.now
        (outcome_of keep_valid Profile.Core input.now script.now)) }
{
    edit_in(alloc, input, script, keep_valid, Profile::Core, out, report)
}
