//! An outcome that is computed whole before any of it is written.
ghost use Rattle.std.specs.Prelude.{◌≡◌, ◌≢◌, ℕ, Bool, Ok, List, Result, IfOk, IfErr, IfSome, MatchResult, OnOk, map};
ghost use Rattle.std.specs.List.{list_all, list_any};
ghost use Rattle.wk_module.specs.declared.types.Parts.{Parts as PartsOf};
ghost use Rattle.wk_body.specs.Reads.{FailsAs, Reads};
ghost use Rattle.wk_module.specs.ListReading.{IsReading};
ghost use Rattle.wk_module.specs.Reading.{module_at};
ghost use Rattle.wk_pieces.specs.Pieces.{code_of};
ghost use Rattle.wk_session.specs.declared.edit.Edit.{Edit as EditOf};
ghost use Rattle.wk_session.specs.declared.edit.EditFault.{EditFault as EditFaultOf};
ghost use Rattle.wk_session.specs.declared.edit.Work.{Work as WorkOf};
ghost use Rattle.wk_check.specs.Verdict.{module_verdict};
ghost use Rattle.wk_session.specs.Runs.{is_memory, replies_of, after, refused_for_memory};
ghost use Rattle.wk_draft.specs.Runs.{AreAlike, IsRun};
ghost use Rattle.wk_edit.specs.Outcome.{malformed_outcome, outcome_of, run_outcome, run_status, script_outcome};
ghost use Rattle.wk_edit.specs.Prepared.{IsOpened, IsPrepared, is_made};
ghost use Rattle.wk_edit.specs.Theorem.{IsReport};

use crate::fault::{RunFault, ScriptFault, Status};
use crate::lines::{refused_script, report};
use crate::script::read_script;
use crate::worth::is_worth_draft;
use std::alloc::Global;
use wk_bytes::{Items, OutOfMemory, ReadFault, ReadKind};
use wk_check::{Verdict, malformed_line, meaning_of_verdicts};
use wk_draft::{Drafted, Edited, Run, edit_outline};
use wk_list::Shape;
use wk_module::{
    Outline, Profile, one_module, read_outline, reading_of_code, reading_of_module,
    written_form_of_module,
};
use wk_session::{Edit, EditFault, Reply, Session};

/// The edited module, if there is one.
#[derive(Drop)]
pub(crate) enum EditedModule {
    /// None.
    Nothing,
    /// In a session over it.
    Session(Session),
    /// As it is to be written.
    Edited(Edited),
}

/// What is to be written.
#[derive(Drop)]
pub(crate) struct Prepared {
    /// The edited module.
    pub made: EditedModule,
    /// The report.
    pub text: String,
    /// How the run ends.
    pub status: Status,
}

// What is to be written of an input that spells no module.
fn prepare_malformed(alloc: Global, fault: &ReadFault) -> Result<Prepared, RunFault>
    ensures ok { IfOk result (IsPrepared (malformed_outcome fault.now)) }
    ensures other { OnOk result (fault.now.kind ≢ ReadKind.Memory) }
    ensures memory { IfErr result (λ e. e ≡ RunFault.Memory) }
{
    if let ReadKind::Memory = fault.kind {
        return Err(RunFault::Memory);
    }
    let text = malformed_line(alloc, fault)?;
    Ok(Prepared {
        made: EditedModule::Nothing,
        text,
        status: Status::Malformed,
    })
}

// What is to be written of a script that is refused.
fn prepare_script_fault(alloc: Global, fault: &ScriptFault) -> Result<Prepared, RunFault>
    ensures ok { IfOk result (IsPrepared (script_outcome fault.now)) }
    ensures other { OnOk result (fault.now ≢ ScriptFault.Memory) }
    ensures memory { IfErr result (λ e. e ≡ RunFault.Memory) }
{
    if let ScriptFault::Memory = fault {
        return Err(RunFault::Memory);
    }
    let text = refused_script(alloc, fault)?;
    Ok(Prepared {
        made: EditedModule::Nothing,
        text,
        status: Status::BadScript,
    })
}

// Whether some edit was refused for want of memory.
fn has_memory(replies: &[Reply]) -> bool
    ensures { result ≡ list_any is_memory replies.now }
{
    replies
        .iter()
        .any(|reply| matches!(reply, Err(EditFault::Memory)))
}

// Whether all edits were accepted.
fn are_accepted<T>(replies: &[Result<T, EditFault>]) -> bool
    ensures { result ≡ list_all is_made replies.now }
{
    replies.iter().all(|reply| reply.is_ok())
}

// How a run ends.
#[tactic(auto, using(crate::proofs::DraftOutcomes::all_made))]
fn status_of<T>(replies: &[Result<T, EditFault>], verdict: &Verdict) -> Status
    ensures { (told : List (Result WorkOf EditFaultOf)) → AreAlike replies.now told
        → result ≡ run_status told verdict.now }
{
    if are_accepted(replies) && matches!(verdict, Verdict::Valid) {
        Status::Accepted
    } else {
        Status::Refused
    }
}

// Makes edits in order, each of which has to leave a valid module where `keep_valid` says so.
fn make_edits(
    session: &mut Session,
    edits: &[Edit],
    keep_valid: bool,
) -> Result<Vec<Reply>, OutOfMemory>
    ensures replies { IfOk result
        (λ rs. rs.items
        ≡ replies_of keep_valid edits.now (refused_for_memory rs.items) session.old) }
    ensures module_is { IfOk result
        (λ rs. session.new ≡ after keep_valid edits.now (refused_for_memory rs.items) session.old) }
{
    if keep_valid {
        session.run_kept(edits)
    } else {
        session.run(edits)
    }
}

// Makes edits in a session, and gives the report of the run and how it ends.
fn run_session(
    alloc: Global,
    session: &mut Session,
    edits: &[Edit],
    keep_valid: bool,
) -> Result<(String, Status), RunFault>
    ensures ok { IfOk result (λ told. IsPrepared (run_outcome keep_valid session.old edits.now)
        (record { made = EditedModule.Session session.new; text = told.0; status = told.1 })) }
    ensures memory { IfErr result (λ e. e ≡ RunFault.Memory) }
{
    // The proof asks what these say: the written form of a module spells it, and no other.
    written_form_of_module();
    one_module();
    let replies = make_edits(session, edits, keep_valid)?;
    if has_memory(&replies) {
        return Err(RunFault::Memory);
    }
    // The proof asks what this says: the module is shaped and fits.
    let _parts = session.parts();
    let text = report(alloc, &replies, session.verdict())?;
    let status = status_of(&replies, session.verdict());
    Ok((text, status))
}

// What is to be written of a run of edits.
fn prepare_run(
    alloc: Global,
    session: Session,
    edits: &[Edit],
    keep_valid: bool,
) -> Result<Prepared, RunFault>
    ensures ok { IfOk result (IsPrepared (run_outcome keep_valid session edits.now)) }
    ensures memory { IfErr result (λ e. e ≡ RunFault.Memory) }
{
    let mut session = session;
    match run_session(alloc, &mut session, edits, keep_valid) {
        Ok((text, status)) => Ok(Prepared {
            made: EditedModule::Session(session),
            text,
            status,
        }),
        // Values are let go by a call: proofs are checked in a fraction of the time so.
        Err(fault) => {
            drop(session);
            Err(fault)
        }
    }
}

// What is to be written of a run of edits of which the untouched bodies stayed bytes.
fn prepare_draft(alloc: Global, run: Run) -> Result<Prepared, RunFault>
    ensures ok { (keep : Bool) (m : PartsOf) (edits : List EditOf) → IsRun keep m edits run
        → IfOk result (IsPrepared (run_outcome keep m edits)) }
    ensures memory { IfErr result (λ e. e ≡ RunFault.Memory) }
{
    // The proof asks what these say: the written form of a module spells it, and no other.
    written_form_of_module();
    one_module();
    let Run {
        edited,
        verdict,
        replies,
    } = run;
    let status = status_of(&replies, &verdict);
    match report(alloc, &replies, &verdict) {
        Ok(text) => Ok(Prepared {
            made: EditedModule::Edited(edited),
            text,
            status,
        }),
        Err(fault) => {
            drop(edited);
            Err(fault.into())
        }
    }
}

// A session over a module whose verdict may be known, and whose codes may be at hand: then it is not judged again, and they are not written.
fn open_session(
    alloc: Global,
    input: &[u8],
    verdict: Option<Verdict>,
    codes: Option<Vec<Items<u8>>>,
    profile: Profile,
) -> Result<Session, ReadFault>
    requires judged { (m : PartsOf) → module_at profile input.now ≡ Ok m
        → IfSome verdict (λ v. v ≡ module_verdict m) }
    requires codes { (m : PartsOf) → module_at profile input.now ≡ Ok m
        → IfSome codes (λ cs. cs.items ≡ map code_of m.funcs) }
    ensures { Reads (λ m. m) result (module_at profile input.now) }
{
    match (codes, verdict) {
        (Some(codes), verdict) => { Session::open_outlined(alloc, input, profile, verdict, codes) }
        (None, Some(verdict)) => Session::open_judged(alloc, input, profile, verdict),
        (None, None) => Session::open_in(alloc, input, profile),
    }
}

// Makes the edits on a module that is held whole. Its bytes are let go once it is read.
fn run_whole(
    alloc: Global,
    input: Vec<u8>,
    verdict: Option<Verdict>,
    codes: Option<Vec<Items<u8>>>,
    edits: &[Edit],
    keep_valid: bool,
    profile: Profile,
) -> Result<Prepared, RunFault>
    requires spelled { (m : PartsOf) × (module_at profile input.items ≡ Ok m) }
    requires judged { (m : PartsOf) → module_at profile input.items ≡ Ok m
        → IfSome verdict (λ v. v ≡ module_verdict m) }
    requires codes { (m : PartsOf) → module_at profile input.items ≡ Ok m
        → IfSome codes (λ cs. cs.items ≡ map code_of m.funcs) }
    ensures ok { (m : PartsOf) → module_at profile input.items ≡ Ok m
        → IfOk result (IsPrepared (run_outcome keep_valid m edits.now)) }
    ensures memory { IfErr result (λ e. e ≡ RunFault.Memory) }
{
    let opened = open_session(alloc, &input, verdict, codes, profile);
    drop(input);
    match opened {
        Ok(session) => prepare_run(alloc, session, edits, keep_valid),
        Err(fault) if fault.kind == ReadKind::Memory => Err(RunFault::Memory),
        // The bytes spell a module.
        Err(_) => unreachable!(),
    }
}

/// A module that was read.
#[derive(Drop)]
pub(crate) enum Opened {
    /// It is held whole.
    Whole(Session),
    /// It is still to be judged.
    Outlined {
        /// Its outline.
        outline: Outline,
        /// Its bytes.
        input: Vec<u8>,
    },
}

// Reads a module: without its bodies where a draft may serve, and else whole, and lets its bytes go. Nothing is judged before all is read where
// a draft may serve, so that what is malformed is refused in the time of reading.
fn open(alloc: Global, input: Vec<u8>, profile: Profile) -> Result<Opened, ReadFault>
    ensures exact { MatchResult result
        (λ opened. (m : PartsOf) × (module_at profile input.items ≡ Ok m)
        × IsOpened profile m opened)
        (λ e. FailsAs e e.kind (module_at profile input.items)) }
    ensures is { IsReading profile input.items (module_at profile input.items) }
{
    // The proof asks what this says: what is read is what the grammar spells.
    reading_of_module(&input, profile);
    if is_worth_draft(&input) {
        let outline = read_outline(alloc, &input, profile)?;
        return Ok(Opened::Outlined { outline, input });
    }
    Ok(Opened::Whole(Session::open_in(alloc, &input, profile)?))
}

// Makes the edits on a module that was read.
fn run_edits(
    alloc: Global,
    opened: Opened,
    edits: &[Edit],
    keep_valid: bool,
    profile: Profile,
) -> Result<Prepared, RunFault>
    requires { (m : PartsOf) × IsOpened profile m opened }
    ensures ok { (m : PartsOf) → IsOpened profile m opened
        → IfOk result (IsPrepared (run_outcome keep_valid m edits.now)) }
    ensures memory { IfErr result (λ e. e ≡ RunFault.Memory) }
{
    let (outline, input) = match opened {
        Opened::Whole(session) => return prepare_run(alloc, session, edits, keep_valid),
        Opened::Outlined { outline, input } => (outline, input),
    };
    match edit_outline(alloc, outline, &input, profile, edits, keep_valid)? {
        Drafted::Made(run) => prepare_draft(alloc, run),
        Drafted::Unmade { verdict, codes } => {
            run_whole(alloc, input, verdict, codes, edits, keep_valid, profile)
        }
    }
}

// Reads the script, and makes its edits on a module that was read.
fn run_script(
    alloc: Global,
    opened: Opened,
    script: &[u8],
    keep_valid: bool,
    profile: Profile,
) -> Result<Prepared, RunFault>
    requires { (m : PartsOf) × IsOpened profile m opened }
    ensures ok { (m : PartsOf) (input : List ℕ) → IsOpened profile m opened
        → module_at profile input ≡ Ok m
        → IfOk result (IsPrepared (outcome_of keep_valid profile input script.now)) }
    ensures means { (m : PartsOf) (input : List ℕ) → IsOpened profile m opened
        → module_at profile input ≡ Ok m → IsReading profile input (module_at profile input)
        → OnOk result (IsReport keep_valid profile input script.now
        (outcome_of keep_valid profile input script.now)) }
    ensures memory { IfErr result (λ e. e ≡ RunFault.Memory) }
{
    // The proof asks what these say: what code spells, or where its fault stands, and which verdict a valid module has.
    reading_of_code();
    meaning_of_verdicts();
    match read_script(alloc, script) {
        Ok(edits) => run_edits(alloc, opened, &edits, keep_valid, profile),
        Err(fault) => {
            drop(opened);
            prepare_script_fault(alloc, &fault)
        }
    }
}

/// Reads the module, then the script, makes the edits, and puts the report together. The bytes of the module are let go before
/// anything is written.
pub(crate) fn prepare(
    alloc: Global,
    input: Vec<u8>,
    script: &[u8],
    keep_valid: bool,
    profile: Profile,
) -> Result<Prepared, RunFault>
    ensures ok { IfOk result (IsPrepared (outcome_of keep_valid profile input.items script.now)) }
    ensures means { OnOk result (IsReport keep_valid profile input.items script.now
        (outcome_of keep_valid profile input.items script.now)) }
    ensures memory { IfErr result (λ e. e ≡ RunFault.Memory) }
{
    match open(alloc, input, profile) {
        Ok(opened) => run_script(alloc, opened, script, keep_valid, profile),
        Err(fault) => prepare_malformed(alloc, &fault),
    }
}
