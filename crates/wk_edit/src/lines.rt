//! The lines of a report.

ghost use Rattle.std.specs.Prelude.{◌≡◌, ◌++◌, List, Result, IfOk, OnOk, string_bytes};
ghost use Rattle.wk_session.specs.declared.edit.EditFault.{EditFault as EditFaultOf};
ghost use Rattle.wk_session.specs.declared.edit.Work.{Work as WorkOf};
ghost use Rattle.wk_draft.specs.Runs.{AreAlike, IsAlike};
ghost use Rattle.wk_edit.specs.ReportText.{reply_line, report_text, script_text};

use crate::fault::ScriptFault;
use std::alloc::{AllocError, Global};
use wk_check::{Verdict, verdict_line};
use wk_session::EditFault;

// The line of an edit. It has no word of what an accepted one is told.
fn put_reply<T>(
    alloc: Global,
    text: &mut String,
    number: u64,
    reply: &Result<T, EditFault>,
) -> Result<(), AllocError>
    ensures { (told : Result WorkOf EditFaultOf) → IsAlike reply.now told
        → OnOk result (string_bytes text.new ≡ string_bytes text.old ++ reply_line number told) }
{
    let line = match reply {
        Ok(_) => format!(in alloc; "{number} ok\n")?,
        Err(fault) => format!(in alloc; "{number} refused {fault}\n")?,
    };
    text.push_str(line.as_str())
}

/// The report of a script that cannot be read: `script S1 BadWord line 3`.
pub(crate) fn refused_script(alloc: Global, fault: &ScriptFault) -> Result<String, AllocError>
    ensures { IfOk result (λ line. string_bytes line ≡ script_text fault.now) }
{
    format!(in alloc; "script {fault}\n")
}

/// The report of a run: for each edit, counted from 1, `1 ok` or `2 refused E3 NoSuchCustom`, and
/// last `valid`, or `invalid` and the fault. Each line ends with LF.
pub(crate) fn report<T>(
    alloc: Global,
    replies: &[Result<T, EditFault>],
    verdict: &Verdict,
) -> Result<String, AllocError>
    ensures { (told : List (Result WorkOf EditFaultOf)) → AreAlike replies.now told
        → IfOk result (λ text. string_bytes text ≡ report_text 1 told verdict.now) }
{
    let mut text = String::new(alloc);
    let mut number = 0;
    for reply in replies {
        number += 1;
        put_reply(alloc, &mut text, number, reply)?;
    }
    let last = verdict_line(alloc, verdict)?;
    text.push_str(last.as_str())?;
    Ok(text)
}
