//! The scenarios and their names.

use crate::answers::Answer;
use crate::bodies::{Code, OfBody, ReadCode};
use crate::bytes::{Holder, Integer, Put};
use crate::drafts::Draft;
use crate::edits::{TooLarge, Trial};
use crate::exprs::{ExprSample, OfExpr, ReadExpr};
use crate::jobs::Job;
use crate::judging::{Constants, OfValid, Validate};
use crate::lines::Line;
use crate::modules::Sample;
use crate::places::Placing;
use crate::runs::Edits;
use crate::sections::{OfWhole, Walk};
use crate::sinks::Room;
use crate::strips::Strip;
use crate::table::tables;
use crate::{bodies, drafts, jobs, judging, listings, many, modules, recoded, runs, sessions};
use std::alloc::Global;
use wk_list::Part;
use wk_module::Profile;
use wk_samples::outcome::Outcome;

/// The outcome of a call, and drops what it was made on or gave: how that is freed is then proved once, and not in each scenario.
pub(crate) fn and_drop<T: Drop>(outcome: Outcome, value: T) -> Outcome {
    drop(value);
    outcome
}

/// A call under test.
#[derive(Clone, Copy)]
pub(crate) enum Scenario {
    /// An integer to a full vector.
    Put(Integer),
    /// Bytes or an integer to a `Sink`.
    PutOut(Put, Room),
    /// Bytes or an integer to a `Stream`.
    PutStream(Put, Room),
    /// A call of `Items` or `Text`.
    Hold(Holder),
    /// A call that reads a code.
    ReadCode(ReadCode, Code),
    /// A call that is lent a body.
    OfBody(OfBody, Code),
    /// `refs` of many functions.
    ManyRefs,
    /// A call that reads an expression.
    ReadExpr(ReadExpr, Profile),
    /// A call that is lent an expression.
    OfExpr(OfExpr, ExprSample),
    /// `read` or `read_in`.
    Read(Sample),
    /// `read_outline`.
    Outline(Sample),
    /// `read_skeleton`.
    Skeleton(Sample),
    /// `encode`.
    Encode(Sample),
    /// `Module::of`, `parts`, `into_parts` and `encoded_len`.
    Settle(Sample),
    /// A call that is lent the module with every section.
    OfWhole(OfWhole, Profile),
    /// `shift_lists`.
    ShiftLists,
    /// A call of `SectionReader` or `CodeReader`.
    Walk(Walk, Sample),
    /// `judge` of a valid module.
    Judge(Sample),
    /// `judge_bytes` of a valid module.
    JudgeBytes(Sample),
    /// `Validator::judge_bytes` of a valid module.
    Validate(Validate, Sample),
    /// `type_encoded_body` of each code of a valid module, again.
    TypeCodes(Sample),
    /// `next_constant_flaw` of expressions that no module holds.
    NextConstants(Constants, Sample),
    /// A call that is lent a valid module in which all that can move does.
    OfValid(OfValid, Sample),
    /// A call of `wk_place`.
    Place(Placing),
    /// `Plain::of`.
    Plain(Sample),
    /// `Layout::of`.
    Layout(Sample),
    /// `list` of a part to a `Sink`.
    List(Part, Profile, Room),
    /// `Summary::read`.
    Summarize(Sample),
    /// `list_summary` of a part to a `Sink`.
    ListSummary(Part, Profile, Room),
    /// `strip_bytes`.
    Strip(Strip),
    /// `Session::open` or `Session::open_in` of a valid module.
    Open(Sample),
    /// `Session::open_judged` of a valid module.
    OpenJudged(Sample),
    /// `Session::open_outlined` of a valid module whose verdict is not known.
    OpenOutlined(Sample),
    /// `Session::of` of a valid module.
    Holding(Sample),
    /// `Session::verdict`, `Session::encoded_len` and `Session::uses`.
    Tell(Sample),
    /// `Session::list` of a part to a `Sink`.
    ListSession(Part, Profile, Room),
    /// `Session::write` to a `Sink`.
    Write(Sample, Room),
    /// `Session::write_with` to a `Sink`.
    WriteWith(Room),
    /// `Session::apply` of an edit.
    Apply(Trial),
    /// `Session::apply_kept` of an edit.
    ApplyKept(Trial),
    /// `Session::apply` of an edit that makes the module too long.
    ApplyLarge(TooLarge),
    /// `Session::apply` of the edit of that number, from 0, among one of each kind in the wider profile, behind those in front of it.
    Step(usize),
    /// The same by `Session::apply_kept`.
    StepKept(usize),
    /// `Session::apply` of a line to a module of 1,000 functions.
    ApplyMany(&'static [u8]),
    /// `Session::run` or `Session::run_kept`.
    Run(Edits),
    /// `is_valid` of a valid module.
    IsValid(Sample),
    /// `edit_valid`.
    EditValid(Draft),
    /// `edit_outline` of a valid module.
    EditOutline(Draft),
    /// `Edited::write` of what edits make of a valid module.
    WriteEdited(Draft, Room),
    /// `read_script`.
    ReadScript,
    /// A line or a name.
    Line(Line),
    /// `edit` or `edit_in` onto two outputs.
    Edit(Job, Room, Room),
    /// A call of `wk_answers`.
    Answer(Answer),
}

/// A scenario with its name, which ends in `-in-room` where it takes no memory.
pub(crate) type Named = (&'static str, Scenario);

// A table of scenarios, a line each.
macro_rules! scenarios {
    ($($name:literal => $scenario:expr,)*) => {
        [$(($name, $scenario)),*]
    };
}

pub(crate) use scenarios;

// The scenario of that name in a table.
fn find(table: &[Named], name: &str) -> Option<Scenario> {
    for (known, scenario) in table {
        if *known == name {
            return Some(*scenario);
        }
    }
    None
}

impl Scenario {
    /// The scenario of that name.
    pub(crate) fn named(name: &str) -> Option<Scenario> {
        for table in tables() {
            if let Some(scenario) = find(table, name) {
                return Some(scenario);
            }
        }
        None
    }

    /// Runs it.
    pub(crate) fn run(self, alloc: Global) -> Outcome {
        match self {
            Scenario::Put(integer) => integer.run(alloc),
            Scenario::PutOut(put, room) => put.run(alloc, room),
            Scenario::PutStream(put, room) => put.run_on_stream(alloc, room),
            Scenario::Hold(holder) => holder.run(alloc),
            Scenario::ReadCode(call, code) => call.run(alloc, code),
            Scenario::OfBody(call, code) => call.run(alloc, code),
            Scenario::ManyRefs => bodies::finds_many(alloc),
            Scenario::ReadExpr(call, profile) => call.run(alloc, profile),
            Scenario::OfExpr(call, sample) => call.run(alloc, sample),
            Scenario::Read(sample) => sample.reads(alloc),
            Scenario::Outline(sample) => sample.outlines(alloc),
            Scenario::Skeleton(sample) => sample.measures(alloc),
            Scenario::Encode(sample) => sample.encodes(alloc),
            Scenario::Settle(sample) => sample.settles(alloc),
            Scenario::OfWhole(call, profile) => call.run(alloc, profile),
            Scenario::ShiftLists => modules::shifts_lists(alloc),
            Scenario::Walk(walk, sample) => walk.run(alloc, sample),
            Scenario::Judge(sample) => judging::judges(alloc, sample),
            Scenario::JudgeBytes(sample) => judging::judges_bytes(alloc, sample),
            Scenario::Validate(call, sample) => call.run(alloc, sample),
            Scenario::TypeCodes(sample) => judging::types_codes(alloc, sample),
            Scenario::NextConstants(call, sample) => call.run(alloc, sample),
            Scenario::OfValid(call, sample) => call.run(alloc, sample),
            Scenario::Place(call) => call.run(alloc),
            Scenario::Plain(sample) => listings::sees_plain(alloc, sample),
            Scenario::Layout(sample) => listings::lays_out(alloc, sample),
            Scenario::List(part, profile, room) => listings::lists(alloc, part, profile, room),
            Scenario::Summarize(sample) => listings::summarizes(alloc, sample),
            Scenario::ListSummary(part, profile, room) => {
                listings::lists_summary(alloc, part, profile, room)
            }
            Scenario::Strip(strip) => strip.run(alloc),
            _ => self.run_above(alloc),
        }
    }

    // Runs a call of sessions or of what stands above them.
    fn run_above(self, alloc: Global) -> Outcome {
        match self {
            Scenario::Open(sample) => sessions::opens(alloc, sample),
            Scenario::OpenJudged(sample) => sessions::opens_judged(alloc, sample),
            Scenario::OpenOutlined(sample) => sessions::opens_outlined(alloc, sample),
            Scenario::Holding(sample) => sessions::holds_module(alloc, sample),
            Scenario::Tell(sample) => sessions::tells(alloc, sample),
            Scenario::ListSession(part, profile, room) => {
                sessions::lists(alloc, part, profile, room)
            }
            Scenario::Write(sample, room) => sessions::writes(alloc, sample, room),
            Scenario::WriteWith(room) => recoded::writes_with(alloc, room),
            Scenario::Apply(trial) => trial.run(alloc, false),
            Scenario::ApplyKept(trial) => trial.run(alloc, true),
            Scenario::ApplyLarge(edit) => edit.run(alloc, false),
            Scenario::Step(number) => runs::EACH_KIND_WIDE.step(alloc, number),
            Scenario::StepKept(number) => runs::EACH_KIND_WIDE_KEPT.step(alloc, number),
            Scenario::ApplyMany(line) => many::edits(alloc, line),
            Scenario::Run(edits) => edits.run(alloc),
            Scenario::IsValid(sample) => drafts::judges(alloc, sample),
            Scenario::EditValid(draft) => draft.run(alloc, None),
            Scenario::EditOutline(draft) => draft.run_outlined(alloc),
            Scenario::WriteEdited(draft, room) => draft.run(alloc, Some(room)),
            Scenario::ReadScript => jobs::reads_script(alloc),
            Scenario::Line(line) => line.run(alloc),
            Scenario::Edit(job, out, report) => job.run(alloc, out, report),
            Scenario::Answer(answer) => answer.run(alloc),
            _ => Outcome::NO_SAMPLE,
        }
    }
}
