//! The jobs: each makes its inputs from a seed, hands each of them to one public call, and digests all answers.
ghost use Rattle.std.specs.Prelude.{◌≡◌};

use crate::code::params_of;
use crate::digest::Digest;
use crate::draws::Draws;
use crate::module::{Flaws, Shape, Workshop};
use crate::pool::{Lengths, Pool, body_of};
use crate::script::Script;
use std::alloc::Global;
use wk_answers::{Validation, list_parts, validate, validate_with};
use wk_bytes::{Out, OutOfMemory, Sink, Text};
use wk_edit::edit;
use wk_judging::Validator;
use wk_list::{Layout, Part};
use wk_module::{Module, Profile, read_in};
use wk_strip::strip_bytes;

/// What users wait for.
#[derive(Clone, Copy, Debug, PartialEq, Eq)]
pub(crate) enum Job {
    /// Judging linked modules, and some that are awkward.
    Judge,
    /// Judging thousands of small modules, of which a tenth have a byte changed.
    Plugins,
    /// Judging the same by one validator, which keeps its room from one to the next.
    Host,
    /// A few edits of linked modules.
    Edit,
    /// Thousands of edits of one module, and the mending of an invalid one.
    Session,
    /// Stripping linked modules.
    Strip,
    /// Listing linked modules.
    List,
}

/// All jobs.
pub(crate) const JOBS: [Job; 7] = [
    Job::Judge,
    Job::Plugins,
    Job::Host,
    Job::Edit,
    Job::Session,
    Job::Strip,
    Job::List,
];

/// How much of a job is done: all of it, or a hundredth for a try.
#[derive(Clone, Copy, Debug, PartialEq, Eq)]
pub(crate) enum Amount {
    All,
    Hundredth,
}

impl Amount {
    fn of(self, count: u32) -> u32 {
        match self {
            Amount::All => count,
            Amount::Hundredth => count.div_ceil(100),
        }
    }
}

impl Job {
    /// The word that a job is called by.
    pub(crate) fn name(self) -> &'static str {
        match self {
            Job::Judge => "judge",
            Job::Plugins => "plugins",
            Job::Host => "host",
            Job::Edit => "edit",
            Job::Session => "session",
            Job::Strip => "strip",
            Job::List => "list",
        }
    }

    /// Does the job.
    pub(crate) fn run(
        self,
        alloc: Global,
        seed: u32,
        amount: Amount,
    ) -> Result<Digest, OutOfMemory> {
        let mut bench = Bench::new(alloc, seed, amount)?;
        match self {
            Job::Judge => bench.judge()?,
            Job::Plugins => bench.plugins()?,
            Job::Host => bench.host()?,
            Job::Edit => bench.edit()?,
            Job::Session => bench.session()?,
            Job::Strip => bench.strip()?,
            Job::List => bench.list()?,
        }
        Ok(bench.digest)
    }
}

/// What a job works with.
#[derive(Drop)]
struct Bench {
    alloc: Global,
    amount: Amount,
    draws: Draws,
    digest: Digest,
    workshop: Workshop,
}

// Which functions the bodies of linked modules call: those that each such module has.
const CALLABLE: u32 = 96;

// Those that the bodies of small modules and of scripts call: imported ones alone.
const HOST: u32 = 8;

// An output that takes all it is given.
fn sink(alloc: Global) -> Sink
    ensures { ⟦<Sink as Out>⟧.failed result ≡ 0 }
{
    Sink::new(Vec::new(alloc))
}

impl Bench {
    fn new(alloc: Global, seed: u32, amount: Amount) -> Result<Bench, OutOfMemory> {
        let mut draws = Draws::new(seed);
        let workshop = Workshop::new(alloc, &mut draws)?;
        Ok(Bench {
            alloc,
            amount,
            draws,
            digest: Digest::new(),
            workshop,
        })
    }

    // Bodies of linked modules, as a linker leaves them or as an optimiser does.
    fn linked(&mut self, padded: bool) -> Result<Pool, OutOfMemory> {
        let each = self.amount.of(192);
        Pool::new(
            self.alloc,
            &mut self.draws,
            padded,
            CALLABLE,
            Lengths::Linked,
            each,
        )
    }

    fn small(&mut self, lengths: Lengths) -> Result<Pool, OutOfMemory> {
        Pool::new(self.alloc, &mut self.draws, false, HOST, lengths, 48)
    }

    // The shape of a linked module of so many functions.
    fn shape(&mut self, funcs: u32) -> Shape {
        Shape {
            funcs,
            types: self.draws.below(100).saturating_add(60),
            exports: funcs / 4,
            data: funcs.saturating_mul(30),
            custom: funcs.saturating_mul(self.draws.below(300).saturating_add(30)),
            flaws: Flaws::None,
        }
    }

    // So many functions, and up to twice as many more.
    fn funcs(&mut self, least: u32) -> u32 {
        let more = self.draws.below(least.saturating_mul(2));
        least.saturating_add(more)
    }

    fn judge_made(&mut self) -> Result<(), OutOfMemory> {
        let answer = validate(self.alloc, &self.workshop.bytes, Profile::Core)?;
        self.add_answer(&answer);
        Ok(())
    }

    fn add_answer(&mut self, answer: &Validation) {
        self.digest.add(answer.line.as_bytes());
        self.digest.add(&[answer.status]);
    }

    fn judge(&mut self) -> Result<(), OutOfMemory> {
        for padded in [true, false] {
            let pool = self.linked(padded)?;
            for n in 0..self.amount.of(40) {
                let funcs = self.funcs(1_500);
                let mut shape = self.shape(funcs);
                if n % 8 == 0 {
                    shape.flaws = Flaws::Last;
                }
                self.workshop.make(&pool, shape, &mut self.draws)?;
                self.judge_made()?;
            }
        }
        self.judge_awkward()
    }

    // Many small functions, many exports, one large body, blocks in one another, a branch with many labels.
    fn judge_awkward(&mut self) -> Result<(), OutOfMemory> {
        let least = self.small(Lengths::Least)?;
        let mut shape = self.shape(self.amount.of(100_000));
        shape.exports = self.amount.of(50_000);
        self.workshop.make(&least, shape, &mut self.draws)?;
        self.judge_made()?;
        let size = self.amount.of(1_500_000);
        let large = body_of(self.alloc, &mut self.draws, 0, true, HOST, size)?;
        self.workshop.make_one(&large, &mut self.draws)?;
        self.judge_made()?;
        let nested = self.nested(self.amount.of(19_000))?;
        self.workshop.make_one(&nested, &mut self.draws)?;
        self.judge_made()?;
        let table = self.table(self.amount.of(500_000))?;
        self.workshop.make_one(&table, &mut self.draws)?;
        self.judge_made()
    }

    // A body of so many blocks in one another.
    fn nested(&self, depth: u32) -> Result<Vec<u8>, OutOfMemory> {
        let mut body = Vec::from_slice(self.alloc, &[0])?;
        for _ in 0..depth {
            body.extend_from_slice(&[0x02, 0x40])?;
        }
        for _ in 0..depth {
            body.extend_from_slice(&[0x0B])?;
        }
        body.extend_from_slice(&[0x0B])?;
        Ok(body)
    }

    // A body whose one branch has fewer than 2,097,152 labels.
    fn table(&self, labels: u32) -> Result<Vec<u8>, OutOfMemory> {
        let mut body = Vec::from_slice(self.alloc, &[0, 0x41, 0, 0x0E])?;
        wk_bytes::put_u32(&mut body, labels)?;
        for _ in 0..labels {
            body.extend_from_slice(&[0])?;
        }
        body.extend_from_slice(&[0, 0x0B])?;
        Ok(body)
    }

    // Makes the small module of a number. A byte of each tenth is changed.
    fn make_plugin(&mut self, pool: &Pool, number: u32) -> Result<(), OutOfMemory> {
        let funcs = self.draws.below(20).saturating_add(1);
        let shape = Shape {
            funcs,
            types: self.draws.below(4),
            exports: self.draws.below(3).saturating_add(1),
            data: self.draws.below(200),
            custom: self.draws.below(400),
            flaws: Flaws::None,
        };
        self.workshop.make(pool, shape, &mut self.draws)?;
        if number % 10 == 0 {
            self.workshop.spoil(&mut self.draws);
        }
        Ok(())
    }

    fn plugins(&mut self) -> Result<(), OutOfMemory> {
        let pool = self.small(Lengths::Short)?;
        for number in 0..self.amount.of(60_000) {
            self.make_plugin(&pool, number)?;
            self.judge_made()?;
        }
        Ok(())
    }

    fn host(&mut self) -> Result<(), OutOfMemory> {
        let pool = self.small(Lengths::Short)?;
        let mut validator = Validator::new(self.alloc);
        for number in 0..self.amount.of(60_000) {
            self.make_plugin(&pool, number)?;
            let module = &self.workshop.bytes;
            let answer = validate_with(&mut validator, self.alloc, module, Profile::Core)?;
            self.add_answer(&answer);
        }
        Ok(())
    }

    // Makes the edits of a script on the module that stands.
    fn edit_made(&mut self, script: &Script, keep_valid: bool) -> Result<(), OutOfMemory> {
        let mut out = sink(self.alloc);
        let mut report = sink(self.alloc);
        let input = &self.workshop.bytes;
        let status = edit(
            self.alloc,
            input,
            &script.text,
            keep_valid,
            &mut out,
            &mut report,
        );
        let Ok(status) = status else {
            return Err(OutOfMemory);
        };
        self.digest.add(&[status.code()]);
        self.digest.add(&out.into_inner());
        self.digest.add(&report.into_inner());
        Ok(())
    }

    fn edit(&mut self) -> Result<(), OutOfMemory> {
        let bodies = self.small(Lengths::Short)?;
        for padded in [true, false] {
            let pool = self.linked(padded)?;
            for n in 0..self.amount.of(8) {
                let funcs = self.funcs(1_500);
                let shape = self.shape(funcs);
                self.workshop.make(&pool, shape, &mut self.draws)?;
                let mut script = Script::new(self.alloc, funcs, shape.exports);
                if n % 2 == 1 {
                    script.hook()?;
                }
                for _ in 0..self.draws.below(20).saturating_add(1) {
                    script.any(&bodies, &mut self.draws)?;
                }
                self.edit_made(&script, n % 4 < 2)?;
            }
        }
        Ok(())
    }

    fn session(&mut self) -> Result<(), OutOfMemory> {
        let bodies = self.small(Lengths::Short)?;
        let pool = self.linked(true)?;
        let funcs = 1_500;
        let shape = self.shape(funcs);
        self.workshop.make(&pool, shape, &mut self.draws)?;
        let script = self.many_lines(&bodies, funcs, shape.exports)?;
        self.edit_made(&script, false)?;
        let script = self.hooks(&bodies, funcs)?;
        let other = self.shape(funcs);
        self.workshop.make(&pool, other, &mut self.draws)?;
        self.edit_made(&script, true)?;
        self.mend(&pool, &bodies, funcs)
    }

    // Thousands of lines of all kinds but imports.
    fn many_lines(
        &mut self,
        bodies: &Pool,
        funcs: u32,
        exports: u32,
    ) -> Result<Script, OutOfMemory> {
        let mut script = Script::new(self.alloc, funcs, exports);
        for _ in 0..self.amount.of(15_000) {
            script.any(bodies, &mut self.draws)?;
        }
        Ok(script)
    }

    // Hooks, each behind an import, that other bodies call.
    fn hooks(&mut self, bodies: &Pool, funcs: u32) -> Result<Script, OutOfMemory> {
        let mut script = Script::new(self.alloc, funcs, 0);
        for n in 0..self.amount.of(20) {
            if n % 4 == 3 {
                script.flag(&mut self.draws)?;
            } else {
                script.hook()?;
            }
            for _ in 0..10 {
                let entry = self.draws.below(funcs);
                script.body(bodies, entry, &mut self.draws)?;
            }
        }
        Ok(script)
    }

    // An invalid module whose bodies are mended one by one, with other lines between them.
    fn mend(&mut self, pool: &Pool, bodies: &Pool, funcs: u32) -> Result<(), OutOfMemory> {
        let mut shape = self.shape(funcs);
        shape.flaws = Flaws::Each(75);
        self.workshop.make(pool, shape, &mut self.draws)?;
        let mut script = Script::new(self.alloc, funcs, shape.exports);
        for n in 0..20 {
            for _ in 0..self.amount.of(20) {
                script.any(bodies, &mut self.draws)?;
            }
            script.body(bodies, n * 75, &mut self.draws)?;
        }
        self.edit_made(&script, false)
    }

    fn strip(&mut self) -> Result<(), OutOfMemory> {
        for padded in [true, false] {
            let pool = self.linked(padded)?;
            for n in 0..self.amount.of(48) {
                self.strip_one(&pool, n % 2 == 1)?;
            }
        }
        Ok(())
    }

    // Strips a linked module, of which the section `name` may be kept.
    fn strip_one(&mut self, pool: &Pool, is_name_kept: bool) -> Result<(), OutOfMemory> {
        let funcs = self.funcs(1_500);
        let shape = self.shape(funcs);
        self.workshop.make(pool, shape, &mut self.draws)?;
        let input = Vec::from_slice(self.alloc, &self.workshop.bytes)?;
        if !is_name_kept {
            return self.strip_made(input, None);
        }
        let name = Text::from_string(String::from_str(self.alloc, "name")?);
        self.strip_made(input, Some(&name))
    }

    fn strip_made(&mut self, input: Vec<u8>, keep: Option<&Text>) -> Result<(), OutOfMemory> {
        let Ok(stripped) = strip_bytes(self.alloc, input, Profile::Core, keep) else {
            return Err(OutOfMemory);
        };
        self.digest.add(stripped.as_slice());
        Ok(())
    }

    fn list(&mut self) -> Result<(), OutOfMemory> {
        for padded in [true, false] {
            let pool = self.linked(padded)?;
            for n in 0..self.amount.of(16) {
                let funcs = self.funcs(800);
                let shape = self.shape(funcs);
                self.workshop.make(&pool, shape, &mut self.draws)?;
                let parts: &[Part] = match n % 4 {
                    0 => &[Part::Code],
                    1 => &[Part::Headers, Part::Details],
                    2 => &[Part::Uses],
                    _ => &[Part::Headers, Part::Code, Part::Uses],
                };
                self.list_made(parts)?;
            }
        }
        Ok(())
    }

    fn list_made(&mut self, parts: &[Part]) -> Result<(), OutOfMemory> {
        let Ok(module) = read_in(self.alloc, &self.workshop.bytes, Profile::Core) else {
            return Err(OutOfMemory);
        };
        let listed = self.list_module(&module, parts);
        drop(module);
        listed
    }

    fn list_module(&mut self, module: &Module, parts: &[Part]) -> Result<(), OutOfMemory> {
        let Ok(layout) = Layout::of(self.alloc, module) else {
            return Err(OutOfMemory);
        };
        let mut out = sink(self.alloc);
        let Ok(()) = list_parts(self.alloc, &layout, parts, &mut out) else {
            return Err(OutOfMemory);
        };
        self.digest.add(&out.into_inner());
        Ok(())
    }
}
