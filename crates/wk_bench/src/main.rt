//! Times the reading calls of `wk_bytes` and `wk_body`: what it computes goes to standard output and is the same in every run, the
//! processor time to standard error.
//!
//! - `wk_bench` reads two inputs that it makes itself, and walks over the frames of a third and the bodies of a fourth: a short
//!   run.
//! - `wk_bench --full` does the same a hundred times over: a hundred million integers of each kind.
//! - `wk_bench FILE` walks over the frames of a file and reads its bodies, a hundred times.
#![tactic(auto)]

mod codes;
mod draws;
mod frames;
mod spellings;

use crate::codes::{Codes, read_codes, sample_codes};
use crate::frames::{Walk, sample_module, walk_frames};
use crate::spellings::{Spelling, add_all, spelled};
use anyhow::{Context, Result, anyhow, bail};
use std::alloc::AllocError;
use std::time::{CpuClock, Duration};
use std::{env, fs};

// How many integers one input holds.
const INTEGERS: u32 = 1_000_000;

// How many sections the module holds that is made here.
const SECTIONS: u32 = 100_000;

// How many bodies the module holds that is made here.
const BODIES: u32 = 2_000;

const SHORT: u32 = 1;

const FULL: u32 = 100;

// Says on standard error how long it was since the processor's clock stood at `start`.
fn say_time(rt: &(impl CpuClock + Eprint), what: &str, start: Duration) -> Result<()> {
    let spent = rt.process_cpu_time()?.saturating_sub(start).as_micros();
    eprintln!(rt; "{what}: {spent} us of processor time")?;
    Ok(())
}

// Times the reading of an input of integers.
fn time_integers(
    rt: &(impl AllocGlobal + CpuClock + Print + Eprint),
    spelling: Spelling,
    passes: u32,
) -> Result<()> {
    let bytes = spelled(rt.alloc(), spelling, INTEGERS).map_err(|_| AllocError)?;
    let what = spelling.name();
    let start = rt.process_cpu_time()?;
    let mut sum = 0;
    for _ in 0..passes {
        let Ok(more) = add_all(&bytes, INTEGERS, sum) else {
            bail!("an integer that was written could not be read");
        };
        sum = more;
    }
    say_time(rt, what, start)?;
    let count = u64::from(INTEGERS) * u64::from(passes);
    println!(rt; "{what}: {count} integers, sum {sum}")?;
    Ok(())
}

// Times the walk over the frames of a module.
fn time_frames(
    rt: &(impl CpuClock + Print + Eprint),
    what: &str,
    bytes: &[u8],
    passes: u32,
) -> Result<()> {
    let start = rt.process_cpu_time()?;
    let mut seen = Walk::default();
    for _ in 0..passes {
        seen = walk_frames(bytes, seen);
    }
    say_time(rt, what, start)?;
    let Walk {
        sections,
        contents,
        faults,
    } = seen;
    println!(rt; "{what}: {sections} sections, {contents} bytes of contents, {faults} faults")?;
    Ok(())
}

// Times the reading of the bodies of a module.
fn time_codes(
    rt: &(impl AllocGlobal + CpuClock + Print + Eprint),
    what: &str,
    bytes: &[u8],
    passes: u32,
) -> Result<()> {
    let start = rt.process_cpu_time()?;
    let mut seen = Codes::default();
    for _ in 0..passes {
        seen = read_codes(rt.alloc(), bytes, seen);
    }
    say_time(rt, what, start)?;
    let Codes {
        bodies,
        tokens,
        faults,
    } = seen;
    println!(rt; "{what}: {bodies} bodies, {tokens} tokens, {faults} faults")?;
    Ok(())
}

fn time_all(rt: &(impl AllocGlobal + CpuClock + Print + Eprint), passes: u32) -> Result<()> {
    time_integers(rt, Spelling::OneByte, passes)?;
    time_integers(rt, Spelling::Mixed, passes)?;
    let module = sample_module(rt.alloc(), SECTIONS).map_err(|_| AllocError)?;
    time_frames(rt, "frames", &module, passes)?;
    let codes = sample_codes(rt.alloc(), BODIES).map_err(|_| AllocError)?;
    time_codes(rt, "bodies", &codes, passes)
}

fn main(rt: HostRuntime) -> Result<()> {
    let words: Vec<String> = env::args(&rt)?.skip(1).collect(rt.alloc())?;
    match words.as_slice() {
        [] => time_all(&rt, SHORT),
        [word] if word.as_str() == "--full" => time_all(&rt, FULL),
        [file] => {
            let bytes = fs::read(&rt, file.as_str()).context("the file cannot be read")?;
            time_frames(&rt, file.as_str(), &bytes, FULL)?;
            time_codes(&rt, file.as_str(), &bytes, FULL)
        }
        _ => Err(anyhow!("usage: wk_bench [--full | FILE]")),
    }
}
