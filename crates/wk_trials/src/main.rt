//! Calls of the libraries where memory may be wanting, one scenario a word.
//!
//! - `wk_trials SCENARIO` prints `fine`, `fine: COUNTS`, `memory`, `memory: PLACE` or `wrong: ..`. Between two allocations of agreed sizes it makes the one
//!   call that it is about, so that a library loaded before it can refuse each allocation of that call in turn
//!   (`tests/refusals`).
//! - `wk_trials` runs each scenario once and prints a line for each.
#![tactic(auto)]

mod answers;
mod bodies;
mod bytes;
mod changes;
mod drafts;
mod edits;
mod exprs;
mod jobs;
mod judging;
mod lines;
mod listings;
mod many;
mod mark;
mod modules;
mod places;
mod recoded;
mod runs;
mod same;
mod scenario;
mod sections;
mod sessions;
mod sinks;
mod steps;
mod strips;
mod table;

use crate::scenario::{Named, Scenario};
use crate::table::tables;
use anyhow::{Result, bail};
use std::env;
use std::process::ExitCode;
use wk_samples::outcome::Outcome;

fn run_each(rt: &(impl AllocGlobal + Print), table: &[Named]) -> Result<()> {
    for (name, scenario) in table {
        let outcome = scenario.run(rt.alloc());
        println!(rt; "{name}: {outcome}")?;
    }
    Ok(())
}

fn run_all(rt: &(impl AllocGlobal + Print)) -> Result<()> {
    for table in tables() {
        run_each(rt, table)?;
    }
    Ok(())
}

fn run_one(rt: &(impl AllocGlobal + Print), name: &str) -> Result<ExitCode> {
    let Some(scenario) = Scenario::named(name) else {
        bail!("no scenario has that name");
    };
    let outcome = scenario.run(rt.alloc());
    println!(rt; "{outcome}")?;
    Ok(match outcome {
        Outcome::Fine | Outcome::FineOf(_) | Outcome::Memory | Outcome::MemoryOf(_) => {
            ExitCode::SUCCESS
        }
        Outcome::Wrong(_) => ExitCode::FAILURE,
    })
}

fn main(rt: HostRuntime) -> Result<ExitCode> {
    let words: Vec<String> = env::args(&rt)?.skip(1).collect(rt.alloc())?;
    match words.as_slice() {
        [] => {
            run_all(&rt)?;
            Ok(ExitCode::SUCCESS)
        }
        [name] => run_one(&rt, name.as_str()),
        _ => bail!("usage: wk_trials [SCENARIO]"),
    }
}
