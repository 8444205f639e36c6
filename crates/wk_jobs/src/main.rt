//! The jobs that users of wasmkit wait for, to be timed: each makes its inputs from a seed, and prints a digest of all answers.
//!
//! - `wk_jobs JOB SEED` does a job, of `judge`, `plugins`, `host`, `edit`, `session`, `strip` and `list`.
//! - `wk_jobs` does a hundredth of each, which is a short run.
#![tactic(auto)]

mod code;
mod digest;
mod draws;
mod jobs;
mod module;
mod pool;
mod script;

use crate::jobs::{Amount, JOBS, Job};
use anyhow::{Result, anyhow};
use std::alloc::AllocError;
use std::env;

fn run(rt: &(impl AllocGlobal + Print), job: Job, seed: u32, amount: Amount) -> Result<()> {
    let Ok(digest) = job.run(rt.alloc(), seed, amount) else {
        return Err(anyhow!("an input is refused, or memory is"));
    };
    let (value, bytes) = digest.value();
    let name = job.name();
    println!(rt; "{name} {seed}: {bytes} bytes of answers, digest {value:016x}")?;
    Ok(())
}

fn main(rt: HostRuntime) -> Result<()> {
    let words: Vec<String> = env::args(&rt)?.skip(1).collect(rt.alloc())?;
    match words.as_slice() {
        [] => {
            for job in JOBS {
                run(&rt, job, 1, Amount::Hundredth)?;
            }
            Ok(())
        }
        [name, seed] => {
            let Ok(seed) = seed.as_str().parse::<u32>() else {
                return Err(anyhow!("a seed is a number below 4294967296"));
            };
            for job in JOBS {
                if job.name() == name.as_str() {
                    return run(&rt, job, seed, Amount::All);
                }
            }
            Err(anyhow!("no job has that name"))
        }
        _ => Err(anyhow!("usage: wk_jobs [JOB SEED]")),
    }
}
