//! What is told on standard error.
//!
//! It is told one text after the other until it fails, and nothing behind that, so that it has a beginning of them.

ghost use Rattle.std.specs.Prelude.{◌≡◌, ℕ, ◌++◌, ◌-◌, ◌<◌, ◌^◌, List, [], Option};
ghost use Rattle.wasmkit.specs.Runs.{between, printing, GetsOrFails, Hears, Tells};

use crate::fault::ProgramFault;
use std::alloc::Global;
use wk_bytes::{Out, put_all};

// Says a text, if standard error has failed no more often than `start` times.
fn say<Y: Out>(start: u64, text: &[u8], err: &mut Y)
    requires { start < 2 ^ 64 - 1 }
    ensures { (told : List ℕ) → (first : Option (List ℕ))
        → Hears told (printing first (Y.taken err.old) start (Y.failed err.old))
        → GetsOrFails (told ++ text.now) (printing first (Y.taken err.new) start (Y.failed err.new)) }
{
    if err.failures() == start {
        // By a match, since the proof asks what the output took in either case.
        match put_all(err, text) {
            Ok(()) | Err(_) => {}
        }
    }
}

/// Says why there is no answer, behind what was told since standard error had failed `start` times, and gives the status.
pub fn tell_after<Y: Out>(start: u64, alloc: Global, fault: &ProgramFault<'_>, err: &mut Y) -> u8
    requires { start < 2 ^ 64 - 1 }
    ensures { (told : List ℕ) → (first : Option (List ℕ))
        → Hears told (printing first (Y.taken err.old) start (Y.failed err.old))
        → Tells told fault.now result (printing first (Y.taken err.new) start (Y.failed err.new)) }
{
    match fault.to_string(alloc) {
        Ok(text) => {
            say(start, text.as_bytes(), err);
            fault.status()
        }
        Err(_) => {
            say(start, b"out of memory\n", err);
            5
        }
    }
}

/// Says on standard error why there is no answer, and gives the status. Where standard error fails, nothing changes.
pub fn tell<Y: Out>(alloc: Global, fault: &ProgramFault<'_>, err: &mut Y) -> u8
    requires { Y.failed err.old < 2 ^ 64 - 1 }
    ensures { Tells [] fault.now result (between Y.taken Y.failed err.old err.new) }
{
    tell_after(err.failures(), alloc, fault, err)
}
