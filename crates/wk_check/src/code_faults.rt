//! The first fault of a code section, by the verdicts of its bodies.

ghost use Rattle.std.specs.Prelude.{◌≡◌, ◌<◌, ◌^◌, length, map};
ghost use Rattle.wk_check.specs.Flaws.{first_in};
ghost use Rattle.wk_typing.specs.Faults.{body_flaw};

use wk_module::section_id;
use wk_typing::{BodyVerdict, Fault};

/// The first fault of the code section of a module, by the verdicts of its functions in their order. It takes no memory.
pub fn first_code_fault(verdicts: &[BodyVerdict]) -> Option<Fault>
    requires { length verdicts.now < 2 ^ 32 }
    ensures { result ≡ first_in 10 0 (map body_flaw verdicts.now) }
{
    for (index, verdict) in verdicts.iter().enumerate() {
        if let Some(flaw) = verdict.flaw() {
            return Some(flaw.at(section_id::CODE, index as u32));
        }
    }
    None
}
