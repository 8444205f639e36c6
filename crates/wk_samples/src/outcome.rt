//! What a trial of a call finds.

ghost use Rattle.std.specs.Prelude.{◌≡◌, ◌↔◌, IsTrue};

use std::fmt;

/// What an edit took.
#[derive(Clone, Copy, Debug, PartialEq, Eq)]
pub struct Counts {
    /// How many bodies were typed.
    pub typed: u32,
    /// How many bodies were encoded.
    pub encoded: u32,
    /// How many sections changed.
    pub sections: u32,
}

impl fmt::Display for Counts {
    fn fmt<W: fmt::Write>(&self, f: &mut fmt::Formatter<W>) -> fmt::Result {
        let Counts {
            typed,
            encoded,
            sections,
        } = self;
        write!(f, "typed={typed} encoded={encoded} sections={sections}")
    }
}

/// What the call under test did.
#[derive(Clone, Copy, Debug, PartialEq, Eq)]
pub enum Outcome {
    /// It answered, and rightly.
    Fine,
    /// It answered these counts, and rightly.
    FineOf(Counts),
    /// It answered want of memory, and all was as before.
    Memory,
    /// It answered want of memory in that place, and all is as it has to be then.
    MemoryOf(&'static str),
    /// None of these, and what was wrong.
    Wrong(&'static str),
}

impl Outcome {
    /// There was no memory for what the trial itself needs, or a sample is not what it has to be.
    pub const NO_SAMPLE: Outcome = Outcome::Wrong("the sample was not made");

    /// The outcome of a call that answered.
    pub fn answered(is_right: bool) -> Outcome
        ensures { (result ≡ Outcome.Fine) ↔ IsTrue is_right }
    {
        if is_right {
            Outcome::Fine
        } else {
            Outcome::Wrong("the answer is not the right one")
        }
    }

    /// The outcome of a call that answered a fault, whether it is want of memory and all is as before.
    pub fn refused(is_as_before: bool) -> Outcome
        ensures { (result ≡ Outcome.Memory) ↔ IsTrue is_as_before }
    {
        if is_as_before {
            Outcome::Memory
        } else {
            Outcome::Wrong("a refusal left something changed, or has another cause")
        }
    }
}

impl fmt::Display for Outcome {
    fn fmt<W: fmt::Write>(&self, f: &mut fmt::Formatter<W>) -> fmt::Result {
        match self {
            Outcome::Fine => f.write_str("fine"),
            Outcome::FineOf(counts) => write!(f, "fine: {counts}"),
            Outcome::Memory => f.write_str("memory"),
            Outcome::MemoryOf(place) => write!(f, "memory: {place}"),
            Outcome::Wrong(what) => write!(f, "wrong: {what}"),
        }
    }
}
