//! The words of the command line: which of them spell which command, and the one that they spell.
//!
//! # What it promises
//!
//! - [`read_words`] gives the one command that the words after the program's name spell (`SpellsOnly` of `specs/CommandLine`, beside
//!   `docs/CLI.md`): the names of its files as they stand, the profile, and what its options say.
//! - Where it gives none, the words spell no command, or memory was refused (`RefusesWords` of `specs/Faults`).
//!
//! What `clap` says of words that are no command has no clause: it is tested.
//!
//! # What it costs
//!
//! A call makes the parser of the five commands, reads the words by it, and has dropped the parser and what it found when it returns. What
//! comes lends the names of files from the words. Of memory it holds the parts of a listing, the name to keep, or the list of FILEs.
#![tactic(auto)]

mod command;
mod fault;

pub use command::{
    Asked, EachCommand, EditCommand, ObjdumpCommand, StripCommand, ValidateCommand, read_words,
};
pub use fault::WordsFault;
