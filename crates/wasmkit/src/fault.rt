//! Why a command gives no answer.

ghost use Rattle.std.specs.Prelude.{◌≡◌};
ghost use Rattle.wasmkit.specs.declared.fault.ProgramFault.TheVariants.{Memory as no_memory};
ghost use Rattle.wasmkit.specs.Faults.{fault_status, fault_text, of_list, of_words, IsOfLoad, IsOfSave};

use crate::store::StoreFault;
use std::alloc::AllocError;
use std::fmt;
use wk_bytes::OutOfMemory;
use wk_command_line::WordsFault;
use wk_list::ListFault;

/// Why a command gives no answer. Its text, which ends with LF, goes to standard error.
#[derive(Debug, Drop)]
pub enum ProgramFault<'a> {
    /// The words are no command, or ask for help.
    CommandLine(clap::Error),
    /// The words are a command, but not a good one.
    BadWords,
    /// The file of this name could not be read.
    Read(&'a str),
    /// The file of this name could not be written.
    Write(&'a str),
    /// Standard output failed.
    Output,
    /// A growth was refused.
    Memory,
}

impl<'a> ProgramFault<'a> {
    /// The status of the program: 3 for its words, 4 for files and standard output, 5 for memory.
    pub fn status(&self) -> u8
        ensures { result ≡ fault_status self.now }
    {
        match self {
            ProgramFault::CommandLine(_) | ProgramFault::BadWords => 3,
            ProgramFault::Read(_) | ProgramFault::Write(_) | ProgramFault::Output => 4,
            ProgramFault::Memory => 5,
        }
    }

    /// Of a file that was not read.
    pub fn of_load(fault: StoreFault, name: &'a str) -> ProgramFault<'a>
        ensures { IsOfLoad name.now fault result }
    {
        match fault {
            StoreFault::Failed => ProgramFault::Read(name),
            StoreFault::Memory => ProgramFault::Memory,
        }
    }

    /// Of a file that was not written.
    pub fn of_save(fault: StoreFault, name: &'a str) -> ProgramFault<'a>
        ensures { IsOfSave name.now fault result }
    {
        match fault {
            StoreFault::Failed => ProgramFault::Write(name),
            StoreFault::Memory => ProgramFault::Memory,
        }
    }
}

impl<'a> fmt::Display for ProgramFault<'a> {
    ghost output = { λ fault. fault_text fault };

    fn fmt<W: fmt::Write>(&self, f: &mut fmt::Formatter<W>) -> fmt::Result {
        match self {
            ProgramFault::CommandLine(complaint) => write!(f, "{complaint}"),
            ProgramFault::BadWords => f.write_str("bad command line\n"),
            ProgramFault::Read(name) => writeln!(f, "cannot read {name}"),
            ProgramFault::Write(name) => writeln!(f, "cannot write {name}"),
            ProgramFault::Output => f.write_str("cannot write standard output\n"),
            ProgramFault::Memory => f.write_str("out of memory\n"),
        }
    }
}

impl<'a> From<WordsFault> for ProgramFault<'a> {
    ghost from_gives = { λ e f. f ≡ of_words e };

    fn from(fault: WordsFault) -> ProgramFault<'a> {
        match fault {
            WordsFault::CommandLine(complaint) => ProgramFault::CommandLine(complaint),
            WordsFault::BadWords => ProgramFault::BadWords,
            WordsFault::Memory => ProgramFault::Memory,
        }
    }
}

impl<'a> From<ListFault> for ProgramFault<'a> {
    ghost from_gives = { λ e f. f ≡ of_list e };

    fn from(fault: ListFault) -> ProgramFault<'a> {
        match fault {
            ListFault::Write => ProgramFault::Output,
            ListFault::Memory => ProgramFault::Memory,
        }
    }
}

impl<'a> From<OutOfMemory> for ProgramFault<'a> {
    ghost from_gives = { λ _ f. f ≡ no_memory };

    fn from(_error: OutOfMemory) -> ProgramFault<'a> {
        ProgramFault::Memory
    }
}

impl<'a> From<AllocError> for ProgramFault<'a> {
    ghost from_gives = { λ _ f. f ≡ no_memory };

    fn from(_error: AllocError) -> ProgramFault<'a> {
        ProgramFault::Memory
    }
}
