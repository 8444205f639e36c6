//! Where files lie.

ghost use Rattle.std.specs.Prelude.{◌≡◌, Option, List};
ghost use Rattle.wasmkit.specs.Events.{bytes_of, then_asked, Event, Loaded, Saved};

/// Why a file was not had.
#[derive(Clone, Copy, Debug, PartialEq, Eq)]
pub enum StoreFault {
    /// It could not be read or written.
    Failed,
    /// A growth was refused.
    Memory,
}

/// Files by name. Names are those of the command line, as they stand. Nothing is claimed of what a file holds.
pub trait Store {
    /// What was asked so far, in order, with the answers, or `None` where no contract can know it, as of the machine's files.
    ghost asked: { Self → Option (List Event) };

    /// All bytes of a file.
    fn load(&mut self, name: &str) -> Result<Vec<u8>, StoreFault>
        ensures { asked self.new
            ≡ then_asked (asked self.old) (Loaded name.now (bytes_of result)) };

    /// Makes the file of these bytes, in the place of one that is there.
    fn save(&mut self, name: &str, bytes: &[u8]) -> Result<(), StoreFault>
        ensures { asked self.new ≡ then_asked (asked self.old) (Saved name.now bytes.now result) };
}
