//! What the words of a command line ask for.
use std::alloc::AllocError;

/// What is done, and with which files (this project's own).
#[derive(Clone, Copy)]
pub enum Command<'a> {
    /// The first fault of the text in a file is told, or that there is none.
    Check(&'a str),
    /// The program in a file is served over a store in memory.
    Serve(&'a str),
    /// The program in a file, the first, is served over the store on a disk, the second.
    ServeStored(&'a str, &'a str),
    /// What the store on a disk holds, the second, is counted for the program in a file, the first.
    Audit(&'a str, &'a str),
    /// The lines of the trial of this length, from 0 to `LONGEST_TRIAL`, are answered.
    Trial(u32),
}

/// The settings of a session.
#[derive(Clone, Copy)]
pub struct Limits {
    /// The units of fuel that each request has, from 1 to `MOST_FUEL`.
    pub fuel: u32,
    /// The lanes in which the requests of a batch run, from 1 to `MOST_LANES`.
    pub lanes: u8,
    /// The units of a slice of a lane, from 1 to `MOST_SLICE`.
    pub slice: u32,
}

/// A command, and the settings of the session that it begins. A command that begins none has them all the same.
#[derive(Clone, Copy)]
pub struct Asked<'a> {
    /// What is done.
    pub command: Command<'a>,
    /// The settings: those that are given, and else the defaults.
    pub limits: Limits,
}

/// Why words ask for nothing.
#[derive(Clone, Copy, Drop)]
pub enum WordsError {
    /// They are no command.
    Usage,
    /// Memory ran out, maybe before it was known whether they are a command.
    Memory,
}

impl From<AllocError> for WordsError {
    ghost use Rattle.std.specs.Prelude.{◌≡◌};
    ghost use Rattle.ob_words.specs.declared.asked.WordsError.TheVariants.{Memory};

    ghost from_gives = { λ _ e. e ≡ Memory };

    fn from(_: AllocError) -> WordsError {
        WordsError::Memory
    }
}
