//! How a run of the command ends.
ghost use Rattle.std.specs.Prelude.{◌≡◌};
ghost use Rattle.command_words.specs.Codes.{code_of};

use thiserror::Error;

/// How a run ended. As a text it is a sentence for people.
#[derive(Clone, Copy, Debug, PartialEq, Eq, Drop, Error)]
pub enum Status {
    /// The input was read to its end, and no reply was bad, refused or wide.
    #[error("done")]
    Done,
    /// The input was read to its end, and some reply was bad, refused or wide.
    #[error("done, and some line was bad, refused or wide")]
    DoneRefused,
    /// The words ask for nothing. Nothing was read or written.
    #[error("usage: itpg [--max-rows N] [--trial NUMBER] [--json]")]
    Usage,
    /// The source failed. The lines whose end was read were answered.
    #[error("read fault")]
    ReadFault,
    /// The sink failed. A front part of the output was written.
    #[error("write fault")]
    WriteFault,
    /// Memory ran out. Some first lines were answered, each whole.
    #[error("out of memory")]
    Memory,
    /// A byte past the first 268,435,456 was taken. The lines whose end is among those were answered.
    #[error("input too long")]
    TooLong,
}

impl Status {
    /// The exit status of the program: 0 to 6 in the order of the variants.
    pub fn code(self) -> u8
        ensures { result ≡ code_of self }
    {
        match self {
            Status::Done => 0,
            Status::DoneRefused => 1,
            Status::Usage => 2,
            Status::ReadFault => 3,
            Status::WriteFault => 4,
            Status::Memory => 5,
            Status::TooLong => 6,
        }
    }
}
