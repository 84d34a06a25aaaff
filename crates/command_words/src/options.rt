//! What the words ask for, and how reading them fails.
use itpg_base::Limits;
use thiserror::Error;

/// What the words of a command line ask for.
#[derive(Debug, Drop)]
pub struct Options {
    /// How many rows a relation may have.
    pub limits: Limits,
    /// The number of the trial that is to run in place of a script.
    pub trial: Option<u64>,
    /// Whether lines and replies are JSON.
    pub json: bool,
}

/// Why words were not read.
#[derive(Debug, Drop, Error)]
pub enum WordsFault {
    /// They are no sentence of the command.
    #[error("usage: itpg [--max-rows N] [--trial NUMBER] [--json]")]
    Usage,
    /// Memory ran out.
    #[error("out of memory")]
    Memory,
}
