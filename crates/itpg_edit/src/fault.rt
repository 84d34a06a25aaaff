//! Why an edit isn't made.
ghost use Rattle.std.specs.Prelude.{◌≡◌};
ghost use Rattle.itpg_edit.specs.declared.fault.EditFault.TheVariants.{Memory as OutOfMemory, Rule as ByRule};

use itpg_base::RuleCode;
use std::alloc::AllocError;
use thiserror::Error;

/// Why an edit wasn't made. The graph is as it was.
#[derive(Clone, Copy, Debug, PartialEq, Eq, Error)]
pub enum EditFault {
    /// Memory ran out. The edit breaks no rule.
    #[error("memory ran out; the edit breaks no rule")]
    Memory,
    /// The first rule that the edit breaks.
    #[error("the edit breaks the rule `{}`", .0.word())]
    Rule(RuleCode),
}

impl From<AllocError> for EditFault {
    ghost from_gives = { λ _ e. e ≡ OutOfMemory };

    fn from(_: AllocError) -> Self {
        EditFault::Memory
    }
}

impl From<RuleCode> for EditFault {
    ghost from_gives = { λ rule e. e ≡ ByRule rule };

    fn from(rule: RuleCode) -> Self {
        EditFault::Rule(rule)
    }
}
