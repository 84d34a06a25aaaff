//! Why a step answers nothing.
use itpg_base::Failed;
use std::alloc::AllocError;
use thiserror::Error;

/// Why a line wasn't answered. The graph, the watches and the pins are as they were, with their bases, kept answers and graphs.
#[derive(Clone, Copy, Debug, PartialEq, Eq, Drop, Error)]
pub enum StepFault {
    /// Memory ran out. Nothing was written.
    #[error("out of memory")]
    Memory,
    /// The sink failed. A front part of the reply was written.
    #[error("write fault")]
    Write,
}

impl From<AllocError> for StepFault {
    ghost use Rattle.std.specs.Prelude.{◌≡◌};
    ghost use Rattle.itpg_session.specs.declared.fault.StepFault.TheVariants.{Memory};

    ghost from_gives = { λ _ fault. fault ≡ Memory };

    fn from(_error: AllocError) -> StepFault {
        StepFault::Memory
    }
}

impl From<Failed> for StepFault {
    ghost use Rattle.std.specs.Prelude.{◌≡◌};
    ghost use Rattle.itpg_session.specs.declared.fault.StepFault.TheVariants.{Write};

    ghost from_gives = { λ _ fault. fault ≡ Write };

    fn from(_failed: Failed) -> StepFault {
        StepFault::Write
    }
}
