//! Why a query text gives no query.
use itpg_base::TextCode;
use std::alloc::{AllocError, AllocFailed};
use thiserror::Error;

/// Why a query text gives no query.
#[derive(Clone, Copy, Debug, PartialEq, Eq, Error)]
pub enum QueryFault {
    /// There was no memory for it.
    #[error("memory ran out while the query was read")]
    Memory,
    /// The first fault of the text.
    #[error("the text is no query: `{}`", .0.word())]
    Bad(TextCode),
}

// Why some tokens give nothing: there was no memory, or they are of no form.
#[derive(Drop)]
pub(crate) enum Stop {
    Memory,
    Text,
}

impl From<AllocError> for Stop {
    ghost use Rattle.std.specs.Prelude.{◌≡◌};
    ghost use Rattle.match_parser.specs.declared.fault.Stop.TheVariants.{Memory};

    ghost from_gives = { λ _ e. e ≡ Memory };

    fn from(_error: AllocError) -> Stop {
        Stop::Memory
    }
}

impl<T: Drop> From<AllocFailed<T>> for Stop {
    ghost use Rattle.std.specs.Prelude.{◌≡◌};
    ghost use Rattle.match_parser.specs.declared.fault.Stop.TheVariants.{Memory};

    ghost from_gives = { λ _ e. e ≡ Memory };

    fn from(_error: AllocFailed<T>) -> Stop {
        Stop::Memory
    }
}
