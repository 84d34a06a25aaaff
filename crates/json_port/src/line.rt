//! What a JSON line asks for, and why one isn't read.
ghost use Rattle.std.specs.Prelude.{◌≡◌};
ghost use Rattle.json_port.specs.declared.line.JsonFault.TheVariants.{Bad as IsBad, Memory as OutOfMemory};

use itpg_base::TextCode;
use itpg_edit::Edit;
use std::alloc::AllocError;
use std::marker::Model;
use thiserror::Error;

/// The plain line that stands in an object whose `op` is `text`.
///
/// It may have any bytes that JSON can write, and any length that fits the line around it. A contract sees it as its bytes.
#[derive(Drop)]
pub struct JsonText {
    text: Vec<u8>,
}

impl Model for JsonText {
    ghost use Rattle.std.specs.Prelude.{ℕ, List};

    ghost Value = { List ℕ };

    ghost view = { λ t. t.text.items };
}

impl JsonText {
    ghost use Rattle.std.specs.Prelude.{◌≡◌};

    pub(crate) fn new(text: Vec<u8>) -> JsonText
        ensures { result ≡ text.items }
    {
        JsonText { text }
    }

    /// The bytes of the plain line. No memory is taken.
    pub fn bytes(&self) -> &[u8]
        ensures { result.now ≡ self.now }
    {
        &self.text
    }
}

/// What a JSON line asks for.
#[derive(Drop)]
pub enum JsonLine {
    /// Nothing: there are only blanks.
    Blank,
    /// A change of the graph.
    Edit(Edit),
    /// What this plain line asks for, by the rules of plain lines and with their faults.
    Text(JsonText),
}

/// Why a JSON line isn't read.
#[derive(Clone, Copy, Debug, PartialEq, Eq, Error)]
pub enum JsonFault {
    /// Memory ran out. Nothing is said of the line.
    #[error("memory ran out")]
    Memory,
    /// The first fault of the line.
    #[error("the line has the fault `{}`", .0.word())]
    Bad(TextCode),
}

impl From<AllocError> for JsonFault {
    ghost from_gives = { λ _ e. e ≡ OutOfMemory };

    fn from(_: AllocError) -> Self {
        JsonFault::Memory
    }
}

impl From<TextCode> for JsonFault {
    ghost from_gives = { λ code e. e ≡ IsBad code };

    fn from(code: TextCode) -> Self {
        JsonFault::Bad(code)
    }
}
