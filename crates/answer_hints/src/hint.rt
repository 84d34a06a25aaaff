//! Hints that need answers, and their texts.
ghost use Rattle.std.specs.Prelude.{◌≡◌, ◌++◌, IfOk, OnOk};
ghost use Rattle.std.specs.Fmt.{decimal};
ghost use Rattle.answer_hints.specs.Texts.{text_of_answer_hint, needs_more_text};

use itoa::Buffer;
use std::alloc::{AllocError, Global};

/// What the answer of a question on a graph tells of it.
#[derive(Clone, Copy, PartialEq, Eq, Debug, Drop)]
pub enum AnswerHint {
    /// It has no rows, but it would have some if its steps along edges didn't ask that what they come to exists.
    AtAnyMoment,
    /// It isn't wide with a limit of so many rows, and it is with each lower one.
    NeedsMore(u64),
}

impl AnswerHint {
    /// One line of plain English without a line's end: what is so, and what to write instead.
    ///
    /// `Err` comes only if memory runs out.
    pub fn text(&self, alloc: Global) -> Result<Vec<u8>, AllocError>
        ensures { IfOk result (λ text. text.items ≡ text_of_answer_hint self.now) }
    {
        match self {
            AnswerHint::AtAnyMoment => Vec::from_slice(alloc, AT_ANY_MOMENT),
            AnswerHint::NeedsMore(rows) => needs_more(alloc, *rows),
        }
    }
}

const AT_ANY_MOMENT: &[u8] =
    b"the path leads nowhere only because FWD and BWD ask that what they come to exists at the moment; F and B go along an edge at any moment; write F for FWD and B for BWD";

fn needs_more(alloc: Global, rows: u64) -> Result<Vec<u8>, AllocError>
    ensures { IfOk result (λ text. text.items ≡ needs_more_text rows) }
{
    let mut text = Vec::from_slice(alloc, b"some step to the answer has ")?;
    push_number(&mut text, rows)?;
    text.extend_from_slice(b" rows; write --max-rows ")?;
    push_number(&mut text, rows)?;
    Ok(text)
}

/// Puts the number behind the text, in decimal.
pub(crate) fn push_number(text: &mut Vec<u8>, number: u64) -> Result<(), AllocError>
    ensures { OnOk result (text.new.items ≡ text.old.items ++ decimal number) }
{
    let mut digits = Buffer::new();
    text.extend_from_slice(digits.format(number).as_bytes())
}
