//! The lines of a summary.
ghost use Rattle.std.specs.Prelude.{◌≡◌, ℕ};
ghost use Rattle.itpg_session.specs.Replies.{reply_of};
ghost use Rattle.itpg_run.specs.Summary.{rows_text, told_of, wide_text};

use crate::sums::sum_of;
use itpg_session::Asked;
use row_printer::{Page, Piece};

/// The page of what is told of a question.
pub(crate) fn told(question: u64, reply: &Asked) -> Page
    ensures { result ≡ (told_of question (reply_of reply.now)).text }
{
    match reply {
        Asked::Rows(answer) => rows(question, answer.rows(), sum_of(answer)),
        Asked::Wide => wide(question),
        Asked::Bad(_) | Asked::Refused(_) => Page::new(),
    }
}

/// Whether a reply is that the question is too wide.
pub(crate) fn is_wide(reply: &Asked) -> bool
    ensures { (k : ℕ) → result ≡ (told_of k (reply_of reply.now)).wide }
{
    matches!(reply, Asked::Wide)
}

// The page of `ask K rows R sum S`.
#[tactic(auto, unfolding(crate::specs::Summary::rows_text))]
fn rows(question: u64, count: u64, sum: u64) -> Page
    ensures { result ≡ rows_text question count sum }
{
    Page::of(&[
        Piece::Text(b"ask "),
        Piece::Number(question),
        Piece::Text(b" rows "),
        Piece::Number(count),
        Piece::Text(b" sum "),
        Piece::Number(sum),
        Piece::Text(b"\n"),
    ])
}

// The page of `ask K wide`.
#[tactic(auto, unfolding(crate::specs::Summary::wide_text))]
fn wide(question: u64) -> Page
    ensures { result ≡ wide_text question }
{
    Page::of(&[
        Piece::Text(b"ask "),
        Piece::Number(question),
        Piece::Text(b" wide\n"),
    ])
}
