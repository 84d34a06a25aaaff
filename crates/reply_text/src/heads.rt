//! The first lines of replies, each formed on a page without memory.
ghost use Rattle.std.specs.Prelude.{◌≡◌};
ghost use Rattle.reply_text.specs.Texts.{bad_text, refused_text, wide_text, head_text, counts_head_text, tick_wide_text, tick_head_text};

use itpg_base::{Name, RuleCode, TextCode};
use row_printer::{Form, Page, Piece};

/// The page that says which rule a line breaks.
#[tactic(auto, unfolding(crate::specs::Texts::refused_text))]
pub(crate) fn refused(form: Form, number: u64, rule: RuleCode) -> Page
    ensures { result ≡ refused_text form number rule }
{
    match form {
        Form::Plain => Page::of(&[
            Piece::Text(b"line "),
            Piece::Number(number),
            Piece::Text(b" refused "),
            Piece::Text(rule.word().as_bytes()),
            Piece::Text(b"\n"),
        ]),
        Form::Json => Page::of(&[
            Piece::Text(b"{\"line\":"),
            Piece::Number(number),
            Piece::Text(b",\"refused\":\""),
            Piece::Text(rule.word().as_bytes()),
            Piece::Text(b"\"}\n"),
        ]),
    }
}

/// The page that says what is wrong with the text of a line.
#[tactic(auto, unfolding(crate::specs::Texts::bad_text))]
pub(crate) fn bad(form: Form, number: u64, code: TextCode) -> Page
    ensures { result ≡ bad_text form number code }
{
    match form {
        Form::Plain => Page::of(&[
            Piece::Text(b"line "),
            Piece::Number(number),
            Piece::Text(b" bad "),
            Piece::Text(code.word().as_bytes()),
            Piece::Text(b"\n"),
        ]),
        Form::Json => Page::of(&[
            Piece::Text(b"{\"line\":"),
            Piece::Number(number),
            Piece::Text(b",\"bad\":\""),
            Piece::Text(code.word().as_bytes()),
            Piece::Text(b"\"}\n"),
        ]),
    }
}

/// The page that says that a query is too wide.
#[tactic(auto, unfolding(crate::specs::Texts::wide_text))]
pub(crate) fn wide(form: Form, number: u64) -> Page
    ensures { result ≡ wide_text form number }
{
    match form {
        Form::Plain => Page::of(&[
            Piece::Text(b"line "),
            Piece::Number(number),
            Piece::Text(b" wide\n"),
        ]),
        Form::Json => Page::of(&[
            Piece::Text(b"{\"line\":"),
            Piece::Number(number),
            Piece::Text(b",\"wide\":true}\n"),
        ]),
    }
}

/// The page that says how many rows follow.
#[tactic(auto, unfolding(crate::specs::Texts::head_text))]
pub(crate) fn head(form: Form, number: u64, count: u64) -> Page
    ensures { result ≡ head_text form number count }
{
    match form {
        Form::Plain => Page::of(&[
            Piece::Text(b"line "),
            Piece::Number(number),
            Piece::Text(b" rows "),
            Piece::Number(count),
            Piece::Text(b"\n"),
        ]),
        Form::Json => Page::of(&[
            Piece::Text(b"{\"line\":"),
            Piece::Number(number),
            Piece::Text(b",\"rows\":"),
            Piece::Number(count),
            Piece::Text(b"}\n"),
        ]),
    }
}

/// The page that says how many counts follow.
#[tactic(auto, unfolding(crate::specs::Texts::counts_head_text))]
pub(crate) fn counts_head(form: Form, number: u64, count: u64) -> Page
    ensures { result ≡ counts_head_text form number count }
{
    match form {
        Form::Plain => Page::of(&[
            Piece::Text(b"line "),
            Piece::Number(number),
            Piece::Text(b" counts "),
            Piece::Number(count),
            Piece::Text(b"\n"),
        ]),
        Form::Json => Page::of(&[
            Piece::Text(b"{\"line\":"),
            Piece::Number(number),
            Piece::Text(b",\"counts\":"),
            Piece::Number(count),
            Piece::Text(b"}\n"),
        ]),
    }
}

/// The page that says that a watch is too wide.
#[tactic(auto, unfolding(crate::specs::Texts::tick_wide_text))]
pub(crate) fn tick_wide(form: Form, name: &Name) -> Page
    ensures { result ≡ tick_wide_text form name.now }
{
    match form {
        Form::Plain => Page::of(&[
            Piece::Text(b"tick "),
            Piece::Text(name.bytes()),
            Piece::Text(b" wide\n"),
        ]),
        Form::Json => Page::of(&[
            Piece::Text(b"{\"tick\":\""),
            Piece::Text(name.bytes()),
            Piece::Text(b"\",\"wide\":true}\n"),
        ]),
    }
}

/// The page that says how many rows a watch gained and lost.
#[tactic(auto, unfolding(crate::specs::Texts::tick_head_text))]
pub(crate) fn tick_head(form: Form, name: &Name, gained: u64, lost: u64) -> Page
    ensures { result ≡ tick_head_text form name.now gained lost }
{
    match form {
        Form::Plain => Page::of(&[
            Piece::Text(b"tick "),
            Piece::Text(name.bytes()),
            Piece::Text(b" gained "),
            Piece::Number(gained),
            Piece::Text(b" lost "),
            Piece::Number(lost),
            Piece::Text(b"\n"),
        ]),
        Form::Json => Page::of(&[
            Piece::Text(b"{\"tick\":\""),
            Piece::Text(name.bytes()),
            Piece::Text(b"\",\"gained\":"),
            Piece::Number(gained),
            Piece::Text(b",\"lost\":"),
            Piece::Number(lost),
            Piece::Text(b"}\n"),
        ]),
    }
}
