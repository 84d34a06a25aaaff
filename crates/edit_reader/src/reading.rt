//! Reading a line.
//!
//! An edit is larger than a result should be: it is written into a place of the caller's, and a form of an edit says only whether
//! the line has a fault. What leads to the forms is inlined, and the forms are not.
ghost use Rattle.std.specs.Prelude.{◌≡◌, ℕ, List, Option, Result, Err, IfOk, IsTrue, length, drop, slice_get};
ghost use Rattle.itpg_base.specs.declared.text_code.TextCode.{TextCode};
ghost use Rattle.edit_reader.specs.Readings.{Reading, reading_of, told};
ghost use Rattle.edit_reader.specs.Forms.{form, lexemes, before_query, bytes_behind};
ghost use Rattle.edit_reader.specs.Commands.{is_edit};
ghost use Rattle.script_lex.specs.Lines.{Placed, AreTokens};
ghost use Rattle.edit_reader.specs.Lines.{LineOf};
ghost use Rattle.edit_reader.specs.Moments.{AsksOfMoments};
ghost use Rattle.edit_reader.specs.Steps.{show_told, unwatch_told, tick_told, watch_told};
ghost use Rattle.edit_reader.specs.Telling.{form_told, tokens_told, line_told};
ghost use Rattle.edit_reader.specs.Answers.{Tells, written};
ghost use Rattle.edit_reader.specs.Taken.{OfRest, IsWhole};

use crate::command::Command;
use crate::edits::{begin, clear, edge, extend, gone, live, node, put, remove};
use crate::faults::{check_tokens, is_silent, without_end};
use crate::follows::{follow, near, unfollow};
use crate::line::Line;
use crate::parts::{Parts, name};
use crate::pins::{ask_in, close, open};
use itpg_base::TextCode;
use itpg_edit::Edit;
use script_lex::MAX_TOKENS;

/// How many bytes a line may have, without one last CR.
pub const MAX_LINE: usize = 65_536;

/// What a script line asks for. The line is handed in without its LF; where it ends with a CR, this call drops that one
/// byte. An edit is written over what stands in `room`, and lent from there; one room serves for line after line.
///
/// ```text
///     live a 0 20            Edit: Live { id: a, from: 0, to: 20 }
///     set a p 'in use' 0 9   Edit: Put { id: a, prop: p, value: in use, from: 0, to: 9 }
///     watch w (x:Person)     Watch w, " (x:Person)"
///     in s ask (x:Person)    InPin s, " (x:Person)"
///     near f a               Near f, a
///     live a 0 - 9           fault Byte: the `-` stands directly before no digit
///     show                   fault Text
/// ```
///
/// # Errors
///
/// The first of these that the line has, in this order:
///
/// - `Long`: more than `MAX_LINE` bytes, without the CR.
/// - `Byte`: a byte with which no token begins, or that may not stand in a quoted text, wherever it stands.
/// - `Tokens`: more than `MAX_TOKENS` tokens.
/// - `Text`: a quoted text that isn't closed, or tokens that are none of the forms. A label of a `node` or an `edge` is one
///   to `MAX_LABELS` words parted by commas, of which equal ones count once.
/// - `Number`: a number of the form further from zero than `MAX_NUMBER`.
/// - `Name`: a word or a quoted text of the form longer than `MAX_NAME` bytes.
///
/// A blank line or a comment has no fault but `Long`, and the bytes of a query text are looked at only as tokens: its
/// numbers and words may have any size.
#[inline(never)]
pub fn read_line<'a>(line: &'a [u8], room: &'a mut Edit) -> Result<Line<'a>, TextCode>
    ensures line { LineOf line.now (told result) }
    ensures only { (other : Result Reading TextCode) → LineOf line.now other → other ≡ told result }
    ensures moments { IfOk result (λ line. AsksOfMoments (reading_of line)) }
{
    let line = without_end(line);
    if line.len() > MAX_LINE {
        return Err(TextCode::Long);
    }
    if is_silent(line) {
        return Ok(Line::Blank);
    }
    read_form(line, room)
}

// What a line that is neither blank nor a comment asks for, or its first fault.
//
// Where the form of an edit is there, all tokens have been read, and each is good.
#[inline(always)]
fn read_form<'a>(line: &'a [u8], room: &'a mut Edit) -> Result<Line<'a>, TextCode>
    ensures { (tokens : List Placed) (end : Option TextCode) → AreTokens line.now 0 tokens end →
        told result ≡ line_told line.now tokens end }
{
    let Ok((word, parts)) = Parts::new(line).word() else {
        return Err(no_form(line));
    };
    let Some(command) = Command::of(word) else {
        return Err(no_form(line));
    };
    if command.is_edit() && line.len() <= MAX_TOKENS {
        if let Err(code) = write_edit(command, parts, room) {
            return Err(first_fault(line, code));
        }
        return Ok(Line::Edit(room));
    }
    check_tokens(line)?;
    read_command(command, parts, room)
}

// The first fault of a line with this fault of its form.
fn first_fault(line: &[u8], code: TextCode) -> TextCode
    ensures { (tokens : List Placed) (end : Option TextCode) → AreTokens line.now 0 tokens end →
        Err result ≡ tokens_told end (length tokens) (Err code) }
{
    match check_tokens(line) {
        Ok(()) => code,
        Err(first) => first,
    }
}

// The first fault of a line whose tokens are no form.
#[inline(never)]
fn no_form(line: &[u8]) -> TextCode
    ensures { (tokens : List Placed) (end : Option TextCode) → AreTokens line.now 0 tokens end →
        Err result ≡ tokens_told end (length tokens) (Err TextCode.Text) }
{
    first_fault(line, TextCode::Text)
}

// What a line with this command word asks for, where what stands behind the word is a form.
#[inline(never)]
fn read_command<'a>(
    command: Command,
    parts: Parts<'a>,
    room: &'a mut Edit,
) -> Result<Line<'a>, TextCode>
    ensures { OfRest parts.entry.line.now parts.entry.at (λ tokens. (text : ℕ → List ℕ) →
        text 0 ≡ drop parts.entry.at parts.entry.line.now →
        text 1 ≡ bytes_behind parts.entry.line.now (slice_get tokens 0) →
        text 2 ≡ bytes_behind parts.entry.line.now (slice_get tokens 1) →
        told result ≡ form_told (form text command (lexemes tokens))
        (before_query command (lexemes tokens))) }
{
    if command.is_edit() {
        write_edit(command, parts, room)?;
        return Ok(Line::Edit(room));
    }
    match command {
        Command::Ask => Ok(Line::Ask(parts.text())),
        Command::First => Ok(Line::First(parts.text())),
        Command::Last => Ok(Line::Last(parts.text())),
        Command::Count => Ok(Line::Count(parts.text())),
        Command::Watch => watch(parts),
        Command::Show => show(parts),
        Command::Unwatch => unwatch(parts),
        Command::Tick => tick(parts),
        Command::Open => open(parts),
        Command::Close => close(parts),
        Command::In => ask_in(parts),
        Command::Follow => follow(parts),
        Command::Near => near(parts),
        Command::Unfollow => unfollow(parts),
        _ => unreachable!(),
    }
}

// Writes the edit into the room that a line with this command word asks for, where what stands behind the word is a form.
#[inline(always)]
pub(crate) fn write_edit(
    command: Command,
    parts: Parts<'_>,
    room: &mut Edit,
) -> Result<(), TextCode>
    requires { IsTrue (is_edit command) }
    ensures told { OfRest parts.entry.line.now parts.entry.at (λ tokens. (text : ℕ → List ℕ) →
        written result room.new ≡ form_told (form text command (lexemes tokens))
        (before_query command (lexemes tokens))) }
    ensures whole { IfOk result (λ _. IsWhole parts.entry.line.now) }
{
    match command {
        Command::Graph => begin(parts, room),
        Command::Extend => extend(parts, room),
        Command::Node => node(parts, room),
        Command::Edge => edge(parts, room),
        Command::Live => live(parts, room),
        Command::Gone => gone(parts, room),
        Command::Set => put(parts, room),
        Command::Unset => clear(parts, room),
        Command::Drop => remove(parts, room),
        _ => unreachable!(),
    }
}

// `NAME QUERY`
#[inline(never)]
fn watch(parts: Parts<'_>) -> Result<Line<'_>, TextCode>
    ensures { OfRest parts.entry.line.now parts.entry.at (λ tokens. told result
        ≡ watch_told (bytes_behind parts.entry.line.now (slice_get tokens 0)) (lexemes tokens)) }
{
    let (word, rest) = parts.word()?;
    Ok(Line::Watch(name(word)?, rest.text()))
}

// `NAME`
#[inline(never)]
fn show(parts: Parts<'_>) -> Result<Line<'_>, TextCode>
    ensures { Tells parts.entry.line.now parts.entry.at show_told result }
{
    Ok(Line::Show(parts.only_name()?))
}

// `NAME`
#[inline(never)]
fn unwatch(parts: Parts<'_>) -> Result<Line<'_>, TextCode>
    ensures { Tells parts.entry.line.now parts.entry.at unwatch_told result }
{
    Ok(Line::Unwatch(parts.only_name()?))
}

// nothing
#[inline(never)]
fn tick(parts: Parts<'_>) -> Result<Line<'_>, TextCode>
    ensures { Tells parts.entry.line.now parts.entry.at tick_told result }
{
    parts.end()?;
    Ok(Line::Tick)
}
