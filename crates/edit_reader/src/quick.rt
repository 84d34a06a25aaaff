//! Reading a line that asks for an edit, as nearly all lines of a script do.
//!
//! What `read_line` answers is large, and of such a line it says only that the room holds the edit.
ghost use Rattle.std.specs.Prelude.{◌≡◌, ◌≤◌, ℕ, List, Option, Result, Ok, IsTrue, length};
ghost use Rattle.itpg_base.specs.declared.text_code.TextCode.{TextCode};
ghost use Rattle.itpg_edit.specs.declared.edit.Edit.{Edit as PlainEdit};
ghost use Rattle.script_lex.specs.declared.token.TheConstants.{MAX_TOKENS};
ghost use Rattle.script_lex.specs.Lines.{Placed, AreTokens};
ghost use Rattle.edit_reader.specs.Readings.{Reading, Changes};
ghost use Rattle.edit_reader.specs.Lines.{LineOf};
ghost use Rattle.edit_reader.specs.Moments.{AsksOfMoments};
ghost use Rattle.edit_reader.specs.Steps.{Told};
ghost use Rattle.edit_reader.specs.Telling.{tokens_told, line_told};

use crate::command::Command;
use crate::faults::{check_tokens, without_end};
use crate::parts::Parts;
use crate::reading::{MAX_LINE, write_edit};
use itpg_edit::Edit;
use script_lex::MAX_TOKENS;

/// Reads a line that asks for an edit into `room`, and says whether it does. Of any other line, and of one with a fault, it
/// says false; then the room holds some edit of no meaning, and `read_line` says what the line is.
///
/// ```text
///     live a 0 20       true, Live { id: a, from: 0, to: 20 }
///     live a 0 - 9      false: the line has a fault
///     ask (x:Person)    false: the line asks for no edit
/// ```
#[inline(never)]
pub fn read_edit(line: &[u8], room: &mut Edit) -> bool
    ensures edit { IsTrue result → LineOf line.now (Ok (Changes room.new)) }
    ensures only { IsTrue result → (other : Result Reading TextCode) → LineOf line.now other → other ≡ Ok (Changes room.new) }
    ensures moments { IsTrue result → AsksOfMoments (Changes room.new) }
    ensures others { (edit : PlainEdit) → LineOf line.now (Ok (Changes edit)) → IsTrue result }
{
    let line = without_end(line);
    if line.len() > MAX_LINE {
        return false;
    }
    read_form(line, room)
}

// Whether the line asks for an edit, which is then written into the room.
#[inline(always)]
fn read_form(line: &[u8], room: &mut Edit) -> bool
    ensures edit { IsTrue result → (tokens : List Placed) (end : Option TextCode) → AreTokens line.now 0 tokens end →
        Ok (Changes room.new) ≡ line_told line.now tokens end }
    ensures others { (tokens : List Placed) (end : Option TextCode) → AreTokens line.now 0 tokens end →
        (edit : PlainEdit) → Ok (Changes edit) ≡ line_told line.now tokens end → IsTrue result }
{
    let Ok((word, parts)) = Parts::new(line).word() else {
        return false;
    };
    let Some(command) = Command::of(word) else {
        return false;
    };
    if !command.is_edit() || !are_few(line) {
        return false;
    }
    write_edit(command, parts, room).is_ok()
}

// Whether the line has few tokens, and none that is bad if it has many bytes. Few bytes have few tokens.
#[inline(always)]
fn are_few(line: &[u8]) -> bool
    ensures few { IsTrue result → (tokens : List Placed) (end : Option TextCode) → AreTokens line.now 0 tokens end → length tokens ≤ MAX_TOKENS }
    ensures others { (tokens : List Placed) (end : Option TextCode) → AreTokens line.now 0 tokens end →
        (go_on : Told) (reading : Reading) → Ok reading ≡ tokens_told end (length tokens) go_on → IsTrue result }
{
    line.len() <= MAX_TOKENS || check_tokens(line).is_ok()
}
