//! The lines of pinned sessions: what stands behind their command words.
ghost use Rattle.std.specs.Prelude.{◌≡◌, slice_get, IfOk};
ghost use Rattle.edit_reader.specs.Readings.{told};
ghost use Rattle.edit_reader.specs.Forms.{lexemes, bytes_behind};
ghost use Rattle.edit_reader.specs.Steps.{open_told, close_told, in_told};
ghost use Rattle.edit_reader.specs.Answers.{Tells};
ghost use Rattle.edit_reader.specs.Taken.{OfRest};

use crate::line::Line;
use crate::parts::{Parts, name};
use itpg_base::TextCode;

// `NAME`
#[inline(never)]
pub(crate) fn open(parts: Parts<'_>) -> Result<Line<'_>, TextCode>
    ensures { Tells parts.entry.line.now parts.entry.at open_told result }
{
    Ok(Line::OpenPin(parts.only_name()?))
}

// `NAME`
#[inline(never)]
pub(crate) fn close(parts: Parts<'_>) -> Result<Line<'_>, TextCode>
    ensures { Tells parts.entry.line.now parts.entry.at close_told result }
{
    Ok(Line::ClosePin(parts.only_name()?))
}

// `NAME ask QUERY`
#[inline(never)]
pub(crate) fn ask_in(parts: Parts<'_>) -> Result<Line<'_>, TextCode>
    ensures { OfRest parts.entry.line.now parts.entry.at (λ tokens. told result
        ≡ in_told (bytes_behind parts.entry.line.now (slice_get tokens 1)) (lexemes tokens)) }
{
    let (word, rest) = parts.word()?;
    let (command, rest) = rest.word()?;
    if command != b"ask".as_slice() {
        return Err(TextCode::Text);
    }
    Ok(Line::InPin(name(word)?, rest.text()))
}
