//! The lines of follows: what stands behind their command words.
ghost use Rattle.std.specs.Prelude.{◌≡◌, slice_get, IfOk};
ghost use Rattle.edit_reader.specs.Readings.{told};
ghost use Rattle.edit_reader.specs.Forms.{lexemes, bytes_behind};
ghost use Rattle.edit_reader.specs.Steps.{follow_told, near_told, unfollow_told};
ghost use Rattle.edit_reader.specs.Answers.{Tells};
ghost use Rattle.edit_reader.specs.Taken.{OfRest};

use crate::line::Line;
use crate::parts::{Parts, name};
use itpg_base::TextCode;

// `NAME QUERY`
#[inline(never)]
pub(crate) fn follow(parts: Parts<'_>) -> Result<Line<'_>, TextCode>
    ensures { OfRest parts.entry.line.now parts.entry.at (λ tokens. told result
        ≡ follow_told (bytes_behind parts.entry.line.now (slice_get tokens 0)) (lexemes tokens)) }
{
    let (word, rest) = parts.word()?;
    Ok(Line::Follow(name(word)?, rest.text()))
}

// `NAME ID`
#[inline(never)]
pub(crate) fn near(parts: Parts<'_>) -> Result<Line<'_>, TextCode>
    ensures { Tells parts.entry.line.now parts.entry.at near_told result }
{
    let (follow, rest) = parts.word()?;
    let (id, rest) = rest.word()?;
    rest.end()?;
    Ok(Line::Near(name(follow)?, name(id)?))
}

// `NAME`
#[inline(never)]
pub(crate) fn unfollow(parts: Parts<'_>) -> Result<Line<'_>, TextCode>
    ensures { Tells parts.entry.line.now parts.entry.at unfollow_told result }
{
    Ok(Line::Unfollow(parts.only_name()?))
}
