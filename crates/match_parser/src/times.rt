//! How many times: `*`, `[n,m]`, `[n,_]`, or nothing.
ghost use Rattle.std.specs.Prelude.{◌≡◌, ◌<◌, ◌≤◌, length, IfOk};
ghost use Rattle.itpg_base.specs.Spans.{IsMoment};
ghost use Rattle.match_parser.specs.Parsing.{moment_at, count_at, most_at, bounds_at, times_at};
ghost use Rattle.match_parser.specs.Gives.{lexemes, seen, Gives};

use crate::fault::Stop;
use crate::kept::{is_signed, keep_count, keep_value};
use crate::tokens::{expect, number, skip_mark};
use script_lex::{Mark, What};

// The number that stands first, and the tokens behind it.
pub(crate) fn moment<'a>(tokens: &'a [What<'a>]) -> Result<(i64, &'a [What<'a>]), Stop>
    ensures gives { Gives (seen (λ k. k)) result (moment_at (lexemes tokens.now)) }
    ensures moment { IfOk result (λ x. IsMoment x.0) }
    ensures shorter { IfOk result (λ x. length (lexemes x.1.now) < length (lexemes tokens.now)) }
{
    let (bytes, rest) = number(tokens)?;
    Ok((keep_value(bytes), rest))
}

// The number without `-` that stands first, and the tokens behind it.
fn count<'a>(tokens: &'a [What<'a>]) -> Result<(u64, &'a [What<'a>]), Stop>
    ensures gives { Gives (seen (λ n. n)) result (count_at (lexemes tokens.now)) }
    ensures shorter { IfOk result (λ x. length (lexemes x.1.now) < length (lexemes tokens.now)) }
{
    let (bytes, rest) = number(tokens)?;
    if is_signed(bytes) {
        Err(Stop::Text)
    } else {
        Ok((keep_count(bytes), rest))
    }
}

// The most, or `None` for `_`, and the tokens behind it.
#[tactic(auto, unfolding(crate::specs::Parsing::most_at))]
fn most<'a>(tokens: &'a [What<'a>]) -> Result<(Option<u64>, &'a [What<'a>]), Stop>
    ensures gives { Gives (seen (λ m. m)) result (most_at (lexemes tokens.now)) }
    ensures shorter { IfOk result (λ x. length (lexemes x.1.now) < length (lexemes tokens.now)) }
{
    if let Some(rest) = skip_mark(tokens, Mark::Under) {
        return Ok((None, rest));
    }
    let (most, rest) = count(tokens)?;
    Ok((Some(most), rest))
}

// The least and the most, up to and with `]`; the `[` stands before them.
#[tactic(auto, unfolding(crate::specs::Parsing::bounds_at))]
fn bounds<'a>(tokens: &'a [What<'a>]) -> Result<((u64, Option<u64>), &'a [What<'a>]), Stop>
    ensures gives { Gives (seen (λ b. b)) result (bounds_at (lexemes tokens.now)) }
    ensures shorter { IfOk result (λ x. length (lexemes x.1.now) < length (lexemes tokens.now)) }
{
    let (least, rest) = count(tokens)?;
    let rest = expect(rest, Mark::Comma)?;
    let (most, rest) = most(rest)?;
    let rest = expect(rest, Mark::BrackR)?;
    Ok(((least, most), rest))
}

// The least and the most number of times, where these stand first, and the tokens behind them.
#[tactic(auto, unfolding(crate::specs::Parsing::times_at))]
pub(crate) fn times<'a>(
    tokens: &'a [What<'a>],
) -> Result<(Option<(u64, Option<u64>)>, &'a [What<'a>]), Stop>
    ensures gives { Gives (seen (λ t. t)) result (times_at (lexemes tokens.now)) }
    ensures shorter { IfOk result (λ x. length (lexemes x.1.now) ≤ length (lexemes tokens.now)) }
{
    if let Some(rest) = skip_mark(tokens, Mark::Star) {
        return Ok((Some((0, None)), rest));
    }
    match skip_mark(tokens, Mark::BrackL) {
        Some(rest) => {
            let (times, rest) = bounds(rest)?;
            Ok((Some(times), rest))
        }
        None => Ok((None, tokens)),
    }
}
