//! The lines of a file of lists.

ghost use Rattle.std.specs.Prelude.{IfOk};
ghost use Rattle.zone_core.specs.Zone.{Within};

use anyhow::{Context, Result, bail, ensure};
use band_normal::{Band, End};
use std::str::SplitWhitespace;
use zone_core::{Bounds, Zone, tight};

/// One line of a list.
pub enum Line {
    Zone(Zone),
    /// A zone that holds no pair.
    Nothing,
    Band(Band),
    End,
}

// The numbers of the file are small.
fn number(words: &mut SplitWhitespace<'_>) -> Result<i64>
    ensures { IfOk result (λ n. Within 1000 n) }
{
    let n = words.next().context("a number is missing")?.parse::<i64>()?;
    ensure!(-1000 <= n && n <= 1000, "{n} is too far from zero");
    Ok(n)
}

fn end(words: &mut SplitWhitespace<'_>) -> Result<End> {
    match words.next().context("an end is missing")? {
        "fixed" => Ok(End::Fixed(number(words)?)),
        "moving" => Ok(End::Moving(number(words)?)),
        kind => bail!("{kind:?} is no kind of end"),
    }
}

fn zone_line(words: &mut SplitWhitespace<'_>) -> Result<Line> {
    let a = number(words)?;
    let b = number(words)?;
    let c = number(words)?;
    let d = number(words)?;
    let e = number(words)?;
    let f = number(words)?;
    match tight(Bounds { a, b, c, d, e, f }) {
        Some(zone) => Ok(Line::Zone(zone)),
        None => Ok(Line::Nothing),
    }
}

fn band_line(words: &mut SplitWhitespace<'_>) -> Result<Line> {
    let from = number(words)?;
    let to = number(words)?;
    let low = end(words)?;
    let high = end(words)?;
    Ok(Line::Band(Band {
        from,
        to,
        low,
        high,
    }))
}

/// Reads a line.
pub fn read_line(line: &str) -> Result<Line> {
    let mut words = line.split_whitespace();
    match words.next() {
        Some("zone") => zone_line(&mut words),
        Some("band") => band_line(&mut words),
        Some("end") => Ok(Line::End),
        _ => bail!("{line:?} is no line of a list"),
    }
}
