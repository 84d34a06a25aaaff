//! How a row goes on, or stops, where a strip continues it.
//!
//! A strip is a band whose arrivals are one run at each of its departures. In contracts `held` is the
//! list of all bands: its pairs are the relation whose runs are meant.

ghost use Rattle.std.specs.Prelude.{◌≡◌, ◌↔◌, ◌⊎◌, ℤ, pos, ◌+ℤ◌, ◌-ℤ◌, ◌≤ℤ◌, ◌<ℤ◌, IsTrue, List, [], ◌∷◌, FitsSigned};
ghost use Rattle.std.specs.Int.{w64};
ghost use Rattle.std.specs.Option.{option_to_list};
ghost use Rattle.band_normal.specs.declared.band.Band.{Band};
ghost use Rattle.band_normal.specs.Bands.{end_at, IsWellFormed};
ghost use Rattle.band_normal.specs.Normal.{Steps};
ghost use Rattle.band_normal.specs.Strips.{Holds};

use crate::band::{Band, End};

/// What a row and a strip that continues it make.
#[derive(Clone, Copy)]
pub struct Joint {
    /// A row that can't go on.
    pub complete: Option<Band>,
    /// The row that reaches the strip's last departure.
    pub reaching: Band,
}

ghost use Rattle.band_normal.specs.Rows.{Continues, IsUnder, IsAlone, Agree, IsGrown, IsRest, CanFollow, IsJoint};

fn at_first(end: End, band: Band) -> i64
    requires { FitsSigned w64 (end_at end band.from) }
    ensures { result ≡ end_at end band.from }
{
    end.at(band.from)
}

fn at_last(end: End, band: Band) -> i64
    requires { FitsSigned w64 (end_at end band.to) }
    ensures { result ≡ end_at end band.to }
{
    end.at(band.to)
}

fn agree(x: End, y: End, band: Band) -> bool
    requires x_fits { FitsSigned w64 (end_at x band.from) }
    requires y_fits { FitsSigned w64 (end_at y band.from) }
    ensures { IsTrue result ↔ (end_at x band.from ≡ end_at y band.from) }
{
    at_first(x, band) == at_first(y, band)
}

fn steps(end: End, row: Band, next: End, strip: Band) -> bool
    requires fits { FitsSigned w64 (end_at end row.to +ℤ pos 1) }
    requires end_fits { FitsSigned w64 (end_at end row.to) }
    requires next_fits { FitsSigned w64 (end_at next strip.from) }
    ensures { IsTrue result ↔ Steps (end_at end row.to) (end_at next strip.from) }
{
    let last = at_last(end, row);
    let first = at_first(next, strip);
    first == last || first == last + 1
}

/// Whether the strip's first run continues the row's last one.
pub fn continues(row: Band, strip: Band) -> bool
    requires row_formed { IsWellFormed row }
    requires strip_formed { IsWellFormed strip }
    requires next { strip.from ≡ row.to +ℤ pos 1 }
    ensures { IsTrue result ↔ Continues row strip }
{
    steps(row.low, row, strip.low, strip) && steps(row.high, row, strip.high, strip)
}

fn is_below(end: End, row: Band, next: End, strip: Band) -> bool
    requires fits { FitsSigned w64 (end_at end row.to +ℤ pos 1) }
    requires end_fits { FitsSigned w64 (end_at end row.to) }
    requires next_fits { FitsSigned w64 (end_at next strip.from) }
    ensures { IsTrue result ↔ ((end_at end row.to +ℤ pos 1) <ℤ end_at next strip.from) }
{
    let last = at_last(end, row);
    let first = at_first(next, strip);
    last + 1 < first
}

/// Whether the row ends too low for the strip to continue it.
pub fn is_under(row: Band, strip: Band) -> bool
    requires row_formed { IsWellFormed row }
    requires strip_formed { IsWellFormed strip }
    ensures { IsTrue result ↔ IsUnder row strip }
{
    is_below(row.low, row, strip.low, strip)
}

// A row of one departure has fixed ends.
fn alone(strip: Band) -> Band
    requires { IsWellFormed strip }
    ensures { IsAlone strip result }
{
    if strip.from < strip.to {
        return strip;
    }
    Band {
        from: strip.from,
        to: strip.to,
        low: End::Fixed(at_first(strip.low, strip)),
        high: End::Fixed(at_first(strip.high, strip)),
    }
}

// How an end of the row goes on: as it moved, or, after one departure alone, to where the strip begins.
fn led(row: Band, end: End, strip: Band, next: End) -> End
    requires formed { IsWellFormed row }
    requires fits { FitsSigned w64 (end_at end row.to) }
    requires near { FitsSigned w64 (end_at end row.to -ℤ row.to) }
    requires next_fits { FitsSigned w64 (end_at next strip.from) }
    requires follows { strip.from ≡ row.to +ℤ pos 1 }
    requires steps { Steps (end_at end row.to) (end_at next strip.from) }
    ensures long { row.from <ℤ row.to → result ≡ end }
    ensures row { row.from ≡ row.to → end_at result row.to ≡ end_at end row.to }
    ensures strip { row.from ≡ row.to → end_at result strip.from ≡ end_at next strip.from }
{
    if row.from < row.to {
        return end;
    }
    let last = at_last(end, row);
    if at_first(next, strip) == last {
        End::Fixed(last)
    } else {
        End::Moving(last - row.to)
    }
}

// The row with the departure at which the strip begins, moving as it did.
fn grown(row: Band, strip: Band) -> Band
    requires row_formed { IsWellFormed row }
    requires strip_formed { IsWellFormed strip }
    requires continues { Continues row strip }
    ensures { IsGrown row strip result }
{
    Band {
        from: row.from,
        to: strip.from,
        low: led(row, row.low, strip, strip.low),
        high: led(row, row.high, strip, strip.high),
    }
}

pub fn have_same_ends(x: Band, y: Band) -> bool
    ensures { IsTrue result ↔ (x.low ≡ y.low) × (x.high ≡ y.high) }
{
    x.low == y.low && x.high == y.high
}

// Whether the row, made longer, has the strip's first run.
fn meets(longer: Band, strip: Band) -> bool
    requires low_fits { FitsSigned w64 (end_at longer.low strip.from) }
    requires high_fits { FitsSigned w64 (end_at longer.high strip.from) }
    requires strip_formed { IsWellFormed strip }
    ensures { IsTrue result ↔ Agree longer strip }
{
    agree(longer.low, strip.low, strip) && agree(longer.high, strip.high, strip)
}

// Whether the strip moves as the row does, where both have its first run.
fn moves_alike(longer: Band, strip: Band) -> bool
    ensures { IsTrue result ↔ (strip.from ≡ strip.to) ⊎ ((longer.low ≡ strip.low) × (longer.high ≡ strip.high)) }
{
    strip.from == strip.to || have_same_ends(longer, strip)
}

// The row goes on as far as the strip moves as it does. Where it can't, a new row begins.
fn prolonged(row: Band, strip: Band) -> Joint
    ghost held: { List Band }
    requires { CanFollow (Holds held) (row ∷ []) strip }
    ensures { IsJoint (Holds held) (row ∷ []) strip (option_to_list result.complete) result.reaching }
{
    let mut longer = grown(row, strip);
    if !meets(longer, strip) {
        return Joint {
            complete: Some(row),
            reaching: alone(strip),
        };
    }
    if moves_alike(longer, strip) {
        longer.to = strip.to;
        return Joint {
            complete: None,
            reaching: longer,
        };
    }
    let mut rest = strip;
    rest.from = strip.from + 1;
    Joint {
        complete: Some(longer),
        reaching: alone(rest),
    }
}

/// The strip after the row that it continues, if it continues one.
pub fn join_strip(row: Option<Band>, strip: Band) -> Joint
    ghost held: { List Band }
    requires { CanFollow (Holds held) (option_to_list row) strip }
    ensures { IsJoint (Holds held) (option_to_list row) strip (option_to_list result.complete) result.reaching }
{
    match row {
        None => Joint {
            complete: None,
            reaching: alone(strip),
        },
        Some(row) => prolonged(row, strip),
    }
}
