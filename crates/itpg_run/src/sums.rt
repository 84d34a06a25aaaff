//! Sums modulo 2^64.
ghost use Rattle.std.specs.Prelude.{◌≡◌, ℤ, ◌+ℤ◌};
ghost use Rattle.relation_rows.specs.Answered.{answered};
ghost use Rattle.band_normal.specs.Bands.{end_at};
ghost use Rattle.itpg_run.specs.Sums.{answer_sum, band_value, pair_value, residue, times_value, total};

use band_normal::{Band, End};
use relation_rows::{Answer, OneRow, Row};

/// What the rows of an answer stand for, added up.
pub(crate) fn sum_of(answer: &Answer) -> u64
    ensures { result ≡ answer_sum (answered answer.now) }
{
    match answer {
        Answer::Pairs(relation) => pairs_sum(relation.rows()),
        Answer::Times(times) => times_sum(times.rows()),
    }
}

// The same of rows of two times.
fn pairs_sum(rows: &[Row]) -> u64
    ensures { result ≡ residue (total pair_value rows.now) }
{
    let mut sum = 0;
    for row in rows {
        sum = with_band(sum, &row.band);
    }
    sum
}

// The same of rows of one time.
fn times_sum(rows: &[OneRow]) -> u64
    ensures { result ≡ residue (total times_value rows.now) }
{
    let mut sum = 0;
    for row in rows {
        sum = with(with(sum, row.span.from()), row.span.to());
    }
    sum
}

// With the four moments of a band.
fn with_band(sum: u64, band: &Band) -> u64
    ensures { (t : ℤ) → sum ≡ residue t → result ≡ residue (t +ℤ band_value band.now) }
{
    let ends = with(with(sum, band.from), band.to);
    with_end(with_end(ends, band.low, band.from), band.high, band.to)
}

// With the moment at which an end stands at a departure.
fn with_end(sum: u64, end: End, departure: i64) -> u64
    ensures { (t : ℤ) → sum ≡ residue t → result ≡ residue (t +ℤ end_at end departure) }
{
    match end {
        End::Fixed(moment) => with(sum, moment),
        End::Moving(moments) => with(with(sum, departure), moments),
    }
}

// With a number.
fn with(sum: u64, number: i64) -> u64
    ensures { (t : ℤ) → sum ≡ residue t → result ≡ residue (t +ℤ number) }
{
    sum.wrapping_add(number.cast_unsigned())
}
