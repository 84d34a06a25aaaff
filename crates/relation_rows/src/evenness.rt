//! Rows that follow one another evenly, and when it pays to halve them.
//!
//! A repetition makes such rows: `(N/N)[0,n]` leads 0, 2, 4, .. moments on, and what leads n moments on or more is what leads fewer
//! on, n moments later.

ghost use Rattle.std.specs.Prelude.{◌<◌, ◌≤◌, length, IsTrue};

use crate::offsets::Offsets;
use crate::rows::Row;
use crate::search::is_of_key;
use crate::ways::MANY;
use band_normal::End;

// The ways of so many rows are listed.
const FEW: usize = 8;

// So many rows are a long run.
const LONG: usize = 64;

// Rows are parted if so great a part of them is in long runs.
const SHARE: usize = 4;

// Before many rows are gone through for long runs, so many places are tried, of which so many must be in a run.
const PLACES: usize = 64;

const FOUND: usize = 4;

// Rows that go on by themselves are halved on both sides if they have so many long runs at most, and all rows so many.
const FEW_RUNS: usize = 4;

const RUNS: usize = 16;

// Where no row leads to so great a part of all rows, these are of many objects.
const PART: usize = 8;

/// Of which of two lists, of which one goes on by the other, the long even runs are taken by halves: of the first if many of its rows are in
/// such runs, or else of the second if many of its are; of both where the rows go on by themselves in a few such runs.
#[derive(Clone, Copy)]
pub(crate) struct AreEven {
    pub(crate) first: bool,
    pub(crate) second: bool,
    /// Whether those of the second are too, but only behind the rest of the first.
    pub(crate) behind: bool,
}

impl AreEven {
    /// Whether the second list is parted.
    pub(crate) fn halves_second(self) -> bool {
        self.second || self.behind
    }

    /// Which is even where only the rest of the first list is taken.
    pub(crate) fn of_rest(self) -> AreEven {
        AreEven {
            first: false,
            second: self.halves_second(),
            behind: false,
        }
    }

    /// Which is even where only the rest of the second list is taken.
    pub(crate) fn by_first(self) -> AreEven {
        AreEven {
            first: self.first,
            second: false,
            behind: false,
        }
    }
}

// How much later the row arrives than it departs, where that is one and the same for all its pairs.
fn delay_of(row: &Row) -> Option<i64> {
    match (row.band.low, row.band.high) {
        (End::Moving(low), End::Moving(high)) if low == high => Some(low),
        _ => None,
    }
}

// Whether the third number follows the second as that follows the first.
fn is_even(one: i64, two: i64, three: i64) -> bool {
    two.saturating_sub(one) == three.saturating_sub(two)
}

// Whether the third row follows the second as that follows the first: from one source to one target, departing and arriving as much later.
fn goes_on(first: &Row, second: &Row, third: &Row) -> bool {
    let (Some(one), Some(two), Some(three)) = (delay_of(first), delay_of(second), delay_of(third))
    else {
        return false;
    };
    is_of_key(second, first.source, first.target)
        && is_of_key(third, first.source, first.target)
        && is_even(one, two, three)
        && is_even(first.band.from, second.band.from, third.band.from)
        && is_even(first.band.to, second.band.to, third.band.to)
}

/// How many of the rows, from the first on, follow one another evenly.
pub(crate) fn run_len(rows: &[Row]) -> usize
    requires { 0 < length rows.now }
    ensures some { 0 < result }
    ensures within { result ≤ length rows.now }
{
    for i in 2..rows.len() {
        if !goes_on(&rows[i - 2], &rows[i - 1], &rows[i]) {
            return i;
        }
    }
    rows.len()
}

/// Whether the run is taken by halves. It has no clause, since any answer is right.
pub(crate) fn is_long(run: &[Row]) -> bool {
    run.len() >= LONG
}

// Whether the first of the others departs from where the first row arrives.
fn leads_to(rows: &[Row], others: &[Row]) -> bool {
    let (Some(row), Some(other)) = (rows.first(), others.first()) else {
        return false;
    };
    row.target.0 == other.source.0
}

/// Whether the rows are the list to halve, if they are many. Where the others are even too, they are it while they are the longer list: a
/// half takes as long as the ways that are made, so two lists that shrink in turn take far less. Few rows, and those that lead nowhere,
/// aren't worth it. It has no clause, since any answer is right.
pub(crate) fn comes_first(rows: &[Row], others: &[Row], even: AreEven) -> bool {
    if !even.second {
        return even.first;
    }
    even.first && rows.len() >= others.len() && others.len() > FEW && leads_to(rows, others)
}

/// Whether the others are the list to halve, where the rows aren't. It has no clause, since any answer is right.
pub(crate) fn comes_second(rows: &[Row], others: &[Row], even: AreEven) -> bool {
    if !even.first {
        return even.second;
    }
    even.second && rows.len() > FEW && leads_to(rows, others)
}

/// Whether so many rows are halved: where they are even and many.
pub(crate) fn is_halved(rows: usize, are_even: bool) -> bool
    ensures { IsTrue result → 8 < rows }
{
    are_even && rows > FEW
}

// How many long runs there are, and how many rows in them.
fn long_runs(rows: &[Row]) -> (usize, usize) {
    let mut runs = 0usize;
    let mut count = 0usize;
    let mut left = rows;
    while !left.is_empty() {
        let (run, later) = left.split_at(run_len(left));
        left = later;
        if is_long(run) {
            runs = runs.saturating_add(1);
            count = count.saturating_add(run.len());
        }
    }
    (runs, count)
}

// Whether so many of the rows are enough for halves.
fn are_enough(count: usize, rows: &[Row]) -> bool {
    count > 0 && count >= rows.len() / SHARE
}

// Whether enough rows may be in long runs. A few places tell, since all rows are asked about for one list of first rows after the other.
fn may_be_in_runs(rows: &[Row]) -> bool {
    let step = rows.len() / PLACES;
    if step < LONG {
        return true;
    }
    let mut found = 0usize;
    let mut left = rows;
    for _ in 0..PLACES {
        if left.len() < step {
            break;
        }
        let (part, later) = left.split_at(step);
        left = later;
        if run_len(part) >= LONG / 2 {
            found = found.saturating_add(1);
        }
    }
    found >= FOUND
}

// Whether so many of the rows are in long runs that halves pay.
fn are_in_runs(rows: &[Row]) -> bool {
    if !may_be_in_runs(rows) {
        return false;
    }
    let (_, count) = long_runs(rows);
    are_enough(count, rows)
}

// Whether one of the rows leads to a great part of the second ones.
fn lead_to_many(rows: &[Row], second: &Offsets<'_>) -> bool {
    for row in rows {
        if second.from(row.target).len() >= second.rows().len() / PART {
            return true;
        }
    }
    false
}

// Whether the rows, which have so many long runs, go on by themselves, and these are so few that the ways by each two of them pay. What
// leads on from their source is these rows, and they are a great part of all second ones, which have few long runs too, since each of
// those is gone through.
fn are_squared(rows: &[Row], runs: usize, second: &Offsets<'_>) -> bool {
    let all = second.rows();
    let Some(row) = rows.first() else {
        return false;
    };
    if runs > FEW_RUNS || rows.len() < all.len() / PART || second.from(row.source) != rows {
        return false;
    }
    let (all_runs, _) = long_runs(all);
    all_runs <= RUNS
}

// Whether there may be so many ways that halves pay.
fn are_many(rows: usize, others: usize) -> bool {
    rows.saturating_mul(others) > MANY
}

/// Which of the lists has many rows in long even runs, where so many ways are to be listed that halves pay. It has no clause, since any
/// answer is right.
pub(crate) fn evenness(rows: &[Row], second: &Offsets<'_>) -> AreEven {
    let all = second.rows();
    if !are_many(rows.len(), all.len()) {
        return AreEven {
            first: false,
            second: false,
            behind: false,
        };
    }
    let (runs, count) = long_runs(rows);
    let first = are_enough(count, rows);
    if first && are_squared(rows, runs, second) {
        return AreEven {
            first: true,
            second: true,
            behind: false,
        };
    }
    let rest = if first {
        rows.len().saturating_sub(count)
    } else {
        rows.len()
    };
    let second = are_many(rest, all.len()) && lead_to_many(rows, second) && are_in_runs(all);
    AreEven {
        first,
        second: second && !first,
        behind: second && first,
    }
}
