//! Two lists without the rows that stand in both.

ghost use Rattle.std.specs.Prelude.{◌≡◌, ◌↔◌, ℤ, IsTrue, IfOk};
ghost use Rattle.itpg_base.specs.Lists.{Ordered};
ghost use Rattle.band_normal.specs.Strips.{Holds};
ghost use Rattle.band_normal.specs.Rows.{AreApart};
ghost use Rattle.band_normal.specs.Strike.{OnlyFirst};

use crate::band::Band;
use crate::joints::have_same_ends;
use crate::ordering::first_low;
use std::alloc::{AllocError, Global};

fn is_same(row: Band, other: Band) -> bool
    ensures { IsTrue result ↔ (row ≡ other) }
{
    if row.from != other.from {
        return false;
    }
    if row.to != other.to {
        return false;
    }
    have_same_ends(row, other)
}

/// The two lists without the rows that stand in both. What the first has and the second hasn't stays the same.
///
/// Both are passed once where they stand by first departure and low end.
pub fn struck(
    alloc: Global,
    first: &[Band],
    second: &[Band],
) -> Result<(Vec<Band>, Vec<Band>), AllocError>
    requires { Ordered AreApart first.now }
    ensures { IfOk result (λ p. (t : ℤ) → (u : ℤ) → OnlyFirst p.0.items p.1.items t u ↔ OnlyFirst first.now second.now t u) }
{
    let mut kept = Vec::new(alloc);
    let mut cuts = Vec::new(alloc);
    let mut left = first;
    let mut right = second;
    while let Some((row, rows)) = left.split_first() {
        let Some((other, others)) = right.split_first() else {
            break;
        };
        // Which of two unequal rows is passed first doesn't matter to the answer, but to what it strikes.
        let is_earlier = (row.from, first_low(row), row.to)
            < (other.from, first_low(other), other.to);
        if is_same(*row, *other) {
            left = rows;
            right = others;
        } else if is_earlier {
            kept.push(*row)?;
            left = rows;
        } else {
            cuts.push(*other)?;
            right = others;
        }
    }
    kept.extend_from_slice(left)?;
    cuts.extend_from_slice(right)?;
    Ok((kept, cuts))
}
