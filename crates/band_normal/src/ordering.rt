//! Rows in the order of a normal list.

ghost use Rattle.std.specs.Prelude.{◌≡◌, ◌++◌, ℤ, List, IfOk};
ghost use Rattle.band_normal.specs.declared.band.Band.{Band};
ghost use Rattle.band_normal.specs.Normal.{Normal};
ghost use Rattle.band_normal.specs.Strips.{Holds};
ghost use Rattle.band_normal.specs.Rows.{CanOrder, first_low_of};

use crate::band::{Band, End};
use std::alloc::AllocError;

/// The low end at the first departure, which is in range in each row.
pub fn first_low(row: &Band) -> i64
    ensures { result ≡ first_low_of row.now }
{
    match row.low {
        End::Fixed(n) => n,
        End::Moving(k) => row.from.saturating_add(k),
    }
}

/// All rows, by their first departure, then by their low end there.
pub fn in_order(mut rows: Vec<Band>) -> Result<Vec<Band>, AllocError>
    ghost held: { List Band }
    requires { CanOrder (Holds held) rows.items }
    ensures { IfOk result (λ v. Normal (Holds held) v.items) }
{
    if rows.is_sorted_by_key(|row| (row.from, first_low(row))) {
        return Ok(rows);
    }
    rows.sort_by_key(|row| (row.from, first_low(row)))?;
    Ok(rows)
}
