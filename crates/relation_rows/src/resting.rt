//! Objects at moments as a relation: each of these points leads to itself.

ghost use Rattle.std.specs.Prelude.{◌≡◌, map, IfOk};
ghost use Rattle.itpg_base.specs.Spans.{IsSpan};
ghost use Rattle.relation_rows.specs.Resting.{resting, resting_band};

use crate::rows::Row;
use crate::times::OneRow;
use band_normal::{Band, End};
use interval_set::Span;
use std::alloc::{AllocError, Global};

// The band that arrives when it departs. At one departure its ends are fixed.
fn band_at_rest(span: Span) -> Band
    ensures { result ≡ resting_band span }
{
    let from = span.from();
    let to = span.to();
    if from < to {
        return Band {
            from,
            to,
            low: End::Moving(0),
            high: End::Moving(0),
        };
    }
    Band {
        from,
        to,
        low: End::Fixed(from),
        high: End::Fixed(from),
    }
}

/// A row from each object to itself for each of the spans.
pub(crate) fn rows_at_rest(alloc: Global, times: &[OneRow]) -> Result<Vec<Row>, AllocError>
    ensures { IfOk result (λ rows. rows.items ≡ map resting times.now) }
{
    let mut rows = Vec::with_capacity(alloc, times.len())?;
    for time in times {
        rows.push(Row {
            source: time.object,
            target: time.object,
            band: band_at_rest(time.span),
        })?;
    }
    Ok(rows)
}
