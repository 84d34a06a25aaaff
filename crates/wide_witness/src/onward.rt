//! Where a step leads from the moments of a run.

ghost use Rattle.std.specs.Prelude.{◌↔◌, ℤ, IfSome};
ghost use Rattle.itpg_base.specs.Points.{Point};
ghost use Rattle.itpg_base.specs.Spans.{IsSpan, Within};
ghost use Rattle.zone_core.specs.Zone.{Holds, Meets};
ghost use Rattle.band_normal.specs.Bands.{IsWellFormed};
ghost use Rattle.wide_witness.specs.Steps.{HasPoint, LeadsFrom};

use band_normal::zone_of;
use interval_set::Span;
use relation_rows::{OneRow, Row};
use zone_compose::arrivals;
use zone_core::{Zone, tight};

// The zone's pairs that depart in the span.
fn departing_in(zone: &Zone, span: Span) -> Option<Zone>
    ensures { (t : ℤ) → (u : ℤ) → Holds result t u ↔ (Meets zone.now t u × Within t span) }
{
    let mut bounds = zone.bounds();
    bounds.a = bounds.a.max(span.from());
    bounds.b = bounds.b.min(span.to());
    if bounds.b < bounds.a {
        return None;
    }
    tight(bounds)
}

/// Where the row leads from a moment of the run.
pub(crate) fn led_by(row: &Row, run: &OneRow) -> Option<OneRow>
    requires row { IsWellFormed row.now.band }
    requires run { IsSpan run.now.span }
    ensures points { (y : Point) → HasPoint result y ↔ LeadsFrom row.now run.now y }
    ensures span { IfSome result (λ led. IsSpan led.span) }
{
    if row.source.0 != run.object.0 {
        return None;
    }
    let zone = departing_in(&zone_of(&row.band), run.span)?;
    let (first, last) = arrivals(&zone);
    Some(OneRow {
        object: row.target,
        span: Span::new(first, last).unwrap(),
    })
}
