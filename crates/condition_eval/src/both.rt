//! What two lists of one-time rows both have, in one walk along both.

ghost use Rattle.std.specs.Prelude.{◌≡◌, ◌↔◌, IsTrue, IfOk, OnOk};
ghost use Rattle.relation_rows.specs.Times.{TimesHold, IsOneTime, AreTimes};
ghost use Rattle.condition_eval.specs.Walking.{EndsUpTo, HasShared};

use interval_set::Span;
use relation_rows::OneRow;
use std::alloc::{AllocError, Global};

/// The objects at the moments that both lists have.
///
/// Of the first rows of both what they share is added, and the one that ends first is passed. Between two rows of a list a moment is
/// missing, and so it is between what is added.
pub(crate) fn both(
    alloc: Global,
    own: &[OneRow],
    other: &[OneRow],
) -> Result<Vec<OneRow>, AllocError>
    requires own { IsOneTime own.now }
    requires other { IsOneTime other.now }
    ensures { IfOk result (λ rows. AreTimes (λ o t. TimesHold own.now o t × TimesHold other.now o t) rows.items) }
{
    let mut rows = Vec::with_capacity(alloc, own.len().min(other.len()))?;
    let mut left = own;
    let mut right = other;
    while let Some((row, behind)) = left.split_first() {
        let Some((partner, others)) = right.split_first() else {
            return Ok(rows);
        };
        push_shared(&mut rows, row, partner)?;
        if ends_up_to(row, partner) {
            left = behind;
        } else {
            right = others;
        }
    }
    Ok(rows)
}

fn ends_up_to(row: &OneRow, partner: &OneRow) -> bool
    ensures { IsTrue result ↔ EndsUpTo row.now partner.now }
{
    if row.object.0 != partner.object.0 {
        return row.object.0 < partner.object.0;
    }
    row.span.to() <= partner.span.to()
}

// Adds what both rows have, if there is anything.
fn push_shared(rows: &mut Vec<OneRow>, row: &OneRow, partner: &OneRow) -> Result<(), AllocError>
    ensures { OnOk result (HasShared row.now partner.now rows.old.items rows.new.items) }
{
    if row.object.0 != partner.object.0 {
        return Ok(());
    }
    let from = row.span.from().max(partner.span.from());
    let to = row.span.to().min(partner.span.to());
    let Some(span) = Span::new(from, to) else {
        return Ok(());
    };
    rows.push(OneRow {
        object: row.object,
        span,
    })?;
    Ok(())
}
