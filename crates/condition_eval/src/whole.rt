//! Objects over a span.

ghost use Rattle.std.specs.Prelude.{◌≡◌, IfOk};
ghost use Rattle.itpg_base.specs.Spans.{Within};
ghost use Rattle.relation_rows.specs.Relations.{Rise, IsOneOf};
ghost use Rattle.relation_rows.specs.Times.{AreTimes};

use interval_set::Span;
use itpg_base::ObjNo;
use relation_rows::OneRow;
use std::alloc::{AllocError, Global};

/// Each of the objects, which rise, over the whole span.
pub(crate) fn all_over(
    alloc: Global,
    objects: &[ObjNo],
    span: Span,
) -> Result<Vec<OneRow>, AllocError>
    requires { Rise objects.now }
    ensures { IfOk result (λ rows. AreTimes (λ o t. IsOneOf objects.now o × Within t span) rows.items) }
{
    let mut rows = Vec::with_capacity(alloc, objects.len())?;
    for object in objects {
        rows.push(OneRow {
            object: *object,
            span,
        })?;
    }
    Ok(rows)
}
