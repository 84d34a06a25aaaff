//! Ways made fewer, where they are many.
//!
//! Ways by other middle points often lie within each other: a sort shows it, and they are passed over. Where many are left, the zones of
//! their normal rows stand for them.

ghost use Rattle.std.specs.Prelude.{◌↔◌, IfOk};
ghost use Rattle.itpg_base.specs.Points.{Point};
ghost use Rattle.relation_rows.specs.Relations.{ItemsHold};

use crate::gather::{Item, gathered_all, push_zones, thinned};
use crate::ways::MANY;
use std::alloc::AllocError;

/// The ways as they are; where they are more than `most`, those that lie in no other, or the zones of their rows if these are still many.
/// And how many there may be then.
pub(crate) fn fewer_beyond(ways: Vec<Item>, most: usize) -> Result<(Vec<Item>, usize), AllocError>
    ensures { IfOk result (λ left. (x : Point) → (y : Point) → ItemsHold left.0.items x y ↔ ItemsHold ways.items x y) }
{
    if ways.len() <= most {
        return Ok((ways, most));
    }
    let thin = thinned(ways)?;
    let left = united_beyond(thin, most / 2)?;
    let most = most_ways(&left);
    Ok((left, most))
}

// The ways as they are, or the zones of their rows where they are more than `most`.
fn united_beyond(ways: Vec<Item>, most: usize) -> Result<Vec<Item>, AllocError>
    ensures { IfOk result (λ zones. (x : Point) → (y : Point) → ItemsHold zones.items x y ↔ ItemsHold ways.items x y) }
{
    if ways.len() <= most {
        return Ok(ways);
    }
    let alloc = *ways.allocator();
    let relation = gathered_all(alloc, ways)?;
    let mut zones = Vec::new(alloc);
    push_zones(&mut zones, &relation.rows)?;
    Ok(zones)
}

/// How many ways there may be before they are made fewer. These stay, if they are normal, so that as many more must come.
pub(crate) fn most_ways(ways: &[Item]) -> usize {
    MANY.max(ways.len().saturating_mul(2))
}
