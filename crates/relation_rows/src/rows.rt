//! Rows, and why a relation isn't given.

use band_normal::{Band, End};
use itpg_base::ObjNo;
use std::alloc::AllocError;

/// A band of departures and arrivals, from a source to a target.
///
/// It holds the pairs of a departure at the source and an arrival at the target that its band holds.
/// The row from object 3 to object 5 with the band from 0 to 4, from `Moving(0)` to `Fixed(5)`, leads
/// from object 3 at 4 to object 5 at 4 and at 5.
#[derive(Clone, Copy, Debug, PartialEq, Eq)]
pub struct Row {
    /// The object from which it leads.
    pub source: ObjNo,
    /// The object to which it leads.
    pub target: ObjNo,
    /// The moments between which it leads.
    pub band: Band,
}

/// The least arrival at the row's first departure. It has no clause, since it only helps to put rows in an order, and any is right.
pub(crate) fn first_arrival_of(row: &Row) -> i64 {
    match row.band.low {
        End::Fixed(low) => low,
        End::Moving(difference) => row.band.from.saturating_add(difference),
    }
}

/// Why a relation isn't given.
#[derive(Clone, Copy, Debug, PartialEq, Eq, Drop)]
pub enum RelFault {
    /// Memory ran out.
    Memory,
    /// Its normal list has more rows than the limit.
    Wide,
}

impl From<AllocError> for RelFault {
    ghost use Rattle.std.specs.Prelude.{◌≡◌};
    ghost use Rattle.relation_rows.specs.declared.rows.RelFault.TheVariants.{Memory};

    ghost from_gives = { λ _ e. e ≡ Memory };

    fn from(_error: AllocError) -> RelFault {
        RelFault::Memory
    }
}
