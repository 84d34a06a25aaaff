//! The limits that the rules name, and the limit of rows of a run.
ghost use Rattle.std.specs.Prelude.{◌≡◌, ◌<◌, ◌≤◌, ◌⊎◌, ◌↔◌, IsNone, IfSome};

use std::alloc::AllocError;
use std::marker::Model;

/// The greatest moment. The least is as far below zero.
pub const MAX_MOMENT: i64 = 1_000_000_000_000;

/// How many spans a family may have: an object's existence, or the values of one property.
pub const MAX_SPANS: usize = 4_096;

/// How many properties of an object may have values.
pub const MAX_PROPERTIES: usize = 64;

/// How many objects a graph may have, dropped ones counted.
pub const MAX_OBJECTS: usize = 200_000;

/// How many rows a relation may have, at the widest limit.
pub const MAX_ROWS: u32 = 1_000_000;

/// The limit of rows of a relation: from 1 to `MAX_ROWS`. A contract sees it as this number.
#[derive(Debug)]
pub struct Limits {
    max_rows: u32,
}

impl Model for Limits {
    ghost use Rattle.std.specs.Prelude.{ℕ, ◌<◌, ◌≤◌};
    ghost use Rattle.itpg_base.specs.declared.limits.TheConstants.{MAX_ROWS};

    ghost Value = { ℕ };

    ghost view = { λ l. l.max_rows };

    ghost invariant = { λ l. (0 < l.max_rows) × (l.max_rows ≤ MAX_ROWS) };

    ghost inverse = { λ n. record { max_rows = n } };
}

impl Limits {
    /// The limits with this number of rows; `None` exactly if it is 0 or above `MAX_ROWS`.
    pub fn new(max_rows: u32) -> Option<Limits>
        ensures none { IsNone result ↔ ((max_rows ≡ 0) ⊎ (MAX_ROWS < max_rows)) }
        ensures some { IfSome result (λ limits. limits ≡ max_rows) }
    {
        if max_rows == 0 || max_rows > MAX_ROWS {
            None
        } else {
            Some(Limits { max_rows })
        }
    }

    /// How many rows a relation may have.
    pub fn max_rows(&self) -> u32
        ensures value { result ≡ self.now }
        ensures some { 0 < result }
        ensures most { result ≤ MAX_ROWS }
    {
        self.max_rows
    }
}

impl Copy for Limits {}

impl Clone for Limits {
    ghost is_clone = { λ v w. w ≡ v };

    fn clone(&self) -> Result<Self, AllocError> {
        Ok(*self)
    }
}
