//! Rows in two parts: those of long even runs, which are taken by halves, and the rest.

ghost use Rattle.std.specs.Prelude.{◌≡◌, IfOk};
ghost use Rattle.itpg_base.specs.Lists.{Ordered};
ghost use Rattle.relation_rows.specs.Rows.{RowBefore};
ghost use Rattle.relation_rows.specs.EvenParts.{AreParts};

use crate::evenness::{is_long, run_len};
use crate::rows::Row;
use std::alloc::{AllocError, Global};
use std::marker::Model;

/// Rows in order, those of them that are in long even runs, and the rest. If no run is long, or none is wanted, all are the rest. A
/// contract sees all rows.
#[derive(Drop)]
pub(crate) struct Parted<'a> {
    rows: &'a [Row],
    even: Vec<Row>,
    // Not read if no row is even.
    rest: Vec<Row>,
}

impl<'a> Model for Parted<'a> {
    ghost use Rattle.std.specs.Prelude.{List};
    ghost use Rattle.relation_rows.specs.declared.rows.Row.{Row};
    ghost use Rattle.relation_rows.specs.EvenParts.{AreParted};

    ghost Value = { List Row };

    ghost view = { λ p. p.rows.now };

    ghost invariant = { λ p. AreParted p.rows.now p.even.items p.rest.items };
}

impl<'a> Parted<'a> {
    /// All rows.
    pub(crate) fn rows(&self) -> &[Row]
        ensures rows { result.now ≡ self.now }
        ensures order { Ordered RowBefore result.now }
    {
        self.rows
    }

    /// The rows of long even runs, and the rest.
    ///
    /// ```text
    ///     a to b: 100 even rows, b to a: 3 rows, b to c: 70 even rows      170 rows, 3 rows
    /// ```
    pub(crate) fn parts(&self) -> (&[Row], &[Row])
        ensures { AreParts self.now result.0.now result.1.now }
    {
        if self.even.is_empty() {
            return (&self.even, self.rows);
        }
        (&self.even, &self.rest)
    }
}

/// The rows, which stand in order, in two parts, if long even runs are wanted.
pub(crate) fn in_parts<'a>(
    alloc: Global,
    rows: &'a [Row],
    wanted: bool,
) -> Result<Parted<'a>, AllocError>
    requires { Ordered RowBefore rows.now }
    ensures { IfOk result (λ parted. parted ≡ rows.now) }
{
    let mut even = Vec::new(alloc);
    let mut rest = Vec::new(alloc);
    if !wanted {
        return Ok(Parted { rows, even, rest });
    }
    let mut left = rows;
    while !left.is_empty() {
        let (run, later) = left.split_at(run_len(left));
        if is_long(run) {
            even.extend_from_slice(run)?;
            left = later;
        } else {
            rest.extend_from_slice(run)?;
            left = later;
        }
    }
    Ok(Parted { rows, even, rest })
}
