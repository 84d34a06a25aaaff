//! What is seen of some points holds of all rows.

ghost use Rattle.std.specs.Prelude.{◌↔◌, ℕ, List};
ghost use Rattle.itpg_base.specs.Lists.{Among};
ghost use Rattle.itpg_base.specs.Points.{Point};
ghost use Rattle.relation_rows.specs.declared.rows.Row.{Row as PlainRow};
ghost use Rattle.relation_rows.specs.Rows.{IsWide, RowsHold};
ghost use Rattle.wide_witness.specs.Steps.{IsSeenWide, Reaches, Seen};

use relation_rows::laws::Pairs;

/// A relation that leads from each of the points to where at most so many steps lead from it has a row for each run of moments there, or more:
/// at one departure, each row is one run, and the rows from different objects differ.
pub fn law_of_seen_width<P: Pairs>(pairs: &P)
    ensures { (rows : List PlainRow) (steps limit : ℕ) (seen : IsSeenWide (RowsHold rows) steps limit) →
        ((s : Seen (RowsHold rows) steps) → Among seen.all s → (y : Point) → P.holds pairs.now s.from y ↔ Reaches (RowsHold rows) steps s.from y) →
        IsWide (P.holds pairs.now) limit }
{}
