//! Marks: points of some objects, as one-time rows.

ghost use Rattle.std.specs.Prelude.{◌≡◌, IfOk};
ghost use Rattle.zone_core.specs.Zone.{Within, moment_reach};
ghost use Rattle.relation_rows.specs.Answers.{Gives};
ghost use Rattle.relation_rows.specs.Relations.{Rise};
ghost use Rattle.relation_rows.specs.Resting.{AreNearTimes};
ghost use Rattle.relation_rows.specs.Times.{IsOneTime};
ghost use Rattle.condition_eval.specs.Marking.{ArePoints, AreMarks};
ghost use Rattle.condition_eval.specs.Combined.{BothMark, EitherMarks, IsUnmarked, MarkedToItself};

use crate::both::both;
use crate::either::either;
use crate::whole::all_over;
use crate::without::without;
use interval_set::Span;
use itpg_base::ObjNo;
use relation_rows::{OneRow, OneTime, RelFault, Relation};
use std::alloc::{AllocError, Global};
use std::marker::Model;

/// Marked points: objects, each over the runs of the moments at which it is marked.
///
/// Marks say at which points of some objects a test holds. An object at which it holds nowhere has no row.
#[derive(Drop)]
pub struct Marks {
    alloc: Global,
    times: OneTime,
}

impl Model for Marks {
    ghost use Rattle.std.specs.Prelude.{List};
    ghost use Rattle.relation_rows.specs.declared.times.OneRow.{OneRow};
    ghost use Rattle.relation_rows.specs.Resting.{AreNearTimes};

    ghost Value = { List OneRow };

    ghost view = { λ m. m.times };

    ghost invariant = { λ m. AreNearTimes m.times };
}

impl Marks {
    /// The marks of these rows.
    pub(crate) fn of(alloc: Global, rows: Vec<OneRow>) -> Marks
        requires order { IsOneTime rows.items }
        requires near { AreNearTimes rows.items }
        ensures { result ≡ rows.items }
    {
        Marks {
            alloc,
            times: OneTime::from_rows(rows),
        }
    }

    /// The points that both mark.
    ///
    /// ```text
    ///     one       [0..4]    [7..20  ]
    ///     other         [3..8    ]
    ///     result        [3..4][7..8]
    /// ```
    pub fn and(&self, other: &Marks) -> Result<Marks, AllocError>
        ensures { IfOk result (λ marks. ArePoints (BothMark self.now other.now) marks) }
    {
        let rows = both(self.alloc, self.times.rows(), other.times.rows())?;
        Ok(Marks::of(self.alloc, rows))
    }

    /// The points that one of the two marks, or both.
    pub fn or(&self, other: &Marks) -> Result<Marks, AllocError>
        ensures { IfOk result (λ marks. ArePoints (EitherMarks self.now other.now) marks) }
    {
        let rows = either(self.alloc, self.times.rows(), other.times.rows())?;
        Ok(Marks::of(self.alloc, rows))
    }

    /// The points of the objects over the horizon that aren't marked, whether the objects exist there or not.
    ///
    /// The objects rise. The first and the last moment of the horizon lie within 4 * 10^12 of zero.
    ///
    /// ```text
    ///     horizon   [0..100                          ]
    ///     marked    [0..4]     [7..20  ]
    ///     result          [5..6]        [21..100     ]
    /// ```
    pub fn not(&self, objects: &[ObjNo], horizon: Span) -> Result<Marks, AllocError>
        requires rise { Rise objects.now }
        requires from { Within moment_reach horizon.from }
        requires to { Within moment_reach horizon.to }
        ensures { IfOk result (λ marks. AreMarks objects.now (IsUnmarked horizon self.now) marks) }
    {
        let all = all_over(self.alloc, objects, horizon)?;
        let rows = without(self.alloc, &all, self.times.rows())?;
        Ok(Marks::of(self.alloc, rows))
    }

    /// The relation in which each marked point leads to itself. `Wide` exactly if its normal rows are more than
    /// `max_rows`.
    pub fn as_relation(&self, max_rows: u32) -> Result<Relation, RelFault>
        ensures { Gives result (MarkedToItself self.now) max_rows }
    {
        self.times.as_relation(max_rows)
    }
}
