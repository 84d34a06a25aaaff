//! The runs of arrivals all along a stretch of departures, from the bands that are active there.

ghost use Rattle.std.specs.Prelude.{◌≡◌, ◌↔◌, ℤ, pos, negsuc, ◌+ℤ◌, ◌≤ℤ◌, IsTrue, IfOk, ◌++◌, ◌∷◌, []};
ghost use Rattle.zone_core.specs.Zone.{Within, moment_reach};
ghost use Rattle.itpg_base.specs.Lists.{Among};
ghost use Rattle.band_normal.specs.Bands.{end_at};

use crate::band::End;
use std::alloc::AllocError;

/// A span of departures.
#[derive(Clone, Copy)]
pub struct Stretch {
    pub from: i64,
    pub to: i64,
}

/// The low and the high end of a run, all along a stretch.
#[derive(Clone, Copy)]
pub struct Ends {
    pub low: End,
    pub high: End,
}

/// Ends, and the stretch that they were found for.
#[derive(Clone, Copy)]
pub struct Merged {
    pub ends: Ends,
    pub along: Stretch,
}

/// The runs all along a stretch, from low to high.
#[derive(Drop)]
pub struct Strips {
    pub along: Stretch,
    pub runs: Vec<Ends>,
}

ghost use Rattle.band_normal.specs.declared.strips.Ends.{Ends};
ghost use Rattle.band_normal.specs.Strips.{AreNear, IsFront, StayOrdered, AreOne, AddsBand};

pub fn cut_to(along: Stretch, last: i64) -> Stretch
    requires after { along.from ≤ℤ last }
    requires span { along.from ≤ℤ along.to }
    ensures front { IsFront along result }
    ensures last { result.to ≤ℤ last }
{
    Stretch {
        from: along.from,
        to: along.to.min(last),
    }
}

// The part of the stretch, from its first departure on, along which `x` is at most `y + slack`.
fn while_ordered(x: End, y: End, slack: i64, along: Stretch) -> Stretch
    requires span { along.from ≤ℤ along.to }
    requires from_near { Within moment_reach along.from }
    requires x_near { Within moment_reach (end_at x along.from) }
    requires y_near { Within moment_reach (end_at y along.from) }
    requires slack { Within 2 slack }
    requires ordered { end_at x along.from ≤ℤ (end_at y along.from +ℤ slack) }
    ensures front { IsFront along result }
    ensures ordered { StayOrdered x y slack result }
{
    match x {
        End::Fixed(_) => along,
        End::Moving(k) => match y {
            End::Fixed(n) => cut_to(along, n + slack - k),
            End::Moving(_) => along,
        },
    }
}

// Whether `x` is at most `y + slack` where the stretch begins.
fn is_at_most(x: End, y: End, slack: i64, along: Stretch) -> bool
    requires x_near { Within moment_reach (end_at x along.from) }
    requires y_near { Within moment_reach (end_at y along.from) }
    requires slack { Within 2 slack }
    ensures { IsTrue result ↔ (end_at x along.from ≤ℤ (end_at y along.from +ℤ slack)) }
{
    x.at(along.from) <= y.at(along.from) + slack
}

// The run and a band that overlaps it or is adjacent, as far as they are one run.
fn merge(run: Ends, band: Ends, along: Stretch) -> Merged
    requires span { along.from ≤ℤ along.to }
    requires from_near { Within moment_reach along.from }
    requires run_near { AreNear run along.from }
    requires band_near { AreNear band along.from }
    requires touch { end_at band.low along.from ≤ℤ (end_at run.high along.from +ℤ pos 1) }
    requires lower { end_at run.low along.from ≤ℤ end_at band.low along.from }
    ensures { AreOne run band along result }
{
    let touching = while_ordered(band.low, run.high, 1, along);
    let along = while_ordered(run.low, band.low, 0, touching);
    if is_at_most(band.high, run.high, 0, along) {
        Merged {
            ends: run,
            along: while_ordered(band.high, run.high, 0, along),
        }
    } else {
        Merged {
            ends: Ends {
                low: run.low,
                high: band.high,
            },
            along: while_ordered(run.high, band.high, 0, along),
        }
    }
}

// The runs with one more band, which begins no lower than they do.
pub fn with_band(strips: Strips, band: Ends) -> Result<Strips, AllocError>
    requires span { strips.along.from ≤ℤ strips.along.to }
    requires from_near { Within moment_reach strips.along.from }
    requires runs_near { (e : Ends) → Among strips.runs.items e → AreNear e strips.along.from }
    requires band_near { AreNear band strips.along.from }
    requires lower { (e : Ends) → Among strips.runs.items e → end_at e.low strips.along.from ≤ℤ end_at band.low strips.along.from }
    ensures { IfOk result (λ s. AddsBand strips.runs.items strips.along band s.runs.items s.along) }
{
    let Strips { along, mut runs } = strips;
    match runs.pop() {
        None => {
            runs.push(band)?;
            Ok(Strips { along, runs })
        }
        Some(run) => {
            if is_at_most(band.low, run.high, 1, along) {
                let merged = merge(run, band, along);
                runs.push(merged.ends)?;
                Ok(Strips {
                    along: merged.along,
                    runs,
                })
            } else {
                let apart = while_ordered(run.high, band.low, -2, along);
                runs.push(run)?;
                runs.push(band)?;
                Ok(Strips { along: apart, runs })
            }
        }
    }
}
