//! Values over moments.
ghost use Rattle.std.specs.Prelude.{◌≡◌, ◌↔◌, ◌<◌, ℤ, List, [], length, slice_get, Some, IsTrue, IsNone, SomeIff, IfOk, OnOk, OnErr};
ghost use Rattle.itpg_base.specs.Spans.{Within};
ghost use Rattle.itpg_base.specs.Words.{Word};
ghost use Rattle.itpg_base.specs.Graphs.{Valued, RunsHave, AreRunsOfValues};
ghost use Rattle.interval_set.specs.Runs.{AreRuns, AreRunsOf, HasPut, HasCleared};

use crate::changes::{clear_runs, clearing, put_run, putting};
use crate::places::run_at;
use crate::run::Run;
use crate::set::IntervalSet;
use crate::short_run::{ShortRun, any_runs};
use crate::span::Span;
use crate::splice::may_pass;
use itpg_base::{Name, ShortName};
use std::alloc::{AllocError, Global};
use std::marker::Model;

/// The runs of a set, in little room until one has a value that isn't short.
#[derive(Debug, Drop)]
enum Runs {
    Short(Vec<ShortRun>),
    Any(Vec<Run>),
}

/// At each moment at most one value, kept as the list of runs: they rise, and two that touch have
/// different values. They take a third of the room until a value is put that isn't short.
///
/// ```text
/// 0 1 2 3 4 5 6 7 8 9      low at 1, 2, 6 and 7, and high at 3
///   [low][hi]   [low ]
/// ```
#[derive(Debug, Drop)]
pub struct ValuedSet {
    runs: Runs,
}

impl Model for ValuedSet {
    ghost use Rattle.std.specs.Prelude.{List};
    ghost use Rattle.itpg_base.specs.Graphs.{Valued};
    ghost use Rattle.interval_set.specs.KeptRuns.{runs_in, AreKept};

    ghost Value = { List Valued };

    ghost view = { λ a. runs_in a.runs };

    ghost invariant = { λ a. AreKept a.runs };
}

impl ValuedSet {
    /// No value at any moment. It takes no memory.
    pub fn new(alloc: Global) -> ValuedSet
        ensures { result ≡ [] }
    {
        ValuedSet {
            runs: Runs::Short(Vec::new(alloc)),
        }
    }

    /// How many runs the set has.
    pub fn count(&self) -> usize
        ensures value { result ≡ length self.now }
        ensures coalesced { AreRunsOfValues self.now }
    {
        match &self.runs {
            Runs::Short(runs) => runs.len(),
            Runs::Any(runs) => runs.len(),
        }
    }

    /// Whether there is no value at any moment.
    pub fn is_empty(&self) -> bool
        ensures { IsTrue result ↔ (self.now ≡ []) }
    {
        self.count() == 0
    }

    /// The run at the place. They rise.
    pub fn run(&self, place: usize) -> Run
        requires { place < length self.now }
        ensures { slice_get self.now place ≡ Some result }
    {
        match &self.runs {
            Runs::Short(runs) => runs[place].run(),
            Runs::Any(runs) => runs[place],
        }
    }

    /// The span of the run at the place, if that run has the value.
    pub fn span_with(&self, place: usize, value: &Name) -> Option<Span>
        requires { place < length self.now }
        ensures { (run : Valued) → slice_get self.now place ≡ Some run → SomeIff result (run.value ≡ value.now) run.span }
    {
        match &self.runs {
            Runs::Short(runs) => runs[place].span_if(value),
            Runs::Any(runs) => runs[place].span_if(value),
        }
    }

    /// Whether some moment has this value.
    pub fn has(&self, value: &Name) -> bool
        ensures { IsTrue result ↔ ((t : ℤ) × RunsHave self.now t value.now) }
    {
        for place in 0..self.count() {
            if self.span_with(place, value).is_some() {
                return true;
            }
        }
        false
    }

    /// The value at the moment. `None` exactly if there is none.
    pub fn at(&self, t: i64) -> Option<Name>
        ensures none { IsNone result ↔ ((value : Word) → ¬ RunsHave self.now t value) }
        ensures some { (value : Word) → (result ≡ Some value) ↔ RunsHave self.now t value }
    {
        match &self.runs {
            Runs::Short(runs) => Some(run_at(runs, t)?.value.name()),
            Runs::Any(runs) => Some(run_at(runs, t)?.value),
        }
    }

    /// How many runs the set would have with the value put over `s`.
    pub fn count_put(&self, s: Span, value: Name) -> usize
        ensures { (runs : List Valued) → AreRunsOf (HasPut self.now s value) runs → result ≡ length runs }
    {
        match (&self.runs, ShortName::of(&value)) {
            (Runs::Short(runs), Some(value)) => {
                let run = ShortRun { span: s, value };
                putting(runs, run).count(runs)
            }
            // No run has the same value, so that none is joined.
            (Runs::Short(runs), None) => clearing(runs, s).count(runs) + 1,
            (Runs::Any(runs), _) => putting(runs, Run { span: s, value }).count(runs),
        }
    }

    /// Whether the set would have more than `most` runs with the value put over `s`.
    pub fn puts_beyond(&self, s: Span, value: &Name, most: usize) -> bool
        ensures { (runs : List Valued) → AreRunsOf (HasPut self.now s value.now) runs → IsTrue result ↔ (most < length runs) }
    {
        may_pass(self.count(), most) && self.count_put(s, *value) > most
    }

    /// Gives each moment of `s` the value, whatever was there. Without memory the set stays as it was.
    ///
    /// ```text
    /// set          [low 0..9       ]
    /// put high              [5..14       ]
    /// afterwards   [low 0..4][high 5..14 ]
    /// ```
    pub fn put(&mut self, s: Span, value: Name) -> Result<(), AllocError>
        ensures ok { OnOk result (AreRunsOf (HasPut self.old s value) self.new) }
        ensures err { OnErr result (self.new ≡ self.old) }
    {
        match (&mut self.runs, ShortName::of(&value)) {
            (Runs::Short(runs), Some(value)) => put_run(runs, ShortRun { span: s, value }),
            (Runs::Short(runs), None) => {
                let mut any = any_runs(runs)?;
                put_run(&mut any, Run { span: s, value })?;
                self.runs = Runs::Any(any);
                Ok(())
            }
            (Runs::Any(runs), _) => put_run(runs, Run { span: s, value }),
        }
    }

    /// How many runs the set would have with the moments of `s` cleared.
    pub fn count_clear(&self, s: Span) -> usize
        ensures { (runs : List Valued) → AreRunsOf (HasCleared self.now s) runs → result ≡ length runs }
    {
        match &self.runs {
            Runs::Short(runs) => clearing(runs, s).count(runs),
            Runs::Any(runs) => clearing(runs, s).count(runs),
        }
    }

    /// Takes the values at the moments of `s` away. Without memory the set stays as it was.
    pub fn clear(&mut self, s: Span) -> Result<(), AllocError>
        ensures ok { OnOk result (AreRunsOf (HasCleared self.old s) self.new) }
        ensures err { OnErr result (self.new ≡ self.old) }
    {
        match &mut self.runs {
            Runs::Short(runs) => clear_runs(runs, s),
            Runs::Any(runs) => clear_runs(runs, s),
        }
    }

    /// An equal set of its own.
    pub fn copy(&self) -> Result<ValuedSet, AllocError>
        ensures { IfOk result (λ copy. copy ≡ self.now) }
    {
        let runs = match &self.runs {
            Runs::Short(runs) => Runs::Short(Vec::from_slice(*runs.allocator(), runs)?),
            Runs::Any(runs) => Runs::Any(Vec::from_slice(*runs.allocator(), runs)?),
        };
        Ok(ValuedSet { runs })
    }

    /// The moments with this value.
    pub fn places(&self, value: Name) -> Result<IntervalSet, AllocError>
        ensures { IfOk result (λ places. AreRuns (λ t. RunsHave self.now t value) places) }
    {
        let mut spans = Vec::new(self.allocator());
        for place in 0..self.count() {
            if let Some(span) = self.span_with(place, &value) {
                spans.push(span)?;
            }
        }
        Ok(IntervalSet::from_spans(spans))
    }

    fn allocator(&self) -> Global {
        match &self.runs {
            Runs::Short(runs) => *runs.allocator(),
            Runs::Any(runs) => *runs.allocator(),
        }
    }
}
