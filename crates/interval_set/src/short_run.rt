//! A run with a short value, in little room.
ghost use Rattle.std.specs.Prelude.{◌≡◌, ◌↔◌, IsTrue, SomeIff, IfOk};

use crate::places::Spanned;
use crate::run::Run;
use crate::span::Span;
use itpg_base::{Name, ShortName};
use std::alloc::AllocError;
use std::marker::Model;

/// A run whose value is short. It takes a third of the room of a `Run`.
#[derive(Clone, Copy, Debug)]
pub(crate) struct ShortRun {
    pub(crate) span: Span,
    pub(crate) value: ShortName,
}

impl Model for ShortRun {
    ghost use Rattle.itpg_base.specs.Graphs.{Valued};

    ghost Value = { Valued };

    ghost view = { λ r. record { span = r.span; value = r.value } };

    ghost inverse = { λ r. record { span = r.span; value = r.value } };
}

impl ShortRun {
    /// The same run in the room of any run.
    pub(crate) fn run(&self) -> Run
        ensures { result ≡ self.now }
    {
        Run {
            span: self.span,
            value: self.value.name(),
        }
    }

    /// The span of the run, if it has this value.
    pub(crate) fn span_if(&self, value: &Name) -> Option<Span>
        ensures { SomeIff result (self.now.value ≡ value.now) self.now.span }
    {
        if self.value.bytes() == value.bytes() {
            Some(self.span)
        } else {
            None
        }
    }
}

impl Spanned for ShortRun {
    ghost as_run = { λ r. r };

    fn span(&self) -> Span {
        self.span
    }

    fn over(&self, span: Span) -> ShortRun {
        ShortRun {
            span,
            value: self.value,
        }
    }

    fn is_alike(&self, other: &ShortRun) -> bool {
        self.value == other.value
    }
}

/// The same runs in the room of any runs.
pub(crate) fn any_runs(runs: &Vec<ShortRun>) -> Result<Vec<Run>, AllocError>
    ensures { IfOk result (λ any. any.items ≡ runs.now.items) }
{
    runs.iter().map(|run| run.run()).collect(*runs.allocator())
}
