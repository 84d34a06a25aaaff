//! A run: a value over a span.
ghost use Rattle.std.specs.Prelude.{◌≡◌, ◌↔◌, IsTrue, SomeIff};

use crate::places::Spanned;
use crate::span::Span;
use itpg_base::Name;
use std::marker::Model;

/// A value over a span: it has the value at each moment of the span.
#[derive(Clone, Copy, Debug, PartialEq, Eq)]
pub struct Run {
    /// The moments of the run.
    pub span: Span,
    /// The value at each of them.
    pub value: Name,
}

impl Model for Run {
    ghost use Rattle.itpg_base.specs.Graphs.{Valued};

    ghost Value = { Valued };

    ghost view = { λ r. record { span = r.span; value = r.value } };

    ghost inverse = { λ r. record { span = r.span; value = r.value } };
}

impl Run {
    /// The span of the run, if it has this value.
    pub(crate) fn span_if(&self, value: &Name) -> Option<Span>
        ensures { SomeIff result (self.now.value ≡ value.now) self.now.span }
    {
        if self.value.bytes() == value.bytes() {
            Some(self.span)
        } else {
            None
        }
    }
}

impl Spanned for Run {
    ghost as_run = { λ r. r };

    fn span(&self) -> Span {
        self.span
    }

    fn over(&self, span: Span) -> Run {
        Run {
            span,
            value: self.value,
        }
    }

    fn is_alike(&self, other: &Run) -> bool {
        self.value == other.value
    }
}
