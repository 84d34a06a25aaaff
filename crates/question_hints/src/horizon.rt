//! Horizons that no life reaches.
ghost use Rattle.std.specs.Prelude.{◌≡◌, ◌↔◌, ◌++◌, Some, IsTrue, IfOk, OnOk};
ghost use Rattle.std.specs.Fmt.{signed_decimal};
ghost use Rattle.itpg_base.specs.Spans.{Covers, IsCoalesced};
ghost use Rattle.itpg_base.specs.Graphs.{Good, Exists};
ghost use Rattle.path_ast.specs.Terms.{path_term};
ghost use Rattle.question_hints.specs.Horizons.{AreLivesOf, SomeExists, IsWider, IsUnreached, joined_lives};
ghost use Rattle.question_hints.specs.Texts.{ends_text, unreached_text};

use crate::passing::is_free;
use interval_set::Span;
use itoa::Buffer;
use itpg_base::ObjNo;
use itpg_graph::Graph;
use path_ast::Query;
use std::alloc::{AllocError, Global};

/// The first and the last moment at which an object exists.
#[derive(Clone, Copy, PartialEq, Eq, Debug, Drop)]
pub struct Lives {
    pub first: i64,
    pub last: i64,
}

impl Lives {
    /// The hint that no object exists before or after these moments, without a line's end: what is so, and what to write instead.
    ///
    /// `Err` comes only if memory runs out.
    pub fn text(&self, alloc: Global) -> Result<Vec<u8>, AllocError>
        ensures { IfOk result (λ text. text.items ≡ unreached_text self.now) }
    {
        let mut text = Vec::from_slice(alloc, b"no object exists before ")?;
        push_ends(&mut text, self, b" or after ")?;
        text.extend_from_slice(WHERE_TIME_PASSES)?;
        push_ends(&mut text, self, b" ")?;
        Ok(text)
    }
}

const WHERE_TIME_PASSES: &[u8] =
    b", where the path can pass time; begin the graph with the horizon ";

/// The first and the last moment at which an object of the graph exists, if the graph's horizon is wider and the question's
/// path passes time freely; else `None`. It takes no memory.
///
/// ```text
///     horizon   [0 .. 100                   ]
///     a            [3..9]
///     b                    [20..40]              (x)-/N*/-(y) gives 3 and 40, and (x)-/NEXT*/-(y) `None`
/// ```
pub fn unreached_horizon(graph: &Graph, query: &Query) -> Option<Lives>
    ensures { (lives : Lives) → (result ≡ Some lives) ↔ IsUnreached graph.now (path_term query.now.path) lives }
{
    if !is_free(&query.path) {
        return None;
    }
    let horizon = graph.horizon()?;
    let lives = lives_of(graph)?;
    if is_wider(horizon, lives) {
        Some(lives)
    } else {
        None
    }
}

fn is_wider(horizon: Span, lives: Lives) -> bool
    ensures { IsTrue result ↔ IsWider horizon lives }
{
    horizon.from() < lives.first || lives.last < horizon.to()
}

// Of all objects.
fn lives_of(graph: &Graph) -> Option<Lives>
    ensures { AreLivesOf (SomeExists graph.now) result }
{
    let mut lives = None;
    for number in 0..graph.declared() {
        lives = joined(lives, life_of(graph, ObjNo(number)));
    }
    lives
}

// Of one object.
fn life_of(graph: &Graph, o: ObjNo) -> Option<Lives>
    requires { Good graph.now }
    ensures { AreLivesOf (Exists graph.now o.0) result }
{
    if !graph.standing(o) {
        return None;
    }
    ends_of(graph.live(o).spans())
}

fn ends_of(spans: &[Span]) -> Option<Lives>
    requires { IsCoalesced spans.now }
    ensures { AreLivesOf (Covers spans.now) result }
{
    let first = spans.first()?;
    let last = spans.last()?;
    Some(lives_between(first, last))
}

fn lives_between(first: &Span, last: &Span) -> Lives
    ensures { result ≡ record { first = first.now.from; last = last.now.to } }
{
    Lives {
        first: first.from(),
        last: last.to(),
    }
}

fn joined(a: Option<Lives>, b: Option<Lives>) -> Option<Lives>
    ensures { result ≡ joined_lives a b }
{
    match (a, b) {
        (Some(a), Some(b)) => Some(Lives {
            first: a.first.min(b.first),
            last: a.last.max(b.last),
        }),
        (Some(a), None) => Some(a),
        (None, b) => b,
    }
}

// Puts the first and the last moment behind the text, and a text between.
fn push_ends(text: &mut Vec<u8>, lives: &Lives, between: &[u8]) -> Result<(), AllocError>
    ensures { OnOk result (text.new.items ≡ text.old.items ++ ends_text lives.now between.now) }
{
    push_moment(text, lives.first)?;
    text.extend_from_slice(between)?;
    push_moment(text, lives.last)
}

// Puts the moment behind the text, in decimal.
fn push_moment(text: &mut Vec<u8>, moment: i64) -> Result<(), AllocError>
    ensures { OnOk result (text.new.items ≡ text.old.items ++ signed_decimal moment) }
{
    let mut digits = Buffer::new();
    text.extend_from_slice(digits.format(moment).as_bytes())
}
