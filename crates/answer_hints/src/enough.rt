//! Hints on repetitions that add nothing from some number of times on.
ghost use Rattle.std.specs.Prelude.{◌≡◌, ◌≤◌, ◌∷◌, [], min, IfOk, OnOk, IsSome};
ghost use Rattle.path_ast.specs.Terms.{path_term, Sequence, Repetition};
ghost use Rattle.path_ast.specs.Sizes.{path_size, IsPathInRange};
ghost use Rattle.path_ast.specs.declared.counts.TheConstants.{MAX_TERMS};
ghost use Rattle.itpg_base.specs.Lists.{Among};
ghost use Rattle.answer_hints.specs.Repeated.{Told, told_at, top_repetitions, AreTold, TellsOf, IsCertain, AllAreGiven};
ghost use Rattle.answer_hints.specs.Texts.{text_of_told};

use crate::hint::push_number;
use crate::repeated::{Repeated, Site, enough_times_of};
use itpg_graph::Part;
use path_ast::{Path, Query};
use path_text::path_text;
use std::alloc::{AllocError, Global};
use std::marker::Model;

/// How many rows a relation may have that is worked out for a hint on a repetition: more would take longer than the question.
pub const MOST_ROWS: u32 = 10_000;

/// A repetition that adds nothing from some number of times on: that number, and the path to write instead.
#[derive(Debug, Drop)]
pub struct Enough {
    path: Path,
    times: u64,
    instead: Path,
}

impl Model for Enough {
    ghost use Rattle.std.specs.Coded.{codes};
    ghost use Rattle.path_ast.specs.Codes.{coded_path};
    ghost use Rattle.path_ast.specs.Terms.{path_term};
    ghost use Rattle.answer_hints.specs.Repeated.{Told};

    ghost Value = { Told };

    ghost coded = { Prim.hlevel (codes, coded_path) };

    ghost view = { λ e. record { path = path_term e.path; times = e.times; instead = path_term e.instead } };
}

impl Enough {
    // The hint on a repetition for which this number is found.
    fn of(alloc: Global, repetition: &Repeated<'_>, times: u64) -> Result<Enough, AllocError>
        ensures { IfOk result (λ hint. hint ≡ told_at repetition.now times) }
    {
        Ok(Enough {
            path: repetition.path(alloc, repetition.most)?,
            times,
            instead: repetition.path(alloc, Some(times))?,
        })
    }

    /// One line of plain English without a line's end: `(F[0,_]) adds nothing from 4 times on; write (F[0,4])`.
    ///
    /// `Err` comes only if memory runs out.
    pub fn text(&self, alloc: Global) -> Result<Vec<u8>, AllocError>
        ensures { IfOk result (λ text. text.items ≡ text_of_told self.now) }
    {
        let mut text = path_text(alloc, &self.path)?;
        text.extend_from_slice(b" adds nothing from ")?;
        push_number(&mut text, self.times)?;
        text.extend_from_slice(b" times on; write ")?;
        text.extend_from_slice(&path_text(alloc, &self.instead)?)?;
        Ok(text)
    }
}

/// The repetitions of the query that add nothing on the graph from some number of times on, from left to right.
///
/// ```text
///     graph                       MATCH (x)-/(FWD/FWD)[0,_]/(NEXT[0,2] + P)/-(y)
///     m meets from a to b         (FWD/FWD)[0,_] adds nothing from 1 time on
///     all live 2 4                NEXT[0,2] goes on to add: no hint
/// ```
///
/// They are those that stand in the path through "then" and "or" alone: in no other repetition and in no condition. The number is the
/// least from which on the repetition adds nothing, between all objects. It is looked for up to `MOST_FURTHER` above the least number of
/// times, and only where no relation that is worked out for it has more than `max_rows` normal rows, or more than `MOST_ROWS`.
/// The graph is begun, and the path is in range and has at most `MAX_TERMS` terms.
///
/// # Errors
///
/// If memory runs out.
pub fn enough_times(
    alloc: Global,
    graph: &Part<'_>,
    query: &Query,
    max_rows: u32,
) -> Result<Vec<Enough>, AllocError>
    requires begun { IsSome graph.now.begun }
    requires in_range { IsPathInRange (path_term query.now.path) }
    requires terms { path_size (path_term query.now.path) ≤ MAX_TERMS }
    ensures told { IfOk result (λ hints. AreTold graph.now (min max_rows MOST_ROWS) (top_repetitions (path_term query.now.path)) hints.items) }
    ensures certain { IfOk result (λ hints. (t : Told) → Among hints.items t → IsCertain graph.now (path_term query.now.path) t) }
    ensures given { IfOk result (λ hints. AllAreGiven graph.now (min max_rows MOST_ROWS) (path_term query.now.path) hints.items) }
{
    let site = Site {
        alloc,
        graph,
        max_rows: max_rows.min(MOST_ROWS),
    };
    let mut hints = Vec::new(alloc);
    add_hints(&site, &mut hints, &query.path)?;
    Ok(hints)
}

// Puts the hints on the path's top repetitions behind the others.
#[cycle(tops)]
fn add_hints(site: &Site<'_>, hints: &mut Vec<Enough>, path: &Path) -> Result<(), AllocError>
    requires begun { IsSome site.now.graph.now.begun }
    requires in_range { IsPathInRange (path_term path.now) }
    requires terms { path_size (path_term path.now) ≤ MAX_TERMS }
    ensures { OnOk result (TellsOf site.now.graph.now site.now.max_rows (top_repetitions (path_term path.now)) hints.old.items hints.new.items) }
{
    match path {
        Path::Test(_) | Path::F | Path::B | Path::N | Path::P => Ok(()),
        Path::Seq(a, b) | Path::Alt(a, b) => add_hints_of_both(site, hints, a, b),
        Path::Repeat { body, least, most } => add_hint_of(site, hints, body, *least, *most),
    }
}

// The hints on the top repetitions of both paths.
#[cycle(tops)]
fn add_hints_of_both(
    site: &Site<'_>,
    hints: &mut Vec<Enough>,
    a: &Path,
    b: &Path,
) -> Result<(), AllocError>
    requires begun { IsSome site.now.graph.now.begun }
    requires first_in_range { IsPathInRange (path_term a.now) }
    requires second_in_range { IsPathInRange (path_term b.now) }
    requires first_terms { path_size (path_term a.now) ≤ MAX_TERMS }
    requires second_terms { path_size (path_term b.now) ≤ MAX_TERMS }
    ensures { OnOk result (TellsOf site.now.graph.now site.now.max_rows (top_repetitions (Sequence (path_term a.now) (path_term b.now))) hints.old.items hints.new.items) }
{
    add_hints(site, hints, a)?;
    add_hints(site, hints, b)
}

// The hint on one repetition, if there is one.
fn add_hint_of(
    site: &Site<'_>,
    hints: &mut Vec<Enough>,
    body: &Path,
    least: u64,
    most: Option<u64>,
) -> Result<(), AllocError>
    requires begun { IsSome site.now.graph.now.begun }
    requires in_range { IsPathInRange (Repetition (path_term body.now) least most) }
    requires terms { path_size (Repetition (path_term body.now) least most) ≤ MAX_TERMS }
    ensures { OnOk result (TellsOf site.now.graph.now site.now.max_rows (top_repetitions (Repetition (path_term body.now) least most)) hints.old.items hints.new.items) }
{
    let repetition = Repeated { body, least, most };
    if let Some(times) = enough_times_of(site, &repetition)? {
        hints.push(Enough::of(site.alloc, &repetition, times)?)?;
    }
    Ok(())
}
