//! A tick: what it finds of each watch, what it writes of it, and the bases after it.
ghost use Rattle.std.specs.Prelude.{◌≡◌, ◌<◌, ◌⊎◌, length, map, slice_get, Bool, true, false, IfOk, OnOk, OnErr, IsErrOf, Some, IsSome, IsSomeAnd};
ghost use Rattle.std.specs.List.{list_any};
ghost use Rattle.itpg_base.specs.Graphs.{changed_at};
ghost use Rattle.standing_queries.specs.Watches.{IsOfKind};
ghost use Rattle.itpg_base.specs.Sinks.{Gets, GetsSome, IsHonest};
ghost use Rattle.relation_rows.specs.Answered.{answered};
ghost use Rattle.itpg_session.specs.Questions.{IsTooWide, HasAnswer};
ghost use Rattle.itpg_session.specs.PlainWatches.{plain, all_plain};
ghost use Rattle.plan_cache.specs.RightRows.{IsTableRight};
ghost use Rattle.itpg_session.specs.Keeping.{IsKeptRight, IsWorkedFor, IsStale, KeepsPath, KeepsTicked, KeepAllTicked};
ghost use Rattle.itpg_session.specs.Ticks.{ticked_of, IsTicked, AreTicked, IsUnmoved, stays_wide, settled_at, all_settled};
ghost use Rattle.itpg_session.specs.Texts.{ticked_text, tick_text};
ghost use Rattle.itpg_session.specs.Watching.{IsTickDeclared, AreTicksDeclared, IsMoveOfKind, AreMovesOfKind};

use crate::finding::find;
use itpg_base::{Failed, Name, Sink};
use itpg_graph::Graph;
use path_eval::EvalFault;
use plan_cache::Plans;
use relation_rows::Answer;
use reply_text::{write_changes, write_tick_wide};
use row_printer::Form;
use standing_queries::{GainLoss, Watches, changes, no_changes};
use std::alloc::{AllocError, Global};
use std::marker::Model;

/// What a tick finds of the watch of a name.
#[derive(Drop)]
pub(crate) enum Ticked {
    /// Its query is too wide, and its base stays.
    StaysWide {
        name: Name,
    },
    /// The answer now, once for its base and once to be kept, and what changed since the base before.
    Moves {
        name: Name,
        now: Twice,
        changes: GainLoss,
    },
}

/// An answer, twice: so nothing is to be copied any more once a reply is written. A contract sees the answer.
#[derive(Drop)]
pub(crate) struct Twice {
    one: Answer,
    other: Answer,
}

impl Model for Twice {
    ghost use Rattle.std.specs.Prelude.{◌≡◌};
    ghost use Rattle.relation_rows.specs.Answered.{Answered, answered};

    ghost Value = { Answered };

    ghost view = { λ t. answered t.one };

    ghost invariant = { λ t. answered t.other ≡ answered t.one };
}

impl Twice {
    // The answer and a copy of it.
    fn of(answer: Answer) -> Result<Twice, AllocError>
        ensures { IfOk result (λ twice. twice ≡ answered answer) }
    {
        let other = answer.copy()?;
        Ok(Twice { one: answer, other })
    }

    // Makes it the base and the kept answer of the watch at a place.
    fn settle(self, watches: &mut Watches, place: usize)
        requires there { place < length watches.old }
        requires kind { IsSomeAnd (slice_get watches.old place) (λ w. IsOfKind w.query self) }
        ensures { watches.new ≡ changed_at watches.old place (λ w. record w { base = self; now = Some self }) }
    {
        watches.settle(place, self.one, self.other);
    }
}

/// What a tick finds of each watch on the graph, which is begun, with a limit of rows. A kept answer is taken as it is; what is worked
/// out is kept in the table.
pub(crate) fn tick_all(
    alloc: Global,
    graph: &Graph,
    plans: &mut Plans,
    max_rows: u32,
    watches: &Watches,
) -> Result<Vec<Ticked>, AllocError>
    requires begun { IsSome graph.now.begun }
    requires right { IsKeptRight graph.now max_rows plans.old watches.now }
    ensures found { IfOk result (λ found. AreTicked graph.now max_rows (all_plain watches.now) (map ticked_of found.items)) }
    ensures still_right { IsTableRight graph.now max_rows plans.new }
    ensures worked { IsWorkedFor (IsStale (all_plain watches.now)) plans.old plans.new }
    ensures keeps { IfOk result (λ found. KeepAllTicked graph.now plans.new (all_plain watches.now) (map ticked_of found.items)) }
{
    let mut found = Vec::new(alloc);
    for place in 0..watches.len() {
        found.push(tick_one(alloc, graph, plans, max_rows, watches, place)?)?;
    }
    Ok(found)
}

// What a tick finds of the watch at a place.
fn tick_one(
    alloc: Global,
    graph: &Graph,
    plans: &mut Plans,
    max_rows: u32,
    watches: &Watches,
    place: usize,
) -> Result<Ticked, AllocError>
    requires begun { IsSome graph.now.begun }
    requires right { IsKeptRight graph.now max_rows plans.old watches.now }
    requires there { place < length watches.now }
    ensures found { IfOk result (λ found. IsSomeAnd (slice_get watches.now place) (λ w. IsTicked graph.now max_rows (plain w) (ticked_of found))) }
    ensures still_right { IsTableRight graph.now max_rows plans.new }
    ensures worked { IsWorkedFor (IsStale (all_plain watches.now)) plans.old plans.new }
    ensures keeps { IfOk result (λ found. IsSomeAnd (slice_get watches.now place) (λ w. KeepsTicked graph.now plans.new (plain w) (ticked_of found))) }
{
    let name = watches.name(place);
    if let Some(answer) = watches.settled(place) {
        return unmoved(alloc, name, answer);
    }
    match answer_now(alloc, graph, plans, max_rows, watches, place) {
        Ok(now) => {
            let changes = changes(alloc, watches.base(place), &now)?;
            let now = Twice::of(now)?;
            Ok(Ticked::Moves { name, now, changes })
        }
        Err(EvalFault::Wide) => Ok(Ticked::StaysWide { name }),
        Err(EvalFault::Memory) => Err(AllocError),
    }
}

// What a tick finds of the watch of a name whose base is its kept answer: that nothing changed. No rows are looked at.
fn unmoved(alloc: Global, name: Name, answer: &Answer) -> Result<Ticked, AllocError>
    ensures { IfOk result (λ found. IsUnmoved name (answered answer.now) (ticked_of found)) }
{
    let now = Twice::of(answer.copy()?)?;
    let changes = no_changes(alloc, answer)?;
    Ok(Ticked::Moves { name, now, changes })
}

// The answer of the watch at a place: the one that is kept, or else what is found.
fn answer_now(
    alloc: Global,
    graph: &Graph,
    plans: &mut Plans,
    max_rows: u32,
    watches: &Watches,
    place: usize,
) -> Result<Answer, EvalFault>
    requires begun { IsSome graph.now.begun }
    requires right { IsKeptRight graph.now max_rows plans.old watches.now }
    requires there { place < length watches.now }
    ensures answer { IfOk result (λ answer. IsSomeAnd (slice_get watches.now place) (λ w. HasAnswer graph.now max_rows w.query (answered answer))) }
    ensures wide { IsErrOf result EvalFault.Wide → IsSomeAnd (slice_get watches.now place) (λ w. IsTooWide graph.now max_rows w.query) }
    ensures still_right { IsTableRight graph.now max_rows plans.new }
    ensures worked { IsWorkedFor (IsStale (all_plain watches.now)) plans.old plans.new }
    ensures keeps { IfOk result (λ _. IsSomeAnd (slice_get watches.now place) (λ w. ((plain w).fresh ≡ true) ⊎ KeepsPath graph.now w.query.path plans.new)) }
{
    match watches.kept(place) {
        Some(answer) => Ok(answer.copy()?),
        None => find(
            alloc,
            graph,
            plans,
            watches.plan(place),
            max_rows,
            watches.query(place),
        ),
    }
}

/// Writes what was found of each watch, in order.
pub(crate) fn write_all<K: Sink>(
    form: Form,
    graph: &Graph,
    found: &[Ticked],
    out: &mut K,
) -> Result<(), Failed>
    requires { AreTicksDeclared graph.now (map ticked_of found.now) }
    ensures written { OnOk result (Gets K.Sink out.old out.new (tick_text form graph.now (map ticked_of found.now))) }
    ensures some { OnErr result (GetsSome K.Sink out.old out.new (tick_text form graph.now (map ticked_of found.now))) }
    ensures cause { IsHonest K.Sink out.old out.new result }
{
    for one in found {
        write_one(form, graph, one, out)?;
    }
    Ok(())
}

// Writes what was found of a watch.
fn write_one<K: Sink>(form: Form, graph: &Graph, found: &Ticked, out: &mut K) -> Result<(), Failed>
    requires { IsTickDeclared graph.now (ticked_of found.now) }
    ensures written { OnOk result (Gets K.Sink out.old out.new (ticked_text form graph.now (ticked_of found.now))) }
    ensures some { OnErr result (GetsSome K.Sink out.old out.new (ticked_text form graph.now (ticked_of found.now))) }
    ensures cause { IsHonest K.Sink out.old out.new result }
{
    match found {
        Ticked::StaysWide { name } => write_tick_wide(form, name, out),
        Ticked::Moves { name, changes, .. } => {
            write_changes(form, graph, name, &changes.gained, &changes.lost, out)
        }
    }
}

/// Whether some watch is too wide.
pub(crate) fn is_some_wide(found: &[Ticked]) -> bool
    ensures { result ≡ list_any (λ one. stays_wide (ticked_of one)) found.now }
{
    found
        .iter()
        .any(|one| matches!(one, Ticked::StaysWide { .. }))
}

/// Makes each answer that was found the base and the kept answer of its watch, and keeps none where a query was too wide.
pub(crate) fn move_bases(watches: &mut Watches, mut found: Vec<Ticked>)
    requires each { length found.items ≡ length watches.old }
    requires kinds { AreMovesOfKind watches.old (map ticked_of found.items) }
    ensures { watches.new ≡ all_settled watches.old (map ticked_of found.items) }
{
    while let Some(one) = found.pop() {
        move_base(watches, found.len(), one);
    }
}

// The same of the watch at a place.
fn move_base(watches: &mut Watches, place: usize, found: Ticked)
    requires there { place < length watches.old }
    requires kind { IsSomeAnd (slice_get watches.old place) (λ w. IsMoveOfKind w (ticked_of found)) }
    ensures { watches.new ≡ settled_at place (ticked_of found) watches.old }
{
    match found {
        Ticked::Moves { now, .. } => now.settle(watches, place),
        Ticked::StaysWide { .. } => watches.drop_now(place),
    }
}
