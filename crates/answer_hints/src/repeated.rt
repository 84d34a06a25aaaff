//! A path that is repeated, and from how many times on it adds nothing.
ghost use Rattle.std.specs.Prelude.{◌≡◌, ◌↔◌, ◌≤◌, ◌+◌, ◌*◌, length, option_map, Some, IfOk, IsSome, IsTrue};
ghost use Rattle.path_ast.specs.Terms.{path_term, Repetition};
ghost use Rattle.path_ast.specs.Sizes.{path_size, IsPathInRange};
ghost use Rattle.path_ast.specs.declared.counts.TheConstants.{MAX_TERMS};
ghost use Rattle.plan_cache.specs.RightRows.{IsTableRight};
ghost use Rattle.answer_hints.specs.RuledOut.{HasRowsWithin, IsAnswer};
ghost use Rattle.answer_hints.specs.Repeated.{repeated, up_to, farthest, IsFinding};

use crate::copies::boxed_copy;
use crate::rows::relation_in;
use itpg_graph::Part;
use path_ast::{Path, Query};
use plan_cache::Plans;
use relation_rows::Relation;
use std::alloc::{AllocError, Global};
use std::marker::Model;
use std::rc::Rc;

/// How far above the least number of times a repetition is looked at: so a hint costs at most this many relations and two more.
pub const MOST_FURTHER: u64 = 16;

/// How many times a repetition can be asked for at most.
const MOST_TIMES: u64 = 1_000_000_000_000;

/// What a repetition is worked out on, and how many rows a relation may have there.
#[derive(Drop)]
pub(crate) struct Site<'a> {
    pub(crate) alloc: Global,
    pub(crate) graph: &'a Part<'a>,
    pub(crate) max_rows: u32,
}

/// A path that is repeated, and how many times at least and at most.
#[derive(Drop)]
pub(crate) struct Repeated<'a> {
    pub(crate) body: &'a Path,
    pub(crate) least: u64,
    pub(crate) most: Option<u64>,
}

impl<'a> Model for Repeated<'a> {
    ghost use Rattle.std.specs.Coded.{codes};
    ghost use Rattle.path_ast.specs.Codes.{coded_path};
    ghost use Rattle.path_ast.specs.Terms.{path_term};
    ghost use Rattle.answer_hints.specs.Repeated.{Repeating};

    ghost Value = { Repeating };

    ghost coded = { Prim.hlevel (codes, coded_path) };

    ghost view = { λ r. record { body = path_term r.body.now; least = r.least; most = r.most } };
}

impl Repeated<'_> {
    /// The path with another greatest number of times, in memory of its own.
    pub(crate) fn path(&self, alloc: Global, most: Option<u64>) -> Result<Path, AllocError>
        ensures { IfOk result (λ path. path_term path ≡ Repetition self.now.body self.now.least most) }
    {
        Ok(Path::Repeat {
            body: boxed_copy(alloc, self.body)?,
            least: self.least,
            most,
        })
    }

    // Whether its least number of times is its most.
    fn is_exact(&self) -> bool
        ensures { IsTrue result ↔ (self.now.most ≡ Some self.now.least) }
    {
        self.most == Some(self.least)
    }

    // The greatest number of times that is looked at.
    fn farthest(&self) -> u64
        requires { IsPathInRange (repeated self.now) }
        ensures { result ≡ farthest self.now }
    {
        let most = self.most.unwrap_or(MOST_TIMES);
        most.min(self.least + MOST_FURTHER)
    }
}

/// The least number of times from which on the repetition adds nothing.
///
/// ```text
///     F[0,_], where no walk along edges is longer than 4        4
///     F[0,5], where some are                                    none
/// ```
///
/// `None` exactly if there is none below the most and at most `MOST_FURTHER` above the least, or a relation that is worked out to find
/// it is too wide. The graph is begun, and the repetition is in range and has at most `MAX_TERMS` terms.
///
/// # Errors
///
/// If memory runs out.
pub(crate) fn enough_times_of(
    site: &Site<'_>,
    repetition: &Repeated<'_>,
) -> Result<Option<u64>, AllocError>
    requires begun { IsSome site.now.graph.now.begun }
    requires in_range { IsPathInRange (repeated repetition.now) }
    requires terms { path_size (repeated repetition.now) ≤ MAX_TERMS }
    ensures { IfOk result (λ found. IsFinding site.now.graph.now site.now.max_rows repetition.now found) }
{
    if repetition.is_exact() {
        return Ok(None);
    }
    let mut plans = Plans::new(site.alloc);
    let Some(whole) = relation_of(site, &mut plans, repetition, repetition.most)? else {
        return Ok(None);
    };
    let farthest = repetition.farthest();
    let Some(far) = relation_of(site, &mut plans, repetition, Some(farthest))? else {
        return Ok(None);
    };
    if !far.same(&whole) {
        return Ok(None);
    }
    first_alike(site, &mut plans, repetition, &whole)
}

// The first number of times up to which the repetition is the whole one, where it is up to the farthest.
fn first_alike(
    site: &Site<'_>,
    plans: &mut Plans,
    repetition: &Repeated<'_>,
    whole: &Relation,
) -> Result<Option<u64>, AllocError>
    requires begun { IsSome site.now.graph.now.begun }
    requires in_range { IsPathInRange (repeated repetition.now) }
    requires terms { path_size (repeated repetition.now) ≤ MAX_TERMS }
    requires right { IsTableRight site.now.graph.now site.now.max_rows plans.old }
    requires few { length plans.old.nodes ≤ 2 * MAX_TERMS }
    requires whole { HasRowsWithin site.now.graph.now site.now.max_rows (repeated repetition.now) whole.now }
    requires far { HasRowsWithin site.now.graph.now site.now.max_rows (up_to repetition.now (farthest repetition.now)) whole.now }
    ensures { IfOk result (λ found. IsFinding site.now.graph.now site.now.max_rows repetition.now found) }
{
    let farthest = repetition.farthest();
    for times in repetition.least..farthest {
        let Some(relation) = relation_of(site, plans, repetition, Some(times))? else {
            return Ok(None);
        };
        if relation.same(whole) {
            return Ok(Some(times));
        }
    }
    Ok(below(farthest, repetition.most))
}

// The number of times, unless it is the most.
fn below(times: u64, most: Option<u64>) -> Option<u64>
    ensures at { most ≡ Some times → result ≡ None }
    ensures other { (most ≡ Some times → ⊥) → result ≡ Some times }
{
    (most != Some(times)).then_some(times)
}

// The relation of the repetition up to another number of times. `None` exactly if it is too wide.
fn relation_of(
    site: &Site<'_>,
    plans: &mut Plans,
    repetition: &Repeated<'_>,
    most: Option<u64>,
) -> Result<Option<Rc<Relation>>, AllocError>
    requires begun { IsSome site.now.graph.now.begun }
    requires in_range { IsPathInRange (Repetition repetition.now.body repetition.now.least most) }
    requires terms { path_size (repeated repetition.now) ≤ MAX_TERMS }
    requires right { IsTableRight site.now.graph.now site.now.max_rows plans.old }
    requires few { length plans.old.nodes ≤ 18 * MAX_TERMS }
    ensures rows { IfOk result (λ r. IsAnswer site.now.graph.now site.now.max_rows (Repetition repetition.now.body repetition.now.least most) (option_map (λ x. x.value) r)) }
    ensures right { IfOk result (λ _. IsTableRight site.now.graph.now site.now.max_rows plans.new) }
    ensures few { IfOk result (λ _. length plans.new.nodes ≤ length plans.old.nodes + MAX_TERMS) }
{
    let query = Query {
        first: true,
        last: true,
        path: repetition.path(site.alloc, most)?,
        graph_name: None,
    };
    relation_in(site.alloc, site.graph, plans, &query, site.max_rows)
}
