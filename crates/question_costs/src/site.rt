//! What a question is asked on, and what is said of it there.
ghost use Rattle.std.specs.Prelude.{◌≡◌, ◌≤◌, ◌++◌, [], None, option_map, IfOk, IfSome, OnOk, IsNone, IsSome};
ghost use Rattle.path_ast.specs.Terms.{path_term};
ghost use Rattle.path_ast.specs.Sizes.{path_size, IsPathInRange};
ghost use Rattle.path_ast.specs.declared.counts.TheConstants.{MAX_TERMS};
ghost use Rattle.label_scope.specs.declared.scope.Scope.TheVariants.{All};
ghost use Rattle.label_scope.specs.Members.{worked};
ghost use Rattle.plan_cache.specs.Nodes.{narrowed_member};
ghost use Rattle.path_eval.specs.Evaluated.{SomeIsWide};
ghost use Rattle.question_costs.specs.Counts.{HasRowCount, HaveChildren, counts_of};
ghost use Rattle.question_costs.specs.Needed.{AreCountsOf, MustHave};
ghost use Rattle.question_costs.specs.Texts.{hints_text};
ghost use Rattle.question_costs.specs.Explained.{AreHintLines, IsFront};

use crate::clock::Clock;
use crate::counting::{Counted, count_members};
use crate::kept::are_kept;
use crate::needed::rows_needed;
use crate::text::add_line;
use crate::tree::{Tree, add_wide};
use itpg_graph::{Graph, Part};
use path_ast::Query;
use path_text::path_text;
use plan_cache::{Plans, law_of_shared_nodes};
use question_hints::{Hint, hints_of};
use std::alloc::{AllocError, Global};

/// The limit of rows that a question has if none is named.
pub const USUAL_ROWS: u32 = 100_000;

/// What is said of a question before its reply, and behind it.
#[derive(Drop)]
pub struct Explained {
    /// A line for the path and one for each member, as a tree; and one for the first member that is over, if there is one.
    pub front: Vec<u8>,
    /// A line for each hint.
    pub hints: Vec<u8>,
    /// How many rows the question's own member has, which is the path between all objects; `None` exactly if some member is over.
    pub rows: Option<u64>,
    /// How many rows the widest member has, if rows are told of each and that is more than `USUAL_ROWS`.
    pub needed: Option<u64>,
}

impl Explained {
    /// Nothing. It takes no memory.
    pub fn nothing(alloc: Global) -> Explained
        ensures front { result.front.items ≡ [] }
        ensures hints { result.hints.items ≡ [] }
        ensures rows { result.rows ≡ None }
        ensures needed { result.needed ≡ None }
    {
        Explained {
            front: Vec::new(alloc),
            hints: Vec::new(alloc),
            rows: None,
            needed: None,
        }
    }
}

/// The graph that a question is asked of, the part of it that its answer is worked out on, and the table of plans, if there is one.
#[derive(Drop)]
pub struct Site<'a> {
    pub alloc: Global,
    /// The graph that is asked.
    pub graph: &'a Graph,
    /// The part of it that the answer is worked out on.
    pub part: Part<'a>,
    /// Where relations are kept for its questions.
    pub plans: Option<&'a Plans>,
    /// How many rows a relation may have.
    pub max_rows: u32,
}

impl<'a> Site<'a> {
    /// The whole of a graph, beside a table of plans.
    pub fn whole(alloc: Global, graph: &'a Graph, plans: &'a Plans, max_rows: u32) -> Site<'a>
        ensures graph { result.graph.now ≡ graph.now }
        ensures part { result.part ≡ graph.now }
        ensures limit { result.max_rows ≡ max_rows }
    {
        Site {
            alloc,
            graph,
            part: Part::whole(graph),
            plans: Some(plans),
            max_rows,
        }
    }

    /// What is said of a query: nothing where no graph is begun.
    ///
    /// # Errors
    ///
    /// If memory runs out.
    pub fn explain<C: Clock>(&self, query: &Query, clock: &mut C) -> Result<Explained, AllocError>
        requires in_range { IsPathInRange (path_term query.now.path) }
        requires terms { path_size (path_term query.now.path) ≤ MAX_TERMS }
        ensures front { IsSome self.now.part.begun → IfOk result (λ said.
            IsFront self.now.part self.now.max_rows (option_map (λ r. r.now) self.now.plans) (path_term query.now.path) said.front.items) }
        ensures hints { IsSome self.now.part.begun → IfOk result (λ said. AreHintLines self.now.graph.now (path_term query.now.path) said.hints.items) }
        ensures rows { IsSome self.now.part.begun → IfOk result (λ said. IfSome said.rows (λ n.
            HasRowCount self.now.part self.now.max_rows (narrowed_member (path_term query.now.path) All All) n)) }
        ensures wide { IsSome self.now.part.begun → IfOk result (λ said. IsNone said.rows → SomeIsWide self.now.part self.now.max_rows (worked (path_term query.now.path) All All)) }
        ensures needed { IsSome self.now.part.begun → IfOk result (λ said. IfSome said.needed (λ n. MustHave self.now.part (path_term query.now.path) USUAL_ROWS n)) }
        ensures no_front { IsNone self.now.part.begun → IfOk result (λ said. said.front.items ≡ []) }
        ensures no_hints { IsNone self.now.part.begun → IfOk result (λ said. said.hints.items ≡ []) }
        ensures no_rows { IsNone self.now.part.begun → IfOk result (λ said. said.rows ≡ None) }
        ensures none_needed { IsNone self.now.part.begun → IfOk result (λ said. said.needed ≡ None) }
    {
        if self.part.horizon().is_none() {
            return Ok(Explained::nothing(self.alloc));
        }
        let counted = count_members(self.alloc, &self.part, query, self.max_rows, clock)?;
        law_of_shared_nodes(&counted.plans);
        let rows = counted.rows();
        let needed = rows_needed(&counted.members, USUAL_ROWS);
        let front = self.front(query, counted)?;
        let hints = self.hints(query)?;
        Ok(Explained {
            front,
            hints,
            rows,
            needed,
        })
    }

    // The path, and its members.
    fn front(&self, query: &Query, counted: Counted) -> Result<Vec<u8>, AllocError>
        requires terms { path_size (path_term query.now.path) ≤ MAX_TERMS }
        requires counts { AreCountsOf self.now.part self.now.max_rows (path_term query.now.path) counted.plans.nodes counted.root.0 (counts_of counted.members.items) }
        requires children { HaveChildren counted.plans.nodes counted.members.items }
        ensures { IfOk result (λ text. IsFront self.now.part self.now.max_rows (option_map (λ r. r.now) self.now.plans) (path_term query.now.path) text.items) }
    {
        let root = counted.root;
        let kept = are_kept(self.alloc, &counted.plans, self.plans)?;
        let place = counted.first_over();
        let tree = Tree {
            alloc: self.alloc,
            counted,
            kept,
            max_rows: self.max_rows,
        };
        let mut text = Vec::new(self.alloc);
        let path = path_text(self.alloc, &query.path)?;
        add_line(&mut text, "path", &path)?;
        tree.add_path(&mut text, &query.path, root, 0)?;
        add_wide(&mut text, place)?;
        Ok(text)
    }

    // A line for each hint.
    fn hints(&self, query: &Query) -> Result<Vec<u8>, AllocError>
        ensures { IfOk result (λ text. AreHintLines self.now.graph.now (path_term query.now.path) text.items) }
    {
        let hints = hints_of(self.alloc, self.graph, query)?;
        let mut text = Vec::new(self.alloc);
        add_hints(&mut text, self.alloc, &hints)?;
        Ok(text)
    }
}

// Adds a line for each hint.
fn add_hints(text: &mut Vec<u8>, alloc: Global, hints: &[Hint]) -> Result<(), AllocError>
    ensures { OnOk result (text.new.items ≡ text.old.items ++ hints_text hints.now) }
{
    for hint in hints {
        let line = hint.text(alloc)?;
        add_line(text, "hint", &line)?;
    }
    Ok(())
}
