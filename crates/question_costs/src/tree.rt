//! The members of a question, as a tree.
ghost use Rattle.std.specs.Prelude.{◌≡◌, ◌+◌, ◌++◌, ◌≤◌, length, slice_get, option_map, IfOk, OnOk};
ghost use Rattle.path_ast.specs.Terms.{path_term, test_term};
ghost use Rattle.path_ast.specs.Sizes.{path_size, test_size};
ghost use Rattle.path_ast.specs.declared.counts.TheConstants.{MAX_TERMS};
ghost use Rattle.question_costs.specs.Texts.{wide_text};
ghost use Rattle.question_costs.specs.Trees.{shown_of, tree_text, parts_text, conditions_in, line_at, told_at, part_at};
ghost use Rattle.question_costs.specs.Kept.{is_kept_at};

use crate::Counted;
use crate::text::{add, add_indent, add_named};
use crate::told::Told;
use path_ast::{Path, Test};
use plan_cache::PlanNo;
use std::alloc::{AllocError, Global};

/// The members of a question, and of each whether its relation was kept before it was asked.
#[derive(Drop)]
pub(crate) struct Tree {
    pub(crate) alloc: Global,
    pub(crate) counted: Counted,
    pub(crate) kept: Vec<bool>,
    pub(crate) max_rows: u32,
}

impl Tree {
    /// Adds a line for the node of a path, and below it those of the path's parts.
    #[cycle(tree)]
    pub(crate) fn add_path(
        &self,
        text: &mut Vec<u8>,
        path: &Path,
        no: PlanNo,
        depth: usize,
    ) -> Result<(), AllocError>
        requires { depth + path_size (path_term path.now) ≤ MAX_TERMS }
        ensures { OnOk result (text.new.items ≡ text.old.items ++ tree_text (shown_of self.now) (path_term path.now) no.0 depth) }
    {
        self.add_member(text, path, no, depth)?;
        match path {
            Path::Test(test) => self.add_test(text, test, no, depth),
            Path::F | Path::B | Path::N | Path::P => Ok(()),
            Path::Seq(one, other) | Path::Alt(one, other) => {
                self.add_two(text, one, other, no, depth)
            }
            Path::Repeat { body, .. } => self.add_path(text, body, self.part(no, 0), depth + 1),
        }
    }

    // Adds the lines of the two paths of a member.
    #[cycle(tree)]
    fn add_two(
        &self,
        text: &mut Vec<u8>,
        one: &Path,
        other: &Path,
        no: PlanNo,
        depth: usize,
    ) -> Result<(), AllocError>
        requires { depth + path_size (path_term one.now) + path_size (path_term other.now) + 1 ≤ MAX_TERMS }
        ensures { OnOk result (text.new.items ≡ text.old.items ++
            (tree_text (shown_of self.now) (path_term one.now) (part_at (shown_of self.now) no.0 0) (depth + 1)
            ++ tree_text (shown_of self.now) (path_term other.now) (part_at (shown_of self.now) no.0 1) (depth + 1))) }
    {
        self.add_path(text, one, self.part(no, 0), depth + 1)?;
        self.add_path(text, other, self.part(no, 1), depth + 1)
    }

    // Adds the lines of a test's conditions.
    #[cycle(tree)]
    fn add_test(
        &self,
        text: &mut Vec<u8>,
        test: &Test,
        no: PlanNo,
        depth: usize,
    ) -> Result<(), AllocError>
        requires { depth + test_size (test_term test.now) ≤ MAX_TERMS }
        ensures { OnOk result (text.new.items ≡ text.old.items ++ parts_text (shown_of self.now) (test_term test.now) no.0 0 (depth + 1)) }
    {
        self.add_parts(text, test, no, 0, depth + 1)?;
        Ok(())
    }

    // Adds the lines of a test's conditions from a place on, and gives the place behind them.
    #[cycle(tree)]
    fn add_parts(
        &self,
        text: &mut Vec<u8>,
        test: &Test,
        no: PlanNo,
        place: usize,
        depth: usize,
    ) -> Result<usize, AllocError>
        requires depth { depth + test_size (test_term test.now) ≤ MAX_TERMS + 1 }
        requires place { place + test_size (test_term test.now) ≤ MAX_TERMS }
        ensures added { OnOk result (text.new.items ≡ text.old.items ++ parts_text (shown_of self.now) (test_term test.now) no.0 place depth) }
        ensures next { IfOk result (λ next. next ≡ place + conditions_in (test_term test.now)) }
        ensures within { IfOk result (λ next. next ≤ place + test_size (test_term test.now)) }
    {
        match test {
            Test::Leaf(_) => Ok(place),
            Test::Cond(path) => {
                self.add_path(text, path, self.part(no, place), depth)?;
                Ok(place + 1)
            }
            Test::And(one, other) | Test::Or(one, other) => {
                self.add_both(text, one, other, no, place, depth)
            }
            Test::Not(negated) => self.add_parts(text, negated, no, place, depth),
        }
    }

    // The same of two tests.
    #[cycle(tree)]
    fn add_both(
        &self,
        text: &mut Vec<u8>,
        one: &Test,
        other: &Test,
        no: PlanNo,
        place: usize,
        depth: usize,
    ) -> Result<usize, AllocError>
        requires depth { depth + test_size (test_term one.now) + test_size (test_term other.now) ≤ MAX_TERMS }
        requires place { place + test_size (test_term one.now) + test_size (test_term other.now) ≤ MAX_TERMS }
        ensures added { OnOk result (text.new.items ≡ text.old.items ++
            (parts_text (shown_of self.now) (test_term one.now) no.0 place depth ++ parts_text (shown_of self.now) (test_term other.now) no.0 (place + conditions_in (test_term one.now)) depth)) }
        ensures next { IfOk result (λ next. next ≡ place + (conditions_in (test_term one.now) + conditions_in (test_term other.now))) }
        ensures within { IfOk result (λ next. next ≤ place + test_size (test_term one.now) + test_size (test_term other.now)) }
    {
        let next = self.add_parts(text, one, no, place, depth)?;
        self.add_parts(text, other, no, next, depth)
    }

    // Adds the line of a member, if there is one.
    fn add_member(
        &self,
        text: &mut Vec<u8>,
        path: &Path,
        no: PlanNo,
        depth: usize,
    ) -> Result<(), AllocError>
        requires { depth ≤ MAX_TERMS }
        ensures { OnOk result (text.new.items ≡ text.old.items ++ line_at (shown_of self.now) (path_term path.now) no.0 depth) }
    {
        match self.told(no) {
            Some(told) => {
                add_indent(text, depth)?;
                told.add_to(text, self.alloc, self.max_rows, path)
            }
            None => Ok(()),
        }
    }

    // What is told of a member, if there is one.
    fn told(&self, no: PlanNo) -> Option<Told<'_>>
        ensures { option_map (λ t. record { number = t.number; count = t.count; micros = t.micros; is_kept = t.is_kept; sources = t.sources.now; targets = t.targets.now }) result
            ≡ told_at (shown_of self.now) no.0 }
    {
        if no.0 >= self.counted.plans.len() {
            return None;
        }
        let member = self.counted.members.get(no.0 as usize)?;
        let (sources, targets) = self.counted.plans.scopes(no);
        Some(Told {
            number: no.0,
            count: member.count,
            micros: member.micros,
            is_kept: self.is_kept(no),
            sources,
            targets,
        })
    }

    // Whether the member's relation was kept.
    fn is_kept(&self, no: PlanNo) -> bool
        ensures { result ≡ is_kept_at self.now.kept.items no.0 }
    {
        self.kept.get(no.0 as usize).copied().unwrap_or(false)
    }

    // The part of a member at a place.
    fn part(&self, no: PlanNo, place: usize) -> PlanNo
        ensures { result.0 ≡ part_at (shown_of self.now) no.0 place }
    {
        match self.counted.members.get(no.0 as usize) {
            Some(member) => member
                .children
                .get(place)
                .copied()
                .unwrap_or(PlanNo(u32::MAX)),
            None => PlanNo(u32::MAX),
        }
    }
}

/// Adds a line that names the first member that is over, if there is one.
pub(crate) fn add_wide(text: &mut Vec<u8>, place: Option<usize>) -> Result<(), AllocError>
    ensures { OnOk result (text.new.items ≡ text.old.items ++ wide_text place) }
{
    match place {
        Some(place) => {
            add_named(text, b"wide member ", place as u64)?;
            add(text, b"\n")
        }
        None => Ok(()),
    }
}
