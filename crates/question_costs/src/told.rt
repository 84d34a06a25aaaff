//! The line of a member.
ghost use Rattle.std.specs.Prelude.{◌≡◌, ◌++◌, OnOk, take, codes};
ghost use Rattle.path_ast.specs.Terms.{path_term};
ghost use Rattle.path_text.specs.Texts.{text_of};
ghost use Rattle.path_text.specs.ScopeTexts.{text_of_scope};
ghost use Rattle.question_costs.specs.Texts.{cost_text, count_text, scopes_text, state_text, told_text};

use crate::Count;
use crate::text::{add, add_millis, add_named, add_number};
use label_scope::Scope;
use path_ast::Path;
use path_text::{path_text, scope_text};
use std::alloc::{AllocError, Global};

// How many bytes of a member's path are written at most.
const SHOWN: usize = 240;

/// What is told of a member.
#[derive(Drop)]
pub(crate) struct Told<'a> {
    /// The number of its node.
    pub(crate) number: u32,
    pub(crate) count: Count,
    /// The microseconds that its own step took.
    pub(crate) micros: u64,
    /// Whether its relation was kept before the question was asked.
    pub(crate) is_kept: bool,
    pub(crate) sources: &'a Scope,
    pub(crate) targets: &'a Scope,
}

impl Told<'_> {
    /// Adds the line of the member, which is the path's, with this limit of rows.
    #[tactic(auto, unfolding(crate::specs::Texts::told_text))]
    pub(crate) fn add_to(
        &self,
        text: &mut Vec<u8>,
        alloc: Global,
        limit: u32,
        path: &Path,
    ) -> Result<(), AllocError>
        ensures { OnOk result (text.new.items ≡ text.old.items ++ told_text limit
            (record { number = self.now.number; count = self.now.count; micros = self.now.micros; is_kept = self.now.is_kept; sources = self.now.sources.now; targets = self.now.targets.now })
            (path_term path.now)) }
    {
        self.add_cost(text, limit)?;
        add_scopes(text, alloc, self.sources, self.targets)?;
        add_path(text, alloc, path)
    }

    // Adds the number, the count, the state and the time.
    #[tactic(auto, unfolding(crate::specs::Texts::cost_text))]
    fn add_cost(&self, text: &mut Vec<u8>, limit: u32) -> Result<(), AllocError>
        ensures { OnOk result (text.new.items ≡ text.old.items ++ cost_text limit
            (record { number = self.now.number; count = self.now.count; micros = self.now.micros; is_kept = self.now.is_kept; sources = self.now.sources.now; targets = self.now.targets.now })) }
    {
        add(text, b"member ")?;
        add_number(text, u64::from(self.number))?;
        add(text, b" ")?;
        add_count(text, limit, self.count)?;
        add(text, b" ")?;
        add_state(text, self.is_kept)?;
        add(text, b" ")?;
        add_millis(text, self.micros)?;
        add(text, b" ")
    }
}

// Adds how many rows there are.
fn add_count(text: &mut Vec<u8>, limit: u32, count: Count) -> Result<(), AllocError>
    ensures { OnOk result (text.new.items ≡ text.old.items ++ count_text limit count) }
{
    match count {
        Count::Rows(rows) => add_named(text, b"rows ", rows),
        Count::Over => add_named(text, b"over ", u64::from(limit)),
        Count::Unknown => add(text, b"unknown"),
    }
}

// Adds whether a relation was kept.
fn add_state(text: &mut Vec<u8>, is_kept: bool) -> Result<(), AllocError>
    ensures { OnOk result (text.new.items ≡ text.old.items ++ state_text is_kept) }
{
    if is_kept {
        add(text, b"kept")
    } else {
        add(text, b"new")
    }
}

// Adds two scopes, each before a blank.
fn add_scopes(
    text: &mut Vec<u8>,
    alloc: Global,
    sources: &Scope,
    targets: &Scope,
) -> Result<(), AllocError>
    ensures { OnOk result (text.new.items ≡ text.old.items ++ scopes_text sources.now targets.now) }
{
    add(text, &scope_text(alloc, sources)?)?;
    add(text, b" ")?;
    add(text, &scope_text(alloc, targets)?)?;
    add(text, b" ")
}

// Adds the front of a path's text, and the line's end.
fn add_path(text: &mut Vec<u8>, alloc: Global, path: &Path) -> Result<(), AllocError>
    ensures { OnOk result (text.new.items ≡ text.old.items ++ (take 240 (text_of (path_term path.now)) ++ codes "\n")) }
{
    let mut own = path_text(alloc, path)?;
    own.truncate(SHOWN);
    add(text, &own)?;
    add(text, b"\n")
}
