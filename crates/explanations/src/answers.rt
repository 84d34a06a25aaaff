//! The hints that stand behind those of a question's form: they need its answer, or the graph's horizon.
ghost use Rattle.std.specs.Prelude.{◌≤◌, IsSome};
ghost use Rattle.path_ast.specs.Terms.{path_term};
ghost use Rattle.path_ast.specs.Sizes.{path_size, IsPathInRange};
ghost use Rattle.path_ast.specs.declared.counts.TheConstants.{MAX_TERMS};

use answer_hints::{AnswerHint, enough_times, existence_rules_out, limit_that_does};
use path_ast::Query;
use question_costs::{Explained, Site, add_line};
use question_hints::unreached_horizon;
use std::alloc::AllocError;

/// Adds these hints to what is said of a query on a site, if a graph is begun there.
///
/// # Errors
///
/// If memory runs out.
pub(crate) fn add_answer_hints(
    said: &mut Explained,
    site: &Site<'_>,
    query: &Query,
) -> Result<(), AllocError>
    requires in_range { IsPathInRange (path_term query.now.path) }
    requires terms { path_size (path_term query.now.path) ≤ MAX_TERMS }
{
    if site.part.horizon().is_none() {
        return Ok(());
    }
    add_existence(said, site, query)?;
    add_repetitions(said, site, query)?;
    add_horizon(said, site, query)?;
    add_limit(said, site, query)
}

// Adds that only existence rules all out, where there are no rows.
fn add_existence(said: &mut Explained, site: &Site<'_>, query: &Query) -> Result<(), AllocError>
    requires begun { IsSome site.now.part.begun }
    requires in_range { IsPathInRange (path_term query.now.path) }
    requires terms { path_size (path_term query.now.path) ≤ MAX_TERMS }
{
    if said.rows == Some(0) && existence_rules_out(site.alloc, &site.part, query, site.max_rows)? {
        add_hint(said, &AnswerHint::AtAnyMoment.text(site.alloc)?)?;
    }
    Ok(())
}

// Adds for each repetition from how many times on it adds nothing.
fn add_repetitions(said: &mut Explained, site: &Site<'_>, query: &Query) -> Result<(), AllocError>
    requires begun { IsSome site.now.part.begun }
    requires in_range { IsPathInRange (path_term query.now.path) }
    requires terms { path_size (path_term query.now.path) ≤ MAX_TERMS }
{
    for enough in &enough_times(site.alloc, &site.part, query, site.max_rows)? {
        add_hint(said, &enough.text(site.alloc)?)?;
    }
    Ok(())
}

// Adds which moments all lives are within, where the path can pass others.
fn add_horizon(said: &mut Explained, site: &Site<'_>, query: &Query) -> Result<(), AllocError> {
    match unreached_horizon(site.graph, query) {
        Some(lives) => add_hint(said, &lives.text(site.alloc)?),
        None => Ok(()),
    }
}

// Adds the limit of rows that does, where it is above the usual one.
fn add_limit(said: &mut Explained, site: &Site<'_>, query: &Query) -> Result<(), AllocError>
    requires begun { IsSome site.now.part.begun }
    requires in_range { IsPathInRange (path_term query.now.path) }
    requires terms { path_size (path_term query.now.path) ≤ MAX_TERMS }
{
    let Some(needed) = said.needed else {
        return Ok(());
    };
    match limit_that_does(site.alloc, &site.part, query, needed)? {
        Some(rows) => add_hint(
            said,
            &AnswerHint::NeedsMore(u64::from(rows)).text(site.alloc)?,
        ),
        None => Ok(()),
    }
}

// Adds a line.
fn add_hint(said: &mut Explained, text: &[u8]) -> Result<(), AllocError> {
    add_line(&mut said.hints, "hint", text)
}
