//! All hints that a question can give, whatever the graph is.
ghost use Rattle.std.specs.Prelude.{◌≡◌, IfOk, OnOk};
ghost use Rattle.path_ast.specs.Terms.{path_term};
ghost use Rattle.label_scope.specs.Scopes.{source_scope, target_scope};
ghost use Rattle.question_hints.specs.Forms.{is_selective_last, with_hint_if, possible_hints};

use crate::asked::add_path_hints;
use crate::hint::Hint;
use crate::kinds::leads_nowhere;
use label_scope::{Scope, src, tgt};
use path_ast::Path;
use std::alloc::{AllocError, Global};

/// The hints that a question with the path can give, in their order, each once.
pub(crate) fn possible(alloc: Global, path: &Path) -> Result<Vec<Hint>, AllocError>
    ensures { IfOk result (λ hints. hints.items ≡ possible_hints (path_term path.now)) }
{
    let mut hints = Vec::new(alloc);
    add_path_hints(&mut hints, path)?;
    add_hint_if(&mut hints, leads_nowhere(path), Hint::EndsOnEdge)?;
    add_hint_if(
        &mut hints,
        selective_last(alloc, path)?,
        Hint::SelectiveEndLast,
    )?;
    Ok(hints)
}

// Puts the hint behind the others if the fact holds.
fn add_hint_if(hints: &mut Vec<Hint>, fact: bool, hint: Hint) -> Result<(), AllocError>
    ensures { OnOk result (hints.new.items ≡ with_hint_if fact hint hints.old.items) }
{
    if fact {
        hints.push(hint)?;
    }
    Ok(())
}

// Whether the path can start at every object, but ends at one of some labels.
fn selective_last(alloc: Global, path: &Path) -> Result<bool, AllocError>
    ensures { let p = path_term path.now in IfOk result (λ last. last ≡ is_selective_last (source_scope p) (target_scope p)) }
{
    let sources = src(alloc, path)?;
    let targets = tgt(alloc, path)?;
    Ok(is_last(&sources, &targets))
}

fn is_last(sources: &Scope, targets: &Scope) -> bool
    ensures { result ≡ is_selective_last sources.now targets.now }
{
    match (sources, targets) {
        (Scope::All, Scope::These(_)) => true,
        _ => false,
    }
}
