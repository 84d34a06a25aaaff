//! The text of a scope.
ghost use Rattle.std.specs.Prelude.{◌≡◌, ◌++◌, IfOk, OnOk};
ghost use Rattle.path_text.specs.ScopeTexts.{text_of_scope, labels_text, more_labels};

use crate::pushing::push;
use itpg_base::Name;
use label_scope::Scope;
use std::alloc::{AllocError, Global};

/// `all`, `none`, or the labels of the scope joined by `+`, rising: `Person+Room`.
///
/// `Err` comes only if memory runs out.
pub fn scope_text(alloc: Global, scope: &Scope) -> Result<Vec<u8>, AllocError>
    ensures { IfOk result (λ text. text.items ≡ text_of_scope scope.now) }
{
    match scope {
        Scope::All => Vec::from_slice(alloc, b"all"),
        Scope::These(labels) => joined(alloc, labels.names()),
    }
}

// The labels joined by `+`, or `none`.
fn joined(alloc: Global, labels: &[Name]) -> Result<Vec<u8>, AllocError>
    ensures { IfOk result (λ text. text.items ≡ labels_text labels.now) }
{
    let Some((first, rest)) = labels.split_first() else {
        return Vec::from_slice(alloc, b"none");
    };
    let mut text = Vec::from_slice(alloc, first.bytes())?;
    push_labels(&mut text, rest)?;
    Ok(text)
}

// The labels, each behind a `+`.
fn push_labels(text: &mut Vec<u8>, labels: &[Name]) -> Result<(), AllocError>
    ensures { OnOk result (text.new.items ≡ text.old.items ++ more_labels labels.now) }
{
    for label in labels {
        push(text, b"+")?;
        push(text, label.bytes())?;
    }
    Ok(())
}
