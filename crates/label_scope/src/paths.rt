//! The scopes in which a path can start and end.
ghost use Rattle.std.specs.Prelude.{◌≡◌, ◌&&◌, IfOk};
ghost use Rattle.path_ast.specs.Terms.{path_term, test_term};
ghost use Rattle.path_ast.specs.Meaning.{keeps_object};
ghost use Rattle.label_scope.specs.declared.scope.Scope.TheVariants.{All};
ghost use Rattle.label_scope.specs.Scopes.{met, met_where, joined, unless_never, source_scope, target_scope, test_scope};
ghost use Rattle.label_scope.specs.Sides.{scope_at};
ghost use Rattle.label_scope.specs.Narrowing.{narrowed};

use crate::scope::Scope;
use path_ast::{Leaf, Path, Test};
use std::alloc::{AllocError, Global};

// At which end of a path.
#[derive(Clone, Copy)]
enum PathEnd {
    Start,
    Finish,
}

// One end of a path: the scope in which it can be, and whether the path keeps its object. Both are found in one walk along the
// path, because what stands behind a part counts only where the part keeps its object.
#[derive(Drop)]
struct Side {
    scope: Scope,
    keeps: bool,
}

fn anywhere(keeps: bool) -> Side
    ensures scope { result.scope ≡ All }
    ensures keeps { result.keeps ≡ keeps }
{
    Side {
        scope: Scope::All,
        keeps,
    }
}

// One end of a path.
#[cycle(scopes)]
fn side_of(alloc: Global, end: PathEnd, path: &Path) -> Result<Side, AllocError>
    ensures scope { IfOk result (λ side. side.scope ≡ scope_at end (path_term path.now)) }
    ensures keeps { IfOk result (λ side. side.keeps ≡ keeps_object (path_term path.now)) }
{
    match path {
        Path::Test(test) => Ok(Side {
            scope: test_src(alloc, test)?,
            keeps: true,
        }),
        Path::N | Path::P => Ok(anywhere(true)),
        Path::F | Path::B => Ok(anywhere(false)),
        Path::Seq(first, second) => match end {
            PathEnd::Start => side_along(alloc, end, first, second),
            PathEnd::Finish => side_along(alloc, end, second, first),
        },
        Path::Alt(one, other) => {
            let by_one = side_of(alloc, end, one)?;
            let by_other = side_of(alloc, end, other)?;
            either_side(alloc, &by_one, &by_other)
        }
        Path::Repeat { body, least, .. } => {
            let once = side_of(alloc, end, body)?;
            Ok(repeated_side(once, *least))
        }
    }
}

// The end of a sequence at which the nearer of its parts stands.
#[cycle(scopes)]
fn side_along(alloc: Global, end: PathEnd, near: &Path, far: &Path) -> Result<Side, AllocError>
    ensures scope { let at = scope_at end in let own = path_term near.now in let behind = path_term far.now in
        IfOk result (λ side. side.scope ≡ met_where (keeps_object own) (at own) (at behind)) }
    ensures keeps { let keeps = keeps_object in
        IfOk result (λ side. side.keeps ≡ (keeps (path_term near.now) && keeps (path_term far.now))) }
{
    let own = side_of(alloc, end, near)?;
    if own.keeps {
        let behind = side_of(alloc, end, far)?;
        both_sides(alloc, &own, &behind)
    } else {
        Ok(own)
    }
}

// The side of a sequence where its nearer part keeps its object.
fn both_sides(alloc: Global, near: &Side, far: &Side) -> Result<Side, AllocError>
    ensures scope { IfOk result (λ side. side.scope ≡ met near.now.scope far.now.scope) }
    ensures keeps { IfOk result (λ side. side.keeps ≡ far.now.keeps) }
{
    Ok(Side {
        scope: near.scope.meet(alloc, &far.scope)?,
        keeps: far.keeps,
    })
}

// The side of a choice.
fn either_side(alloc: Global, one: &Side, other: &Side) -> Result<Side, AllocError>
    ensures scope { IfOk result (λ side. side.scope ≡ joined one.now.scope other.now.scope) }
    ensures keeps { IfOk result (λ side. side.keeps ≡ (one.now.keeps && other.now.keeps)) }
{
    Ok(Side {
        scope: one.scope.join(alloc, &other.scope)?,
        keeps: one.keeps && other.keeps,
    })
}

// The side of a repetition, by that of its body.
fn repeated_side(once: Side, least: u64) -> Side
    ensures scope { result.scope ≡ unless_never least once.scope }
    ensures keeps { result.keeps ≡ once.keeps }
{
    if least > 0 {
        once
    } else {
        anywhere(once.keeps)
    }
}

/// The scope in which the path can start.
///
/// ```text
///     :Person/F/:meets      {Person}: a test stays where it is, so what it asks holds at the start
///     F/:meets              All
///     (:Person/N)[0,3]      All: it may be repeated no time
///     (:Person/N)[1,3]      {Person}
/// ```
pub fn src(alloc: Global, path: &Path) -> Result<Scope, AllocError>
    ensures { IfOk result (λ scope. scope ≡ source_scope (path_term path.now)) }
{
    let Side { scope, .. } = side_of(alloc, PathEnd::Start, path)?;
    Ok(scope)
}

// The scope in which the test can hold.
#[cycle(scopes)]
fn test_src(alloc: Global, test: &Test) -> Result<Scope, AllocError>
    ensures { IfOk result (λ scope. scope ≡ test_scope (test_term test.now)) }
{
    match test {
        Test::Leaf(Leaf::Label(label)) => Scope::one(alloc, *label),
        Test::Cond(path) => {
            let Side { scope, .. } = side_of(alloc, PathEnd::Start, path)?;
            Ok(scope)
        }
        Test::And(one, other) => test_src(alloc, one)?.meet(alloc, &test_src(alloc, other)?),
        Test::Or(one, other) => test_src(alloc, one)?.join(alloc, &test_src(alloc, other)?),
        Test::Leaf(_) | Test::Not(_) => Ok(Scope::All),
    }
}

/// The scope in which the path can end.
pub fn tgt(alloc: Global, path: &Path) -> Result<Scope, AllocError>
    ensures { IfOk result (λ scope. scope ≡ target_scope (path_term path.now)) }
{
    let Side { scope, .. } = side_of(alloc, PathEnd::Finish, path)?;
    Ok(scope)
}

/// Whether the path keeps its object by its form: neither F nor B stands in it, but in a condition. It takes no memory.
pub fn keeps(path: &Path) -> bool
    ensures { result ≡ keeps_object (path_term path.now) }
{
    match path {
        Path::Test(_) | Path::N | Path::P => true,
        Path::F | Path::B => false,
        Path::Seq(first, second) => keeps(first) && keeps(second),
        Path::Alt(one, other) => keeps(one) && keeps(other),
        Path::Repeat { body, .. } => keeps(body),
    }
}

/// The scopes `a` and `b` for the sources and the targets of the path, without what the path's own labels rule out.
///
/// ```text
///     F/:meets between {Person} and All     {Person} and {meets}
///     N        between {Person} and All     {Person} and {Person}, since N keeps its object
/// ```
pub fn narrow(
    alloc: Global,
    path: &Path,
    a: &Scope,
    b: &Scope,
) -> Result<(Scope, Scope), AllocError>
    ensures sources { IfOk result (λ pair. pair.0 ≡ (narrowed (path_term path.now) a.now b.now).sources) }
    ensures targets { IfOk result (λ pair. pair.1 ≡ (narrowed (path_term path.now) a.now b.now).targets) }
{
    let start = side_of(alloc, PathEnd::Start, path)?;
    let sources = a.meet(alloc, &start.scope)?;
    let targets = b.meet(alloc, &tgt(alloc, path)?)?;
    if start.keeps {
        Ok((
            sources.meet(alloc, &targets)?,
            targets.meet(alloc, &sources)?,
        ))
    } else {
        Ok((sources, targets))
    }
}
