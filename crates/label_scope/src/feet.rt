//! The footprint of a path.
//!
//! It is worked out along the path as the relation is: each part between the scopes that its place leaves.
ghost use Rattle.std.specs.Prelude.{◌≡◌, IfOk};
ghost use Rattle.path_ast.specs.Terms.{path_term, test_term, Sequence, Choice, Conjunction};
ghost use Rattle.label_scope.specs.Members.{passed as passed_scope};
ghost use Rattle.label_scope.specs.Footprints.{footprint, footprint_between, with_shape, asked_of};

use crate::between::{middle, passed};
use crate::footprint::Footprint;
use crate::paths::narrow;
use crate::scope::Scope;
use path_ast::{Path, Test};
use std::alloc::{AllocError, Global};

/// What the relation of the path between two scopes can depend on, beyond the horizon.
///
/// ```text
///     F                             between {Person} and All      shape All: an edge of any label may begin at a person
///     F/:meets                      between {Person} and All      shape {Person, meets}
///     {EXISTS}                      between {Person} and All      shape {Person}, live {Person}
///     (:Person/F/:Person)[0,2]      between {Room} and {Door}     shape {Door, Person, Room}: all that it may pass
/// ```
#[cycle(footprints)]
pub fn foot(alloc: Global, path: &Path, a: &Scope, b: &Scope) -> Result<Footprint, AllocError>
    ensures { IfOk result (λ foot. foot ≡ footprint (path_term path.now) a.now b.now) }
{
    let (sources, targets) = narrow(alloc, path, a, b)?;
    foot_between(alloc, path, &sources, &targets)
}

// The footprint of the path between scopes that are narrowed.
#[cycle(footprints)]
fn foot_between(alloc: Global, path: &Path, a: &Scope, b: &Scope) -> Result<Footprint, AllocError>
    ensures { IfOk result (λ foot. foot ≡ footprint_between (path_term path.now) a.now b.now) }
{
    match path {
        Path::Test(test) => asked_by(alloc, test, a)?.and_shape(alloc, a),
        Path::F | Path::B => Ok(Footprint::of_shape(alloc, a.join(alloc, b)?)),
        Path::N | Path::P => Ok(Footprint::of_shape(alloc, a.copy(alloc)?)),
        Path::Seq(first, second) => of_sequence(alloc, first, second, a, b),
        Path::Alt(one, other) => of_choice(alloc, one, other, a, b),
        Path::Repeat { body, .. } => of_repetition(alloc, body, a, b),
    }
}

// The footprint of the first path and then the second.
#[cycle(footprints)]
fn of_sequence(
    alloc: Global,
    first: &Path,
    second: &Path,
    a: &Scope,
    b: &Scope,
) -> Result<Footprint, AllocError>
    ensures { let p = path_term first.now in let q = path_term second.now in
        IfOk result (λ foot. foot ≡ footprint_between (Sequence p q) a.now b.now) }
{
    let meeting = middle(alloc, first, second, a, b)?;
    let earlier = foot(alloc, first, a, &meeting)?;
    let later = foot(alloc, second, &meeting, b)?;
    earlier.or(alloc, &later)
}

// The footprint of one path or the other.
#[cycle(footprints)]
fn of_choice(
    alloc: Global,
    one: &Path,
    other: &Path,
    a: &Scope,
    b: &Scope,
) -> Result<Footprint, AllocError>
    ensures { let p = path_term one.now in let q = path_term other.now in
        IfOk result (λ foot. foot ≡ footprint_between (Choice p q) a.now b.now) }
{
    let by_one = foot(alloc, one, a, b)?;
    let by_other = foot(alloc, other, a, b)?;
    by_one.or(alloc, &by_other)
}

// The footprint of a body that is repeated, however often.
#[cycle(footprints)]
fn of_repetition(alloc: Global, body: &Path, a: &Scope, b: &Scope) -> Result<Footprint, AllocError>
    ensures { let r = path_term body.now in let u = passed_scope r (record { sources = a.now; targets = b.now }) in
        IfOk result (λ foot. foot ≡ with_shape u (footprint r u u)) }
{
    let within = passed(alloc, body, a, b)?;
    foot(alloc, body, &within, &within)?.and_shape(alloc, &within)
}

// What the test asks of the objects of the scope beyond their shape.
#[cycle(footprints)]
fn asked_by(alloc: Global, test: &Test, scope: &Scope) -> Result<Footprint, AllocError>
    ensures { IfOk result (λ asked. asked ≡ asked_of (test_term test.now) scope.now) }
{
    match test {
        Test::Leaf(leaf) => Footprint::of_leaf(alloc, leaf, scope),
        Test::Cond(path) => foot(alloc, path, scope, &Scope::All),
        Test::And(one, other) | Test::Or(one, other) => asked_by_both(alloc, one, other, scope),
        Test::Not(negated) => asked_by(alloc, negated, scope),
    }
}

// What either test asks.
#[cycle(footprints)]
fn asked_by_both(
    alloc: Global,
    one: &Test,
    other: &Test,
    scope: &Scope,
) -> Result<Footprint, AllocError>
    ensures { let c = test_term one.now in let d = test_term other.now in
        IfOk result (λ asked. asked ≡ asked_of (Conjunction c d) scope.now) }
{
    let by_one = asked_by(alloc, one, scope)?;
    let by_other = asked_by(alloc, other, scope)?;
    by_one.or(alloc, &by_other)
}
