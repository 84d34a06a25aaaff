//! Paths and tests of two parts, and of one.
ghost use Rattle.std.specs.Prelude.{◌≡◌, Option, Some, None, ℕ, IfOk};
ghost use Rattle.path_ast.specs.Terms.{path_term, OfTest, Sequence, Choice, Repetition, Forward, Backward, Next, Previous};
ghost use Rattle.path_ast.specs.Terms.{test_term, IsBelow, Condition, Conjunction, Disjunction, Negation, DoesExist};
ghost use Rattle.match_parser.specs.Translation.{axis_path, node_test};
ghost use Rattle.match_parser.specs.Parsing.{repeated};

use crate::words::Axis;
use path_ast::{Leaf, Path, Test};
use std::alloc::{AllocError, Global};

pub(crate) fn sequence(alloc: Global, a: Path, b: Path) -> Result<Path, AllocError>
    ensures { IfOk result (λ path. path_term path ≡ Sequence (path_term a) (path_term b)) }
{
    Ok(Path::Seq(Box::new(alloc, a)?, Box::new(alloc, b)?))
}

pub(crate) fn choice(alloc: Global, a: Path, b: Path) -> Result<Path, AllocError>
    ensures { IfOk result (λ path. path_term path ≡ Choice (path_term a) (path_term b)) }
{
    Ok(Path::Alt(Box::new(alloc, a)?, Box::new(alloc, b)?))
}

// The path as it is, or so many times.
pub(crate) fn repeat(
    alloc: Global,
    path: Path,
    times: Option<(u64, Option<u64>)>,
) -> Result<Path, AllocError>
    ensures { IfOk result (λ whole. path_term whole ≡ repeated times (path_term path)) }
{
    match times {
        Some((least, most)) => Ok(Path::Repeat {
            body: Box::new(alloc, path)?,
            least,
            most,
        }),
        None => Ok(path),
    }
}

pub(crate) fn of_test(alloc: Global, test: Test) -> Result<Path, AllocError>
    ensures { IfOk result (λ path. path_term path ≡ OfTest (test_term test)) }
{
    Ok(Path::Test(Box::new(alloc, test)?))
}

pub(crate) fn condition(alloc: Global, path: Path) -> Result<Test, AllocError>
    ensures { IfOk result (λ test. test_term test ≡ Condition (path_term path)) }
{
    Ok(Test::Cond(Box::new(alloc, path)?))
}

pub(crate) fn both(alloc: Global, a: Test, b: Test) -> Result<Test, AllocError>
    ensures { IfOk result (λ test. test_term test ≡ Conjunction (test_term a) (test_term b)) }
{
    Ok(Test::And(Box::new(alloc, a)?, Box::new(alloc, b)?))
}

pub(crate) fn either(alloc: Global, a: Test, b: Test) -> Result<Test, AllocError>
    ensures { IfOk result (λ test. test_term test ≡ Disjunction (test_term a) (test_term b)) }
{
    Ok(Test::Or(Box::new(alloc, a)?, Box::new(alloc, b)?))
}

pub(crate) fn negation(alloc: Global, a: Test) -> Result<Test, AllocError>
    ensures { IfOk result (λ test. test_term test ≡ Negation (test_term a)) }
{
    Ok(Test::Not(Box::new(alloc, a)?))
}

// The test that every pattern begins with: a node that exists.
pub(crate) fn node(alloc: Global) -> Result<Test, AllocError>
    ensures { IfOk result (λ test. test_term test ≡ node_test) }
{
    both(alloc, Test::Leaf(Leaf::Node), Test::Leaf(Leaf::Exists))
}

// The step that a word is.
pub(crate) fn step(alloc: Global, axis: Axis) -> Result<Path, AllocError>
    ensures { IfOk result (λ path. path_term path ≡ axis_path axis) }
{
    match axis {
        Axis::Fwd => existing(alloc, Path::F),
        Axis::Bwd => existing(alloc, Path::B),
        Axis::Next => existing(alloc, Path::N),
        Axis::Prev => existing(alloc, Path::P),
        Axis::F => Ok(Path::F),
        Axis::B => Ok(Path::B),
        Axis::N => Ok(Path::N),
        Axis::P => Ok(Path::P),
    }
}

// The path, to where the object exists.
fn existing(alloc: Global, path: Path) -> Result<Path, AllocError>
    ensures { IfOk result (λ whole. path_term whole ≡ Sequence (path_term path) (OfTest DoesExist)) }
{
    let exists = of_test(alloc, Test::Leaf(Leaf::Exists))?;
    sequence(alloc, path, exists)
}
