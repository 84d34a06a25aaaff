//! The path in which no step along an edge asks that what it comes to exists.
ghost use Rattle.std.specs.Prelude.{◌≡◌, IfOk};
ghost use Rattle.path_ast.specs.Terms.{path_term, test_term, query_term, Sequence};
ghost use Rattle.answer_hints.specs.Relaxed.{is_step, is_existence, is_existence_test, relaxed, relaxed_test};

use path_ast::{Leaf, Path, Query, Test};
use std::alloc::{AllocError, Global};

/// The query in which each `F/{EXISTS}` is `F` and each `B/{EXISTS}` is `B`: so it is read where `F` is written for `FWD`, and
/// `B` for `BWD`.
///
/// ```text
///     MATCH (x)-/FWD/:meets/FWD/-(y)        MATCH (x)-/F/:meets/F/-(y)
/// ```
///
/// # Errors
///
/// If memory runs out.
pub fn without_existence(alloc: Global, query: &Query) -> Result<Query, AllocError>
    ensures path { IfOk result (λ free. path_term free.path ≡ relaxed (path_term query.now.path)) }
    ensures first { IfOk result (λ free. free.first ≡ query.now.first) }
    ensures last { IfOk result (λ free. free.last ≡ query.now.last) }
    ensures name { IfOk result (λ free. free.graph_name ≡ query.now.graph_name) }
{
    Ok(Query {
        first: query.first,
        last: query.last,
        path: relaxed_path(alloc, &query.path)?,
        graph_name: query.graph_name,
    })
}

#[cycle(relaxed)]
fn relaxed_path(alloc: Global, path: &Path) -> Result<Path, AllocError>
    ensures { IfOk result (λ free. path_term free ≡ relaxed (path_term path.now)) }
{
    match path {
        Path::Test(test) => Ok(Path::Test(boxed_test(alloc, test)?)),
        Path::F => Ok(Path::F),
        Path::B => Ok(Path::B),
        Path::N => Ok(Path::N),
        Path::P => Ok(Path::P),
        Path::Seq(a, b) => relaxed_pair(alloc, a, b),
        Path::Alt(a, b) => Ok(Path::Alt(boxed_path(alloc, a)?, boxed_path(alloc, b)?)),
        Path::Repeat { body, least, most } => Ok(Path::Repeat {
            body: boxed_path(alloc, body)?,
            least: *least,
            most: *most,
        }),
    }
}

// The first path and then the second, or the first alone where it is a step and the second asks for existence.
#[cycle(relaxed)]
fn relaxed_pair(alloc: Global, a: &Path, b: &Path) -> Result<Path, AllocError>
    ensures { IfOk result (λ free. path_term free ≡ relaxed (Sequence (path_term a.now) (path_term b.now))) }
{
    if leads_along_edge(a) && asks_existence(b) {
        return relaxed_path(alloc, a);
    }
    Ok(Path::Seq(boxed_path(alloc, a)?, boxed_path(alloc, b)?))
}

#[cycle(relaxed)]
fn boxed_path(alloc: Global, path: &Path) -> Result<Box<Path>, AllocError>
    ensures { IfOk result (λ free. path_term free.value ≡ relaxed (path_term path.now)) }
{
    Ok(Box::new(alloc, relaxed_path(alloc, path)?)?)
}

#[cycle(relaxed)]
fn relaxed_of_test(alloc: Global, test: &Test) -> Result<Test, AllocError>
    ensures { IfOk result (λ free. test_term free ≡ relaxed_test (test_term test.now)) }
{
    match test {
        Test::Leaf(leaf) => Ok(Test::Leaf(*leaf)),
        Test::Cond(path) => Ok(Test::Cond(boxed_path(alloc, path)?)),
        Test::And(a, b) => Ok(Test::And(boxed_test(alloc, a)?, boxed_test(alloc, b)?)),
        Test::Or(a, b) => Ok(Test::Or(boxed_test(alloc, a)?, boxed_test(alloc, b)?)),
        Test::Not(a) => Ok(Test::Not(boxed_test(alloc, a)?)),
    }
}

#[cycle(relaxed)]
fn boxed_test(alloc: Global, test: &Test) -> Result<Box<Test>, AllocError>
    ensures { IfOk result (λ free. test_term free.value ≡ relaxed_test (test_term test.now)) }
{
    Ok(Box::new(alloc, relaxed_of_test(alloc, test)?)?)
}

// Whether the path is a step along an edge, in either direction.
fn leads_along_edge(path: &Path) -> bool
    ensures { result ≡ is_step (path_term path.now) }
{
    matches!(path, Path::F | Path::B)
}

// Whether the path is the test of existence and nothing else.
fn asks_existence(path: &Path) -> bool
    ensures { result ≡ is_existence (path_term path.now) }
{
    match path {
        Path::Test(test) => is_exists(test),
        _ => false,
    }
}

fn is_exists(test: &Test) -> bool
    ensures { result ≡ is_existence_test (test_term test.now) }
{
    matches!(test, Test::Leaf(Leaf::Exists))
}
