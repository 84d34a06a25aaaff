//! How many terms a path has.

ghost use Rattle.std.specs.Prelude.{◌≡◌, ◌≤◌};
ghost use Rattle.path_ast.specs.Terms.{path_term, test_term};
ghost use Rattle.path_ast.specs.Sizes.{path_size, test_size};

use crate::ast::{Path, Test};

/// How many terms the path of a query may have.
pub const MAX_TERMS: usize = 1_024;

/// The number of paths and tests in a path, where a path that is a test counts only its test.
///
/// The path has at most 100,000 of them. `F/:meets` has three: the sequence, the axis and the test.
#[cycle(terms)]
pub fn terms(path: &Path) -> usize
    requires { path_size (path_term path.now) ≤ 100000 }
    ensures { result ≡ path_size (path_term path.now) }
{
    match path {
        Path::Test(test) => test_terms(test),
        Path::F | Path::B | Path::N | Path::P => 1,
        Path::Seq(a, b) | Path::Alt(a, b) => terms(a) + terms(b) + 1,
        Path::Repeat { body, .. } => terms(body) + 1,
    }
}

#[cycle(terms)]
fn test_terms(test: &Test) -> usize
    requires { test_size (test_term test.now) ≤ 100000 }
    ensures { result ≡ test_size (test_term test.now) }
{
    match test {
        Test::Cond(path) => terms(path) + 1,
        Test::And(a, b) | Test::Or(a, b) => test_terms(a) + test_terms(b) + 1,
        Test::Not(a) => test_terms(a) + 1,
        Test::Leaf(_) => 1,
    }
}
