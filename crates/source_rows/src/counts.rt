//! How many steps a path can take.

ghost use Rattle.std.specs.Prelude.{◌≡◌, ◌+◌, max};
ghost use Rattle.path_ast.specs.Terms.{path_term, test_term};
ghost use Rattle.source_rows.specs.Steps.{path_steps, test_steps, capped as capped_at, together, repeated_steps};

use path_ast::{Path, Test};

/// A greater number of steps is taken as unbounded.
const MOST_STEPS: u64 = 1_000_000;

/// How many steps from an object to another a path can take at most; `None` exactly where that is unbounded.
///
/// A step goes from a node to an edge of which it is an end, or back. `F/F[0,3]` has at most 4 steps, `N[0,_]` none, and
/// `F[0,_]` no bound.
#[cycle(steps)]
pub fn steps(path: &Path) -> Option<u64>
    ensures { result ≡ path_steps (path_term path.now) }
{
    match path {
        Path::Test(test) => steps_of_test(test),
        Path::F | Path::B => Some(1),
        Path::N | Path::P => Some(0),
        Path::Seq(a, b) => sum(steps(a), steps(b)),
        Path::Alt(a, b) => greater(steps(a), steps(b)),
        Path::Repeat { body, most, .. } => repeated(steps(body), *most),
    }
}

#[cycle(steps)]
fn steps_of_test(test: &Test) -> Option<u64>
    ensures { result ≡ test_steps (test_term test.now) }
{
    match test {
        Test::Cond(path) => steps(path),
        Test::And(a, b) | Test::Or(a, b) => greater(steps_of_test(a), steps_of_test(b)),
        Test::Not(a) => steps_of_test(a),
        _ => Some(0),
    }
}

fn capped(steps: u64) -> Option<u64>
    ensures { result ≡ capped_at steps }
{
    if steps <= MOST_STEPS {
        Some(steps)
    } else {
        None
    }
}

fn sum(a: Option<u64>, b: Option<u64>) -> Option<u64>
    ensures { result ≡ together (λ m n. m + n) a b }
{
    capped(a?.saturating_add(b?))
}

fn greater(a: Option<u64>, b: Option<u64>) -> Option<u64>
    ensures { result ≡ together max a b }
{
    capped(a?.max(b?))
}

fn repeated(body: Option<u64>, most: Option<u64>) -> Option<u64>
    ensures { result ≡ repeated_steps body most }
{
    match body? {
        0 => Some(0),
        once => capped(most?.saturating_mul(once)),
    }
}
