//! Whether a path passes time freely, by its form.
ghost use Rattle.std.specs.Prelude.{◌≡◌};
ghost use Rattle.path_ast.specs.Terms.{path_term, test_term, OfTest};
ghost use Rattle.question_hints.specs.Horizons.{begins_existing, before, within, unfollowed, path_passes, test_passes, passes_freely};

use path_ast::{Leaf, Path, Test};

/// Where in a path a part of it stands.
#[derive(Clone, Copy, Drop)]
pub(crate) struct Place {
    // Within a repetition without an upper end.
    endless: bool,
    // Right before the test {EXISTS}.
    existing: bool,
}

/// Whether the path can go through moments at which nothing exists, with no bound on how many: somewhere it has an N or P
/// within a repetition without an upper end that isn't followed by {EXISTS}.
pub(crate) fn is_free(path: &Path) -> bool
    ensures { result ≡ passes_freely (path_term path.now) }
{
    passes(path, place_unfollowed(false))
}

#[cycle(passing)]
fn passes(path: &Path, place: Place) -> bool
    ensures { result ≡ path_passes (path_term path.now) place }
{
    match path {
        Path::Test(test) => passes_in_test(test, place.endless),
        Path::F | Path::B => false,
        Path::N | Path::P => place.endless & !place.existing,
        Path::Seq(a, b) => passes(a, place_before(b, place)) || passes(b, place),
        Path::Alt(a, b) => passes(a, place) || passes(b, place),
        Path::Repeat { body, most, .. } => passes(body, place_within(*most, place)),
    }
}

#[cycle(passing)]
fn passes_in_test(test: &Test, endless: bool) -> bool
    ensures { result ≡ test_passes (test_term test.now) endless }
{
    match test {
        Test::Leaf(_) => false,
        Test::Cond(path) => passes(path, place_unfollowed(endless)),
        Test::And(a, b) | Test::Or(a, b) => {
            passes_in_test(a, endless) || passes_in_test(b, endless)
        }
        Test::Not(a) => passes_in_test(a, endless),
    }
}

fn place_before(next: &Path, place: Place) -> Place
    ensures { result ≡ before (path_term next.now) place }
{
    Place {
        endless: place.endless,
        existing: begins_with_exists(next),
    }
}

fn place_within(most: Option<u64>, place: Place) -> Place
    ensures { result ≡ within most place }
{
    Place {
        endless: place.endless | most.is_none(),
        existing: false,
    }
}

fn place_unfollowed(endless: bool) -> Place
    ensures { result ≡ unfollowed endless }
{
    Place {
        endless,
        existing: false,
    }
}

// Whether the path is the test {EXISTS}, or begins with it.
fn begins_with_exists(path: &Path) -> bool
    ensures { result ≡ begins_existing (path_term path.now) }
{
    match path {
        Path::Test(test) => is_exists(test),
        Path::Seq(a, _) => begins_with_exists(a),
        Path::F | Path::B | Path::N | Path::P | Path::Alt(..) | Path::Repeat { .. } => false,
    }
}

fn is_exists(test: &Test) -> bool
    ensures { result ≡ begins_existing (OfTest (test_term test.now)) }
{
    match test {
        Test::Leaf(leaf) => matches!(leaf, Leaf::Exists),
        Test::Cond(_) | Test::And(..) | Test::Or(..) | Test::Not(_) => false,
    }
}
