//! The hints that a question can give by its form.
ghost use Rattle.std.specs.Prelude.{◌≡◌, OnOk};
ghost use Rattle.path_ast.specs.Terms.{path_term, test_term, leaf_term};
ghost use Rattle.question_hints.specs.Same.{with_hint};
ghost use Rattle.question_hints.specs.Asked.{asks_node, with_round, path_hints, test_hints};

use crate::hint::{Hint, add_hint};
use itpg_base::Name;
use path_ast::{Leaf, Path, Test};
use std::alloc::AllocError;

/// Puts the hints that the path can give behind the others, each once.
#[cycle(asked)]
pub(crate) fn add_path_hints(hints: &mut Vec<Hint>, path: &Path) -> Result<(), AllocError>
    ensures { OnOk result (hints.new.items ≡ path_hints (path_term path.now) hints.old.items) }
{
    match path {
        Path::Test(test) => add_test_hints(hints, test),
        Path::F | Path::B | Path::N | Path::P => Ok(()),
        Path::Seq(a, b) | Path::Alt(a, b) => add_hints_of_paths(hints, a, b),
        Path::Repeat { body, .. } => add_path_hints(hints, body),
    }
}

// The hints of both paths.
#[cycle(asked)]
fn add_hints_of_paths(hints: &mut Vec<Hint>, a: &Path, b: &Path) -> Result<(), AllocError>
    ensures { OnOk result (hints.new.items ≡ path_hints (path_term b.now) (path_hints (path_term a.now) hints.old.items)) }
{
    add_path_hints(hints, a)?;
    add_path_hints(hints, b)
}

#[cycle(asked)]
fn add_test_hints(hints: &mut Vec<Hint>, test: &Test) -> Result<(), AllocError>
    ensures { OnOk result (hints.new.items ≡ test_hints (test_term test.now) hints.old.items) }
{
    match test {
        Test::Leaf(leaf) => add_leaf_hints(hints, leaf),
        Test::Cond(path) => add_path_hints(hints, path),
        Test::And(a, b) => add_hints_of_both(hints, a, b),
        Test::Or(a, b) => add_hints_of_tests(hints, a, b),
        Test::Not(a) => add_test_hints(hints, a),
    }
}

// The hints of both tests.
#[cycle(asked)]
fn add_hints_of_tests(hints: &mut Vec<Hint>, a: &Test, b: &Test) -> Result<(), AllocError>
    ensures { OnOk result (hints.new.items ≡ test_hints (test_term b.now) (test_hints (test_term a.now) hints.old.items)) }
{
    add_test_hints(hints, a)?;
    add_test_hints(hints, b)
}

// The hints of both tests, which have to hold together.
#[cycle(asked)]
fn add_hints_of_both(hints: &mut Vec<Hint>, a: &Test, b: &Test) -> Result<(), AllocError>
    ensures { let first = test_term a.now in let second = test_term b.now in
        OnOk result (hints.new.items ≡ with_round (asks_node first) second (test_hints second (test_hints first hints.old.items))) }
{
    add_hints_of_tests(hints, a, b)?;
    add_round_hint(hints, asks_for_node(a), b)
}

// The hint of a label that is asked for together with a node.
fn add_round_hint(hints: &mut Vec<Hint>, node: bool, test: &Test) -> Result<(), AllocError>
    ensures { OnOk result (hints.new.items ≡ with_round node (test_term test.now) hints.old.items) }
{
    match test {
        Test::Leaf(Leaf::Label(label)) if node => add_hint(hints, Hint::EdgeInRound(*label)),
        _ => Ok(()),
    }
}

// Whether by its form the test holds of nodes alone.
fn asks_for_node(test: &Test) -> bool
    ensures { result ≡ asks_node (test_term test.now) }
{
    match test {
        Test::Leaf(leaf) => matches!(leaf, Leaf::Node),
        Test::And(a, b) => asks_for_node(a) || asks_for_node(b),
        Test::Cond(_) | Test::Or(..) | Test::Not(_) => false,
    }
}

// The hints of a test of one object at one moment.
fn add_leaf_hints(hints: &mut Vec<Hint>, leaf: &Leaf) -> Result<(), AllocError>
    ensures { OnOk result (hints.new.items ≡ test_hints (leaf_term leaf.now) hints.old.items) }
{
    match leaf {
        Leaf::Label(label) => add_hint(hints, Hint::NoLabel(*label)),
        Leaf::Value { prop, value } => add_value_hints(hints, *prop, *value),
        Leaf::Node | Leaf::Edge | Leaf::Before(_) | Leaf::Exists => Ok(()),
    }
}

// The hints of a value that is asked for.
fn add_value_hints(hints: &mut Vec<Hint>, prop: Name, value: Name) -> Result<(), AllocError>
    ensures { OnOk result (hints.new.items ≡ with_hint (Hint.NoValue prop value) (with_hint (Hint.NoProperty prop) hints.old.items)) }
{
    add_hint(hints, Hint::NoProperty(prop))?;
    add_hint(hints, Hint::NoValue { prop, value })
}
