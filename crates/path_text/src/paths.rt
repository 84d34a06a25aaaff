//! The text of a path.
ghost use Rattle.std.specs.Prelude.{◌≡◌, ◌++◌, codes, IfOk, OnOk};
ghost use Rattle.std.specs.Fmt.{decimal, signed_decimal};
ghost use Rattle.path_ast.specs.Terms.{path_term, test_term, leaf_term};
ghost use Rattle.path_text.specs.Texts.{text_of, text_of_test, paired, most_text, label_text, value_text};

use crate::pushing::{push, push_moment, push_number};
use itpg_base::Name;
use path_ast::{Leaf, Path, Test};
use std::alloc::{AllocError, Global};

/// The path with every bracket written, so that no reader has to know what binds tighter.
///
/// ```text
///     FWD/:meets                 ((F/{EXISTS})/{:meets})
///     N[0,_]                     (N[0,_])
///     {a = 'x' OR NOT NODE}      {(a = 'x' OR (NOT NODE))}
/// ```
///
/// The query reader takes the text of a path that it has read, and reads the same path.
/// `Err` comes only if memory runs out.
pub fn path_text(alloc: Global, path: &Path) -> Result<Vec<u8>, AllocError>
    ensures { IfOk result (λ text. text.items ≡ text_of (path_term path.now)) }
{
    let mut text = Vec::new(alloc);
    push_path(&mut text, path)?;
    Ok(text)
}

#[cycle(text)]
fn push_path(text: &mut Vec<u8>, path: &Path) -> Result<(), AllocError>
    ensures { OnOk result (text.new.items ≡ text.old.items ++ text_of (path_term path.now)) }
{
    match path {
        Path::Test(test) => push_braced(text, test),
        Path::F => push(text, b"F"),
        Path::B => push(text, b"B"),
        Path::N => push(text, b"N"),
        Path::P => push(text, b"P"),
        Path::Seq(a, b) => push_paths(text, a, b"/", b),
        Path::Alt(a, b) => push_paths(text, a, b" + ", b),
        Path::Repeat { body, least, most } => push_repeated(text, body, *least, *most),
    }
}

// A test as a path.
#[cycle(text)]
fn push_braced(text: &mut Vec<u8>, test: &Test) -> Result<(), AllocError>
    ensures { OnOk result (text.new.items ≡ text.old.items ++ (codes "{" ++ text_of_test (test_term test.now) ++ codes "}")) }
{
    push(text, b"{")?;
    push_test(text, test)?;
    push(text, b"}")
}

// Two paths with bytes between them, in brackets.
#[cycle(text)]
fn push_paths(text: &mut Vec<u8>, a: &Path, between: &[u8], b: &Path) -> Result<(), AllocError>
    ensures { OnOk result (text.new.items ≡ text.old.items ++ paired (text_of (path_term a.now)) between.now (text_of (path_term b.now))) }
{
    push_first_path(text, a)?;
    push_last_path(text, between, b)
}

// A path behind an opening bracket.
#[cycle(text)]
fn push_first_path(text: &mut Vec<u8>, path: &Path) -> Result<(), AllocError>
    ensures { OnOk result (text.new.items ≡ text.old.items ++ (codes "(" ++ text_of (path_term path.now))) }
{
    push(text, b"(")?;
    push_path(text, path)
}

// A path behind bytes and before a closing bracket.
#[cycle(text)]
fn push_last_path(text: &mut Vec<u8>, between: &[u8], path: &Path) -> Result<(), AllocError>
    ensures { OnOk result (text.new.items ≡ text.old.items ++ (between.now ++ text_of (path_term path.now) ++ codes ")")) }
{
    push(text, between)?;
    push_path(text, path)?;
    push(text, b")")
}

// A path that is repeated, in brackets.
#[cycle(text)]
fn push_repeated(
    text: &mut Vec<u8>,
    body: &Path,
    least: u64,
    most: Option<u64>,
) -> Result<(), AllocError>
    ensures { OnOk result (text.new.items ≡ text.old.items ++
        (codes "(" ++ text_of (path_term body.now) ++ codes "[" ++ decimal least ++ codes "," ++ most_text most ++ codes "])")) }
{
    push(text, b"(")?;
    push_path(text, body)?;
    push(text, b"[")?;
    push_number(text, least)?;
    push(text, b",")?;
    push_most(text, most)?;
    push(text, b"])")
}

// The most times of a repetition.
fn push_most(text: &mut Vec<u8>, most: Option<u64>) -> Result<(), AllocError>
    ensures { OnOk result (text.new.items ≡ text.old.items ++ most_text most) }
{
    match most {
        None => push(text, b"_"),
        Some(most) => push_number(text, most),
    }
}

#[cycle(text)]
fn push_test(text: &mut Vec<u8>, test: &Test) -> Result<(), AllocError>
    ensures { OnOk result (text.new.items ≡ text.old.items ++ text_of_test (test_term test.now)) }
{
    match test {
        Test::Leaf(leaf) => push_leaf(text, leaf),
        Test::Cond(path) => push_condition(text, path),
        Test::And(a, b) => push_tests(text, a, b" AND ", b),
        Test::Or(a, b) => push_tests(text, a, b" OR ", b),
        Test::Not(a) => push_negation(text, a),
    }
}

// That a path leads somewhere.
#[cycle(text)]
fn push_condition(text: &mut Vec<u8>, path: &Path) -> Result<(), AllocError>
    ensures { OnOk result (text.new.items ≡ text.old.items ++ (codes "?(" ++ text_of (path_term path.now) ++ codes ")")) }
{
    push(text, b"?(")?;
    push_path(text, path)?;
    push(text, b")")
}

// Two tests with bytes between them, in brackets.
#[cycle(text)]
fn push_tests(text: &mut Vec<u8>, a: &Test, between: &[u8], b: &Test) -> Result<(), AllocError>
    ensures { OnOk result (text.new.items ≡ text.old.items ++ paired (text_of_test (test_term a.now)) between.now (text_of_test (test_term b.now))) }
{
    push_first_test(text, a)?;
    push_last_test(text, between, b)
}

// A test behind an opening bracket.
#[cycle(text)]
fn push_first_test(text: &mut Vec<u8>, test: &Test) -> Result<(), AllocError>
    ensures { OnOk result (text.new.items ≡ text.old.items ++ (codes "(" ++ text_of_test (test_term test.now))) }
{
    push(text, b"(")?;
    push_test(text, test)
}

// A test behind bytes and before a closing bracket.
#[cycle(text)]
fn push_last_test(text: &mut Vec<u8>, between: &[u8], test: &Test) -> Result<(), AllocError>
    ensures { OnOk result (text.new.items ≡ text.old.items ++ (between.now ++ text_of_test (test_term test.now) ++ codes ")")) }
{
    push(text, between)?;
    push_test(text, test)?;
    push(text, b")")
}

// A test that doesn't hold, in brackets.
#[cycle(text)]
fn push_negation(text: &mut Vec<u8>, test: &Test) -> Result<(), AllocError>
    ensures { OnOk result (text.new.items ≡ text.old.items ++ (codes "(NOT " ++ text_of_test (test_term test.now) ++ codes ")")) }
{
    push(text, b"(NOT ")?;
    push_test(text, test)?;
    push(text, b")")
}

// A test of one object at one moment.
fn push_leaf(text: &mut Vec<u8>, leaf: &Leaf) -> Result<(), AllocError>
    ensures { OnOk result (text.new.items ≡ text.old.items ++ text_of_test (leaf_term leaf.now)) }
{
    match leaf {
        Leaf::Node => push(text, b"NODE"),
        Leaf::Edge => push(text, b"EDGE"),
        Leaf::Label(label) => push_label(text, label),
        Leaf::Value { prop, value } => push_value(text, prop, value),
        Leaf::Before(moment) => push_bound(text, *moment),
        Leaf::Exists => push(text, b"EXISTS"),
    }
}

fn push_label(text: &mut Vec<u8>, label: &Name) -> Result<(), AllocError>
    ensures { OnOk result (text.new.items ≡ text.old.items ++ label_text label.now) }
{
    push(text, b":")?;
    push(text, label.bytes())
}

fn push_value(text: &mut Vec<u8>, prop: &Name, value: &Name) -> Result<(), AllocError>
    ensures { OnOk result (text.new.items ≡ text.old.items ++ value_text prop.now value.now) }
{
    push(text, prop.bytes())?;
    push(text, b" = '")?;
    push(text, value.bytes())?;
    push(text, b"'")
}

// That the moment is below this one.
fn push_bound(text: &mut Vec<u8>, moment: i64) -> Result<(), AllocError>
    ensures { OnOk result (text.new.items ≡ text.old.items ++ (codes "time < " ++ signed_decimal moment)) }
{
    push(text, b"time < ")?;
    push_moment(text, moment)
}
