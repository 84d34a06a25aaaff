//! The tests that have no test or path in them, and the steps of a path.
ghost use Rattle.std.specs.Prelude.{◌≡◌, ◌<◌, ◌≤◌, length, IfOk};
ghost use Rattle.path_ast.specs.Terms.{path_term, test_term, Negation, IsBelow};
ghost use Rattle.match_parser.specs.Parsing.{label_at, property_at, time_at, fact_at, step_at};
ghost use Rattle.match_parser.specs.Gives.{lexemes, seen, Gives};

use crate::build;
use crate::fault::Stop;
use crate::kept::keep_name;
use crate::times::moment;
use crate::tokens::{expect, quote, skip_mark, word};
use crate::words::{Keyword, find_axis, find_keyword};
use path_ast::{Leaf, Path, Test};
use script_lex::{Mark, What};
use std::alloc::{AllocError, Global};

// The test of a label; the `:` stands before it.
#[tactic(auto, unfolding(crate::specs::Parsing::label_at))]
pub(crate) fn label<'a>(tokens: &'a [What<'a>]) -> Result<(Test, &'a [What<'a>]), Stop>
    ensures gives { Gives (seen test_term) result (label_at (lexemes tokens.now)) }
    ensures shorter { IfOk result (λ x. length (lexemes x.1.now) < length (lexemes tokens.now)) }
{
    let (bytes, rest) = word(tokens)?;
    Ok((Test::Leaf(Leaf::Label(keep_name(bytes))), rest))
}

// The test of a property's value; the name of the property stands before it.
fn property<'a>(name: &[u8], tokens: &'a [What<'a>]) -> Result<(Test, &'a [What<'a>]), Stop>
    ensures gives { Gives (seen test_term) result (property_at name.now (lexemes tokens.now)) }
    ensures shorter { IfOk result (λ x. length (lexemes x.1.now) < length (lexemes tokens.now)) }
{
    let rest = expect(tokens, Mark::Equal)?;
    let (value, rest) = quote(rest)?;
    let leaf = Leaf::Value {
        prop: keep_name(name),
        value: keep_name(value),
    };
    Ok((Test::Leaf(leaf), rest))
}

// The test that the moment is this one or later.
fn from_moment(alloc: Global, k: i64) -> Result<Test, AllocError>
    ensures { IfOk result (λ test. test_term test ≡ Negation (IsBelow k)) }
{
    build::negation(alloc, Test::Leaf(Leaf::Before(k)))
}

// The test of the moment; the word `time` stands before it.
fn time<'a>(alloc: Global, tokens: &'a [What<'a>]) -> Result<(Test, &'a [What<'a>]), Stop>
    ensures gives { Gives (seen test_term) result (time_at (lexemes tokens.now)) }
    ensures shorter { IfOk result (λ x. length (lexemes x.1.now) < length (lexemes tokens.now)) }
{
    if let Some(rest) = skip_mark(tokens, Mark::Less) {
        let (k, rest) = moment(rest)?;
        return Ok((Test::Leaf(Leaf::Before(k)), rest));
    }
    if let Some(rest) = skip_mark(tokens, Mark::Equal) {
        let (k, rest) = moment(rest)?;
        let from = from_moment(alloc, k)?;
        return Ok((
            build::both(alloc, from, Test::Leaf(Leaf::Before(k + 1)))?,
            rest,
        ));
    }
    let rest = expect(tokens, Mark::AtLeast)?;
    let (k, rest) = moment(rest)?;
    Ok((from_moment(alloc, k)?, rest))
}

// A test that has no test or path in it.
#[tactic(auto, unfolding(crate::specs::Parsing::fact_at))]
pub(crate) fn fact<'a>(
    alloc: Global,
    tokens: &'a [What<'a>],
) -> Result<(Test, &'a [What<'a>]), Stop>
    ensures gives { Gives (seen test_term) result (fact_at (lexemes tokens.now)) }
    ensures shorter { IfOk result (λ x. length (lexemes x.1.now) < length (lexemes tokens.now)) }
{
    if let Some(rest) = skip_mark(tokens, Mark::Colon) {
        return label(rest);
    }
    let (bytes, rest) = word(tokens)?;
    match find_keyword(bytes) {
        None => property(bytes, rest),
        Some(Keyword::Node) => Ok((Test::Leaf(Leaf::Node), rest)),
        Some(Keyword::Edge) => Ok((Test::Leaf(Leaf::Edge), rest)),
        Some(Keyword::Exists) => Ok((Test::Leaf(Leaf::Exists), rest)),
        Some(Keyword::Time) => time(alloc, rest),
        Some(Keyword::Not) | Some(Keyword::And) | Some(Keyword::Or) => Err(Stop::Text),
    }
}

// A step of a path.
#[tactic(auto, unfolding(crate::specs::Parsing::step_at))]
pub(crate) fn step<'a>(
    alloc: Global,
    tokens: &'a [What<'a>],
) -> Result<(Path, &'a [What<'a>]), Stop>
    ensures gives { Gives (seen path_term) result (step_at (lexemes tokens.now)) }
    ensures shorter { IfOk result (λ x. length (lexemes x.1.now) < length (lexemes tokens.now)) }
{
    let (bytes, rest) = word(tokens)?;
    match find_axis(bytes) {
        Some(axis) => Ok((build::step(alloc, axis)?, rest)),
        None => Err(Stop::Text),
    }
}
