//! The faults of a text that is a query: those of its numbers and names, and those of what it stands for.
ghost use Rattle.std.specs.Prelude.{◌≡◌, ◌≤◌, ◌<◌, Option};
ghost use Rattle.path_ast.specs.Terms.{path_term, test_term};
ghost use Rattle.path_ast.specs.Sizes.{path_size};
ghost use Rattle.match_parser.specs.Faults.{is_backwards as backwards, has_backwards as any_backwards, test_has_backwards as test_any_backwards};
ghost use Rattle.match_parser.specs.Later.{is_wild as wild, is_overlong as overlong, are_names_wrong, some_what, later_of};
ghost use Rattle.match_parser.specs.Views.{chain_view};
ghost use Rattle.script_lex.specs.Lexemes.{lexeme};

use crate::kept::tame_value;
use crate::patterns::Chain;
use itpg_base::{MAX_NAME, TextCode};
use path_ast::{MAX_TERMS, Path, Test, terms};
use script_lex::What;

// Whether the token is a number out of range.
fn is_wild(what: &What) -> bool
    ensures { result ≡ wild (lexeme what.now) }
{
    match what {
        What::Number(bytes) => tame_value(bytes).is_none(),
        _ => false,
    }
}

// Whether the token is a word or a quoted text that is too long.
fn is_overlong(what: &What) -> bool
    ensures { result ≡ overlong (lexeme what.now) }
{
    match what {
        What::Word(bytes) | What::Quoted(bytes) => bytes.len() > MAX_NAME,
        _ => false,
    }
}

fn has_wild(tokens: &[What]) -> bool
    ensures { result ≡ some_what wild tokens.now }
{
    tokens.iter().any(|what| is_wild(what))
}

fn has_overlong(tokens: &[What]) -> bool
    ensures { result ≡ some_what overlong tokens.now }
{
    tokens.iter().any(|what| is_overlong(what))
}

// Whether the least is above the most.
fn is_backwards(least: u64, most: Option<u64>) -> bool
    ensures { result ≡ backwards least most }
{
    match most {
        Some(most) => most < least,
        None => false,
    }
}

// Whether some repetition in the path has its least above its most.
#[cycle(backwards)]
fn has_backwards(path: &Path) -> bool
    ensures { result ≡ any_backwards (path_term path.now) }
{
    match path {
        Path::Test(test) => test_has_backwards(test),
        Path::F | Path::B | Path::N | Path::P => false,
        Path::Seq(a, b) | Path::Alt(a, b) => has_backwards(a) || has_backwards(b),
        Path::Repeat { body, least, most } => is_backwards(*least, *most) || has_backwards(body),
    }
}

#[cycle(backwards)]
fn test_has_backwards(test: &Test) -> bool
    ensures { result ≡ test_any_backwards (test_term test.now) }
{
    match test {
        Test::Cond(path) => has_backwards(path),
        Test::And(a, b) | Test::Or(a, b) => test_has_backwards(a) || test_has_backwards(b),
        Test::Not(a) => test_has_backwards(a),
        _ => false,
    }
}

// Whether the names of the patterns are wrong: one between the first and the last has one, or none has, or the first and
// the last have the same.
fn names_are_wrong(chain: &Chain) -> bool
    ensures { result ≡ are_names_wrong (chain_view chain.now) }
{
    if chain.inner {
        return true;
    }
    match (&chain.first, &chain.last) {
        (Some(first), Some(last)) => first == last,
        (None, _) => !chain.later,
        (Some(_), None) => false,
    }
}

// The first fault of a text that is a query.
pub(crate) fn later_fault(tokens: &[What], chain: &Chain) -> Option<TextCode>
    requires { path_size (chain_view chain.now).path ≤ 100000 }
    ensures { result ≡ later_of tokens.now (chain_view chain.now) }
{
    if has_wild(tokens) {
        Some(TextCode::Number)
    } else if has_overlong(tokens) {
        Some(TextCode::Name)
    } else if has_backwards(&chain.path) {
        Some(TextCode::Range)
    } else if names_are_wrong(chain) {
        Some(TextCode::Names)
    } else if terms(&chain.path) > MAX_TERMS {
        Some(TextCode::Terms)
    } else {
        None
    }
}
