//! Patterns, the chain of them with the paths between, and the whole of a query.
ghost use Rattle.std.specs.Prelude.{◌≡◌, ℕ, ◌+◌, ◌*◌, ◌<◌, ◌≤◌, length, Some, IfOk};
ghost use Rattle.path_ast.specs.Terms.{path_term, test_term};
ghost use Rattle.match_parser.specs.Parsing.{or_at, alt_at, name_at, pattern_by, piece_by, chain_at, graph_at, query_at};
ghost use Rattle.match_parser.specs.Parsing.{and_label as label_and, and_tests as tests_and, chain_of, with_piece as piece_with};
ghost use Rattle.match_parser.specs.Gives.{lexemes, seen, Gives, GivesFor};
ghost use Rattle.match_parser.specs.Views.{pattern_view, chain_view, piece_view, query_view};

use crate::build;
use crate::facts_and_steps::label;
use crate::fault::Stop;
use crate::kept::keep_name;
use crate::paths_and_tests::{alt, tests};
use crate::tokens::{expect, first, skip_mark, skip_word, word};
use itpg_base::Name;
use path_ast::{Path, Test};
use script_lex::{Mark, What};
use std::alloc::{AllocError, Global};

// A pattern: its name, if it has one, and its test as a path.
#[derive(Drop)]
pub(crate) struct Pattern {
    name: Option<Name>,
    path: Path,
}

// The patterns of a query with the paths between them.
#[derive(Drop)]
pub(crate) struct Chain {
    // The path through all of them.
    pub(crate) path: Path,
    // The name of the first.
    pub(crate) first: Option<Name>,
    // The name of the last, where there are two or more.
    pub(crate) last: Option<Name>,
    // Whether one behind the first has a name.
    pub(crate) later: bool,
    // Whether one behind the first has a name and isn't the last.
    pub(crate) inner: bool,
}

// The name where a word stands first, and the tokens behind it.
fn name<'a>(tokens: &'a [What<'a>]) -> (Option<Name>, &'a [What<'a>])
    ensures gives { name_at (lexemes tokens.now) ≡ Some (seen (λ n. n) result) }
    ensures shorter { length (lexemes result.1.now) ≤ length (lexemes tokens.now) }
{
    match first(tokens) {
        Some((What::Word(bytes), rest)) => (Some(keep_name(bytes)), rest),
        _ => (None, tokens),
    }
}

// The test, and the label where a `:` stands first.
fn and_label<'a>(
    alloc: Global,
    test: Test,
    tokens: &'a [What<'a>],
) -> Result<(Test, &'a [What<'a>]), Stop>
    ensures gives { Gives (seen test_term) result (label_and (test_term test) (lexemes tokens.now)) }
    ensures shorter { IfOk result (λ x. length (lexemes x.1.now) ≤ length (lexemes tokens.now)) }
{
    match skip_mark(tokens, Mark::Colon) {
        Some(rest) => {
            let (label, rest) = label(rest)?;
            Ok((build::both(alloc, test, label)?, rest))
        }
        None => Ok((test, tokens)),
    }
}

// The test, and the tests in braces where a `{` stands first.
fn and_tests<'a>(
    alloc: Global,
    test: Test,
    tokens: &'a [What<'a>],
) -> Result<(Test, &'a [What<'a>]), Stop>
    ensures gives { GivesFor (λ n ts. tests_and (or_at n) (test_term test) ts) 4 test_term tokens.now result }
    ensures shorter { IfOk result (λ x. length (lexemes x.1.now) ≤ length (lexemes tokens.now)) }
{
    match skip_mark(tokens, Mark::BraceL) {
        Some(rest) => {
            let (more, rest) = tests(alloc, rest, Mark::BraceR)?;
            Ok((build::both(alloc, test, more)?, rest))
        }
        None => Ok((test, tokens)),
    }
}

// pattern : ( [ name ] [ : label ] [ { or } ] )
#[tactic(auto, unfolding(crate::specs::Parsing::pattern_by))]
fn read_pattern<'a>(
    alloc: Global,
    tokens: &'a [What<'a>],
) -> Result<(Pattern, &'a [What<'a>]), Stop>
    ensures gives { GivesFor (λ n ts. pattern_by (or_at n) ts) 4 pattern_view tokens.now result }
    ensures shorter { IfOk result (λ x. length (lexemes x.1.now) < length (lexemes tokens.now)) }
{
    let rest = expect(tokens, Mark::ParenL)?;
    let (name, rest) = name(rest);
    let node = build::node(alloc)?;
    let (test, rest) = and_label(alloc, node, rest)?;
    let (test, rest) = and_tests(alloc, test, rest)?;
    let rest = expect(rest, Mark::ParenR)?;
    let path = build::of_test(alloc, test)?;
    Ok((Pattern { name, path }, rest))
}

// A path and the pattern behind it; the `-/` stands before them.
#[tactic(auto, unfolding(crate::specs::Parsing::piece_by))]
fn read_piece<'a>(
    alloc: Global,
    tokens: &'a [What<'a>],
) -> Result<((Path, Pattern), &'a [What<'a>]), Stop>
    ensures gives { GivesFor (λ n ts. piece_by (alt_at n) (or_at n) ts) 4 piece_view tokens.now result }
    ensures shorter { IfOk result (λ x. length (lexemes x.1.now) < length (lexemes tokens.now)) }
{
    let (path, rest) = alt(alloc, tokens)?;
    let rest = expect(rest, Mark::SlashDash)?;
    let (pattern, rest) = read_pattern(alloc, rest)?;
    Ok(((path, pattern), rest))
}

// The chain of one pattern.
fn begin_chain(pattern: Pattern) -> Chain
    ensures { chain_view result ≡ chain_of (pattern_view pattern) }
{
    Chain {
        path: pattern.path,
        first: pattern.name,
        last: None,
        later: false,
        inner: false,
    }
}

// The chain with a path and a pattern behind it.
fn with_piece(
    alloc: Global,
    chain: Chain,
    path: Path,
    pattern: Pattern,
) -> Result<Chain, AllocError>
    ensures { IfOk result (λ whole. chain_view whole ≡ piece_with (chain_view chain) (path_term path, pattern_view pattern)) }
{
    let so_far = build::sequence(alloc, chain.path, path)?;
    Ok(Chain {
        path: build::sequence(alloc, so_far, pattern.path)?,
        first: chain.first,
        last: pattern.name,
        later: chain.later || pattern.name.is_some(),
        inner: chain.later,
    })
}

// chain : pattern ( -/ alt /- pattern )*
fn read_chain<'a>(alloc: Global, tokens: &'a [What<'a>]) -> Result<(Chain, &'a [What<'a>]), Stop>
    ensures { GivesFor chain_at 4 chain_view tokens.now result }
{
    let (start, mut rest) = read_pattern(alloc, tokens)?;
    let mut chain = begin_chain(start);
    while let Some(tail) = skip_mark(rest, Mark::DashSlash) {
        let ((path, pattern), after) = read_piece(alloc, tail)?;
        chain = with_piece(alloc, chain, path, pattern)?;
        rest = after;
    }
    Ok((chain, rest))
}

// [ ON name ], and the end
#[tactic(auto, unfolding(crate::specs::Parsing::graph_at))]
fn graph(tokens: &[What]) -> Result<Option<Name>, Stop>
    ensures { Gives (λ name. name) result (graph_at (lexemes tokens.now)) }
{
    let (name, rest) = match skip_word(tokens, b"ON") {
        Some(rest) => {
            let (bytes, rest) = word(rest)?;
            (Some(keep_name(bytes)), rest)
        }
        None => (None, tokens),
    };
    match first(rest) {
        None => Ok(name),
        Some(_) => Err(Stop::Text),
    }
}

// query : MATCH chain [ ON name ]
pub(crate) fn read_whole(alloc: Global, tokens: &[What]) -> Result<(Chain, Option<Name>), Stop>
    ensures { (n : ℕ) → 4 * length (lexemes tokens.now) + 4 ≤ n → Gives query_view result (query_at n (lexemes tokens.now)) }
{
    let Some(rest) = skip_word(tokens, b"MATCH") else {
        return Err(Stop::Text);
    };
    let (chain, rest) = read_chain(alloc, rest)?;
    let graph_name = graph(rest)?;
    Ok((chain, graph_name))
}
