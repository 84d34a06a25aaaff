//! Paths and tests, level by level: one function for each rule of the grammar.
//!
//! The calls go as deep as the brackets stand in one another. A list with joints between its parts is read by a loop, so
//! that it takes no depth however long it is.
ghost use Rattle.std.specs.Prelude.{◌≡◌, ◌<◌, length, IfOk};
ghost use Rattle.path_ast.specs.Terms.{path_term, test_term};
ghost use Rattle.match_parser.specs.Parsing.{closed, asked_by, alt_at, seq_at, rep_at, atom_at, or_at, and_at, unary_at, prim_at};
ghost use Rattle.match_parser.specs.Gives.{lexemes, GivesFor};

use crate::build;
use crate::facts_and_steps::{fact, label, step};
use crate::fault::Stop;
use crate::times::times;
use crate::tokens::{expect, skip_both, skip_mark, skip_word};
use path_ast::{Path, Test};
use script_lex::{Mark, What};
use std::alloc::Global;

// alt : seq ( + seq )*
#[cycle(paths_and_tests)]
pub(crate) fn alt<'a>(alloc: Global, tokens: &'a [What<'a>]) -> Result<(Path, &'a [What<'a>]), Stop>
    ensures shorter { IfOk result (λ x. length (lexemes x.1.now) < length (lexemes tokens.now)) }
    ensures gives { GivesFor alt_at 4 path_term tokens.now result }
{
    let (mut path, mut rest) = seq(alloc, tokens)?;
    while let Some(tail) = skip_mark(rest, Mark::Plus) {
        let (next, after) = seq(alloc, tail)?;
        path = build::choice(alloc, path, next)?;
        rest = after;
    }
    Ok((path, rest))
}

// seq : rep ( / rep )*
#[cycle(paths_and_tests)]
fn seq<'a>(alloc: Global, tokens: &'a [What<'a>]) -> Result<(Path, &'a [What<'a>]), Stop>
    ensures shorter { IfOk result (λ x. length (lexemes x.1.now) < length (lexemes tokens.now)) }
    ensures gives { GivesFor seq_at 3 path_term tokens.now result }
{
    let (mut path, mut rest) = rep(alloc, tokens)?;
    while let Some(tail) = skip_mark(rest, Mark::Slash) {
        let (next, after) = rep(alloc, tail)?;
        path = build::sequence(alloc, path, next)?;
        rest = after;
    }
    Ok((path, rest))
}

// rep : atom [ * | [ n , m ] | [ n , _ ] ]
#[cycle(paths_and_tests)]
fn rep<'a>(alloc: Global, tokens: &'a [What<'a>]) -> Result<(Path, &'a [What<'a>]), Stop>
    ensures shorter { IfOk result (λ x. length (lexemes x.1.now) < length (lexemes tokens.now)) }
    ensures gives { GivesFor rep_at 2 path_term tokens.now result }
{
    let (path, rest) = atom(alloc, tokens)?;
    let (times, rest) = times(rest)?;
    Ok((build::repeat(alloc, path, times)?, rest))
}

// atom : a step | : label | { or } | ? ( alt ) | ( alt )
#[cycle(paths_and_tests)]
fn atom<'a>(alloc: Global, tokens: &'a [What<'a>]) -> Result<(Path, &'a [What<'a>]), Stop>
    ensures shorter { IfOk result (λ x. length (lexemes x.1.now) < length (lexemes tokens.now)) }
    ensures gives { GivesFor atom_at 1 path_term tokens.now result }
{
    if let Some(rest) = skip_mark(tokens, Mark::Colon) {
        let (test, rest) = label(rest)?;
        return Ok((build::of_test(alloc, test)?, rest));
    }
    if let Some(rest) = skip_mark(tokens, Mark::BraceL) {
        let (test, rest) = tests(alloc, rest, Mark::BraceR)?;
        return Ok((build::of_test(alloc, test)?, rest));
    }
    if let Some(rest) = skip_mark(tokens, Mark::Ask) {
        let (path, rest) = asked(alloc, rest)?;
        let test = build::condition(alloc, path)?;
        return Ok((build::of_test(alloc, test)?, rest));
    }
    if let Some(rest) = skip_mark(tokens, Mark::ParenL) {
        return group(alloc, rest);
    }
    step(alloc, tokens)
}

// A path up to its `)`; the `(` stands before it.
#[cycle(paths_and_tests)]
fn group<'a>(alloc: Global, tokens: &'a [What<'a>]) -> Result<(Path, &'a [What<'a>]), Stop>
    ensures shorter { IfOk result (λ x. length (lexemes x.1.now) < length (lexemes tokens.now)) }
    ensures gives { GivesFor (λ n ts. closed Mark.ParenR (alt_at n ts)) 4 path_term tokens.now result }
{
    let (path, rest) = alt(alloc, tokens)?;
    let rest = expect(rest, Mark::ParenR)?;
    Ok((path, rest))
}

// A path in round brackets; the `?` stands before it.
#[cycle(paths_and_tests)]
fn asked<'a>(alloc: Global, tokens: &'a [What<'a>]) -> Result<(Path, &'a [What<'a>]), Stop>
    ensures shorter { IfOk result (λ x. length (lexemes x.1.now) < length (lexemes tokens.now)) }
    ensures gives { GivesFor (λ n ts. asked_by (alt_at n) ts) 4 path_term tokens.now result }
{
    let rest = expect(tokens, Mark::ParenL)?;
    group(alloc, rest)
}

// Tests up to the closing bracket; the opening one stands before them.
#[cycle(paths_and_tests)]
pub(crate) fn tests<'a>(
    alloc: Global,
    tokens: &'a [What<'a>],
    close: Mark,
) -> Result<(Test, &'a [What<'a>]), Stop>
    ensures shorter { IfOk result (λ x. length (lexemes x.1.now) < length (lexemes tokens.now)) }
    ensures gives { GivesFor (λ n ts. closed close (or_at n ts)) 4 test_term tokens.now result }
{
    let (test, rest) = or(alloc, tokens)?;
    let rest = expect(rest, close)?;
    Ok((test, rest))
}

// or : and ( OR and )*
#[cycle(paths_and_tests)]
fn or<'a>(alloc: Global, tokens: &'a [What<'a>]) -> Result<(Test, &'a [What<'a>]), Stop>
    ensures shorter { IfOk result (λ x. length (lexemes x.1.now) < length (lexemes tokens.now)) }
    ensures gives { GivesFor or_at 4 test_term tokens.now result }
{
    let (mut test, mut rest) = and(alloc, tokens)?;
    while let Some(tail) = skip_word(rest, b"OR") {
        let (next, after) = and(alloc, tail)?;
        test = build::either(alloc, test, next)?;
        rest = after;
    }
    Ok((test, rest))
}

// and : unary ( ( , | AND ) unary )*
#[cycle(paths_and_tests)]
fn and<'a>(alloc: Global, tokens: &'a [What<'a>]) -> Result<(Test, &'a [What<'a>]), Stop>
    ensures shorter { IfOk result (λ x. length (lexemes x.1.now) < length (lexemes tokens.now)) }
    ensures gives { GivesFor and_at 3 test_term tokens.now result }
{
    let (mut test, mut rest) = unary(alloc, tokens)?;
    while let Some(tail) = skip_both(rest) {
        let (next, after) = unary(alloc, tail)?;
        test = build::both(alloc, test, next)?;
        rest = after;
    }
    Ok((test, rest))
}

// unary : [ NOT ] prim
#[cycle(paths_and_tests)]
fn unary<'a>(alloc: Global, tokens: &'a [What<'a>]) -> Result<(Test, &'a [What<'a>]), Stop>
    ensures shorter { IfOk result (λ x. length (lexemes x.1.now) < length (lexemes tokens.now)) }
    ensures gives { GivesFor unary_at 2 test_term tokens.now result }
{
    if let Some(rest) = skip_word(tokens, b"NOT") {
        let (test, rest) = prim(alloc, rest)?;
        return Ok((build::negation(alloc, test)?, rest));
    }
    prim(alloc, tokens)
}

// prim : a fact | ? ( alt ) | ( or )
#[cycle(paths_and_tests)]
fn prim<'a>(alloc: Global, tokens: &'a [What<'a>]) -> Result<(Test, &'a [What<'a>]), Stop>
    ensures shorter { IfOk result (λ x. length (lexemes x.1.now) < length (lexemes tokens.now)) }
    ensures gives { GivesFor prim_at 1 test_term tokens.now result }
{
    if let Some(rest) = skip_mark(tokens, Mark::Ask) {
        let (path, rest) = asked(alloc, rest)?;
        return Ok((build::condition(alloc, path)?, rest));
    }
    if let Some(rest) = skip_mark(tokens, Mark::ParenL) {
        return tests(alloc, rest, Mark::ParenR);
    }
    fact(alloc, tokens)
}
