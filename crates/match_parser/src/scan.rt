//! The tokens of a text: a look at all of them that takes no memory, and then the list of them.
ghost use Rattle.std.specs.Prelude.{◌≡◌, ◌+◌, ◌^◌, ◌<◌, ◌≤◌, ◌||◌, nat_lt, length, if◌then◌else◌, Option, Some, None, IfOk, IfErr};
ghost use Rattle.itpg_base.specs.declared.text_code.TextCode.{TextCode};
ghost use Rattle.script_lex.specs.Lexemes.{lexeme};
ghost use Rattle.match_parser.specs.Faults.{opens as opening, closes as closing};
ghost use Rattle.match_parser.specs.Reading.{FaultOf, IsText};
ghost use Rattle.match_parser.specs.Gives.{lexemes};
ghost use Rattle.match_parser.specs.Scans.{judged, IsSurveyed};

use itpg_base::TextCode;
use script_lex::{MAX_TOKENS, Mark, Token, What, next_token};
use std::alloc::{AllocError, Global};

/// How deep brackets may stand in one another.
pub const MAX_DEPTH: usize = 64;

// How far a look at a text has come, and what it has counted.
#[derive(Clone, Copy)]
pub(crate) struct Look {
    // The place behind the last token.
    at: usize,
    // The tokens, the opening brackets and the closing ones.
    count: usize,
    opened: usize,
    closed: usize,
    // Whether somewhere more brackets were open than may be.
    deep: bool,
}

// Whether the token is an opening bracket.
fn opens(what: &What) -> bool
    ensures { result ≡ opening (lexeme what.now) }
{
    match what {
        What::Mark(Mark::ParenL) | What::Mark(Mark::BrackL) | What::Mark(Mark::BraceL) => true,
        _ => false,
    }
}

// Whether the token is a closing bracket.
fn closes(what: &What) -> bool
    ensures { result ≡ closing (lexeme what.now) }
{
    match what {
        What::Mark(Mark::ParenR) | What::Mark(Mark::BrackR) | What::Mark(Mark::BraceR) => true,
        _ => false,
    }
}

// The look with one more token.
fn look_on(look: Look, token: &Token) -> Look
    requires opened { look.opened ≤ look.count }
    requires closed { look.closed ≤ look.count }
    requires room { look.count + 100 < 2 ^ 64 }
    ensures at { result.at ≡ token.now.to }
    ensures count { result.count ≡ look.count + 1 }
    ensures opened { result.opened ≡ look.opened + (if opening (lexeme token.now.what) then 1 else 0) }
    ensures closed { result.closed ≡ look.closed + (if closing (lexeme token.now.what) then 1 else 0) }
    ensures deep { result.deep ≡ (look.deep || nat_lt (result.closed + MAX_DEPTH) result.opened) }
{
    let opened = look.opened + usize::from(opens(&token.what));
    let closed = look.closed + usize::from(closes(&token.what));
    Look {
        at: token.to,
        count: look.count + 1,
        opened,
        closed,
        deep: look.deep || closed + MAX_DEPTH < opened,
    }
}

// The first fault of a text whose tokens end so, of those that don't depend on what its tokens are.
fn judge(look: Look, end: Option<TextCode>) -> Result<usize, TextCode>
    ensures { result ≡ judged look.count look.deep end }
{
    if end == Some(TextCode::Byte) {
        Err(TextCode::Byte)
    } else if look.count > MAX_TOKENS {
        Err(TextCode::Tokens)
    } else if look.deep {
        Err(TextCode::Deep)
    } else {
        match end {
            Some(code) => Err(code),
            None => Ok(look.count),
        }
    }
}

// How many tokens the text has; or its first fault, of those that don't depend on what its tokens are.
pub(crate) fn survey(text: &[u8]) -> Result<usize, TextCode>
    ensures ok { IfOk result (λ count. IsSurveyed text.now count) }
    ensures fault { IfErr result (λ code. FaultOf text.now code) }
{
    let mut look = Look {
        at: 0,
        count: 0,
        opened: 0,
        closed: 0,
        deep: false,
    };
    loop {
        match next_token(text, look.at) {
            Ok(Some(token)) => look = look_on(look, &token),
            Ok(None) => return judge(look, None),
            Err(code) => return judge(look, Some(code)),
        }
    }
}

// The tokens of a text that has so many.
pub(crate) fn collect(alloc: Global, text: &[u8], count: usize) -> Result<Vec<What<'_>>, AllocError>
    ensures { IfOk result (λ tokens. (end : Option TextCode) × IsText text.now (lexemes tokens.items) end) }
{
    let mut tokens = Vec::with_capacity(alloc, count)?;
    let mut at = 0;
    loop {
        match next_token(text, at) {
            Ok(Some(token)) => {
                tokens.push(token.what)?;
                at = token.to;
            }
            Ok(None) => return Ok(tokens),
            Err(_) => return Ok(tokens),
        }
    }
}
