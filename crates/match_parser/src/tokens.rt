//! Tokens taken from the front of those that are left: the marks and words that the grammar's rules begin with.
ghost use Rattle.std.specs.Prelude.{◌≡◌, ◌<◌, [], ◌∷◌, length, MatchOption, IfSome, IfOk, option_map};
ghost use Rattle.script_lex.specs.Lexemes.{lexeme};
ghost use Rattle.match_parser.specs.Words.{keyword_text};
ghost use Rattle.match_parser.specs.Heads.{is_mark, is_word, is_both, behind, keyword_of, axis_of};
ghost use Rattle.match_parser.specs.Parsing.{word_at, quote_at, number_at};
ghost use Rattle.match_parser.specs.Gives.{lexemes, Gives};

use crate::fault::Stop;
use script_lex::{Mark, What};

// The first token, and those behind it.
pub(crate) fn first<'a>(tokens: &'a [What<'a>]) -> Option<(What<'a>, &'a [What<'a>])>
    ensures token { MatchOption result (lexemes tokens.now ≡ []) (λ x. lexemes tokens.now ≡ lexeme x.0 ∷ lexemes x.1.now) }
    ensures shorter { IfSome result (λ x. length (lexemes x.1.now) < length (lexemes tokens.now)) }
{
    match tokens.split_first() {
        Some((token, rest)) => Some((*token, rest)),
        None => None,
    }
}

// The tokens behind the mark, where it stands first.
pub(crate) fn skip_mark<'a>(tokens: &'a [What<'a>], mark: Mark) -> Option<&'a [What<'a>]>
    ensures front { option_map (λ rest. lexemes rest.now) result ≡ behind (is_mark mark) (lexemes tokens.now) }
    ensures shorter { IfSome result (λ rest. length (lexemes rest.now) < length (lexemes tokens.now)) }
{
    match first(tokens) {
        Some((What::Mark(found), rest)) => { if found == mark { Some(rest) } else { None } }
        _ => None,
    }
}

// The tokens behind the mark, which has to stand first.
pub(crate) fn expect<'a>(tokens: &'a [What<'a>], mark: Mark) -> Result<&'a [What<'a>], Stop>
    ensures front { Gives (λ rest. lexemes rest.now) result (behind (is_mark mark) (lexemes tokens.now)) }
    ensures shorter { IfOk result (λ rest. length (lexemes rest.now) < length (lexemes tokens.now)) }
{
    match skip_mark(tokens, mark) {
        Some(rest) => Ok(rest),
        None => Err(Stop::Text),
    }
}

// The tokens behind the word, where it stands first.
pub(crate) fn skip_word<'a>(tokens: &'a [What<'a>], word: &[u8]) -> Option<&'a [What<'a>]>
    ensures front { option_map (λ rest. lexemes rest.now) result ≡ behind (is_word word.now) (lexemes tokens.now) }
    ensures shorter { IfSome result (λ rest. length (lexemes rest.now) < length (lexemes tokens.now)) }
{
    match first(tokens) {
        Some((What::Word(found), rest)) => { if found == word { Some(rest) } else { None } }
        _ => None,
    }
}

// The tokens behind a `,` or the word `AND`, where one stands first.
pub(crate) fn skip_both<'a>(tokens: &'a [What<'a>]) -> Option<&'a [What<'a>]>
    ensures front { option_map (λ rest. lexemes rest.now) result ≡ behind is_both (lexemes tokens.now) }
    ensures shorter { IfSome result (λ rest. length (lexemes rest.now) < length (lexemes tokens.now)) }
{
    match first(tokens) {
        Some((What::Mark(Mark::Comma), rest)) => Some(rest),
        Some((What::Word(b"AND"), rest)) => Some(rest),
        _ => None,
    }
}

// The bytes of the word that stands first, and the tokens behind it.
pub(crate) fn word<'a>(tokens: &'a [What<'a>]) -> Result<(&'a [u8], &'a [What<'a>]), Stop>
    ensures word { Gives (λ x. (x.0.now, lexemes x.1.now)) result (word_at (lexemes tokens.now)) }
    ensures shorter { IfOk result (λ x. length (lexemes x.1.now) < length (lexemes tokens.now)) }
{
    match first(tokens) {
        Some((What::Word(bytes), rest)) => Ok((bytes, rest)),
        _ => Err(Stop::Text),
    }
}

// The bytes of the quoted text that stands first, and the tokens behind it.
pub(crate) fn quote<'a>(tokens: &'a [What<'a>]) -> Result<(&'a [u8], &'a [What<'a>]), Stop>
    ensures quote { Gives (λ x. (x.0.now, lexemes x.1.now)) result (quote_at (lexemes tokens.now)) }
    ensures shorter { IfOk result (λ x. length (lexemes x.1.now) < length (lexemes tokens.now)) }
{
    match first(tokens) {
        Some((What::Quoted(bytes), rest)) => Ok((bytes, rest)),
        _ => Err(Stop::Text),
    }
}

// The bytes of the number that stands first, and the tokens behind it.
pub(crate) fn number<'a>(tokens: &'a [What<'a>]) -> Result<(&'a [u8], &'a [What<'a>]), Stop>
    ensures number { Gives (λ x. (x.0.now, lexemes x.1.now)) result (number_at (lexemes tokens.now)) }
    ensures shorter { IfOk result (λ x. length (lexemes x.1.now) < length (lexemes tokens.now)) }
{
    match first(tokens) {
        Some((What::Number(bytes), rest)) => Ok((bytes, rest)),
        _ => Err(Stop::Text),
    }
}
