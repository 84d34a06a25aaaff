//! The tokens of a line, taken one by one.
ghost use Rattle.std.specs.Prelude.{◌≡◌, ◌≢◌, ◌≤◌, length, drop, IfOk, IfErr, IfSome, MatchOption, MatchResult, []};
ghost use Rattle.script_lex.specs.Lexemes.{lexeme, AWord, ANumber, AQuote};
ghost use Rattle.script_lex.specs.Numbers.{HasNumber, IsNumber};
ghost use Rattle.edit_reader.specs.Forms.{lexemes};
ghost use Rattle.edit_reader.specs.Taken.{OfRest, IsReached, IsWhole, IsTaken, NoWord, NoNumber, NoQuoted, Writes, IsFar, Names, IsLong};
ghost use Rattle.edit_reader.specs.Taken.{AreSpan, NoSpan, AreNameAndSpan, NoNameAndSpan, IsOnlyName, NoOnlyName};

use itpg_base::{MAX_NAME, Name, TextCode};
use script_lex::{What, is_end, next_number, next_token, next_word, value_of};

// What stands in a line from a place on.
#[derive(Clone, Copy)]
pub(crate) struct Parts<'a> {
    line: &'a [u8],
    at: usize,
    ghost within: { at ≤ length line.now },
    ghost reached: { IsReached line.now at },
}

impl<'a> Parts<'a> {
    pub(crate) fn new(line: &'a [u8]) -> Parts<'a>
        ensures line { result.line.now ≡ line.now }
        ensures at { result.at ≡ 0 }
    {
        Parts { line, at: 0 }
    }

    // The text from here to the end of the line.
    pub(crate) fn text(self) -> &'a [u8]
        ensures { result.now ≡ drop self.entry.at self.entry.line.now }
    {
        &self.line[self.at..]
    }

    // The token that comes first, and what stands behind it.
    pub(crate) fn token(self) -> Option<(What<'a>, Parts<'a>)>
        ensures token { OfRest self.entry.line.now self.entry.at (λ tokens.
            MatchOption result (tokens ≡ []) (λ r. IsTaken self.entry.line.now tokens (lexeme r.0) r.1.line.now r.1.at)) }
        ensures number { IfSome result (λ r. HasNumber (lexeme r.0)) }
        ensures line { IfSome result (λ r. r.1.line.now ≡ self.entry.line.now) }
    {
        match next_token(self.line, self.at) {
            Ok(Some(token)) => Some((
                token.what,
                Parts {
                    line: self.line,
                    at: token.to,
                },
            )),
            Ok(None) => None,
            Err(_) => None,
        }
    }

    // The word that comes first, and what stands behind it.
    pub(crate) fn word(self) -> Result<(&'a [u8], Parts<'a>), TextCode>
        ensures taken { OfRest self.entry.line.now self.entry.at (λ tokens.
            MatchResult result
            (λ r. IsTaken self.entry.line.now tokens (AWord r.0.now) r.1.line.now r.1.at)
            (λ code. (code ≡ TextCode.Text) × NoWord (lexemes tokens))) }
        ensures line { IfOk result (λ r. r.1.line.now ≡ self.entry.line.now) }
    {
        match next_word(self.line, self.at) {
            Some(word) => Ok((
                word.bytes,
                Parts {
                    line: self.line,
                    at: word.to,
                },
            )),
            None => Err(TextCode::Text),
        }
    }

    // The number that comes first, and what stands behind it.
    fn number(self) -> Result<(&'a [u8], Parts<'a>), TextCode>
        ensures taken { OfRest self.entry.line.now self.entry.at (λ tokens.
            MatchResult result
            (λ r. IsTaken self.entry.line.now tokens (ANumber r.0.now) r.1.line.now r.1.at)
            (λ code. (code ≡ TextCode.Text) × NoNumber (lexemes tokens))) }
        ensures number { IfOk result (λ r. IsNumber r.0.now) }
        ensures line { IfOk result (λ r. r.1.line.now ≡ self.entry.line.now) }
    {
        match next_number(self.line, self.at) {
            Some(number) => Ok((
                number.bytes,
                Parts {
                    line: self.line,
                    at: number.to,
                },
            )),
            None => Err(TextCode::Text),
        }
    }

    // The quoted text that comes first, and what stands behind it.
    pub(crate) fn quoted(self) -> Result<(&'a [u8], Parts<'a>), TextCode>
        ensures taken { OfRest self.entry.line.now self.entry.at (λ tokens.
            MatchResult result
            (λ r. IsTaken self.entry.line.now tokens (AQuote r.0.now) r.1.line.now r.1.at)
            (λ code. (code ≡ TextCode.Text) × NoQuoted (lexemes tokens))) }
        ensures line { IfOk result (λ r. r.1.line.now ≡ self.entry.line.now) }
    {
        match self.token() {
            Some((What::Quoted(text), rest)) => Ok((text, rest)),
            _ => Err(TextCode::Text),
        }
    }

    // That nothing but blanks stands here.
    pub(crate) fn end(self) -> Result<(), TextCode>
        ensures taken { OfRest self.entry.line.now self.entry.at (λ tokens.
            MatchResult result (λ _. tokens ≡ []) (λ code. (code ≡ TextCode.Text) × (tokens ≢ []))) }
        ensures whole { IfOk result (λ _. IsWhole self.entry.line.now) }
    {
        if is_end(self.line, self.at) {
            Ok(())
        } else {
            Err(TextCode::Text)
        }
    }

    // Two numbers, and nothing behind them.
    pub(crate) fn span(self) -> Result<(i64, i64), TextCode>
        ensures taken { OfRest self.entry.line.now self.entry.at (λ tokens.
            MatchResult result (λ r. AreSpan (lexemes tokens) r.0 r.1)
            (λ code. NoSpan (lexemes tokens) code)) }
        ensures whole { IfOk result (λ _. IsWhole self.entry.line.now) }
    {
        let (from, rest) = self.number()?;
        let (to, rest) = rest.number()?;
        rest.end()?;
        Ok((moment(from)?, moment(to)?))
    }

    // A name and two numbers, and nothing behind them.
    pub(crate) fn name_and_span(self) -> Result<(Name, i64, i64), TextCode>
        ensures taken { OfRest self.entry.line.now self.entry.at (λ tokens.
            MatchResult result (λ r. AreNameAndSpan (lexemes tokens) r.0 r.1 r.2)
            (λ code. NoNameAndSpan (lexemes tokens) code)) }
        ensures whole { IfOk result (λ _. IsWhole self.entry.line.now) }
    {
        let (word, rest) = self.word()?;
        let (from, to) = rest.span()?;
        Ok((name(word)?, from, to))
    }

    // A name, and nothing behind it.
    pub(crate) fn only_name(self) -> Result<Name, TextCode>
        ensures taken { OfRest self.entry.line.now self.entry.at (λ tokens.
            MatchResult result (λ name. IsOnlyName (lexemes tokens) name)
            (λ code. NoOnlyName (lexemes tokens) code)) }
        ensures whole { IfOk result (λ _. IsWhole self.entry.line.now) }
    {
        let (word, rest) = self.word()?;
        rest.end()?;
        name(word)
    }
}

// The moment that a number writes.
fn moment(number: &[u8]) -> Result<i64, TextCode>
    requires { IsNumber number.now }
    ensures moment { IfOk result (λ value. Writes number.now value) }
    ensures far { IfErr result (λ code. IsFar number.now code) }
{
    value_of(number).ok_or(TextCode::Number)
}

// The name of these bytes.
pub(crate) fn name(text: &[u8]) -> Result<Name, TextCode>
    ensures name { IfOk result (λ name. Names text.now name) }
    ensures long { IfErr result (λ code. IsLong text.now code) }
{
    Name::new(text).ok_or(TextCode::Name)
}
