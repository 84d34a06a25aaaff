//! The first token from a place on, where it is of the kind that is wanted. It is read faster than a token of whatever kind.
ghost use Rattle.std.specs.Prelude.{◌≡◌, ◌≤◌, ◌↔◌, ℕ, List, length, drop, IsTrue, IsNone, IfSome};
ghost use Rattle.script_lex.specs.Lexemes.{AWord, ANumber};
ghost use Rattle.script_lex.specs.Lines.{Placed, AreBlank, IsNext, behind_blanks};
ghost use Rattle.script_lex.specs.Numbers.{IsNumber};

use crate::bytes::Class;
use crate::lexing::{first_and_run, is_number, skip_blanks};

/// The bytes of a token of a line, and the place behind it.
#[derive(Clone, Copy)]
pub struct Taken<'a> {
    /// Its bytes.
    pub bytes: &'a [u8],
    /// The place behind its last byte.
    pub to: usize,
}

/// The word that is the first token from the place `at` on; `None` exactly if another token is, or none.
///
/// ```text
///     live n1 -3 7        at 4: n1, and its end 7        at 7: None
/// ```
#[inline(always)]
pub fn next_word<'a>(line: &'a [u8], at: usize) -> Option<Taken<'a>>
    requires { at ≤ length line.now }
    ensures word { IfSome result (λ w. IsNext line.now at (record { from = behind_blanks line.now at; to = w.to; what = AWord w.bytes.now })) }
    ensures none { IsNone result → (t : Placed) (word : List ℕ) → IsNext line.now at t → t.what ≡ AWord word → ⊥ }
    ensures within { IfSome result (λ w. w.to ≤ length line.now) }
{
    let from = skip_blanks(line, at);
    let rest = &line[from..];
    match rest.first() {
        Some(first) if first.is_ascii_alphabetic() => {
            let bytes = first_and_run(rest, Class::Word);
            Some(Taken {
                bytes,
                to: from + bytes.len(),
            })
        }
        _ => None,
    }
}

/// The number that is the first token from the place `at` on; `None` exactly if another token is, or none.
///
/// ```text
///     live n1 -3 7        at 7: -3, and its end 10       at 4: None
/// ```
#[inline(always)]
pub fn next_number<'a>(line: &'a [u8], at: usize) -> Option<Taken<'a>>
    requires { at ≤ length line.now }
    ensures number { IfSome result (λ n. IsNext line.now at (record { from = behind_blanks line.now at; to = n.to; what = ANumber n.bytes.now })) }
    ensures none { IsNone result → (t : Placed) (number : List ℕ) → IsNext line.now at t → t.what ≡ ANumber number → ⊥ }
    ensures digits { IfSome result (λ n. IsNumber n.bytes.now) }
    ensures within { IfSome result (λ n. n.to ≤ length line.now) }
{
    let from = skip_blanks(line, at);
    let rest = &line[from..];
    match rest.first() {
        Some(first) if is_number(*first, &rest[1..]) => {
            let bytes = first_and_run(rest, Class::Digit);
            Some(Taken {
                bytes,
                to: from + bytes.len(),
            })
        }
        _ => None,
    }
}

/// Whether nothing but blanks stands from the place `at` on.
///
/// ```text
///     live n1 -3 7        at 12: true                    at 10: false
/// ```
#[inline(always)]
pub fn is_end(line: &[u8], at: usize) -> bool
    requires { at ≤ length line.now }
    ensures { IsTrue result ↔ AreBlank (drop at line.now) }
{
    skip_blanks(line, at) == line.len()
}
