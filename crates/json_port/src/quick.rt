//! Reading a flat object from its line.
ghost use Rattle.std.specs.Prelude.{◌≡◌, ◌≤◌, ◌<◌, ◌++◌, Some, IfSome, IsUtf8, length};
ghost use Rattle.json.specs.Lex.{lex, between, token};
ghost use Rattle.serde_json.specs.Read.{read};
ghost use Rattle.serde_json.specs.Events.{members_len};
ghost use Rattle.json_port.specs.FlatObjects.{flat_data, flat_members};
ghost use Rattle.json_port.specs.Flats.{members_of, listed, part_lexemes, member_lexemes, names_lexemes, object_lexemes, IsSized, AreSized, IsListedOnce, are_ascii};

use crate::flat::{Flat, MAX_MEMBERS};
use crate::key::Key;
use crate::lexemes::{after_blanks, after_byte, number, string};
use crate::member::{Member, Part, find};
use crate::names::Names;
use itpg_base::MAX_LABELS;

// The flat object that a line is, if it is one and all its bytes are ASCII.
pub(crate) fn read_flat(line: &[u8]) -> Option<Flat<'_>>
    ensures utf8 { IfSome result (λ flat. IsUtf8 line.entry.now) }
    ensures value { IfSome result (λ flat. read line.entry.now ≡ Some (flat_data flat)) }
{
    let (flat, rest) = object(line)?;
    if after_blanks(rest).is_empty() {
        Some(flat)
    } else {
        None
    }
}

fn object(line: &[u8]) -> Option<(Flat<'_>, &[u8])>
    ensures sized { IfSome result (λ p. AreSized (flat_members p.0)) }
    ensures lexemes { IfSome result (λ p. lex between line.entry.now
        ≡ object_lexemes (listed p.0.names) (flat_members p.0) ++ lex between p.1.now) }
    ensures ascii { IfSome result (λ p. are_ascii line.entry.now ≡ are_ascii p.1.now) }
{
    let mut rest = after_byte(line, b'{')?;
    let mut names = Names::none();
    let mut members = [Member {
        key: Key::Op,
        part: Part::Number(0),
    }; MAX_MEMBERS];
    for i in 0..MAX_MEMBERS {
        let (member, behind) = member(rest, &mut names)?;
        if find(&members[..i], member.key).is_some() {
            return None;
        }
        members[i] = member;
        if let Some(end) = after_byte(behind, b'}') {
            return Some((
                Flat {
                    members,
                    len: i + 1,
                    names,
                },
                end,
            ));
        }
        rest = after_byte(behind, b',')?;
    }
    None
}

// A member. Texts that it lists are written into `names`, if there are none yet.
fn member<'a>(text: &'a [u8], names: &mut Names<'a>) -> Option<(Member<'a>, &'a [u8])>
    ensures sized { IfSome result (λ p. IsSized p.0.part) }
    ensures lexemes { IfSome result (λ p. lex between text.entry.now ≡ member_lexemes (listed names.new) p.0 ++ lex between p.1.now) }
    ensures ascii { IfSome result (λ p. are_ascii text.entry.now ≡ are_ascii p.1.now) }
    ensures once { IfSome result (λ p. IsListedOnce names.old names.new p.0.part) }
{
    let (word, behind) = string(text)?;
    let key = Key::of(word)?;
    let (part, rest) = part(after_byte(behind, b':')?, names)?;
    Some((Member { key, part }, rest))
}

// The value that comes first.
fn part<'a>(text: &'a [u8], names: &mut Names<'a>) -> Option<(Part<'a>, &'a [u8])>
    ensures sized { IfSome result (λ p. IsSized p.0) }
    ensures lexemes { IfSome result (λ p. lex between text.entry.now ≡ part_lexemes (listed names.new) p.0 ++ lex between p.1.now) }
    ensures ascii { IfSome result (λ p. are_ascii text.entry.now ≡ are_ascii p.1.now) }
    ensures once { IfSome result (λ p. IsListedOnce names.old names.new p.0) }
{
    let text = after_blanks(text);
    match text.first()? {
        b'"' => {
            let (content, rest) = string(text)?;
            Some((Part::Text(content), rest))
        }
        b'[' => {
            if names.len > 0 {
                return None;
            }
            let (listed, rest) = list(text)?;
            *names = listed;
            Some((Part::Names, rest))
        }
        _ => {
            let (n, rest) = number(text)?;
            Some((Part::Number(n), rest))
        }
    }
}

// The texts that come first in brackets: one at least.
fn list(text: &[u8]) -> Option<(Names<'_>, &[u8])>
    ensures lexemes { IfSome result (λ p. lex between text.entry.now ≡ names_lexemes (listed p.0) ++ lex between p.1.now) }
    ensures ascii { IfSome result (λ p. are_ascii text.entry.now ≡ are_ascii p.1.now) }
    ensures some { IfSome result (λ p. 0 < p.0.len) }
{
    let mut rest = after_byte(text, b'[')?;
    let empty: &[u8] = b"";
    let mut items = [empty; MAX_LABELS];
    for i in 0..MAX_LABELS {
        let (name, behind) = string(rest)?;
        items[i] = name;
        if let Some(end) = after_byte(behind, b']') {
            return Some((Names { items, len: i + 1 }, end));
        }
        rest = after_byte(behind, b',')?;
    }
    None
}
