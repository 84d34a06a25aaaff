//! The lexemes that a flat object is made of, each read from the front of a text.
ghost use Rattle.std.specs.Prelude.{◌≡◌, ◌≤◌, ◌<◌, ◌^◌, ◌∷◌, ◌++◌, length, take, decimal, slice_index, IfSome, IsTrue};
ghost use lib.Signed.{mag};
ghost use Rattle.std.specs.List.{prefix_len, list_all};
ghost use Rattle.std.specs.Char.{is_ascii_digit};
ghost use Rattle.std.specs.Str.Parse.{digits_value};
ghost use Rattle.std.specs.Fmt.{signed_decimal};
ghost use Rattle.json.specs.Token.{string as string_token, number as number_token};
ghost use Rattle.json.specs.Word as words;
ghost use Rattle.json.specs.Lex.{lex, between, token, operator_lexeme};
ghost use Rattle.json_port.specs.Flats.{are_ascii, is_plain_ascii};

// Numbers with more digits are left to serde_json.
const MOST: u64 = 999_999_999_999_999_999;

// The text from its first byte that isn't a blank of JSON.
pub(crate) fn after_blanks(text: &[u8]) -> &[u8]
    ensures lexemes { lex between result.now ≡ lex between text.entry.now }
    ensures ascii { are_ascii result.now ≡ are_ascii text.entry.now }
{
    match text.first() {
        Some(first) if is_blank(*first) => behind_blanks(text),
        _ => text,
    }
}

fn behind_blanks(text: &[u8]) -> &[u8]
    ensures lexemes { lex between result.now ≡ lex between text.entry.now }
    ensures ascii { are_ascii result.now ≡ are_ascii text.entry.now }
{
    let mut i = 0;
    while i < text.len() && is_blank(text[i]) {
        i += 1;
    }
    text.split_at(i).1
}

fn is_blank(byte: u8) -> bool
    ensures { result ≡ words.is_space byte }
{
    byte == b' ' || byte == b'\t' || byte == b'\n' || byte == b'\r'
}

fn is_operator(byte: u8) -> bool
    ensures { result ≡ words.is_operator byte }
{
    matches!(byte, b'{' | b'}' | b'[' | b']' | b':' | b',')
}

// What follows this byte, if it comes first.
pub(crate) fn after_byte(text: &[u8], byte: u8) -> Option<&[u8]>
    requires { IsTrue (words.is_operator byte) }
    ensures lexeme { IfSome result (λ rest. lex between text.entry.now ≡ operator_lexeme byte ∷ lex between rest.now) }
    ensures ascii { IfSome result (λ rest. are_ascii text.entry.now ≡ are_ascii rest.now) }
{
    let (first, rest) = after_blanks(text).split_first()?;
    if *first == byte { Some(rest) } else { None }
}

// The string that comes first, if it is of ASCII and has no escapes, and what follows it.
pub(crate) fn string(text: &[u8]) -> Option<(&[u8], &[u8])>
    ensures lexeme { IfSome result (λ p. lex between text.entry.now ≡ token (string_token p.0.now) ∷ lex between p.1.now) }
    ensures ascii { IfSome result (λ p. are_ascii text.entry.now ≡ are_ascii p.1.now) }
{
    let (first, inside) = after_blanks(text).split_first()?;
    if *first != b'"' {
        return None;
    }
    let (content, behind) = inside.split_at(plain_len(inside));
    let (last, rest) = behind.split_first()?;
    if *last == b'"' {
        Some((content, rest))
    } else {
        None
    }
}

// How many bytes of ASCII stand for themselves in a string.
fn plain_len(text: &[u8]) -> usize
    ensures value { result ≡ prefix_len is_plain_ascii text.now }
    ensures bound { result ≤ length text.now }
{
    let mut len = 0;
    for byte in text {
        if *byte == b'"' || *byte == b'\\' || *byte < b' ' || *byte >= 128 {
            return len;
        }
        len += 1;
    }
    len
}

// The whole number that comes first, if it fits, and what follows it.
pub(crate) fn number(text: &[u8]) -> Option<(i64, &[u8])>
    ensures lexeme { IfSome result (λ p. lex between text.entry.now ≡ token (number_token (signed_decimal p.0)) ∷ lex between p.1.now) }
    ensures sized { IfSome result (λ p. mag p.0 < 2 ^ 63) }
    ensures ascii { IfSome result (λ p. are_ascii text.entry.now ≡ are_ascii p.1.now) }
{
    let text = after_blanks(text);
    let (first, digits) = text.split_first()?;
    if *first != b'-' {
        let (size, rest) = size(text)?;
        return Some((size as i64, rest));
    }
    let (below, rest) = size(digits)?;
    if below == 0 {
        return None;
    }
    Some((-(below as i64), rest))
}

// The number that the digits at the front write, if none of them is a needless zero, and what follows them.
fn size(text: &[u8]) -> Option<(u64, &[u8])>
    ensures digits { IfSome result (λ p. text.entry.now ≡ decimal p.0 ++ p.1.now) }
    ensures ended { IfSome result (λ p. IsTrue (words.ends_word p.1.now)) }
    ensures fits { IfSome result (λ p. p.0 < 2 ^ 63) }
{
    let (size, len) = digits(text)?;
    let (front, rest) = text.split_at(len);
    if is_shortest(front) && is_ended(rest) {
        Some((size, rest))
    } else {
        None
    }
}

// The number that the digits at the front write, if it is no greater than `MOST`, and how many there are.
fn digits(text: &[u8]) -> Option<(u64, usize)>
    ensures value { IfSome result (λ p. p.0 ≡ digits_value 10 (take p.1 text.now)) }
    ensures digits { IfSome result (λ p. IsTrue (list_all is_ascii_digit (take p.1 text.now))) }
    ensures most { IfSome result (λ p. p.0 ≤ MOST) }
    ensures bound { IfSome result (λ p. p.1 ≤ length text.now) }
{
    let mut value: u64 = 0;
    let mut len = 0;
    for byte in text {
        if !byte.is_ascii_digit() {
            return Some((value, len));
        }
        value = value * 10 + u64::from(*byte - b'0');
        if value > MOST {
            return None;
        }
        len += 1;
    }
    Some((value, len))
}

// Whether there is something, and a zero only alone.
fn is_shortest(digits: &[u8]) -> bool
    ensures some { IsTrue result → 0 < length digits.now }
    ensures zero { IsTrue result → slice_index digits.now 0 ≡ 48 → length digits.now ≡ 1 }
{
    match digits.first() {
        Some(b'0') => digits.len() == 1,
        Some(_) => true,
        None => false,
    }
}

fn is_ended(rest: &[u8]) -> bool
    ensures { result ≡ words.ends_word rest.now }
{
    match rest.first() {
        Some(byte) => is_operator(*byte) || is_blank(*byte),
        None => true,
    }
}
