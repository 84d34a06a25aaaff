//! What stands under the names of an object.
ghost use Rattle.std.specs.Prelude.{◌≡◌, option_map};
ghost use Rattle.std.specs.Char.{is_ascii_alphabetic};
ghost use Rattle.std.specs.List.{list_all};
ghost use Rattle.script_lex.specs.Bytes as bytes;
ghost use Rattle.edit_reader.specs.Names as names;
ghost use Rattle.json_port.specs.Keys.{key_word};
ghost use Rattle.json_port.specs.Forms.{data_of};
ghost use Rattle.json_port.specs.Parts as parts;

use crate::key::Key;
use crate::object::{Object, text};

// The word under a name.
pub(crate) fn name<'v>(object: Object<'v>, key: Key) -> Option<&'v [u8]>
    ensures { option_map (λ s. s.now) result ≡ parts.name_at (key_word key) (data_of object.entry) }
{
    let text = text(object, key)?;
    if is_word(text) { Some(text) } else { None }
}

// The text under a name, which may stand between quotes.
pub(crate) fn value<'v>(object: Object<'v>, key: Key) -> Option<&'v [u8]>
    ensures { option_map (λ s. s.now) result ≡ parts.value_at (key_word key) (data_of object.entry) }
{
    let text = text(object, key)?;
    if is_quotable(text) { Some(text) } else { None }
}

// Whether the bytes are those of one word token.
pub(crate) fn is_word(text: &[u8]) -> bool
    ensures { result ≡ names.is_word text.now }
{
    begins_with_letter(text) && are_word_bytes(text)
}

fn are_word_bytes(text: &[u8]) -> bool
    ensures { result ≡ list_all bytes.is_word_byte text.now }
{
    text.iter()
        .all(|byte| byte.is_ascii_alphanumeric() || *byte == b'_')
}

fn begins_with_letter(text: &[u8]) -> bool
    ensures { result ≡ bytes.begins_with is_ascii_alphabetic text.now }
{
    match text.first() {
        Some(byte) => byte.is_ascii_alphabetic(),
        None => false,
    }
}

// Whether the bytes may stand between quotes.
fn is_quotable(text: &[u8]) -> bool
    ensures { result ≡ parts.is_quotable text.now }
{
    text.iter()
        .all(|byte| b' ' <= *byte && *byte <= b'~' && *byte != b'\'')
}
