//! An object that was read, in either form.
ghost use Rattle.std.specs.Prelude.{◌≡◌, option_map};
ghost use Rattle.json_port.specs.Parts as parts;
ghost use Rattle.serde_json.specs.View.{view};
ghost use Rattle.json_port.specs.FlatObjects.{flat_data};
ghost use Rattle.json_port.specs.Keys.{key_word};
ghost use Rattle.json_port.specs.Forms.{data_of};

use crate::flat::Flat;
use crate::key::Key;
use crate::member::{Part, find};
use serde_json::Value;

#[derive(Clone, Copy)]
pub(crate) enum Object<'v> {
    // A flat one, read the quick way.
    Flat(&'v Flat<'v>),
    // Any value, read by serde_json.
    Value(&'v Value),
}

// How many members the object has.
pub(crate) fn count(object: Object<'_>) -> usize
    ensures { result ≡ parts.count_of (data_of object.entry) }
{
    match object {
        Object::Flat(flat) => flat.len,
        Object::Value(value) => members_of(value),
    }
}

fn members_of(value: &Value) -> usize
    ensures { result ≡ parts.count_of (view value.now) }
{
    match value.as_object() {
        Some(members) => members.len(),
        None => 0,
    }
}

// The text under a name.
pub(crate) fn text<'v>(object: Object<'v>, key: Key) -> Option<&'v [u8]>
    ensures { option_map (λ s. s.now) result ≡ parts.text_at (key_word key) (data_of object.entry) }
{
    match object {
        Object::Flat(flat) => flat_text(flat, key),
        Object::Value(value) => Some(value.get(key.word())?.as_str()?.as_bytes()),
    }
}

fn flat_text<'v>(flat: &'v Flat<'v>, key: Key) -> Option<&'v [u8]>
    ensures { option_map (λ s. s.now) result ≡ parts.text_at (key_word key) (flat_data flat.entry.now) }
{
    match find(flat.as_slice(), key)?.part {
        Part::Text(text) => Some(text),
        _ => None,
    }
}

// The whole number under a name.
pub(crate) fn number(object: Object<'_>, key: Key) -> Option<i64>
    ensures { result ≡ parts.number_at (key_word key) (data_of object.entry) }
{
    match object {
        Object::Flat(flat) => flat_number(flat, key),
        Object::Value(value) => value.get(key.word())?.as_i64(),
    }
}

fn flat_number(flat: &Flat<'_>, key: Key) -> Option<i64>
    ensures { result ≡ parts.number_at (key_word key) (flat_data flat.now) }
{
    match find(flat.as_slice(), key)?.part {
        Part::Number(number) => Some(number),
        _ => None,
    }
}
