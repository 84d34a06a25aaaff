//! The labels that an object lists.
ghost use Rattle.std.specs.Prelude.{◌≡◌, ◌≤◌, ◌<◌, Some, is_some, option_map, option_and_then, length, map, take, IfSome, IsTrue, IsFalse, MatchResult};
ghost use Rattle.std.specs.List.{list_all};
ghost use Rattle.edit_reader.specs.Labels.{set_of};
ghost use Rattle.edit_reader.specs.Names as reader;
ghost use Rattle.serde_json.specs.View.{view, items_view};
ghost use Rattle.serde_json.specs.Find.{as_array, get};
ghost use Rattle.json_port.specs.Parts as parts;
ghost use Rattle.json_port.specs.Parts.{labels_at};
ghost use Rattle.json_port.specs.Faults.{is_short};
ghost use Rattle.json_port.specs.Flats.{listed};
ghost use Rattle.json_port.specs.FlatObjects.{flat_data};
ghost use Rattle.json_port.specs.Keys.{key_word};
ghost use Rattle.json_port.specs.Forms.{data_of};
ghost use Rattle.json_port.specs.Calls as calls;
ghost use Rattle.json_port.specs.Calls.{listed_name, listed_names};

use crate::flat::Flat;
use crate::key::Key;
use crate::limits::are_short;
use crate::member::{Member, Part, find};
use crate::names::Names;
use crate::object::Object;
use crate::parts::is_word;
use itpg_base::{LabelSet, MAX_LABELS, Name, TextCode};
use serde_json::Value;

// The words under a name, if as many are listed as an object may have labels.
pub(crate) fn labels<'v>(object: Object<'v>, key: Key) -> Option<Names<'v>>
    ensures value { option_map listed result ≡ labels_at (key_word key) (data_of object.entry) }
    ensures some { IfSome result (λ names. 0 < length (listed names)) }
{
    match object {
        Object::Flat(flat) => flat_labels(flat, key),
        Object::Value(value) => value_labels(value, key),
    }
}

fn flat_labels<'v>(flat: &'v Flat<'v>, key: Key) -> Option<Names<'v>>
    ensures value { option_map listed result ≡ labels_at (key_word key) (flat_data flat.entry.now) }
    ensures some { IfSome result (λ names. 0 < length (listed names)) }
{
    let member = find(flat.as_slice(), key)?;
    match member.part {
        Part::Names => words(&flat.names),
        _ => None,
    }
}

// The texts, if there is one, and each is a word.
fn words<'v>(names: &Names<'v>) -> Option<Names<'v>>
    ensures value { option_map listed result ≡ calls.words (listed names.now) }
    ensures some { IfSome result (λ names. 0 < length (listed names)) }
{
    if are_words(names.as_slice()) {
        Some(*names)
    } else {
        None
    }
}

fn are_words(words: &[&[u8]]) -> bool
    ensures { result ≡ is_some (calls.words (map (λ word. word.now) words.now)) }
{
    !words.is_empty() && are_all_words(words)
}

fn are_all_words(words: &[&[u8]]) -> bool
    ensures { result ≡ list_all (λ word. reader.is_word word.now) words.now }
{
    words.iter().all(|word| is_word(word))
}

fn value_labels<'v>(value: &'v Value, key: Key) -> Option<Names<'v>>
    ensures value { option_map listed result ≡ labels_at (key_word key) (view value.entry.now) }
    ensures some { IfSome result (λ names. 0 < length (listed names)) }
{
    let items = few_items(value, key)?;
    if are_names(items) {
        Some(names_in(items))
    } else {
        None
    }
}

// The items under a name, if there are as many as an object may have labels.
fn few_items<'v>(object: &'v Value, key: Key) -> Option<&'v [Value]>
    ensures value { option_map (λ items. items_view items.now) result
        ≡ option_and_then parts.some_and_few (option_and_then as_array (get (key_word key) (view object.entry.now))) }
    ensures few { IfSome result (λ items. (0 < length items.now) × (length items.now ≤ MAX_LABELS)) }
{
    let items = object.get(key.word())?.as_array()?;
    if is_few(items) { Some(items) } else { None }
}

// Whether there is an item, and there are no more than an object may have labels.
#[tactic(auto, using(crate::proofs::Counts::count_of_items))]
fn is_few(items: &[Value]) -> bool
    ensures value { result ≡ is_some (parts.some_and_few (items_view items.now)) }
    ensures few { IsTrue result → (0 < length items.now) × (length items.now ≤ MAX_LABELS) }
{
    1 <= items.len() && items.len() <= MAX_LABELS
}

// Whether each item is a word.
fn are_names(items: &[Value]) -> bool
    ensures { result ≡ list_all (λ item. is_some (parts.name_of (view item))) items.now }
{
    items.iter().all(is_name)
}

fn is_name(item: &Value) -> bool
    ensures { result ≡ is_some (parts.name_of (view item.now)) }
{
    name_of(item).is_some()
}

// The word that an item is.
fn name_of(item: &Value) -> Option<&[u8]>
    ensures { option_map (λ s. s.now) result ≡ parts.name_of (view item.entry.now) }
{
    let text = item.as_str()?.as_bytes();
    if is_word(text) { Some(text) } else { None }
}

fn name_or_empty(item: &Value) -> &[u8]
    ensures { result.now ≡ listed_name item.entry.now }
{
    match name_of(item) {
        Some(name) => name,
        None => b"",
    }
}

// The words that the items are.
fn names_in(items: &[Value]) -> Names<'_>
    requires few { length items.now ≤ MAX_LABELS }
    ensures names { listed result ≡ listed_names items.entry.now }
    ensures len { result.len ≡ length items.entry.now }
{
    let mut names = Names::none().items;
    for (i, item) in items.iter().enumerate() {
        names[i] = name_or_empty(item);
    }
    Names {
        items: names,
        len: items.len(),
    }
}

// The set of the words that are listed.
pub(crate) fn label_set(names: &Names<'_>) -> Result<LabelSet, TextCode>
    requires some { 0 < length (listed names.now) }
    ensures { MatchResult result
        (λ set. IsTrue (list_all is_short (listed names.now)) × (set ≡ set_of (listed names.now)))
        (λ code. (code ≡ TextCode.Name) × IsFalse (list_all is_short (listed names.now))) }
{
    let words = names.as_slice();
    if !are_short(words) {
        return Err(TextCode::Name);
    }
    if let [word] = words {
        return Ok(LabelSet::one(short_name(word)));
    }
    let block = names_of(words);
    LabelSet::new(&block[..words.len()]).ok_or(TextCode::Name)
}

// The words as names, in a block that has room for all labels.
fn names_of(words: &[&[u8]]) -> [Name; MAX_LABELS]
    requires few { length words.now ≤ MAX_LABELS }
    requires short { IsTrue (calls.are_short words.now) }
    ensures names { take (length words.now) result ≡ map (λ word. word.now) words.now }
    ensures block { length result ≡ MAX_LABELS }
{
    let mut names = [Name::default(); MAX_LABELS];
    for (i, word) in words.iter().enumerate() {
        names[i] = short_name(word);
    }
    names
}

// The name that a word is, if it isn't too long.
fn short_name(word: &[u8]) -> Name
    ensures { IsTrue (is_short word.now) → result ≡ word.now }
{
    Name::new(word).unwrap_or_default()
}
