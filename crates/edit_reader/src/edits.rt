//! The lines that change the graph: what stands behind their command words is written into the room.
//! The forms that scripts have most of make each name by a test of its own, since a `Result` of a name is copied several times.
ghost use Rattle.std.specs.Prelude.{IfOk};
ghost use Rattle.edit_reader.specs.Steps.{begin_told, extend_told, node_told, edge_told, live_told, gone_told, put_told, clear_told, remove_told};
ghost use Rattle.edit_reader.specs.Answers.{WritesEdit};
ghost use Rattle.edit_reader.specs.Taken.{IsWhole};

use crate::parts::{Parts, name};
use itpg_base::{LabelSet, Name, TextCode};
use itpg_edit::Edit;

// `NAME LO HI`
#[inline(never)]
pub(crate) fn begin(parts: Parts<'_>, room: &mut Edit) -> Result<(), TextCode>
    ensures told { WritesEdit parts.entry.line.now parts.entry.at begin_told result room.new }
    ensures whole { IfOk result (λ _. IsWhole parts.entry.line.now) }
{
    let (name, lo, hi) = parts.name_and_span()?;
    *room = Edit::Begin { name, lo, hi };
    Ok(())
}

// `LO HI`
#[inline(never)]
pub(crate) fn extend(parts: Parts<'_>, room: &mut Edit) -> Result<(), TextCode>
    ensures told { WritesEdit parts.entry.line.now parts.entry.at extend_told result room.new }
    ensures whole { IfOk result (λ _. IsWhole parts.entry.line.now) }
{
    let (lo, hi) = parts.span()?;
    *room = Edit::Extend { lo, hi };
    Ok(())
}

// `ID LABELS`. Mostly the list is one word, which is then read once, and no array is made for it.
#[inline(never)]
pub(crate) fn node(parts: Parts<'_>, room: &mut Edit) -> Result<(), TextCode>
    ensures told { WritesEdit parts.entry.line.now parts.entry.at node_told result room.new }
    ensures whole { IfOk result (λ _. IsWhole parts.entry.line.now) }
{
    let (id, listed) = parts.word()?;
    let (label, rest) = listed.word()?;
    match rest.behind_comma() {
        Some(_) => node_of_labels(parts, room),
        None => {
            rest.end()?;
            let Some(id) = Name::new(id) else {
                return Err(TextCode::Name);
            };
            let Some(label) = Name::new(label) else {
                return Err(TextCode::Name);
            };
            *room = Edit::AddNode {
                id,
                labels: LabelSet::one(label),
            };
            Ok(())
        }
    }
}

// The same, whatever the number of labels.
#[inline(never)]
fn node_of_labels(parts: Parts<'_>, room: &mut Edit) -> Result<(), TextCode>
    ensures told { WritesEdit parts.entry.line.now parts.entry.at node_told result room.new }
    ensures whole { IfOk result (λ _. IsWhole parts.entry.line.now) }
{
    let (id, listed) = parts.word()?;
    let rest = listed.behind_labels()?;
    rest.end()?;
    let id = name(id)?;
    let labels = listed.labels()?;
    *room = Edit::AddNode { id, labels };
    Ok(())
}

// `ID LABELS SRC TGT`, as for a node.
#[inline(never)]
pub(crate) fn edge(parts: Parts<'_>, room: &mut Edit) -> Result<(), TextCode>
    ensures told { WritesEdit parts.entry.line.now parts.entry.at edge_told result room.new }
    ensures whole { IfOk result (λ _. IsWhole parts.entry.line.now) }
{
    let (id, listed) = parts.word()?;
    let (label, rest) = listed.word()?;
    match rest.behind_comma() {
        Some(_) => edge_of_labels(parts, room),
        None => {
            let (source, rest) = rest.word()?;
            let (target, rest) = rest.word()?;
            rest.end()?;
            let Some(id) = Name::new(id) else {
                return Err(TextCode::Name);
            };
            let Some(label) = Name::new(label) else {
                return Err(TextCode::Name);
            };
            let Some(source) = Name::new(source) else {
                return Err(TextCode::Name);
            };
            let Some(target) = Name::new(target) else {
                return Err(TextCode::Name);
            };
            *room = Edit::AddEdge {
                id,
                labels: LabelSet::one(label),
                source,
                target,
            };
            Ok(())
        }
    }
}

// The same, whatever the number of labels.
#[inline(never)]
fn edge_of_labels(parts: Parts<'_>, room: &mut Edit) -> Result<(), TextCode>
    ensures told { WritesEdit parts.entry.line.now parts.entry.at edge_told result room.new }
    ensures whole { IfOk result (λ _. IsWhole parts.entry.line.now) }
{
    let (id, listed) = parts.word()?;
    let rest = listed.behind_labels()?;
    let (source, rest) = rest.word()?;
    let (target, rest) = rest.word()?;
    rest.end()?;
    let id = name(id)?;
    let labels = listed.labels()?;
    let source = name(source)?;
    let target = name(target)?;
    *room = Edit::AddEdge {
        id,
        labels,
        source,
        target,
    };
    Ok(())
}

// `ID FROM TO`
#[inline(never)]
pub(crate) fn live(parts: Parts<'_>, room: &mut Edit) -> Result<(), TextCode>
    ensures told { WritesEdit parts.entry.line.now parts.entry.at live_told result room.new }
    ensures whole { IfOk result (λ _. IsWhole parts.entry.line.now) }
{
    let (id, rest) = parts.word()?;
    let (from, to) = rest.span()?;
    let Some(id) = Name::new(id) else {
        return Err(TextCode::Name);
    };
    *room = Edit::Live { id, from, to };
    Ok(())
}

// `ID FROM TO`
#[inline(never)]
pub(crate) fn gone(parts: Parts<'_>, room: &mut Edit) -> Result<(), TextCode>
    ensures told { WritesEdit parts.entry.line.now parts.entry.at gone_told result room.new }
    ensures whole { IfOk result (λ _. IsWhole parts.entry.line.now) }
{
    let (id, from, to) = parts.name_and_span()?;
    *room = Edit::Gone { id, from, to };
    Ok(())
}

// `ID PROP 'VALUE' FROM TO`
#[inline(never)]
pub(crate) fn put(parts: Parts<'_>, room: &mut Edit) -> Result<(), TextCode>
    ensures told { WritesEdit parts.entry.line.now parts.entry.at put_told result room.new }
    ensures whole { IfOk result (λ _. IsWhole parts.entry.line.now) }
{
    let (id, rest) = parts.word()?;
    let (prop, rest) = rest.word()?;
    let (value, rest) = rest.quoted()?;
    let (from, to) = rest.span()?;
    let Some(id) = Name::new(id) else {
        return Err(TextCode::Name);
    };
    let Some(prop) = Name::new(prop) else {
        return Err(TextCode::Name);
    };
    let Some(value) = Name::new(value) else {
        return Err(TextCode::Name);
    };
    *room = Edit::Put {
        id,
        prop,
        value,
        from,
        to,
    };
    Ok(())
}

// `ID PROP FROM TO`
#[inline(never)]
pub(crate) fn clear(parts: Parts<'_>, room: &mut Edit) -> Result<(), TextCode>
    ensures told { WritesEdit parts.entry.line.now parts.entry.at clear_told result room.new }
    ensures whole { IfOk result (λ _. IsWhole parts.entry.line.now) }
{
    let (id, rest) = parts.word()?;
    let (prop, rest) = rest.word()?;
    let (from, to) = rest.span()?;
    let id = name(id)?;
    let prop = name(prop)?;
    *room = Edit::Clear { id, prop, from, to };
    Ok(())
}

// `ID`
#[inline(never)]
pub(crate) fn remove(parts: Parts<'_>, room: &mut Edit) -> Result<(), TextCode>
    ensures told { WritesEdit parts.entry.line.now parts.entry.at remove_told result room.new }
    ensures whole { IfOk result (λ _. IsWhole parts.entry.line.now) }
{
    let id = parts.only_name()?;
    *room = Edit::Remove { id };
    Ok(())
}
