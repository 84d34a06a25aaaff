//! Plain scripts as lines of JSON: a line that reads as an edit as the edit's object, any other in a `text` object.
use anyhow::Result;
use edit_reader::{Line, MAX_LINE, read_line, room, without_end};
use itpg_base::{LabelSet, Name};
use itpg_edit::Edit;
use serde_json::{Value, json};
use std::alloc::Global;
use std::str;

/// The script as lines of JSON; `None` if no line of JSON has one of its lines.
///
/// None has a line that isn't UTF-8, or one that is short enough, but not with the object around it.
pub fn json_script(alloc: Global, script: &[u8]) -> Result<Option<Vec<u8>>> {
    let mut lines = Vec::new(alloc);
    for piece in script.split_inclusive(|byte| *byte == b'\n') {
        let line = piece.strip_suffix(b"\n").unwrap_or(piece);
        let Some(text) = json_line(alloc, line)? else {
            return Ok(None);
        };
        lines.extend_from_slice(text.as_bytes())?;
        if line.len() < piece.len() {
            lines.push(b'\n')?;
        }
    }
    Ok(Some(lines))
}

fn json_line(alloc: Global, line: &[u8]) -> Result<Option<String>> {
    let Some(object) = object_of(alloc, line)? else {
        return Ok(None);
    };
    let text = object.to_string(alloc)?;
    if text.len() <= MAX_LINE || without_end(line).len() > MAX_LINE {
        Ok(Some(text))
    } else {
        Ok(None)
    }
}

// The object that asks for what the line asks for; `None` if the line isn't UTF-8.
fn object_of(alloc: Global, line: &[u8]) -> Result<Option<Value>> {
    let mut room = room();
    if let Ok(Line::Edit(edit)) = &read_line(line, &mut room) {
        return Ok(Some(edit_object(alloc, edit)?));
    }
    match str::from_utf8(line) {
        Ok(text) => Ok(Some(json!(in alloc; {"op": "text", "line": text})?)),
        Err(_) => Ok(None),
    }
}

fn edit_object(alloc: Global, edit: &Edit) -> Result<Value> {
    match edit {
        Edit::Begin { name, lo, hi } => graph(alloc, name, *lo, *hi),
        Edit::Extend { lo, hi } => horizon(alloc, *lo, *hi),
        Edit::AddNode { id, labels } => node(alloc, id, labels),
        Edit::AddEdge {
            id,
            labels,
            source,
            target,
        } => edge(alloc, id, labels, source, target),
        Edit::Live { id, from, to } => span(alloc, "live", id, *from, *to),
        Edit::Gone { id, from, to } => span(alloc, "gone", id, *from, *to),
        Edit::Put {
            id,
            prop,
            value,
            from,
            to,
        } => put(alloc, id, prop, value, *from, *to),
        Edit::Clear { id, prop, from, to } => clear(alloc, id, prop, *from, *to),
        Edit::Remove { id } => removal(alloc, id),
    }
}

fn graph(alloc: Global, name: &Name, lo: i64, hi: i64) -> Result<Value> {
    let name = text(name)?;
    Ok(json!(in alloc; {"op": "graph", "name": name, "lo": lo, "hi": hi})?)
}

fn horizon(alloc: Global, lo: i64, hi: i64) -> Result<Value> {
    Ok(json!(in alloc; {"op": "extend", "lo": lo, "hi": hi})?)
}

fn node(alloc: Global, id: &Name, labels: &LabelSet) -> Result<Value> {
    let id = text(id)?;
    let labels = array(alloc, labels)?;
    Ok(json!(in alloc; {"op": "node", "id": id, "labels": labels})?)
}

fn edge(
    alloc: Global,
    id: &Name,
    labels: &LabelSet,
    source: &Name,
    target: &Name,
) -> Result<Value> {
    let id = text(id)?;
    let labels = array(alloc, labels)?;
    let source = text(source)?;
    let target = text(target)?;
    Ok(
        json!(in alloc; {"op": "edge", "id": id, "labels": labels, "source": source, "target": target})?,
    )
}

fn span(alloc: Global, op: &str, id: &Name, from: i64, to: i64) -> Result<Value> {
    let id = text(id)?;
    Ok(json!(in alloc; {"op": op, "id": id, "from": from, "to": to})?)
}

fn put(alloc: Global, id: &Name, prop: &Name, value: &Name, from: i64, to: i64) -> Result<Value> {
    let id = text(id)?;
    let prop = text(prop)?;
    let value = text(value)?;
    Ok(
        json!(in alloc; {"op": "set", "id": id, "prop": prop, "value": value, "from": from, "to": to})?,
    )
}

fn clear(alloc: Global, id: &Name, prop: &Name, from: i64, to: i64) -> Result<Value> {
    let id = text(id)?;
    let prop = text(prop)?;
    Ok(json!(in alloc; {"op": "unset", "id": id, "prop": prop, "from": from, "to": to})?)
}

fn removal(alloc: Global, id: &Name) -> Result<Value> {
    let id = text(id)?;
    Ok(json!(in alloc; {"op": "drop", "id": id})?)
}

fn array(alloc: Global, labels: &LabelSet) -> Result<Value> {
    let mut names = Vec::new(alloc);
    for place in 0..labels.len() {
        if let Some(label) = labels.get(place) {
            names.push(Value::try_from_str(alloc, text(&label)?)?)?;
        }
    }
    Ok(Value::Array(names))
}

fn text(name: &Name) -> Result<&str> {
    Ok(str::from_utf8(name.bytes())?)
}
