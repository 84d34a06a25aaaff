//! Reply lines of JSON in the plain form, by their members.
use anyhow::{Context, Result, bail, ensure};
use serde_json::Value;
use std::alloc::Global;

/// The line of a plain reply that has the members of this object, without its end. The object must have no others.
pub fn plain_line(alloc: Global, reply: &Value) -> Result<String> {
    if reply.get("line").is_some() {
        head_of_line(alloc, reply)
    } else if reply.get("tick").is_some() {
        head_of_tick(alloc, reply)
    } else {
        row(alloc, reply)
    }
}

fn head_of_line(alloc: Global, reply: &Value) -> Result<String> {
    ensure_members(reply, 2)?;
    let line = number(reply, "line")?;
    if let Some(rule) = text(reply, "refused") {
        return Ok(format!(in alloc; "line {line} refused {rule}")?);
    }
    if let Some(code) = text(reply, "bad") {
        return Ok(format!(in alloc; "line {line} bad {code}")?);
    }
    if is_wide(reply) {
        return Ok(format!(in alloc; "line {line} wide")?);
    }
    if let Ok(rows) = number(reply, "rows") {
        return Ok(format!(in alloc; "line {line} rows {rows}")?);
    }
    let counts = number(reply, "counts")?;
    Ok(format!(in alloc; "line {line} counts {counts}")?)
}

fn head_of_tick(alloc: Global, reply: &Value) -> Result<String> {
    let name = text(reply, "tick").context("the watch has no name")?;
    if is_wide(reply) {
        ensure_members(reply, 2)?;
        return Ok(format!(in alloc; "tick {name} wide")?);
    }
    ensure_members(reply, 3)?;
    let gained = number(reply, "gained")?;
    let lost = number(reply, "lost")?;
    Ok(format!(in alloc; "tick {name} gained {gained} lost {lost}")?)
}

// A row, or a line of counts.
fn row(alloc: Global, reply: &Value) -> Result<String> {
    let from = number(reply, "from")?;
    let to = number(reply, "to")?;
    if let Ok(count) = number(reply, "count") {
        ensure_members(reply, 3)?;
        return Ok(format!(in alloc; "{from}..{to} {count}")?);
    }
    let id = text(reply, "id").context("a row without an object")?;
    let (sign, signs) = sign(reply)?;
    let Some(target) = text(reply, "target") else {
        ensure_members(reply, signs.saturating_add(3))?;
        return Ok(format!(in alloc; "{sign}{id} {from}..{to}")?);
    };
    ensure_members(reply, signs.saturating_add(6))?;
    let low = end(alloc, reply, "low")?;
    let high = end(alloc, reply, "high")?;
    Ok(format!(in alloc; "{sign}{id} {from}..{to} {target} {low}..{high}")?)
}

// What stands before a row of a tick, and as how many members.
fn sign(row: &Value) -> Result<(&'static str, usize)> {
    match text(row, "sign") {
        Some("+") => Ok(("+ ", 1)),
        Some("-") => Ok(("- ", 1)),
        Some(other) => bail!("{other:?} is no sign"),
        None => Ok(("", 0)),
    }
}

fn end(alloc: Global, row: &Value, key: &str) -> Result<String> {
    let end = row.get(key).context("a row without an end")?;
    ensure_members(end, 1)?;
    if let Ok(moment) = number(end, "fixed") {
        return Ok(format!(in alloc; "{moment}")?);
    }
    let distance = number(end, "moving")?;
    if distance > 0 {
        Ok(format!(in alloc; "t+{distance}")?)
    } else if distance < 0 {
        Ok(format!(in alloc; "t{distance}")?)
    } else {
        Ok(String::from_str(alloc, "t")?)
    }
}

fn ensure_members(object: &Value, count: usize) -> Result<()> {
    let members = object.as_object().context("no object")?;
    ensure!(members.len() == count, "other members");
    Ok(())
}

fn is_wide(reply: &Value) -> bool {
    reply.get("wide").and_then(Value::as_bool) == Some(true)
}

fn text<'v>(object: &'v Value, key: &str) -> Option<&'v str> {
    object.get(key)?.as_str()
}

fn number(object: &Value, key: &str) -> Result<i64> {
    object
        .get(key)
        .and_then(Value::as_i64)
        .context("no whole number")
}
