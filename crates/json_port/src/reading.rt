//! Reading a JSON line.
ghost use Rattle.std.specs.Prelude.{◌≡◌, ◌≤◌, IfOk, IfErr, IsErrOf, IsFalse, Result, Some, length};
ghost use Rattle.std.specs.List.{list_all};
ghost use Rattle.script_lex.specs.Bytes as bytes;
ghost use Rattle.edit_reader.specs.Faults as faults;
ghost use Rattle.serde_json.specs.View.{view};
ghost use Rattle.itpg_base.specs.declared.text_code.TextCode.{TextCode};
ghost use Rattle.json_port.specs.declared.line.JsonLine.{JsonLine};
ghost use Rattle.json_port.specs.declared.op.Op.{Op as PlainOp};
ghost use Rattle.json_port.specs.Objects.{asked, asked_as};
ghost use Rattle.json_port.specs.Objects as objects;
ghost use Rattle.json_port.specs.Faults.{Tells};
ghost use Rattle.json_port.specs.Lines.{JsonOf, IsAnswer, asked_by, value_in};
ghost use Rattle.json_port.specs.Calls.{IsRefusal};
ghost use Rattle.json_port.specs.Forms.{data_of};

use crate::edits::{begin, clear, edge, extend, gone, live, node, put, remove};
use crate::key::Key;
use crate::line::{JsonFault, JsonLine, JsonText};
use crate::object::{Object, count, text};
use crate::op::Op;
use crate::quick::read_flat;
use edit_reader::{MAX_LINE, without_end};
use itpg_base::TextCode;
use serde_json::Value;
use std::alloc::Global;

/// What a JSON line asks for. The line is handed in without its LF; where it ends with a CR, this call drops that one byte.
///
/// ```text
///     {"op":"live","id":"a","from":0,"to":20}        Edit: Live { id: a, from: 0, to: 20 }
///     {"op":"node","id":"a","labels":["T","S"]}      Edit: AddNode { id: a, labels: {S, T} }
///     {"op":"text","line":"show w"}                  Text "show w"
///     {"op":"live","id":"a","from":0,"to":1e1}       fault Text: the number isn't written as a whole one
///     {"op":"drop","id":"a","why":null}              fault Text: a member too many
/// ```
///
/// Of members with one name the last holds.
///
/// # Errors
///
/// `Memory` if memory runs out, or else the first of these that the line has, in this order:
///
/// - `Long`: more than `MAX_LINE` bytes, without the CR.
/// - `Text`: the line has no value that serde_json reads, or one that is none of the objects with exactly their members. A
///   number is a whole one of 64 bits with a sign, a name is one word token, a value is what may stand between quotes, and
///   `labels` lists one to `MAX_LABELS` names, of which equal ones are counted each.
/// - `Number`: a number further from zero than `MAX_MOMENT`.
/// - `Name`: a name or a value longer than `MAX_NAME` bytes.
///
/// A line of blanks alone is blank, and takes no memory. There are no comments.
#[tactic(auto, using(crate::proofs::OneLine::only_answer))]
pub fn read_json(alloc: Global, line: &[u8]) -> Result<JsonLine, JsonFault>
    ensures line { IsAnswer (JsonOf line.now) result }
    ensures only { (other : Result JsonLine TextCode) → JsonOf line.now other → IsAnswer (λ answer. answer ≡ other) result }
    ensures memory { IsErrOf result JsonFault.Memory → IsFalse (list_all bytes.is_blank (faults.without_end line.now)) }
    ensures fits { IsErrOf result JsonFault.Memory → length (faults.without_end line.now) ≤ MAX_LINE }
{
    let line = without_end(line);
    if line.len() > MAX_LINE {
        return Err(JsonFault::Bad(TextCode::Long));
    }
    if is_blank(line) {
        return Ok(JsonLine::Blank);
    }
    read_text(alloc, line)
}

// Whether the line has nothing but blanks.
fn is_blank(line: &[u8]) -> bool
    ensures { result ≡ list_all bytes.is_blank line.now }
{
    line.iter().all(|byte| *byte == b' ' || *byte == b'\t')
}

// What a line of JSON asks for.
#[inline(never)]
fn read_text(alloc: Global, line: &[u8]) -> Result<JsonLine, JsonFault>
    ensures { IsAnswer (Tells (asked_by line.now)) result }
{
    if let Some(flat) = read_flat(line) {
        return read_object(alloc, Object::Flat(&flat));
    }
    let value = read_value(alloc, line)?;
    read_object(alloc, Object::Value(&value))
}

// The value of a line.
#[tactic(auto, using(crate::proofs::Values::value_read, crate::proofs::Values::value_refused))]
fn read_value(alloc: Global, line: &[u8]) -> Result<Value, JsonFault>
    ensures ok { IfOk result (λ v. value_in line.now ≡ Some (view v)) }
    ensures err { IfErr result (IsRefusal line.now) }
{
    match Value::from_slice(alloc, line) {
        Ok(value) => Ok(value),
        Err(error) if error.is_memory() => Err(JsonFault::Memory),
        Err(_) => Err(JsonFault::Bad(TextCode::Text)),
    }
}

// What an object asks for.
fn read_object(alloc: Global, object: Object<'_>) -> Result<JsonLine, JsonFault>
    ensures { IsAnswer (Tells (asked (data_of object.entry))) result }
{
    match op_in(object) {
        Some(Op::Graph) => begin(object),
        Some(Op::Extend) => extend(object),
        Some(Op::Node) => node(object),
        Some(Op::Edge) => edge(object),
        Some(Op::Live) => live(object),
        Some(Op::Gone) => gone(object),
        Some(Op::Set) => put(object),
        Some(Op::Unset) => clear(object),
        Some(Op::Drop) => remove(object),
        Some(Op::Text) => read_plain(alloc, object),
        None => Err(JsonFault::Bad(TextCode::Text)),
    }
}

// The kind that an object names, if it has as many members as the kind.
fn op_in(object: Object<'_>) -> Option<Op>
    ensures { result ≡ objects.op_in (data_of object.entry) }
{
    let op = Op::of(text(object, Key::Op)?)?;
    if count(object) == op.count() {
        Some(op)
    } else {
        None
    }
}

// The plain line of a `text` object: `line`.
fn read_plain(alloc: Global, object: Object<'_>) -> Result<JsonLine, JsonFault>
    ensures { IsAnswer (Tells (asked_as PlainOp.Text (data_of object.entry))) result }
{
    let Some(line) = text(object, Key::Line) else {
        return Err(JsonFault::Bad(TextCode::Text));
    };
    let text = Vec::from_slice(alloc, line)?;
    Ok(JsonLine::Text(JsonText::new(text)))
}
