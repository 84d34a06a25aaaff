//! The objects that ask for edits.
ghost use Rattle.std.specs.Prelude.{◌≡◌};
ghost use Rattle.json_port.specs.declared.op.Op.{Op as PlainOp};
ghost use Rattle.json_port.specs.Objects.{asked_as};
ghost use Rattle.json_port.specs.Faults.{Tells};
ghost use Rattle.json_port.specs.Lines.{IsAnswer};
ghost use Rattle.json_port.specs.Forms.{data_of};

use crate::key::Key;
use crate::labels::{label_set, labels};
use crate::limits::{check_limits, check_moments, check_names, named};
use crate::line::{JsonFault, JsonLine};
use crate::object::{Object, number};
use crate::parts::{name, value};
use itpg_base::TextCode;
use itpg_edit::Edit;

// `name`, `lo`, `hi`
#[inline(never)]
pub(crate) fn begin(object: Object<'_>) -> Result<JsonLine, JsonFault>
    ensures { IsAnswer (Tells (asked_as PlainOp.Graph (data_of object.entry))) result }
{
    let (Some(text), Some(lo), Some(hi)) = (
        name(object, Key::Name),
        number(object, Key::Lo),
        number(object, Key::Hi),
    ) else {
        return Err(JsonFault::Bad(TextCode::Text));
    };
    check_limits(lo, hi, &[text])?;
    Ok(JsonLine::Edit(Edit::Begin {
        name: named(text),
        lo,
        hi,
    }))
}

// `lo`, `hi`
#[inline(never)]
pub(crate) fn extend(object: Object<'_>) -> Result<JsonLine, JsonFault>
    ensures { IsAnswer (Tells (asked_as PlainOp.Extend (data_of object.entry))) result }
{
    let (Some(lo), Some(hi)) = (number(object, Key::Lo), number(object, Key::Hi)) else {
        return Err(JsonFault::Bad(TextCode::Text));
    };
    check_moments(lo, hi)?;
    Ok(JsonLine::Edit(Edit::Extend { lo, hi }))
}

// `id`, `labels`
#[inline(never)]
pub(crate) fn node(object: Object<'_>) -> Result<JsonLine, JsonFault>
    ensures { IsAnswer (Tells (asked_as PlainOp.Node (data_of object.entry))) result }
{
    let (Some(id), Some(listed)) = (name(object, Key::Id), labels(object, Key::Labels)) else {
        return Err(JsonFault::Bad(TextCode::Text));
    };
    check_names(&[id])?;
    Ok(JsonLine::Edit(Edit::AddNode {
        id: named(id),
        labels: label_set(&listed)?,
    }))
}

// `id`, `labels`, `source`, `target`
#[inline(never)]
pub(crate) fn edge(object: Object<'_>) -> Result<JsonLine, JsonFault>
    ensures { IsAnswer (Tells (asked_as PlainOp.Edge (data_of object.entry))) result }
{
    let (Some(id), Some(listed), Some(source), Some(target)) = (
        name(object, Key::Id),
        labels(object, Key::Labels),
        name(object, Key::Source),
        name(object, Key::Target),
    ) else {
        return Err(JsonFault::Bad(TextCode::Text));
    };
    check_names(&[id, source, target])?;
    Ok(JsonLine::Edit(Edit::AddEdge {
        id: named(id),
        labels: label_set(&listed)?,
        source: named(source),
        target: named(target),
    }))
}

// `id`, `from`, `to`
#[inline(never)]
pub(crate) fn live(object: Object<'_>) -> Result<JsonLine, JsonFault>
    ensures { IsAnswer (Tells (asked_as PlainOp.Live (data_of object.entry))) result }
{
    let (Some(id), Some(from), Some(to)) = (
        name(object, Key::Id),
        number(object, Key::From),
        number(object, Key::To),
    ) else {
        return Err(JsonFault::Bad(TextCode::Text));
    };
    check_limits(from, to, &[id])?;
    Ok(JsonLine::Edit(Edit::Live {
        id: named(id),
        from,
        to,
    }))
}

// `id`, `from`, `to`
#[inline(never)]
pub(crate) fn gone(object: Object<'_>) -> Result<JsonLine, JsonFault>
    ensures { IsAnswer (Tells (asked_as PlainOp.Gone (data_of object.entry))) result }
{
    let (Some(id), Some(from), Some(to)) = (
        name(object, Key::Id),
        number(object, Key::From),
        number(object, Key::To),
    ) else {
        return Err(JsonFault::Bad(TextCode::Text));
    };
    check_limits(from, to, &[id])?;
    Ok(JsonLine::Edit(Edit::Gone {
        id: named(id),
        from,
        to,
    }))
}

// `id`, `prop`, `value`, `from`, `to`
#[inline(never)]
pub(crate) fn put(object: Object<'_>) -> Result<JsonLine, JsonFault>
    ensures { IsAnswer (Tells (asked_as PlainOp.Set (data_of object.entry))) result }
{
    let (Some(id), Some(prop), Some(text), Some(from), Some(to)) = (
        name(object, Key::Id),
        name(object, Key::Prop),
        value(object, Key::Value),
        number(object, Key::From),
        number(object, Key::To),
    ) else {
        return Err(JsonFault::Bad(TextCode::Text));
    };
    check_limits(from, to, &[id, prop, text])?;
    Ok(JsonLine::Edit(Edit::Put {
        id: named(id),
        prop: named(prop),
        value: named(text),
        from,
        to,
    }))
}

// `id`, `prop`, `from`, `to`
#[inline(never)]
pub(crate) fn clear(object: Object<'_>) -> Result<JsonLine, JsonFault>
    ensures { IsAnswer (Tells (asked_as PlainOp.Unset (data_of object.entry))) result }
{
    let (Some(id), Some(prop), Some(from), Some(to)) = (
        name(object, Key::Id),
        name(object, Key::Prop),
        number(object, Key::From),
        number(object, Key::To),
    ) else {
        return Err(JsonFault::Bad(TextCode::Text));
    };
    check_limits(from, to, &[id, prop])?;
    Ok(JsonLine::Edit(Edit::Clear {
        id: named(id),
        prop: named(prop),
        from,
        to,
    }))
}

// `id`
#[inline(never)]
pub(crate) fn remove(object: Object<'_>) -> Result<JsonLine, JsonFault>
    ensures { IsAnswer (Tells (asked_as PlainOp.Drop (data_of object.entry))) result }
{
    let Some(id) = name(object, Key::Id) else {
        return Err(JsonFault::Bad(TextCode::Text));
    };
    check_names(&[id])?;
    Ok(JsonLine::Edit(Edit::Remove { id: named(id) }))
}
