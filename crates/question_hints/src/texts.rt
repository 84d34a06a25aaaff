//! The texts of hints.
ghost use Rattle.std.specs.Prelude.{◌≡◌, ◌++◌, IfOk};
ghost use Rattle.question_hints.specs.Texts.{text_of_hint, no_label_text, no_property_text, no_value_text, edge_in_round_text};

use crate::hint::Hint;
use itpg_base::Name;
use std::alloc::{AllocError, Global};

impl Hint {
    /// One line of plain English without a line's end: what is so, and what to write instead.
    ///
    /// `Err` comes only if memory runs out.
    pub fn text(&self, alloc: Global) -> Result<Vec<u8>, AllocError>
        ensures { IfOk result (λ text. text.items ≡ text_of_hint self.now) }
    {
        match self {
            Hint::NoLabel(label) => no_label(alloc, label),
            Hint::NoProperty(prop) => no_property(alloc, prop),
            Hint::NoValue { prop, value } => no_value(alloc, prop, value),
            Hint::EdgeInRound(label) => edge_in_round(alloc, label),
            Hint::EndsOnEdge => Vec::from_slice(alloc, ENDS_ON_EDGE),
            Hint::SelectiveEndLast => Vec::from_slice(alloc, SELECTIVE_END_LAST),
        }
    }
}

const ENDS_ON_EDGE: &[u8] =
    b"the path can't end where it is asked to: a step FWD, BWD, F or B leads from a node to an edge, or from an edge to a node; write FWD/FWD to come to a node";

const SELECTIVE_END_LAST: &[u8] =
    b"the path can start at every object, but only its end has a label; write it from that end, with BWD for FWD and PREV for NEXT";

fn no_label(alloc: Global, label: &Name) -> Result<Vec<u8>, AllocError>
    ensures { IfOk result (λ text. text.items ≡ no_label_text label.now) }
{
    around(
        alloc,
        b"no object has the label ",
        label,
        b"; upper and lower case differ",
    )
}

fn no_property(alloc: Global, prop: &Name) -> Result<Vec<u8>, AllocError>
    ensures { IfOk result (λ text. text.items ≡ no_property_text prop.now) }
{
    around(
        alloc,
        b"no object ever has a value of ",
        prop,
        b"; upper and lower case differ",
    )
}

fn no_value(alloc: Global, prop: &Name, value: &Name) -> Result<Vec<u8>, AllocError>
    ensures { IfOk result (λ text. text.items ≡ no_value_text prop.now value.now) }
{
    let mut text = around(alloc, b"the property ", prop, b" has values, but never '")?;
    text.extend_from_slice(value.bytes())?;
    text.extend_from_slice(b"'; upper and lower case differ")?;
    Ok(text)
}

fn edge_in_round(alloc: Global, label: &Name) -> Result<Vec<u8>, AllocError>
    ensures { IfOk result (λ text. text.items ≡ edge_in_round_text label.now) }
{
    let asked = b", and a node is asked for; write (x)-/FWD/:";
    let mut text = around(alloc, b"only edges have the label ", label, asked)?;
    text.extend_from_slice(label.bytes())?;
    text.extend_from_slice(b"/FWD/-(y)")?;
    Ok(text)
}

// The name between two texts.
fn around(alloc: Global, before: &[u8], name: &Name, behind: &[u8]) -> Result<Vec<u8>, AllocError>
    ensures { IfOk result (λ text. text.items ≡ before.now ++ name.now ++ behind.now) }
{
    let mut text = Vec::from_slice(alloc, before)?;
    text.extend_from_slice(name.bytes())?;
    text.extend_from_slice(behind)?;
    Ok(text)
}
