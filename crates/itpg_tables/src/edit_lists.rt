//! The table of lists of edits with what each answers and the graph after it.

ghost use Rattle.std.specs.Prelude.{IfOk};
ghost use Rattle.itpg_edit.specs.Sites.{HasMoments};

use anyhow::{Context, Result, bail};
use edit_reader::{Line, read_line, room};
use interval_set::{IntervalSet, ValuedSet};
use itpg_base::{LabelSet, Name, ObjNo, Touch};
use itpg_edit::{Edit, EditFault, apply};
use itpg_graph::Graph;
use std::alloc::Global;
use std::{fs, str};

const PROPERTIES: [&[u8]; 2] = [b"risk", b"test"];

// How many rows were told, and how many of them as the table has them.
#[derive(Drop)]
struct Tally {
    rows: u32,
    alike: u32,
}

impl Tally {
    fn take(&mut self, rt: &HostRuntime, told: &str, wanted: &str) -> Result<()> {
        self.rows = self.rows.saturating_add(1);
        if told == wanted {
            self.alike = self.alike.saturating_add(1);
        } else {
            println!(rt; "edit row {}: {told} for {wanted}", self.rows)?;
        }
        Ok(())
    }
}

/// Makes the edits of the table, prints those that answer something else or leave another graph, and how many are alike.
pub fn compare(rt: &HostRuntime) -> Result<()> {
    let text = fs::read_to_string(rt, "edit_lists.txt")?;
    let mut graph = Graph::new(rt.alloc());
    let mut answer = String::new(rt.alloc());
    let mut tally = Tally { rows: 0, alike: 0 };
    for row in text.as_str().lines() {
        let (kind, rest) = row.split_once(' ').unwrap_or((row, ""));
        match kind {
            "edit" => answer = made(rt.alloc(), &mut graph, rest)?,
            "is" => tally.take(rt, answer.as_str(), rest)?,
            "graph" => tally.take(rt, describe(rt.alloc(), &graph)?.as_str(), rest)?,
            "end" => graph = Graph::new(rt.alloc()),
            _ => bail!("{row:?} is no row of a list"),
        }
    }
    println!(rt;
        "{} of {} answers and graphs of edits alike",
        tally.alike, tally.rows
    )?;
    Ok(())
}

fn edit_of(line: &str) -> Result<Edit>
    ensures { IfOk result HasMoments }
{
    let mut room = room();
    match &read_line(line.as_bytes(), &mut room) {
        Ok(Line::Edit(edit)) => Ok(**edit),
        _ => bail!("{line:?} is no edit"),
    }
}

// Makes the edit, and tells what it touched or why it was refused.
fn made(alloc: Global, graph: &mut Graph, line: &str) -> Result<String> {
    let edit = edit_of(line)?;
    match &apply(graph, &edit) {
        Ok(touch) => describe_touch(alloc, touch),
        Err(EditFault::Rule(rule)) => Ok(format!(in alloc; "{}", rule.word())?),
        Err(EditFault::Memory) => bail!("memory ran out"),
    }
}

fn describe_touch(alloc: Global, touch: &Touch) -> Result<String> {
    match touch {
        Touch::All => Ok(format!(in alloc; "all")?),
        Touch::Shape(labels) => Ok(format!(in alloc; "shape {}", word(&label(labels)?)?)?),
        Touch::Live(labels) => Ok(format!(in alloc; "live {}", word(&label(labels)?)?)?),
        Touch::Gone(labels) => Ok(format!(in alloc; "gone {}", word(&label(labels)?)?)?),
        Touch::Value { labels, prop } => {
            Ok(format!(in alloc; "value {} {}", word(&label(labels)?)?, word(prop)?)?)
        }
    }
}

// The standing objects in order of number, each with its families.
fn describe(alloc: Global, graph: &Graph) -> Result<String> {
    let mut state = String::new(alloc);
    for number in 0..graph.declared() {
        let object = ObjNo(number);
        if graph.standing(object) {
            if !state.is_empty() {
                state.push_str(" | ")?;
            }
            describe_object(graph, object, &mut state)?;
        }
    }
    Ok(state)
}

fn describe_object(graph: &Graph, object: ObjNo, state: &mut String) -> Result<()> {
    if !graph.standing(object) {
        return Ok(());
    }
    state.push_str(word(&graph.name_of(object))?)?;
    describe_moments(graph.live(object), state)?;
    for property in PROPERTIES {
        let property = Name::new(property).context("a property")?;
        match graph.value(object, &property) {
            Some(values) => describe_values(values, state)?,
            None => state.push_str(" -")?,
        }
    }
    Ok(())
}

fn describe_moments(moments: &IntervalSet, state: &mut String) -> Result<()> {
    if moments.spans().is_empty() {
        state.push_str(" -")?;
    }
    for (place, span) in moments.spans().iter().enumerate() {
        state.push_str(if place == 0 { " " } else { "," })?;
        write!(state, "{}..{}", span.from(), span.to())?;
    }
    Ok(())
}

fn describe_values(values: &ValuedSet, state: &mut String) -> Result<()> {
    for place in 0..values.count() {
        let run = values.run(place);
        state.push_str(if place == 0 { " " } else { "," })?;
        write!(
            state,
            "{}:{}..{}",
            word(&run.value)?,
            run.span.from(),
            run.span.to()
        )?;
    }
    Ok(())
}

fn word(name: &Name) -> Result<&str> {
    Ok(str::from_utf8(name.bytes())?)
}

fn label(labels: &LabelSet) -> Result<Name> {
    Ok(labels.get(0).context("an object without a label")?)
}
