//! What a tick writes of a watch.
ghost use Rattle.std.specs.Prelude.{length, OnOk, OnErr};
ghost use Rattle.itpg_base.specs.Sinks.{Gets, GetsSome, IsHonest};
ghost use Rattle.relation_rows.specs.Answered.{answered};
ghost use Rattle.row_printer.specs.JsonTexts.{IsSign};
ghost use Rattle.row_printer.specs.Texts.{AreDeclared};
ghost use Rattle.reply_text.specs.Texts.{tick_wide_text, signed_rows, changes_text};

use crate::heads::{tick_head, tick_wide};
use itpg_base::{Failed, Name, Sink};
use itpg_graph::Graph;
use relation_rows::Answer;
use row_printer::{Form, print_json_rows, print_rows};

/// Writes that the watch of a name is too wide: `tick NAME wide` or `{"tick":"NAME","wide":true}`. No memory is taken.
///
/// # Errors
///
/// `Failed` only where the sink failed: then a front part was written. This holds of each function here.
pub fn write_tick_wide<K: Sink>(form: Form, name: &Name, out: &mut K) -> Result<(), Failed>
    ensures written { OnOk result (Gets K.Sink out.old out.new (tick_wide_text form name.now)) }
    ensures some { OnErr result (GetsSome K.Sink out.old out.new (tick_wide_text form name.now)) }
    ensures cause { IsHonest K.Sink out.old out.new result }
{
    tick_wide(form, name).write(out)
}

/// Writes how many rows the watch of a name gained and lost, then those that it gained, then those that it lost. Each object of
/// the rows was declared in the graph. No memory is taken.
///
/// ```text
///     tick w gained 1 lost 1    {"tick":"w","gained":1,"lost":1}
///     + a 10..12                {"sign":"+","id":"a","from":10,"to":12}
///     - a 0..4                  {"sign":"-","id":"a","from":0,"to":4}
/// ```
#[tactic(auto, using(crate::proofs::Written::some_first, crate::proofs::Written::some_second))]
pub fn write_changes<K: Sink>(
    form: Form,
    graph: &Graph,
    name: &Name,
    gained: &Answer,
    lost: &Answer,
    out: &mut K,
) -> Result<(), Failed>
    requires gained { AreDeclared (length graph.now.objects) (answered gained.now) }
    requires lost { AreDeclared (length graph.now.objects) (answered lost.now) }
    ensures written { OnOk result (Gets K.Sink out.old out.new (changes_text form graph.now name.now (answered gained.now) (answered lost.now))) }
    ensures some { OnErr result (GetsSome K.Sink out.old out.new (changes_text form graph.now name.now (answered gained.now) (answered lost.now))) }
    ensures cause { IsHonest K.Sink out.old out.new result }
{
    tick_head(form, name, gained.rows(), lost.rows()).write(out)?;
    print_signed(form, graph, gained, b'+', out)?;
    print_signed(form, graph, lost, b'-', out)?;
    Ok(())
}

// Writes a line for each row of the answer, with a sign before it.
fn print_signed<K: Sink>(
    form: Form,
    graph: &Graph,
    answer: &Answer,
    sign: u8,
    out: &mut K,
) -> Result<(), Failed>
    requires declared { AreDeclared (length graph.now.objects) (answered answer.now) }
    requires sign { IsSign sign }
    ensures written { OnOk result (Gets K.Sink out.old out.new (signed_rows form graph.now sign (answered answer.now))) }
    ensures some { OnErr result (GetsSome K.Sink out.old out.new (signed_rows form graph.now sign (answered answer.now))) }
    ensures cause { IsHonest K.Sink out.old out.new result }
{
    match form {
        Form::Plain => print_rows(graph, answer, &[sign, b' '], out),
        Form::Json => print_json_rows(graph, answer, Some(sign), out),
    }
}
