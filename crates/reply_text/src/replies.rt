//! Replies to single lines. Each page is a local here, so that a quiet line doesn't pay for it.
ghost use Rattle.std.specs.Prelude.{length, OnOk, OnErr};
ghost use Rattle.itpg_base.specs.Sinks.{Gets, GetsSome, IsHonest};
ghost use Rattle.relation_rows.specs.Answered.{answered};
ghost use Rattle.row_printer.specs.Texts.{AreDeclared};
ghost use Rattle.reply_text.specs.Texts.{bad_text, refused_text, wide_text, rows_in, rows_text, counts_in, counted_text};

use crate::heads::{bad, counts_head, head, refused, wide};
use arrivals::Counts;
use itpg_base::{Failed, RuleCode, Sink, TextCode};
use itpg_graph::Graph;
use relation_rows::Answer;
use row_printer::{Form, print_counts, print_json_counts, print_json_rows, print_rows};

/// Writes which rule the line of a number breaks: `line N refused RULE` or `{"line":N,"refused":"RULE"}`. No memory is taken.
///
/// # Errors
///
/// `Failed` only where the sink failed: then a front part was written. This holds of each function here.
pub fn write_refused<K: Sink>(
    form: Form,
    number: u64,
    rule: RuleCode,
    out: &mut K,
) -> Result<(), Failed>
    ensures written { OnOk result (Gets K.Sink out.old out.new (refused_text form number rule)) }
    ensures some { OnErr result (GetsSome K.Sink out.old out.new (refused_text form number rule)) }
    ensures cause { IsHonest K.Sink out.old out.new result }
{
    refused(form, number, rule).write(out)
}

/// Writes what is wrong with the text of a line: `line N bad CODE` or `{"line":N,"bad":"CODE"}`. No memory is taken.
pub fn write_bad<K: Sink>(
    form: Form,
    number: u64,
    code: TextCode,
    out: &mut K,
) -> Result<(), Failed>
    ensures written { OnOk result (Gets K.Sink out.old out.new (bad_text form number code)) }
    ensures some { OnErr result (GetsSome K.Sink out.old out.new (bad_text form number code)) }
    ensures cause { IsHonest K.Sink out.old out.new result }
{
    bad(form, number, code).write(out)
}

/// Writes that the query of a line is too wide: `line N wide` or `{"line":N,"wide":true}`. No memory is taken.
pub fn write_wide<K: Sink>(form: Form, number: u64, out: &mut K) -> Result<(), Failed>
    ensures written { OnOk result (Gets K.Sink out.old out.new (wide_text form number)) }
    ensures some { OnErr result (GetsSome K.Sink out.old out.new (wide_text form number)) }
    ensures cause { IsHonest K.Sink out.old out.new result }
{
    wide(form, number).write(out)
}

/// Writes how many rows an answer has, `line N rows K` or `{"line":N,"rows":K}`, and a line for each. Each object of the answer was
/// declared in the graph. No memory is taken.
///
/// ```text
///     line 16 rows 2            {"line":16,"rows":2}
///     a 0..8 b t..t+12          {"id":"a","from":0,"to":8,"target":"b","low":{"moving":0},"high":{"moving":12}}
///     a 9..20 b t..20           {"id":"a","from":9,"to":20,"target":"b","low":{"moving":0},"high":{"fixed":20}}
/// ```
#[tactic(auto, using(crate::proofs::Written::some_first, crate::proofs::Written::some_second))]
pub fn write_rows<K: Sink>(
    form: Form,
    number: u64,
    graph: &Graph,
    answer: &Answer,
    out: &mut K,
) -> Result<(), Failed>
    requires declared { AreDeclared (length graph.now.objects) (answered answer.now) }
    ensures written { OnOk result (Gets K.Sink out.old out.new (rows_text form graph.now number (answered answer.now))) }
    ensures some { OnErr result (GetsSome K.Sink out.old out.new (rows_text form graph.now number (answered answer.now))) }
    ensures cause { IsHonest K.Sink out.old out.new result }
{
    head(form, number, answer.rows()).write(out)?;
    print_answer(form, graph, answer, out)?;
    Ok(())
}

// Writes a line for each row of the answer.
fn print_answer<K: Sink>(
    form: Form,
    graph: &Graph,
    answer: &Answer,
    out: &mut K,
) -> Result<(), Failed>
    requires declared { AreDeclared (length graph.now.objects) (answered answer.now) }
    ensures written { OnOk result (Gets K.Sink out.old out.new (rows_in form graph.now (answered answer.now))) }
    ensures some { OnErr result (GetsSome K.Sink out.old out.new (rows_in form graph.now (answered answer.now))) }
    ensures cause { IsHonest K.Sink out.old out.new result }
{
    match form {
        Form::Plain => print_rows(graph, answer, b"", out),
        Form::Json => print_json_rows(graph, answer, None, out),
    }
}

/// Writes how many counts there are, `line N counts K` or `{"line":N,"counts":K}`, and a line for each. No memory is taken.
///
/// ```text
///     line 8 counts 2           {"line":8,"counts":2}
///     0..4 1                    {"from":0,"to":4,"count":1}
///     5..20 2                   {"from":5,"to":20,"count":2}
/// ```
#[tactic(auto, using(crate::proofs::Written::some_first, crate::proofs::Written::some_second))]
pub fn write_counts<K: Sink>(
    form: Form,
    number: u64,
    counts: &Counts,
    out: &mut K,
) -> Result<(), Failed>
    ensures written { OnOk result (Gets K.Sink out.old out.new (counted_text form number counts.now)) }
    ensures some { OnErr result (GetsSome K.Sink out.old out.new (counted_text form number counts.now)) }
    ensures cause { IsHonest K.Sink out.old out.new result }
{
    counts_head(form, number, counts.rows().len() as u64).write(out)?;
    print_all_counts(form, counts, out)?;
    Ok(())
}

// Writes a line for each count.
fn print_all_counts<K: Sink>(form: Form, counts: &Counts, out: &mut K) -> Result<(), Failed>
    ensures written { OnOk result (Gets K.Sink out.old out.new (counts_in form counts.now)) }
    ensures some { OnErr result (GetsSome K.Sink out.old out.new (counts_in form counts.now)) }
    ensures cause { IsHonest K.Sink out.old out.new result }
{
    match form {
        Form::Plain => print_counts(counts, out),
        Form::Json => print_json_counts(counts, out),
    }
}
