//! Printing an answer, in either form.
ghost use Rattle.std.specs.Prelude.{◌≡◌, ◌+◌, ◌≤◌, ◌<◌, ◌++◌, ℕ, List, length, IfSome, OnOk, OnErr};
ghost use Rattle.itpg_base.specs.Sinks.{Gets, GetsSome, IsHonest};
ghost use Rattle.relation_rows.specs.Answered.{answered, pairs, times};
ghost use Rattle.row_printer.specs.Texts.{answer_text, json_text, answer_in, led, pair_in, time_in, AreDeclared};
ghost use Rattle.row_printer.specs.JsonTexts.{IsSign, json_lead};
ghost use Rattle.row_printer.specs.Said.{SaysTo, SaysSomeTo};

use crate::form::Form;
use crate::lines::{MAX_ROW, add_pair_in, add_time_in};
use crate::page::{PAGE, Page};
use itpg_base::{Failed, Sink};
use itpg_graph::Graph;
use relation_rows::{Answer, OneRow, Row};

/// Writes a line for each row of the answer, in order, each after the lead.
///
/// Each object of the answer was declared in the graph; an object that was dropped is printed under the name that it had. An
/// end of a band that stays is printed as its moment, one that moves as `t`, `t+K` or `t-K`. No memory is taken.
///
/// ```text
///     one time     a 0..20
///     two times    a 0..8 b t..t+12
///                  a 9..20 b t..20
/// ```
///
/// # Errors
///
/// `Failed` only where the sink failed: then a front part was written.
pub fn print_rows<K: Sink>(
    graph: &Graph,
    answer: &Answer,
    lead: &[u8],
    out: &mut K,
) -> Result<(), Failed>
    requires declared { AreDeclared (length graph.now.objects) (answered answer.now) }
    ensures written { OnOk result (Gets K.Sink out.old out.new (answer_text graph.now lead.now (answered answer.now))) }
    ensures some { OnErr result (GetsSome K.Sink out.old out.new (answer_text graph.now lead.now (answered answer.now))) }
    ensures cause { IsHonest K.Sink out.old out.new result }
{
    print_in(graph, answer, Form::Plain, lead, out)
}

/// Writes a JSON object for each row of the answer, each on a line of its own, in order. With a sign, `+` or `-`, each object has
/// it as its first member.
///
/// Each object of the answer was declared in the graph. Names are written as they stand: a name that is a word needs no escape.
/// No memory is taken.
///
/// ```text
///     one time     {"id":"a","from":0,"to":20}
///     two times    {"sign":"+","id":"a","from":0,"to":8,"target":"b","low":{"moving":0},"high":{"fixed":20}}
/// ```
///
/// # Errors
///
/// `Failed` only where the sink failed: then a front part was written.
pub fn print_json_rows<K: Sink>(
    graph: &Graph,
    answer: &Answer,
    sign: Option<u8>,
    out: &mut K,
) -> Result<(), Failed>
    requires declared { AreDeclared (length graph.now.objects) (answered answer.now) }
    requires sign { IfSome sign IsSign }
    ensures written { OnOk result (Gets K.Sink out.old out.new (json_text graph.now sign (answered answer.now))) }
    ensures some { OnErr result (GetsSome K.Sink out.old out.new (json_text graph.now sign (answered answer.now))) }
    ensures cause { IsHonest K.Sink out.old out.new result }
{
    print_in(graph, answer, Form::Json, json_lead_of(sign), out)
}

// What the object of a row begins with.
fn json_lead_of(sign: Option<u8>) -> &'static [u8]
    requires { IfSome sign IsSign }
    ensures { result.now ≡ json_lead sign }
{
    match sign {
        None => b"{",
        Some(b'+') => b"{\"sign\":\"+\",",
        Some(_) => b"{\"sign\":\"-\",",
    }
}

// Writes the rows in a form, each after the lead.
fn print_in<K: Sink>(
    graph: &Graph,
    answer: &Answer,
    form: Form,
    lead: &[u8],
    out: &mut K,
) -> Result<(), Failed>
    requires declared { AreDeclared (length graph.now.objects) (answered answer.now) }
    ensures written { OnOk result (Gets K.Sink out.old out.new (answer_in form graph.now lead.now (answered answer.now))) }
    ensures some { OnErr result (GetsSome K.Sink out.old out.new (answer_in form graph.now lead.now (answered answer.now))) }
    ensures cause { IsHonest K.Sink out.old out.new result }
{
    let mut page = Page::new();
    say_answer(graph, answer, form, lead, &mut page, out)?;
    page.write(out)?;
    Ok(())
}

// Says all rows.
fn say_answer<K: Sink>(
    graph: &Graph,
    answer: &Answer,
    form: Form,
    lead: &[u8],
    page: &mut Page,
    out: &mut K,
) -> Result<(), Failed>
    requires declared { AreDeclared (length graph.now.objects) (answered answer.now) }
    ensures said { OnOk result (SaysTo K.Sink out.old out.new page.old page.new (answer_in form graph.now lead.now (answered answer.now))) }
    ensures some { OnErr result (SaysSomeTo K.Sink out.old out.new page.old (answer_in form graph.now lead.now (answered answer.now))) }
    ensures cause { IsHonest K.Sink out.old out.new result }
{
    match answer {
        Answer::Pairs(relation) => say_pairs(graph, relation.rows(), form, lead, page, out),
        Answer::Times(times) => say_times(graph, times.rows(), form, lead, page, out),
    }
}

// Says the rows of two times.
fn say_pairs<K: Sink>(
    graph: &Graph,
    rows: &[Row],
    form: Form,
    lead: &[u8],
    page: &mut Page,
    out: &mut K,
) -> Result<(), Failed>
    requires declared { AreDeclared (length graph.now.objects) (pairs rows.now) }
    ensures said { OnOk result (SaysTo K.Sink out.old out.new page.old page.new (led lead.now (pair_in form graph.now) rows.now)) }
    ensures some { OnErr result (SaysSomeTo K.Sink out.old out.new page.old (led lead.now (pair_in form graph.now) rows.now)) }
    ensures cause { IsHonest K.Sink out.old out.new result }
{
    for row in rows {
        say_pair(graph, row, form, lead, page, out)?;
    }
    Ok(())
}

// Says the rows of one time.
fn say_times<K: Sink>(
    graph: &Graph,
    rows: &[OneRow],
    form: Form,
    lead: &[u8],
    page: &mut Page,
    out: &mut K,
) -> Result<(), Failed>
    requires declared { AreDeclared (length graph.now.objects) (times rows.now) }
    ensures said { OnOk result (SaysTo K.Sink out.old out.new page.old page.new (led lead.now (time_in form graph.now) rows.now)) }
    ensures some { OnErr result (SaysSomeTo K.Sink out.old out.new page.old (led lead.now (time_in form graph.now) rows.now)) }
    ensures cause { IsHonest K.Sink out.old out.new result }
{
    for row in rows {
        say_time(graph, row, form, lead, page, out)?;
    }
    Ok(())
}

// Says a row of two times after its lead.
fn say_pair<K: Sink>(
    graph: &Graph,
    row: &Row,
    form: Form,
    lead: &[u8],
    page: &mut Page,
    out: &mut K,
) -> Result<(), Failed>
    requires source { row.now.source.0 < length graph.now.objects }
    requires target { row.now.target.0 < length graph.now.objects }
    ensures said { OnOk result (SaysTo K.Sink out.old out.new page.old page.new (lead.now ++ pair_in form graph.now row.now)) }
    ensures some { OnErr result (SaysSomeTo K.Sink out.old out.new page.old (lead.now ++ pair_in form graph.now row.now)) }
    ensures cause { IsHonest K.Sink out.old out.new result }
{
    begin_line(lead, page, out)?;
    add_pair_in(page, form, graph, row);
    Ok(())
}

// Says a row of one time after its lead.
fn say_time<K: Sink>(
    graph: &Graph,
    row: &OneRow,
    form: Form,
    lead: &[u8],
    page: &mut Page,
    out: &mut K,
) -> Result<(), Failed>
    requires declared { row.now.object.0 < length graph.now.objects }
    ensures said { OnOk result (SaysTo K.Sink out.old out.new page.old page.new (lead.now ++ time_in form graph.now row.now)) }
    ensures some { OnErr result (SaysSomeTo K.Sink out.old out.new page.old (lead.now ++ time_in form graph.now row.now)) }
    ensures cause { IsHonest K.Sink out.old out.new result }
{
    begin_line(lead, page, out)?;
    add_time_in(page, form, graph, row);
    Ok(())
}

/// Says the lead, and makes room for a row.
pub(crate) fn begin_line<K: Sink>(lead: &[u8], page: &mut Page, out: &mut K) -> Result<(), Failed>
    ensures room { OnOk result (length page.new + MAX_ROW ≤ PAGE) }
    ensures said { OnOk result (SaysTo K.Sink out.old out.new page.old page.new lead.now) }
    ensures some { OnErr result ((more : List ℕ) → SaysSomeTo K.Sink out.old out.new page.old (lead.now ++ more)) }
    ensures cause { IsHonest K.Sink out.old out.new result }
{
    if lead.len() > PAGE - MAX_ROW {
        page.write(out)?;
        out.write(lead)?;
        return Ok(());
    }
    if page.len() + lead.len() > PAGE - MAX_ROW {
        page.write(out)?;
    }
    page.add(lead);
    Ok(())
}
