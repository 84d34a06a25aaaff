//! Printing counts, in either form.
ghost use Rattle.std.specs.Prelude.{[], OnOk, OnErr};
ghost use Rattle.itpg_base.specs.Sinks.{Gets, GetsSome, IsHonest};
ghost use Rattle.row_printer.specs.Texts.{counts_text, json_counts_text, led, count_in};
ghost use Rattle.row_printer.specs.Said.{SaysTo, SaysSomeTo};

use crate::form::Form;
use crate::lines::add_count_in;
use crate::page::Page;
use crate::printing::begin_line;
use arrivals::{CountRow, Counts};
use itpg_base::{Failed, Sink};

/// Writes a line for each row of the counts, in order: a span of moments, and how many objects there are at each of them.
/// No memory is taken.
///
/// ```text
///     a    ---------
///     b        ---------------
///          0   5   20        30      0..4 1
///                                    5..20 2
///                                    21..30 1
/// ```
///
/// # Errors
///
/// `Failed` only where the sink failed: then a front part was written.
pub fn print_counts<K: Sink>(counts: &Counts, out: &mut K) -> Result<(), Failed>
    ensures written { OnOk result (Gets K.Sink out.old out.new (counts_text counts.now)) }
    ensures some { OnErr result (GetsSome K.Sink out.old out.new (counts_text counts.now)) }
    ensures cause { IsHonest K.Sink out.old out.new result }
{
    print_counts_in(counts, Form::Plain, out)
}

/// Writes a JSON object for each row of the counts, each on a line of its own, in order. No memory is taken.
///
/// ```text
///     {"from":0,"to":4,"count":1}
///     {"from":5,"to":20,"count":2}
/// ```
///
/// # Errors
///
/// `Failed` only where the sink failed: then a front part was written.
pub fn print_json_counts<K: Sink>(counts: &Counts, out: &mut K) -> Result<(), Failed>
    ensures written { OnOk result (Gets K.Sink out.old out.new (json_counts_text counts.now)) }
    ensures some { OnErr result (GetsSome K.Sink out.old out.new (json_counts_text counts.now)) }
    ensures cause { IsHonest K.Sink out.old out.new result }
{
    print_counts_in(counts, Form::Json, out)
}

// Writes the counts in a form.
fn print_counts_in<K: Sink>(counts: &Counts, form: Form, out: &mut K) -> Result<(), Failed>
    ensures written { OnOk result (Gets K.Sink out.old out.new (led [] (count_in form) counts.now)) }
    ensures some { OnErr result (GetsSome K.Sink out.old out.new (led [] (count_in form) counts.now)) }
    ensures cause { IsHonest K.Sink out.old out.new result }
{
    let mut page = Page::new();
    say_counts(counts.rows(), form, &mut page, out)?;
    page.write(out)?;
    Ok(())
}

// Says all rows.
fn say_counts<K: Sink>(
    rows: &[CountRow],
    form: Form,
    page: &mut Page,
    out: &mut K,
) -> Result<(), Failed>
    ensures said { OnOk result (SaysTo K.Sink out.old out.new page.old page.new (led [] (count_in form) rows.now)) }
    ensures some { OnErr result (SaysSomeTo K.Sink out.old out.new page.old (led [] (count_in form) rows.now)) }
    ensures cause { IsHonest K.Sink out.old out.new result }
{
    for row in rows {
        say_count(row, form, page, out)?;
    }
    Ok(())
}

// Says a row.
fn say_count<K: Sink>(
    row: &CountRow,
    form: Form,
    page: &mut Page,
    out: &mut K,
) -> Result<(), Failed>
    ensures said { OnOk result (SaysTo K.Sink out.old out.new page.old page.new (count_in form row.now)) }
    ensures some { OnErr result (SaysSomeTo K.Sink out.old out.new page.old (count_in form row.now)) }
    ensures cause { IsHonest K.Sink out.old out.new result }
{
    begin_line(b"", page, out)?;
    add_count_in(page, form, row);
    Ok(())
}
