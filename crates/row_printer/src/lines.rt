//! The lines of rows, on a page: those of words, and either form.
ghost use Rattle.std.specs.Prelude.{◌≡◌, ◌+◌, ◌*◌, ◌≤◌, ◌<◌, ◌++◌, length};
ghost use Rattle.row_printer.specs.Texts.{span_text, moving_text, end_text, ends_text, departures_text, arrivals_text, pair_text, time_text, count_text, pair_in, time_in, count_in};

use crate::form::Form;
use crate::json::{add_json_count, add_json_pair, add_json_time};
use crate::page::{PAGE, Page};
use arrivals::CountRow;
use band_normal::End;
use itpg_base::ObjNo;
use itpg_graph::Graph;
use relation_rows::{OneRow, Row};

/// How many bytes a row is written with at most.
pub(crate) const MAX_ROW: usize = 320;

// How many bytes the end of a band, or a moment, is written with at most.
const MAX_END: usize = 22;

// How many bytes an object and two ends are written with at most.
const MAX_PART: usize = 120;

/// Puts a row of one time in a form behind what the page has.
pub(crate) fn add_time_in(page: &mut Page, form: Form, graph: &Graph, row: &OneRow)
    requires room { length page.old + MAX_ROW ≤ PAGE }
    requires declared { row.now.object.0 < length graph.now.objects }
    ensures { page.new ≡ page.old ++ time_in form graph.now row.now }
{
    match form {
        Form::Plain => add_time(page, graph, row),
        Form::Json => add_json_time(page, graph, row),
    }
}

/// Puts a row of two times in a form behind what the page has.
pub(crate) fn add_pair_in(page: &mut Page, form: Form, graph: &Graph, row: &Row)
    requires room { length page.old + MAX_ROW ≤ PAGE }
    requires source { row.now.source.0 < length graph.now.objects }
    requires target { row.now.target.0 < length graph.now.objects }
    ensures { page.new ≡ page.old ++ pair_in form graph.now row.now }
{
    match form {
        Form::Plain => add_pair(page, graph, row),
        Form::Json => add_json_pair(page, graph, row),
    }
}

/// Puts a row of counts in a form behind what the page has.
pub(crate) fn add_count_in(page: &mut Page, form: Form, row: &CountRow)
    requires room { length page.old + MAX_ROW ≤ PAGE }
    ensures { page.new ≡ page.old ++ count_in form row.now }
{
    match form {
        Form::Plain => add_count(page, row),
        Form::Json => add_json_count(page, row),
    }
}

// Puts the line of a row of one time behind what the page has.
#[tactic(auto, unfolding(crate::specs::Texts::time_text))]
fn add_time(page: &mut Page, graph: &Graph, row: &OneRow)
    requires room { length page.old + MAX_ROW ≤ PAGE }
    requires declared { row.now.object.0 < length graph.now.objects }
    ensures { page.new ≡ page.old ++ time_text graph.now row.now }
{
    add_departures(page, graph, row.object, row.span.from(), row.span.to());
    page.add(b"\n");
}

// Puts the line of a row of two times behind what the page has.
#[tactic(auto, unfolding(crate::specs::Texts::pair_text))]
fn add_pair(page: &mut Page, graph: &Graph, row: &Row)
    requires room { length page.old + MAX_ROW ≤ PAGE }
    requires source { row.now.source.0 < length graph.now.objects }
    requires target { row.now.target.0 < length graph.now.objects }
    ensures { page.new ≡ page.old ++ pair_text graph.now row.now }
{
    add_departures(page, graph, row.source, row.band.from, row.band.to);
    page.add(b" ");
    add_arrivals(page, graph, row.target, row.band.low, row.band.high);
    page.add(b"\n");
}

// Puts the line of a row of counts behind what the page has.
#[tactic(auto, unfolding(crate::specs::Texts::count_text))]
fn add_count(page: &mut Page, row: &CountRow)
    requires room { length page.old + MAX_ROW ≤ PAGE }
    ensures { page.new ≡ page.old ++ count_text row.now }
{
    add_span(page, row.span.from(), row.span.to());
    page.add(b" ");
    page.add_number(u64::from(row.number));
    page.add(b"\n");
}

// Puts an object and a span of its moments behind what the page has.
#[tactic(auto, unfolding(crate::specs::Texts::departures_text))]
fn add_departures(page: &mut Page, graph: &Graph, object: ObjNo, from: i64, to: i64)
    requires room { length page.old + MAX_PART ≤ PAGE }
    requires declared { object.0 < length graph.now.objects }
    ensures added { page.new ≡ page.old ++ departures_text graph.now object.0 from to }
    ensures size { length page.new ≤ length page.old + MAX_PART }
{
    page.add(graph.name_of(object).bytes());
    page.add(b" ");
    add_span(page, from, to);
}

// Puts an object and two ends of a band behind what the page has.
#[tactic(auto, unfolding(crate::specs::Texts::arrivals_text))]
fn add_arrivals(page: &mut Page, graph: &Graph, object: ObjNo, low: End, high: End)
    requires room { length page.old + MAX_PART ≤ PAGE }
    requires declared { object.0 < length graph.now.objects }
    ensures added { page.new ≡ page.old ++ arrivals_text graph.now object.0 low high }
    ensures size { length page.new ≤ length page.old + MAX_PART }
{
    page.add(graph.name_of(object).bytes());
    page.add(b" ");
    add_ends(page, low, high);
}

// Puts two ends of a band behind what the page has.
#[tactic(auto, unfolding(crate::specs::Texts::ends_text))]
fn add_ends(page: &mut Page, low: End, high: End)
    requires { length page.old + 2 * MAX_END + 2 ≤ PAGE }
    ensures added { page.new ≡ page.old ++ ends_text low high }
    ensures size { length page.new ≤ length page.old + 2 * MAX_END + 2 }
{
    add_end(page, low);
    page.add(b"..");
    add_end(page, high);
}

// Puts a span behind what the page has.
#[tactic(auto, unfolding(crate::specs::Texts::span_text))]
fn add_span(page: &mut Page, from: i64, to: i64)
    requires { length page.old + 2 * MAX_END ≤ PAGE }
    ensures added { page.new ≡ page.old ++ span_text from to }
    ensures size { length page.new ≤ length page.old + 2 * MAX_END }
{
    page.add_moment(from);
    page.add(b"..");
    page.add_moment(to);
}

// Puts the end of a band behind what the page has.
#[tactic(auto, unfolding(crate::specs::Texts::end_text))]
fn add_end(page: &mut Page, end: End)
    requires { length page.old + MAX_END ≤ PAGE }
    ensures added { page.new ≡ page.old ++ end_text end }
    ensures size { length page.new ≤ length page.old + MAX_END }
{
    match end {
        End::Fixed(moment) => page.add_moment(moment),
        End::Moving(distance) => add_moving(page, distance),
    }
}

// Puts an end that moves with the departure behind what the page has.
#[tactic(auto, unfolding(crate::specs::Texts::moving_text))]
fn add_moving(page: &mut Page, distance: i64)
    requires { length page.old + MAX_END ≤ PAGE }
    ensures added { page.new ≡ page.old ++ moving_text distance }
    ensures size { length page.new ≤ length page.old + MAX_END }
{
    page.add(b"t");
    if distance > 0 {
        page.add(b"+");
        page.add_moment(distance);
    } else if distance < 0 {
        page.add_moment(distance);
    }
}
