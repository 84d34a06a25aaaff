//! The lines of rows as JSON, on a page. Behind the lead of a row stand the members of its object and the closing bracket.
ghost use Rattle.std.specs.Prelude.{◌≡◌, ◌+◌, ◌≤◌, ◌<◌, ◌++◌, length};
ghost use Rattle.row_printer.specs.JsonTexts.{json_departures, json_end, json_arrivals, json_pair, json_time, json_count};

use crate::lines::MAX_ROW;
use crate::page::{PAGE, Page};
use arrivals::CountRow;
use band_normal::End;
use itpg_base::ObjNo;
use itpg_graph::Graph;
use relation_rows::{OneRow, Row};

// How many bytes the end of a band is written with at most.
const MAX_END: usize = 32;

// How many bytes an object and two ends are written with at most.
const MAX_PART: usize = 156;

/// Puts the rest of the object of a row of one time behind what the page has.
#[tactic(auto, unfolding(crate::specs::JsonTexts::json_time))]
pub(crate) fn add_json_time(page: &mut Page, graph: &Graph, row: &OneRow)
    requires room { length page.old + MAX_ROW ≤ PAGE }
    requires declared { row.now.object.0 < length graph.now.objects }
    ensures { page.new ≡ page.old ++ json_time graph.now row.now }
{
    add_departures(page, graph, row.object, row.span.from(), row.span.to());
    page.add(b"}\n");
}

/// Puts the rest of the object of a row of two times behind what the page has.
#[tactic(auto, unfolding(crate::specs::JsonTexts::json_pair))]
pub(crate) fn add_json_pair(page: &mut Page, graph: &Graph, row: &Row)
    requires room { length page.old + MAX_ROW ≤ PAGE }
    requires source { row.now.source.0 < length graph.now.objects }
    requires target { row.now.target.0 < length graph.now.objects }
    ensures { page.new ≡ page.old ++ json_pair graph.now row.now }
{
    add_departures(page, graph, row.source, row.band.from, row.band.to);
    page.add(b",");
    add_arrivals(page, graph, row.target, row.band.low, row.band.high);
    page.add(b"}\n");
}

/// Puts the object of a row of counts behind what the page has.
#[tactic(auto, unfolding(crate::specs::JsonTexts::json_count))]
pub(crate) fn add_json_count(page: &mut Page, row: &CountRow)
    requires room { length page.old + MAX_ROW ≤ PAGE }
    ensures { page.new ≡ page.old ++ json_count row.now }
{
    page.add(b"{\"from\":");
    page.add_moment(row.span.from());
    page.add(b",\"to\":");
    page.add_moment(row.span.to());
    page.add(b",\"count\":");
    page.add_number(u64::from(row.number));
    page.add(b"}\n");
}

// Puts an object and a span of its moments behind what the page has.
#[tactic(auto, unfolding(crate::specs::JsonTexts::json_departures))]
fn add_departures(page: &mut Page, graph: &Graph, object: ObjNo, from: i64, to: i64)
    requires room { length page.old + MAX_PART ≤ PAGE }
    requires declared { object.0 < length graph.now.objects }
    ensures added { page.new ≡ page.old ++ json_departures graph.now object.0 from to }
    ensures size { length page.new ≤ length page.old + MAX_PART }
{
    page.add(b"\"id\":\"");
    page.add(graph.name_of(object).bytes());
    page.add(b"\",\"from\":");
    page.add_moment(from);
    page.add(b",\"to\":");
    page.add_moment(to);
}

// Puts an object and two ends of a band behind what the page has.
#[tactic(auto, unfolding(crate::specs::JsonTexts::json_arrivals))]
fn add_arrivals(page: &mut Page, graph: &Graph, object: ObjNo, low: End, high: End)
    requires room { length page.old + MAX_PART ≤ PAGE }
    requires declared { object.0 < length graph.now.objects }
    ensures added { page.new ≡ page.old ++ json_arrivals graph.now object.0 low high }
    ensures size { length page.new ≤ length page.old + MAX_PART }
{
    page.add(b"\"target\":\"");
    page.add(graph.name_of(object).bytes());
    page.add(b"\",\"low\":");
    add_end(page, low);
    page.add(b",\"high\":");
    add_end(page, high);
}

// Puts the end of a band behind what the page has.
#[tactic(auto, unfolding(crate::specs::JsonTexts::json_end))]
fn add_end(page: &mut Page, end: End)
    requires { length page.old + MAX_END ≤ PAGE }
    ensures added { page.new ≡ page.old ++ json_end end }
    ensures size { length page.new ≤ length page.old + MAX_END }
{
    match end {
        End::Fixed(moment) => {
            page.add(b"{\"fixed\":");
            page.add_moment(moment);
        }
        End::Moving(distance) => {
            page.add(b"{\"moving\":");
            page.add_moment(distance);
        }
    }
    page.add(b"}");
}
