//! What was found for a query, as text.
ghost use Rattle.std.specs.Prelude.{length, option_map, IfSome, OnOk, OnErr};
ghost use Rattle.itpg_base.specs.Sinks.{Gets, GetsSome, IsHonest};
ghost use Rattle.relation_rows.specs.Answered.{answered};
ghost use Rattle.row_printer.specs.Texts.{AreDeclared};
ghost use Rattle.itpg_session.specs.Texts.{found_text};

use itpg_base::{Failed, Sink};
use itpg_graph::Graph;
use relation_rows::Answer;
use reply_text::{write_rows, write_wide};
use row_printer::Form;

/// Writes what was found for a query: that it is wide, or the rows of its answer.
pub(crate) fn write_found<K: Sink>(
    form: Form,
    graph: &Graph,
    number: u64,
    found: &Option<Answer>,
    out: &mut K,
) -> Result<(), Failed>
    requires declared { IfSome (option_map answered found.now) (AreDeclared (length graph.now.objects)) }
    ensures written { OnOk result (Gets K.Sink out.old out.new (found_text form graph.now number (option_map answered found.now))) }
    ensures some { OnErr result (GetsSome K.Sink out.old out.new (found_text form graph.now number (option_map answered found.now))) }
    ensures cause { IsHonest K.Sink out.old out.new result }
{
    match found {
        Some(answer) => write_rows(form, number, graph, answer, out),
        None => write_wide(form, number, out),
    }
}
