//! Laws of the output and of summaries. Each is the contract of a function that does nothing of use when it runs.
ghost use Rattle.itpg_run.specs.OutputLaws.{OneOutput, SomeOutput, OutputGrows, OutputBegins};
ghost use Rattle.itpg_run.specs.StillLaws.{StillReplies, SomeStill, OneStill};
ghost use Rattle.itpg_run.specs.SummaryLaws.{OneSummary, SomeSummary};

use edit_reader::law_of_lines;
use itpg_session::{law_of_asked, law_of_replies};

/// A script has at most one output.
pub fn one_output()
    ensures { OneOutput }
{
    law_of_replies();
}

/// Each script has an output.
pub fn some_output()
    ensures { SomeOutput }
{
    law_of_replies();
}

/// The output over the whole lines of some first bytes begins the output over all.
pub fn output_grows()
    ensures { OutputGrows }
{
    law_of_replies();
}

/// An output over all bytes has in it one over the whole lines of the first of them.
pub fn output_begins()
    ensures { OutputBegins }
{}

/// A trial has exactly one summary at each limit of rows.
pub fn law_of_summaries()
    ensures one { OneSummary }
    ensures some { SomeSummary }
{
    law_of_asked();
    law_of_replies();
}

/// What is asked of a pin has the reply that it has without the edits since the pin was opened, and these can be taken out of the lines
/// in exactly one way.
pub fn law_of_pins()
    ensures replies { StillReplies }
    ensures some { SomeStill }
    ensures one { OneStill }
{
    law_of_lines();
    law_of_asked();
    law_of_replies();
}
