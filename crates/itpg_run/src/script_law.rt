//! The laws of scripts. Each is the contract of a function that does nothing of use when it runs.
ghost use Rattle.itpg_run.specs.ScriptEdits.{EachEditReads};
ghost use Rattle.itpg_run.specs.ScriptQueries.{EachQuestionReads};
ghost use Rattle.itpg_run.specs.ScriptGraph.{EachScriptBuilds};
ghost use Rattle.itpg_run.specs.ThreeLines.{EachHasThreeLines};

use edit_reader::{law_of_labels, law_of_lines, law_of_moments};
use interval_set::{law_of_unique_values, law_of_uniqueness};
use itpg_edit::{law_of_next, law_of_rules};
use itpg_session::law_of_replies;
use match_parser::{law_of_queries, law_of_read_queries};
use script_lex::law_of_tokens;
use trial_script::law_of_questions;

/// Each line of a script reads: those before the questions as the edits that their words say, and each question as its query,
/// whose numbers are in range.
pub fn law_of_script_lines()
    ensures edits { EachEditReads }
    ensures questions { EachQuestionReads }
{
    law_of_tokens();
    law_of_read_queries();
}

/// The edits of a script build its graph: none of them breaks a rule.
pub fn law_of_script_graphs()
    ensures { EachScriptBuilds }
{
    law_of_next();
    law_of_uniqueness();
    law_of_unique_values();
}

/// Each summary has exactly three lines, one for each question: what is found for its query on the graph that the script
/// builds, `ask K rows R sum S` or `ask K wide`.
pub fn law_of_three_lines()
    ensures { EachHasThreeLines }
{
    law_of_lines();
    law_of_moments();
    law_of_labels();
    law_of_rules();
    law_of_next();
    law_of_queries();
    law_of_questions();
    law_of_replies();
    law_of_script_lines();
    law_of_script_graphs();
}
