//! The words of the command line.
ghost use Rattle.std.specs.Prelude.{◌≡◌, ◌⊎◌, ℕ, map, string_bytes, IfOk, IfErr, IsErrOf};
ghost use Rattle.std.specs.List.{list_any};
ghost use Rattle.explanations.specs.Words.{AskForLimit, is_help as is_help_word};

use command_words::{Status, WordsFault, law_of_one_reading, read_words};
use itpg_base::Limits;
use std::alloc::Global;

const HELP: &str = "--help";

/// What the command prints when it is asked for help.
pub(crate) const HELP_TEXT: &str = "\
usage: itpg-explain [--max-rows N] [--help] < SCRIPT

Reads a script as itpg does. Its edits are made in silence. Of each line ask, first, last, count, in .. ask, show and near
it writes the path with every bracket, what each part of it costs, the head of itpg's reply, and hints.

  --max-rows N   how many rows a relation may have, from 1 to 1000000; else 100000
  --help         this text

examples
  itpg-explain < examples/edges.itpg
  itpg-explain --max-rows 1000000 < SCRIPT | grep '^wide'
  itpg-explain < SCRIPT | grep '^hint'
";

/// Whether the words, without the program's name, ask for help.
pub(crate) fn asks_for_help(words: &[String]) -> bool
    ensures { result ≡ list_any (λ word. is_help_word (string_bytes word)) words.now }
{
    words.iter().any(|word| is_help(word))
}

fn is_help(word: &String) -> bool
    ensures { result ≡ is_help_word (string_bytes word.now) }
{
    word.as_str() == HELP
}

/// The limit of rows that the words ask for, where they don't ask for help.
///
/// # Errors
///
/// `Usage` only if they ask for nothing; `Memory` if memory runs out.
pub(crate) fn limits_of(alloc: Global, words: &[String]) -> Result<Limits, Status>
    ensures limit { IfOk result (λ limits. AskForLimit (map string_bytes words.now) limits) }
    ensures usage { IsErrOf result Status.Usage → (limit : ℕ) → ¬ AskForLimit (map string_bytes words.now) limit }
    ensures told { IfErr result (λ status. (status ≡ Status.Usage) ⊎ (status ≡ Status.Memory)) }
{
    law_of_one_reading();
    match read_words(alloc, words) {
        Ok(options) => {
            if options.json || options.trial.is_some() {
                return Err(Status::Usage);
            }
            Ok(options.limits)
        }
        Err(WordsFault::Usage) => Err(Status::Usage),
        Err(WordsFault::Memory) => Err(Status::Memory),
    }
}
