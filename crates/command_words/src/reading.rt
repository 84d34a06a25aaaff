//! Reading the words.
ghost use Rattle.std.specs.Prelude.{◌≡◌, ◌≢◌, ℕ, Option, map, option_map, codes, string_bytes, IfOk, OnOk, IsErrOf, MatchOption};
ghost use Rattle.clap.specs.Words.{app_of, kind_of};
ghost use Rattle.command_words.specs.declared.options.Options.{Options as PlainOptions};
ghost use Rattle.command_words.specs.Sentence.{command, IsSentence, value_in, says_true, has_flag};
ghost use Rattle.command_words.specs.OptionsOf.{AreOptionsOf, LimitIs, TrialIs};

use crate::number::read_number;
use crate::options::{Options, WordsFault};
use clap::error::ErrorKind;
use clap::{Arg, ArgAction, Command};
use itpg_base::Limits;
use std::alloc::{AllocError, Global};

// The names of the two options.
const MAX_ROWS: &str = "max-rows";

const TRIAL: &str = "trial";

// The name of the flag.
const JSON: &str = "json";

// How many rows a relation may have where the words name no limit.
const DEFAULT_ROWS: u32 = 100_000;

/// Reads the words of a command line, without the program's name: `[--max-rows N] [--trial NUMBER] [--json]`.
///
/// # Errors
///
/// `Usage` only if the words ask for no options; `Memory` if memory runs out.
pub fn read_words(alloc: Global, words: &[String]) -> Result<Options, WordsFault>
    ensures options { IfOk result (λ o. AreOptionsOf (map string_bytes words.now) o) }
    ensures usage { IsErrOf result WordsFault.Usage → (o : PlainOptions) → ¬ AreOptionsOf (map string_bytes words.now) o }
{
    let given = given_in(alloc, words)?;
    let Some(limits) = limits_of(given.max_rows) else {
        return Err(WordsFault::Usage);
    };
    let Some(trial) = trial_of(given.trial) else {
        return Err(WordsFault::Usage);
    };
    Ok(Options {
        limits,
        trial,
        json: given.json,
    })
}

// The values that the words give the options, as text.
#[derive(Drop)]
struct Given<'a> {
    max_rows: Option<&'a str>,
    trial: Option<&'a str>,
    json: bool,
}

// The values of the options, where the words fit the command.
fn given_in<'a>(alloc: Global, words: &'a [String]) -> Result<Given<'a>, WordsFault>
    ensures fits { OnOk result (IsSentence (map string_bytes words.entry.now)) }
    ensures usage { IsErrOf result WordsFault.Usage → ¬ IsSentence (map string_bytes words.entry.now) }
    ensures max_rows { IfOk result (λ given. option_map (λ s. s.now) given.max_rows ≡ value_in (codes "max-rows") (map string_bytes words.entry.now)) }
    ensures trial { IfOk result (λ given. option_map (λ s. s.now) given.trial ≡ value_in (codes "trial") (map string_bytes words.entry.now)) }
    ensures json { IfOk result (λ given. given.json ≡ has_flag (codes "json") (map string_bytes words.entry.now)) }
{
    let command = match command_of(alloc) {
        Ok(command) => command,
        Err(AllocError) => return Err(WordsFault::Memory),
    };
    let matches = match command.try_get_matches_from(words) {
        Ok(matches) => matches,
        Err(error) => return Err(cause(&error)),
    };
    Ok(Given {
        max_rows: matches.get_str(MAX_ROWS),
        trial: matches.get_str(TRIAL),
        json: is_true(matches.get_str(JSON)),
    })
}

// Whether this value of a flag says that the words give it.
fn is_true(value: Option<&str>) -> bool
    ensures { result ≡ says_true (option_map (λ s. s.now) value.entry) }
{
    match value {
        Some(text) => text == "true",
        None => false,
    }
}

// What a refusal of clap is told as.
fn cause(error: &clap::Error) -> WordsFault
    ensures { result ≡ WordsFault.Usage → kind_of error.now ≢ ErrorKind.OutOfMemory }
{
    if error.kind() == ErrorKind::OutOfMemory {
        WordsFault::Memory
    } else {
        WordsFault::Usage
    }
}

// The command as clap reads it.
fn command_of<'a>(alloc: Global) -> Result<Command<'a>, AllocError>
    ensures { IfOk result (λ made. app_of made ≡ command) }
{
    let max_rows = Arg::new(alloc, MAX_ROWS)
        .long(MAX_ROWS)
        .action(ArgAction::Set);
    let trial = Arg::new(alloc, TRIAL).long(TRIAL).action(ArgAction::Set);
    let json = Arg::new(alloc, JSON).long(JSON).action(ArgAction::SetTrue);
    let named = Command::new(alloc, "itpg")
        .arg(max_rows)?
        .arg(trial)?
        .arg(json)?;
    Ok(named.no_binary_name(true))
}

// The limit that a value asks for, or the one without a value; `None` exactly if the value is no limit.
fn limits_of(value: Option<&str>) -> Option<Limits>
    ensures { let given = option_map (λ s. s.now) value.entry in MatchOption result ((n : ℕ) → ¬ LimitIs given n) (λ limits. LimitIs given limits) }
{
    match value {
        None => Limits::new(DEFAULT_ROWS),
        Some(text) => Limits::new(u32::try_from(read_number(text)?).ok()?),
    }
}

// The number of the trial that a value asks for, if there is a value; `None` exactly if the value is no such number.
fn trial_of(value: Option<&str>) -> Option<Option<u64>>
    ensures { let given = option_map (λ s. s.now) value.entry in MatchOption result ((t : Option ℕ) → ¬ TrialIs given t) (λ trial. TrialIs given trial) }
{
    match value {
        None => Some(None),
        Some(text) => Some(Some(read_number(text)?)),
    }
}
