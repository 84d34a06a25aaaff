//! Lists of labels: words parted by commas.
ghost use Rattle.std.specs.Prelude.{◌≡◌, None, IfOk, IfSome, MatchOption, MatchResult};
ghost use Rattle.edit_reader.specs.Forms.{lexemes};
ghost use Rattle.edit_reader.specs.Labels as labels;
ghost use Rattle.edit_reader.specs.Taken.{OfRest, IsBehindComma, AreListed, NoneListed, AreLabels};

use crate::parts::{Parts, name};
use itpg_base::{LabelSet, MAX_LABELS, Name, TextCode};
use script_lex::{Mark, What};

impl<'a> Parts<'a> {
    // What stands behind the list of labels that comes first.
    pub(crate) fn behind_labels(self) -> Result<Parts<'a>, TextCode>
        ensures taken { OfRest self.entry.line.now self.entry.at (λ tokens.
            MatchResult result
            (λ r. AreListed self.entry.line.now MAX_LABELS tokens r.line.now r.at)
            (λ code. NoneListed MAX_LABELS tokens code)) }
        ensures line { IfOk result (λ r. r.line.now ≡ self.entry.line.now) }
    {
        let mut parts = self;
        for _ in 0..MAX_LABELS {
            let (_, rest) = parts.word()?;
            match rest.behind_comma() {
                Some(more) => parts = more,
                None => return Ok(rest),
            }
        }
        Err(TextCode::Text)
    }

    // The labels of the list that comes first.
    pub(crate) fn labels(self) -> Result<LabelSet, TextCode>
        ensures { OfRest self.entry.line.now self.entry.at (λ tokens. AreLabels tokens result) }
    {
        let mut names = [Name::default(); MAX_LABELS];
        let mut parts = self;
        for place in 0..MAX_LABELS {
            let (word, rest) = parts.word()?;
            names[place] = name(word)?;
            match rest.behind_comma() {
                Some(more) => parts = more,
                None => return LabelSet::new(&names[..place + 1]).ok_or(TextCode::Text),
            }
        }
        Err(TextCode::Text)
    }

    // What stands behind the comma that comes first, if one does.
    pub(crate) fn behind_comma(self) -> Option<Parts<'a>>
        ensures taken { OfRest self.entry.line.now self.entry.at (λ tokens.
            MatchOption result (labels.behind_comma (lexemes tokens) ≡ None)
            (λ r. IsBehindComma self.entry.line.now tokens r.line.now r.at)) }
        ensures line { IfSome result (λ r. r.line.now ≡ self.entry.line.now) }
    {
        match self.token() {
            Some((What::Mark(Mark::Comma), rest)) => Some(rest),
            _ => None,
        }
    }
}
