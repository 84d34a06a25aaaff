//! Why a text is refused.
ghost use Rattle.std.specs.Prelude.{◌≡◌, ◌≤◌, length};
ghost use Rattle.itpg_base.specs.TextCodes.{text_word};

/// What is wrong with a script line or a query text. The variants stand in the order in which faults are tried.
#[derive(Clone, Copy, Debug, PartialEq, Eq)]
pub enum TextCode {
    /// The text has more bytes than are allowed.
    Long,
    /// A byte with which no token begins, or one that may not stand in a quoted text.
    Byte,
    /// The text has more tokens than are allowed.
    Tokens,
    /// Brackets stand in one another too deep.
    Deep,
    /// A quoted text isn't closed, or the tokens are of no form.
    Text,
    /// A number is further from zero than the greatest moment, `MAX_MOMENT`.
    Number,
    /// A name, a word or a quoted text is longer than `MAX_NAME`.
    Name,
    /// The least of a repetition is above its most.
    Range,
    /// A name is bound twice, or isn't bound.
    Names,
    /// The query has more terms than are allowed.
    Terms,
}

impl TextCode {
    /// The word that a reply names the fault by.
    pub fn word(self) -> &'static str
        ensures word { result.now ≡ text_word self }
        ensures short { length result.now ≤ 6 }
    {
        match self {
            TextCode::Long => "long",
            TextCode::Byte => "byte",
            TextCode::Tokens => "tokens",
            TextCode::Deep => "deep",
            TextCode::Text => "text",
            TextCode::Number => "number",
            TextCode::Name => "name",
            TextCode::Range => "range",
            TextCode::Names => "names",
            TextCode::Terms => "terms",
        }
    }
}
