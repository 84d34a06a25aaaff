//! What is written of a line.
ghost use Rattle.std.specs.Prelude.{◌≡◌, ◌++◌, codes, option_map, IfOk, OnOk};
ghost use Rattle.std.specs.Fmt.{decimal};
ghost use Rattle.explanations.specs.Texts.{means_text, said_text};

use itoa::Buffer;
use question_costs::{Explained, add, add_line};
use std::alloc::{AllocError, Global};

/// The line behind its number, what is said before its reply, the head of this, what that means, and the hints.
pub(crate) fn said(
    alloc: Global,
    number: u64,
    line: &[u8],
    explained: &Explained,
    head: &[u8],
    meaning: Option<&str>,
) -> Result<Vec<u8>, AllocError>
    ensures { IfOk result (λ text. text.items ≡ said_text number line.now explained.now.front.items head.now (option_map (λ s. s.now) meaning.entry) explained.now.hints.items) }
{
    let mut text = Vec::new(alloc);
    add_head(&mut text, number, line)?;
    add(&mut text, &explained.front)?;
    add_reply(&mut text, head)?;
    add_meaning(&mut text, meaning)?;
    add(&mut text, &explained.hints)?;
    Ok(text)
}

// Adds the line behind its number.
fn add_head(text: &mut Vec<u8>, number: u64, line: &[u8]) -> Result<(), AllocError>
    ensures { OnOk result (text.new.items ≡ text.old.items ++ ((codes "explain " ++ decimal number) ++ codes " " ++ line.now ++ codes "\n")) }
{
    add(text, b"explain ")?;
    add_number(text, number)?;
    add(text, b" ")?;
    add(text, line)?;
    add(text, b"\n")
}

// Adds a number in decimal.
fn add_number(text: &mut Vec<u8>, number: u64) -> Result<(), AllocError>
    ensures { OnOk result (text.new.items ≡ text.old.items ++ decimal number) }
{
    let mut digits = Buffer::new();
    add(text, digits.format(number).as_bytes())
}

// Adds the head of a reply, as a line.
fn add_reply(text: &mut Vec<u8>, head: &[u8]) -> Result<(), AllocError>
    ensures { OnOk result (text.new.items ≡ text.old.items ++ (head.now ++ codes "\n")) }
{
    add(text, head)?;
    add(text, b"\n")
}

// Adds what a head means, if there is something to say.
fn add_meaning(text: &mut Vec<u8>, meaning: Option<&str>) -> Result<(), AllocError>
    ensures { OnOk result (text.new.items ≡ text.old.items ++ means_text (option_map (λ s. s.now) meaning.entry)) }
{
    match meaning {
        Some(sentence) => add_line(text, "means", sentence.as_bytes()),
        None => Ok(()),
    }
}
