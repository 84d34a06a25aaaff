//! Rows, joined stretch by stretch.
//!
//! In contracts `held` is the list of all bands: its pairs are the relation whose rows are meant.

ghost use Rattle.std.specs.Prelude.{◌≡◌, ◌∷◌, [], ◌++◌, ℤ, pos, ◌+ℤ◌, ◌≤◌, ◌<◌, List, length, take, Some, IfOk, OnOk, IfSome, IfNone, slice_get};
ghost use Rattle.std.specs.Option.{option_to_list};
ghost use Rattle.band_normal.specs.declared.band.Band.{Band};
ghost use Rattle.itpg_base.specs.Lists.{Among, Ordered};
ghost use Rattle.band_normal.specs.Bands.{IsWellFormed};
ghost use Rattle.band_normal.specs.Strips.{Holds};
ghost use Rattle.band_normal.specs.Rows.{strip, Continues, IsUnder, RunsBelow, CanFollow, JoinsStrip, CanJoin, AreRowsTo};

use crate::band::Band;
use crate::joints::{continues, is_under, join_strip};
use crate::strips::{Ends, Stretch, Strips};
use std::alloc::AllocError;

/// Rows under way along the departures.
#[derive(Drop)]
pub struct Rows {
    /// Rows that don't go on.
    pub complete: Vec<Band>,
    /// Rows that reach the last departure done.
    pub reaching: Vec<Band>,
    /// What the last stretch is done with; the next one takes its memory.
    pub spare: Spare,
}

/// Lists whose items are of no use any more.
#[derive(Drop)]
pub struct Spare {
    pub reaching: Vec<Band>,
    pub passed: Vec<Band>,
}

// Rows while the strips of a stretch are joined to them.
#[derive(Drop)]
struct Joining {
    complete: Vec<Band>,
    // Rows that reach the stretch's last departure.
    next: Vec<Band>,
    // Rows up to the stretch that no strip continues.
    passed: Vec<Band>,
}

// The complete rows, with no others yet.
fn emptied(complete: Vec<Band>, spare: Spare) -> Joining
    ensures complete { result.complete.items ≡ complete.items }
    ensures next { result.next.items ≡ [] }
    ensures passed { result.passed.items ≡ [] }
{
    let Spare {
        reaching: mut next,
        mut passed,
    } = spare;
    next.clear();
    passed.clear();
    Joining {
        complete,
        next,
        passed,
    }
}

// How many of the rows, from the first on, end too low for the strip to continue them.
fn under_count(rows: &[Band], strip: Band) -> usize
    requires rows_formed { (b : Band) → Among rows.now b → IsWellFormed b }
    requires strip_formed { IsWellFormed strip }
    ensures within { result ≤ length rows.now }
    ensures under { (b : Band) → Among (take result rows.now) b → IsUnder b strip }
    ensures next { (b : Band) → slice_get rows.now result ≡ Some b → IsUnder b strip → ⊥ }
{
    for (i, row) in rows.iter().enumerate() {
        if !is_under(*row, strip) {
            return i;
        }
    }
    rows.len()
}

// The first row, where the strip continues it.
fn leader(rows: &[Band], strip: Band) -> Option<Band>
    requires rows_formed { (b : Band) → Among rows.now b → IsWellFormed b }
    requires strip_formed { IsWellFormed strip }
    requires next { (b : Band) → Among rows.now b → strip.from ≡ b.to +ℤ pos 1 }
    ensures some { IfSome result (λ r. slice_get rows.now 0 ≡ Some r) }
    ensures found { IfSome result (λ r. Continues r strip) }
    ensures none { IfNone result ((b : Band) → slice_get rows.now 0 ≡ Some b → Continues b strip → ⊥) }
{
    let row = rows.first()?;
    if continues(*row, strip) {
        Some(*row)
    } else {
        None
    }
}

fn led_count(row: Option<Band>) -> usize
    ensures { result ≡ length (option_to_list row) }
{
    match row {
        None => 0,
        Some(_) => 1,
    }
}

/// Adds the item, if there is one.
pub fn push_some<T: Copy>(items: &mut Vec<T>, item: Option<T>) -> Result<(), AllocError>
    ensures { OnOk result (items.new.items ≡ items.old.items ++ option_to_list item) }
{
    if let Some(item) = item {
        items.push(item)?;
    }
    Ok(())
}

/// Adds the bands, of which there are often none.
pub fn push_all(bands: &mut Vec<Band>, more: &[Band]) -> Result<(), AllocError>
    ensures { OnOk result (bands.new.items ≡ bands.old.items ++ more.now) }
{
    if more.is_empty() {
        return Ok(());
    }
    bands.extend_from_slice(more)?;
    Ok(())
}

// The band with these ends along the stretch.
fn strip_along(along: Stretch, ends: Ends) -> Band
    ensures { result ≡ strip along ends }
{
    Band {
        from: along.from,
        to: along.to,
        low: ends.low,
        high: ends.high,
    }
}

// One more strip, joined to the row that it continues, if there is one.
fn with_strip(
    joining: Joining,
    under: &[Band],
    row: Option<Band>,
    strip: Band,
) -> Result<Joining, AllocError>
    ghost held: { List Band }
    requires { CanFollow (Holds held) (option_to_list row) strip }
    ensures { IfOk result (λ j. JoinsStrip (Holds held) joining.complete.items joining.next.items joining.passed.items under.now row strip j.complete.items j.next.items j.passed.items) }
{
    let Joining {
        mut complete,
        mut next,
        mut passed,
    } = joining;
    push_all(&mut passed, under)?;
    let joint = join_strip(row, strip);
    push_some(&mut complete, joint.complete)?;
    next.push(joint.reaching)?;
    Ok(Joining {
        complete,
        next,
        passed,
    })
}

// The rows once all strips are joined: those that no strip continued are complete.
fn closed(joining: Joining, waiting: &[Band]) -> Result<Joining, AllocError>
    ensures complete { IfOk result (λ j. j.complete.items ≡ joining.complete.items ++ (joining.passed.items ++ waiting.now)) }
    ensures next { IfOk result (λ j. j.next.items ≡ joining.next.items) }
{
    let Joining {
        mut complete,
        next,
        passed,
    } = joining;
    push_all(&mut complete, &passed)?;
    push_all(&mut complete, waiting)?;
    Ok(Joining {
        complete,
        next,
        passed,
    })
}

/// The rows with the strips of one more stretch, which begins after their last departure.
///
/// Both the rows that reach it and the strips stand from low to high, so each is passed once.
pub fn join(rows: Rows, strips: &Strips) -> Result<Rows, AllocError>
    ghost held: { List Band }
    requires can { CanJoin (Holds held) rows.complete.items rows.reaching.items strips.now.along strips.now.runs.items }
    requires line { Ordered RunsBelow rows.reaching.items }
    ensures rows { IfOk result (λ r. AreRowsTo (Holds held) (strips.now.along.to +ℤ pos 1) r.complete.items r.reaching.items) }
    ensures line { IfOk result (λ r. Ordered RunsBelow r.reaching.items) }
{
    let Rows {
        complete,
        reaching,
        spare,
    } = rows;
    let mut joining = emptied(complete, spare);
    let mut waiting = &reaching[..];
    for ends in &strips.runs {
        let strip = strip_along(strips.along, *ends);
        let (under, others) = waiting.split_at(under_count(waiting, strip));
        let row = leader(others, strip);
        let (_, later) = others.split_at(led_count(row));
        joining = with_strip(joining, under, row, strip)?;
        waiting = later;
    }
    let Joining {
        complete,
        next,
        passed,
    } = closed(joining, waiting)?;
    Ok(Rows {
        complete,
        reaching: next,
        spare: Spare { reaching, passed },
    })
}
