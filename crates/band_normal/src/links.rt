//! Strips linked to rows, in whatever order they stand.
//!
//! A strip is a band whose arrivals are one run at each of its departures. The strips are taken by their first departure. A row
//! under way ends where one of the strips ends, so it stands at that strip's place in the list by ends. Two runs of one departure
//! never have low ends that differ by one or not at all, so of all rows under way a strip can continue only the one at the first
//! place that isn't before its corner: two searches a strip, and no row is moved.

ghost use Rattle.std.specs.Prelude.{◌≡◌, ◌↔◌, ◌++◌, ◌≤◌, ◌<◌, [], ◌-ℤ◌};
ghost use Rattle.std.specs.Prelude.{ℕ, ℤ, List, Option, None, Some, IsTrue, IfOk, IfSome, IfNone, length, get_or, slice_set, pos, FitsSigned};
ghost use Rattle.std.specs.Int.{w64};
ghost use Rattle.std.specs.Option.{option_to_list};
ghost use Rattle.std.specs.List.Sorted.{IsPermutation};
ghost use Rattle.band_normal.specs.declared.band.Band.{Band as PlainBand};
ghost use Rattle.itpg_base.specs.Lists.{Among, Ordered};
ghost use Rattle.band_normal.specs.Bands.{IsWellFormed};
ghost use Rattle.band_normal.specs.Strips.{Holds, BeginsEarlier};
ghost use Rattle.band_normal.specs.Rows.{Continues, CanFollow, IsJoint, AreAll, clamped_at};
ghost use Rattle.band_normal.specs.Zones.{present};

use crate::band::{Band, End};
use crate::joints::{continues, join_strip};
use crate::rows::push_some;
use std::alloc::{AllocError, Global};

/// A departure, and a low end there.
#[derive(Clone, Copy)]
pub struct Corner {
    pub departure: i64,
    pub low: i64,
}

/// Rows while strips are linked: those that are complete, and at the place of its last strip each that isn't.
#[derive(Drop)]
pub struct Linking {
    pub complete: Vec<Band>,
    pub slots: Vec<Option<Band>>,
}

ghost use Rattle.band_normal.specs.declared.links.Corner.{Corner};
ghost use Rattle.band_normal.specs.Links.{EndsBefore, EndsUpTo, last_low_of, last_corner, corner_before, cleared, CanLink, CanLinkAll, LinksAt, AreStrips};

// The low end at the last departure, which is in range in each strip.
fn last_low(strip: &Band) -> i64
    ensures { result ≡ last_low_of strip.now }
{
    match strip.low {
        End::Fixed(n) => n,
        End::Moving(k) => strip.to.saturating_add(k),
    }
}

// Where the strip ends.
fn corner_of_end(strip: Band) -> Corner
    ensures { result ≡ last_corner strip }
{
    Corner {
        departure: strip.to,
        low: last_low(&strip),
    }
}

// The lowest corner that a row which the strip continues can end with.
fn corner_to_continue(strip: Band) -> Corner
    requires { IsWellFormed strip }
    ensures { result ≡ corner_before strip }
{
    Corner {
        departure: strip.from - 1,
        low: strip.low.at(strip.from) - 1,
    }
}

// By the last departure, then by the low end there.
fn ends_before(strip: &Band, corner: Corner) -> bool
    ensures { IsTrue result ↔ EndsBefore strip.now corner }
{
    if strip.to < corner.departure {
        return true;
    }
    if corner.departure < strip.to {
        return false;
    }
    last_low(strip) < corner.low
}

// The first place of a strip that doesn't end before the corner.
fn place(ends: &[Band], corner: Corner) -> usize
    requires { Ordered EndsUpTo ends.now }
    ensures within { result ≤ length ends.now }
    ensures before { (i : ℕ) → (d : PlainBand) → i < result → EndsBefore (get_or ends.now i d) corner }
    ensures after { (i : ℕ) → (d : PlainBand) → result ≤ i → i < length ends.now → EndsBefore (get_or ends.now i d) corner → ⊥ }
{
    let mut from = 0;
    let mut to = ends.len();
    while from < to {
        let middle = from + (to - from) / 2;
        if ends_before(&ends[middle], corner) {
            from = middle + 1;
        } else {
            to = middle;
        }
    }
    from
}

// A place for each strip, with no row yet.
fn no_rows(alloc: Global, ends: &[Band]) -> Result<Vec<Option<Band>>, AllocError>
    ensures len { IfOk result (λ v. length v.items ≡ length ends.now) }
    ensures none { IfOk result (λ v. (k : ℕ) → get_or v.items k None ≡ None) }
{
    let mut slots = Vec::new(alloc);
    for i in 0..ends.len() {
        let _ = i;
        slots.push(None)?;
    }
    Ok(slots)
}

// The row at the place, if there is one.
fn row_at(slots: &[Option<Band>], at: usize) -> Option<Band>
    ensures { result ≡ get_or slots.now at None }
{
    match slots.get(at) {
        Some(row) => *row,
        None => None,
    }
}

// The row, where the strip continues it.
fn led(row: Option<Band>, strip: Band) -> Option<Band>
    requires row_formed { IfSome row (λ b. IsWellFormed b) }
    requires strip_formed { IsWellFormed strip }
    ensures some { IfSome result (λ b. row ≡ Some b) }
    ensures found { IfSome result (λ b. Continues b strip) }
    ensures none { IfNone result ((b : PlainBand) → row ≡ Some b → Continues b strip → ⊥) }
{
    let row = row?;
    if row.to != strip.from - 1 {
        return None;
    }
    if continues(row, strip) {
        Some(row)
    } else {
        None
    }
}

// The rows under way with this one at the place, or none.
fn with_slot(mut slots: Vec<Option<Band>>, at: usize, row: Option<Band>) -> Vec<Option<Band>>
    ensures { result.items ≡ slice_set slots.items at row }
{
    if at < slots.len() {
        slots[at] = row;
    }
    slots
}

// Takes the row, if any, from its place.
fn clear(slots: Vec<Option<Band>>, at: usize, row: Option<Band>) -> Vec<Option<Band>>
    ensures { result.items ≡ cleared slots.items at row }
{
    match row {
        None => slots,
        Some(_) => with_slot(slots, at, None),
    }
}

// One more strip, joined to the row that it continues, if there is one.
fn link_strip(linking: Linking, ends: &[Band], strip: Band) -> Result<Linking, AllocError>
    ghost held: { List PlainBand }
    requires { CanLink (Holds held) ends.now linking.slots.items strip }
    ensures { IfOk result (λ j. LinksAt (Holds held) ends.now linking.complete.items linking.slots.items strip j.complete.items j.slots.items) }
{
    let Linking {
        mut complete,
        slots,
    } = linking;
    let from = place(ends, corner_to_continue(strip));
    let row = led(row_at(&slots, from), strip);
    let joint = join_strip(row, strip);
    push_some(&mut complete, joint.complete)?;
    let at = place(ends, corner_of_end(strip));
    let slots = with_slot(clear(slots, from, row), at, Some(joint.reaching));
    Ok(Linking { complete, slots })
}

// All strips linked, in the order in which they begin.
fn linked(alloc: Global, starts: &[Band], ends: &[Band]) -> Result<Linking, AllocError>
    ghost held: { List PlainBand }
    requires { CanLinkAll (Holds held) starts.now ends.now }
    ensures { IfOk result (λ j. AreAll (Holds held) (j.complete.items ++ present j.slots.items)) }
{
    let mut linking = Linking {
        complete: Vec::new(alloc),
        slots: no_rows(alloc, ends)?,
    };
    for strip in starts {
        linking = link_strip(linking, ends, *strip)?;
    }
    Ok(linking)
}

// All rows, those that are complete and those under way to the last.
fn rows_linked(linking: Linking) -> Result<Vec<Band>, AllocError>
    ensures { IfOk result (λ v. v.items ≡ linking.complete.items ++ present linking.slots.items) }
{
    let Linking {
        mut complete,
        slots,
    } = linking;
    for row in &slots {
        push_some(&mut complete, *row)?;
    }
    Ok(complete)
}

/// The rows of the pairs that the strips hold.
pub fn link(alloc: Global, strips: &[Band]) -> Result<Vec<Band>, AllocError>
    requires well_formed { (b : PlainBand) → Among strips.now b → IsWellFormed b }
    requires strips { AreStrips (Holds strips.now) strips.now }
    ensures { IfOk result (λ v. AreAll (Holds strips.now) v.items) }
{
    let mut ends = Vec::from_slice(alloc, strips)?;
    ends.sort_by_key(|strip| (strip.to, last_low(strip)))?;
    let mut starts = Vec::from_slice(alloc, strips)?;
    starts.sort_by_key(|strip| strip.from)?;
    rows_linked(linked(alloc, &starts, &ends)?)
}
