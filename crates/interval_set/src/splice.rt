//! The one kind of splice that each change of a list makes.
ghost use Rattle.std.specs.Prelude.{◌≡◌, ◌↔◌, ℕ, ◌+◌, ◌*◌, ◌^◌, ◌<◌, ◌≤◌, ◌++◌, ◌∷◌, length, take, drop, vec_len, IsTrue, OnOk, OnErr};
ghost use Rattle.std.specs.Mem.{type_size};
ghost use Rattle.interval_set.specs.Splices.{CanSplice, spliced};

use std::alloc::AllocError;

/// A change of a list: up to three pieces in place of the items from `first` to before `last`.
///
/// ```text
/// items        a  b [c  d] e        first is 2, last is 4
/// afterwards   a  b  x  y  e        before is x, own is y
/// ```
#[derive(Clone, Copy)]
pub(crate) struct Splice<T> {
    pub(crate) first: usize,
    pub(crate) last: usize,
    pub(crate) before: Option<T>,
    pub(crate) own: Option<T>,
    pub(crate) after: Option<T>,
}

impl<T: Copy> Splice<T> {
    /// How many items the list would have after the splice.
    pub(crate) fn count(&self, items: &[T]) -> usize
        requires places { CanSplice self.now (length items.now) }
        requires small { length items.now < 2 ^ 63 }
        ensures { result ≡ length (spliced self.now items.now) }
    {
        let pieces = usize::from(self.before.is_some())
            + usize::from(self.own.is_some())
            + usize::from(self.after.is_some());
        self.first + pieces + (items.len() - self.last)
    }

    /// Makes the splice. Without memory the list stays as it was.
    pub(crate) fn apply(&self, items: &mut Vec<T>) -> Result<(), AllocError>
        requires places { CanSplice self.now (vec_len items.old) }
        requires small { 3 * type_size T.row < 2 ^ 63 }
        ensures ok { OnOk result (items.new.items ≡ spliced self.now items.old.items) }
        ensures err { OnErr result (items.new.items ≡ items.old.items) }
    {
        let (first, last) = (self.first, self.last);
        match (self.before, self.own, self.after) {
            (None, None, None) => replace_run(items, first, last, &[]),
            (None, Some(own), None) if first == last => insert_at(items, first, own),
            (Some(a), None, None) | (None, Some(a), None) | (None, None, Some(a)) => replace_run(
                items,
                first,
                last,
                &[a],
            ),
            (Some(a), Some(b), None) | (Some(a), None, Some(b)) | (None, Some(a), Some(b)) =>
                replace_run(items, first, last, &[a, b]),
            (Some(a), Some(b), Some(c)) => replace_run(items, first, last, &[a, b, c]),
        }
    }
}

/// Whether a list of so many items may have more than `most` after a splice, which adds at most three.
pub(crate) fn may_pass(count: usize, most: usize) -> bool
    ensures { IsTrue result ↔ (most < count + 3) }
{
    most < 3 || most - 3 < count
}

/// Puts the piece before the item at the place. Most changes of a list do no more.
fn insert_at<T: Copy>(items: &mut Vec<T>, place: usize, piece: T) -> Result<(), AllocError>
    requires { place ≤ vec_len items.old }
    ensures ok { OnOk result (items.new.items ≡ take place items.old.items ++ (piece ∷ drop place items.old.items)) }
    ensures err { OnErr result (items.new.items ≡ items.old.items) }
{
    if items.is_empty() {
        // Most lists never get a second item.
        items.reserve_exact(1)?;
    }
    items.insert(place, piece)?;
    Ok(())
}

/// Puts `pieces` in place of the items from `first` to before `last`. Only what lies behind them moves.
fn replace_run<T: Copy>(
    items: &mut Vec<T>,
    first: usize,
    last: usize,
    pieces: &[T],
) -> Result<(), AllocError>
    requires ordered { first ≤ last }
    requires within { last ≤ vec_len items.old }
    ensures ok { OnOk result (items.new.items ≡ take first items.old.items ++ (pieces.now ++ drop last items.old.items)) }
    ensures err { OnErr result (items.new.items ≡ items.old.items) }
{
    let len = items.len();
    let gone = last - first;
    let added = pieces.len();
    if gone < added {
        items.extend_from_slice(&pieces[gone..])?;
    }
    items.copy_within(last..len, first + added);
    items[first..first + added].copy_from_slice(pieces);
    if added < gone {
        items.truncate(len - (gone - added));
    }
    Ok(())
}
