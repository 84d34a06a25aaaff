//! How many rows a question needs.
ghost use Rattle.std.specs.Prelude.{◌≡◌, ◌↔◌, ℕ, Some};
ghost use Rattle.question_costs.specs.Counts.{counts_of};
ghost use Rattle.question_costs.specs.Needed.{NeedsRows, IsGreatest};

use crate::count::{Count, MemberCount};

/// How many rows the widest member has, if rows are told of each member and that is more than usual.
///
/// A limit below that makes the question wide.
pub fn rows_needed(members: &[MemberCount], usual: u32) -> Option<u64>
    ensures { (n : ℕ) → (result ≡ Some n) ↔ NeedsRows usual (counts_of members.now) n }
{
    let most = most_rows(members)?;
    (most > u64::from(usual)).then_some(most)
}

// The greatest number of rows of the members, 0 if there is none; `None` exactly if of one no rows are told.
fn most_rows(members: &[MemberCount]) -> Option<u64>
    ensures { IsGreatest (counts_of members.now) result }
{
    let mut most = 0;
    for member in members {
        let Count::Rows(rows) = member.count else {
            return None;
        };
        most = most.max(rows);
    }
    Some(most)
}
