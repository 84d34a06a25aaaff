//! How many items of a list lead.
ghost use Rattle.std.specs.Prelude.{◌≡◌, ◌≤◌, Bool, true, false, length};
ghost use Rattle.std.specs.Fn.{ComputesKey};
ghost use Rattle.std.specs.List.Sorted.{IsPartitionedBy, IsPartitionPoint};

// So many items are searched first.
const NEAR: usize = 8;

/// How many of the items lead for which the test holds, if all of these stand before the others.
///
/// If they are few, it looks at few items, however many follow. So a walk along many small groups doesn't search the whole list for
/// the end of each.
pub fn count_leading<T, P: FnMut(&T) -> bool + Copy>(items: &[T], test: P) -> usize
    requires { P.IsAlwaysCallable test }
    ensures bound { result ≤ length items.now }
    ensures partitioned { (p : T → Bool) → ComputesKey P.FnMut p test → IsPartitionedBy p items.now → IsPartitionPoint (λ y. p y ≡ true) (λ y. p y ≡ false) items.now result }
{
    let near = &items[..items.len().min(NEAR)];
    let count = near.partition_point(test);
    if count < near.len() {
        return count;
    }
    items.partition_point(test)
}
