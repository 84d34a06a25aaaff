//! Laws of the table. Each is the contract of a function that changes nothing.
ghost use Rattle.std.specs.Prelude.{◌≡◌, ◌<◌, ◌↔◌, ℕ, List, ◌∷◌, [], Some, length, slice_get};
ghost use Rattle.label_scope.specs.Members.{Member};
ghost use Rattle.itpg_base.specs.declared.touch.Touch.{Touch};
ghost use Rattle.label_scope.specs.Touching.{Meets};
ghost use Rattle.relation_rows.specs.declared.rows.Row.{Row};
ghost use Rattle.plan_cache.specs.Nodes.{PlanNode, Kept, IsNodeOf, AreShared};
ghost use Rattle.plan_cache.specs.Footprints.{footprint_of, footprints_of};
ghost use Rattle.plan_cache.specs.KeptRows.{Forgets};
ghost use Rattle.plan_cache.specs.Growing.{Grows, IsChild, AddsUnder};

use crate::plans::Plans;

/// A table in which nodes are shared leads from each node to lower numbers alone.
pub fn law_of_lower_children()
    ensures { (nodes : List PlanNode) (x y : ℕ) → AreShared nodes → IsChild nodes x y → y < x }
{}

/// The nodes of a table are shared, and there is a place for what is kept at each.
pub fn law_of_shared_nodes(plans: &Plans)
    ensures shared { AreShared plans.now.nodes }
    ensures each { length plans.now.kept ≡ length plans.now.nodes }
{
    let _count = plans.len();
}

/// What `intern` ensures leaves a table as it was if the path has a node in it, and gives that node. So a query that is interned
/// twice has one number, and the second time adds nothing.
pub fn law_of_known_paths()
    ensures { (most answer k : ℕ) (old new : List PlanNode) (m : Member) → AreShared new → Grows most old new → AddsUnder old new (answer ∷ []) →
        IsNodeOf new answer m → IsNodeOf old k m → (answer ≡ k) × (new ≡ old) }
{}

/// What is kept after `forget` is exactly what was kept and whose node's footprint the touch doesn't meet.
pub fn law_of_forgetting()
    ensures { (touch : Touch) (nodes : List PlanNode) (old new : List Kept) (k : ℕ) (n : PlanNode) (rows : List Row) →
        Forgets touch (footprints_of nodes) old new → slice_get nodes k ≡ Some n →
        (slice_get new k ≡ Some (Some rows)) ↔ ((slice_get old k ≡ Some (Some rows)) × (¬ Meets (footprint_of n.member) touch)) }
{}
