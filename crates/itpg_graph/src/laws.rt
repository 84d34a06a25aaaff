//! The laws of the changes.
ghost use Rattle.std.specs.Prelude.{◌≡◌, ℕ};
ghost use Rattle.itpg_base.specs.Spans.{Span as PlainSpan};
ghost use Rattle.itpg_base.specs.Words.{Word};
ghost use Rattle.itpg_base.specs.Graphs.{Graph as PlainGraph};
ghost use Rattle.itpg_graph.specs.Changes.{JoinsLive, CutsLive, PutsValue, ClearsValue};

/// Each change leaves one graph: two that the same change leaves are equal.
pub fn law_of_unique_changes()
    ensures joined { (g : PlainGraph) (o : ℕ) (s : PlainSpan) (a b : PlainGraph) → JoinsLive g o s a → JoinsLive g o s b → a ≡ b }
    ensures cut { (g : PlainGraph) (o : ℕ) (s : PlainSpan) (a b : PlainGraph) → CutsLive g o s a → CutsLive g o s b → a ≡ b }
    ensures put { (g : PlainGraph) (o : ℕ) (name value : Word) (s : PlainSpan) (a b : PlainGraph) → PutsValue g o name value s a → PutsValue g o name value s b → a ≡ b }
    ensures cleared { (g : PlainGraph) (o : ℕ) (name : Word) (s : PlainSpan) (a b : PlainGraph) → ClearsValue g o name s a → ClearsValue g o name s b → a ≡ b }
{}
