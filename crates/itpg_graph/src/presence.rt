//! What edits ask of an object's existence.
ghost use Rattle.std.specs.Prelude.{◌≡◌, ℤ, true, false};
ghost use Rattle.itpg_base.specs.Spans.{Within};
ghost use Rattle.itpg_base.specs.Graphs.{Stands, Exists};

use crate::graph::Graph;
use interval_set::Span;
use itpg_base::ObjNo;

impl Graph {
    /// Whether the object exists at each moment of the span.
    ///
    /// ```text
    ///     existence    [0..4]     [7..20      ]
    ///     s                         [8..12 ]     true
    ///     s                [4..8 ]               false: it doesn't exist at 5 and 6
    /// ```
    pub fn exists_throughout(&self, o: ObjNo, s: Span) -> bool
        requires { Stands self.now o.0 }
        ensures there { result ≡ true → (t : ℤ) → Within t s → Exists self.now o.0 t }
        ensures missing { result ≡ false → (t : ℤ) × Within t s × (¬ Exists self.now o.0 t) }
    {
        self.objects[o.0 as usize].covers(s)
    }
}
