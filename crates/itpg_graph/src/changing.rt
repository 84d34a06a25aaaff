//! The changes of a graph: each leaves a good one, or nothing changes.
ghost use Rattle.std.specs.Prelude.{◌≡◌, ℤ, ◌<◌, length, ℕ, IsNone, IsSome, IfOk, OnOk, OnErr};
ghost use Rattle.itpg_base.specs.Spans.{IsMoment, Within};
ghost use Rattle.itpg_base.specs.Graphs.{Named, Stands, Exists, HasEnd, InHorizon};
ghost use Rattle.itpg_graph.specs.Families.{FitCut, FitPut, FitClear, HasPlace};
ghost use Rattle.itpg_graph.specs.Changes.{begun_as, widened, with_node, with_edge, without, JoinsLive, FitFamily, CutsLive, PutsValue, ClearsValue};

use crate::graph::Graph;
use crate::links::more_items;
use crate::stored::{Opened, Stored};
use interval_set::Span;
use itpg_base::{LabelSet, MAX_LABELS, MAX_OBJECTS, Name, ObjNo};
use std::alloc::AllocError;

impl Graph {
    ghost use Rattle.itpg_graph.specs.Kinds.{IsNode};

    /// Begins the graph. It takes no memory.
    pub fn begin(&mut self, name: Name, horizon: Span)
        requires new { IsNone self.old.begun }
        requires from { IsMoment horizon.from }
        requires to { IsMoment horizon.to }
        ensures { self.new ≡ begun_as self.old name horizon }
    {
        prove!(horizon.from() <= horizon.to());
        self.opened = Some(Opened { name, horizon });
    }

    /// Widens the horizon: the old one lies in the new. No object exists at a new moment so far. It takes no memory.
    pub fn widen(&mut self, horizon: Span)
        requires begun { IsSome self.old.begun }
        requires wider { (t : ℤ) → InHorizon self.old t → Within t horizon }
        requires from { IsMoment horizon.from }
        requires to { IsMoment horizon.to }
        ensures { self.new ≡ widened self.old horizon }
    {
        prove!(horizon.from() <= horizon.to());
        let name = self.opened.as_ref().unwrap().name;
        self.opened = Some(Opened { name, horizon });
    }

    /// Declares a node, which gets the next number and exists at no moment so far. Without memory nothing changes.
    pub fn add_node(&mut self, name: Name, labels: LabelSet) -> Result<ObjNo, AllocError>
        requires begun { IsSome self.old.begun }
        requires free { (o : ℕ) → Named self.old o name → ⊥ }
        requires room { length self.old.objects < MAX_OBJECTS }
        ensures number { IfOk result (λ o. o.0 ≡ length self.old.objects) }
        ensures ok { OnOk result (self.new ≡ with_node self.old name labels) }
        ensures err { OnErr result (self.new ≡ self.old) }
    {
        prove!(labels.len() <= MAX_LABELS);
        let number = ObjNo(self.objects.len() as u32);
        self.objects.reserve(more_items(self.objects.len()))?;
        self.out.reserve()?;
        self.into.reserve()?;
        let alloc = *self.objects.allocator();
        let shared = self.sets.shared(alloc, &labels)?;
        let node = Stored::new(alloc, name, shared, None)?;
        self.by_label.reserve(alloc, &labels)?;
        self.numbers.list(name, number.0)?;
        self.out.push();
        self.into.push();
        self.by_label.push(&labels, number);
        self.objects.push_reserved(node);
        Ok(number)
    }

    /// Declares an edge between two standing nodes, which may be one and the same. It gets the next number and exists at no
    /// moment so far. Without memory nothing changes.
    pub fn add_edge(
        &mut self,
        name: Name,
        labels: LabelSet,
        source: ObjNo,
        target: ObjNo,
    ) -> Result<ObjNo, AllocError>
        requires free { (o : ℕ) → Named self.old o name → ⊥ }
        requires source { IsNode self.old source.0 }
        requires target { IsNode self.old target.0 }
        requires room { length self.old.objects < MAX_OBJECTS }
        ensures number { IfOk result (λ o. o.0 ≡ length self.old.objects) }
        ensures ok { OnOk result (self.new ≡ with_edge self.old name labels source.0 target.0) }
        ensures err { OnErr result (self.new ≡ self.old) }
    {
        prove!(labels.len() <= MAX_LABELS);
        let number = ObjNo(self.objects.len() as u32);
        self.objects.reserve(more_items(self.objects.len()))?;
        self.out.reserve_at(source)?;
        self.into.reserve_at(target)?;
        let alloc = *self.objects.allocator();
        let shared = self.sets.shared(alloc, &labels)?;
        let ends = Some((source, target));
        let edge = Stored::new(alloc, name, shared, ends)?;
        self.by_label.reserve(alloc, &labels)?;
        self.numbers.list(name, number.0)?;
        self.out.push_at(source, number);
        self.into.push_at(target, number);
        self.by_label.push(&labels, number);
        self.objects.push_reserved(edge);
        Ok(number)
    }

    /// Lets the object exist at the moments of the span too. Without memory nothing changes.
    pub fn join_live(&mut self, o: ObjNo, s: Span) -> Result<(), AllocError>
        requires stands { Stands self.old o.0 }
        requires within { (t : ℤ) → Within t s → InHorizon self.old t }
        requires ends { (a : ℕ) → HasEnd self.old o.0 a → (t : ℤ) → Within t s → Exists self.old a t }
        requires room { FitFamily self.old o.0 s }
        ensures ok { OnOk result (JoinsLive self.old o.0 s self.new) }
        ensures err { OnErr result (self.new ≡ self.old) }
    {
        let object = &mut self.objects[o.0 as usize];
        object.join_live(s)?;
        Ok(())
    }

    /// Ends the object's life in the span: it exists at no moment of it, and its values there are gone. A property left
    /// with no value is gone too. Without memory nothing changes.
    ///
    /// ```text
    ///     existence    [0..20                 ]
    ///     risk         [low 0..9     ]
    ///     s                 [5..12       ]
    ///     afterwards   [0..4]        [13..20 ], and risk is low at [0..4]
    /// ```
    pub fn cut_live(&mut self, o: ObjNo, s: Span) -> Result<(), AllocError>
        requires stands { Stands self.old o.0 }
        requires held { (e : ℕ) (t : ℤ) → HasEnd self.old e o.0 → Within t s → Exists self.old e t → ⊥ }
        requires room { FitCut self.old o.0 s }
        ensures ok { OnOk result (CutsLive self.old o.0 s self.new) }
        ensures err { OnErr result (self.new ≡ self.old) }
    {
        let object = &mut self.objects[o.0 as usize];
        object.cut_live(s)?;
        Ok(())
    }

    /// Gives the property the value at each moment of the span, whatever it was there. Without memory nothing changes.
    pub fn put_value(
        &mut self,
        o: ObjNo,
        prop: Name,
        value: Name,
        s: Span,
    ) -> Result<(), AllocError>
        requires stands { Stands self.old o.0 }
        requires present { (t : ℤ) → Within t s → Exists self.old o.0 t }
        requires room { FitPut self.old o.0 prop value s }
        requires place { HasPlace self.old o.0 prop }
        ensures ok { OnOk result (PutsValue self.old o.0 prop value s self.new) }
        ensures err { OnErr result (self.new ≡ self.old) }
    {
        let object = &mut self.objects[o.0 as usize];
        object.put_value(&prop, &value, s)?;
        Ok(())
    }

    /// Takes the values of the property in the span away. A property left with no value is gone. Without memory nothing
    /// changes.
    pub fn clear_value(&mut self, o: ObjNo, prop: Name, s: Span) -> Result<(), AllocError>
        requires stands { Stands self.old o.0 }
        requires room { FitClear self.old o.0 prop s }
        ensures ok { OnOk result (ClearsValue self.old o.0 prop s self.new) }
        ensures err { OnErr result (self.new ≡ self.old) }
    {
        let object = &mut self.objects[o.0 as usize];
        object.clear_value(&prop, s)?;
        Ok(())
    }

    /// Drops the object: it no longer stands, and exists nowhere. Its number stays, and its name may be declared anew with
    /// another. It takes no memory.
    pub fn remove(&mut self, o: ObjNo)
        requires stands { Stands self.old o.0 }
        requires free { (e : ℕ) → HasEnd self.old e o.0 → ⊥ }
        ensures { self.new ≡ without self.old o.0 }
    {
        let alloc = *self.objects.allocator();
        let object = &mut self.objects[o.0 as usize];
        let ends = object.ends();
        self.by_label.remove(object.labels(), o);
        object.fall(alloc);
        if let Some((source, target)) = ends {
            self.out.remove(source, o);
            self.into.remove(target, o);
        }
    }
}
