//! The pins that stand.
ghost use Rattle.std.specs.Prelude.{◌≡◌, ◌↔◌, ◌<◌, ◌≤◌, [], ◌∷◌, ◌++◌, length, slice_get, IsTrue, IfSome, IsNone, IsSomeAnd, IfOk, OnOk, OnErr, IsErrOf, IsErr};
ghost use Rattle.plan_cache.specs.RightRows.{IsTableRight};
ghost use Rattle.itpg_pins.specs.Pins.{IsHeld, IsOnlyPlace, most_pins, held, retabled, without};

use itpg_base::Name;
use itpg_graph::Graph;
use plan_cache::Plans;
use std::alloc::{AllocError, Global};
use std::marker::Model;
use std::mem;

/// How many pins may stand.
pub const MAX_PINS: usize = 8;

/// Why a pin isn't added.
#[derive(Clone, Copy, Debug, PartialEq, Eq, Drop)]
pub enum PinFault {
    /// A pin of this name stands.
    Taken,
    /// 8 pins stand.
    Full,
    /// Memory ran out.
    Memory,
}

impl From<AllocError> for PinFault {
    ghost use Rattle.std.specs.Prelude.{◌≡◌};
    ghost use Rattle.itpg_pins.specs.declared.pins.PinFault.TheVariants.{Memory};

    ghost from_gives = { λ _ e. e ≡ Memory };

    fn from(_error: AllocError) -> PinFault {
        PinFault::Memory
    }
}

/// No pin of this name stands.
#[derive(Clone, Copy, Debug, PartialEq, Eq, Drop)]
pub struct NoPin;

// A pin as it is kept.
#[derive(Drop)]
struct Pin {
    name: Name,
    graph: Graph,
    plans: Plans,
}

impl Model for Pin {
    ghost use Rattle.std.specs.Coded.{codes};
    ghost use Rattle.path_ast.specs.Codes.{coded_path};
    ghost use Rattle.itpg_pins.specs.Pins.{Held};

    ghost Value = { Held };

    ghost coded = { Prim.hlevel (codes, coded_path) };

    ghost view = { λ p. record { name = p.name; graph = p.graph; table = p.plans } };
}

impl Pin {
    fn new(name: Name, graph: &Graph, plans: &Plans) -> Result<Pin, AllocError>
        ensures { IfOk result (λ pin. pin ≡ held name graph.now plans.now) }
    {
        Ok(Pin {
            name,
            graph: graph.copy()?,
            plans: plans.copy()?,
        })
    }

    fn has_name(&self, name: &Name) -> bool
        ensures { IsTrue result ↔ (self.now.name ≡ name.now) }
    {
        self.name == *name
    }

    fn graph(&self) -> &Graph
        ensures { result.now ≡ self.now.graph }
    {
        &self.graph
    }

    fn plans(&self) -> &Plans
        ensures { result.now ≡ self.now.table }
    {
        &self.plans
    }

    fn swap_plans(&mut self, plans: Plans) -> Plans
        ensures old { result ≡ self.old.table }
        ensures new { self.new ≡ record self.old { table = plans } }
    {
        mem::replace(&mut self.plans, plans)
    }
}

/// The pins that stand, in order of declaration. No two have the same name, and what a pin's table keeps is right on its graph.
///
/// ```text
///     place   name   graph                     table
///     0       s      as it stood at `open s`   the nodes of all questions about it, and what is kept at each
///     1       q      as it stood at `open q`   ..
/// ```
///
/// A contract sees the limit of rows, and the list of names, graphs and tables.
#[derive(Drop)]
pub struct Pins {
    max_rows: u32,
    items: Vec<Pin>,
}

impl Model for Pins {
    ghost use Rattle.std.specs.Coded.{codes};
    ghost use Rattle.path_ast.specs.Codes.{coded_path};
    ghost use Rattle.itpg_pins.specs.Pins.{Pinned, AreSound};

    ghost Value = { Pinned };

    ghost coded = { Prim.hlevel (codes, coded_path) };

    ghost view = { λ p. record { limit = p.max_rows; pins = p.items.items } };

    ghost invariant = { λ p. AreSound p.max_rows p.items.items };
}

impl Pins {
    /// No pins. It takes no memory.
    pub fn new(alloc: Global, max_rows: u32) -> Pins
        ensures { result ≡ record { limit = max_rows; pins = [] } }
    {
        Pins {
            max_rows,
            items: Vec::new(alloc),
        }
    }

    /// Pins the graph under the name, behind the others, with the table.
    ///
    /// # Errors
    ///
    /// `Taken` where a pin of this name stands, else `Full` where 8 pins stand, and `Memory` if memory runs out. Then the
    /// pins stay as they are.
    pub fn add(&mut self, name: Name, graph: &Graph, plans: &Plans) -> Result<(), PinFault>
        requires { IsTableRight graph.now self.old.limit plans.now }
        ensures limit { self.new.limit ≡ self.old.limit }
        ensures added { OnOk result (self.new.pins ≡ self.old.pins ++ held name graph.now plans.now ∷ []) }
        ensures same { OnErr result (self.new ≡ self.old) }
        ensures taken { IsErrOf result PinFault.Taken ↔ IsHeld self.old.pins name }
        ensures full { IsErrOf result PinFault.Full ↔ ((¬ IsHeld self.old.pins name) × (most_pins ≤ length self.old.pins)) }
    {
        if self.find(&name).is_some() {
            return Err(PinFault::Taken);
        }
        if self.items.len() >= MAX_PINS {
            return Err(PinFault::Full);
        }
        self.items.reserve(1)?;
        let pin = Pin::new(name, graph, plans)?;
        self.items.push_reserved(pin);
        Ok(())
    }

    /// Removes the pin of this name. The others stay in their order. It takes no memory.
    ///
    /// # Errors
    ///
    /// Where no pin of this name stands. Then the pins stay as they are.
    pub fn remove(&mut self, name: &Name) -> Result<(), NoPin>
        ensures limit { self.new.limit ≡ self.old.limit }
        ensures removed { OnOk result (self.new.pins ≡ without name.now self.old.pins) }
        ensures same { OnErr result (self.new ≡ self.old) }
        ensures none { IsErr result ↔ (¬ IsHeld self.old.pins name.now) }
    {
        let Some(place) = self.find(name) else {
            return Err(NoPin);
        };
        let _removed = self.items.remove(place);
        Ok(())
    }

    /// How many pins stand: at most 8.
    pub fn len(&self) -> usize
        ensures count { result ≡ length self.now.pins }
        ensures few { result ≤ most_pins }
    {
        self.items.len()
    }

    /// The one place of the pin of this name; `None` exactly if none stands.
    pub fn find(&self, name: &Name) -> Option<usize>
        ensures some { IfSome result (λ i. IsSomeAnd (slice_get self.now.pins i) (λ p. p.name ≡ name.now)) }
        ensures only { IfSome result (λ i. IsOnlyPlace self.now.pins name.now i) }
        ensures none { IsNone result ↔ (¬ IsHeld self.now.pins name.now) }
    {
        for (place, pin) in self.items.iter().enumerate() {
            if pin.has_name(name) {
                return Some(place);
            }
        }
        None
    }

    /// The graph of the pin at a place.
    pub fn graph(&self, i: usize) -> &Graph
        requires { i < length self.now.pins }
        ensures { IsSomeAnd (slice_get self.now.pins i) (λ p. result.now ≡ p.graph) }
    {
        self.items[i].graph()
    }

    /// The table of the pin at a place. What it keeps is right on the pin's graph.
    pub fn plans(&self, i: usize) -> &Plans
        requires { i < length self.now.pins }
        ensures table { IsSomeAnd (slice_get self.now.pins i) (λ p. result.now ≡ p.table) }
        ensures right { IsSomeAnd (slice_get self.now.pins i) (λ p. IsTableRight p.graph self.now.limit p.table) }
    {
        self.items[i].plans()
    }

    /// Puts another table, one that is right on the graph of the pin at a place, in the place of its own, which it gives back.
    pub fn swap_plans(&mut self, i: usize, plans: Plans) -> Plans
        requires there { i < length self.old.pins }
        requires right { IsSomeAnd (slice_get self.old.pins i) (λ p. IsTableRight p.graph self.old.limit plans) }
        ensures limit { self.new.limit ≡ self.old.limit }
        ensures old { IsSomeAnd (slice_get self.old.pins i) (λ p. (result ≡ p.table) × IsTableRight p.graph self.old.limit result) }
        ensures new { self.new.pins ≡ retabled i plans self.old.pins }
    {
        self.items[i].swap_plans(plans)
    }
}
