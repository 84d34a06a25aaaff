//! One query that is followed.
ghost use Rattle.std.specs.Prelude.{◌≡◌, ◌↔◌, ◌+◌, ◌≤◌, ◌++◌, [], ◌∷◌, IsTrue, OnOk, OnErr, length};
ghost use Rattle.itpg_graph.specs.Edges.{AreRising};
ghost use Rattle.path_ast.specs.Terms.{query_term};
ghost use Rattle.relation_rows.specs.Answered.{answered, row_number};
ghost use Rattle.source_rows.specs.Follows.{new_follow, entry, HasSource, IsPairs, IsUnmet, entry_rows, entry_objects, most_rows, most_objects};

use crate::entries::Entries;
use crate::touched::Touched;
use itpg_base::{Name, ObjNo};
use path_ast::Query;
use relation_rows::Answer;
use std::alloc::{AllocError, Global};
use std::marker::Model;

/// A query that is followed under a name, and what is kept of it.
#[derive(Drop)]
pub(crate) struct Followed {
    name: Name,
    query: Query,
    entries: Entries,
}

impl Model for Followed {
    ghost use Rattle.std.specs.Coded.{codes};
    ghost use Rattle.path_ast.specs.Codes.{coded_path};
    ghost use Rattle.path_ast.specs.Terms.{query_term};
    ghost use Rattle.source_rows.specs.Follows.{Follow};

    ghost Value = { Follow };

    ghost coded = { Prim.hlevel (codes, coded_path) };

    ghost view = { λ f. record { name = f.name; query = query_term f.query; entries = f.entries } };
}

impl Followed {
    pub(crate) fn new(alloc: Global, name: Name, query: Query) -> Followed
        ensures { result ≡ new_follow name (query_term query) }
    {
        Followed {
            name,
            query,
            entries: Entries::new(alloc),
        }
    }

    pub(crate) fn has_name(&self, name: &Name) -> bool
        ensures { IsTrue result ↔ (self.now.name ≡ name.now) }
    {
        self.name == *name
    }

    pub(crate) fn query(&self) -> &Query
        ensures { query_term result.now ≡ self.now.query }
    {
        &self.query
    }

    pub(crate) fn entries(&self) -> &Entries
        ensures { result.now ≡ self.now.entries }
    {
        &self.entries
    }

    /// Keeps the rows of a source of which none are kept.
    pub(crate) fn add(
        &mut self,
        source: ObjNo,
        objects: Vec<ObjNo>,
        rows: Answer,
    ) -> Result<(), AllocError>
        requires absent { ¬ HasSource self.old.entries source.0 }
        requires rising { AreRising objects.items }
        requires pairs { IsPairs (answered rows) }
        requires few_rows { entry_rows self.old.entries + row_number (answered rows) ≤ most_rows }
        requires few_objects { entry_objects self.old.entries + length objects.items ≤ most_objects }
        ensures added { OnOk result (self.new ≡ record self.old { entries = self.old.entries ++ entry source.0 objects.items (answered rows) ∷ [] }) }
        ensures same { OnErr result (self.new ≡ self.old) }
    {
        self.entries.add(source, objects, rows)
    }

    /// Lets exactly those kept rows go that depend on a touched object.
    pub(crate) fn touched(&mut self, touched: &Touched)
        requires few_rows { entry_rows self.old.entries ≤ most_rows }
        requires few_objects { entry_objects self.old.entries ≤ most_objects }
        ensures unmet { IsUnmet touched.now self.old self.new }
        ensures rows { entry_rows self.new.entries ≤ entry_rows self.old.entries }
        ensures objects { entry_objects self.new.entries ≤ entry_objects self.old.entries }
    {
        self.entries.touched(touched);
    }
}
