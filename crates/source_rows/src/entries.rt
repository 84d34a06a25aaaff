//! What is kept of single sources.
ghost use Rattle.std.specs.Prelude.{◌≡◌, ◌↔◌, ◌+◌, ◌≤◌, ◌++◌, [], ◌∷◌, not, IsTrue, IfSome, IsNone, OnOk, OnErr, length};
ghost use Rattle.itpg_base.specs.Lists.{Among};
ghost use Rattle.itpg_graph.specs.Edges.{AreRising};
ghost use Rattle.relation_rows.specs.Answered.{answered, row_number};
ghost use Rattle.source_rows.specs.Follows.{Entry, entry, HasRows, HasSource, IsPairs, entry_rows, entry_objects, most_rows, most_objects};
ghost use Rattle.source_rows.specs.Entries.{Kept as KeptRows, entries_of};
ghost use Rattle.source_rows.specs.Touched.{Meets};

use crate::touched::Touched;
use indexmap::IndexMap;
use itpg_base::ObjNo;
use relation_rows::Answer;
use std::alloc::{AllocError, Global};
use std::marker::Model;

// Rows, and the rising numbers of the objects that they depend on.
#[derive(Drop)]
struct Kept {
    objects: Vec<ObjNo>,
    rows: Answer,
}

impl Model for Kept {
    ghost use Rattle.itpg_graph.specs.Edges.{AreRising};
    ghost use Rattle.relation_rows.specs.Answered.{answered};
    ghost use Rattle.source_rows.specs.Follows.{IsPairs};
    ghost use Rattle.source_rows.specs.Entries.{Kept as KeptRows};

    ghost Value = { KeptRows };

    ghost view = { λ k. record { objects = k.objects.items; rows = answered k.rows } };

    ghost invariant = { λ k. AreRising k.objects.items × IsPairs (answered k.rows) };
}

impl Kept {
    fn new(objects: Vec<ObjNo>, rows: Answer) -> Kept
        requires rising { AreRising objects.items }
        requires pairs { IsPairs (answered rows) }
        ensures { result ≡ record { objects = objects.items; rows = answered rows } }
    {
        Kept { objects, rows }
    }

    fn rows(&self) -> &Answer
        ensures rows { answered result.now ≡ self.now.rows }
        ensures kind { IsPairs self.now.rows }
    {
        &self.rows
    }

    fn row_count(&self) -> u64
        ensures { result ≡ row_number self.now.rows }
    {
        self.rows.rows()
    }

    fn object_count(&self) -> u64
        ensures { result ≡ length self.now.objects }
    {
        self.objects.len() as u64
    }

    fn is_met(&self, touched: &Touched) -> bool
        ensures { IsTrue result ↔ Meets touched.now self.now.objects }
    {
        touched.meets(&self.objects)
    }
}

/// What is kept of single sources, with the numbers of all rows and of all objects listed.
///
/// A contract sees it as the list of entries, in the order in which they were kept.
#[derive(Drop)]
pub(crate) struct Entries {
    kept: IndexMap<u32, Kept>,
    rows: u64,
    objects: u64,
}

impl Model for Entries {
    ghost use Rattle.std.specs.Prelude.{◌≡◌, List};
    ghost use Rattle.source_rows.specs.Follows.{Entry, entry_rows, entry_objects};
    ghost use Rattle.source_rows.specs.Entries.{entries_of};

    ghost Value = { List Entry };

    ghost view = { λ e. entries_of e.kept.entries };

    ghost invariant = { λ e. (e.rows ≡ entry_rows (entries_of e.kept.entries)) × (e.objects ≡ entry_objects (entries_of e.kept.entries)) };
}

impl Entries {
    /// Nothing. It takes no memory.
    pub(crate) fn new(alloc: Global) -> Entries
        ensures { result ≡ [] }
    {
        Entries {
            kept: IndexMap::new(alloc),
            rows: 0,
            objects: 0,
        }
    }

    /// How many rows all entries have.
    pub(crate) fn rows(&self) -> u64
        ensures { result ≡ entry_rows self.now }
    {
        self.rows
    }

    /// How many objects all entries list.
    pub(crate) fn objects(&self) -> u64
        ensures { result ≡ entry_objects self.now }
    {
        self.objects
    }

    /// The rows that are kept of the source; `None` exactly if none are.
    pub(crate) fn rows_of(&self, source: ObjNo) -> Option<&Answer>
        ensures some { IfSome result (λ answer. HasRows self.now source.0 (answered answer.now)) }
        ensures none { IsNone result ↔ (¬ HasSource self.now source.0) }
        ensures kind { IfSome result (λ answer. IsPairs (answered answer.now)) }
    {
        let kept = self.kept.get(&source.0)?;
        Some(kept.rows())
    }

    /// Keeps the rows of a source of which none are kept, behind the others.
    pub(crate) fn add(
        &mut self,
        source: ObjNo,
        objects: Vec<ObjNo>,
        rows: Answer,
    ) -> Result<(), AllocError>
        requires absent { ¬ HasSource self.old source.0 }
        requires rising { AreRising objects.items }
        requires pairs { IsPairs (answered rows) }
        requires few_rows { entry_rows self.old + row_number (answered rows) ≤ most_rows }
        requires few_objects { entry_objects self.old + length objects.items ≤ most_objects }
        ensures added { OnOk result (self.new ≡ self.old ++ entry source.0 objects.items (answered rows) ∷ []) }
        ensures same { OnErr result (self.new ≡ self.old) }
    {
        let row_count = rows.rows();
        let object_count = objects.len() as u64;
        self.kept.insert(source.0, Kept::new(objects, rows))?;
        self.rows += row_count;
        self.objects += object_count;
        Ok(())
    }

    /// Lets exactly those go that list a touched object. It takes no memory.
    pub(crate) fn touched(&mut self, touched: &Touched)
        requires few_rows { entry_rows self.old ≤ most_rows }
        requires few_objects { entry_objects self.old ≤ most_objects }
        ensures stay { (e : Entry) → Among self.new e ↔ (Among self.old e × (¬ Meets touched.now e.objects)) }
        ensures rows { entry_rows self.new ≤ entry_rows self.old }
        ensures objects { entry_objects self.new ≤ entry_objects self.old }
    {
        let before = self.kept.len();
        self.kept.retain(
            |_source: &u32, kept: &mut Kept| -> bool
                ensures answer { IsTrue result ↔ (¬ Meets touched.entry.now kept.old.objects) }
                ensures same { kept.new ≡ kept.old }
            { !kept.is_met(touched) },
        );
        if self.kept.len() < before {
            self.rows = rows_in(&self.kept);
            self.objects = objects_in(&self.kept);
        }
    }
}

// How many rows are kept.
fn rows_in(table: &IndexMap<u32, Kept>) -> u64
    requires { entry_rows (entries_of table.now.entries) ≤ most_rows }
    ensures { result ≡ entry_rows (entries_of table.now.entries) }
{
    let mut count = 0;
    for kept in table.values() {
        count += kept.row_count();
    }
    count
}

// How many objects are listed.
fn objects_in(table: &IndexMap<u32, Kept>) -> u64
    requires { entry_objects (entries_of table.now.entries) ≤ most_objects }
    ensures { result ≡ entry_objects (entries_of table.now.entries) }
{
    let mut count = 0;
    for kept in table.values() {
        count += kept.object_count();
    }
    count
}
