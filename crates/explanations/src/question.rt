//! Which lines are questions, and what each is asked on.
ghost use Rattle.std.specs.Prelude.{◌≡◌, ◌≤◌};
ghost use Rattle.itpg_graph.specs.GraphParts.{only_of, ArePart};
ghost use Rattle.path_ast.specs.Terms.{path_term};
ghost use Rattle.path_ast.specs.Sizes.{path_size, IsPathInRange};
ghost use Rattle.path_ast.specs.declared.counts.TheConstants.{MAX_TERMS};

use crate::answers::add_answer_hints;
use crate::explainer::Explainer;
use edit_reader::{Line, read_line, room};
use itpg_base::{Name, ObjNo};
use itpg_graph::{Graph, Part};
use match_parser::{QueryFault, law_of_read_queries, read_query};
use path_ast::Query;
use question_costs::{Clock, Explained, Site};
use source_rows::{near_objects, steps};
use std::alloc::AllocError;

impl Explainer {
    /// What is said of a line before it is answered; `None` if it is no question.
    ///
    /// # Errors
    ///
    /// If memory runs out.
    pub(crate) fn explained<C: Clock>(
        &self,
        line: &[u8],
        clock: &mut C,
    ) -> Result<Option<Explained>, AllocError> {
        let mut edit = room();
        match read_line(line, &mut edit) {
            Ok(asks) => self.of_line(&asks, clock),
            Err(_fault) => Ok(None),
        }
    }

    // The same of a line that reads.
    fn of_line<C: Clock>(
        &self,
        line: &Line<'_>,
        clock: &mut C,
    ) -> Result<Option<Explained>, AllocError> {
        match line {
            Line::Ask(text) | Line::First(text) | Line::Last(text) | Line::Count(text) => {
                Ok(Some(self.of_text(text, &self.here(), clock)?))
            }
            Line::InPin(name, text) => Ok(Some(self.of_pin(name, text, clock)?)),
            Line::Show(name) => Ok(Some(self.of_watch(name, clock)?)),
            Line::Near(name, id) => Ok(Some(self.of_follow(name, id, clock)?)),
            _ => Ok(None),
        }
    }

    // The graph as it stands.
    fn here(&self) -> Site<'_> {
        Site::whole(
            self.alloc,
            self.session.graph(),
            self.session.plans(),
            self.max_rows,
        )
    }

    // What is said of a query text.
    fn of_text<C: Clock>(
        &self,
        text: &[u8],
        site: &Site<'_>,
        clock: &mut C,
    ) -> Result<Explained, AllocError> {
        law_of_read_queries();
        match &read_query(self.alloc, text) {
            Ok(query) => of_query(query, site, clock),
            Err(QueryFault::Bad(_)) => Ok(Explained::nothing(self.alloc)),
            Err(QueryFault::Memory) => Err(AllocError),
        }
    }

    // The same of one that is asked of a pin.
    fn of_pin<C: Clock>(
        &self,
        name: &Name,
        text: &[u8],
        clock: &mut C,
    ) -> Result<Explained, AllocError> {
        let pins = self.session.pins();
        match pins.find(name) {
            Some(place) => {
                let site = Site::whole(
                    self.alloc,
                    pins.graph(place),
                    pins.plans(place),
                    self.max_rows,
                );
                self.of_text(text, &site, clock)
            }
            None => Ok(Explained::nothing(self.alloc)),
        }
    }

    // What is said of a watch's query.
    fn of_watch<C: Clock>(&self, name: &Name, clock: &mut C) -> Result<Explained, AllocError> {
        let watches = self.session.watches();
        match watches.find(name) {
            Some(place) => of_query(watches.query(place), &self.here(), clock),
            None => Ok(Explained::nothing(self.alloc)),
        }
    }

    // What is said of a follow's query near an object.
    fn of_follow<C: Clock>(
        &self,
        name: &Name,
        id: &Name,
        clock: &mut C,
    ) -> Result<Explained, AllocError> {
        let follows = self.session.follows();
        match follows.find(name) {
            Some(place) => self.of_near(follows.query(place), id, clock),
            None => Ok(Explained::nothing(self.alloc)),
        }
    }

    // What is said of a query near an object.
    fn of_near<C: Clock>(
        &self,
        query: &Query,
        id: &Name,
        clock: &mut C,
    ) -> Result<Explained, AllocError>
        requires in_range { IsPathInRange (path_term query.now.path) }
        requires terms { path_size (path_term query.now.path) ≤ MAX_TERMS }
    {
        let graph = self.session.graph();
        let Some(object) = graph.find(id) else {
            return Ok(Explained::nothing(self.alloc));
        };
        let objects = near_objects(self.alloc, graph, object, steps(&query.path))?;
        of_query(query, &self.among(graph, &objects), clock)
    }

    // These objects of a graph alone.
    fn among<'a>(&self, graph: &'a Graph, objects: &'a [ObjNo]) -> Site<'a>
        requires { ArePart graph.now objects.now }
        ensures graph { result.graph.now ≡ graph.now }
        ensures part { result.part ≡ only_of graph.now objects.now }
    {
        Site {
            alloc: self.alloc,
            graph,
            part: Part::new(graph, objects),
            plans: None,
            max_rows: self.max_rows,
        }
    }
}

// What is said of a query on a site.
fn of_query<C: Clock>(
    query: &Query,
    site: &Site<'_>,
    clock: &mut C,
) -> Result<Explained, AllocError>
    requires in_range { IsPathInRange (path_term query.now.path) }
    requires terms { path_size (path_term query.now.path) ≤ MAX_TERMS }
{
    let mut said = site.explain(query, clock)?;
    add_answer_hints(&mut said, site, query)?;
    Ok(said)
}
