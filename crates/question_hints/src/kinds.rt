//! Between which kinds of objects, nodes and edges, a path can lead by its form.
ghost use Rattle.std.specs.Prelude.{◌≡◌, ◌&&◌, ◌||◌};
ghost use Rattle.path_ast.specs.Terms.{path_term, test_term, leaf_term};
ghost use Rattle.question_hints.specs.Kinds.{either_kind, staying, crossing, chained, by_either, starts, is_nowhere, leads_of, kinds_of};

use path_ast::{Leaf, Path, Test};

/// Some of the two kinds.
#[derive(Clone, Copy, Drop)]
pub(crate) struct Kinds {
    node: bool,
    edge: bool,
}

/// From which kinds it leads to which.
#[derive(Clone, Copy, Drop)]
pub(crate) struct Leads {
    node_to_node: bool,
    node_to_edge: bool,
    edge_to_node: bool,
    edge_to_edge: bool,
}

const EITHER: Kinds = Kinds {
    node: true,
    edge: true,
};

/// Whether by its form the path leads from no kind to any.
pub(crate) fn leads_nowhere(path: &Path) -> bool
    ensures { result ≡ is_nowhere (leads_of (path_term path.now)) }
{
    let Kinds { node, edge } = started(path_leads(path));
    !(node | edge)
}

#[cycle(kinds)]
fn path_leads(path: &Path) -> Leads
    ensures { result ≡ leads_of (path_term path.now) }
{
    match path {
        Path::Test(test) => stays(test_kinds(test)),
        Path::F | Path::B => crosses(),
        Path::N | Path::P => stays(EITHER),
        Path::Seq(a, b) => chain(path_leads(a), path_leads(b)),
        Path::Alt(a, b) => one_of(path_leads(a), path_leads(b)),
        Path::Repeat { body, .. } => one_of(stays(EITHER), path_leads(body)),
    }
}

#[cycle(kinds)]
fn test_kinds(test: &Test) -> Kinds
    ensures { result ≡ kinds_of (test_term test.now) }
{
    match test {
        Test::Leaf(leaf) => kinds_of_leaf(leaf),
        Test::Cond(path) => started(path_leads(path)),
        Test::And(a, b) => in_both(test_kinds(a), test_kinds(b)),
        Test::Or(a, b) => in_one(test_kinds(a), test_kinds(b)),
        Test::Not(_) => EITHER,
    }
}

fn kinds_of_leaf(leaf: &Leaf) -> Kinds
    ensures { result ≡ kinds_of (leaf_term leaf.now) }
{
    match leaf {
        Leaf::Node => Kinds {
            node: true,
            edge: false,
        },
        Leaf::Edge => Kinds {
            node: false,
            edge: true,
        },
        Leaf::Label(_) | Leaf::Value { .. } | Leaf::Before(_) | Leaf::Exists => EITHER,
    }
}

fn in_both(a: Kinds, b: Kinds) -> Kinds
    ensures { result ≡ record { node = a.node && b.node; edge = a.edge && b.edge } }
{
    Kinds {
        node: a.node & b.node,
        edge: a.edge & b.edge,
    }
}

fn in_one(a: Kinds, b: Kinds) -> Kinds
    ensures { result ≡ record { node = a.node || b.node; edge = a.edge || b.edge } }
{
    Kinds {
        node: a.node | b.node,
        edge: a.edge | b.edge,
    }
}

fn started(a: Leads) -> Kinds
    ensures { result ≡ starts a }
{
    Kinds {
        node: a.node_to_node | a.node_to_edge,
        edge: a.edge_to_node | a.edge_to_edge,
    }
}

fn stays(kinds: Kinds) -> Leads
    ensures { result ≡ staying kinds }
{
    Leads {
        node_to_node: kinds.node,
        node_to_edge: false,
        edge_to_node: false,
        edge_to_edge: kinds.edge,
    }
}

fn crosses() -> Leads
    ensures { result ≡ crossing }
{
    Leads {
        node_to_node: false,
        node_to_edge: true,
        edge_to_node: true,
        edge_to_edge: false,
    }
}

fn chain(a: Leads, b: Leads) -> Leads
    ensures { result ≡ chained a b }
{
    Leads {
        node_to_node: (a.node_to_node & b.node_to_node) | (a.node_to_edge & b.edge_to_node),
        node_to_edge: (a.node_to_node & b.node_to_edge) | (a.node_to_edge & b.edge_to_edge),
        edge_to_node: (a.edge_to_node & b.node_to_node) | (a.edge_to_edge & b.edge_to_node),
        edge_to_edge: (a.edge_to_node & b.node_to_edge) | (a.edge_to_edge & b.edge_to_edge),
    }
}

fn one_of(a: Leads, b: Leads) -> Leads
    ensures { result ≡ by_either a b }
{
    Leads {
        node_to_node: a.node_to_node | b.node_to_node,
        node_to_edge: a.node_to_edge | b.node_to_edge,
        edge_to_node: a.edge_to_node | b.edge_to_node,
        edge_to_edge: a.edge_to_edge | b.edge_to_edge,
    }
}
