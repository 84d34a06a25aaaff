//! A script on its way: what is left of it.
ghost use Rattle.std.specs.Prelude.{◌≡◌, ◌+◌, ◌∷◌, [], ℕ, ◌≤◌, ◌<◌, IfOk, MatchOption, OnErr};
ghost use Rattle.trial_script.specs.Script.{after_sign, script, sign_lines};
ghost use Rattle.trial_script.specs.Left.{IsPlace, left, left_edges, left_lives, left_nodes, left_persons, line_text};

use crate::draws::draw;
use crate::line::{DrawnEdge, Line, PERSONS, Question};
use crate::place::Place;
use std::alloc::{AllocError, Global};
use std::marker::Model;

// How many nodes and how many edges there are.
const NODES: u64 = 200;

const EDGES: u64 = 2_000;

/// What is left of a script that a number generates. A contract sees it as the list of these lines.
#[derive(Drop)]
pub struct Trial {
    state: u64,
    place: Place,
}

impl Model for Trial {
    ghost use Rattle.std.specs.Prelude.{ℕ, List};

    ghost Value = { List (List ℕ) };

    ghost use Rattle.trial_script.specs.Left.{IsPlace, left};

    ghost view = { λ t. left t.state t.place };

    ghost invariant = { λ t. IsPlace t.place };
}

impl Trial {
    /// The whole script of the number.
    pub fn new(number: u64) -> Trial
        ensures { result ≡ script number }
    {
        Trial::at(number, Place::Graph)
    }

    // What is left at a place, where the draws to come begin at the state.
    fn at(state: u64, place: Place) -> Trial
        requires { IsPlace place }
        ensures { result ≡ left state place }
    {
        Trial { state, place }
    }

    // The next line, and what is left behind it.
    fn next(&self) -> Option<(Line, Trial)>
        ensures { MatchOption result (self.now ≡ []) (λ next. self.now ≡ line_text next.0 ∷ next.1) }
    {
        let mut state = self.state;
        match self.place {
            Place::Graph => Some((Line::Graph, Trial::at(state, Place::Node(0)))),
            Place::Node(i) => Some((Line::Node(i), Trial::at(state, after_node(i)))),
            Place::NodeLife(i) => Some((Line::NodeLife(i), Trial::at(state, after_life(i)))),
            Place::Edge(i) => {
                let edge = DrawnEdge::draw(&mut state, i);
                Some((Line::Edge(edge), Trial::at(state, Place::EdgeLife(edge))))
            }
            Place::EdgeLife(edge) => Some((
                Line::EdgeLife(edge),
                Trial::at(state, after_edge(edge.number)),
            )),
            Place::Person(i) => Some(next_sign(state, i)),
            Place::Ask(question) => Some((
                Line::Ask(question),
                Trial::at(state, after_question(question)),
            )),
            Place::End => None,
        }
    }
}

/// Gives the next line of the script, without its end; `None` exactly if none is left.
///
/// # Errors
///
/// If memory runs out. Then nothing was taken.
pub fn trial_line(alloc: Global, state: &mut Trial) -> Result<Option<Vec<u8>>, AllocError>
    ensures taken { IfOk result (λ taken. MatchOption taken ((state.old ≡ []) × (state.new ≡ [])) (λ line. state.old ≡ line.items ∷ state.new)) }
    ensures same { OnErr result (state.new ≡ state.old) }
{
    match state.next() {
        Some((line, next)) => {
            let bytes = line.bytes(alloc)?;
            *state = next;
            Ok(Some(bytes))
        }
        None => Ok(None),
    }
}

// The next line, from a person on, and what is left behind it.
fn next_sign(number: u64, from: u64) -> (Line, Trial)
    requires { from ≤ 150 }
    ensures { left_persons from number ≡ line_text result.0 ∷ result.1 }
{
    let mut state = number;
    for person in from..PERSONS {
        if let Some(line) = sign(&mut state, person) {
            return (line, Trial::at(state, Place::Person(person + 1)));
        }
    }
    let place = after_question(Question::AtRisk);
    (Line::Ask(Question::AtRisk), Trial::at(state, place))
}

// Draws what is set of a person, if anything is.
#[tactic(auto, unfolding(crate::specs::Draws::after, crate::specs::Script::after_sign, crate::specs::Script::sign_lines))]
fn sign(state: &mut u64, person: u64) -> Option<Line>
    ensures state { state.new ≡ after_sign state.old }
    ensures line { MatchOption result (sign_lines person state.old ≡ []) (λ line. sign_lines person state.old ≡ line_text line ∷ []) }
{
    match draw(state, 4) {
        0 => {
            let from = draw(state, 9_000);
            Some(Line::High {
                person,
                from,
                to: from + 999,
            })
        }
        1 => {
            let from = draw(state, 9_000);
            Some(Line::Positive {
                person,
                from,
                to: from + 99,
            })
        }
        _ => None,
    }
}

// The place behind a node.
fn after_node(node: u64) -> Place
    requires { node < 200 }
    ensures place { IsPlace result }
    ensures left { (x : ℕ) → left_nodes node x ≡ line_text (Line.Node node) ∷ left x result }
{
    if node + 1 < NODES {
        Place::Node(node + 1)
    } else {
        Place::NodeLife(0)
    }
}

// The place behind the life of a node.
fn after_life(node: u64) -> Place
    requires { node < 200 }
    ensures place { IsPlace result }
    ensures left { (x : ℕ) → left_lives node x ≡ line_text (Line.NodeLife node) ∷ left x result }
{
    if node + 1 < NODES {
        Place::NodeLife(node + 1)
    } else {
        Place::Edge(0)
    }
}

// The place behind an edge.
fn after_edge(edge: u64) -> Place
    requires { edge < 2000 }
    ensures place { IsPlace result }
    ensures left { (x : ℕ) → left_edges (edge + 1) x ≡ left x result }
{
    if edge + 1 < EDGES {
        Place::Edge(edge + 1)
    } else {
        Place::Person(0)
    }
}

// The place behind a question.
fn after_question(question: Question) -> Place
    ensures place { IsPlace result }
    ensures left { (x : ℕ) → left x (Place.Ask question) ≡ line_text (Line.Ask question) ∷ left x result }
{
    match question {
        Question::AtRisk => Place::Ask(Question::InContact),
        Question::InContact => Place::Ask(Question::Alone),
        Question::Alone => Place::End,
    }
}
