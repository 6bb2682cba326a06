//! Makes calls of `ptree` that allocate and that the library for C has not, and those that were
//! refused memory once more. Prints what they returned, and how many were refused.
//!
//! `tests/test_rattle.py` refuses each allocation in turn.
#![tactic(auto)]

mod building;
mod drawing;
mod failure;
mod graphs;
mod trial;

use ptree::graph::NodeIndex;
use std::process::ExitCode;
use trial::{Step, Trial};

// An edge of a node that is not there, parallel edges, a ring, and edges to further nodes.
const MISSING: &[(NodeIndex, NodeIndex)] = &[
    (NodeIndex(0), NodeIndex(1)),
    (NodeIndex(0), NodeIndex(2)),
];

const PARALLEL: &[(NodeIndex, NodeIndex)] = &[
    (NodeIndex(0), NodeIndex(1)),
    (NodeIndex(0), NodeIndex(1)),
];

const RING: &[(NodeIndex, NodeIndex)] = &[
    (NodeIndex(0), NodeIndex(1)),
    (NodeIndex(1), NodeIndex(0)),
];

const FURTHER: &[(NodeIndex, NodeIndex)] = &[
    (NodeIndex(0), NodeIndex(2)),
    (NodeIndex(0), NodeIndex(3)),
    (NodeIndex(0), NodeIndex(4)),
];

// What is called, in this order. A list has to grow at its first, fifth and ninth item, so the
// builder gets nine items, and the graph five nodes and edges.
const STEPS: &[Step] = &[
    Step::Paint,
    Step::Copy,
    Step::Values,
    Step::Tree("a"),
    Step::Tree("a\nb"),
    Step::Begin("a"),
    Step::End,
    Step::Leaf("b"),
    Step::Leaf("c"),
    Step::Leaf("d"),
    Step::Leaf("e"),
    Step::Leaf("f"),
    Step::Leaf("g"),
    Step::Leaf("h"),
    Step::At(1, "i"),
    Step::Built,
    Step::Node("x"),
    Step::Node("y"),
    Step::Edges(MISSING),
    Step::Edges(PARALLEL),
    Step::Walks(NodeIndex(0)),
    Step::Clear,
    Step::Node("x"),
    Step::Node("y"),
    Step::Edges(RING),
    Step::Walks(NodeIndex(0)),
    Step::Walks(NodeIndex(7)),
    Step::Node("z"),
    Step::Node("u"),
    Step::Node("v"),
    Step::Edges(FURTHER),
    Step::Walks(NodeIndex(0)),
    Step::Number,
];

fn main(rt: HostRuntime) -> ExitCode {
    let Ok(mut trial) = Trial::new(rt.alloc()) else {
        return ExitCode::from(1);
    };
    let ended = trial.call_all(rt.alloc(), STEPS);
    let printed = trial.print(&rt);
    ExitCode::from(u8::from(ended.is_err() || printed.is_err()))
}
