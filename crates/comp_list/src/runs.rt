//! The items that a leaf gives to its definition, as a run of one space.

ghost use Rattle.std.specs.Prelude.{◌≡◌, []};
ghost use Rattle.comp_model.specs.Spaces.{described, leaf_spaces};
ghost use Rattle.wire_tree.specs.Model.{leaf_of};
ghost use Rattle.comp_list.specs.Runs.{run_of, reference_spaces};

use comp_model::{Declares, Row, Space, described_space};
use wire_tree::Leaf;

/// So many items of a space.
#[derive(Clone, Copy)]
pub struct Run {
    /// The space.
    pub space: Space,
    /// How many.
    pub count: u64,
}

/// No items.
pub fn no_run() -> Run
    ensures { run_of result ≡ [] }
{
    Run {
        space: Space::CoreFunc,
        count: 0,
    }
}

/// The items that a description admits.
fn described_run(row: Row) -> Run
    ensures { run_of result ≡ described row }
{
    match described_space(row) {
        Some(space) => Run { space, count: 1 },
        None => no_run(),
    }
}

/// What a reference gives.
fn reference_run(space: Space, by: Declares) -> Run
    ensures { run_of result ≡ reference_spaces space by }
{
    match by {
        Declares::ByReference => Run { space, count: 1 },
        _ => no_run(),
    }
}

/// The items that one leaf gives to a definition whose spaces stand there.
pub fn leaf_run(leaf: &Leaf<'_, '_>, by: Declares) -> Run
    ensures { run_of result ≡ leaf_spaces (leaf_of leaf.now) by }
{
    match leaf {
        Leaf::Kind(space) => match by {
            Declares::ByKind => Run {
                space: *space,
                count: 1,
            },
            _ => no_run(),
        },
        Leaf::Node(node) => match by {
            Declares::ByDescription => described_run(node.row),
            _ => no_run(),
        },
        Leaf::Index(space, _) => reference_run(*space, by),
        Leaf::Nodes(nodes) => match by {
            Declares::ByList => Run {
                space: Space::CoreType,
                count: nodes.len() as u64,
            },
            _ => no_run(),
        },
        Leaf::Results(count) => match by {
            Declares::ByResults => Run {
                space: Space::Value,
                count: *count as u64,
            },
            _ => no_run(),
        },
        Leaf::Text(_) => no_run(),
        Leaf::Number(_) => no_run(),
        Leaf::CoreValue(_) => no_run(),
        Leaf::Outward(_) => no_run(),
        Leaf::Absent => no_run(),
        Leaf::Present(_) => no_run(),
        Leaf::NoId => no_run(),
        Leaf::Module(_) => no_run(),
        Leaf::Scope(_) => no_run(),
    }
}
