//! Leaves in print.

use comp_model::Space;
use comp_tree::{Leaf, Node, PathUse};
use std::io;
use wast_parser::Index;

/// Prints leaves, a line each, those of a list with what stands in them.
pub fn print_leaves(rt: &HostRuntime, leaves: &[Leaf<'_, '_>]) -> Result<(), io::Error> {
    if leaves.is_empty() {
        println!(rt; "  nothing")?;
    }
    for leaf in leaves {
        match leaf {
            Leaf::Nodes(nodes) => print_nodes(rt, nodes)?,
            _ => print_leaf(rt, leaf)?,
        }
    }
    Ok(())
}

/// Prints the entries of a list.
fn print_nodes(rt: &HostRuntime, nodes: &[Node<'_, '_>]) -> Result<(), io::Error> {
    println!(rt; "  {} entries", nodes.len())?;
    for node in nodes {
        println!(rt; "  {:?}", node.row)?;
        for leaf in node.leaves {
            print_leaf(rt, leaf)?;
        }
    }
    Ok(())
}

/// Prints a number or a reference.
fn print_leaf(rt: &HostRuntime, leaf: &Leaf<'_, '_>) -> Result<(), io::Error> {
    match leaf {
        Leaf::Number(number) => println!(rt; "  number {number}"),
        Leaf::Path(space, path) => print_path(rt, *space, path),
        _ => println!(rt; "  another leaf"),
    }
}

/// Prints a reference with the names of exports behind it.
fn print_path(rt: &HostRuntime, space: Space, path: &PathUse<'_, '_>) -> Result<(), io::Error> {
    match path.root {
        Index::Num(number, _) => println!(rt; "  {space:?} {number}")?,
        Index::Id(id) => println!(rt; "  {space:?} ${}", id.name())?,
    }
    for name in path.exports {
        println!(rt; "    export {name}")?;
    }
    Ok(())
}
