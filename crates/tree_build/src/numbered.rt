//! Lists of entries by their numbers, and texts as one.

ghost use Rattle.std.specs.Prelude.{◌≡◌, ◌≤◌, ◌++◌, ◌∷◌, List, [], IfOk, OnOk, map, length};
ghost use Rattle.std.specs.Option.{option_to_list};
ghost use Rattle.comp_model.specs.CoreModules.{CoreModule, Field};
ghost use Rattle.comp_model.specs.Model as m;
ghost use Rattle.text_rules.specs.Rule as rules;
ghost use Rattle.text_rules.specs.Made.{add_numbered, joined_text, nodes_from, numbered_lists, numbered_nodes};
ghost use Rattle.comp_tree.specs.Lists.{node_of};
ghost use Rattle.comp_tree.specs.Model.{leaf_of, joined};
ghost use Rattle.tree_build.specs.Held.{loose};
ghost use Rattle.tree_build.specs.Adds.{MakesOf};
ghost use Rattle.tree_build.specs.References.{is_number};

use crate::scratch::Scratch;
use bumpalo::Bump;
use comp_tree::{Leaf, Node, place_all};
use std::alloc::{AllocError, Global};

/// Whether a leaf is this number.
fn is_number(leaf: &Leaf<'_, '_>, number: usize) -> bool
    ensures { (cs : List CoreModule) → result ≡ is_number number (leaf_of cs leaf.now) }
{
    match leaf {
        Leaf::Number(n) => *n as usize == number,
        _ => false,
    }
}

/// An entry whose first leaf is this number, without it.
fn numbered_entry<'t, 'a>(node: &Node<'t, 'a>, number: usize) -> Option<Node<'t, 'a>>
    ensures { (cs : List CoreModule) (ns : List m.Node) → map (node_of cs) (option_to_list result) ++ ns ≡ add_numbered number (node_of cs node.now) ns }
{
    if node.leaves.len() > 0 && is_number(&node.leaves[0], number) {
        Some(Node {
            row: node.row,
            span: node.span,
            leaves: &node.leaves[1..],
        })
    } else {
        None
    }
}

/// Puts an entry behind others if it has a number, without that.
fn push_numbered<'t, 'a>(
    entries: &mut Vec<Node<'t, 'a>>,
    node: &Node<'t, 'a>,
    number: usize,
) -> Result<(), AllocError>
    ensures { (cs : List CoreModule) (ns : List m.Node) → OnOk result (map (node_of cs) entries.new.items ++ ns ≡ map (node_of cs) entries.old.items ++ add_numbered number (node_of cs node.now) ns) }
{
    match numbered_entry(node, number) {
        Some(entry) => match entries.push(entry) {
            Ok(()) => Ok(()),
            Err(_) => Err(AllocError),
        },
        None => Ok(()),
    }
}

/// The entries with a number, without it.
fn numbered_entries<'t, 'a>(
    alloc: Global,
    nodes: &[Node<'t, 'a>],
    number: usize,
) -> Result<Vec<Node<'t, 'a>>, AllocError>
    ensures { (cs : List CoreModule) → IfOk result (λ v. map (node_of cs) v.items ≡ numbered_nodes number (map (node_of cs) nodes.now)) }
{
    let mut entries = Vec::new(alloc);
    'nodes: for node in nodes {
        push_numbered(&mut entries, node, number)?;
    }
    Ok(entries)
}

/// Puts the entries with a number behind other leaves, as one leaf.
fn push_list<'t, 'a>(
    alloc: Global,
    bump: &'t Bump,
    nodes: &[Node<'t, 'a>],
    number: usize,
    leaves: &mut Vec<Leaf<'t, 'a>>,
) -> Result<(), AllocError>
    ensures { (fs : List (List Field)) (cs : List CoreModule) → OnOk result (map (loose fs cs) leaves.new.items ≡ map (loose fs cs) leaves.old.items ++ (m.nodes (nodes_from (numbered_nodes number (map (node_of cs) nodes.now))) ∷ [])) }
{
    let entries = numbered_entries(alloc, nodes, number)?;
    let placed = place_all(bump, &entries)?;
    match leaves.push(Leaf::Nodes(placed)) {
        Ok(()) => Ok(()),
        Err(_) => Err(AllocError),
    }
}

/// Puts so many lists of entries behind other leaves.
fn push_lists<'t, 'a>(
    alloc: Global,
    bump: &'t Bump,
    nodes: &[Node<'t, 'a>],
    lists: usize,
    leaves: &mut Vec<Leaf<'t, 'a>>,
) -> Result<(), AllocError>
    ensures { (fs : List (List Field)) (cs : List CoreModule) → OnOk result (map (loose fs cs) leaves.new.items ≡ map (loose fs cs) leaves.old.items ++ numbered_lists 0 lists (map (node_of cs) nodes.now)) }
{
    'lists: for number in 0..lists {
        match push_list(alloc, bump, nodes, number, leaves) {
            Ok(()) => {}
            Err(AllocError) => return Err(AllocError),
        }
    }
    Ok(())
}

/// Makes so many lists of the entries behind an end, each a leaf: an entry stands in the list of the number that is its first leaf, which goes.
/// Entries with no such number go. Fails when memory runs out.
pub fn wrap_by_number(
    scratch: &mut Scratch<'_, '_>,
    lists: usize,
    nodes: usize,
) -> Result<(), AllocError>
    requires { nodes ≤ length scratch.old.nodes.items }
    ensures { MakesOf (rules.by_number lists) (λ a. length a.nodes ≡ nodes) result scratch.old scratch.new }
{
    push_lists(
        scratch.alloc,
        scratch.bump,
        &scratch.nodes[nodes..],
        lists,
        &mut scratch.leaves,
    )?;
    scratch.nodes.truncate(nodes);
    Ok(())
}

/// Puts a text behind others.
fn push_piece<'a>(pieces: &mut Vec<&'a [u8]>, text: &'a [u8]) -> Result<(), AllocError>
    ensures { OnOk result (joined pieces.new.items ≡ joined pieces.old.items ++ text.entry.now) }
{
    match pieces.push(text) {
        Ok(()) => Ok(()),
        Err(_) => Err(AllocError),
    }
}

/// Puts the text of a leaf behind others, and nothing if it has none.
fn push_text<'a>(pieces: &mut Vec<&'a [u8]>, leaf: &Leaf<'_, 'a>) -> Result<(), AllocError>
    ensures { (fs : List (List Field)) (cs : List CoreModule) → OnOk result (joined pieces.new.items ≡ joined pieces.old.items ++ joined_text (loose fs cs leaf.now ∷ [])) }
{
    match leaf {
        Leaf::Text(text) => push_piece(pieces, text.as_bytes()),
        Leaf::Pieces(texts) => pieces.extend_from_slice(texts),
        _ => Ok(()),
    }
}

/// Puts the texts of leaves behind others.
fn push_texts<'a>(pieces: &mut Vec<&'a [u8]>, leaves: &[Leaf<'_, 'a>]) -> Result<(), AllocError>
    ensures { (fs : List (List Field)) (cs : List CoreModule) → OnOk result (joined pieces.new.items ≡ joined pieces.old.items ++ joined_text (map (loose fs cs) leaves.now)) }
{
    'leaves: for leaf in leaves {
        match push_text(pieces, leaf) {
            Ok(()) => {}
            Err(AllocError) => return Err(AllocError),
        }
    }
    Ok(())
}

/// Makes one text of the texts among the leaves behind an end, in the pieces that were read. Other leaves there go. Fails when memory runs out.
pub fn wrap_joined(scratch: &mut Scratch<'_, '_>, leaves: usize) -> Result<(), AllocError>
    requires { leaves ≤ length scratch.old.leaves.items }
    ensures { MakesOf rules.joined (λ a. length a.leaves ≡ leaves) result scratch.old scratch.new }
{
    let mut pieces = Vec::new(scratch.alloc);
    push_texts(&mut pieces, &scratch.leaves[leaves..])?;
    let texts = place_all(scratch.bump, &pieces)?;
    scratch.leaves.truncate(leaves);
    scratch.leaf(Leaf::Pieces(texts))
}
