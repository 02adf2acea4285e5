//! Producers, which are written as a custom section (WebAssembly tool conventions, Producers Section), from the last one to the first.

ghost use Rattle.std.specs.Prelude.{◌≡◌, ◌≤◌, ℕ, ◌+◌, List, [], ◌∷◌, ◌++◌, codes, map, length, drop, MatchOption, Some, None};
ghost use Rattle.comp_model.specs.CoreModules.{CoreModule};
ghost use Rattle.comp_model.specs.Payloads.{joined, producers_payload, producers_bytes, producers_field, producers_fields, producer_bytes};
ghost use Rattle.comp_scopes.specs.Form.{custom_node};
ghost use Rattle.comp_tree.specs.Model.{leaf_of, lent_text};
ghost use Rattle.comp_tree.specs.Lists.{listed, nodes_listed};
ghost use Rattle.comp_wire.specs.Spelled.{item_of_node};
ghost use Rattle.tree_write.specs.Kept.{put};
ghost use Rattle.tree_write.specs.Produced.{is_text, maybe_text, framed_text};

use crate::leaf::write_framed_pieces;
use crate::numbers::{write_text, write_unsigned};
use crate::sink::Sink;
use comp_tree::{Leaf, Node};

/// The names of the fields.
const FIELDS: [&str; 3] = ["language", "sdk", "processed-by"];

/// Whether a leaf is a text.
fn is_text(leaf: &Leaf<'_, '_>) -> bool
    ensures { (cores : List CoreModule) → result ≡ is_text (leaf_of cores leaf.now) }
{
    match leaf {
        Leaf::Text(_) => true,
        Leaf::Pieces(_) => true,
        Leaf::Core(_) => false,
        _ => false,
    }
}

/// Writes a leaf that is a text, behind its length.
#[tactic(auto, using(crate::proofs::Puts::put_none))]
fn write_part<S: Sink>(sink: &mut S, leaf: &Leaf<'_, '_>)
    ensures { (cores : List CoreModule) → S.kept sink.new ≡ put (framed_text (maybe_text (leaf_of cores leaf.now))) (S.kept sink.old) }
{
    match leaf {
        Leaf::Text(text) => write_text(sink, text),
        Leaf::Pieces(pieces) => write_framed_pieces(sink, pieces),
        Leaf::Number(_) => {}
        Leaf::Kind(_) => {}
        Leaf::CoreValue(_) => {}
        Leaf::Numeral(_, _, _) => {}
        Leaf::Name(_, _, _) => {}
        Leaf::Path(_, _) => {}
        Leaf::Place(_) => {}
        Leaf::Absent => {}
        Leaf::Present(_) => {}
        Leaf::Node(_) => {}
        Leaf::Nodes(_) => {}
        Leaf::Inline(_, _) => {}
        Leaf::Bundle(_, _) => {}
        Leaf::CaseId(_) => {}
        Leaf::Results(_) => {}
        Leaf::Core(_) => {}
        Leaf::Scope(_) => {}
    }
}

/// Writes a producer: its name and its version.
fn write_producer<S: Sink>(sink: &mut S, leaves: &[Leaf<'_, '_>])
    ensures { (cores : List CoreModule) → S.kept sink.new ≡ put (producer_bytes (listed cores leaves.now)) (S.kept sink.old) }
{
    if leaves.len() != 2 {
        return;
    }
    let name = &leaves[0];
    let version = &leaves[1];
    if !is_text(name) {
        return;
    }
    if !is_text(version) {
        return;
    }
    write_part(sink, version);
    write_part(sink, name);
}

/// Writes producers.
fn write_list<S: Sink>(sink: &mut S, nodes: &[Node<'_, '_>])
    ensures { (cores : List CoreModule) → S.kept sink.new ≡ put (producers_bytes (nodes_listed cores nodes.now)) (S.kept sink.old) }
{
    for i in (0..nodes.len()).rev() {
        write_producer(sink, nodes[i].leaves);
    }
}

/// Writes a field, if it holds a producer, and answers how many fields that is.
fn write_field<S: Sink>(sink: &mut S, name: &str, nodes: &[Node<'_, '_>]) -> u64
    ensures bytes { (cores : List CoreModule) → S.kept sink.new ≡ put (joined (producers_field name.now (nodes_listed cores nodes.now))) (S.kept sink.old) }
    ensures count { (cores : List CoreModule) → result ≡ length (producers_field name.now (nodes_listed cores nodes.now)) }
    ensures few { result ≤ 1 }
{
    if nodes.len() == 0 {
        return 0;
    }
    write_list(sink, nodes);
    write_unsigned(sink, nodes.len() as u64);
    write_text(sink, name);
    1
}

/// The nodes at a place.
fn nodes_at<'t, 'a>(leaves: &[Leaf<'t, 'a>], at: usize) -> Option<&'t [Node<'t, 'a>]>
    ensures { (cores : List CoreModule) (x : List ℕ) (xs : List (List ℕ)) → MatchOption result (producers_fields (x ∷ xs) (listed cores (drop at leaves.now)) ≡ []) (λ ns. producers_fields (x ∷ xs) (listed cores (drop at leaves.now)) ≡ producers_field x (nodes_listed cores ns.now) ++ producers_fields xs (listed cores (drop (at + 1) leaves.now))) }
{
    if at < leaves.len() {
        leaves[at].as_nodes()
    } else {
        None
    }
}

/// Writes the fields of these names from a place on, and answers how many they are.
fn write_fields<S: Sink>(sink: &mut S, names: &[&str], leaves: &[Leaf<'_, '_>], at: usize) -> u64
    requires place { at ≤ length names.now }
    ensures bytes { (cores : List CoreModule) → S.kept sink.new ≡ put (joined (producers_fields (map lent_text (drop at names.now)) (listed cores (drop at leaves.now)))) (S.kept sink.old) }
    ensures count { (cores : List CoreModule) → result ≡ length (producers_fields (map lent_text (drop at names.now)) (listed cores (drop at leaves.now))) }
    ensures few { result + at ≤ length names.now }
{
    if at >= names.len() {
        return 0;
    }
    match nodes_at(leaves, at) {
        Some(nodes) => {
            let behind = write_fields(sink, names, leaves, at + 1);
            behind + write_field(sink, names[at], nodes)
        }
        None => 0,
    }
}

/// Writes the custom section of producers, without its number and its length.
pub fn write_producers<S: Sink>(sink: &mut S, leaves: &[Leaf<'_, '_>])
    ensures { (cores : List CoreModule) → S.kept sink.new ≡ put (item_of_node (custom_node (codes "producers") (producers_payload (listed cores leaves.now)))).content (S.kept sink.old) }
{
    let count = write_fields(sink, &FIELDS, leaves, 0);
    write_unsigned(sink, count);
    write_text(sink, "producers");
}
