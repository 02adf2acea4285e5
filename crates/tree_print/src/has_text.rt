//! Whether a component has a text: by the table of lines, each row has one, and each leaf has what its place in the line asks of it.

ghost use Rattle.std.specs.Prelude.{◌≡◌, ◌++◌, [], map};
ghost use Rattle.std.specs.Str.{is_utf8};
ghost use Rattle.comp_model.specs.Core.{CoreValue};
ghost use Rattle.comp_model.specs.Model as m;
ghost use Rattle.comp_wire.specs.Values.{core_value_of};
ghost use Rattle.wire_tree.specs.Lists.{listed, node_of, nodes_listed, defs_listed};
ghost use Rattle.wire_tree.specs.Model.{leaf_of, scope_of};
ghost use Rattle.print_table.specs.TextOf.{unnamed_leaf, unnamed_defs, unnamed};
ghost use Rattle.print_table.specs.HasText.{has_words as are_words, is_reference as is_reference_type, has_at, leaf_has, node_has, nodes_have, definitions_have, pieces_have, line_has, has_text};
ghost use Rattle.tree_print.specs.Lines.{field_of, piece_of, line_pieces};
ghost use Rattle.tree_print.specs.Texts.{asked, piece_has, definition_has};
ghost use Rattle.tree_print.specs.Words.{words_tokens};

use crate::definitions::definition_in;
use crate::inner::inner_line;
use crate::line::{Field, Frame, Line, Piece, part_field};
use crate::name_section::is_name_section;
use crate::word::{Word, core_kind_words, kind_words, outer_kind_words};
use comp_model::{ScopeKind, Space};
use comp_wire::{WireHeap, WireVal};
use wire_tree::{Leaf, Node, Scope};

/// Whether bytes are UTF-8.
fn is_text(bytes: &[u8]) -> bool
    ensures { result ≡ is_utf8 bytes.now }
{
    match str::from_utf8(bytes) {
        Ok(_) => true,
        Err(_) => false,
    }
}

/// Whether there are words.
#[tactic(auto, using(crate::proofs::Asked::no_words, crate::proofs::Asked::some_words))]
fn has_words(words: &[Word]) -> bool
    ensures { result ≡ are_words (words_tokens words.now) }
{
    words.len() != 0
}

/// Whether a text is one where it is printed as one.
fn text_serves(text: &[u8], field: Field) -> bool
    ensures { result ≡ leaf_has (m.text text.now) (field_of field) }
{
    match field {
        Field::Text => is_text(text),
        _ => true,
    }
}

/// Whether a kind has words where these are printed.
fn kind_serves(space: Space, field: Field) -> bool
    ensures { result ≡ leaf_has (m.kind space) (field_of field) }
{
    match field {
        Field::Kind => has_words(kind_words(space)),
        Field::CoreKind => has_words(core_kind_words(space)),
        Field::OuterKind => has_words(outer_kind_words(space)),
        _ => true,
    }
}

/// Whether the space of an index has words where these are printed.
fn index_serves(space: Space, index: u32, field: Field) -> bool
    ensures { result ≡ leaf_has (m.ref space (m.index index)) (field_of field) }
{
    match field {
        Field::Item => has_words(kind_words(space)),
        Field::CoreItem => has_words(core_kind_words(space)),
        _ => true,
    }
}

/// Whether a core value type is a reference.
fn is_reference(value: WireVal) -> bool
    ensures { result ≡ is_reference_type (core_value_of value) }
{
    match value {
        WireVal::I32 => false,
        WireVal::I64 => false,
        WireVal::F32 => false,
        WireVal::F64 => false,
        WireVal::V128 => false,
        WireVal::Ref {
            nullable: _,
            heap: WireHeap::Func,
        } => true,
        WireVal::Ref {
            nullable: _,
            heap: WireHeap::Extern,
        } => true,
        WireVal::Ref {
            nullable: _,
            heap: WireHeap::Concrete(_),
        } => true,
    }
}

/// Whether a core value type is a reference where the elements of a table are printed.
fn value_serves(value: WireVal, field: Field) -> bool
    ensures { result ≡ leaf_has (m.core_value (core_value_of value)) (field_of field) }
{
    match field {
        Field::Element => is_reference(value),
        _ => true,
    }
}

/// Whether a leaf has what its place asks of it.
#[cycle(asking)]
fn leaf_serves(leaf: &Leaf<'_, '_>, field: Field) -> bool
    ensures { result ≡ leaf_has (unnamed_leaf (leaf_of leaf.now)) (field_of field) }
{
    match leaf {
        Leaf::Text(text) => text_serves(text, field),
        Leaf::Number(_) => true,
        Leaf::Kind(space) => kind_serves(*space, field),
        Leaf::CoreValue(value) => value_serves(*value, field),
        Leaf::Index(space, index) => index_serves(*space, *index, field),
        Leaf::Outward(_) => true,
        Leaf::Absent => true,
        Leaf::Present(part) => present_serves(part, field),
        Leaf::Node(node) => one_serves(node, field),
        Leaf::Nodes(nodes) => list_serves(nodes, field),
        Leaf::NoId => true,
        Leaf::Results(_) => true,
        Leaf::Module(_) => true,
        Leaf::Scope(scope) => scope_serves(scope, field),
    }
}

/// Whether an optional part that is there has what its place asks of it.
#[cycle(asking)]
fn present_serves(part: &Leaf<'_, '_>, field: Field) -> bool
    ensures { result ≡ leaf_has (m.present (leaf_of part.now)) (field_of field) }
{
    match field {
        Field::Optional(kind) => leaf_serves(part, part_field(kind)),
        Field::OptionalIn(_, kind) => leaf_serves(part, part_field(kind)),
        _ => true,
    }
}

/// Whether a row that is a leaf has a text.
#[cycle(asking)]
fn one_serves(node: &Node<'_, '_>, field: Field) -> bool
    ensures { result ≡ leaf_has (m.node (node_of node.now)) (field_of field) }
{
    match field {
        Field::One => node_serves(node),
        _ => true,
    }
}

/// Whether rows that are a leaf have a text.
#[cycle(asking)]
fn list_serves(nodes: &[Node<'_, '_>], field: Field) -> bool
    ensures { result ≡ leaf_has (m.nodes (nodes_listed nodes.now)) (field_of field) }
{
    match field {
        Field::Each => nodes_serve(nodes),
        Field::EachIn(_) => nodes_serve(nodes),
        _ => true,
    }
}

/// Whether a scope that is a leaf has a text.
#[cycle(asking)]
fn scope_serves(scope: &Scope<'_, '_>, field: Field) -> bool
    ensures { result ≡ leaf_has (unnamed_leaf (m.scope (scope_of scope.now))) (field_of field) }
{
    match field {
        Field::Definitions => definitions_serve(scope.kind, scope.defs),
        _ => true,
    }
}

/// Whether the leaf at a place has what is asked of it; none has not.
#[cycle(asking)]
fn place_serves(leaves: &[Leaf<'_, '_>], at: usize, field: Field) -> bool
    ensures { result ≡ has_at at (field_of field) (asked (listed leaves.now)) }
{
    if at < leaves.len() {
        return leaf_serves(&leaves[at], field);
    }
    false
}

/// Whether a piece of a line has what it asks for.
#[cycle(asking)]
fn piece_serves(piece: Piece, leaves: &[Leaf<'_, '_>]) -> bool
    ensures { result ≡ piece_has (piece_of piece) (asked (listed leaves.now)) }
{
    match piece {
        Piece::Open => true,
        Piece::Close => true,
        Piece::Word(_) => true,
        Piece::Leaf(at, field) => place_serves(leaves, at as usize, field),
    }
}

/// Whether the pieces of a line have what they ask for.
#[cycle(asking)]
fn pieces_serve(pieces: &[Piece], leaves: &[Leaf<'_, '_>]) -> bool
    ensures { result ≡ pieces_have (map piece_of pieces.now) (asked (listed leaves.now)) }
{
    for piece in pieces {
        if !piece_serves(*piece, leaves) {
            return false;
        }
    }
    true
}

/// Whether there is a line with nothing around it, and its pieces have what they ask for.
#[cycle(asking)]
fn bare_serves(pieces: &[Piece], leaves: &[Leaf<'_, '_>]) -> bool
    ensures { result ≡ line_has (map piece_of pieces.now) (asked (listed leaves.now)) }
{
    if pieces.len() == 0 {
        return false;
    }
    pieces_serve(pieces, leaves)
}

/// Whether there is a line, and its pieces have what they ask for.
#[cycle(asking)]
fn line_serves(line: Line, leaves: &[Leaf<'_, '_>]) -> bool
    ensures { result ≡ line_has (line_pieces line) (asked (listed leaves.now)) }
{
    match line.frame {
        Frame::Bare => bare_serves(line.pieces, leaves),
        Frame::Group(_) => pieces_serve(line.pieces, leaves),
        Frame::Custom => pieces_serve(line.pieces, leaves),
        Frame::TypeOf(_) => pieces_serve(line.pieces, leaves),
        Frame::BuiltIn(_) => pieces_serve(line.pieces, leaves),
    }
}

/// Whether a row that stands in another has a text.
#[cycle(asking)]
fn node_serves(node: &Node<'_, '_>) -> bool
    ensures { result ≡ node_has (node_of node.now) }
{
    line_serves(inner_line(node.row), node.leaves)
}

/// Whether rows that stand in another have a text.
#[cycle(asking)]
fn nodes_serve(nodes: &[Node<'_, '_>]) -> bool
    ensures { result ≡ nodes_have (nodes_listed nodes.now) }
{
    for node in nodes {
        if !node_serves(node) {
            return false;
        }
    }
    true
}

/// Whether a definition has a text, or is a custom section of names.
#[cycle(asking)]
fn definition_serves(kind: ScopeKind, node: &Node<'_, '_>) -> bool
    ensures { result ≡ definition_has kind node.now.row (listed node.now.leaves.now) }
{
    if is_name_section(node) {
        return true;
    }
    line_serves(definition_in(kind, node.row), node.leaves)
}

/// Whether the definitions of a scope have a text, its custom sections of names left out.
#[cycle(asking)]
fn definitions_serve(kind: ScopeKind, defs: &[Node<'_, '_>]) -> bool
    ensures { result ≡ definitions_have kind (unnamed_defs (defs_listed defs.now)) }
{
    for node in defs {
        if !definition_serves(kind, node) {
            return false;
        }
    }
    true
}

/// Whether a component has a text, its custom sections of names left out.
pub fn has_text(scope: &Scope<'_, '_>) -> bool
    ensures { result ≡ has_text (unnamed (scope_of scope.now)) }
{
    definitions_serve(scope.kind, scope.defs)
}
