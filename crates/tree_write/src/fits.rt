//! Whether nodes can be written, by the table: each leaf is of the sort that its field spells, no leaf is left over, and every count,
//! length and index is below 2^32.

ghost use Rattle.std.specs.Prelude.{◌≡◌, ◌==◌, ◌++◌, length, map};
ghost use Rattle.comp_model.specs.Model.{present, nodes as nodes_leaf, scope as scope_leaf, no_def};
ghost use Rattle.comp_scopes.specs.Resolved.{binary_of_defs};
ghost use Rattle.comp_tree.specs.Lists.{defs_listed};
ghost use Rattle.comp_wire.specs.Fits.{test_at, outer_fits, pieces_fit, leaf_fits, leaf_tests, node_fits, type_scope_fits, declarations_fit, code_of_kind};
ghost use Rattle.comp_wire.specs.Spelled.{declarations_of};
ghost use Rattle.comp_wire.specs.Table.{each};
ghost use Rattle.byte_table.specs.Lines.{field_of, family_of, piece_of, type_kind};
ghost use Rattle.byte_table.specs.Stands.{lead_of};
ghost use Rattle.tree_write.specs.Along.{is_filled};
ghost use Rattle.tree_write.specs.Measured.{kind_in, piece_fits, places_of, places_of_piece, space_of_kind};
ghost use Rattle.tree_write.specs.Wire.{the_encoding, wire_leaf, wire_leaves, wire_node, wire_nodes, wire_scope};

use crate::core_bytes::CoreBytes;
use crate::leaf_fits::{
    absent_fits, case_fits, core_value_fits, index_fits, kind_fits, module_fits, number_fits,
    outward_fits, path_fits, pieces_fit as text_pieces_fit, results_fit, text_fits,
};
use crate::nodes::{declarations_in, part_field};
use byte_table::{Family, Field, Piece, Placed, TypeKind, pieces_in};
use comp_model::{ScopeKind, Space};
use comp_tree::{Def, Leaf, Node, Scope};
use leb_lengths::is_word;
use wast_parser::Index;

/// Whether a leaf can be written.
#[cycle(fitting)]
fn leaf_fits<M: CoreBytes>(modules: &[M], leaf: &Leaf<'_, '_>, field: &Field) -> bool
    ensures { result ≡ leaf_fits (wire_leaf (map M.core_module modules.now) leaf.now) (field_of field.now) }
{
    match leaf {
        Leaf::Text(text) => text_fits(text, field),
        Leaf::Pieces(pieces) => text_pieces_fit(pieces, field),
        Leaf::Number(number) => number_fits(*number, field),
        Leaf::Kind(space) => kind_fits(*space, field),
        Leaf::CoreValue(value) => core_value_fits(value, field),
        Leaf::Numeral(space, number, _) => index_fits(*space, *number, field),
        Leaf::Name(_, _, _) => false,
        Leaf::Path(space, path) => path_fits(*space, &path.root, path.exports, field),
        Leaf::Place(place) => match &place.scope {
            Index::Num(count, _) => outward_fits(*count, field),
            Index::Id(_) => false,
        },
        Leaf::Absent => absent_fits(field),
        Leaf::Present(inner) => present_fits(modules, inner, field),
        Leaf::Node(node) => match field {
            Field::One(family) => node_fits(modules, node, *family),
            _ => false,
        },
        Leaf::Nodes(nodes) => match field {
            Field::Each(family) => nodes_fit(modules, nodes, *family),
            _ => false,
        },
        Leaf::Inline(_, _) => false,
        Leaf::Bundle(_, _) => false,
        Leaf::CaseId(_) => case_fits(field),
        Leaf::Results(ids) => results_fit(ids.len(), field),
        Leaf::Core(number) => module_fits(modules, *number, field),
        Leaf::Scope(scope) => scope_fits(modules, scope, field),
    }
}

/// Whether a part that is there can be written.
#[cycle(fitting)]
fn present_fits<M: CoreBytes>(modules: &[M], inner: &Leaf<'_, '_>, field: &Field) -> bool
    ensures { result ≡ leaf_fits (present (wire_leaf (map M.core_module modules.now) inner.now)) (field_of field.now) }
{
    match field {
        Field::Optional(part) => leaf_fits(modules, inner, &part_field(*part)),
        Field::Result(part) => leaf_fits(modules, inner, &part_field(*part)),
        Field::Maximum => leaf_fits(modules, inner, &Field::Unsigned),
        _ => false,
    }
}

/// Whether the leaf at a place can be written.
#[cycle(fitting)]
fn leaf_fits_at<M: CoreBytes>(
    modules: &[M],
    leaves: &[Leaf<'_, '_>],
    at: usize,
    field: &Field,
) -> bool
    ensures { result ≡ test_at at (field_of field.now) (leaf_tests (wire_leaves (map M.core_module modules.now) leaves.now)) }
{
    if at < leaves.len() {
        leaf_fits(modules, &leaves[at], field)
    } else {
        false
    }
}

/// The space of a leaf that is a kind.
fn space_of_kind(leaf: &Leaf<'_, '_>) -> Option<Space>
    ensures { result ≡ space_of_kind leaf.now }
{
    match leaf {
        Leaf::Kind(space) => Some(*space),
        _ => None,
    }
}

/// The space of the kind at a place.
fn kind_at(leaves: &[Leaf<'_, '_>], at: usize) -> Option<Space>
    ensures { result ≡ kind_in leaves.now at }
{
    if at < leaves.len() {
        space_of_kind(&leaves[at])
    } else {
        None
    }
}

/// Whether a reference outward can be written, whose leaves stand at this place and behind it: its kind is the space of its index.
#[cycle(fitting)]
fn outer_fits<M: CoreBytes>(modules: &[M], leaves: &[Leaf<'_, '_>], at: u8) -> bool
    ensures { result ≡ outer_fits at (leaf_tests (wire_leaves (map M.core_module modules.now) leaves.now)) }
{
    let place = at as usize;
    match kind_at(leaves, place + 2) {
        Some(space) => {
            leaf_fits_at(modules, leaves, place, &Field::Outward)
                & leaf_fits_at(modules, leaves, place + 1, &Field::IndexIn(space))
        }
        None => false,
    }
}

/// Whether a piece can be written.
#[cycle(fitting)]
fn piece_fits<M: CoreBytes>(modules: &[M], piece: &Piece, leaves: &[Leaf<'_, '_>]) -> bool
    ensures { result ≡ piece_fits (piece_of piece.now) (leaf_tests (wire_leaves (map M.core_module modules.now) leaves.now)) }
{
    match piece {
        Piece::Byte(_) => true,
        Piece::Leaf(at, field) => leaf_fits_at(modules, leaves, *at as usize, field),
        Piece::Limits(at) => {
            leaf_fits_at(modules, leaves, *at as usize, &Field::Unsigned)
                & leaf_fits_at(modules, leaves, *at as usize + 1, &Field::Maximum)
        }
        Piece::Outer(at) => outer_fits(modules, leaves, *at),
    }
}

/// Whether pieces can be written.
#[cycle(fitting)]
fn pieces_fit<M: CoreBytes>(modules: &[M], pieces: &[Piece], leaves: &[Leaf<'_, '_>]) -> bool
    ensures { result ≡ pieces_fit (map piece_of pieces.now) (leaf_tests (wire_leaves (map M.core_module modules.now) leaves.now)) }
{
    for piece in pieces {
        if !piece_fits(modules, piece, leaves) {
            return false;
        }
    }
    true
}

/// How many places a piece asks for.
fn places_of_piece(piece: &Piece) -> usize
    ensures { result ≡ places_of_piece (piece_of piece.now) }
{
    match piece {
        Piece::Byte(_) => 0,
        Piece::Leaf(at, _) => *at as usize + 1,
        Piece::Limits(at) => *at as usize + 2,
        Piece::Outer(at) => *at as usize + 3,
    }
}

/// How many leaves pieces write.
fn places(pieces: &[Piece]) -> usize
    ensures { result ≡ places_of (map piece_of pieces.now) }
{
    let mut most = 0;
    for piece in pieces {
        let places = places_of_piece(piece);
        if places > most {
            most = places;
        }
    }
    most
}

/// Whether there are as many leaves as pieces write.
fn has_places(leaves: &[Leaf<'_, '_>], pieces: &[Piece]) -> bool
    ensures { result ≡ (length leaves.now == places_of (map piece_of pieces.now)) }
{
    leaves.len() == places(pieces)
}

/// Whether a row has a line here.
fn has_line(placed: Placed) -> bool
    ensures { result ≡ is_filled (lead_of placed.lead ++ map piece_of placed.pieces.now) }
{
    match placed.lead {
        Some(_) => true,
        None => placed.pieces.len() != 0,
    }
}

/// Whether a node can be written, as a row of the family.
#[cycle(fitting)]
pub fn node_fits<M: CoreBytes>(modules: &[M], node: &Node<'_, '_>, family: Family) -> bool
    ensures { result ≡ node_fits (wire_node (map M.core_module modules.now) node.now) (family_of family) }
{
    let placed = pieces_in(node.row, family);
    if !has_line(placed) {
        return false;
    }
    if !has_places(node.leaves, placed.pieces) {
        return false;
    }
    pieces_fit(modules, placed.pieces, node.leaves)
}

/// Whether so many nodes can be written, behind their count.
#[cycle(fitting)]
fn nodes_fit<M: CoreBytes>(modules: &[M], nodes: &[Node<'_, '_>], family: Family) -> bool
    ensures { result ≡ leaf_fits (nodes_leaf (wire_nodes (map M.core_module modules.now) nodes.now)) (each (family_of family)) }
{
    if !is_word(nodes.len() as u64) {
        return false;
    }
    for node in nodes {
        if !node_fits(modules, node, family) {
            return false;
        }
    }
    true
}

/// Whether a scope is of this kind.
fn is_of_kind(of: ScopeKind, kind: TypeKind) -> bool
    ensures { result ≡ (code_of_kind of == code_of_kind (type_kind kind)) }
{
    match kind {
        TypeKind::Component => match of {
            ScopeKind::ComponentType => true,
            _ => false,
        },
        TypeKind::Instance => match of {
            ScopeKind::InstanceType => true,
            _ => false,
        },
        TypeKind::Module => match of {
            ScopeKind::ModuleType => true,
            _ => false,
        },
    }
}

/// Whether a scope can be written: as the declarations of a type.
#[cycle(fitting)]
fn scope_fits<M: CoreBytes>(modules: &[M], scope: &Scope<'_, '_>, field: &Field) -> bool
    ensures { result ≡ leaf_fits (scope_leaf (wire_scope (map M.core_module modules.now) scope.now)) (field_of field.now) }
{
    match field {
        Field::TypeScope(kind) => type_scope_fits(modules, scope, *kind),
        _ => false,
    }
}

/// Whether a count and the declarations of a type can be written.
#[cycle(fitting)]
fn type_scope_fits<M: CoreBytes>(modules: &[M], scope: &Scope<'_, '_>, kind: TypeKind) -> bool
    ensures { result ≡ type_scope_fits (wire_scope (map M.core_module modules.now) scope.now) (type_kind kind) }
{
    if !is_of_kind(scope.kind, kind) {
        return false;
    }
    if !is_word(scope.defs.len() as u64) {
        return false;
    }
    declarations_fit(modules, scope.defs, kind)
}

/// Whether the declarations of a type can be written.
#[cycle(fitting)]
fn declarations_fit<M: CoreBytes>(modules: &[M], defs: &[Def<'_, '_>], kind: TypeKind) -> bool
    ensures { result ≡ declarations_fit (binary_of_defs the_encoding (defs_listed (map M.core_module modules.now) defs.now) no_def) (declarations_of (type_kind kind)) }
{
    let family = declarations_in(kind);
    for def in defs {
        if !node_fits(modules, &def.node, family) {
            return false;
        }
    }
    true
}
