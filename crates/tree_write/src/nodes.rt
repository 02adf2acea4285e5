//! The bytes of nodes and of their leaves, by the table: pieces from the last to the first.

ghost use Rattle.std.specs.Prelude.{◌≡◌, ℕ, List, map};
ghost use Rattle.comp_model.specs.Model.{ref, present, nodes as nodes_leaf, scope as scope_leaf};
ghost use Rattle.comp_model.specs.declared.row.Row.TheVariants as rows;
ghost use Rattle.comp_scopes.specs.Resolved.{binary_of_leaf};
ghost use Rattle.comp_tree.specs.Model.{path_of};
ghost use Rattle.comp_wire.specs.Spelled.{spell_leaf, spell_leaves, spell_node, spelled_at, assemble, limits_bytes, outer_bytes, spell_type_scope, fits_at, fits_leaves, FitsLeaf, FitsPieces, FitsNode, FitsTypeScope};
ghost use Rattle.comp_wire.specs.Table as t;
ghost use Rattle.comp_wire.specs.Table.{each};
ghost use Rattle.byte_table.specs.Lines.{field_of, part_of, family_of, piece_of, type_kind, home_pieces};
ghost use Rattle.byte_table.specs.Stands.{lead_of, piece_bytes};
ghost use Rattle.comp_wire.specs.Spelled.{declarations_of};
ghost use Rattle.tree_write.specs.Fitted.{PieceFits, type_lead};
ghost use Rattle.tree_write.specs.Kept.{put};
ghost use Rattle.tree_write.specs.Wire.{the_encoding, wire_leaf, wire_leaves, wire_node, wire_nodes, wire_declarations, wire_scope, Asked, DeclarationsFit};

use crate::core_bytes::CoreBytes;
use crate::leaf::{
    write_absent, write_core_value_leaf, write_index, write_kind, write_module, write_number,
    write_outward, write_pieces_leaf, write_results, write_text_leaf,
};
use crate::numbers::write_unsigned;
use crate::sink::Sink;
use byte_table::{Family, Field, Part, Piece, TypeKind, pieces_in};
use comp_model::{Row, Space};
use comp_tree::{Def, Leaf, Node, Scope};
use wast_parser::Index;

/// How a part is written where it is there.
pub fn part_field(part: Part) -> Field
    ensures { field_of result ≡ part_of part }
{
    match part {
        Part::Value => Field::Value,
        Part::IndexIn(space) => Field::IndexIn(space),
        Part::One(family) => Field::One(family),
    }
}

/// Writes a reference by a path, which is an index where no export name stands behind its root.
#[inline(never)]
#[tactic(auto, using(crate::proofs::Puts::put_none))]
fn write_path<S: Sink>(
    sink: &mut S,
    space: Space,
    root: &Index<'_>,
    exports: &[&str],
    field: &Field,
)
    ensures { S.kept sink.new ≡ put (spell_leaf (binary_of_leaf the_encoding (ref space (path_of root.now exports.now))) (field_of field.now)) (S.kept sink.old) }
{
    if exports.len() != 0 {
        return;
    }
    match root {
        Index::Num(index, _) => write_index(sink, space, *index, field),
        Index::Id(_) => {}
    }
}

/// Writes a leaf.
#[inline(always)]
#[cycle(writing)]
#[tactic(auto, using(crate::proofs::Puts::put_none))]
pub fn write_leaf<S: Sink, M: CoreBytes>(
    sink: &mut S,
    modules: &[M],
    leaf: &Leaf<'_, '_>,
    field: &Field,
)
    ensures { Asked (field_of field.now) (FitsLeaf (wire_leaf (map M.core_module modules.now) leaf.now) (field_of field.now)) → S.kept sink.new ≡ put (spell_leaf (wire_leaf (map M.core_module modules.now) leaf.now) (field_of field.now)) (S.kept sink.old) }
{
    match leaf {
        Leaf::Text(text) => write_text_leaf(sink, text, field),
        Leaf::Pieces(pieces) => write_pieces_leaf(sink, pieces, field),
        Leaf::Number(number) => write_number(sink, *number, field),
        Leaf::Kind(space) => write_kind(sink, *space, field),
        Leaf::CoreValue(value) => write_core_value_leaf(sink, value, field),
        Leaf::Numeral(space, number, _) => write_index(sink, *space, *number, field),
        Leaf::Name(_, _, _) => {}
        Leaf::Path(space, path) => write_path(sink, *space, &path.root, path.exports, field),
        Leaf::Place(place) => match &place.scope {
            Index::Num(count, _) => write_outward(sink, *count, field),
            Index::Id(_) => {}
        },
        Leaf::Absent => write_absent(sink, field),
        Leaf::Present(inner) => write_present(sink, modules, inner, field),
        Leaf::Node(node) => match field {
            Field::One(family) => write_node(sink, modules, node, *family),
            _ => {}
        },
        Leaf::Nodes(nodes) => match field {
            Field::Each(family) => write_nodes(sink, modules, nodes, *family),
            _ => {}
        },
        Leaf::Inline(_, _) => {}
        Leaf::Bundle(_, _) => {}
        Leaf::CaseId(_) => {}
        Leaf::Results(ids) => write_results(sink, ids.len(), field),
        Leaf::Core(number) => write_module(sink, modules, *number, field),
        Leaf::Scope(scope) => write_scope(sink, modules, scope, field),
    }
}

/// Writes a leaf in another one.
#[inline(never)]
#[cycle(writing)]
fn write_inner<S: Sink, M: CoreBytes>(
    sink: &mut S,
    modules: &[M],
    leaf: &Leaf<'_, '_>,
    field: &Field,
)
    ensures { Asked (field_of field.now) (FitsLeaf (wire_leaf (map M.core_module modules.now) leaf.now) (field_of field.now)) → S.kept sink.new ≡ put (spell_leaf (wire_leaf (map M.core_module modules.now) leaf.now) (field_of field.now)) (S.kept sink.old) }
{
    write_leaf(sink, modules, leaf, field);
}

/// Writes a value type.
#[inline(always)]
#[cycle(writing)]
fn write_value<S: Sink, M: CoreBytes>(sink: &mut S, modules: &[M], leaf: &Leaf<'_, '_>)
    ensures { FitsLeaf (wire_leaf (map M.core_module modules.now) leaf.now) t.value → S.kept sink.new ≡ put (spell_leaf (wire_leaf (map M.core_module modules.now) leaf.now) t.value) (S.kept sink.old) }
{
    match leaf {
        Leaf::Number(number) => write_number(sink, *number, &Field::Value),
        Leaf::Numeral(space, number, _) => write_index(sink, *space, *number, &Field::Value),
        _ => write_inner(sink, modules, leaf, &Field::Value),
    }
}

/// Writes what an optional part holds.
#[inline(always)]
#[cycle(writing)]
fn write_part<S: Sink, M: CoreBytes>(sink: &mut S, modules: &[M], leaf: &Leaf<'_, '_>, part: Part)
    ensures { FitsLeaf (wire_leaf (map M.core_module modules.now) leaf.now) (part_of part) → S.kept sink.new ≡ put (spell_leaf (wire_leaf (map M.core_module modules.now) leaf.now) (part_of part)) (S.kept sink.old) }
{
    match part {
        Part::Value => write_value(sink, modules, leaf),
        _ => write_inner(sink, modules, leaf, &part_field(part)),
    }
}

/// Writes a part that is there.
#[inline(always)]
#[cycle(writing)]
#[tactic(auto, using(crate::proofs::Puts::put_put, crate::proofs::Puts::put_none))]
fn write_present<S: Sink, M: CoreBytes>(
    sink: &mut S,
    modules: &[M],
    inner: &Leaf<'_, '_>,
    field: &Field,
)
    ensures { Asked (field_of field.now) (FitsLeaf (present (wire_leaf (map M.core_module modules.now) inner.now)) (field_of field.now)) → S.kept sink.new ≡ put (spell_leaf (present (wire_leaf (map M.core_module modules.now) inner.now)) (field_of field.now)) (S.kept sink.old) }
{
    match field {
        Field::Optional(part) => {
            write_part(sink, modules, inner, *part);
            sink.byte(0x01);
        }
        Field::Result(part) => {
            write_part(sink, modules, inner, *part);
            sink.byte(0x00);
        }
        Field::Presence => sink.byte(0x01),
        Field::Maximum => write_inner(sink, modules, inner, &Field::Unsigned),
        _ => {}
    }
}

/// Writes the leaf at a place.
#[inline(always)]
#[cycle(writing)]
fn write_at<S: Sink, M: CoreBytes>(
    sink: &mut S,
    modules: &[M],
    leaves: &[Leaf<'_, '_>],
    at: usize,
    field: &Field,
)
    ensures { Asked (field_of field.now) (fits_at at (field_of field.now) (fits_leaves (wire_leaves (map M.core_module modules.now) leaves.now))) → S.kept sink.new ≡ put (spelled_at at (field_of field.now) (spell_leaves (wire_leaves (map M.core_module modules.now) leaves.now))) (S.kept sink.old) }
{
    if at < leaves.len() {
        write_leaf(sink, modules, &leaves[at], field);
    }
}

/// Writes limits, whose leaves stand at this place and behind it.
#[inline(never)]
#[cycle(writing)]
fn write_limits<S: Sink, M: CoreBytes>(sink: &mut S, modules: &[M], leaves: &[Leaf<'_, '_>], at: u8)
    ensures { S.kept sink.new ≡ put (limits_bytes at (spell_leaves (wire_leaves (map M.core_module modules.now) leaves.now))) (S.kept sink.old) }
{
    let least = at as usize;
    write_at(sink, modules, leaves, least + 1, &Field::Maximum);
    write_at(sink, modules, leaves, least, &Field::Unsigned);
    write_at(sink, modules, leaves, least + 1, &Field::Presence);
}

/// Writes a reference outward, whose leaves stand at this place and behind it.
#[inline(never)]
#[cycle(writing)]
fn write_outer<S: Sink, M: CoreBytes>(sink: &mut S, modules: &[M], leaves: &[Leaf<'_, '_>], at: u8)
    ensures { S.kept sink.new ≡ put (outer_bytes at (spell_leaves (wire_leaves (map M.core_module modules.now) leaves.now))) (S.kept sink.old) }
{
    let place = at as usize;
    write_at(sink, modules, leaves, place + 1, &Field::AnyIndex);
    write_at(sink, modules, leaves, place, &Field::Outward);
    sink.byte(0x02);
    write_at(sink, modules, leaves, place + 2, &Field::Sort);
}

/// Writes a piece.
#[inline(always)]
#[cycle(writing)]
fn write_piece<S: Sink, M: CoreBytes>(
    sink: &mut S,
    modules: &[M],
    piece: &Piece,
    leaves: &[Leaf<'_, '_>],
)
    ensures { PieceFits (piece_of piece.now) (fits_leaves (wire_leaves (map M.core_module modules.now) leaves.now)) → S.kept sink.new ≡ put (piece_bytes (piece_of piece.now) (spell_leaves (wire_leaves (map M.core_module modules.now) leaves.now))) (S.kept sink.old) }
{
    match piece {
        Piece::Byte(byte) => sink.byte(*byte),
        Piece::Leaf(at, field) => write_at(sink, modules, leaves, *at as usize, field),
        Piece::Limits(at) => write_limits(sink, modules, leaves, *at),
        Piece::Outer(at) => write_outer(sink, modules, leaves, *at),
    }
}

/// Writes pieces.
#[inline(always)]
#[cycle(writing)]
fn write_pieces<S: Sink, M: CoreBytes>(
    sink: &mut S,
    modules: &[M],
    pieces: &[Piece],
    leaves: &[Leaf<'_, '_>],
)
    ensures { FitsPieces (map piece_of pieces.now) (fits_leaves (wire_leaves (map M.core_module modules.now) leaves.now)) → S.kept sink.new ≡ put (assemble (map piece_of pieces.now) (spell_leaves (wire_leaves (map M.core_module modules.now) leaves.now))) (S.kept sink.old) }
{
    for i in (0..pieces.len()).rev() {
        write_piece(sink, modules, &pieces[i], leaves);
    }
}

/// Writes the byte in front.
#[inline(always)]
#[tactic(auto, using(crate::proofs::Puts::put_none))]
fn write_lead<S: Sink>(sink: &mut S, lead: Option<u8>)
    ensures { (gs : List (t.Field → List ℕ)) → S.kept sink.new ≡ put (assemble (lead_of lead) gs) (S.kept sink.old) }
{
    match lead {
        Some(byte) => sink.byte(byte),
        None => {}
    }
}

/// Writes a name with a type: a parameter, or a field of a record.
#[inline(always)]
#[cycle(writing)]
fn write_named_type<S: Sink, M: CoreBytes>(sink: &mut S, modules: &[M], leaves: &[Leaf<'_, '_>])
    ensures { FitsPieces (home_pieces rows.NamedType) (fits_leaves (wire_leaves (map M.core_module modules.now) leaves.now)) → S.kept sink.new ≡ put (assemble (home_pieces rows.NamedType) (spell_leaves (wire_leaves (map M.core_module modules.now) leaves.now))) (S.kept sink.old) }
{
    write_at(sink, modules, leaves, 1, &Field::Value);
    write_at(sink, modules, leaves, 0, &Field::Str);
}

/// Writes a function type, but for the byte in front of a declaration.
#[inline(always)]
#[cycle(writing)]
fn write_function_type<S: Sink, M: CoreBytes>(sink: &mut S, modules: &[M], leaves: &[Leaf<'_, '_>])
    ensures { FitsPieces (home_pieces rows.FunctionType) (fits_leaves (wire_leaves (map M.core_module modules.now) leaves.now)) → S.kept sink.new ≡ put (assemble (home_pieces rows.FunctionType) (spell_leaves (wire_leaves (map M.core_module modules.now) leaves.now))) (S.kept sink.old) }
{
    write_at(sink, modules, leaves, 2, &Field::Result(Part::Value));
    write_at(sink, modules, leaves, 1, &Field::Each(Family::NamedTypes));
    write_at(sink, modules, leaves, 0, &Field::AsyncByte);
}

/// Writes an export in a type.
#[inline(always)]
#[cycle(writing)]
fn write_export_type<S: Sink, M: CoreBytes>(sink: &mut S, modules: &[M], leaves: &[Leaf<'_, '_>])
    ensures { FitsPieces (home_pieces rows.ExportType) (fits_leaves (wire_leaves (map M.core_module modules.now) leaves.now)) → S.kept sink.new ≡ put (assemble (home_pieces rows.ExportType) (spell_leaves (wire_leaves (map M.core_module modules.now) leaves.now))) (S.kept sink.old) }
{
    write_at(sink, modules, leaves, 1, &Field::One(Family::Descriptions));
    write_at(sink, modules, leaves, 0, &Field::ExternName);
    sink.byte(0x04);
}

/// Writes that an import or export is a function.
#[inline(always)]
#[cycle(writing)]
fn write_func_description<S: Sink, M: CoreBytes>(
    sink: &mut S,
    modules: &[M],
    leaves: &[Leaf<'_, '_>],
)
    ensures { FitsPieces (home_pieces rows.FuncDescription) (fits_leaves (wire_leaves (map M.core_module modules.now) leaves.now)) → S.kept sink.new ≡ put (assemble (home_pieces rows.FuncDescription) (spell_leaves (wire_leaves (map M.core_module modules.now) leaves.now))) (S.kept sink.old) }
{
    write_at(sink, modules, leaves, 0, &Field::IndexIn(Space::Ty));
    sink.byte(0x01);
}

/// The byte in front of a type, where it is a declaration.
fn type_lead(family: Family) -> Option<u8>
    ensures { result ≡ type_lead (family_of family) }
{
    match family {
        Family::ComponentDeclarations => Some(0x01),
        Family::InstanceDeclarations => Some(0x01),
        _ => None,
    }
}

/// Writes a node by its line in the table.
#[inline(never)]
#[cycle(writing)]
fn write_line<S: Sink, M: CoreBytes>(
    sink: &mut S,
    modules: &[M],
    node: &Node<'_, '_>,
    family: Family,
)
    ensures { FitsNode (wire_node (map M.core_module modules.now) node.now) (family_of family) → S.kept sink.new ≡ put (spell_node (wire_node (map M.core_module modules.now) node.now) (family_of family)) (S.kept sink.old) }
{
    let placed = pieces_in(node.row, family);
    write_pieces(sink, modules, placed.pieces, node.leaves);
    write_lead(sink, placed.lead);
}

/// Writes a node, as a row of the family. The lines of the rows that interfaces hold most are written out here, so that they aren't
/// looked up.
#[inline(always)]
#[cycle(writing)]
fn write_row<S: Sink, M: CoreBytes>(
    sink: &mut S,
    modules: &[M],
    node: &Node<'_, '_>,
    family: Family,
)
    ensures { FitsNode (wire_node (map M.core_module modules.now) node.now) (family_of family) → S.kept sink.new ≡ put (spell_node (wire_node (map M.core_module modules.now) node.now) (family_of family)) (S.kept sink.old) }
{
    match node.row {
        Row::NamedType => write_named_type(sink, modules, node.leaves),
        Row::FunctionType => {
            write_function_type(sink, modules, node.leaves);
            write_lead(sink, type_lead(family));
        }
        Row::ExportType => write_export_type(sink, modules, node.leaves),
        Row::FuncDescription => write_func_description(sink, modules, node.leaves),
        _ => write_line(sink, modules, node, family),
    }
}

/// Writes a node, as a row of the family.
#[cycle(writing)]
pub fn write_node<S: Sink, M: CoreBytes>(
    sink: &mut S,
    modules: &[M],
    node: &Node<'_, '_>,
    family: Family,
)
    ensures { FitsNode (wire_node (map M.core_module modules.now) node.now) (family_of family) → S.kept sink.new ≡ put (spell_node (wire_node (map M.core_module modules.now) node.now) (family_of family)) (S.kept sink.old) }
{
    write_row(sink, modules, node, family);
}

/// Writes a count and so many nodes.
#[inline(never)]
#[cycle(writing)]
fn write_nodes<S: Sink, M: CoreBytes>(
    sink: &mut S,
    modules: &[M],
    nodes: &[Node<'_, '_>],
    family: Family,
)
    ensures { FitsLeaf (nodes_leaf (wire_nodes (map M.core_module modules.now) nodes.now)) (each (family_of family)) → S.kept sink.new ≡ put (spell_leaf (nodes_leaf (wire_nodes (map M.core_module modules.now) nodes.now)) (each (family_of family))) (S.kept sink.old) }
{
    for i in (0..nodes.len()).rev() {
        write_row(sink, modules, &nodes[i], family);
    }
    write_unsigned(sink, nodes.len() as u64);
}

/// The declarations of a type.
pub fn declarations_in(kind: TypeKind) -> Family
    ensures { family_of result ≡ declarations_of (type_kind kind) }
{
    match kind {
        TypeKind::Component => Family::ComponentDeclarations,
        TypeKind::Instance => Family::InstanceDeclarations,
        TypeKind::Module => Family::ModuleDeclarations,
    }
}

/// Writes a scope: the declarations of a type.
#[inline(never)]
#[cycle(writing)]
#[tactic(auto, using(crate::proofs::Puts::put_none))]
fn write_scope<S: Sink, M: CoreBytes>(
    sink: &mut S,
    modules: &[M],
    scope: &Scope<'_, '_>,
    field: &Field,
)
    ensures { Asked (field_of field.now) (FitsLeaf (scope_leaf (wire_scope (map M.core_module modules.now) scope.now)) (field_of field.now)) → S.kept sink.new ≡ put (spell_leaf (scope_leaf (wire_scope (map M.core_module modules.now) scope.now)) (field_of field.now)) (S.kept sink.old) }
{
    match field {
        Field::TypeScope(kind) => write_type_scope(sink, modules, scope, *kind),
        _ => {}
    }
}

/// Writes a count and the declarations of a type.
#[cycle(writing)]
fn write_type_scope<S: Sink, M: CoreBytes>(
    sink: &mut S,
    modules: &[M],
    scope: &Scope<'_, '_>,
    kind: TypeKind,
)
    ensures { FitsTypeScope (wire_scope (map M.core_module modules.now) scope.now) (type_kind kind) → S.kept sink.new ≡ put (spell_type_scope (wire_scope (map M.core_module modules.now) scope.now) (type_kind kind)) (S.kept sink.old) }
{
    write_declarations(sink, modules, scope.defs, kind);
    write_unsigned(sink, scope.defs.len() as u64);
}

/// Writes the declarations of a type.
#[cycle(writing)]
fn write_declarations<S: Sink, M: CoreBytes>(
    sink: &mut S,
    modules: &[M],
    defs: &[Def<'_, '_>],
    kind: TypeKind,
)
    ensures { DeclarationsFit (map M.core_module modules.now) defs.now (declarations_of (type_kind kind)) → S.kept sink.new ≡ put (wire_declarations (map M.core_module modules.now) defs.now (declarations_of (type_kind kind))) (S.kept sink.old) }
{
    let family = declarations_in(kind);
    for i in (0..defs.len()).rev() {
        write_row(sink, modules, &defs[i].node, family);
    }
}
