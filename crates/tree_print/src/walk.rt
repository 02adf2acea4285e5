//! The walk that prints a component: each row by its line in the table.

ghost use Rattle.std.specs.Prelude.{◌≡◌, map, OnOk};
ghost use Rattle.comp_model.specs.Model as m;
ghost use Rattle.wire_tree.specs.Lists.{listed, node_of, nodes_listed, defs_listed};
ghost use Rattle.wire_tree.specs.Model.{leaf_of, scope_of};
ghost use Rattle.print_table.specs.TextOf.{leaf_tokens, node_tokens, nodes_tokens, groups_tokens, definitions_tokens, in_group, printed_at, assemble, unnamed_leaf, unnamed_defs};
ghost use Rattle.tree_print.specs.Lines.{field_of, piece_of, line_pieces, head_of, tail_of};
ghost use Rattle.tree_print.specs.Printed.{piece_tokens, shown, definition_tokens};
ghost use Rattle.tree_print.specs.Taken.{taken, put};
ghost use Rattle.tree_print.specs.Words.{word_text};

use crate::definitions::definition_in;
use crate::inner::inner_line;
use crate::leaf::{
    put_core_value, put_index, put_kind, put_number, put_outward, put_results, put_text, put_word,
};
use crate::line::{Field, Frame, Line, Piece, part_field};
use crate::name_section::is_name_section;
use crate::printer::Printer;
use crate::token::Token;
use crate::word::Word;
use comp_model::ScopeKind;
use std::alloc::AllocError;
use wire_tree::{Leaf, Node, Scope};

/// Prints what stands in front of the pieces of a line.
fn put_head(printer: &mut Printer, frame: Frame) -> Result<(), AllocError>
    ensures { OnOk result (taken printer.new ≡ put (head_of frame) (taken printer.old)) }
{
    match frame {
        Frame::Bare => Ok(()),
        Frame::Group(word) => {
            printer.put(Token::Opening)?;
            put_word(printer, word)
        }
        Frame::Custom => printer.put(Token::Custom),
        Frame::TypeOf(word) => {
            printer.put(Token::Opening)?;
            put_word(printer, Word::Ty)?;
            printer.put(Token::Opening)?;
            put_word(printer, word)
        }
        Frame::BuiltIn(word) => {
            printer.put(Token::Opening)?;
            put_word(printer, Word::Canon)?;
            put_word(printer, word)
        }
    }
}

/// Prints what stands behind the pieces of a line.
fn put_tail(printer: &mut Printer, frame: Frame) -> Result<(), AllocError>
    ensures { OnOk result (taken printer.new ≡ put (tail_of frame) (taken printer.old)) }
{
    match frame {
        Frame::Bare => Ok(()),
        Frame::Group(_) => printer.put(Token::Closing),
        Frame::Custom => printer.put(Token::Closing),
        Frame::TypeOf(_) => {
            printer.put(Token::Closing)?;
            printer.put(Token::Closing)
        }
        Frame::BuiltIn(_) => {
            printer.put(Token::Opening)?;
            put_word(printer, Word::Core)?;
            put_word(printer, Word::Func)?;
            printer.put(Token::Closing)?;
            printer.put(Token::Closing)
        }
    }
}

/// Prints a leaf.
#[cycle(printing)]
fn put_leaf(printer: &mut Printer, leaf: &Leaf<'_, '_>, field: Field) -> Result<(), AllocError>
    ensures { OnOk result (taken printer.new ≡ put (leaf_tokens (unnamed_leaf (leaf_of leaf.now)) (field_of field)) (taken printer.old)) }
{
    match leaf {
        Leaf::Text(text) => put_text(printer, text, field),
        Leaf::Number(number) => put_number(printer, *number, field),
        Leaf::Kind(space) => put_kind(printer, *space, field),
        Leaf::CoreValue(value) => put_core_value(printer, *value, field),
        Leaf::Index(space, index) => put_index(printer, *space, *index, field),
        Leaf::Outward(count) => put_outward(printer, *count, field),
        Leaf::Absent => Ok(()),
        Leaf::Present(part) => put_present(printer, part, field),
        Leaf::Node(node) => put_one(printer, node, field),
        Leaf::Nodes(nodes) => put_list(printer, nodes, field),
        Leaf::NoId => Ok(()),
        Leaf::Results(count) => put_results(printer, *count, field),
        Leaf::Module(_) => Ok(()),
        Leaf::Scope(scope) => put_scope(printer, scope, field),
    }
}

/// Prints an optional part that is there.
#[cycle(printing)]
fn put_present(printer: &mut Printer, part: &Leaf<'_, '_>, field: Field) -> Result<(), AllocError>
    ensures { OnOk result (taken printer.new ≡ put (leaf_tokens (m.present (leaf_of part.now)) (field_of field)) (taken printer.old)) }
{
    match field {
        Field::Optional(kind) => put_leaf(printer, part, part_field(kind)),
        Field::OptionalIn(word, kind) => {
            printer.put(Token::Opening)?;
            put_word(printer, word)?;
            put_leaf(printer, part, part_field(kind))?;
            printer.put(Token::Closing)
        }
        _ => Ok(()),
    }
}

/// Prints a row that is a leaf.
#[cycle(printing)]
fn put_one(printer: &mut Printer, node: &Node<'_, '_>, field: Field) -> Result<(), AllocError>
    ensures { OnOk result (taken printer.new ≡ put (leaf_tokens (m.node (node_of node.now)) (field_of field)) (taken printer.old)) }
{
    match field {
        Field::One => put_node(printer, node),
        _ => Ok(()),
    }
}

/// Prints rows that are a leaf.
#[cycle(printing)]
fn put_list(printer: &mut Printer, nodes: &[Node<'_, '_>], field: Field) -> Result<(), AllocError>
    ensures { OnOk result (taken printer.new ≡ put (leaf_tokens (m.nodes (nodes_listed nodes.now)) (field_of field)) (taken printer.old)) }
{
    match field {
        Field::Each => put_nodes(printer, nodes),
        Field::EachIn(word) => put_groups(printer, word, nodes),
        _ => Ok(()),
    }
}

/// Prints a scope that is a leaf.
#[cycle(printing)]
fn put_scope(printer: &mut Printer, scope: &Scope<'_, '_>, field: Field) -> Result<(), AllocError>
    ensures { OnOk result (taken printer.new ≡ put (leaf_tokens (unnamed_leaf (m.scope (scope_of scope.now))) (field_of field)) (taken printer.old)) }
{
    match field {
        Field::Definitions => put_definitions(printer, scope.kind, scope.defs),
        _ => Ok(()),
    }
}

/// Prints the leaf at a place, if there is one.
#[cycle(printing)]
fn put_at(
    printer: &mut Printer,
    leaves: &[Leaf<'_, '_>],
    at: usize,
    field: Field,
) -> Result<(), AllocError>
    ensures { OnOk result (taken printer.new ≡ put (printed_at at (field_of field) (shown (listed leaves.now))) (taken printer.old)) }
{
    if at < leaves.len() {
        return put_leaf(printer, &leaves[at], field);
    }
    Ok(())
}

/// Prints a piece of a line.
#[cycle(printing)]
fn put_piece(printer: &mut Printer, piece: Piece, leaves: &[Leaf<'_, '_>]) -> Result<(), AllocError>
    ensures { OnOk result (taken printer.new ≡ put (piece_tokens (piece_of piece) (shown (listed leaves.now))) (taken printer.old)) }
{
    match piece {
        Piece::Open => printer.put(Token::Opening),
        Piece::Close => printer.put(Token::Closing),
        Piece::Word(word) => put_word(printer, word),
        Piece::Leaf(at, field) => put_at(printer, leaves, at as usize, field),
    }
}

/// Prints pieces of a line.
#[cycle(printing)]
fn put_pieces(
    printer: &mut Printer,
    pieces: &[Piece],
    leaves: &[Leaf<'_, '_>],
) -> Result<(), AllocError>
    ensures { OnOk result (taken printer.new ≡ put (assemble (map piece_of pieces.now) (shown (listed leaves.now))) (taken printer.old)) }
{
    for piece in pieces {
        put_piece(printer, *piece, leaves)?;
    }
    Ok(())
}

/// Prints a row by its line.
#[cycle(printing)]
fn put_line(printer: &mut Printer, line: Line, leaves: &[Leaf<'_, '_>]) -> Result<(), AllocError>
    ensures { OnOk result (taken printer.new ≡ put (assemble (line_pieces line) (shown (listed leaves.now))) (taken printer.old)) }
{
    put_head(printer, line.frame)?;
    put_pieces(printer, line.pieces, leaves)?;
    put_tail(printer, line.frame)
}

/// Prints a row that stands in another.
#[cycle(printing)]
fn put_node(printer: &mut Printer, node: &Node<'_, '_>) -> Result<(), AllocError>
    ensures { OnOk result (taken printer.new ≡ put (node_tokens (node_of node.now)) (taken printer.old)) }
{
    put_line(printer, inner_line(node.row), node.leaves)
}

/// Prints a row in parentheses, behind a word.
#[cycle(printing)]
fn put_group(printer: &mut Printer, word: Word, node: &Node<'_, '_>) -> Result<(), AllocError>
    ensures { OnOk result (taken printer.new ≡ put (in_group (word_text word) (node_tokens (node_of node.now))) (taken printer.old)) }
{
    printer.put(Token::Opening)?;
    put_word(printer, word)?;
    put_node(printer, node)?;
    printer.put(Token::Closing)
}

/// Prints rows that stand in another.
#[cycle(printing)]
fn put_nodes(printer: &mut Printer, nodes: &[Node<'_, '_>]) -> Result<(), AllocError>
    ensures { OnOk result (taken printer.new ≡ put (nodes_tokens (nodes_listed nodes.now)) (taken printer.old)) }
{
    for node in nodes {
        put_node(printer, node)?;
    }
    Ok(())
}

/// Prints rows, each in parentheses behind a word.
#[cycle(printing)]
fn put_groups(printer: &mut Printer, word: Word, nodes: &[Node<'_, '_>]) -> Result<(), AllocError>
    ensures { OnOk result (taken printer.new ≡ put (groups_tokens (word_text word) (nodes_listed nodes.now)) (taken printer.old)) }
{
    for node in nodes {
        put_group(printer, word, node)?;
    }
    Ok(())
}

/// Prints a definition; of a custom section of names nothing.
#[cycle(printing)]
fn put_definition(
    printer: &mut Printer,
    kind: ScopeKind,
    node: &Node<'_, '_>,
) -> Result<(), AllocError>
    ensures { OnOk result (taken printer.new ≡ put (definition_tokens kind node.now.row (listed node.now.leaves.now)) (taken printer.old)) }
{
    if is_name_section(node) {
        return Ok(());
    }
    put_line(printer, definition_in(kind, node.row), node.leaves)
}

/// Prints the definitions of a scope, its custom sections of names left out. It is refused where memory ran out.
#[cycle(printing)]
pub fn put_definitions(
    printer: &mut Printer,
    kind: ScopeKind,
    defs: &[Node<'_, '_>],
) -> Result<(), AllocError>
    ensures { OnOk result (taken printer.new ≡ put (definitions_tokens kind (unnamed_defs (defs_listed defs.now))) (taken printer.old)) }
{
    for node in defs {
        put_definition(printer, kind, node)?;
    }
    Ok(())
}
