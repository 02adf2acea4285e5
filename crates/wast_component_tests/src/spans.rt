//! Where nodes of a tree stand in the text.

use bumpalo::Bump;
use comp_tree::{Leaf, Scope};
use std::alloc::Global;
use std::test::Fail;
use tree_expand::expand;
use tree_read::read_text;
use wast_parser::{Error, Gensym, ParseBuffer};

/// A text, the number of a definition in it, the offset of its node, the number of a leaf, and the offsets of the nodes in that.
type Row = (&'static str, usize, u32, usize, &'static [u32]);

/// As they are read.
const READ: [Row; 6] = [
    (
        "(component (type (record (field \"a\" u8) (field \"b\" u8))))",
        0,
        12,
        0,
        &[26, 41],
    ),
    (
        "(component (type (variant (case \"a\") (case \"b\" u8))))",
        0,
        12,
        0,
        &[27, 38],
    ),
    (
        "(component (type (tuple u8 (list u8))))",
        0,
        12,
        0,
        &[24, 28],
    ),
    (
        "(component (type (list (record (field \"a\" u8)))))",
        0,
        12,
        0,
        &[24],
    ),
    (
        "(component (import \"f\" (func (param \"x\" u8))))",
        0,
        12,
        1,
        &[24],
    ),
    (
        "(component (instance (instantiate 0 (with \"a\" (func 0)))))",
        0,
        12,
        1,
        &[37],
    ),
];

/// As they are expanded: a type in another becomes a definition in front of it.
const EXPANDED: [Row; 2] = [
    (
        "(component (type (record (field \"a\" (list u8)))))",
        0,
        37,
        0,
        &[],
    ),
    (
        "(component (type (record (field \"a\" (list u8)))))",
        1,
        12,
        0,
        &[26],
    ),
];

/// Whether the nodes in a leaf stand at these offsets.
fn nodes_stand(leaf: &Leaf<'_, '_>, wanted: &[u32]) -> bool {
    match leaf {
        Leaf::Node(node) => [node.span.offset].as_slice() == wanted,
        Leaf::Inline(_, node) => [node.span.offset].as_slice() == wanted,
        Leaf::Nodes(nodes) => {
            if nodes.len() != wanted.len() {
                return false;
            }
            for (i, node) in nodes.iter().enumerate() {
                if node.span.offset != wanted[i] {
                    return false;
                }
            }
            true
        }
        _ => wanted.is_empty(),
    }
}

/// Whether nodes of a scope stand as a row says.
fn scope_stands(scope: &Scope<'_, '_>, row: Row) -> bool {
    let (_, def, own, leaf, wanted) = row;
    if def >= scope.defs.len() {
        return false;
    }
    let node = &scope.defs[def].node;
    node.span.offset == own && leaf < node.leaves.len() && nodes_stand(&node.leaves[leaf], wanted)
}

/// The component of a text, as it is read or expanded.
fn component<'a>(
    alloc: Global,
    bump: &'a Bump,
    buffer: &'a ParseBuffer<'a>,
    expanded: bool,
) -> Result<Option<Scope<'a, 'a>>, Error> {
    let read = read_text(alloc, bump, buffer)?;
    if read.def.node.leaves.len() == 0 {
        return Ok(None);
    }
    let Some(scope) = read.def.node.leaves[0].as_scope() else {
        return Ok(None);
    };
    if !expanded {
        return Ok(Some(*scope));
    }
    let mut gensym = Gensym::new();
    Ok(Some(expand(alloc, bump, scope, &mut gensym)?))
}

/// Whether nodes of a component stand as a row says.
fn stands(alloc: Global, row: Row, expanded: bool) -> Result<bool, Error> {
    let arena = Bump::new(alloc);
    let buffer = ParseBuffer::new(alloc, row.0, &arena, false)?;
    match component(alloc, &arena, &buffer, expanded)? {
        Some(scope) => Ok(scope_stands(&scope, row)),
        None => Ok(false),
    }
}

#[test]
fn nodes_stand_at_their_first_words(rt: HostRuntime) -> Result<(), Fail> {
    for row in READ {
        assert!(rt; stands(rt.alloc(), row, false)?);
    }
    for row in EXPANDED {
        assert!(rt; stands(rt.alloc(), row, true)?);
    }
    Ok(())
}
