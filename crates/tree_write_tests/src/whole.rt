//! Whole components.

use comp_model::{Row, ScopeKind};
use comp_tree::{Def, Leaf, Node, Scope, no_names};
use comp_wire::{NoMemory, Origin};
use std::alloc::Global;
use std::test::Fail;
use tree_write::{CoreBytes, component_bytes, encode_scope};
use wast_parser::{Error, Span};

/// A core module without fields.
#[derive(Drop)]
pub struct NoFields;

impl CoreBytes for NoFields {
    ghost use Rattle.std.specs.Prelude.{[], None};

    ghost core_module = { λ e. record { naming = record { id = None; label = None }; fields = [] } };

    fn bytes(&self) -> &[u8] {
        &[0x00, 0x61, 0x73, 0x6d, 0x01, 0x00, 0x00, 0x00]
    }
}

/// The bytes of a component without definitions.
fn without_definitions(alloc: Global) -> Result<Vec<u8>, Error> {
    let whole = Scope {
        kind: ScopeKind::Component,
        id: None,
        label: None,
        defs: &[],
    };
    encode_scope(alloc, &[NoFields], &whole)
}

#[test]
fn the_empty_component(rt: HostRuntime) -> Result<(), Fail> {
    let bytes = without_definitions(rt.alloc())?;
    assert!(rt; bytes.as_slice() == b"\x00asm\x0d\x00\x01\x00".as_slice());
    Ok(())
}

/// A definition without names.
pub fn def<'a>(row: Row, leaves: &'a [Leaf<'a, 'a>]) -> Def<'a, 'a> {
    Def {
        origin: Origin::Written(0),
        places: &[],
        span: Span::from_offset(1),
        names: no_names(),
        node: Node {
            row,
            span: Span::from_offset(1),
            leaves,
        },
    }
}

/// The leaves of two types and of a core module.
static LEAVES: [Leaf<'static, 'static>; 3] = [
    Leaf::Number(0x7d),
    Leaf::Number(0x7e),
    Leaf::Core(0),
];

/// The bytes of a component of two types and a core module.
fn types_and_a_module(alloc: Global) -> Result<Vec<u8>, NoMemory> {
    let defs = [
        def(Row::Primitive, &LEAVES[0..1]),
        def(Row::Primitive, &LEAVES[1..2]),
        def(Row::CoreModule, &LEAVES[2..3]),
    ];
    let whole = Scope {
        kind: ScopeKind::Component,
        id: None,
        label: None,
        defs: &defs,
    };
    component_bytes(alloc, &[NoFields], &whole)
}

#[test]
fn neighbours_share_a_section(rt: HostRuntime) -> Result<(), Fail> {
    let bytes = types_and_a_module(rt.alloc())?;
    let wanted = b"\x00asm\x0d\x00\x01\x00\x07\x03\x02\x7d\x7e\x01\x08\x00asm\x01\x00\x00\x00";
    assert!(rt; bytes.as_slice() == wanted.as_slice());
    Ok(())
}
