//! Whether components can be written.

use crate::whole::{NoFields, def};
use comp_model::{Row, ScopeKind};
use comp_tree::{Def, Leaf, Scope};
use comp_wire::NoMemory;
use std::alloc::Global;
use std::test::Fail;
use tree_write::can_be_written;

/// Whether a component of these definitions can be written.
fn of_definitions(defs: &[Def<'_, '_>]) -> bool {
    let whole = Scope {
        kind: ScopeKind::Component,
        id: None,
        label: None,
        defs,
    };
    can_be_written(&[NoFields], &whole)
}

/// Whether a component of one primitive type with this byte can be written.
fn of_primitive(byte: u32) -> bool {
    let leaves = [Leaf::Number(byte)];
    let defs = [def(Row::Primitive, &leaves)];
    of_definitions(&defs)
}

#[test]
fn bytes_of_primitive_types(rt: HostRuntime) -> Result<(), Fail> {
    assert!(rt; of_primitive(0x73));
    assert!(rt; !of_primitive(0x72));
    Ok(())
}

/// A piece of 65536 bytes, 65535 times, and another one behind.
fn many<'a>(alloc: Global, piece: &'a [u8], last: &'a [u8]) -> Result<Vec<&'a [u8]>, NoMemory> {
    let mut pieces = Vec::new(alloc);
    for _ in 0..65535 {
        match pieces.push(piece) {
            Ok(()) => {}
            Err(_) => return Err(NoMemory),
        }
    }
    match pieces.push(last) {
        Ok(()) => Ok(pieces),
        Err(_) => Err(NoMemory),
    }
}

/// Whether a component of one custom section can be written.
fn of_section<'a>(leaves: &'a [Leaf<'a, 'a>]) -> bool {
    let defs = [def(Row::Custom, leaves)];
    of_definitions(&defs)
}

/// The name of a section: none.
fn nameless<'a>() -> Leaf<'a, 'a> {
    Leaf::Text("")
}

/// What a section holds.
fn held<'a>(pieces: &'a [&'a [u8]]) -> Leaf<'a, 'a> {
    Leaf::Pieces(pieces)
}

/// Whether a component can be written that is one custom section without a name, of these bytes.
fn of_payload<'a>(pieces: &'a [&'a [u8]]) -> bool {
    let leaves = [nameless(), held(pieces)];
    of_section(&leaves)
}

#[test]
fn sections_are_shorter_than_4_gib(rt: HostRuntime) -> Result<(), Fail> {
    let zeros = vec![in rt.alloc(); 0u8; 65536]?;
    let most = many(rt.alloc(), zeros.as_slice(), &zeros.as_slice()[..65534])?;
    assert!(rt; of_payload(most.as_slice()));
    let more = many(rt.alloc(), zeros.as_slice(), &zeros.as_slice()[..65535])?;
    assert!(rt; !of_payload(more.as_slice()));
    Ok(())
}
