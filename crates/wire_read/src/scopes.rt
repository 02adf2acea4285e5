//! Rows that may hold the scopes of types, and those scopes.

ghost use Rattle.std.specs.Prelude.{◌≡◌, Some, true};
ghost use Rattle.comp_wire.specs.Spelled.{declarations_of};
ghost use Rattle.byte_table.specs.Lines.{family_of, type_kind};
ghost use Rattle.wire_read.specs.Place.{rest};
ghost use Rattle.wire_read.specs.RowAt.{row_at};
ghost use Rattle.wire_read.specs.Nodes.{is_closed};
ghost use Rattle.wire_read.specs.Items.{type_row, type_byte, scope_lead, OutcomeScope, OutcomeItem, OutcomeItems};

use crate::arena::{place, place_all};
use crate::input::Input;
use crate::nodes::read_line;
use crate::numbers::read_unsigned;
use crate::rows::row_at;
use crate::stop::{Stop, stop_of};
use crate::values::{expect, read_lead};
use bumpalo::Bump;
use byte_table::{Family, TypeKind};
use comp_model::{Row, ScopeKind};
use std::alloc::Global;
use wire_tree::{Leaf, Node, Scope};

/// The declarations of a type.
fn declarations_in(kind: TypeKind) -> Family
    ensures { family_of result ≡ declarations_of (type_kind kind) }
{
    match kind {
        TypeKind::Component => Family::ComponentDeclarations,
        TypeKind::Instance => Family::InstanceDeclarations,
        TypeKind::Module => Family::ModuleDeclarations,
    }
}

/// The kind of the scope of a type.
fn scope_kind(kind: TypeKind) -> ScopeKind
    ensures { result ≡ type_kind kind }
{
    match kind {
        TypeKind::Component => ScopeKind::ComponentType,
        TypeKind::Instance => ScopeKind::InstanceType,
        TypeKind::Module => ScopeKind::ModuleType,
    }
}

/// The row of a type that holds a scope.
fn type_row(kind: TypeKind) -> Row
    ensures { result ≡ type_row (type_kind kind) }
{
    match kind {
        TypeKind::Component => Row::ComponentType,
        TypeKind::Instance => Row::InstanceType,
        TypeKind::Module => Row::ModuleType,
    }
}

/// The byte in front of the scope of a type.
fn type_byte(kind: TypeKind) -> u8
    ensures { result ≡ type_byte (type_kind kind) }
{
    match kind {
        TypeKind::Component => 0x41,
        TypeKind::Instance => 0x42,
        TypeKind::Module => 0x50,
    }
}

/// The byte in front of that, where the type is a declaration.
fn scope_lead(family: Family, kind: TypeKind) -> Option<u8>
    ensures { result ≡ scope_lead (family_of family) (type_kind kind) }
{
    match family {
        Family::ComponentDeclarations | Family::InstanceDeclarations => match kind {
            TypeKind::Module => Some(0x00),
            _ => Some(0x01),
        },
        Family::ModuleDeclarations => Some(0x01),
        _ => None,
    }
}

/// Takes a row of a family. `left` is how many scopes may stand in each other there.
#[cycle(scopes)]
fn read_item<'t, 'a>(
    alloc: Global,
    bump: &'t Bump,
    names: &mut Vec<Node<'t, 'a>>,
    input: &mut Input<'a>,
    family: Family,
    left: u32,
) -> Result<Node<'t, 'a>, Stop>
    ensures { is_closed (family_of family) ≡ true → OutcomeItem (family_of family) left input.old input.new result }
{
    match row_at(input, family) {
        None => Err(Stop::Misread),
        Some(row) => match row {
            Row::ComponentType => {
                read_type(alloc, bump, names, input, family, TypeKind::Component, left)
            }
            Row::InstanceType => {
                read_type(alloc, bump, names, input, family, TypeKind::Instance, left)
            }
            Row::ModuleType => {
                read_type(alloc, bump, names, input, family, TypeKind::Module, left)
            }
            _ => match read_line(alloc, bump, names, input, row, family) {
                Err(fault) => Err(stop_of(fault)),
                Ok(node) => Ok(node),
            },
        },
    }
}

/// Takes a type that holds a scope, as a row of the family.
#[cycle(scopes)]
fn read_type<'t, 'a>(
    alloc: Global,
    bump: &'t Bump,
    names: &mut Vec<Node<'t, 'a>>,
    input: &mut Input<'a>,
    family: Family,
    kind: TypeKind,
    left: u32,
) -> Result<Node<'t, 'a>, Stop>
    ensures { is_closed (family_of family) ≡ true → Some (type_row (type_kind kind)) ≡ row_at (family_of family) (rest input.old) → OutcomeItem (family_of family) left input.old input.new result }
{
    if !read_lead(input, scope_lead(family, kind)) {
        return Err(Stop::Misread);
    }
    if !expect(input, type_byte(kind)) {
        return Err(Stop::Misread);
    }
    match read_type_scope(alloc, bump, names, input, kind, left) {
        Err(stop) => Err(stop),
        Ok(scope) => match place_all(bump, &[scope]) {
            Err(_) => Err(Stop::Memory),
            Ok(leaves) => Ok(Node {
                row: type_row(kind),
                leaves,
            }),
        },
    }
}

/// Takes a count and the declarations of a type.
#[cycle(scopes)]
fn read_type_scope<'t, 'a>(
    alloc: Global,
    bump: &'t Bump,
    names: &mut Vec<Node<'t, 'a>>,
    input: &mut Input<'a>,
    kind: TypeKind,
    left: u32,
) -> Result<Leaf<'t, 'a>, Stop>
    ensures { OutcomeScope (type_kind kind) left input.old input.new result }
{
    if left == 0 {
        return Err(Stop::Deep(input.at()));
    }
    match read_unsigned(input) {
        None => Err(Stop::Misread),
        Some(count) => {
            match read_items(
                alloc,
                bump,
                names,
                input,
                declarations_in(kind),
                count,
                left - 1,
            ) {
                Err(stop) => Err(stop),
                Ok(defs) => {
                    let scope = Scope {
                        kind: scope_kind(kind),
                        defs,
                    };
                    match place(bump, scope) {
                        Err(_) => Err(Stop::Memory),
                        Ok(placed) => Ok(Leaf::Scope(placed)),
                    }
                }
            }
        }
    }
}

/// Takes so many rows of a family, into the arena. `left` is how many scopes may stand in each other there.
#[cycle(scopes)]
pub fn read_items<'t, 'a>(
    alloc: Global,
    bump: &'t Bump,
    names: &mut Vec<Node<'t, 'a>>,
    input: &mut Input<'a>,
    family: Family,
    count: u32,
    left: u32,
) -> Result<&'t [Node<'t, 'a>], Stop>
    ensures { is_closed (family_of family) ≡ true → OutcomeItems count (family_of family) left input.old input.new result }
{
    let mut rows = Vec::new(alloc);
    for _ in 0..count {
        match read_item(alloc, bump, names, input, family, left) {
            Err(stop) => return Err(stop),
            Ok(node) => match rows.push(node) {
                Err(_) => return Err(Stop::Memory),
                Ok(()) => {}
            },
        }
    }
    match place_all(bump, rows.as_slice()) {
        Err(_) => Err(Stop::Memory),
        Ok(placed) => Ok(placed),
    }
}
