//! Small trees and deep ones, made by hand.

ghost use Rattle.std.specs.Prelude.{◌≡◌, IfOk, List, []};
ghost use Rattle.comp_model.specs.CoreModules.{CoreModule};
ghost use Rattle.comp_tree.specs.Marks.{marks_of, marks_listed};
ghost use Rattle.comp_tree.specs.OriginMarks.{FewPlaces, recorded};

use bumpalo::Bump;
use comp_model::{Row, ScopeKind, Space};
use comp_tree::{
    CoreValue, Def, Leaf, Names, Node, Scope, declared_spaces, no_exports, no_names, outward,
    place, place_all, reference,
};
use comp_walks::{CoreSource, Uncovered};
use comp_wire::{Origin, ScopeOrigins};
use std::alloc::{AllocError, Global};
use std::test::Fail;
use tree_walks::{
    count_references, first_form, is_expanded, is_resolved, scope_origins, weight_of,
};
use wast_parser::{FormKind, Id, Index, Span};

/// How many checked items may stand in each other.
const CHECKED_ITEMS: u32 = 100;

/// A core module without fields.
#[derive(Drop)]
struct Empty;

impl CoreSource for Empty {
    ghost use Rattle.std.specs.Prelude.{[], None};

    ghost core_module = { λ e. record { naming = record { id = None; label = None }; fields = [] } };

    fn weight(&self) -> u64 {
        0
    }

    fn first_uncovered(&self) -> Option<Uncovered> {
        None
    }
}

/// A place in a text.
fn at(offset: u32) -> Span {
    Span::from_offset(offset)
}

/// A reference to a type by its number.
fn type_at<'a>(number: u32) -> Leaf<'a, 'a> {
    Leaf::Numeral(Space::Ty, number, at(0))
}

/// A definition of a row at a place, without names.
fn plain<'a>(offset: u32, row: Row, leaves: &'a [Leaf<'a, 'a>]) -> Def<'a, 'a>
    ensures leaves { result.node.leaves.now ≡ leaves.entry.now }
    ensures places { result.places.now ≡ [] }
{
    Def {
        origin: Origin::Written(0),
        places: &[],
        span: at(offset),
        names: no_names(),
        node: Node {
            row,
            span: at(offset),
            leaves,
        },
    }
}

/// A scope without a name.
fn scope_of<'a>(kind: ScopeKind, defs: &'a [Def<'a, 'a>]) -> Scope<'a, 'a> {
    Scope {
        kind,
        id: None,
        label: None,
        defs,
    }
}

/// Leaves in the arena.
fn leaves<'a>(bump: &'a Bump, leaves: &[Leaf<'a, 'a>]) -> Result<&'a [Leaf<'a, 'a>], AllocError> {
    place_all(bump, leaves)
}

/// A node of a row.
fn node<'a>(bump: &'a Bump, row: Row, leaves: &[Leaf<'a, 'a>]) -> Result<Node<'a, 'a>, AllocError> {
    let leaves = place_all(bump, leaves)?;
    Ok(Node {
        row,
        span: at(0),
        leaves,
    })
}

/// A type in the place of a reference.
fn inline<'a>(
    bump: &'a Bump,
    row: Row,
    leaves: &[Leaf<'a, 'a>],
) -> Result<Leaf<'a, 'a>, AllocError> {
    let node = node(bump, row, leaves)?;
    Ok(Leaf::Inline(Space::Ty, place(bump, node)?))
}

/// A list of one entry.
fn list<'a>(bump: &'a Bump, row: Row, leaves: &[Leaf<'a, 'a>]) -> Result<Leaf<'a, 'a>, AllocError> {
    let node = node(bump, row, leaves)?;
    Ok(Leaf::Nodes(place_all(bump, &[node])?))
}

/// A description that may be missing.
fn described<'a>(bump: &'a Bump, leaf: Leaf<'a, 'a>) -> Result<Leaf<'a, 'a>, AllocError> {
    let node = node(bump, Row::FuncDescription, &[leaf])?;
    let node = place(bump, node)?;
    Ok(Leaf::Present(place(bump, Leaf::Node(node))?))
}

/// An id at 12, and a label.
fn named<'a>(bump: &'a Bump, id: &'a str, label: &'a str) -> Result<&'a Names<'a, 'a>, AllocError> {
    let ids = place_all(bump, &[Some(Id::new(id, at(12)))])?;
    let labels = place_all(bump, &[Some(label)])?;
    place(
        bump,
        Names {
            ids,
            labels,
            exports: no_exports(),
        },
    )
}

/// `(type $xyz (record (field "ab" 3) (field "c" TYPE)))` at 10.
fn record<'a>(bump: &'a Bump, ty: Leaf<'a, 'a>) -> Result<Def<'a, 'a>, AllocError> {
    let first = node(bump, Row::NamedType, &[Leaf::Text("ab"), type_at(3)])?;
    let second = node(bump, Row::NamedType, &[Leaf::Text("c"), ty])?;
    let fields = place_all(bump, &[first, second])?;
    let node = node(bump, Row::RecordType, &[Leaf::Nodes(fields)])?;
    let names = named(bump, "xyz", "label")?;
    Ok(Def {
        origin: Origin::Written(0),
        places: &[],
        span: at(10),
        names,
        node,
    })
}

/// One more checked item around a leaf, as many leaves above it as a text can have between two: the description that an export is
/// ascribed, a function in its place, its parameters, the type of one in parentheses.
fn one_more<'a>(bump: &'a Bump, leaf: Leaf<'a, 'a>) -> Result<Leaf<'a, 'a>, AllocError> {
    let ty = inline(bump, Row::ListType, &[leaf])?;
    let parameters = list(bump, Row::NamedType, &[Leaf::Text("p"), ty])?;
    let function = inline(
        bump,
        Row::FunctionType,
        &[Leaf::Number(0), parameters, Leaf::Absent],
    )?;
    described(bump, function)
}

/// The leaves of a definition that holds so many checked items in each other, and a `map` in the innermost.
fn deepest<'a>(bump: &'a Bump, items: u32) -> Result<&'a [Leaf<'a, 'a>], AllocError> {
    let mut leaf = inline(bump, Row::MapType, &[type_at(0), type_at(1)])?;
    for _ in 0..items {
        leaf = one_more(bump, leaf)?;
    }
    place_all(bump, &[leaf])
}

/// A component of these definitions.
fn component<'a>(defs: &'a [Def<'a, 'a>]) -> Scope<'a, 'a>
    ensures { (C : List CoreModule) → marks_of C result ≡ marks_listed C defs.entry.now }
{
    Scope {
        kind: ScopeKind::Component,
        id: None,
        label: None,
        defs,
    }
}

/// A component that holds a scope alone.
fn around<'a>(bump: &'a Bump, scope: Scope<'a, 'a>) -> Result<Scope<'a, 'a>, AllocError>
    ensures { (C : List CoreModule) → FewPlaces (recorded (marks_of C scope.entry)) → IfOk result (λ r. FewPlaces (recorded (marks_of C r))) }
{
    let scope = place(bump, scope)?;
    let leaves = place_all(bump, &[Leaf::Scope(scope)])?;
    let defs = place_all(bump, &[plain(1, Row::Component, leaves)])?;
    Ok(component(defs))
}

/// So many components in each other.
fn components<'a>(bump: &'a Bump, count: u32) -> Result<Scope<'a, 'a>, AllocError>
    ensures { (C : List CoreModule) → IfOk result (λ r. FewPlaces (recorded (marks_of C r))) }
{
    let mut scope = component(&[]);
    for _ in 0..count {
        scope = around(bump, scope)?;
    }
    Ok(scope)
}

/// How many scopes stand in each other, each with one mark, that of its first definition.
fn depth_of(origins: &ScopeOrigins) -> u32 {
    let mut origins = origins;
    for depth in 0..1000 {
        match origins.items.as_slice() {
            [item] => {
                if item.origin != Origin::Written(0) {
                    return depth;
                }
                match &item.inner {
                    Some(inner) => origins = inner,
                    None => return depth,
                }
            }
            _ => return depth,
        }
    }
    1000
}

/// `(component $main (@name "whole") .. (core module))` with the record above, the type of whose second field is a name.
fn main_scope<'a>(bump: &'a Bump) -> Result<Scope<'a, 'a>, AllocError> {
    let id = Index::Id(Id::new("t", at(30)));
    let name = reference(bump, Space::Ty, outward(), id)?;
    let record = record(bump, name)?;
    let module = leaves(bump, &[Leaf::Core(0)])?;
    let defs = place_all(bump, &[record, plain(40, Row::CoreModule, module)])?;
    Ok(Scope {
        kind: ScopeKind::Component,
        id: Some(Id::new("main", at(0))),
        label: Some("whole"),
        defs,
    })
}

/// A definition of a row at 1 that holds an instance type: a resource type of another representation at 5, and a `map` at 7.
fn holder<'a>(bump: &'a Bump, row: Row) -> Result<Scope<'a, 'a>, AllocError> {
    let other = leaves(bump, &[Leaf::CoreValue(CoreValue::Other), Leaf::Absent])?;
    let map = leaves(bump, &[type_at(0), type_at(1)])?;
    let inner = place_all(
        bump,
        &[
            plain(5, Row::ResourceType, other),
            plain(7, Row::MapType, map),
        ],
    )?;
    let inner = place(bump, scope_of(ScopeKind::InstanceType, inner))?;
    let leaves = place_all(bump, &[Leaf::Scope(inner)])?;
    let defs = place_all(bump, &[plain(1, row, leaves)])?;
    Ok(scope_of(ScopeKind::Component, defs))
}

/// A node with a text.
fn with_text<'t, 'a>(bump: &'t Bump, text: &'a str) -> Result<Node<'t, 'a>, AllocError> {
    match place_all(bump, &[Leaf::Text(text)]) {
        Ok(leaves) => Ok(Node {
            row: Row::LoneName,
            span: at(0),
            leaves,
        }),
        Err(error) => Err(error),
    }
}

/// The text of a node in an arena that is given up: it is the caller's.
fn read_back<'a>(alloc: Global, text: &'a str) -> Result<Option<&'a str>, AllocError> {
    let bump = Bump::new(alloc);
    let node = with_text(&bump, text)?;
    match node.leaves.first() {
        Some(leaf) => Ok(leaf.as_text()),
        None => Ok(None),
    }
}

#[test]
fn texts_outlive_their_tree(rt: HostRuntime) -> Result<(), Fail> {
    match read_back(rt.alloc(), "ab")? {
        Some(text) => assert_eq!(rt; text, "ab"),
        None => assert!(rt; false),
    }
    Ok(())
}

#[test]
fn weighed(rt: HostRuntime) -> Result<(), Fail> {
    let bump = Bump::new(rt.alloc());
    let scope = main_scope(&bump)?;
    // A list; of each field its node, a text and a reference.
    let leaves = 32 + (32 + 32 + 2 + 32) + (32 + 32 + 1 + 32);
    // The scope with its id and label, a definition with its id and label, and one with a core module.
    let weight = 32 + 4 + 5 + (32 + 3 + 5 + 32 + leaves) + (32 + 32 + 32);
    assert_eq!(rt; weight_of(&[Empty], &scope), weight);
    Ok(())
}

#[test]
fn shapes(rt: HostRuntime) -> Result<(), Fail> {
    let bump = Bump::new(rt.alloc());
    let scope = main_scope(&bump)?;
    assert!(rt; is_expanded(&[Empty], &scope));
    // The second field has a name for its type.
    assert!(rt; !is_resolved(&[Empty], &scope));
    assert!(rt; first_form(&[Empty], &scope).is_none());
    let references = match scope.defs.first() {
        Some(def) => count_references(&[Empty], &def.node),
        None => 0,
    };
    assert_eq!(rt; references, 2);
    Ok(())
}

#[test]
fn held_forms(rt: HostRuntime) -> Result<(), Fail> {
    let bump = Bump::new(rt.alloc());
    // What stands in a definition of its own is held there.
    let scope = holder(&bump, Row::InstanceType)?;
    let found = Uncovered {
        form: FormKind::U6,
        offset: 5,
    };
    assert!(rt; first_form(&[Empty], &scope) == Some(found));
    // A definition stands before what it holds.
    let scope = holder(&bump, Row::ThreadYield)?;
    let found = Uncovered {
        form: FormKind::U5,
        offset: 1,
    };
    assert!(rt; first_form(&[Empty], &scope) == Some(found));
    Ok(())
}

#[test]
fn deepest_types(rt: HostRuntime) -> Result<(), Fail> {
    let bump = Bump::new(rt.alloc());
    let leaves = deepest(&bump, CHECKED_ITEMS)?;
    let def = plain(7, Row::Export, leaves);
    let scope = scope_of(ScopeKind::Component, place_all(&bump, &[def])?);
    // Each item: an optional node of one leaf, a function in its place of three, one of which has one entry of two, a list in its place.
    let item = 32 + 32 + (32 + 32 + (32 + (32 + (32 + 32 + 1 + (32 + 32))) + 32));
    let weight = 32 + 32 + 32 + 100 * item + (32 + 32 + 32 + 32);
    assert_eq!(rt; weight_of(&[Empty], &scope), weight);
    // Two of each item; the innermost, and the two that are in it.
    assert_eq!(rt; count_references(&[Empty], &def.node), 2 * 100 + 3);
    let found = Uncovered {
        form: FormKind::U2,
        offset: 7,
    };
    assert!(rt; first_form(&[Empty], &scope) == Some(found));
    assert!(rt; !is_expanded(&[Empty], &scope));
    assert!(rt; !is_resolved(&[Empty], &scope));
    Ok(())
}

#[test]
fn deepest_components(rt: HostRuntime) -> Result<(), Fail> {
    let bump = Bump::new(rt.alloc());
    let scope = components(&bump, CHECKED_ITEMS)?;
    // The innermost scope; of each other one itself, its definition, the node of that and the leaf.
    assert_eq!(rt; weight_of(&[Empty], &scope), 32 + 100 * (32 + 32 + 32 + 32));
    assert!(rt; is_expanded(&[Empty], &scope));
    assert!(rt; is_resolved(&[Empty], &scope));
    assert!(rt; first_form(&[Empty], &scope).is_none());
    Ok(())
}

#[test]
fn deepest_marks(rt: HostRuntime) -> Result<(), Fail> {
    let bump = Bump::new(rt.alloc());
    let scope = components(&bump, CHECKED_ITEMS)?;
    let origins = scope_origins(rt.alloc(), &[Empty], &scope)?;
    assert_eq!(rt; depth_of(&origins), 100);
    Ok(())
}

#[test]
fn declared(rt: HostRuntime) -> Result<(), Fail> {
    let leaves = [Leaf::Results(&[None, None])];
    let spaces = declared_spaces(rt.alloc(), Row::Start, &leaves)?;
    assert_eq!(rt; spaces.as_slice(), [Space::Value, Space::Value].as_slice());
    let spaces = declared_spaces(rt.alloc(), Row::RecordType, &[])?;
    assert_eq!(rt; spaces.as_slice(), [Space::Ty].as_slice());
    Ok(())
}
