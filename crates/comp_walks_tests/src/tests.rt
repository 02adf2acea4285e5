//! Small trees, made by hand: records whose fields are references, instance types that hold such definitions, a core module.

use comp_model::{Row, ScopeKind, Space};
use comp_walks::{
    CoreSource, Definition, Names, Node, Numbers, Part, Reach, Renumber, RenumberNode, Uncovered,
    Visitor, Walk, are_ids_of_text, count_references, first_uncovered, gather, is_expanded,
    is_resolved, renumber_index, walk_definitions, weigh, weigh_component, weigh_leaves,
};
use std::alloc::{AllocError, Global};
use std::test::Fail;
use wast_parser::{FormKind, Gensym, Id, Index, Span};

/// A field of a record.
#[derive(Drop)]
struct Field {
    name: &'static str,
    ty: Index<'static>,
}

impl Node for Field {
    ghost use Rattle.comp_model.specs.Core.{outward};
    ghost use Rattle.comp_model.specs.Model as m;
    ghost use Rattle.comp_model.specs.declared.row.ScopeKind.TheVariants as kinds;
    ghost use Rattle.comp_model.specs.Model.{no_leaf, ◌▸◌};
    ghost use Rattle.comp_model.specs.declared.row.Row.TheVariants as rows;
    ghost use Rattle.comp_model.specs.declared.Space.TheVariants.{Ty};
    ghost use Rattle.comp_walks.specs.Lent.{index_of};

    ghost tag = { λ f. rows.NamedType };

    ghost leaves = { λ f. m.text f.name.now ▸ (m.ref Ty (index_of outward f.ty) ▸ no_leaf) };

    fn row(&self) -> Row {
        Row::NamedType
    }

    fn walk_leaves<V: Visitor>(&self, visitor: &mut V) {
        visitor.tell(Part::Text(self.name));
        visitor.tell(Part::Index(Space::Ty, Reach::Outward, self.ty));
    }
}

impl RenumberNode for Field {
    fn renumber_leaves(&mut self, numbers: &mut Numbers<'_>) {
        renumber_index(&mut self.ty, numbers);
    }
}

/// The definition of a record.
#[derive(Drop)]
struct Record {
    span: Span,
    id: Option<Id<'static>>,
    fields: Vec<Field>,
}

impl Node for Record {
    ghost use Rattle.comp_model.specs.Core.{outward};
    ghost use Rattle.comp_model.specs.Model as m;
    ghost use Rattle.comp_model.specs.Model.{no_leaf, ◌▸◌};
    ghost use Rattle.comp_model.specs.declared.Space.TheVariants.{Ty};
    ghost use Rattle.comp_model.specs.declared.row.Row.TheVariants as rows;
    ghost use Rattle.comp_walks.specs.Lent.{index_of};
    ghost use Rattle.comp_walks.specs.Lists.{entries};

    ghost tag = { λ r. rows.RecordType };

    ghost leaves = { λ r. m.nodes (entries (λ f. rows.NamedType) (λ f. m.text f.name.now ▸ (m.ref Ty (index_of outward f.ty) ▸ no_leaf)) r.fields.items) ▸ no_leaf };

    fn row(&self) -> Row {
        Row::RecordType
    }

    fn walk_leaves<V: Visitor>(&self, visitor: &mut V) {
        self.fields.walk(visitor);
    }
}

impl Definition for Record {
    ghost use Rattle.std.specs.Prelude.{[], ◌∷◌, option_map};
    ghost use Rattle.comp_model.specs.Core.{outward};
    ghost use Rattle.comp_model.specs.Model as m;
    ghost use Rattle.comp_model.specs.Model.{no_leaf, ◌▸◌};
    ghost use Rattle.comp_model.specs.declared.Space.TheVariants.{Ty};
    ghost use Rattle.comp_model.specs.declared.row.Row.TheVariants as rows;
    ghost use Rattle.comp_walks.specs.Lent.{id_of, index_of};
    ghost use Rattle.comp_walks.specs.Lists.{entries};

    ghost def = { λ r. m.define (record { ids = option_map id_of r.id ∷ []; labels = []; exports = []; offset = r.span.offset })
        (m.row rows.RecordType (m.nodes (entries (λ f. rows.NamedType) (λ f. m.text f.name.now ▸ (m.ref Ty (index_of outward f.ty) ▸ no_leaf)) r.fields.items) ▸ no_leaf)) };

    fn walk_definition<V: Visitor>(&self, visitor: &mut V) {
        if !visitor.enters() {
            return;
        }
        visitor.tell(Part::Definition(Names {
            ids: &[self.id],
            labels: &[],
            exports: &[],
            span: self.span,
        }));
        visitor.tell(Part::Row(Row::RecordType));
        self.walk_leaves(visitor);
        visitor.tell(Part::Ended(self.span));
    }
}

/// A definition of a row without leaves.
#[derive(Drop)]
struct Bare {
    span: Span,
    row: Row,
}

impl Definition for Bare {
    ghost use Rattle.comp_model.specs.Model as m;

    ghost def = { λ b. m.define (m.nameless_at b.span.offset) (m.row b.row m.no_leaf) };

    fn walk_definition<V: Visitor>(&self, visitor: &mut V) {
        if !visitor.enters() {
            return;
        }
        visitor.tell(Part::Definition(Names {
            ids: &[],
            labels: &[],
            exports: &[],
            span: self.span,
        }));
        visitor.tell(Part::Row(self.row));
        visitor.tell(Part::Ended(self.span));
    }
}

/// A definition of a row that holds the scope of an instance type.
#[derive(Drop)]
struct Holder {
    span: Span,
    row: Row,
    inner: Vec<Bare>,
}

impl Definition for Holder {
    ghost use Rattle.std.specs.Prelude.{None};
    ghost use Rattle.comp_model.specs.Model as m;
    ghost use Rattle.comp_model.specs.Model.{no_leaf, ◌▸◌};
    ghost use Rattle.comp_model.specs.declared.row.ScopeKind.TheVariants as kinds;
    ghost use Rattle.comp_walks.specs.Lists.{definitions};

    ghost def = { λ h. m.define (m.nameless_at h.span.offset)
        (m.row h.row (m.scope (m.scope_of kinds.InstanceType None None (definitions (λ b. m.define (m.nameless_at b.span.offset) (m.row b.row m.no_leaf)) h.inner.items)) ▸ no_leaf)) };

    fn walk_definition<V: Visitor>(&self, visitor: &mut V) {
        if !visitor.enters() {
            return;
        }
        visitor.tell(Part::Definition(Names {
            ids: &[],
            labels: &[],
            exports: &[],
            span: self.span,
        }));
        visitor.tell(Part::Row(self.row));
        visitor.tell(Part::Held);
        visitor.tell(Part::Scope(ScopeKind::InstanceType, None, None));
        walk_definitions(&self.inner, visitor);
        visitor.tell(Part::Closed);
        visitor.tell(Part::Ended(self.span));
    }
}

/// A core module without fields, as a leaf.
struct Empty;

impl CoreSource for Empty {
    ghost use Rattle.std.specs.Prelude.{[], None};

    ghost core_module = { λ e. record { naming = record { id = None; label = None }; fields = [] } };

    fn weight(&self) -> u64 {
        0
    }

    fn first_uncovered(&self) -> Option<Uncovered> {
        None
    }
}

impl Walk for Empty {
    ghost use Rattle.std.specs.Prelude.{[], None, refl};
    ghost use Rattle.comp_model.specs.Model as m;

    ghost leaf = { λ e. m.core_source (record { naming = record { id = None; label = None }; fields = [] }) };

    ghost is_plain = { λ e. refl };

    fn walk<V: Visitor>(&self, visitor: &mut V) {
        visitor.tell_module(self);
    }
}

/// `(record (field "ab" 3) (field "c" $t))` at 10, with an id.
fn two_fields(alloc: Global, id: Option<Id<'static>>) -> Result<Record, AllocError> {
    let mut fields = Vec::new(alloc);
    fields.push(Field {
        name: "ab",
        ty: Index::Num(3, Span::from_offset(20)),
    })?;
    fields.push(Field {
        name: "c",
        ty: Index::Id(Id::new("t", Span::from_offset(30))),
    })?;
    Ok(Record {
        span: Span::from_offset(10),
        id,
        fields,
    })
}

/// A holder at 1 of two maps at 5 and 7, the second of them a form of this row.
fn one_holder(alloc: Global, row: Row, second: Row) -> Result<Vec<Holder>, AllocError> {
    let mut inner = Vec::new(alloc);
    inner.push(Bare {
        span: Span::from_offset(5),
        row: Row::OwnType,
    })?;
    inner.push(Bare {
        span: Span::from_offset(7),
        row: second,
    })?;
    let mut items = Vec::new(alloc);
    items.push(Holder {
        span: Span::from_offset(1),
        row,
        inner,
    })?;
    Ok(items)
}

#[test]
fn weighed(rt: HostRuntime) -> Result<(), Fail> {
    let record = two_fields(rt.alloc(), Some(Id::new("xyz", Span::from_offset(12))))?;
    // A list; of each field its node, a text and a reference.
    let leaves = 32 + (32 + 32 + 2 + 32) + (32 + 32 + 1 + 32);
    assert_eq!(rt; weigh_leaves(&record), leaves);
    assert_eq!(rt; weigh(&record.fields), leaves);
    assert_eq!(rt; weigh(&Empty), 32);
    let mut items = Vec::new(rt.alloc());
    items.push(record)?;
    // The scope, its id and label, then the definition with its id, and its node.
    let id = Some(Id::new("main", Span::from_offset(0)));
    assert_eq!(rt;
        weigh_component(id, Some("label"), &items),
        32 + 4 + 5 + (32 + 3 + 32 + leaves)
    );
    Ok(())
}

#[test]
fn uncovered(rt: HostRuntime) -> Result<(), Fail> {
    // What stands in a definition of its own is held there.
    let inner = one_holder(rt.alloc(), Row::InstanceType, Row::MapType)?;
    let found = Uncovered {
        form: FormKind::U2,
        offset: 7,
    };
    assert!(rt; first_uncovered(&inner) == Some(found));
    // A definition stands before what it holds.
    let outer = one_holder(rt.alloc(), Row::ThreadYield, Row::MapType)?;
    let found = Uncovered {
        form: FormKind::U5,
        offset: 1,
    };
    assert!(rt; first_uncovered(&outer) == Some(found));
    let none = one_holder(rt.alloc(), Row::InstanceType, Row::RecordType)?;
    assert!(rt; first_uncovered(&none).is_none());
    Ok(())
}

#[test]
fn shapes(rt: HostRuntime) -> Result<(), Fail> {
    let mut items = Vec::new(rt.alloc());
    items.push(two_fields(rt.alloc(), None)?)?;
    assert!(rt; is_expanded(&items));
    assert!(rt; !is_resolved(&items));
    assert!(rt; are_ids_of_text(&items));
    let mut gensym = Gensym::new();
    let id = gensym.generate(Span::from_offset(0));
    let mut generated = Vec::new(rt.alloc());
    generated.push(two_fields(rt.alloc(), Some(id))?)?;
    assert!(rt; !are_ids_of_text(&generated));
    Ok(())
}

#[test]
fn renumbered(rt: HostRuntime) -> Result<(), Fail> {
    let mut record = two_fields(rt.alloc(), None)?;
    assert!(rt; count_references(&record) == 2);
    let numbers = gather(rt.alloc(), &record, 2)?;
    assert_eq!(rt; numbers.as_slice(), [3u32, 0].as_slice());
    let table = [7u32, 8];
    let mut taken = Numbers::new(&table);
    record.fields.renumber(&mut taken);
    let second = match record.fields.get(1) {
        Some(field) => field.ty == Index::Num(8, Span::from_offset(30))
            && field.ty.span().offset == 30,
        None => false,
    };
    assert!(rt; second);
    Ok(())
}
