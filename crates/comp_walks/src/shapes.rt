//! The shapes of lists of definitions: of the text, expanded, resolved.

ghost use Rattle.std.specs.Prelude.{◌≡◌, ◌↔◌, Bool, true, List, Option, option_map};
ghost use Rattle.comp_model.specs.Core.{is_of_text};
ghost use Rattle.comp_model.specs.Events.{Event, leaf, told_defs, enters_all};
ghost use Rattle.comp_model.specs.Model.{ref, core_value, place, core_source};
ghost use Rattle.comp_expanded.specs.IsExpanded.{DefsExpanded};
ghost use Rattle.comp_expanded.specs.IsResolved.{DefsResolved};
ghost use Rattle.comp_walks.specs.Lent.{id_of, ids_of, place_of, reach_of, index_of, target_of, texts_of, core_value_of};
ghost use Rattle.comp_walks.specs.Lists.{definitions};
ghost use Rattle.comp_walks.specs.Parts.{event_of};
ghost use Rattle.comp_walks.specs.Shapes.{all_pass, is_resolved_leaf, is_text_leaf, is_text_event, is_text_id, are_text_ids, is_text_place, is_text_reach, are_none};

use crate::part::{CoreValue, Part, Reach};
use crate::visitor::{CoreSource, Visitor};
use crate::walk::{Definition, walk_definitions};
use comp_model::Space;
use std::marker::Model;
use wast_parser::{Id, Index};

/// A test of the parts of a tree.
trait Test {
    /// Whether an event passes.
    ghost test: { Event → Bool };

    /// Whether a part passes.
    fn passes(&self, part: Part<'_>) -> bool
        ensures { result ≡ test (event_of part.entry) };

    /// Whether a leaf that is a core module passes.
    fn passes_module<M: CoreSource>(&self, source: &M) -> bool
        ensures { result ≡ test (leaf (core_source (M.core_module source.now))) };
}

/// Whether each part so far passes a test.
#[derive(Drop)]
struct Passing<T> {
    test: T,
    holds: bool,
}

impl<T> Model for Passing<T> {
    ghost use Rattle.std.specs.Prelude.{Bool};

    ghost Value = { Bool };

    ghost view = { λ p. p.holds };
}

impl<T: Test> Visitor for Passing<T> {
    ghost use Rattle.comp_model.specs.Events.{enters_all};
    ghost use Rattle.comp_walks.specs.Shapes.{all_pass};

    ghost step = { all_pass T.test };

    ghost enters = { enters_all };

    fn enters(&self) -> bool {
        true
    }

    #[inline(always)]
    fn tell(&mut self, part: Part<'_>) {
        if !self.test.passes(part) {
            self.holds = false;
        }
    }

    fn tell_module<M: CoreSource>(&mut self, source: &M) {
        if !self.test.passes_module(source) {
            self.holds = false;
        }
    }
}

/// Whether all parts of definitions pass a test, and those of the scopes in them.
fn all_pass<T: Definition, P: Test + Drop>(items: &[T], test: P) -> bool
    ensures { result ≡ told_defs (all_pass P.test) enters_all (definitions T.def items.now) true }
{
    let mut passing = Passing { test, holds: true };
    walk_definitions(items, &mut passing);
    passing.holds
}

/// Whether there are no names.
fn are_none(names: &[&str]) -> bool
    ensures { result ≡ are_none (texts_of names.now) }
{
    names.is_empty()
}

/// What stands in an expanded list.
#[derive(Drop)]
struct Expanded;

impl Test for Expanded {
    ghost use Rattle.comp_walks.specs.Shapes.{is_expanded_event};

    ghost test = { is_expanded_event };

    #[inline(always)]
    fn passes(&self, part: Part<'_>) -> bool {
        match part {
            Part::Inline(_) | Part::Bundle(_) => false,
            Part::Definition(names) => are_none(names.exports),
            _ => true,
        }
    }

    fn passes_module<M: CoreSource>(&self, _source: &M) -> bool {
        true
    }
}

/// Whether a reference by its index or a path is a numeral.
fn is_numeral(space: Space, index: Index<'_>, exports: &[&str]) -> bool
    ensures { result ≡ is_resolved_leaf (ref space (target_of index.entry (texts_of exports.now))) }
{
    if !exports.is_empty() {
        return false;
    }
    match index {
        Index::Num(..) => true,
        Index::Id(_) => false,
    }
}

/// Whether a core value type has no name in it.
fn is_resolved_value(value: CoreValue<'_>) -> bool
    ensures { result ≡ is_resolved_leaf (core_value (core_value_of value.entry)) }
{
    match value {
        CoreValue::RefConcrete(_, _, Index::Num(..)) => true,
        CoreValue::RefConcrete(_, _, Index::Id(_)) => false,
        _ => true,
    }
}

/// What stands in a resolved list.
#[derive(Drop)]
struct Resolved;

impl Test for Resolved {
    ghost use Rattle.comp_walks.specs.Shapes.{is_resolved_event};

    ghost test = { is_resolved_event };

    #[inline(always)]
    fn passes(&self, part: Part<'_>) -> bool {
        match part {
            Part::CoreValue(value) => is_resolved_value(value),
            Part::Index(_, _, Index::Num(..)) | Part::Place(_, Index::Num(..)) => true,
            Part::Index(_, _, Index::Id(_)) | Part::Place(_, Index::Id(_)) => false,
            Part::Reference(space, index, exports) => is_numeral(space, index, exports),
            Part::Inline(_) | Part::Bundle(_) => false,
            Part::Definition(names) => are_none(names.exports),
            _ => true,
        }
    }

    fn passes_module<M: CoreSource>(&self, _source: &M) -> bool {
        true
    }
}

/// Whether an id stands in the text.
fn is_of_text(id: Id<'_>) -> bool
    ensures { result ≡ is_of_text (id_of id.entry) }
{
    !id.is_gensym()
}

/// Whether an id stands in the text, if there is one.
fn is_text_id(id: Option<Id<'_>>) -> bool
    ensures { result ≡ is_text_id (option_map id_of id.entry) }
{
    match id {
        Some(id) => is_of_text(id),
        None => true,
    }
}

/// Whether ids stand in the text, where there are any.
fn are_text_ids(ids: &[Option<Id<'_>>]) -> bool
    ensures { result ≡ are_text_ids (ids_of ids.now) }
{
    for id in ids {
        if !is_text_id(*id) {
            return false;
        }
    }
    true
}

/// Whether the first part of an outer alias, at any offset, stands in the text.
fn is_text_place(offset: u32, index: Index<'_>) -> bool
    ensures { result ≡ is_text_place (place_of offset index.entry) }
{
    match index {
        Index::Num(..) => true,
        Index::Id(id) => is_of_text(id),
    }
}

/// Whether the scope in which a name is looked for is named in the text.
fn is_text_reach(reach: Reach<'_>) -> bool
    ensures { result ≡ is_text_reach (reach_of reach.entry) }
{
    match reach {
        Reach::Outward | Reach::Own => true,
        Reach::At(span, index) => is_text_place(span.offset, index),
    }
}

/// Whether the ids of a reference by its index or a path stand in the text.
fn is_text_reference(space: Space, index: Index<'_>, exports: &[&str]) -> bool
    ensures { result ≡ is_text_leaf (ref space (target_of index.entry (texts_of exports.now))) }
{
    match index {
        Index::Num(..) => true,
        Index::Id(id) => is_of_text(id),
    }
}

/// Whether the ids of a core value type stand in the text.
fn is_text_value(value: CoreValue<'_>) -> bool
    ensures { result ≡ is_text_leaf (core_value (core_value_of value.entry)) }
{
    match value {
        CoreValue::RefConcrete(_, _, Index::Num(..)) => true,
        CoreValue::RefConcrete(_, reach, Index::Id(id)) => is_text_reach(reach) && is_of_text(id),
        _ => true,
    }
}

/// Whether the ids of a reference by its index stand in the text.
fn is_text_index(space: Space, reach: Reach<'_>, index: Index<'_>) -> bool
    ensures { result ≡ is_text_leaf (ref space (index_of (reach_of reach.entry) index.entry)) }
{
    match index {
        Index::Num(..) => true,
        Index::Id(id) => is_text_reach(reach) && is_of_text(id),
    }
}

/// What stands in a list that was read: no id is generated.
#[derive(Drop)]
struct Written;

impl Test for Written {
    ghost use Rattle.comp_walks.specs.Shapes.{is_text_event};

    ghost test = { is_text_event };

    #[inline(always)]
    fn passes(&self, part: Part<'_>) -> bool {
        match part {
            Part::CoreValue(value) => is_text_value(value),
            Part::Index(space, reach, index) => is_text_index(space, reach, index),
            Part::Reference(space, index, exports) => is_text_reference(space, index, exports),
            Part::Place(span, index) => is_text_place(span.offset, index),
            Part::CaseId(id) => is_text_id(id),
            Part::Results(ids) => are_text_ids(ids),
            Part::Definition(names) => are_text_ids(names.ids),
            Part::Scope(_, id, _) => is_text_id(id),
            _ => true,
        }
    }

    fn passes_module<M: CoreSource>(&self, _source: &M) -> bool {
        true
    }
}

/// Whether definitions are expanded, and the scopes in them: no node and no list of exports stands in the place of a reference, and
/// there are no inline exports.
pub fn is_expanded<T: Definition>(items: &[T]) -> bool
    ensures { (result ≡ true) ↔ DefsExpanded (definitions T.def items.now) }
{
    all_pass(items, Expanded)
}

/// Whether definitions are resolved, and the scopes in them: they are expanded, and each reference is a numeral. Core modules have a
/// rule of their own.
pub fn is_resolved<T: Definition>(items: &[T]) -> bool
    ensures { (result ≡ true) ↔ DefsResolved (definitions T.def items.now) }
{
    all_pass(items, Resolved)
}

/// Whether each id of definitions stands in the text, and none is generated: of definitions, references, places, cases, results and
/// scopes.
pub fn are_ids_of_text<T: Definition>(items: &[T]) -> bool
    ensures { result ≡ told_defs (all_pass is_text_event) enters_all (definitions T.def items.now) true }
{
    all_pass(items, Written)
}
