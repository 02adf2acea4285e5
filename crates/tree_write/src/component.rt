//! The bytes of a component, from the last one to the first: its name section, its sections, and the eight bytes in front
//! (Component Model binary format, "Component Definitions").

ghost use Rattle.std.specs.Prelude.{◌≡◌, ℕ, List, ◌∷◌, ◌++◌, map, drop};
ghost use Rattle.comp_tree.specs.Lists.{node_of, defs_listed};
ghost use Rattle.comp_tree.specs.Model.{leaf_of, scope_of};
ghost use Rattle.comp_wire.specs.NameSection.{section_of_payload};
ghost use Rattle.comp_wire.specs.Sections.{Item, groups, sections};
ghost use Rattle.comp_wire.specs.Spelled.{items_of, item_of_node, spell_leaf, spell_component, FitsItem, FitsLeaf, FitsSections};
ghost use Rattle.comp_wire.specs.Table.{whole_component};
ghost use Rattle.tree_write.specs.Along.{payload_by};
ghost use Rattle.tree_write.specs.Kept.{Kept, put};
ghost use Rattle.tree_write.specs.OpenSection.{BeginsAlone};
ghost use Rattle.tree_write.specs.Plans.{payloads, payloads_in, payloads_of_defs, scope_leaf, component_in};
ghost use Rattle.tree_write.specs.Wire.{wire_leaf, wire_items, wire_node_of_def, wire_scope, ItemsFit};

use crate::core_bytes::CoreBytes;
use crate::item_names::ComponentNames;
use crate::name_section::write_name_section;
use crate::nodes::write_node;
use crate::producers::write_producers;
use crate::sections::{Open, begin, close_section};
use crate::sink::Sink;
use byte_table::{is_producers, rows_in, section_of_row};
use comp_tree::{Def, Leaf, Scope};

/// Writes the next name section of those that are planned.
fn write_next<S: Sink>(sink: &mut S, plans: &[ComponentNames<'_>], next: &mut usize)
    ensures { (payload : List ℕ) (rest : List (List ℕ)) → map payload_by (drop next.old plans.now) ≡ payload ∷ rest → (S.kept sink.new ≡ put (sections (groups (items_of (section_of_payload payload)))) (S.kept sink.old)) × (map payload_by (drop next.new plans.now) ≡ rest) }
{
    if *next < plans.len() {
        write_name_section(sink, &plans[*next]);
        *next += 1;
    }
}

/// Writes the component that the first leaf of a definition holds.
#[cycle(components)]
fn write_whole<S: Sink, M: CoreBytes>(
    sink: &mut S,
    modules: &[M],
    plans: &[ComponentNames<'_>],
    next: &mut usize,
    leaf: &Leaf<'_, '_>,
)
    ensures { (rest : List (List ℕ)) → FitsLeaf (wire_leaf (map M.core_module modules.now) leaf.now) whole_component → map payload_by (drop next.old plans.now) ≡ payloads_in (scope_leaf (leaf_of (map M.core_module modules.now) leaf.now)) ++ rest → (S.kept sink.new ≡ put (spell_leaf (wire_leaf (map M.core_module modules.now) leaf.now) whole_component) (S.kept sink.old)) × (map payload_by (drop next.new plans.now) ≡ rest) }
{
    match leaf {
        Leaf::Scope(scope) => write_component(sink, modules, plans, next, scope),
        _ => {}
    }
}

/// Writes a definition, as it stands in its section.
#[cycle(components)]
fn write_item<S: Sink, M: CoreBytes>(
    sink: &mut S,
    modules: &[M],
    plans: &[ComponentNames<'_>],
    next: &mut usize,
    def: &Def<'_, '_>,
)
    ensures { (rest : List (List ℕ)) → FitsItem (wire_node_of_def (map M.core_module modules.now) def.now.node) → map payload_by (drop next.old plans.now) ≡ payloads_in (component_in (node_of (map M.core_module modules.now) def.now.node)) ++ rest → (S.kept sink.new ≡ put (item_of_node (wire_node_of_def (map M.core_module modules.now) def.now.node)).content (S.kept sink.old)) × (map payload_by (drop next.new plans.now) ≡ rest) }
{
    if is_producers(def.node.row) {
        write_producers(sink, def.node.leaves);
        return;
    }
    match rows_in(section_of_row(def.node.row)) {
        Some(family) => write_node(sink, modules, &def.node, family),
        None => {
            if def.node.leaves.len() != 0 {
                write_whole(sink, modules, plans, next, &def.node.leaves[0]);
            }
        }
    }
}

/// Writes definitions, section by section, in front of a name section.
#[cycle(components)]
fn write_sections<S: Sink, M: CoreBytes>(
    sink: &mut S,
    modules: &[M],
    plans: &[ComponentNames<'_>],
    next: &mut usize,
    defs: &[Def<'_, '_>],
)
    ensures { (before : Kept) (named : List Item) (rest : List (List ℕ)) → ItemsFit (map M.core_module modules.now) defs.now → BeginsAlone (groups named) → S.kept sink.old ≡ put (sections (groups named)) before → map payload_by (drop next.old plans.now) ≡ payloads_of_defs (defs_listed (map M.core_module modules.now) defs.now) ++ rest → (S.kept sink.new ≡ put (sections (groups (wire_items (map M.core_module modules.now) defs.now ++ named))) before) × (map payload_by (drop next.new plans.now) ≡ rest) }
{
    let mut front = Open {
        running: None,
        count: 0,
        end: 0,
    };
    for i in (0..defs.len()).rev() {
        let def = &defs[i];
        front = begin(sink, front, section_of_row(def.node.row));
        write_item(sink, modules, plans, next, def);
        front.count += 1;
    }
    close_section(sink, front);
}

/// Writes a component, with those in it.
#[cycle(components)]
pub fn write_component<S: Sink, M: CoreBytes>(
    sink: &mut S,
    modules: &[M],
    plans: &[ComponentNames<'_>],
    next: &mut usize,
    scope: &Scope<'_, '_>,
)
    ensures { (rest : List (List ℕ)) → FitsSections (wire_scope (map M.core_module modules.now) scope.now) → map payload_by (drop next.old plans.now) ≡ payloads (scope_of (map M.core_module modules.now) scope.now) ++ rest → (S.kept sink.new ≡ put (spell_component (wire_scope (map M.core_module modules.now) scope.now)) (S.kept sink.old)) × (map payload_by (drop next.new plans.now) ≡ rest) }
{
    write_next(sink, plans, next);
    write_sections(sink, modules, plans, next, scope.defs);
    sink.bytes(&[0x00, 0x61, 0x73, 0x6d, 0x0d, 0x00, 0x01, 0x00]);
}
