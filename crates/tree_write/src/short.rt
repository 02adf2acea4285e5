//! Whether a component is short enough to be written: its sections are measured from the last one to the first, as they are written.

ghost use Rattle.std.specs.Prelude.{◌≡◌, ◌==◌, ◌+◌, ◌-◌, ◌^◌, ◌&&◌, List, ◌∷◌, ◌++◌, Bool, true, false, MatchOption, None, map, min, length, codes};
ghost use Rattle.comp_model.specs.Binary.{IsBinary};
ghost use Rattle.comp_model.specs.Covered.{first_uncovered};
ghost use Rattle.comp_model.specs.CoreModules.{CoreModule};
ghost use Rattle.comp_model.specs.Model.{kind_of};
ghost use Rattle.comp_model.specs.declared.row.ScopeKind.TheVariants as kinds;
ghost use Rattle.comp_model.specs.Payloads.{producers_payload};
ghost use Rattle.comp_model.specs.Rows.{FitsRows};
ghost use Rattle.comp_scopes.specs.Form.{custom_node};
ghost use Rattle.comp_tree.specs.Lists.{listed};
ghost use Rattle.comp_wire.specs.Fits.{fits, item_fits, leaf_fits, code_of_kind};
ghost use Rattle.comp_wire.specs.NameSection.{section_of_payload};
ghost use Rattle.comp_wire.specs.Sections.{Item};
ghost use Rattle.comp_wire.specs.Short.{is_short};
ghost use Rattle.comp_wire.specs.Spelled.{items_of, item_of_node, spell_component, spell_leaf, spell_node, FitsNode};
ghost use Rattle.comp_wire.specs.Table.{whole_component};
ghost use Rattle.comp_tree.specs.Model.{scope_of};
ghost use Rattle.byte_table.specs.Lines.{family_of};
ghost use Rattle.tree_write.specs.Measured.{AreMeasured, Counts, IsMeasured, IsSize, TakesMore, items_fit};
ghost use Rattle.tree_write.specs.OpenSection.{count_bytes};
ghost use Rattle.tree_write.specs.Wire.{wire_leaf, wire_node, wire_node_of_def, wire_items, wire_scope, payload_of};

use crate::core_bytes::CoreBytes;
use crate::fits::node_fits;
use crate::name_lengths::names_length;
use crate::nodes::write_node;
use crate::producers::write_producers;
use crate::sections::joins_open;
use crate::sink::Count;
use byte_table::{Family, is_producers, rows_in, section_of_row};
use comp_model::ScopeKind;
use comp_tree::{Def, Leaf, Node, Scope};
use comp_wire::{SectionKind, has_count};
use leb_lengths::{framed_length, is_word, uleb_length};

/// Sections while they are measured: those that are closed, and the one in front.
#[derive(Clone, Copy)]
pub struct Measured {
    /// The kind of the one in front; none before the first item.
    pub running: Option<SectionKind>,
    /// How many items it has.
    pub count: u64,
    /// How many bytes its items have; `u64::MAX` stands for every greater number.
    pub bytes: u64,
    /// How many bytes stand behind it; `u64::MAX` stands for every greater number.
    pub behind: u64,
    /// Whether each item can be written, and each closed section is short.
    pub fits: bool,
}

/// All sections: how many bytes they have, and whether all fit.
#[derive(Clone, Copy)]
pub struct Sections {
    /// How many bytes; `u64::MAX` stands for every greater number.
    pub bytes: u64,
    /// Whether each item can be written, and each section is short.
    pub fits: bool,
}

/// How many bytes a section has behind its length.
fn body_length(kind: SectionKind, count: u64, bytes: u64) -> u64
    ensures { result ≡ min (length (count_bytes kind count) + bytes) (2 ^ 64 - 1) }
{
    if has_count(kind) {
        uleb_length(count).saturating_add(bytes)
    } else {
        bytes
    }
}

/// The sections with the one in front closed.
fn closed(front: Measured) -> Sections
    ensures { (items : List Item) (fit : Bool) → IsMeasured front items fit → AreMeasured result items fit }
{
    match front.running {
        None => Sections {
            bytes: 0,
            fits: front.fits,
        },
        Some(kind) => {
            let body = body_length(kind, front.count, front.bytes);
            let counted = is_word(front.count);
            let short = is_word(body);
            let framed = framed_length(body);
            let numbered = framed.saturating_add(1);
            let bytes = numbered.saturating_add(front.behind);
            Sections {
                bytes,
                fits: front.fits & (counted & short),
            }
        }
    }
}

/// The sections with one of this kind in front, unless the one in front goes on.
fn opened(front: Measured, kind: SectionKind) -> Measured
    ensures { (items : List Item) (fit : Bool) → IsMeasured front items fit → TakesMore result kind items fit }
{
    if joins_open(front.running, kind) {
        return front;
    }
    let behind = closed(front);
    Measured {
        running: Some(kind),
        count: 0,
        bytes: 0,
        behind: behind.bytes,
        fits: behind.fits,
    }
}

/// The sections with one item more in front, of which it is known how long it is where it can be written.
fn with_item(front: Measured, kind: SectionKind, size: Option<u64>) -> Measured
    ensures { (items : List Item) (fit one : Bool) (item : Item) → IsMeasured front items fit → item.section ≡ kind → IsSize size item.content one → IsMeasured result (item ∷ items) (one && fit) }
{
    let open = opened(front, kind);
    let count = open.count.saturating_add(1);
    match size {
        Some(more) => {
            let bytes = open.bytes.saturating_add(more);
            Measured {
                running: open.running,
                count,
                bytes,
                behind: open.behind,
                fits: open.fits,
            }
        }
        None => Measured {
            running: open.running,
            count,
            bytes: open.bytes,
            behind: open.behind,
            fits: false,
        },
    }
}

/// How many bytes a component of these sections has, where they fit; `u64::MAX` stands for every greater number.
fn with_preamble(all: Sections) -> Option<u64>
    ensures { MatchOption result (all.fits ≡ false) (λ n. (all.fits ≡ true) × (n ≡ min (all.bytes + 8) (2 ^ 64 - 1))) }
{
    if all.fits {
        Some(all.bytes.saturating_add(8))
    } else {
        None
    }
}

/// How many bytes were counted.
fn taken(count: &Count) -> u64
    ensures { result ≡ count.now.bytes }
{
    count.bytes
}

/// The name section of a scope, where there is a name.
fn names_size(scope: &Scope<'_, '_>) -> Measured
    ensures { (cores : List CoreModule) → IsMeasured result (items_of (section_of_payload (payload_of (scope_of cores scope.now)))) true }
{
    let held = names_length(scope);
    if held == 0 {
        return Measured {
            running: None,
            count: 0,
            bytes: 0,
            behind: 0,
            fits: true,
        };
    }
    let bytes = held.saturating_add(15);
    Measured {
        running: Some(SectionKind::Custom),
        count: 1,
        bytes,
        behind: 0,
        fits: true,
    }
}

/// How many bytes producers have in their custom section; `u64::MAX` stands for every greater number.
fn producers_length(leaves: &[Leaf<'_, '_>]) -> u64
    ensures { (cores : List CoreModule) → Counts result (item_of_node (custom_node (codes "producers") (producers_payload (listed cores leaves.now)))).content }
{
    let mut count = Count { bytes: 0 };
    write_producers(&mut count, leaves);
    taken(&count)
}

/// How many bytes a node has that can be written; `u64::MAX` stands for every greater number.
fn node_length<M: CoreBytes>(modules: &[M], node: &Node<'_, '_>, family: Family) -> u64
    ensures { FitsNode (wire_node (map M.core_module modules.now) node.now) (family_of family) → Counts result (spell_node (wire_node (map M.core_module modules.now) node.now) (family_of family)) }
{
    let mut count = Count { bytes: 0 };
    write_node(&mut count, modules, node, family);
    taken(&count)
}

/// How many bytes the component has that a leaf holds, where it can be written.
#[cycle(measuring)]
fn whole_size<M: CoreBytes>(modules: &[M], leaf: &Leaf<'_, '_>) -> Option<u64>
    ensures { IsSize result (spell_leaf (wire_leaf (map M.core_module modules.now) leaf.now) whole_component) (leaf_fits (wire_leaf (map M.core_module modules.now) leaf.now) whole_component) }
{
    match leaf {
        Leaf::Scope(scope) => component_size(modules, scope),
        _ => None,
    }
}

/// Whether there is one leaf.
fn is_alone(leaves: &[Leaf<'_, '_>]) -> bool
    ensures { result ≡ (length leaves.now == 1) }
{
    leaves.len() == 1
}

/// How many bytes a definition has in its section, where it can be written.
#[cycle(measuring)]
fn item_size<M: CoreBytes>(modules: &[M], def: &Def<'_, '_>) -> Option<u64>
    ensures { IsSize result (item_of_node (wire_node_of_def (map M.core_module modules.now) def.now.node)).content (item_fits (wire_node_of_def (map M.core_module modules.now) def.now.node)) }
{
    if is_producers(def.node.row) {
        return Some(producers_length(def.node.leaves));
    }
    match rows_in(section_of_row(def.node.row)) {
        Some(family) => {
            if node_fits(modules, &def.node, family) {
                Some(node_length(modules, &def.node, family))
            } else {
                None
            }
        }
        None => {
            if is_alone(def.node.leaves) {
                whole_size(modules, &def.node.leaves[0])
            } else {
                None
            }
        }
    }
}

/// The sections of definitions, in front of a name section.
#[cycle(measuring)]
fn sections_size<M: CoreBytes>(modules: &[M], defs: &[Def<'_, '_>], named: Measured) -> Measured
    ensures { (items : List Item) → IsMeasured named items true → IsMeasured result (wire_items (map M.core_module modules.now) defs.now ++ items) (items_fit (map M.core_module modules.now) defs.now) }
{
    let mut front = named;
    for i in (0..defs.len()).rev() {
        let def = &defs[i];
        let size = item_size(modules, def);
        front = with_item(front, section_of_row(def.node.row), size);
    }
    front
}

/// How many bytes a component has, where it can be written.
#[cycle(measuring)]
fn component_size<M: CoreBytes>(modules: &[M], scope: &Scope<'_, '_>) -> Option<u64>
    ensures { IsSize result (spell_component (wire_scope (map M.core_module modules.now) scope.now)) (fits (wire_scope (map M.core_module modules.now) scope.now)) }
{
    if !is_component(scope.kind) {
        return None;
    }
    let named = names_size(scope);
    let front = sections_size(modules, scope.defs, named);
    let all = closed(front);
    with_preamble(all)
}

/// Whether this is the kind of a component.
fn is_component(kind: ScopeKind) -> bool
    ensures { result ≡ (code_of_kind kind == code_of_kind kinds.Component) }
{
    match kind {
        ScopeKind::Component => true,
        ScopeKind::ComponentType => false,
        ScopeKind::InstanceType => false,
        ScopeKind::ModuleType => false,
    }
}

/// Whether a component can be written, whatever stands in it: exactly where `FitsComponent` holds. It takes no memory.
pub fn can_be_written<M: CoreBytes>(modules: &[M], scope: &Scope<'_, '_>) -> bool
    ensures exact { result ≡ fits (wire_scope (map M.core_module modules.now) scope.now) }
{
    let size = component_size(modules, scope);
    match size {
        Some(_) => true,
        None => false,
    }
}

/// Whether a resolved component without a form that is never written is short enough to be written: every count, index and length in its
/// bytes is below 2^32. It takes no memory.
pub fn is_short<M: CoreBytes>(modules: &[M], scope: &Scope<'_, '_>) -> bool
    requires kind { kind_of (wire_scope (map M.core_module modules.now) scope.now) ≡ kinds.Component }
    requires rows { FitsRows (wire_scope (map M.core_module modules.now) scope.now) }
    requires binary { IsBinary (wire_scope (map M.core_module modules.now) scope.now) }
    requires covered { first_uncovered (λ c. None) (wire_scope (map M.core_module modules.now) scope.now) ≡ None }
    ensures exact { result ≡ is_short (wire_scope (map M.core_module modules.now) scope.now) }
{
    can_be_written(modules, scope)
}
