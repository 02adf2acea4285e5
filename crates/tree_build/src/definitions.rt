//! Definitions, made of what their parts left.

ghost use Rattle.std.specs.Prelude.{◌≡◌, ◌≤◌, true, List, IfOk, OnOk, map, option_map, length, drop, take};
ghost use Rattle.comp_model.specs.CoreModules.{CoreModule, Field};
ghost use Rattle.comp_model.specs.ItemNames.{first_or_none};
ghost use Rattle.text_rules.specs.Rule.{a_def};
ghost use Rattle.text_rules.specs.Made.{owned, leaves_from};
ghost use Rattle.comp_model.specs.Model as m;
ghost use Rattle.comp_tree.specs.Lists.{def_of};
ghost use Rattle.comp_tree.specs.Model.{leaf_of, id_of, lent_text, names_at};
ghost use Rattle.tree_build.specs.Cores.{Final, Grows};
ghost use Rattle.tree_build.specs.Held.{loose};
ghost use Rattle.comp_tree.specs.declared.tree.Leaf as LeafOf;
ghost use Rattle.tree_build.specs.Adds.{MakesOf};
ghost use Rattle.tree_build.specs.Owned.{scope_label};
ghost use Rattle.tree_build.specs.Ends.{AtDefEnds, HasDefEnds, IsAtDefEnds, Nameless, NamesGo};

use crate::cores::Cores;
use crate::modules::name_module;
use crate::scratch::Scratch;
use crate::take::{place_at, take_all, take_row};
use bumpalo::Bump;
use comp_model::{Row, ScopeKind};
use comp_tree::{Def, Leaf, Names, Node, Scope, no_names, place};
use comp_wire::Origin;
use std::alloc::AllocError;
use wast_parser::{Id, Span};

/// Where those stacks end behind which the parts of a definition stand.
#[derive(Clone, Copy)]
pub struct DefEnds {
    pub(crate) rows: usize,
    pub(crate) leaves: usize,
    pub(crate) ids: usize,
    pub(crate) labels: usize,
    pub(crate) exports: usize,
    pub(crate) places: usize,
}

impl DefEnds {
    /// Where they end now.
    #[inline]
    pub fn of(scratch: &Scratch<'_, '_>) -> DefEnds
        ensures { AtDefEnds result scratch.now }
    {
        DefEnds {
            rows: scratch.rows.len(),
            leaves: scratch.leaves.len(),
            ids: scratch.ids.len(),
            labels: scratch.labels.len(),
            exports: scratch.exports.len(),
            places: scratch.places.len(),
        }
    }
}

/// The first id, if there is one.
#[inline]
fn first_id<'a>(ids: &[Option<Id<'a>>]) -> Option<Id<'a>>
    ensures { option_map id_of result ≡ first_or_none (map (option_map id_of) ids.now) }
{
    if ids.len() > 0 { ids[0] } else { None }
}

/// The first label, if there is one.
#[inline]
fn first_label<'a>(labels: &[Option<&'a str>]) -> Option<&'a str>
    ensures { option_map lent_text result ≡ first_or_none (map (option_map lent_text) labels.now) }
{
    if labels.len() > 0 { labels[0] } else { None }
}

/// The label that a scope has of its definition: that of a component.
#[inline]
fn scope_label<'a>(kind: ScopeKind, label: Option<&'a str>) -> Option<&'a str>
    ensures { option_map lent_text result ≡ scope_label kind (option_map lent_text label.entry) }
{
    match kind {
        ScopeKind::Component => label,
        ScopeKind::ComponentType => None,
        ScopeKind::InstanceType => None,
        ScopeKind::ModuleType => None,
    }
}

/// A scope with an id and a label.
fn named_scope<'t, 'a>(
    bump: &'t Bump,
    scope: &'t Scope<'t, 'a>,
    id: Option<Id<'a>>,
    label: Option<&'a str>,
) -> Result<Leaf<'t, 'a>, AllocError>
    ensures { (cs : List CoreModule) → IfOk result (λ l. leaf_of cs l ≡ owned (option_map id_of id.entry) (option_map lent_text label.entry) (leaf_of cs (LeafOf.Scope scope.entry))) }
{
    let label = scope_label(scope.kind, label);
    match place(
        bump,
        Scope {
            kind: scope.kind,
            id,
            label,
            defs: scope.defs,
        },
    ) {
        Ok(named) => Ok(Leaf::Scope(named)),
        Err(AllocError) => Err(AllocError),
    }
}

/// A leaf of a definition: a scope or a core module gets its id and its label.
fn own_leaf<'t, 'a>(
    bump: &'t Bump,
    cores: &mut Cores<'a>,
    leaf: Leaf<'t, 'a>,
    id: Option<Id<'a>>,
    label: Option<&'a str>,
) -> Result<Leaf<'t, 'a>, AllocError>
    ensures grows { OnOk result (Grows cores.old cores.new) }
    ensures leaf { (fs : List (List Field)) (cs : List CoreModule) → Final fs cs cores.new → IfOk result (λ l. leaf_of cs l ≡ owned (option_map id_of id.entry) (option_map lent_text label.entry) (loose fs cs leaf.entry)) }
{
    match leaf {
        Leaf::Core(fields) => name_module(cores, id, label, fields),
        Leaf::Scope(scope) => named_scope(bump, scope, id, label),
        _ => Ok(leaf),
    }
}

/// The leaves of a definition.
fn own<'t, 'a>(
    bump: &'t Bump,
    cores: &mut Cores<'a>,
    leaves: &mut [Leaf<'t, 'a>],
    id: Option<Id<'a>>,
    label: Option<&'a str>,
) -> Result<(), AllocError>
    ensures grows { OnOk result (Grows cores.old cores.new) }
    ensures leaves { (fs : List (List Field)) (cs : List CoreModule) → Final fs cs cores.new → OnOk result (map (leaf_of cs) leaves.new ≡ map (owned (option_map id_of id.entry) (option_map lent_text label.entry)) (map (loose fs cs) leaves.old)) }
{
    'leaves: for i in 0..leaves.len() {
        match own_leaf(bump, cores, leaves[i], id, label) {
            Ok(owned) => leaves[i] = owned,
            Err(AllocError) => return Err(AllocError),
        }
    }
    Ok(())
}

/// The leaves behind an end, which are those of a definition.
fn take_owned<'t, 'a>(
    bump: &'t Bump,
    cores: &mut Cores<'a>,
    leaves: &mut Vec<Leaf<'t, 'a>>,
    end: usize,
    id: Option<Id<'a>>,
    label: Option<&'a str>,
) -> Result<&'t [Leaf<'t, 'a>], AllocError>
    requires { end ≤ length leaves.old.items }
    ensures grows { OnOk result (Grows cores.old cores.new) }
    ensures taken { (fs : List (List Field)) (cs : List CoreModule) → Final fs cs cores.new → IfOk result (λ n. map (leaf_of cs) n.now ≡ map (owned (option_map id_of id.entry) (option_map lent_text label.entry)) (map (loose fs cs) (drop end leaves.old.items))) }
    ensures rest { OnOk result (leaves.new.items ≡ take end leaves.old.items) }
{
    match bump.try_alloc_slice_copy(&leaves[end..]) {
        Ok(placed) => match own(bump, cores, placed, id, label) {
            Ok(()) => {
                leaves.truncate(end);
                Ok(&*placed)
            }
            Err(AllocError) => Err(AllocError),
        },
        Err(_) => Err(AllocError),
    }
}

/// A definition of these names, its first word at an offset in bytes of the text, and of a node of this row and these leaves. It counts as the
/// first of its scope.
#[inline]
#[tactic(auto, using(crate::proofs::Views::leaves_listed))]
pub fn def_from<'t, 'a>(
    offset: u32,
    names: &'t Names<'t, 'a>,
    row: Row,
    leaves: &'t [Leaf<'t, 'a>],
) -> Def<'t, 'a>
    ensures { (cs : List CoreModule) → def_of cs result ≡ m.define (names_at offset names.entry.now) (m.row row (leaves_from (map (leaf_of cs) leaves.entry.now))) }
{
    let span = Span { offset };
    Def {
        origin: Origin::Written(0),
        places: &[],
        span,
        names,
        node: Node { row, span, leaves },
    }
}

/// Whether no names stand behind the ends.
#[inline]
fn is_nameless(scratch: &Scratch<'_, '_>, ends: DefEnds) -> bool
    ensures { result ≡ true → Nameless ends scratch.now }
{
    scratch.ids.len() <= ends.ids
        && scratch.labels.len() <= ends.labels
        && scratch.exports.len() <= ends.exports
}

/// The names behind the ends; those that all definitions without a name share, where there are none.
fn take_names<'t, 'a>(
    scratch: &mut Scratch<'t, 'a>,
    ends: DefEnds,
) -> Result<&'t Names<'t, 'a>, AllocError>
    requires { HasDefEnds ends scratch.old }
    ensures ids { IfOk result (λ n. n.now.ids.now ≡ drop ends.ids scratch.old.ids.items) }
    ensures labels { IfOk result (λ n. n.now.labels.now ≡ drop ends.labels scratch.old.labels.items) }
    ensures exports { IfOk result (λ n. n.now.exports.now ≡ drop ends.exports scratch.old.exports.items) }
    ensures rest { OnOk result (NamesGo ends scratch.old scratch.new) }
{
    if is_nameless(scratch, ends) {
        Ok(no_names())
    } else {
        take_written_names(scratch, ends)
    }
}

/// The names behind the ends, in the arena.
fn take_written_names<'t, 'a>(
    scratch: &mut Scratch<'t, 'a>,
    ends: DefEnds,
) -> Result<&'t Names<'t, 'a>, AllocError>
    requires { HasDefEnds ends scratch.old }
    ensures ids { IfOk result (λ n. n.now.ids.now ≡ drop ends.ids scratch.old.ids.items) }
    ensures labels { IfOk result (λ n. n.now.labels.now ≡ drop ends.labels scratch.old.labels.items) }
    ensures exports { IfOk result (λ n. n.now.exports.now ≡ drop ends.exports scratch.old.exports.items) }
    ensures rest { OnOk result (NamesGo ends scratch.old scratch.new) }
{
    let ids = take_all(scratch.bump, &mut scratch.ids, ends.ids)?;
    let labels = take_all(scratch.bump, &mut scratch.labels, ends.labels)?;
    let exports = take_all(scratch.bump, &mut scratch.exports, ends.exports)?;
    place(
        scratch.bump,
        Names {
            ids,
            labels,
            exports,
        },
    )
}

/// Makes a definition of all parts behind the ends: of its ids, labels and inline exports, the first offset, and a node of the first row and the
/// leaves. A scope or a core module among these gets the first id and label. Fails when memory runs out.
pub fn wrap_def(scratch: &mut Scratch<'_, '_>, ends: DefEnds) -> Result<(), AllocError>
    requires { HasDefEnds ends scratch.old }
    ensures { MakesOf a_def (IsAtDefEnds ends) result scratch.old scratch.new }
{
    let row = take_row(&mut scratch.rows, ends.rows);
    let offset = place_at(&scratch.places, ends.places);
    scratch.places.truncate(ends.places);
    let names = take_names(scratch, ends)?;
    let id = first_id(names.ids);
    let label = first_label(names.labels);
    let leaves = take_owned(
        scratch.bump,
        &mut scratch.cores,
        &mut scratch.leaves,
        ends.leaves,
        id,
        label,
    )?;
    let def = def_from(offset, names, row, leaves);
    match scratch.defs.push(def) {
        Ok(()) => Ok(()),
        Err(_) => Err(AllocError),
    }
}
