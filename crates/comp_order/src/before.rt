//! What stands before a reference.

ghost use Rattle.std.specs.Prelude.{◌≡◌, ◌<◌, ◌^◌, ℕ, List, ◌∷◌, drop};
ghost use Rattle.comp_model.specs.Model.{Defs, Leaves};
ghost use Rattle.comp_model.specs.declared.row.Row.{Row as ModelRow};
ghost use Rattle.wire_tree.specs.Lists.{listed};
ghost use Rattle.comp_list.specs.declared.reference.Reference.{Reference as OneReference};
ghost use Rattle.item_tree.specs.Model.{item_row, core_type_row};
ghost use Rattle.comp_list.specs.Places.{row_of, row_leaves};
ghost use Rattle.comp_order.specs.Counts.{HasCounts, capped};
ghost use Rattle.comp_order.specs.Order.{verdict_below, verdict_outward, verdict_of, may_name_itself};
ghost use Rattle.comp_order.specs.Before.{AllCounted, HasOwn};

use crate::counts::Counts;
use crate::verdict::Verdict;
use comp_list::Reference;
use comp_model::Row;
use item_tree::{Item, ItemCoreType};
use wire_tree::Node;

/// The scopes that are open, the innermost first.
#[derive(Clone, Copy)]
#[cycle(before)]
pub enum Around<'s> {
    /// None.
    Nothing,
    /// A scope, and those around it.
    Scope(&'s Before<'s>),
}

/// An open scope.
#[derive(Clone, Copy)]
#[cycle(before)]
pub struct Before<'s> {
    /// How many items its definitions declare that stand before the one at hand.
    pub counts: &'s Counts,
    /// The scopes around it.
    pub outer: Around<'s>,
}

/// What is known at the references of a definition.
#[derive(Clone, Copy)]
pub struct Judge<'s> {
    /// How many items of its scope stand before it.
    pub before: &'s Counts,
    /// How many of its own items count as well.
    pub own: &'s Counts,
    /// The count of an outer alias.
    pub up: Option<u32>,
    /// The scopes around its scope.
    pub outer: Around<'s>,
}

/// Whether the types that a row declares may name each other: those of a core function type and of a group of core types.
fn may_name_itself(row: Row) -> bool
    ensures { result ≡ may_name_itself row }
{
    match row {
        Row::CoreFunctionType => true,
        Row::CoreRec => true,
        _ => false,
    }
}

/// The items of its own that the references of a definition may be to.
#[tactic(auto, using(crate::proofs::Counting::no_own, crate::proofs::Counting::some_own))]
pub fn own_counts(node: &Node<'_, '_>) -> Counts
    ensures { HasOwn result node.now.row (listed node.now.leaves.now) }
{
    if !may_name_itself(node.row) {
        return Counts::none();
    }
    let mut own = Counts::none();
    own.add_def(node);
    own
}

/// Whether the types that a core type declares may name each other.
fn is_group(ty: &ItemCoreType<'_>) -> bool
    ensures { result ≡ may_name_itself (row_of (core_type_row ty.now)) }
{
    match ty {
        ItemCoreType::Func(_) => true,
        ItemCoreType::Rec(_) => true,
        ItemCoreType::Module(_) => false,
    }
}

/// Whether the types that a definition of a tree declares may name each other.
fn item_may_name_itself(item: &Item<'_>) -> bool
    ensures { result ≡ may_name_itself (row_of (item_row item.now)) }
{
    match item {
        Item::CoreType(ty) => is_group(ty),
        _ => false,
    }
}

/// The items of its own that the references of a definition of a tree may be to.
#[tactic(auto, using(crate::proofs::Counting::no_own, crate::proofs::Counting::some_own_row))]
pub fn own_counts_of(item: &Item<'_>) -> Counts
    ensures { HasOwn result (row_of (item_row item.now)) (row_leaves (item_row item.now)) }
{
    if !item_may_name_itself(item) {
        return Counts::none();
    }
    let mut own = Counts::none();
    own.add_item(item);
    own
}

/// The open scopes from the one so many outward on.
fn outward<'s>(around: Around<'s>, up: u32) -> Around<'s>
    ensures { (befores : List Defs) → AllCounted around.entry befores → AllCounted result (drop up befores) }
{
    let mut at = around;
    let mut left = up;
    while left > 0 {
        match at {
            Around::Nothing => return Around::Nothing,
            Around::Scope(before) => at = before.outer,
        }
        left -= 1;
    }
    at
}

/// What is said of an index where so many items stand before it.
#[tactic(auto, using(crate::proofs::Counting::below_yes, crate::proofs::Counting::below_no))]
fn below(index: u32, count: u64) -> Verdict
    ensures { (n : ℕ) → capped count ≡ capped n → result ≡ verdict_below index n }
{
    if (index as u64) < count {
        Verdict::InOrder
    } else {
        Verdict::Early
    }
}

/// What is said of a reference so many scopes outward, from the scope of its definition on.
fn judge_outward(judge: &Judge<'_>, up: u32, reference: Reference) -> Verdict
    ensures { (before : Defs) (befores : List Defs) → HasCounts judge.now.before.now before → AllCounted judge.now.outer befores → result ≡ verdict_outward (before ∷ befores) up reference }
{
    if up == 0 {
        return below(reference.index, judge.before.of(reference.space));
    }
    match outward(judge.outer, up - 1) {
        Around::Nothing => Verdict::OutOfRange,
        Around::Scope(open) => below(reference.index, open.counts.of(reference.space)),
    }
}

/// What is said of a reference.
pub fn judge_reference(judge: &Judge<'_>, reference: Reference) -> Verdict
    ensures { (before : Defs) (befores : List Defs) (t : ModelRow) (ls : Leaves) → HasCounts judge.now.before.now before → HasOwn judge.now.own.now t ls → AllCounted judge.now.outer befores → result ≡ verdict_of befores before t ls judge.now.up reference }
{
    match judge.up {
        None => {
            let own = judge.own.of(reference.space);
            let before = judge.before.of(reference.space);
            below(reference.index, before.saturating_add(own))
        }
        Some(up) => judge_outward(judge, up, reference),
    }
}
