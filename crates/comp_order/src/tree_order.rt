//! The walk that looks in a tree for the first reference to something that doesn't stand before it.

ghost use Rattle.std.specs.Prelude.{◌≡◌, ◌<◌, ◌^◌, ◌∷◌, [], ℕ, List, map, length};
ghost use Rattle.comp_model.specs.Model.{Defs, Leaves, no_def};
ghost use Rattle.comp_model.specs.declared.row.Row.{Row};
ghost use Rattle.comp_wire.specs.Read.{Reads};
ghost use Rattle.comp_wire.specs.Values.{rows_of_list, function_row};
ghost use Rattle.item_tree.specs.Model.{item_row, core_type_row, type_row, component_of, defs_listed};
ghost use Rattle.comp_list.specs.Places.{references_at, row_references, row_leaves};
ghost use Rattle.comp_list.specs.References.{node_references};
ghost use Rattle.comp_order.specs.Counts.{HasCounts};
ghost use Rattle.comp_order.specs.Before.{AllCounted, HasOwn};
ghost use Rattle.comp_order.specs.Order.{verdict_of, leaves_verdicts, defs_verdicts, order};
ghost use Rattle.comp_order.specs.Pass.{pass, capped_order};
ghost use Rattle.comp_order.specs.Rows.{row_verdict, row_verdicts};

use crate::before::{Around, Before, Judge, own_counts_of};
use crate::counts::Counts;
use crate::steps::pass_some;
use crate::verdict::Order;
use comp_list::{Places, outer_count_of, places_of};
use comp_wire::WireFunc;
use item_tree::{Item, ItemCoreType, ItemType, Tree};

/// Passes the lines of the references at places.
fn pass_places(judge: &Judge<'_>, line: u64, places: &Places<'_>) -> Result<u64, Order>
    ensures { (before : Defs) (befores : List Defs) (t : Row) (ls : Leaves) → HasCounts judge.now.before.now before → HasOwn judge.now.own.now t ls → AllCounted judge.now.outer befores → result ≡ pass line (map (verdict_of befores before t ls judge.now.up) (references_at places.now)) }
{
    let mut next = line;
    for place in 0..places.count() {
        next = match pass_some(judge, next, places.at(place)) {
            Ok(line) => line,
            Err(order) => return Err(order),
        };
    }
    Ok(next)
}

/// Passes the lines of the references of a core function type.
fn pass_function(judge: &Judge<'_>, line: u64, function: &WireFunc) -> Result<u64, Order>
    ensures { (before : Defs) (befores : List Defs) (t : Row) (ls : Leaves) → HasCounts judge.now.before.now before → HasOwn judge.now.own.now t ls → AllCounted judge.now.outer befores → result ≡ pass line (map (verdict_of befores before t ls judge.now.up) (row_references (function_row function.now))) }
{
    let params = Places::CoreValues(function.params.as_slice());
    let next = match pass_places(judge, line, &params) {
        Ok(line) => line,
        Err(order) => return Err(order),
    };
    pass_places(
        judge,
        next,
        &Places::CoreValues(function.results.as_slice()),
    )
}

/// Passes the lines of the references of core function types.
fn pass_functions(judge: &Judge<'_>, line: u64, functions: &[WireFunc]) -> Result<u64, Order>
    ensures { (before : Defs) (befores : List Defs) (t : Row) (ls : Leaves) → HasCounts judge.now.before.now before → HasOwn judge.now.own.now t ls → AllCounted judge.now.outer befores → result ≡ pass line (map (verdict_of befores before t ls judge.now.up) (node_references (rows_of_list function_row functions.now))) }
{
    let mut next = line;
    for function in functions {
        next = match pass_function(judge, next, function) {
            Ok(line) => line,
            Err(order) => return Err(order),
        };
    }
    Ok(next)
}

/// Passes the lines of the references at all places of a definition.
fn pass_item_places(judge: &Judge<'_>, line: u64, item: &Item<'_>) -> Result<u64, Order>
    ensures { (before : Defs) (befores : List Defs) (t : Row) (ls : Leaves) → HasCounts judge.now.before.now before → HasOwn judge.now.own.now t ls → AllCounted judge.now.outer befores → result ≡ pass line (map (verdict_of befores before t ls judge.now.up) (row_references (item_row item.now))) }
{
    let places = places_of(item);
    let second = match pass_places(judge, line, &places.first) {
        Ok(line) => line,
        Err(order) => return Err(order),
    };
    let third = match pass_places(judge, second, &places.second) {
        Ok(line) => line,
        Err(order) => return Err(order),
    };
    let last = match pass_places(judge, third, &places.third) {
        Ok(line) => line,
        Err(order) => return Err(order),
    };
    pass_functions(judge, last, places.functions)
}

/// Passes the lines of a definition's own references.
fn pass_own(counts: &Counts, outer: Around<'_>, line: u64, item: &Item<'_>) -> Result<u64, Order>
    ensures { (before : Defs) (befores : List Defs) → HasCounts counts.now before → AllCounted outer.entry befores → result ≡ pass line (map (row_verdict befores before (item_row item.now)) (row_references (item_row item.now))) }
{
    let own = own_counts_of(item);
    let judge = Judge {
        before: counts,
        own: &own,
        up: outer_count_of(item),
        outer,
    };
    pass_item_places(&judge, line, item)
}

/// Passes the lines of the tree in a core type.
#[tactic(auto, using(crate::proofs::Held::nothing_passed, comp_list::proofs::Plain::function_plain, comp_list::proofs::Plain::functions_plain))]
#[cycle(trees)]
fn pass_core_type(around: Around<'_>, line: u64, ty: &ItemCoreType<'_>) -> Result<u64, Order>
    ensures { (befores : List Defs) → AllCounted around.entry befores → result ≡ pass line (leaves_verdicts (row_leaves (core_type_row ty.now)) befores) }
{
    match ty {
        ItemCoreType::Module(tree) => pass_items(around, line, tree.defs.as_slice()),
        ItemCoreType::Func(_) | ItemCoreType::Rec(_) => Ok(line),
    }
}

/// Passes the lines of the tree in a type.
#[tactic(auto, using(crate::proofs::Held::nothing_passed, comp_list::proofs::Plain::value_plain, comp_list::proofs::Plain::optional_plain, comp_list::proofs::Plain::index_plain, comp_list::proofs::Plain::fields_plain, comp_list::proofs::Plain::cases_plain, comp_list::proofs::Plain::values_plain, comp_list::proofs::Plain::lone_names_plain))]
#[cycle(trees)]
fn pass_type(around: Around<'_>, line: u64, ty: &ItemType<'_>) -> Result<u64, Order>
    ensures { (befores : List Defs) → AllCounted around.entry befores → result ≡ pass line (leaves_verdicts (row_leaves (type_row ty.now)) befores) }
{
    match ty {
        ItemType::Component(tree) => pass_items(around, line, tree.defs.as_slice()),
        ItemType::Instance(tree) => pass_items(around, line, tree.defs.as_slice()),
        ItemType::Primitive(_)
        | ItemType::Record(_)
        | ItemType::Variant(_)
        | ItemType::List(_)
        | ItemType::FixedLengthList(_, _)
        | ItemType::Tuple(_)
        | ItemType::Flags(_)
        | ItemType::Enum(_)
        | ItemType::Option(_)
        | ItemType::Result(_, _)
        | ItemType::Own(_)
        | ItemType::Borrow(_)
        | ItemType::Stream(_)
        | ItemType::Future(_)
        | ItemType::Func { .. }
        | ItemType::Resource { .. } => Ok(line),
    }
}

/// Passes the lines of the tree in a definition.
#[tactic(auto, using(crate::proofs::Held::nothing_passed, comp_list::proofs::Plain::core_exports_plain, comp_list::proofs::Plain::arguments_plain, comp_list::proofs::Plain::exports_plain, comp_list::proofs::Plain::instances_plain, comp_list::proofs::Plain::passed_plain, comp_list::proofs::Plain::alias_plain, comp_list::proofs::Plain::canon_plain, comp_list::proofs::Plain::description_plain, comp_list::proofs::Plain::described_plain, comp_list::proofs::Plain::entity_plain))]
#[cycle(trees)]
fn pass_held(around: Around<'_>, line: u64, item: &Item<'_>) -> Result<u64, Order>
    ensures { (befores : List Defs) → AllCounted around.entry befores → result ≡ pass line (leaves_verdicts (row_leaves (item_row item.now)) befores) }
{
    match item {
        Item::Component(tree) => pass_items(around, line, tree.defs.as_slice()),
        Item::CoreType(ty) => pass_core_type(around, line, ty),
        Item::Ty(ty) => pass_type(around, line, ty),
        Item::CoreModule(_)
        | Item::CoreInstantiate { .. }
        | Item::CoreBundle { .. }
        | Item::Instantiate { .. }
        | Item::Bundle { .. }
        | Item::Alias(_)
        | Item::Canon(_)
        | Item::Start { .. }
        | Item::Import { .. }
        | Item::Export { .. }
        | Item::Custom { .. }
        | Item::ExportDecl { .. }
        | Item::ModuleImport { .. }
        | Item::ModuleExport { .. } => Ok(line),
    }
}

/// Passes the lines of a definition: those of its own references, then those of the tree that it holds.
#[cycle(trees)]
fn pass_item(counts: &Counts, outer: Around<'_>, line: u64, item: &Item<'_>) -> Result<u64, Order>
    ensures { (before : Defs) (befores : List Defs) → HasCounts counts.now before → AllCounted outer.entry befores → result ≡ pass line (row_verdicts befores before (item_row item.now)) }
{
    let next = match pass_own(counts, outer, line, item) {
        Ok(line) => line,
        Err(order) => return Err(order),
    };
    let open = Before { counts, outer };
    pass_held(Around::Scope(&open), next, item)
}

/// Passes the lines of the definitions of a tree.
#[cycle(trees)]
fn pass_items(outer: Around<'_>, line: u64, items: &[Item<'_>]) -> Result<u64, Order>
    ensures { (befores : List Defs) → AllCounted outer.entry befores → result ≡ pass line (defs_verdicts (defs_listed items.now) befores no_def) }
{
    let mut counts = Counts::none();
    let mut next = line;
    for item in items {
        next = match pass_item(&counts, outer, next, item) {
            Ok(line) => line,
            Err(order) => return Err(order),
        };
        counts.add_item(item);
    }
    Ok(next)
}

/// Whether each reference of a component and of the scopes in it is to something that stands before it, by the lines of its listing
/// (`comp_list`); else the number of the first that isn't, and why (Component Model, binary format, "Index Spaces"). The tree is that of a
/// component that bytes are read as (`read` of `item_read`); of any other tree a number from 2^64 on is `u64::MAX`. It takes no memory.
pub fn order(tree: &Tree<'_>) -> Order
    ensures of_any { result ≡ capped_order (order (component_of tree.now)) }
    ensures of_read { (bytes : List ℕ) → length bytes < 2 ^ 64 → Reads bytes (component_of tree.now) → result ≡ order (component_of tree.now) }
{
    match pass_items(Around::Nothing, 0, tree.defs.as_slice()) {
        Ok(_line) => Order::Ordered,
        Err(order) => order,
    }
}
