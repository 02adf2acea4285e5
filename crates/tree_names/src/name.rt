//! Names and paths, looked up among open scopes.

ghost use Rattle.std.specs.Prelude.{◌≡◌, ◌<◌, ◌^◌, ◌+◌, ◌∷◌, [], List, length, None, MatchResult, IfErr, IfOk, OnOk};
ghost use Rattle.comp_scopes.specs.References.{instance_space};
ghost use Rattle.comp_tables.specs.Tables.{Counters, Opened, found, found_path_index};
ghost use Rattle.comp_tables.specs.Built.{missing_name, missing_root};
ghost use Rattle.comp_walks.specs.Lent.{id_of, reach_of};
ghost use Rattle.comp_tree.specs.Model.{root_of, path_from};
ghost use Rattle.open_scopes.specs.Indexed.{OpenIndexed};
ghost use Rattle.open_scopes.specs.Refusals.{no_memory};
ghost use Rattle.open_scopes.specs.Shown.{OpenScopesShow};
ghost use Rattle.tree_names.specs.AllFound.{name_found, root_found, FoundFirst, FoundTaken};
ghost use Rattle.tree_names.specs.Counted.{Refused, RefusedBy};
ghost use Rattle.tree_names.specs.Read.{NameRead, PathRead, OuterMade, OuterRead, StepMade};
ghost use Rattle.tree_names.specs.Rooted.{Rooted};
ghost use Rattle.tree_names.specs.Room.{CountersHaveRoom, HasRoom};

use crate::denotations::Denotations;
use crate::generated::Generated;
use crate::path::instance_space;
use crate::reading::{Reading, refer};
use comp_model::Space;
use comp_walks::Reach;
use open_scopes::{Found, Open, index_of, leads_out, missing_name};
use wast_parser::{Error, Id, Index};

/// The refusal of a name that denotes nothing.
pub(crate) fn refuse_name(scopes: &[Open<'_>], reach: Reach<'_>, id: Id<'_>) -> Error
    ensures { RefusedBy scopes.now (λ ms. missing_name ms (reach_of reach.entry) (id_of id.entry) None) result }
{
    match missing_name(scopes, reach, id, None) {
        Some(refused) => refused,
        None => unreachable!(),
    }
}

/// Passes a name that leads out, with an alias of its own: one of what was found stands before the definition, and its index is the answer.
fn generate_outer<'a>(
    space: Space,
    found: Found,
    index: u32,
    reading: &mut Reading<'a, '_>,
) -> Result<u32, Error>
    requires sized { length reading.old.counters ≡ 13 }
    requires room { HasRoom reading.old 1 1 }
    ensures done { IfOk result (λ i. OuterMade space found.depth index reading.old reading.new i) }
    ensures refused { IfErr result (λ e. e ≡ no_memory) }
{
    let place = reading.place;
    let next = reading.counters.of(space);
    reading.generate(
        space,
        Generated::Outer {
            depth: found.depth,
            space,
            index,
            place,
        },
    )?;
    refer(&mut reading.place);
    Ok(next)
}

/// Passes a name that leads out: the alias that serves it, which stood before, or its own.
fn resolve_outer<'a>(
    space: Space,
    found: Found,
    index: u32,
    reading: &mut Reading<'a, '_>,
) -> Result<u32, Error>
    requires sized { length reading.old.counters ≡ 13 }
    requires room { HasRoom reading.old 1 1 }
    ensures done { IfOk result (λ i. OuterRead space found.depth index reading.old reading.new i) }
    ensures refused { IfErr result (λ e. e ≡ no_memory) }
{
    match reading.denotations.next_alias() {
        Some(alias) => {
            refer(&mut reading.place);
            Ok(alias)
        }
        None => match generate_outer(space, found, index, reading) {
            Ok(next) => Ok(next),
            Err(refused) => Err(refused),
        },
    }
}

/// Passes a name: its index is that of what was found for it, or that of an alias where it leads out.
pub(crate) fn resolve_name<'a>(
    scopes: &[Open<'a>],
    space: Space,
    reach: Reach<'_>,
    id: Id<'a>,
    reading: &mut Reading<'a, '_>,
) -> Result<u32, Error>
    requires indexed { OpenIndexed scopes.now }
    requires sized { length reading.old.counters ≡ 13 }
    requires kept { FoundFirst scopes.now (λ ms. name_found ms space (reach_of reach) (id_of id) ∷ []) reading.old.denotations.left.now }
    requires room { HasRoom reading.old 1 1 }
    ensures { MatchResult result (λ i. NameRead scopes.now space (reach_of reach.entry) (id_of id.entry) reading.old reading.new i) (Refused scopes.now (λ ms. missing_name ms (reach_of reach.entry) (id_of id.entry) (found ms space (reach_of reach.entry) (id_of id.entry)))) }
{
    match reading.denotations.next() {
        Some(found) => {
            let index = index_of(scopes, found);
            if leads_out(reach, Some(found)) {
                match resolve_outer(space, found, index, reading) {
                    Ok(next) => Ok(next),
                    Err(refused) => Err(refused),
                }
            } else {
                refer(&mut reading.place);
                Ok(index)
            }
        }
        None => Err(refuse_name(scopes, reach, id)),
    }
}

/// The index of the root of a path, which was looked for in the innermost scope alone. That it is there was looked at before.
fn resolve_root<'a>(
    scopes: &[Open<'a>],
    space: Space,
    root: Index<'a>,
    denotations: &mut Denotations<'_>,
) -> u32
    requires indexed { OpenIndexed scopes.now }
    requires rooted { Rooted scopes.now (λ ms. missing_root ms space (root_of root)) }
    requires kept { FoundFirst scopes.now (λ ms. root_found ms space (root_of root)) denotations.old.left.now }
    ensures taken { FoundTaken scopes.now (λ ms. root_found ms space (root_of root.entry)) denotations.old.left.now denotations.new.left.now }
    ensures served { denotations.new.served ≡ denotations.old.served }
    ensures index { (ms : List Opened) (c : Counters) → OpenScopesShow scopes.now ms → result ≡ found_path_index ms space (root_of root.entry) c }
{
    match root {
        Index::Num(number, _) => number,
        Index::Id(_) => match denotations.next() {
            Some(found) => index_of(scopes, found),
            None => unreachable!(),
        },
    }
}

/// One step of a path, from the instance of an index to its export of a name, an item of a space: the index of its alias.
fn resolve_step<'a>(
    space: Space,
    index: u32,
    name: &'a str,
    step: u32,
    reading: &mut Reading<'a, '_>,
) -> Result<u32, Error>
    requires sized { length reading.old.counters ≡ 13 }
    requires room { CountersHaveRoom reading.old.counters 1 }
    ensures done { IfOk result (λ i. StepMade space index name.now step reading.old reading.new i) }
    ensures refused { IfErr result (λ e. e ≡ no_memory) }
{
    let place = reading.place;
    let next = reading.counters.of(space);
    reading.generate(
        space,
        Generated::Step {
            space,
            index,
            name,
            place,
            step,
        },
    )?;
    Ok(next)
}

/// Passes the steps of a path to an item of a space, whose root is there: the index of its last alias.
pub(crate) fn resolve_steps<'a>(
    scopes: &[Open<'a>],
    space: Space,
    root: Index<'a>,
    exports: &[&'a str],
    reading: &mut Reading<'a, '_>,
) -> Result<u32, Error>
    requires indexed { OpenIndexed scopes.now }
    requires sized { length reading.old.counters ≡ 13 }
    requires some { 0 < length exports.now }
    requires room { CountersHaveRoom reading.old.counters (length exports.now) }
    requires rooted { Rooted scopes.now (λ ms. missing_root ms (instance_space space) (root_of root)) }
    requires kept { FoundFirst scopes.now (λ ms. root_found ms (instance_space space) (root_of root)) reading.old.denotations.left.now }
    ensures taken { OnOk result (FoundTaken scopes.now (λ ms. root_found ms (instance_space space) (root_of root.entry)) reading.old.denotations.left.now reading.new.denotations.left.now) }
    ensures served { OnOk result (reading.new.denotations.served ≡ reading.old.denotations.served) }
    ensures path { IfOk result (λ i. PathRead scopes.now space (path_from (root_of root.entry) exports.now) reading.old reading.new i) }
    ensures refused { IfErr result (λ e. e ≡ no_memory) }
{
    let last = exports.len() - 1;
    let inner = instance_space(space);
    let mut index = resolve_root(scopes, inner, root, &mut reading.denotations);
    for step in 0..last {
        index = resolve_step(inner, index, exports[step], step as u32, reading)?;
    }
    let end = resolve_step(space, index, exports[last], last as u32, reading)?;
    Ok(end)
}
