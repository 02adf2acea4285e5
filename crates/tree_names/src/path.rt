//! Paths of export names.

ghost use Rattle.std.specs.Prelude.{◌≡◌, ◌<◌, length};
ghost use Rattle.comp_scopes.specs.References.{instance_space};
ghost use Rattle.comp_scopes.specs.Rule.{path_allowed};
ghost use Rattle.comp_tables.specs.Tables.{Counters as ModelCounters, past_path};
ghost use Rattle.comp_tables.specs.Walks.{counters_in};
ghost use Rattle.comp_tree.specs.Model.{root_of, path_from};
ghost use Rattle.tree_names.specs.Room.{CountersHaveRoom};

use crate::sums::declare;
use comp_model::Space;
use open_scopes::Counters;
use wast_parser::Index;

/// The space of the instance that exports an item of a space.
pub fn instance_space(space: Space) -> Space
    ensures { result ≡ instance_space space }
{
    match space {
        Space::CoreFunc
        | Space::CoreTable
        | Space::CoreMemory
        | Space::CoreGlobal
        | Space::CoreTag
        | Space::CoreType
        | Space::CoreInstance => Space::CoreInstance,
        _ => Space::Instance,
    }
}

/// Whether an export name may lead to an item of a space: to all but core types and core instances.
pub(crate) fn path_allowed(space: Space) -> bool
    ensures { result ≡ path_allowed space }
{
    match space {
        Space::CoreType | Space::CoreInstance => false,
        _ => true,
    }
}

/// Passes the aliases of a path to an item of a space, for which there are indices below 2^32 - 1.
pub(crate) fn count_steps(space: Space, root: Index<'_>, exports: &[&str], counters: &mut Counters)
    requires sized { length counters.old ≡ 13 }
    requires some { 0 < length exports.now }
    requires room { CountersHaveRoom counters.old (length exports.now) }
    ensures counters { (c : ModelCounters) → counters_in counters.old ≡ c.counts → counters_in counters.new ≡ (past_path space (path_from (root_of root.entry) exports.now) c).counts }
    ensures sized { length counters.new ≡ 13 }
{
    let inner = instance_space(space);
    let last = exports.len() - 1;
    for _ in 0..last {
        declare(counters, inner);
    }
    declare(counters, space);
}
