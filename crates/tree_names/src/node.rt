//! A definition without a scope in it, resolved.

ghost use Rattle.std.specs.Prelude.{◌≡◌, ◌<◌, ◌^◌, false, length, map, MatchResult, IfOk};
ghost use Rattle.comp_scopes.specs.References.{references};
ghost use Rattle.comp_scopes.specs.Names.{first_of_two};
ghost use Rattle.comp_scopes.specs.Rowed.{holds_scope};
ghost use Rattle.comp_expanded.specs.IsExpanded.{LeavesExpanded};
ghost use Rattle.comp_tables.specs.Built.{missing, missing_roots};
ghost use Rattle.comp_tables.specs.Bounds.{most_needs};
ghost use Rattle.comp_tree.specs.Lists.{listed};
ghost use Rattle.open_scopes.specs.Indexed.{OpenIndexed};
ghost use Rattle.tree_names.specs.AllFound.{all_found, FoundFirst, FoundTaken};
ghost use Rattle.tree_names.specs.Counted.{Refused};
ghost use Rattle.tree_names.specs.Resolved.{NodeResolved};
ghost use Rattle.tree_names.specs.Room.{CountersHaveRoom};
ghost use Rattle.tree_names.specs.Served.{all_served, ServedFirst};

use crate::core_rule::CoreRule;
use crate::denotations::Denotations;
use crate::leaves::resolve_leaves;
use crate::reading::Reading;
use crate::roots::check_leaves;
use bumpalo::Bump;
use comp_tree::Leaf;
use open_scopes::{Counters, Open};
use std::alloc::Global;
use wast_parser::Error;

/// The leaves of a definition of an expanded list that holds no scope, and what has to stand before it: the roots of its paths are looked
/// at first, then its leaves, one after the other. `counters` number the items in front of it, and `denotations` hold what its names denote,
/// and which aliases serve those that lead out, as `count_leaves` found it; behind that they hold what others do, which is left. There are
/// fewer than 2^32 references, and indices below 2^32 - 1 for all that they need.
///
/// The first root of a path that the innermost scope doesn't have is `Unknown`, at the name; else the first reference, case or core module
/// that doesn't meet the rule is refused, as it is of a leaf. Otherwise want of memory is `NoMemory` at 0.
pub fn resolve_definition<'t, 'a, 'k, M: CoreRule>(
    alloc: Global,
    bump: &'t Bump,
    cores: &[M],
    scopes: &[Open<'a>],
    leaves: &[Leaf<'t, 'a>],
    counters: &Counters,
    denotations: Denotations<'k>,
) -> Result<(&'t [Leaf<'t, 'a>], Reading<'a, 'k>), Error>
    requires few { length scopes.now < 2 ^ 32 }
    requires indexed { OpenIndexed scopes.now }
    requires sized { length counters.now ≡ 13 }
    requires expanded { LeavesExpanded (listed (map M.core_module cores.now) leaves.now) }
    requires whole { holds_scope (listed (map M.core_module cores.now) leaves.now) ≡ false }
    requires kept { FoundFirst scopes.now (λ ms. all_found ms (listed (map M.core_module cores.now) leaves.now)) denotations.left.now }
    requires served { ServedFirst scopes.now counters.now (λ ms. all_served ms (listed (map M.core_module cores.now) leaves.now)) denotations.served.now }
    requires room { CountersHaveRoom counters.now (most_needs (listed (map M.core_module cores.now) leaves.now)) }
    requires numbered { references (listed (map M.core_module cores.now) leaves.now) < 2 ^ 32 }
    ensures resolves { MatchResult result (λ r. NodeResolved M.encoding scopes.now counters.now denotations.entry.served.now (listed (map M.core_module cores.now) leaves.now) (listed (map M.core_module cores.now) r.0.now) r.1) (Refused scopes.now (λ ms. first_of_two (missing_roots ms (listed (map M.core_module cores.now) leaves.now)) (missing M.encoding ms (listed (map M.core_module cores.now) leaves.now)))) }
    ensures taken { IfOk result (λ r. FoundTaken scopes.now (λ ms. all_found ms (listed (map M.core_module cores.now) leaves.now)) denotations.entry.left.now r.1.denotations.left.now) }
{
    let mut roots = denotations;
    match check_leaves(scopes, leaves, &mut roots) {
        Ok(()) => {}
        Err(refused) => return Err(refused),
    }
    let mut reading = Reading::new(alloc, counters, denotations);
    match resolve_leaves(alloc, bump, cores, scopes, leaves, &mut reading) {
        Ok(new) => Ok((new, reading)),
        Err(refused) => Err(refused),
    }
}
