//! The whole: an expanded scope, resolved.

ghost use Rattle.std.specs.Prelude.{◌≡◌, ◌<◌, ◌^◌, ◌-◌, ◌*◌, [], List, map, OnOk, IfOk, IfErr, ◌⊎◌, Some, option_map};
ghost use Rattle.comp_model.specs.CoreModules.{CoreModule};
ghost use Rattle.comp_model.specs.Model.{Scope as ModelScope};
ghost use Rattle.comp_scopes.specs.Form.{form, plan};
ghost use Rattle.comp_scopes.specs.Resolved.{binary_of};
ghost use Rattle.comp_scopes.specs.Rule.{ScopeRule};
ghost use Rattle.comp_scopes.specs.Unmet.{first_unmet};
ghost use Rattle.comp_expanded.specs.IsResolved.{IsResolved};
ghost use Rattle.comp_expanded.specs.WrittenMarks.{written_marks};
ghost use Rattle.comp_tree.specs.Marks.{marks_of};
ghost use Rattle.comp_tree.specs.Model.{scope_of};
ghost use Rattle.open_scopes.specs.Refusals.{refusal_of, no_memory};
ghost use Rattle.tree_names.specs.Size.{size_of_scope};
ghost use Rattle.tree_resolve.specs.Planned.{planned_of};
ghost use Rattle.tree_resolve.specs.Source.{IsSource};

use crate::scope::resolve_scope;
use bumpalo::Bump;
use comp_tree::Scope;
use std::alloc::Global;
use tree_names::CoreRule;
use wast_parser::Error;

/// Resolves an expanded component, with the scopes in it: each reference becomes the index of what it names, and the first part of an outer
/// alias the number of scopes outward (Component Model text format, "Index Spaces", "Alias Definitions"). Before a definition stands, in
/// the order of its references, an outer alias of each item of an enclosing scope that it is the first of its scope to name, and the alias of an export for each export
/// name of its paths. `cores` are the core modules that the tree names by number.
///
/// It needs the expansion of a component of the text, with its marks. A definition of that component that holds a scope holds nothing else,
/// as in the table of rows. It is not too large for indices of 32 bits, of items and aliases alike: its size is below 2^31 - 1. The scope that comes of it is made in the arena and shares what was left as it was; it stands for that component's form,
/// and its marks, with that of the name section behind those of a component with a name, are the plan. A component that is resolved already
/// stays what it stands for.
///
/// It is refused exactly by the first demand of the rule on names that the component doesn't meet, at its offset. Of each scope these are,
/// in order:
/// - `Duplicate` at the second of two declarations of one space with one id;
/// - definition by definition, `OuterKind` at a name that leads to an enclosing scope, to an item of which there is no outer alias, and
///   `CoreExportKind` at the root of a path to a core type or a core instance;
/// - definition by definition, `Unknown` at the root of a path that the scope doesn't have; then, in each from left to right: `Unknown` at a
///   name that no declaration bears; at the word `alias` `OuterComponent`, where no open scope bears the id that is the first part, and
///   `OuterCount`, where the item is named and no scope stands that many outward; `Duplicate` at the second of two cases of one variant
///   with one id; the first rule that a core module breaks; of a scope, all that is asked of its own definitions.
///
/// Otherwise want of memory is `NoMemory` at 0: it comes of a refused allocation alone.
pub fn resolve<'t, 'a, M: CoreRule>(
    alloc: Global,
    bump: &'t Bump,
    cores: &[M],
    scope: &Scope<'t, 'a>,
) -> Result<Scope<'t, 'a>, Error>
    requires small { 2 * size_of_scope (scope_of (map M.core_module cores.now) scope.now) < 2 ^ 32 - 2 }
    requires source { (s : ModelScope) × IsSource s (scope_of (map M.core_module cores.now) scope.now) (marks_of (map M.core_module cores.now) scope.now) }
    ensures rule { OnOk result ((s : ModelScope) → IsSource s (scope_of (map M.core_module cores.now) scope.now) (marks_of (map M.core_module cores.now) scope.now) → ScopeRule M.encoding [] s) }
    ensures form { IfOk result (λ new. (s : ModelScope) → IsSource s (scope_of (map M.core_module cores.now) scope.now) (marks_of (map M.core_module cores.now) scope.now) → binary_of M.encoding (scope_of (map M.core_module cores.now) new) ≡ form M.encoding [] s) }
    ensures plan { IfOk result (λ new. (s : ModelScope) → IsSource s (scope_of (map M.core_module cores.now) scope.now) (marks_of (map M.core_module cores.now) scope.now) → planned_of (map M.core_module cores.now) new ≡ plan M.encoding [] s) }
    ensures same { IfOk result (λ new. (s : ModelScope) → IsSource s (scope_of (map M.core_module cores.now) scope.now) (marks_of (map M.core_module cores.now) scope.now) → IsResolved s → (binary_of M.encoding (scope_of (map M.core_module cores.now) new) ≡ binary_of M.encoding s) × (planned_of (map M.core_module cores.now) new ≡ written_marks s)) }
    ensures resolved { IfOk result (λ new. IsResolved (scope_of (map M.core_module cores.now) new)) }
    ensures refused { IfErr result (λ x. (x ≡ no_memory) ⊎ ((s : ModelScope) → IsSource s (scope_of (map M.core_module cores.now) scope.now) (marks_of (map M.core_module cores.now) scope.now) → option_map refusal_of (first_unmet M.encoding [] s) ≡ Some x)) }
{
    let mut scopes = Vec::new(alloc);
    match resolve_scope(alloc, bump, cores, &mut scopes, scope) {
        Ok(new) => Ok(new),
        Err(refused) => Err(refused),
    }
}
