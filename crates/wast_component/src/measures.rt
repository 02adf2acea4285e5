//! What is asked of a component before anything is made of it: its first form that is read and never written, and its weight.

ghost use Rattle.std.specs.Prelude.{◌≡◌, ◌≤◌, ◌⊎◌, List, map, None, Some, IfErr, OnOk};
ghost use Rattle.comp_tree.specs.Model.{scope_of};
ghost use Rattle.open_scopes.specs.Refusals.{no_memory};
ghost use Rattle.wast_component.specs.Encodable.{component_refusal, uncovered, weight_of};

use comp_tree::Scope;
use comp_walks::CoreSource;
use tree_walks::{first_form, weight_of};
use wast_parser::{Error, ErrorKind};

/// The most that a component weighs.
const WEIGHT_LIMIT: u64 = 67_108_864;

/// Refuses a component with a form that is read and never written, by the first, or one that is too heavy, in this order.
pub(crate) fn measure<M: CoreSource>(modules: &[M], scope: &Scope<'_, '_>) -> Result<(), Error>
    ensures covered { OnOk result (uncovered (scope_of (map M.core_module modules.now) scope.now) ≡ None) }
    ensures light { OnOk result (weight_of (scope_of (map M.core_module modules.now) scope.now) ≤ 67_108_864) }
    ensures refused { IfErr result (λ e. component_refusal (scope_of (map M.core_module modules.now) scope.now) ≡ Some e) }
{
    match first_form(modules, scope) {
        Some(form) => {
            return Err(Error {
                kind: ErrorKind::Form(form.form),
                offset: form.offset,
            });
        }
        None => {}
    }
    let weight = weight_of(modules, scope);
    if weight > WEIGHT_LIMIT {
        return Err(Error {
            kind: ErrorKind::TooBig {
                found: weight,
                limit: WEIGHT_LIMIT,
            },
            offset: 0,
        });
    }
    Ok(())
}
