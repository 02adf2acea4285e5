//! The rule of core modules.

ghost use Rattle.std.specs.Prelude.{◌≡◌, None, Some, map, option_map, MatchResult};
ghost use Rattle.comp_scopes.specs.Encoding.{Encoding};
ghost use Rattle.comp_scopes.specs.Unmet.{unmet_core};
ghost use Rattle.comp_tree.specs.Model.{core_at};
ghost use Rattle.tree_names.specs.CoreLeaf.{missing_core};
ghost use Rattle.open_scopes.specs.Refusals.{refusal_of};

use comp_walks::CoreSource;
use wast_parser::Error;

/// A core module in a tree, with its rule.
pub trait CoreRule: CoreSource {
    /// The rule and the bytes of core modules.
    ghost encoding: { Encoding };

    /// The refusal of the first rule that it breaks.
    fn refusal(&self) -> Option<Error>
        ensures { result ≡ option_map refusal_of (unmet_core (encoding.core_refusal (Self.core_module self.now))) };
}

/// Asks the core module of a number for its rule. Where there is none, nothing is asked.
pub(crate) fn check_core<M: CoreRule>(cores: &[M], core: usize) -> Result<(), Error>
    ensures { MatchResult result (λ done. missing_core M.encoding (core_at (map M.core_module cores.now) core) ≡ None) (λ x. option_map refusal_of (missing_core M.encoding (core_at (map M.core_module cores.now) core)) ≡ Some x) }
{
    if core >= cores.len() {
        return Ok(());
    }
    match cores[core].refusal() {
        Some(refused) => Err(refused),
        None => Ok(()),
    }
}
