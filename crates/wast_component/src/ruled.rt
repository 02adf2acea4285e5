//! The fields of a core module with their rule.

ghost use Rattle.std.specs.Prelude.{◌≡◌, option_map};
ghost use Rattle.comp_scopes.specs.Unmet.{unmet_core};
ghost use Rattle.core_model.specs.Rule.{core_rule};
ghost use Rattle.core_syntax.specs.Fields.{fields_of};
ghost use Rattle.open_scopes.specs.Refusals.{refusal_of};
ghost use Rattle.wast_component.specs.Modules.{IsRuled};

use core_names::ModuleNames;
use core_syntax::ModuleField;
use wast_parser::Error;

/// The fields of a core module, with the ids of its spaces or the refusal of the first rule that it breaks.
#[derive(Drop)]
pub(crate) struct Ruled<'a> {
    pub(crate) fields: Vec<ModuleField<'a>>,
    pub(crate) names: Result<ModuleNames<'a>, Error>,
}

/// The refusal of the first rule that fields break.
pub(crate) fn refusal_of(ruled: &Ruled<'_>) -> Option<Error>
    requires { IsRuled ruled.now }
    ensures { result ≡ option_map refusal_of (unmet_core (core_rule (fields_of ruled.now.fields.items))) }
{
    match &ruled.names {
        Ok(_) => None,
        Err(refusal) => Some(*refusal),
    }
}
