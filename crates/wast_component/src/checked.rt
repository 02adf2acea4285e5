//! The core modules beside a tree, with the refusals by their rules.

ghost use Rattle.std.specs.Prelude.{◌≡◌, [], map, option_map, IfOk};
ghost use Rattle.comp_scopes.specs.Unmet.{unmet_core};
ghost use Rattle.comp_tree.specs.Model.{id_of, lent_text};
ghost use Rattle.core_model.specs.Module.{module_with};
ghost use Rattle.core_model.specs.Rule.{core_rule};
ghost use Rattle.core_syntax.specs.Fields.{fields_of};
ghost use Rattle.open_scopes.specs.Refusals.{refusal_of};
ghost use Rattle.tree_build.specs.Cores.{module_of};
ghost use Rattle.wast_component.specs.Entry.{entry_of};
ghost use Rattle.wast_component.specs.Modules.{ruled_fields, modules_of, IsRuled, AreRuled};

use crate::module::{Module, empty_module, module_by};
use crate::ruled::{Ruled, refusal_of};
use comp_walks::{CoreSource, Uncovered};
use std::alloc::{AllocError, Global};
use tree_names::CoreRule;
use tree_read::NamedModule;
use wast_parser::Error;

/// A core module with the refusal of the first rule that it breaks.
#[derive(Clone, Copy)]
pub(crate) struct Checked<'t, 'a> {
    parsed: Module<'t, 'a>,
    refusal: Option<Error>,
    ghost ruled: { refusal ≡ option_map refusal_of (unmet_core (core_rule (entry_of parsed).fields)) },
}

impl CoreSource for Checked<'_, '_> {
    ghost use Rattle.wast_component.specs.Entry.{entry_of};

    ghost core_module = { λ c. entry_of c.parsed };

    fn weight(&self) -> u64 {
        self.parsed.weight()
    }

    fn first_uncovered(&self) -> Option<Uncovered> {
        self.parsed.first_uncovered()
    }
}

impl CoreRule for Checked<'_, '_> {
    ghost use Rattle.wast_component.specs.Modules.{numbered_encoding};

    ghost encoding = { numbered_encoding };

    fn refusal(&self) -> Option<Error> {
        self.refusal
    }
}

/// A module of these names, with the refusal by its rule.
fn checked_by<'t, 'a>(named: &NamedModule<'a>, ruled: &'t Ruled<'a>) -> Checked<'t, 'a>
    requires { IsRuled ruled.now }
    ensures { entry_of result.parsed ≡ module_with (record { id = option_map id_of named.now.id; label = option_map lent_text named.now.label }) (fields_of ruled.now.fields.items) }
{
    let parsed = module_by(named, ruled.fields.as_slice());
    let refusal = refusal_of(ruled);
    Checked { parsed, refusal }
}

/// A module of these names without fields, which breaks no rule.
fn checked_empty<'t, 'a>(named: &NamedModule<'a>) -> Checked<'t, 'a>
    ensures { entry_of result.parsed ≡ module_with (record { id = option_map id_of named.now.id; label = option_map lent_text named.now.label }) [] }
{
    let parsed = empty_module(named);
    let refusal = None;
    Checked { parsed, refusal }
}

/// The module of an entry, with the refusal by its rule.
fn checked_module<'t, 'a>(all: &'t [Ruled<'a>], named: &NamedModule<'a>) -> Checked<'t, 'a>
    requires { AreRuled all.now }
    ensures { entry_of result.parsed ≡ module_of (ruled_fields all.now) named.now }
{
    if named.fields < all.len() {
        checked_by(named, &all[named.fields])
    } else {
        checked_empty(named)
    }
}

/// The core modules of a tree, with the refusals by their rules.
pub(crate) fn checked_modules<'t, 'a>(
    alloc: Global,
    all: &'t [Ruled<'a>],
    named: &[NamedModule<'a>],
) -> Result<Vec<Checked<'t, 'a>>, AllocError>
    requires ruled { AreRuled all.now }
    ensures { IfOk result (λ v. map (λ c. entry_of c.parsed) v.items ≡ modules_of (ruled_fields all.now) named.now) }
{
    let mut modules = Vec::new(alloc);
    for one in named {
        modules.push(checked_module(all, one))?;
    }
    Ok(modules)
}
