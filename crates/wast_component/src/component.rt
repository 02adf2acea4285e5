//! The encoding of a component by its tree: measured, expanded, resolved and written.

ghost use Rattle.std.specs.Prelude.{◌≡◌, ◌≤◌, ◌-◌, ◌*◌, ◌<◌, ◌^◌, ◌⊎◌, List, [], None, Some, is_some, map, option_map, IfOk, IfErr, OnOk};
ghost use Rattle.comp_model.specs.CoreModules.{CoreModule};
ghost use Rattle.comp_model.specs.Model.{Scope as ModelScope};
ghost use Rattle.comp_expanded.specs.IsResolved.{IsResolved};
ghost use Rattle.comp_scopes.specs.Form.{form, plan};
ghost use Rattle.comp_scopes.specs.Resolved.{binary_of};
ghost use Rattle.comp_scopes.specs.Rule.{ScopeRule};
ghost use Rattle.comp_scopes.specs.Unmet.{first_unmet};
ghost use Rattle.comp_tree.specs.Marks.{marks_of};
ghost use Rattle.comp_tree.specs.Model.{scope_of};
ghost use Rattle.comp_weight.specs.Cost.{cost_scope};
ghost use Rattle.comp_wire.specs.Read.{FitsComponent, Reads};
ghost use Rattle.open_scopes.specs.Refusals.{no_memory, refusal_of};
ghost use Rattle.tree_build.specs.Cores.{cores_of};
ghost use Rattle.tree_names.specs.Size.{size_of_scope};
ghost use Rattle.tree_resolve.specs.Planned.{planned_of};
ghost use Rattle.tree_resolve.specs.Source.{IsSource};
ghost use Rattle.tree_write.specs.Wire.{the_encoding, wire_scope};
ghost use Rattle.wast_component.specs.Encodable.{IsEncodable, IsWrittenAs, component_refusal, uncovered, weight_of};
ghost use Rattle.wast_component.specs.Modules.{all_fields, ruled_fields, modules_of, numbered_encoding, AreLight, AreResolved, AreRuled, AreWritable};
ghost use Rattle.wast_component.specs.Shown.{Shows};
ghost use Rattle.wast_component.specs.Whole.{IsOfText, in_text};

use crate::checked::checked_modules;
use crate::coded::coded_modules;
use crate::light::light_modules;
use crate::measures::measure;
use crate::module::parsed_modules;
use crate::ruled::Ruled;
use crate::rules::{number_modules, rules_of};
use bumpalo::Bump;
use comp_tree::Scope;
use comp_wire::ScopeOrigins;
use core_syntax::ModuleField;
use std::alloc::{AllocError, Global};
use tree_expand::expand;
use tree_read::{Cores, NamedModule};
use tree_resolve::{planned_origins, resolve};
use tree_write::encode_scope;
use wast_parser::{Error, Gensym};

/// The binary of a component, and where each definition in it comes from, if that was asked for.
#[derive(Drop)]
pub(crate) struct Written {
    pub(crate) bytes: Vec<u8>,
    pub(crate) origins: Option<ScopeOrigins>,
}

/// What is asked of a component, with its core modules as they were read.
fn measure_modules<'a>(
    alloc: Global,
    all: &[Vec<ModuleField<'a>>],
    named: &[NamedModule<'a>],
    scope: &Scope<'a, 'a>,
) -> Result<(), Error>
    ensures covered { OnOk result (uncovered (scope_of (modules_of (all_fields all.now) named.now) scope.now) ≡ None) }
    ensures light { OnOk result (weight_of (scope_of (modules_of (all_fields all.now) named.now) scope.now) ≤ 67_108_864) }
    ensures refused { IfErr result (λ e. (e ≡ no_memory) ⊎ (component_refusal (scope_of (modules_of (all_fields all.now) named.now) scope.now) ≡ Some e)) }
{
    match parsed_modules(alloc, all, named) {
        Ok(modules) => measure(modules.as_slice(), scope),
        Err(error) => Err(Error::from(error)),
    }
}

/// An expanded component, resolved.
fn resolve_modules<'a>(
    alloc: Global,
    bump: &'a Bump,
    all: &[Ruled<'a>],
    named: &[NamedModule<'a>],
    scope: &Scope<'a, 'a>,
) -> Result<Scope<'a, 'a>, Error>
    requires ruled { AreRuled all.now }
    requires source { (s : ModelScope) × IsSource s (scope_of (modules_of (ruled_fields all.now) named.now) scope.now) (marks_of (modules_of (ruled_fields all.now) named.now) scope.now) }
    requires small { 2 * size_of_scope (scope_of (modules_of (ruled_fields all.now) named.now) scope.now) < 2 ^ 32 - 2 }
    ensures rule { OnOk result ((s : ModelScope) → IsSource s (scope_of (modules_of (ruled_fields all.now) named.now) scope.now) (marks_of (modules_of (ruled_fields all.now) named.now) scope.now) → ScopeRule the_encoding [] s) }
    ensures form { IfOk result (λ new. (s : ModelScope) → IsSource s (scope_of (modules_of (ruled_fields all.now) named.now) scope.now) (marks_of (modules_of (ruled_fields all.now) named.now) scope.now) → binary_of numbered_encoding (scope_of (modules_of (ruled_fields all.now) named.now) new) ≡ form the_encoding [] s) }
    ensures plan { IfOk result (λ new. (s : ModelScope) → IsSource s (scope_of (modules_of (ruled_fields all.now) named.now) scope.now) (marks_of (modules_of (ruled_fields all.now) named.now) scope.now) → planned_of (modules_of (ruled_fields all.now) named.now) new ≡ plan the_encoding [] s) }
    ensures resolved { IfOk result (λ new. IsResolved (scope_of (modules_of (ruled_fields all.now) named.now) new)) }
    ensures refused { IfErr result (λ x. (x ≡ no_memory) ⊎ ((s : ModelScope) → IsSource s (scope_of (modules_of (ruled_fields all.now) named.now) scope.now) (marks_of (modules_of (ruled_fields all.now) named.now) scope.now) → option_map refusal_of (first_unmet the_encoding [] s) ≡ Some x)) }
{
    match checked_modules(alloc, all, named) {
        Ok(modules) => match resolve(alloc, bump, modules.as_slice(), scope) {
            Ok(resolved) => Ok(resolved),
            Err(refusal) => Err(refusal),
        },
        Err(error) => Err(Error::from(error)),
    }
}

/// The bytes of a resolved component, the names of whose core modules are numbers.
fn write_modules<'a>(
    alloc: Global,
    all: &[Vec<ModuleField<'a>>],
    named: &[NamedModule<'a>],
    scope: &Scope<'a, 'a>,
) -> Result<Vec<u8>, Error>
    requires resolved { AreResolved (all_fields all.now) }
    requires writable { AreWritable (modules_of (all_fields all.now) named.now) }
    requires fits { FitsComponent (wire_scope (modules_of (all_fields all.now) named.now) scope.now) }
    requires cost { cost_scope (wire_scope (modules_of (all_fields all.now) named.now) scope.now) < 2 ^ 32 }
    ensures reads { IfOk result (λ v. Reads v.items (wire_scope (modules_of (all_fields all.now) named.now) scope.now)) }
    ensures refused { IfErr result (λ e. e ≡ no_memory) }
{
    match coded_modules(alloc, all, named) {
        Ok(modules) => encode_scope(alloc, modules.as_slice(), scope),
        Err(error) => Err(Error::from(error)),
    }
}

/// The marks of a resolved component, if they are to be recorded.
fn marks<'a>(
    alloc: Global,
    scope: &Scope<'a, 'a>,
    recorded: bool,
) -> Result<Option<ScopeOrigins>, AllocError>
    ensures shown { (cores : List CoreModule) → IfOk result (λ given. Shows given (planned_of cores scope.now)) }
    ensures recorded { IfOk result (λ given. is_some given ≡ recorded) }
{
    if recorded {
        let origins = planned_origins(alloc, scope)?;
        Ok(Some(origins))
    } else {
        Ok(None)
    }
}

/// A resolved component, written: its bytes, and its marks if they are to be recorded.
fn write_component<'a>(
    alloc: Global,
    ruled: Vec<Ruled<'a>>,
    named: &[NamedModule<'a>],
    scope: &Scope<'a, 'a>,
    recorded: bool,
) -> Result<Written, Error>
    requires ruled { AreRuled ruled.items }
    requires light { AreLight (modules_of (ruled_fields ruled.items) named.now) }
    requires resolved { IsResolved (scope_of (modules_of (ruled_fields ruled.items) named.now) scope.now) }
    requires fits { FitsComponent (binary_of numbered_encoding (scope_of (modules_of (ruled_fields ruled.items) named.now) scope.now)) }
    requires cost { cost_scope (binary_of numbered_encoding (scope_of (modules_of (ruled_fields ruled.items) named.now) scope.now)) < 2 ^ 32 }
    ensures reads { IfOk result (λ w. Reads w.bytes.items (binary_of numbered_encoding (scope_of (modules_of (ruled_fields ruled.entry.items) named.now) scope.now))) }
    ensures marks { IfOk result (λ w. Shows w.origins (planned_of (modules_of (ruled_fields ruled.entry.items) named.now) scope.now)) }
    ensures recorded { IfOk result (λ w. is_some w.origins ≡ recorded) }
    ensures refused { IfErr result (λ e. e ≡ no_memory) }
{
    let numbered = match number_modules(alloc, ruled) {
        Ok(numbered) => numbered,
        Err(error) => return Err(Error::from(error)),
    };
    let bytes = match write_modules(alloc, numbered.as_slice(), named, scope) {
        Ok(bytes) => bytes,
        Err(refusal) => return Err(refusal),
    };
    match marks(alloc, scope, recorded) {
        Ok(origins) => Ok(Written { bytes, origins }),
        Err(error) => Err(Error::from(error)),
    }
}

/// The encoding of a component that was read: its form is written, and its plan are the origins, which take memory only where they are to
/// be recorded.
///
/// It is refused by the first form in it that is read and never written (`Form`), by its weight (`TooBig`), or by the first demand on its
/// names and core modules that it doesn't meet, in this order; for want of memory at any time.
pub(crate) fn encode_component<'a>(
    alloc: Global,
    bump: &'a Bump,
    scope: &'a Scope<'a, 'a>,
    cores: Cores<'a>,
    recorded: bool,
) -> Result<Written, Error>
    requires text { IsOfText (in_text (scope_of (cores_of cores) scope.now)) }
    ensures encodable { OnOk result (IsEncodable (scope_of (cores_of cores.entry) scope.now)) }
    ensures written { IfOk result (λ w. IsWrittenAs (scope_of (cores_of cores.entry) scope.now) w.bytes.items w.origins) }
    ensures recorded { IfOk result (λ w. is_some w.origins ≡ recorded) }
    ensures refused { IfErr result (λ e. (e ≡ no_memory) ⊎ (component_refusal (scope_of (cores_of cores.entry) scope.now) ≡ Some e)) }
{
    let Cores { fields, modules } = cores;
    match measure_modules(alloc, fields.as_slice(), modules.as_slice(), scope) {
        Ok(()) => {}
        Err(refusal) => return Err(refusal),
    }
    let mut gensym = Gensym::new();
    let expanded = match expand(alloc, bump, scope, &mut gensym) {
        Ok(expanded) => expanded,
        Err(refusal) => return Err(refusal),
    };
    let light = match light_modules(alloc, fields.as_slice(), modules.as_slice()) {
        Ok(light) => light,
        Err(error) => return Err(Error::from(error)),
    };
    let ruled = match rules_of(alloc, fields) {
        Ok(ruled) => ruled,
        Err(error) => return Err(Error::from(error)),
    };
    let resolved = match resolve_modules(
        alloc,
        bump,
        ruled.as_slice(),
        light.as_slice(),
        &expanded,
    ) {
        Ok(resolved) => resolved,
        Err(refusal) => return Err(refusal),
    };
    write_component(alloc, ruled, light.as_slice(), &resolved, recorded)
}
