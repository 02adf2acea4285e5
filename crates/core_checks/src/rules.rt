//! The first rule that a module breaks.

ghost use Rattle.std.specs.Prelude.{◌≡◌, ◌<◌, ◌^◌, IfOk, IfErr, OnOk, None};
ghost use Rattle.core_model.specs.Rule.{core_rule};
ghost use Rattle.core_model.specs.Weight.{core_weight};
ghost use Rattle.core_syntax.specs.Fields.{fields_of};
ghost use Rattle.core_names.specs.ModuleIds.{AreNamesOf};
ghost use Rattle.core_checks.specs.Refusals.{IsRefused};

use crate::fields::check_fields;
use crate::ids::names_of;
use crate::order::check_order;
use crate::scope::ModuleScope;
use core_names::ModuleNames;
use core_syntax::ModuleField;
use std::alloc::Global;
use wast_parser::Error;

/// The ids of a module's fields, space by space, and what the names in its instructions mean, where no rule of core modules is broken.
///
/// Otherwise the refusal is that of the first rule that is broken. Rules are looked for in this order:
///
/// - an import behind a definition that is no import is `ImportOrder`, at the first word of its field;
/// - an id that an earlier item of its space has is `Duplicate`, at the second;
/// - then field by field. A name that no item of its space bears is `Unknown`, at the name: in types, in type uses, in instructions and
///   of an export, whose kind says which space. An index beside a signature that isn't that of the written type at the index is
///   `TypeMismatch`, at the index, behind the names in both. An id that an earlier parameter or local of its function has is
///   `Duplicate`, at the second, behind the name in its type.
///
/// Want of memory is `NoMemory` at 0. The fields weigh less than 2^31 (`core_weight`), so that each item has an index (WebAssembly, text
/// format, Modules).
pub fn check_rules<'a>(alloc: Global, fields: &[ModuleField<'a>]) -> Result<ModuleNames<'a>, Error>
    requires weight { core_weight (fields_of fields.now) < 2 ^ 31 }
    ensures kept { OnOk result (core_rule (fields_of fields.now) ≡ None) }
    ensures names { IfOk result (λ n. AreNamesOf n (fields_of fields.now)) }
    ensures refused { IfErr result (IsRefused (core_rule (fields_of fields.now))) }
{
    check_order(fields)?;
    let scope = ModuleScope::new(alloc, fields, names_of(alloc, fields)?)?;
    let mut places = Vec::new(alloc);
    check_fields(alloc, &scope, scope.fields(), &mut places)?;
    Ok(scope.into_names(places))
}
