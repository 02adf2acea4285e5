//! Names in the fields of a core module become numbers.

ghost use Rattle.std.specs.Prelude.{◌≡◌, ◌<◌, ◌≤◌, ◌^◌, true, None, IfErr, OnOk};
ghost use Rattle.comp_model.specs.CoreModules.{Naming};
ghost use Rattle.core_model.specs.IsResolved.{are_resolved};
ghost use Rattle.core_model.specs.Module.{core_bytes, module_with};
ghost use Rattle.core_model.specs.Resolved.{resolved_fields};
ghost use Rattle.core_model.specs.Rule.{core_rule};
ghost use Rattle.core_model.specs.Weight.{core_weight, weight_alone};
ghost use Rattle.core_checks.specs.Refusals.{IsRefused};
ghost use Rattle.core_syntax.specs.Fields.{fields_of};
ghost use Rattle.core_write.specs.Module.{FitsModule};

use core_bounds::read_numerals;
use core_checks::check_rules;
use core_resolve::number_fields;
use core_syntax::ModuleField;
use std::alloc::Global;
use wast_parser::{Error, ErrorKind};

/// Resolves the fields of a core module that were read, which weigh less than 2^31 (`core_weight`): names become numbers, each type use
/// has the index of its type, and the types that uses need beyond the written ones stand behind the fields, in the order of first use
/// (WebAssembly, text format, Type Uses and Abbreviations).
///
/// They are refused, by `Core`, exactly where they break a rule, by the first that they break and where: an import behind a definition,
/// at the first word of its field; an id that an earlier item of its space has, at the second; then field by field, part by part, a name
/// that no item bears, at the name, an index beside another signature than that of its type, at the index, or an id that an earlier
/// parameter or local has, at the second. Otherwise want of memory is `NoMemory` at 0. After a refusal the fields can only be dropped.
///
/// What is left has the same bytes, with each id and label of the module. It can be written, where the module weighed at most 67,108,864.
/// Resolving it again is accepted, and changes nothing.
pub fn resolve_fields<'a>(alloc: Global, fields: &mut Vec<ModuleField<'a>>) -> Result<(), Error>
    requires weight { core_weight (fields_of fields.old.items) < 2 ^ 31 }
    ensures refused { IfErr result (IsRefused (core_rule (fields_of fields.old.items))) }
    ensures kept { OnOk result (core_rule (fields_of fields.old.items) ≡ None) }
    ensures left { OnOk result (fields_of fields.new.items ≡ resolved_fields (fields_of fields.old.items)) }
    ensures resolved { OnOk result (are_resolved (fields_of fields.new.items) ≡ true) }
    ensures bytes { OnOk result ((n : Naming) → core_bytes (module_with n (fields_of fields.new.items)) ≡ core_bytes (module_with n (fields_of fields.old.items))) }
    ensures fits { OnOk result ((n : Naming) → weight_alone (module_with n (fields_of fields.old.items)) ≤ 67_108_864 → FitsModule n (fields_of fields.new.items)) }
    ensures again { OnOk result (core_rule (fields_of fields.new.items) ≡ None) }
    ensures unchanged { OnOk result (resolved_fields (fields_of fields.new.items) ≡ fields_of fields.new.items) }
{
    let names = match check_rules(alloc, fields.as_slice()) {
        Ok(names) => names,
        Err(refusal) => return Err(refusal),
    };
    read_numerals(fields.as_slice());
    match number_fields(alloc, &names, fields) {
        Ok(()) => Ok(()),
        Err(_) => Err(Error {
            kind: ErrorKind::NoMemory,
            offset: 0,
        }),
    }
}
