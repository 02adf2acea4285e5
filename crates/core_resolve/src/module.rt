//! The fields of a whole module.

ghost use Rattle.std.specs.Prelude.{◌≡◌, ◌<◌, ◌^◌, None, OnOk};
ghost use Rattle.core_model.specs.Rule.{core_rule};
ghost use Rattle.core_model.specs.Weight.{core_weight};
ghost use Rattle.core_model.specs.Resolved.{resolved_fields};
ghost use Rattle.core_syntax.specs.Fields.{fields_of};
ghost use Rattle.core_names.specs.ModuleIds.{AreNamesOf};

use crate::added::push_types;
use crate::field::number_all;
use crate::needed::{add_all_needed, defined_types};
use core_names::ModuleNames;
use core_syntax::ModuleField;
use std::alloc::{AllocError, Global};

/// Resolves the fields of a module, whose names these are, in place: each name becomes the number that it means, at its offset; each
/// type use gets the index of its type, at offset 0 where it wrote none; and the types that uses need beyond the written ones stand
/// behind the fields, in the order of first need, at offset 0 and without ids (WebAssembly, text format, Type Uses).
///
/// The fields may break no rule, and their weight has to be below `2 ^ 31`. The one refusal is want of memory; the fields can then only
/// be dropped.
pub fn number_fields<'a>(
    alloc: Global,
    names: &ModuleNames<'a>,
    fields: &mut Vec<ModuleField<'a>>,
) -> Result<(), AllocError>
    requires named { AreNamesOf names.now (fields_of fields.old.items) }
    requires kept { core_rule (fields_of fields.old.items) ≡ None }
    requires light { core_weight (fields_of fields.old.items) < 2 ^ 31 }
    ensures { OnOk result (fields_of fields.new.items ≡ resolved_fields (fields_of fields.old.items)) }
{
    let mut types = defined_types(alloc, &names.types, fields.as_slice())?;
    let written = types.len();
    add_all_needed(alloc, &names.types, &mut types, fields.as_slice())?;
    number_all(alloc, names, &types, fields)?;
    push_types(alloc, fields, &types, written)
}
