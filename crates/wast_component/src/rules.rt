//! The fields of core modules, with their rules, and then with numbers for their names.

ghost use Rattle.std.specs.Prelude.{◌≡◌, ◌≤◌, map, IfOk};
ghost use Rattle.core_model.specs.Weight.{core_weight};
ghost use Rattle.core_syntax.specs.Fields.{fields_of};
ghost use Rattle.wast_component.specs.Modules.{all_fields, ruled_fields, light_fields, all_light, numbered, all_numbered, IsRuled, AreRuled};

use crate::ruled::Ruled;
use core_bounds::read_numerals;
use core_checks::check_rules;
use core_resolve::number_fields;
use core_syntax::{ModuleField, core_weight};
use std::alloc::{AllocError, Global};
use wast_parser::ErrorKind;

/// The most that the fields of one core module weigh, as a component does.
const WEIGHT_LIMIT: u64 = 67_108_864;

/// Fields, or none in the place of those that are heavier than a component may be.
fn light_fields<'a>(alloc: Global, fields: Vec<ModuleField<'a>>) -> Vec<ModuleField<'a>>
    ensures same { fields_of result.items ≡ light_fields (fields_of fields.entry.items) }
    ensures light { core_weight (fields_of result.items) ≤ 67_108_864 }
{
    if core_weight(&fields) > WEIGHT_LIMIT {
        return Vec::new(alloc);
    }
    fields
}

/// Fields with their rule.
fn rule_of<'a>(alloc: Global, fields: Vec<ModuleField<'a>>) -> Result<Ruled<'a>, AllocError>
    requires { core_weight (fields_of fields.items) ≤ 67_108_864 }
    ensures fields { IfOk result (λ r. fields_of r.fields.items ≡ fields_of fields.entry.items) }
    ensures ruled { IfOk result (λ r. IsRuled r) }
{
    read_numerals(fields.as_slice());
    match check_rules(alloc, fields.as_slice()) {
        Ok(names) => Ok(Ruled {
            fields,
            names: Ok(names),
        }),
        Err(refusal) => match refusal.kind {
            ErrorKind::NoMemory => Err(AllocError),
            _ => Ok(Ruled {
                fields,
                names: Err(refusal),
            }),
        },
    }
}

/// The fields of core modules, each with its rule, and none in the place of those that are heavier than a component may be.
pub(crate) fn rules_of<'a>(
    alloc: Global,
    all: Vec<Vec<ModuleField<'a>>>,
) -> Result<Vec<Ruled<'a>>, AllocError>
    ensures fields { IfOk result (λ v. ruled_fields v.items ≡ all_light (all_fields all.entry.items)) }
    ensures ruled { IfOk result (λ v. AreRuled v.items) }
{
    let mut ruled = Vec::new(alloc);
    for fields in all {
        let one = rule_of(alloc, light_fields(alloc, fields))?;
        ruled.push(one)?;
    }
    Ok(ruled)
}

/// Fields that meet their rule with numbers for their names, and none in the place of others.
fn number_one<'a>(alloc: Global, ruled: Ruled<'a>) -> Result<Vec<ModuleField<'a>>, AllocError>
    requires { IsRuled ruled }
    ensures { IfOk result (λ v. fields_of v.items ≡ numbered (fields_of ruled.entry.fields.items)) }
{
    let Ruled { mut fields, names } = ruled;
    match names {
        Ok(names) => {
            number_fields(alloc, &names, &mut fields)?;
            Ok(fields)
        }
        Err(_) => Ok(Vec::new(alloc)),
    }
}

/// The fields of core modules that meet their rule with numbers for their names, and none in the place of others.
pub(crate) fn number_modules<'a>(
    alloc: Global,
    all: Vec<Ruled<'a>>,
) -> Result<Vec<Vec<ModuleField<'a>>>, AllocError>
    requires ruled { AreRuled all.items }
    ensures { IfOk result (λ v. all_fields v.items ≡ all_numbered (ruled_fields all.entry.items)) }
{
    let mut numbered = Vec::new(alloc);
    for ruled in all {
        let fields = number_one(alloc, ruled)?;
        numbered.push(fields)?;
    }
    Ok(numbered)
}
