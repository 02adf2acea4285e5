//! Parameters and locals of functions.

ghost use Rattle.std.specs.Prelude.{◌≡◌, ◌<◌, ◌+◌, ◌-◌, ◌^◌, ◌++◌, ◌∷◌, [], length, map, OnOk, IfOk};
ghost use Rattle.core_model.specs.Items.{each_behind};
ghost use Rattle.core_model.specs.Types.{written_params, ids_of};
ghost use Rattle.core_model.specs.Rule.{first_broken, unknown_in_value, repeated, broken_local};
ghost use Rattle.core_syntax.specs.Ids.{option_id};
ghost use Rattle.core_syntax.specs.Fields.{value_of, param_of, local_of, use_of};
ghost use Rattle.core_checks.specs.Parts.{broken_behind};
ghost use Rattle.core_checks.specs.Refusals.{TellsOrFails};

use crate::ids::register_id;
use crate::values::check_value;
use core_names::Namespace;
use core_syntax::{Func, Local, Param, TypeUse, ValType};
use std::alloc::Global;
use wast_parser::{Error, Id};

/// Adds a parameter or local to those before it: the name in its type, then its id, which is `Duplicate` where one of them has it.
fn register_local<'a>(
    types: &Namespace<'a>,
    names: &mut Namespace<'a>,
    id: Option<Id<'a>>,
    ty: &ValType<'a>,
) -> Result<(), Error>
    requires room { length names.old < 2 ^ 32 - 1 }
    ensures added { OnOk result (names.new ≡ names.old ++ option_id id.entry ∷ []) }
    ensures told { TellsOrFails (first_broken (unknown_in_value types.now (value_of ty.now) ∷ repeated names.old (option_id id.entry) ∷ [])) result }
{
    check_value(types, ty)?;
    register_id(names, id)
}

/// Adds parameters, in order.
fn register_params<'a>(
    types: &Namespace<'a>,
    names: &mut Namespace<'a>,
    params: &[Param<'a>],
) -> Result<(), Error>
    requires room { length names.old + length params.now < 2 ^ 32 - 1 }
    ensures added { OnOk result (names.new ≡ names.old ++ ids_of (map param_of params.now)) }
    ensures told { TellsOrFails (first_broken (broken_behind types.now names.old (map param_of params.now))) result }
{
    for param in params {
        register_local(types, names, param.id, &param.ty)?;
    }
    Ok(())
}

/// Adds locals, in order.
fn register_locals<'a>(
    types: &Namespace<'a>,
    names: &mut Namespace<'a>,
    locals: &[Local<'a>],
) -> Result<(), Error>
    requires room { length names.old + length locals.now < 2 ^ 32 - 1 }
    ensures added { OnOk result (names.new ≡ names.old ++ ids_of (map local_of locals.now)) }
    ensures told { TellsOrFails (first_broken (broken_behind types.now names.old (map local_of locals.now))) result }
{
    for local in locals {
        register_local(types, names, local.id, &local.ty)?;
    }
    Ok(())
}

/// Adds the parameters that a type use writes.
fn register_written<'a>(
    types: &Namespace<'a>,
    names: &mut Namespace<'a>,
    use_: &TypeUse<'a>,
) -> Result<(), Error>
    requires room { length names.old + length (written_params (use_of use_.now).signature) < 2 ^ 32 - 1 }
    ensures added { OnOk result (names.new ≡ names.old ++ ids_of (written_params (use_of use_.now).signature)) }
    ensures told { TellsOrFails (first_broken (broken_behind types.now names.old (written_params (use_of use_.now).signature))) result }
{
    match &use_.inline {
        None => Ok(()),
        Some(ty) => register_params(types, names, ty.params.as_slice()),
    }
}

/// The ids of the parameters that a function writes, and of its locals behind them. The place of one is its index.
pub(crate) fn names_within<'a>(
    alloc: Global,
    types: &Namespace<'a>,
    func: &Func<'a>,
) -> Result<Namespace<'a>, Error>
    requires room { length (written_params (use_of func.now.ty).signature) + length func.now.locals.items < 2 ^ 32 - 1 }
    ensures names { IfOk result (λ n. n ≡ ids_of (written_params (use_of func.now.ty).signature ++ map local_of func.now.locals.items)) }
    ensures told { TellsOrFails (first_broken (each_behind (broken_local types.now) [] (written_params (use_of func.now.ty).signature ++ map local_of func.now.locals.items))) result }
{
    let mut names = Namespace::new(alloc);
    register_written(types, &mut names, &func.ty)?;
    register_locals(types, &mut names, func.locals.as_slice())?;
    Ok(names)
}
