//! Names of items, parameters and locals.

ghost use Rattle.std.specs.Prelude.{◌≡◌, ◌+◌, ◌∷◌, [], ◌++◌, map, length, option_map, OnOk, IfOk, Option};
ghost use Rattle.comp_model.specs.declared.Space.{Space as ModelSpace};
ghost use Rattle.comp_model.specs.declared.Space.TheVariants.{CoreFunc};
ghost use Rattle.comp_model.specs.Payloads.{joined};
ghost use Rattle.core_model.specs.Items.{naming_of as naming_of_field, is_space, declares, items_in};
ghost use Rattle.core_model.specs.Words.{Word};
ghost use Rattle.core_model.specs.Bytes.{section};
ghost use Rattle.core_model.specs.NameSection.{named_at, names_from, names_in, locals_at};
ghost use Rattle.core_syntax.specs.Fields.{param_of, local_of, def_of, use_of, func_of, field_of, fields_of};
ghost use Rattle.core_write.specs.NamesWritten.{params_in, param_counts as counts_of_params, first_local as place_of_first, namings_of, written_namings, function_names, local_items, local_items_from, locals_by_count, FitsByCount, FitsNamed, FitsNamesFrom, FitsFunctionNames, FitsLocalItems, FitsLocalsFrom};

use crate::bytes::{push_bytes, push_text};
use crate::fields::{name_of, name_of_field, space_of};
use crate::items::type_index;
use comp_wire::{NoMemory, Space, uleb};
use core_syntax::{Func, Local, ModuleField, Param, TypeDef, TypeUse};
use std::alloc::Global;

/// Whether a field declares an item of a space.
pub fn is_in(field: &ModuleField<'_>, space: Space) -> bool
    ensures { result ≡ is_space space (declares (field_of field.now)) }
{
    match space_of(field) {
        None => false,
        Some(found) => space == found,
    }
}

/// Appends the place of an item behind some others, and its name, where it has one; answers how many names that are.
fn push_name(
    alloc: Global,
    out: &mut Vec<u8>,
    first: usize,
    place: usize,
    name: Option<&str>,
) -> Result<u32, NoMemory>
    requires { FitsNamed (first + place) (option_map (λ x. x.now) name) }
    ensures number { IfOk result (λ n. n ≡ length (named_at (first + place) (option_map (λ x. x.now) name.entry))) }
    ensures appended { OnOk result (out.new.items ≡ out.old.items ++ joined (named_at (first + place) (option_map (λ x. x.now) name.entry))) }
{
    match name {
        None => Ok(0),
        Some(name) => {
            uleb(alloc, out, (first + place) as u32)?;
            push_text(alloc, out, name)?;
            Ok(1)
        }
    }
}

/// Appends the names of parameters; answers how many there are.
#[tactic(auto, using(crate::proofs::Steps::joined_append))]
fn push_param_names(alloc: Global, out: &mut Vec<u8>, params: &[Param<'_>]) -> Result<u32, NoMemory>
    requires fits { FitsNamesFrom 0 (namings_of (map param_of params.now)) }
    requires number { Word (length (names_from 0 (namings_of (map param_of params.now)))) }
    ensures number { IfOk result (λ n. n ≡ length (names_from 0 (namings_of (map param_of params.now)))) }
    ensures appended { OnOk result (out.new.items ≡ out.old.items ++ joined (names_from 0 (namings_of (map param_of params.now)))) }
{
    let mut count = 0;
    let mut place = 0;
    for param in params {
        count += push_name(alloc, out, 0, place, name_of(&param.id, &param.name))?;
        place += 1;
    }
    Ok(count)
}

/// Appends the names of locals behind so many parameters; answers how many there are.
#[tactic(auto, using(crate::proofs::Steps::joined_append))]
fn push_local_names(
    alloc: Global,
    out: &mut Vec<u8>,
    first: usize,
    locals: &[Local<'_>],
) -> Result<u32, NoMemory>
    requires fits { FitsNamesFrom first (namings_of (map local_of locals.now)) }
    requires number { Word (length (names_from first (namings_of (map local_of locals.now)))) }
    ensures number { IfOk result (λ n. n ≡ length (names_from first (namings_of (map local_of locals.now)))) }
    ensures appended { OnOk result (out.new.items ≡ out.old.items ++ joined (names_from first (namings_of (map local_of locals.now)))) }
{
    let mut count = 0;
    let mut place = 0;
    for local in locals {
        count += push_name(alloc, out, first, place, name_of(&local.id, &local.name))?;
        place += 1;
    }
    Ok(count)
}

/// Appends the names of the items of a space; answers how many there are.
#[tactic(auto, using(crate::proofs::Steps::joined_append))]
pub(crate) fn push_item_names(
    alloc: Global,
    out: &mut Vec<u8>,
    space: Space,
    fields: &[ModuleField<'_>],
) -> Result<u32, NoMemory>
    requires fits { FitsNamesFrom 0 (map naming_of_field (items_in space (fields_of fields.now))) }
    requires number { Word (length (names_in space (fields_of fields.now))) }
    ensures number { IfOk result (λ n. n ≡ length (names_in space (fields_of fields.now))) }
    ensures appended { OnOk result (out.new.items ≡ out.old.items ++ joined (names_in space (fields_of fields.now))) }
{
    let mut count = 0;
    let mut place = 0;
    for field in fields {
        if !is_in(field, space) {
            continue;
        }
        count += push_name(alloc, out, 0, place, name_of_field(field))?;
        place += 1;
    }
    Ok(count)
}

/// How many parameters each type has, by its index.
pub(crate) fn param_counts(
    alloc: Global,
    fields: &[ModuleField<'_>],
) -> Result<Vec<usize>, NoMemory>
    ensures { IfOk result (λ v. v.items ≡ counts_of_params (fields_of fields.now)) }
{
    let mut counts = Vec::new(alloc);
    for field in fields {
        match field {
            ModuleField::Ty(ty) => push_count(&mut counts, params_of(&ty.def))?,
            _ => {}
        }
    }
    Ok(counts)
}

fn push_count(counts: &mut Vec<usize>, count: usize) -> Result<(), NoMemory>
    ensures { OnOk result (counts.new.items ≡ counts.old.items ++ count ∷ []) }
{
    match counts.push(count) {
        Ok(()) => Ok(()),
        Err(_) => Err(NoMemory),
    }
}

/// How many parameters a type has.
fn params_of(def: &TypeDef<'_>) -> usize
    ensures { result ≡ params_in (def_of def.now) }
{
    match def {
        TypeDef::Func(ty) => ty.params.as_slice().len(),
        TypeDef::Other(_) => 0,
    }
}

/// The place of the first local of a function: behind the parameters that its type use writes, or else behind those of its type.
fn first_local(counts: &[usize], use_: &TypeUse<'_>) -> usize
    ensures { result ≡ place_of_first counts.now (use_of use_.now) }
{
    match &use_.inline {
        Some(ty) => ty.params.as_slice().len(),
        None => counts.get(type_index(use_) as usize).copied().unwrap_or(0),
    }
}

/// Appends the names of the parameters and locals of a function; answers how many there are.
fn push_names_within(
    alloc: Global,
    out: &mut Vec<u8>,
    first: usize,
    func: &Func<'_>,
) -> Result<u32, NoMemory>
    requires params { FitsNamesFrom 0 (written_namings (use_of func.now.ty).signature) }
    requires locals { FitsNamesFrom first (namings_of (map local_of func.now.locals.items)) }
    requires number { Word (length (names_from 0 (written_namings (use_of func.now.ty).signature) ++ names_from first (namings_of (map local_of func.now.locals.items)))) }
    ensures number { IfOk result (λ n. n ≡ length (names_from 0 (written_namings (use_of func.now.ty).signature) ++ names_from first (namings_of (map local_of func.now.locals.items)))) }
    ensures appended { OnOk result (out.new.items ≡ out.old.items ++ joined (names_from 0 (written_namings (use_of func.now.ty).signature) ++ names_from first (namings_of (map local_of func.now.locals.items)))) }
{
    let params = push_written_names(alloc, out, &func.ty)?;
    let locals = push_local_names(alloc, out, first, func.locals.as_slice())?;
    Ok(params + locals)
}

/// Appends the names of the parameters that a type use writes; answers how many there are.
fn push_written_names(alloc: Global, out: &mut Vec<u8>, use_: &TypeUse<'_>) -> Result<u32, NoMemory>
    requires fits { FitsNamesFrom 0 (written_namings (use_of use_.now).signature) }
    requires number { Word (length (names_from 0 (written_namings (use_of use_.now).signature))) }
    ensures number { IfOk result (λ n. n ≡ length (names_from 0 (written_namings (use_of use_.now).signature))) }
    ensures appended { OnOk result (out.new.items ≡ out.old.items ++ joined (names_from 0 (written_namings (use_of use_.now).signature))) }
{
    match &use_.inline {
        None => Ok(0),
        Some(ty) => push_param_names(alloc, out, ty.params.as_slice()),
    }
}

/// Appends the index of a function and so many names within it, whose bytes these are; without a name nothing. Answers how many
/// items that are.
fn push_named_within(
    alloc: Global,
    out: &mut Vec<u8>,
    place: usize,
    count: u32,
    names: &[u8],
) -> Result<u32, NoMemory>
    requires { FitsByCount place count }
    ensures number { IfOk result (λ n. n ≡ length (locals_by_count place count names.now)) }
    ensures appended { OnOk result (out.new.items ≡ out.old.items ++ joined (locals_by_count place count names.now)) }
{
    if count == 0 {
        return Ok(0);
    }
    uleb(alloc, out, place as u32)?;
    uleb(alloc, out, count)?;
    push_bytes(out, names)?;
    Ok(1)
}

/// Appends the names within a function that is no import, by its index; answers how many items that are. `room` is for their bytes,
/// whatever it holds.
fn push_function_names(
    alloc: Global,
    out: &mut Vec<u8>,
    room: &mut Vec<u8>,
    counts: &[usize],
    place: usize,
    func: &Func<'_>,
) -> Result<u32, NoMemory>
    requires { FitsFunctionNames counts.now place (use_of func.now.ty) (map local_of func.now.locals.items) }
    ensures number { IfOk result (λ n. n ≡ length (locals_at place (function_names counts.now (use_of func.now.ty) (map local_of func.now.locals.items)))) }
    ensures appended { OnOk result (out.new.items ≡ out.old.items ++ joined (locals_at place (function_names counts.now (use_of func.now.ty) (map local_of func.now.locals.items)))) }
{
    room.clear();
    let first = first_local(counts, &func.ty);
    let count = push_names_within(alloc, room, first, func)?;
    push_named_within(alloc, out, place, count, room.as_slice())
}

/// Appends the names within the item of a field; answers how many items that are. `room` is for their bytes, whatever it holds.
fn push_local_item(
    alloc: Global,
    out: &mut Vec<u8>,
    room: &mut Vec<u8>,
    counts: &[usize],
    place: usize,
    field: &ModuleField<'_>,
) -> Result<u32, NoMemory>
    requires { FitsLocalItems counts.now place (field_of field.now) }
    ensures number { IfOk result (λ n. n ≡ length (local_items counts.now place (field_of field.now))) }
    ensures appended { OnOk result (out.new.items ≡ out.old.items ++ joined (local_items counts.now place (field_of field.now))) }
{
    match field {
        ModuleField::Func(func) => match func.import {
            None => push_function_names(alloc, out, room, counts, place, func),
            Some(_) => Ok(0),
        },
        _ => Ok(0),
    }
}

/// Appends the names within functions; answers how many items that are.
pub(crate) fn push_all_locals(
    alloc: Global,
    out: &mut Vec<u8>,
    counts: &[usize],
    fields: &[ModuleField<'_>],
) -> Result<u32, NoMemory>
    requires fits { FitsLocalsFrom counts.now 0 (items_in CoreFunc (fields_of fields.now)) }
    requires number { Word (length (local_items_from counts.now 0 (items_in CoreFunc (fields_of fields.now)))) }
    ensures number { IfOk result (λ n. n ≡ length (local_items_from counts.now 0 (items_in CoreFunc (fields_of fields.now)))) }
    ensures appended { OnOk result (out.new.items ≡ out.old.items ++ joined (local_items_from counts.now 0 (items_in CoreFunc (fields_of fields.now)))) }
{
    let mut room = Vec::new(alloc);
    let mut count = 0;
    let mut place = 0;
    for field in fields {
        if !is_in(field, Space::CoreFunc) {
            continue;
        }
        count += push_local_item(alloc, out, &mut room, counts, place, field)?;
        place += 1;
    }
    Ok(count)
}
