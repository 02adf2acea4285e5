//! The sizes of the names of items, parameters and locals.

ghost use Rattle.std.specs.Prelude.{◌≡◌, ◌+◌, ◌<◌, ◌^◌, map, length, slice_get, unwrap_or, option_map, ◌≤◌, ◌&&◌, ◌++◌, Bool, ℕ, List};
ghost use Rattle.comp_model.specs.declared.Space.{Space as ModelSpace};
ghost use Rattle.comp_model.specs.declared.Space.TheVariants.{CoreFunc};
ghost use Rattle.comp_model.specs.Leb.{uleb};
ghost use Rattle.comp_model.specs.Payloads.{joined};
ghost use Rattle.core_model.specs.Items.{naming_of as naming_of_field, items_in};
ghost use Rattle.core_model.specs.NameSection.{named_at, names_from, names_in, locals_at};
ghost use Rattle.core_syntax.specs.Fields.{param_of, local_of, def_of, use_of, field_of, fields_of};
ghost use Rattle.core_syntax.specs.Measures.{capped};
ghost use Rattle.core_write.specs.NamesWritten.{params_in, param_counts, first_local as place_of_first, namings_of, written_namings, function_names, local_items, local_items_from};
ghost use Rattle.core_fits.specs.Sizes.{IsSize};
ghost use Rattle.core_fits.specs.Tests.{fits_named, fits_names, fits_locals_at, fits_function, fits_local_items, fits_locals};

use crate::lengths::{add, text_length};
use crate::size::Size;
use comp_wire::Space;
use core_syntax::{Func, Local, ModuleField, Param, TypeDef, TypeUse};
use core_write::{is_in, name_of, name_of_field, type_index};
use leb_lengths::{is_word, uleb_length};

/// How many bytes the sum of two numbers has in unsigned LEB128.
fn sum_length(one: u64, two: u64) -> u64
    ensures { result ≡ length (uleb (one + two)) }
{
    match one.checked_add(two) {
        Some(sum) => uleb_length(sum),
        None => 10,
    }
}

/// The size of the place of an item behind some others, and its name, where it has one; and whether the place fits.
fn name_size(first: u64, place: u64, name: Option<&str>) -> Size
    ensures { IsSize result (named_at (first + place) (option_map (λ x. x.now) name.entry)) (fits_named (first + place) (option_map (λ x. x.now) name.entry)) }
{
    match name {
        None => Size::none(),
        Some(name) => Size::one(
            add(sum_length(first, place), text_length(name)),
            is_word(add(first, place)),
        ),
    }
}

/// The size of the names of parameters.
fn param_names_size(params: &[Param<'_>]) -> Size
    ensures { IsSize result (names_from 0 (namings_of (map param_of params.now))) (fits_names 0 (namings_of (map param_of params.now))) }
{
    let mut size = Size::none();
    let mut place = 0;
    for param in params {
        size = size.and(name_size(0, place, name_of(&param.id, &param.name)));
        place += 1;
    }
    size
}

/// The size of the names of locals behind so many parameters.
fn local_names_size(first: u64, locals: &[Local<'_>]) -> Size
    ensures { IsSize result (names_from first (namings_of (map local_of locals.now))) (fits_names first (namings_of (map local_of locals.now))) }
{
    let mut size = Size::none();
    let mut place = 0;
    for local in locals {
        size = size.and(name_size(first, place, name_of(&local.id, &local.name)));
        place += 1;
    }
    size
}

/// The size of the names of the items of a space.
pub(crate) fn item_names_size(space: Space, fields: &[ModuleField<'_>]) -> Size
    ensures { IsSize result (names_in space (fields_of fields.now)) (fits_names 0 (map naming_of_field (items_in space (fields_of fields.now)))) }
{
    let mut size = Size::none();
    let mut place = 0;
    for field in fields {
        if !is_in(field, space) {
            continue;
        }
        size = size.and(name_size(0, place, name_of_field(field)));
        place += 1;
    }
    size
}

/// How many parameters a type has.
fn params_of(def: &TypeDef<'_>) -> u64
    ensures { result ≡ params_in (def_of def.now) }
{
    match def {
        TypeDef::Func(ty) => ty.params.as_slice().len() as u64,
        TypeDef::Other(_) => 0,
    }
}

/// How many parameters the type of this index has, or 0 where there is none.
fn param_count(fields: &[ModuleField<'_>], index: u32) -> u64
    ensures { result ≡ unwrap_or (slice_get (param_counts (fields_of fields.now)) index) 0 }
{
    let mut before = index;
    for field in fields {
        match field {
            ModuleField::Ty(ty) => {
                if before == 0 {
                    return params_of(&ty.def);
                }
                before -= 1;
            }
            _ => {}
        }
    }
    0
}

/// The place of the first local of a function: behind the parameters that its type use writes, or else behind those of its type.
fn first_local(fields: &[ModuleField<'_>], use_: &TypeUse<'_>) -> u64
    ensures { result ≡ place_of_first (param_counts (fields_of fields.now)) (use_of use_.now) }
{
    match &use_.inline {
        Some(ty) => ty.params.as_slice().len() as u64,
        None => param_count(fields, type_index(use_)),
    }
}

/// The size of the names of the parameters that a type use writes.
fn written_names_size(use_: &TypeUse<'_>) -> Size
    ensures { IsSize result (names_from 0 (written_namings (use_of use_.now).signature)) (fits_names 0 (written_namings (use_of use_.now).signature)) }
{
    match &use_.inline {
        None => Size::none(),
        Some(ty) => param_names_size(ty.params.as_slice()),
    }
}

/// The size of the index of a function and the names within it; without a name nothing.
fn named_within_size(place: u64, names: Size) -> Size
    ensures { (items : List (List ℕ)) (holds : Bool) → IsSize names items holds → length items ≤ length (joined items) → IsSize result (locals_at place items) (holds && fits_locals_at place items) }
{
    if names.count == 0 {
        return names;
    }
    Size::one(
        add(uleb_length(place), names.counted_length()),
        names.fits && is_word(place),
    )
}

/// The size of the names within a function.
fn names_within_size(first: u64, func: &Func<'_>) -> Size
    ensures { IsSize result (names_from 0 (written_namings (use_of func.now.ty).signature) ++ names_from first (namings_of (map local_of func.now.locals.items))) (fits_names 0 (written_namings (use_of func.now.ty).signature) && fits_names first (namings_of (map local_of func.now.locals.items))) }
{
    written_names_size(&func.ty).and(local_names_size(first, func.locals.as_slice()))
}

/// The size of the names within a function that is no import, by its index.
fn function_names_size(fields: &[ModuleField<'_>], place: u64, func: &Func<'_>) -> Size
    ensures { IsSize result (locals_at place (function_names (param_counts (fields_of fields.now)) (use_of func.now.ty) (map local_of func.now.locals.items))) (fits_function (param_counts (fields_of fields.now)) place (use_of func.now.ty) (map local_of func.now.locals.items)) }
{
    let first = first_local(fields, &func.ty);
    named_within_size(place, names_within_size(first, func))
}

/// The size of the names within the item of a field.
fn local_item_size(fields: &[ModuleField<'_>], place: u64, field: &ModuleField<'_>) -> Size
    ensures { IsSize result (local_items (param_counts (fields_of fields.now)) place (field_of field.now)) (fits_local_items (param_counts (fields_of fields.now)) place (field_of field.now)) }
{
    match field {
        ModuleField::Func(func) => match func.import {
            None => function_names_size(fields, place, func),
            Some(_) => Size::none(),
        },
        _ => Size::none(),
    }
}

/// The size of the names within functions.
pub(crate) fn all_locals_size(fields: &[ModuleField<'_>]) -> Size
    ensures { IsSize result (local_items_from (param_counts (fields_of fields.now)) 0 (items_in CoreFunc (fields_of fields.now))) (fits_locals (param_counts (fields_of fields.now)) 0 (items_in CoreFunc (fields_of fields.now))) }
{
    let mut size = Size::none();
    let mut place = 0;
    for field in fields {
        if !is_in(field, Space::CoreFunc) {
            continue;
        }
        size = size.and(local_item_size(fields, place, field));
        place += 1;
    }
    size
}
