//! Names in core types.

ghost use Rattle.std.specs.Prelude.{◌≡◌, ◌++◌, map, option_map, IfOk, IfErr, OnOk, OnErr, Some, None, List, Option};
ghost use Rattle.comp_model.specs.Core.{Id as ModelId};
ghost use Rattle.core_model.specs.Items.{meant};
ghost use Rattle.core_model.specs.Resolved.{numbered, numbered_value, numbered_local, numbered_signature};
ghost use Rattle.core_model.specs.Rule.{unknown_in_value, unknown_in_type, unknown_in_def, first_broken};
ghost use Rattle.core_syntax.specs.Ids.{reference_of};
ghost use Rattle.core_syntax.specs.Fields.{value_of, ref_value, param_of, type_of, def_of};
ghost use Rattle.core_names.specs.Names.{unknown_at};
ghost use Rattle.core_names.specs.Resolving.{numbered_def, unknown_error};

use core_syntax::{FunctionType, HeapType, Param, RefType, Type, TypeDef, ValType};
use wast_parser::{Error, Index};

/// What resolves the names of types.
pub trait ResolveCoreType<'a> {
    /// The ids of the types that it holds, in order.
    ghost type_ids: { Self → List (Option ModelId) };

    /// What a reference to a type means, and the reference as that number, at its place. A name that no type bears is `Unknown`, at
    /// the name, and stays. It takes no memory.
    fn resolve_type_name(&mut self, name: &mut Index<'a>) -> Result<u32, Error>
        ensures ids { type_ids self.new ≡ type_ids self.old }
        ensures meant { IfOk result (λ n. meant (type_ids self.old) (reference_of name.old) ≡ Some n) }
        ensures numbered { OnOk result (reference_of name.new ≡ numbered (type_ids self.old) (reference_of name.old)) }
        ensures nothing { OnErr result (meant (type_ids self.old) (reference_of name.old) ≡ None) }
        ensures refused { IfErr result (λ e. e ≡ unknown_at (reference_of name.old)) }
        ensures unchanged { OnErr result (name.new ≡ name.old) };

    /// Resolves the names in a type definition, in order. The first that no type bears is `Unknown`, at the name; the definition
    /// can then only be dropped.
    final fn resolve_type_def(&mut self, def: &mut TypeDef<'a>) -> Result<(), Error>
    where
        Self: Sized,
        ensures ids { type_ids self.new ≡ type_ids self.old }
        ensures numbered { OnOk result (def_of def.new ≡ numbered_def (type_ids self.old) (def_of def.old)) }
        ensures known { OnOk result (first_broken (unknown_in_def (type_ids self.old) (def_of def.old)) ≡ None) }
        ensures refused { IfErr result (λ e. Some e ≡ option_map unknown_error (first_broken (unknown_in_def (type_ids self.old) (def_of def.old)))) }
    {
        match def {
            TypeDef::Func(ty) => resolve_function(self, ty),
            TypeDef::Other(_) => Ok(()),
        }
    }

    /// Resolves the names in a type, in order. The first that no type bears is `Unknown`, at the name; the type can then only be
    /// dropped.
    final fn resolve_type(&mut self, ty: &mut Type<'a>) -> Result<(), Error>
    where
        Self: Sized,
        ensures ids { type_ids self.new ≡ type_ids self.old }
        ensures numbered { OnOk result (def_of ty.new.def ≡ numbered_def (type_ids self.old) (def_of ty.old.def)) }
        ensures named { (ty.new.span ≡ ty.old.span) × (ty.new.id ≡ ty.old.id) × (ty.new.name ≡ ty.old.name) }
        ensures known { OnOk result (first_broken (unknown_in_def (type_ids self.old) (def_of ty.old.def)) ≡ None) }
        ensures refused { IfErr result (λ e. Some e ≡ option_map unknown_error (first_broken (unknown_in_def (type_ids self.old) (def_of ty.old.def)))) }
    {
        self.resolve_type_def(&mut ty.def)
    }
}

/// Resolves the name in a reference type.
fn resolve_reference<'a, R: ResolveCoreType<'a>>(
    resolver: &mut R,
    ty: RefType<'a>,
) -> Result<RefType<'a>, Error>
    ensures ids { R.type_ids resolver.new ≡ R.type_ids resolver.old }
    ensures numbered { IfOk result (λ r. ref_value r ≡ numbered_value (R.type_ids resolver.old) (ref_value ty.entry)) }
    ensures known { OnOk result (unknown_in_value (R.type_ids resolver.old) (ref_value ty.entry) ≡ None) }
    ensures refused { IfErr result (λ e. Some e ≡ option_map unknown_error (unknown_in_value (R.type_ids resolver.old) (ref_value ty.entry))) }
{
    match ty.heap {
        HeapType::Func => Ok(ty),
        HeapType::Extern => Ok(ty),
        HeapType::Concrete(index) => {
            let mut name = index;
            resolver.resolve_type_name(&mut name)?;
            Ok(RefType {
                nullable: ty.nullable,
                heap: HeapType::Concrete(name),
            })
        }
    }
}

/// Resolves the name in a value type.
fn resolve_value<'a, R: ResolveCoreType<'a>>(
    resolver: &mut R,
    ty: ValType<'a>,
) -> Result<ValType<'a>, Error>
    ensures ids { R.type_ids resolver.new ≡ R.type_ids resolver.old }
    ensures numbered { IfOk result (λ v. value_of v ≡ numbered_value (R.type_ids resolver.old) (value_of ty.entry)) }
    ensures known { OnOk result (unknown_in_value (R.type_ids resolver.old) (value_of ty.entry) ≡ None) }
    ensures refused { IfErr result (λ e. Some e ≡ option_map unknown_error (unknown_in_value (R.type_ids resolver.old) (value_of ty.entry))) }
{
    match ty {
        ValType::Ref(reference) => Ok(ValType::Ref(resolve_reference(resolver, reference)?)),
        ValType::I32 => Ok(ty),
        ValType::I64 => Ok(ty),
        ValType::F32 => Ok(ty),
        ValType::F64 => Ok(ty),
        ValType::V128 => Ok(ty),
        ValType::Other(_) => Ok(ty),
    }
}

/// Resolves the names in parameters.
fn resolve_params<'a, R: ResolveCoreType<'a>>(
    resolver: &mut R,
    params: &mut Vec<Param<'a>>,
) -> Result<(), Error>
    ensures ids { R.type_ids resolver.new ≡ R.type_ids resolver.old }
    ensures numbered { OnOk result (map param_of params.new.items ≡ map (numbered_local (R.type_ids resolver.old)) (map param_of params.old.items)) }
    ensures known { OnOk result (first_broken (map (λ p. unknown_in_value (R.type_ids resolver.old) p.value) (map param_of params.old.items)) ≡ None) }
    ensures refused { IfErr result (λ e. Some e ≡ option_map unknown_error (first_broken (map (λ p. unknown_in_value (R.type_ids resolver.old) p.value) (map param_of params.old.items)))) }
{
    for index in 0..params.as_slice().len() {
        let param = &mut params[index];
        match resolve_value(resolver, param.ty) {
            Ok(ty) => param.ty = ty,
            Err(refusal) => return Err(refusal),
        }
    }
    Ok(())
}

/// Resolves the names in results.
fn resolve_results<'a, R: ResolveCoreType<'a>>(
    resolver: &mut R,
    results: &mut Vec<ValType<'a>>,
) -> Result<(), Error>
    ensures ids { R.type_ids resolver.new ≡ R.type_ids resolver.old }
    ensures numbered { OnOk result (map value_of results.new.items ≡ map (numbered_value (R.type_ids resolver.old)) (map value_of results.old.items)) }
    ensures known { OnOk result (first_broken (map (unknown_in_value (R.type_ids resolver.old)) (map value_of results.old.items)) ≡ None) }
    ensures refused { IfErr result (λ e. Some e ≡ option_map unknown_error (first_broken (map (unknown_in_value (R.type_ids resolver.old)) (map value_of results.old.items)))) }
{
    for index in 0..results.as_slice().len() {
        let ty = &mut results[index];
        match resolve_value(resolver, *ty) {
            Ok(resolved) => *ty = resolved,
            Err(refusal) => return Err(refusal),
        }
    }
    Ok(())
}

/// Resolves the names in a function type: those of its parameters, then those of its results.
fn resolve_function<'a, R: ResolveCoreType<'a>>(
    resolver: &mut R,
    ty: &mut FunctionType<'a>,
) -> Result<(), Error>
    ensures ids { R.type_ids resolver.new ≡ R.type_ids resolver.old }
    ensures numbered { OnOk result (type_of ty.new ≡ numbered_signature (R.type_ids resolver.old) (type_of ty.old)) }
    ensures known { OnOk result (first_broken (unknown_in_type (R.type_ids resolver.old) (type_of ty.old)) ≡ None) }
    ensures refused { IfErr result (λ e. Some e ≡ option_map unknown_error (first_broken (unknown_in_type (R.type_ids resolver.old) (type_of ty.old)))) }
{
    match resolve_params(resolver, &mut ty.params) {
        Ok(()) => resolve_results(resolver, &mut ty.results),
        Err(refusal) => Err(refusal),
    }
}
