//! Names in instructions, and what they mean.

ghost use Rattle.std.specs.Prelude.{◌≡◌, ◌++◌, ◌∷◌, [], ℕ, List, Option, Some, map, flat_map, OnOk, IfErr};
ghost use Rattle.wast_tokens.specs.declared.error.ErrorKind.TheVariants.{NoMemory};
ghost use Rattle.core_model.specs.Rule.{first_broken, unknown, unknown_in_instruction};
ghost use Rattle.core_syntax.specs.Ids.{reference_of};
ghost use Rattle.core_syntax.specs.Fields.{instruction_of, body_of};
ghost use Rattle.core_names.specs.Names.{refusal};
ghost use Rattle.core_names.specs.ModuleIds.{place_named, place_in_instruction};
ghost use Rattle.core_checks.specs.Refusals.{TellsOrFails};

use crate::refusals::{broken, no_memory};
use crate::scope::ModuleScope;
use core_names::Namespace;
use core_syntax::{Expression, Instruction};
use wast_parser::{CoreRule, Error, Index};

/// Adds a place.
fn push_place(places: &mut Vec<u32>, place: u32) -> Result<(), Error>
    ensures added { OnOk result (places.new.items ≡ places.old.items ++ place ∷ []) }
    ensures memory { IfErr result (λ e. e ≡ refusal NoMemory 0) }
{
    match places.push(place) {
        Ok(()) => Ok(()),
        Err(_) => Err(no_memory()),
    }
}

/// Adds the place of the item that a name means. A name that no item of the space bears is `Unknown`, at the name.
fn find_name<'a>(ids: &Namespace<'a>, index: &Index<'a>, places: &mut Vec<u32>) -> Result<(), Error>
    ensures told { TellsOrFails (unknown ids.now (reference_of index.now)) result }
    ensures found { OnOk result ((behind : List (Option ℕ)) → map Some places.new.items ++ behind ≡ map Some places.old.items ++ (place_named ids.now (reference_of index.now) ++ behind)) }
{
    match index {
        Index::Num(_, _) => Ok(()),
        Index::Id(id) => match ids.try_resolve(index) {
            Some(place) => push_place(places, place),
            None => Err(broken(CoreRule::Unknown, id.span())),
        },
    }
}

/// The name in an instruction, beside the ids of the parameters and locals.
fn check_instruction<'a>(
    scope: &ModuleScope<'_, 'a>,
    locals: &Namespace<'a>,
    instruction: &Instruction<'a>,
    places: &mut Vec<u32>,
) -> Result<(), Error>
    ensures told { TellsOrFails (unknown_in_instruction scope.now locals.now (instruction_of instruction.now)) result }
    ensures found { OnOk result ((behind : List (Option ℕ)) → map Some places.new.items ++ behind ≡ map Some places.old.items ++ (place_in_instruction scope.now locals.now (instruction_of instruction.now) ++ behind)) }
{
    match instruction {
        Instruction::Unreachable => Ok(()),
        Instruction::Nop => Ok(()),
        Instruction::Return => Ok(()),
        Instruction::Call(index) => find_name(scope.funcs(), index, places),
        Instruction::Drop => Ok(()),
        Instruction::LocalGet(index) => find_name(locals, index, places),
        Instruction::LocalSet(index) => find_name(locals, index, places),
        Instruction::LocalTee(index) => find_name(locals, index, places),
        Instruction::GlobalGet(index) => find_name(scope.globals(), index, places),
        Instruction::GlobalSet(index) => find_name(scope.globals(), index, places),
        Instruction::I32Const(_) => Ok(()),
        Instruction::I64Const(_) => Ok(()),
        Instruction::I32Add => Ok(()),
        Instruction::I32Sub => Ok(()),
        Instruction::I32Mul => Ok(()),
        Instruction::Other(_) => Ok(()),
    }
}

/// The names in instructions, in order, and what they mean behind what others mean. Want of memory is `NoMemory` at 0.
pub(crate) fn check_body<'a>(
    scope: &ModuleScope<'_, 'a>,
    locals: &Namespace<'a>,
    body: &Expression<'a>,
    places: &mut Vec<u32>,
) -> Result<(), Error>
    ensures told { TellsOrFails (first_broken (map (unknown_in_instruction scope.now locals.now) (body_of body.now))) result }
    ensures found { OnOk result ((behind : List (Option ℕ)) → map Some places.new.items ++ behind ≡ map Some places.old.items ++ (flat_map (place_in_instruction scope.now locals.now) (body_of body.now) ++ behind)) }
{
    for instruction in &body.instrs {
        check_instruction(scope, locals, instruction, places)?;
    }
    Ok(())
}
