//! Numbers in instructions.

ghost use Rattle.std.specs.Prelude.{◌≡◌, ◌++◌, ℕ, List, Option, Some, map, flat_map};
ghost use Rattle.comp_model.specs.Core.{Id};
ghost use Rattle.comp_model.specs.CoreModules.{Field};
ghost use Rattle.core_model.specs.Resolved.{numbered_instruction};
ghost use Rattle.core_syntax.specs.Fields.{instruction_of, body_of};
ghost use Rattle.core_names.specs.ModuleIds.{place_in_instruction};
ghost use Rattle.core_resolve.specs.LocalIds.{behind_nameless, FitsBehind};

use crate::index::number_next;
use core_syntax::{Expression, Instruction};

/// Numbers the name in an instruction, by the next place; a parameter or local stands behind those without ids that only a type tells
/// of. What is left of the places behind it.
#[tactic(auto, using(crate::proofs::LocalIds::none_in_front))]
fn number_instruction<'n, 'a>(
    nameless: u32,
    places: &'n [u32],
    instruction: &mut Instruction<'a>,
) -> &'n [u32]
    ensures numbered { (source : List Field) (ids : List (Option Id)) (rest : List (Option ℕ)) → FitsBehind nameless ids → map Some places.now ≡ place_in_instruction source ids (instruction_of instruction.old) ++ rest → instruction_of instruction.new ≡ numbered_instruction source (behind_nameless nameless ids) (instruction_of instruction.old) }
    ensures left { (source : List Field) (ids : List (Option Id)) (rest : List (Option ℕ)) → map Some places.now ≡ place_in_instruction source ids (instruction_of instruction.old) ++ rest → map Some result.now ≡ rest }
{
    match instruction {
        Instruction::Call(index) => number_next(0, places, index),
        Instruction::LocalGet(index) => number_next(nameless, places, index),
        Instruction::LocalSet(index) => number_next(nameless, places, index),
        Instruction::LocalTee(index) => number_next(nameless, places, index),
        Instruction::GlobalGet(index) => number_next(0, places, index),
        Instruction::GlobalSet(index) => number_next(0, places, index),
        Instruction::Unreachable => places,
        Instruction::Nop => places,
        Instruction::Return => places,
        Instruction::Drop => places,
        Instruction::I32Const(_) => places,
        Instruction::I64Const(_) => places,
        Instruction::I32Add => places,
        Instruction::I32Sub => places,
        Instruction::I32Mul => places,
        Instruction::Other(_) => places,
    }
}

/// Numbers the names in instructions, by the next places. What is left of these behind them.
fn number_instructions<'n, 'a>(
    nameless: u32,
    places: &'n [u32],
    instructions: &mut [Instruction<'a>],
) -> &'n [u32]
    ensures numbered { (source : List Field) (ids : List (Option Id)) (rest : List (Option ℕ)) → FitsBehind nameless ids → map Some places.now ≡ flat_map (place_in_instruction source ids) (map instruction_of instructions.old) ++ rest → map instruction_of instructions.new ≡ map (numbered_instruction source (behind_nameless nameless ids)) (map instruction_of instructions.old) }
    ensures left { (source : List Field) (ids : List (Option Id)) (rest : List (Option ℕ)) → map Some places.now ≡ flat_map (place_in_instruction source ids) (map instruction_of instructions.old) ++ rest → map Some result.now ≡ rest }
{
    let mut left = places;
    for instruction in instructions.iter_mut() {
        left = number_instruction(nameless, left, instruction);
    }
    left
}

/// Numbers the names in the instructions of a function or of an initialiser, by the next places: `nameless` parameters without ids
/// stand in front of its parameters and locals. What is left of the places behind it.
pub(crate) fn number_body<'n, 'a>(
    nameless: u32,
    places: &'n [u32],
    body: &mut Expression<'a>,
) -> &'n [u32]
    ensures numbered { (source : List Field) (ids : List (Option Id)) (rest : List (Option ℕ)) → FitsBehind nameless ids → map Some places.now ≡ flat_map (place_in_instruction source ids) (body_of body.old) ++ rest → body_of body.new ≡ map (numbered_instruction source (behind_nameless nameless ids)) (body_of body.old) }
    ensures left { (source : List Field) (ids : List (Option Id)) (rest : List (Option ℕ)) → map Some places.now ≡ flat_map (place_in_instruction source ids) (body_of body.old) ++ rest → map Some result.now ≡ rest }
{
    number_instructions(nameless, places, body.instrs.as_mut_slice())
}
