//! The lengths of instructions. A name counts as 0: it is no part of resolved fields.

ghost use Rattle.std.specs.Prelude.{◌≡◌, ◌+◌, [], length, map, flat_map};
ghost use Rattle.comp_model.specs.Leb.{uleb};
ghost use Rattle.core_model.specs.Items.{index_of};
ghost use Rattle.core_model.specs.Bytes.{instruction_bytes, expression};
ghost use Rattle.core_syntax.specs.Ids.{reference_of};
ghost use Rattle.core_syntax.specs.Fields.{instruction_of, body_of};
ghost use Rattle.core_syntax.specs.Measures.{capped};

use crate::lengths::add;
use core_syntax::{Expression, Instruction};
use core_write::number_of;
use leb_lengths::{signed_length, uleb_length};
use wast_parser::Index;

/// The length of a byte and the number of a reference.
fn indexed_length(index: &Index<'_>) -> u64
    ensures { result ≡ 1 + length (uleb (index_of [] (reference_of index.now))) }
{
    1 + uleb_length(number_of(index) as u64)
}

/// The length of an instruction.
fn instruction_length(instruction: &Instruction<'_>) -> u64
    ensures { result ≡ length (instruction_bytes [] [] (instruction_of instruction.now)) }
{
    match instruction {
        Instruction::Call(index) => indexed_length(index),
        Instruction::LocalGet(index) => indexed_length(index),
        Instruction::LocalSet(index) => indexed_length(index),
        Instruction::LocalTee(index) => indexed_length(index),
        Instruction::GlobalGet(index) => indexed_length(index),
        Instruction::GlobalSet(index) => indexed_length(index),
        Instruction::I32Const(number) => 1 + signed_length(*number as i64),
        Instruction::I64Const(number) => 1 + signed_length(*number),
        Instruction::Unreachable => 1,
        Instruction::Nop => 1,
        Instruction::Return => 1,
        Instruction::Drop => 1,
        Instruction::I32Add => 1,
        Instruction::I32Sub => 1,
        Instruction::I32Mul => 1,
        Instruction::Other(_) => 0,
    }
}

/// The length of instructions.
fn instructions_length(instructions: &[Instruction<'_>]) -> u64
    ensures { result ≡ capped (length (flat_map (instruction_bytes [] []) (map instruction_of instructions.now))) }
{
    let mut length = 0;
    for instruction in instructions {
        length = add(length, instruction_length(instruction));
    }
    length
}

/// The length of instructions and the byte behind them.
pub(crate) fn expression_length(body: &Expression<'_>) -> u64
    ensures { result ≡ capped (length (expression [] [] (body_of body.now))) }
{
    add(instructions_length(body.instrs.as_slice()), 1)
}
