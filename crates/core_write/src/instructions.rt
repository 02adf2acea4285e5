//! Instructions. A name counts as 0: it is no part of resolved fields.

ghost use Rattle.std.specs.Prelude.{◌≡◌, ◌∷◌, [], ◌++◌, flat_map, OnOk};
ghost use Rattle.comp_model.specs.Leb.{uleb as unsigned_bytes};
ghost use Rattle.core_model.specs.Items.{index_of};
ghost use Rattle.core_model.specs.Bytes.{instruction_bytes, expression};
ghost use Rattle.core_syntax.specs.Ids.{reference_of};
ghost use Rattle.core_syntax.specs.Fields.{instruction_of, body_of};

use crate::bytes::push_byte;
use comp_wire::{NoMemory, sleb, uleb};
use core_syntax::{Expression, Instruction};
use std::alloc::Global;
use wast_parser::Index;

/// The number of a reference.
pub fn number_of(index: &Index<'_>) -> u32
    ensures { result ≡ index_of [] (reference_of index.now) }
{
    match index {
        Index::Num(number, _) => *number,
        Index::Id(_) => 0,
    }
}

/// Appends a byte and the number of a reference.
fn push_indexed(
    alloc: Global,
    out: &mut Vec<u8>,
    byte: u8,
    index: &Index<'_>,
) -> Result<(), NoMemory>
    ensures { OnOk result (out.new.items ≡ out.old.items ++ byte ∷ unsigned_bytes (index_of [] (reference_of index.now))) }
{
    push_byte(out, byte)?;
    uleb(alloc, out, number_of(index))
}

/// Appends an instruction.
fn push_instruction(
    alloc: Global,
    out: &mut Vec<u8>,
    instruction: &Instruction<'_>,
) -> Result<(), NoMemory>
    ensures { OnOk result (out.new.items ≡ out.old.items ++ instruction_bytes [] [] (instruction_of instruction.now)) }
{
    match instruction {
        Instruction::Unreachable => push_byte(out, 0x00),
        Instruction::Nop => push_byte(out, 0x01),
        Instruction::Return => push_byte(out, 0x0f),
        Instruction::Call(index) => push_indexed(alloc, out, 0x10, index),
        Instruction::Drop => push_byte(out, 0x1a),
        Instruction::LocalGet(index) => push_indexed(alloc, out, 0x20, index),
        Instruction::LocalSet(index) => push_indexed(alloc, out, 0x21, index),
        Instruction::LocalTee(index) => push_indexed(alloc, out, 0x22, index),
        Instruction::GlobalGet(index) => push_indexed(alloc, out, 0x23, index),
        Instruction::GlobalSet(index) => push_indexed(alloc, out, 0x24, index),
        Instruction::I32Const(number) => {
            push_byte(out, 0x41)?;
            sleb(alloc, out, *number as i64)
        }
        Instruction::I64Const(number) => {
            push_byte(out, 0x42)?;
            sleb(alloc, out, *number)
        }
        Instruction::I32Add => push_byte(out, 0x6a),
        Instruction::I32Sub => push_byte(out, 0x6b),
        Instruction::I32Mul => push_byte(out, 0x6c),
        Instruction::Other(_) => Ok(()),
    }
}

/// Appends instructions and 0b.
pub(crate) fn push_expression(
    alloc: Global,
    out: &mut Vec<u8>,
    body: &Expression<'_>,
) -> Result<(), NoMemory>
    ensures { OnOk result (out.new.items ≡ out.old.items ++ expression [] [] (body_of body.now)) }
{
    for instruction in &body.instrs {
        push_instruction(alloc, out, instruction)?;
    }
    push_byte(out, 0x0b)
}
