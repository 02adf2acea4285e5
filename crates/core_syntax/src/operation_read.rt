//! The readers of one instruction, by its word, which is told once, and what stands behind it.

ghost use Rattle.std.specs.Prelude.{◌≡◌, ◌≤◌, false, IfOk};
ghost use Rattle.wast_grammar.specs.Classes.{keyword};
ghost use Rattle.wast_grammar.specs.Stand.{class_at};
ghost use Rattle.wast_grammar.specs.Grammar.{left, num};
ghost use Rattle.wast_grammar.specs.Read.{Gives, read};
ghost use Rattle.wast_grammar.specs.CoreRows.{operation};
ghost use Rattle.core_syntax.specs.CoreView.{indexed_by, instruction_view, is_other};
ghost use Rattle.core_parts.specs.Operations.{indexed_number, operands_of, plain_number, word_of};

use crate::instructions::Instruction;
use core_parts::{Indexed, Kind, Plain, integer_32, integer_64, next_kind};
use std::alloc::Global;
use wast_parser::{Error, Index, Parser};

/// An instruction without an operand.
fn without_operand<'a>(plain: Plain) -> Instruction<'a>
    ensures view { instruction_view result ≡ left (num (plain_number plain)) }
    ensures written { is_other result ≡ false }
{
    match plain {
        Plain::Unreachable => Instruction::Unreachable,
        Plain::Nop => Instruction::Nop,
        Plain::Return => Instruction::Return,
        Plain::Drop => Instruction::Drop,
        Plain::I32Add => Instruction::I32Add,
        Plain::I32Sub => Instruction::I32Sub,
        Plain::I32Mul => Instruction::I32Mul,
    }
}

/// The instruction with its index.
fn with_index<'a>(indexed: Indexed, index: Index<'a>) -> Instruction<'a>
    ensures view { instruction_view result ≡ indexed_by (indexed_number indexed) index.entry }
    ensures written { is_other result ≡ false }
{
    match indexed {
        Indexed::Call => Instruction::Call(index),
        Indexed::LocalGet => Instruction::LocalGet(index),
        Indexed::LocalSet => Instruction::LocalSet(index),
        Indexed::LocalTee => Instruction::LocalTee(index),
        Indexed::GlobalGet => Instruction::GlobalGet(index),
        Indexed::GlobalSet => Instruction::GlobalSet(index),
    }
}

/// Reads what stands behind the word of an instruction.
fn operands<'a>(
    alloc: Global,
    parser: &mut Parser<'a>,
    kind: Kind,
) -> Result<Instruction<'a>, Error>
    ensures gives { Gives instruction_view result parser.new (operands_of kind parser.old) }
    ensures written { IfOk result (λ i. is_other i ≡ false) }
    ensures text { parser.new.text ≡ parser.old.text }
    ensures forward { parser.old.at ≤ parser.new.at }
{
    match kind {
        Kind::Plain(plain) => Ok(without_operand(plain)),
        Kind::Indexed(indexed) => {
            let index = parser.parse::<Index<'a>>(alloc)?;
            Ok(with_index(indexed, index))
        }
        Kind::I32Const => Ok(Instruction::I32Const(integer_32(parser)?)),
        Kind::I64Const => Ok(Instruction::I64Const(integer_64(parser)?)),
    }
}

/// Reads an instruction whose word is next, and was told.
pub(crate) fn operation_of<'a>(
    alloc: Global,
    parser: &mut Parser<'a>,
    kind: Kind,
) -> Result<Instruction<'a>, Error>
    requires { class_at parser.old ≡ keyword (word_of kind) }
    ensures gives { Gives instruction_view result parser.new (read operation parser.old) }
    ensures written { IfOk result (λ i. is_other i ≡ false) }
    ensures text { parser.new.text ≡ parser.old.text }
    ensures forward { parser.old.at ≤ parser.new.at }
{
    let behind = parser.cursor().behind();
    parser.advance(behind);
    operands(alloc, parser, kind)
}

/// Reads an instruction by its word.
pub(crate) fn operation<'a>(
    alloc: Global,
    parser: &mut Parser<'a>,
) -> Result<Instruction<'a>, Error>
    ensures gives { Gives instruction_view result parser.new (read operation parser.old) }
    ensures written { IfOk result (λ i. is_other i ≡ false) }
    ensures text { parser.new.text ≡ parser.old.text }
    ensures forward { parser.old.at ≤ parser.new.at }
{
    match next_kind(parser.cursor()) {
        Some((kind, _)) => operation_of(alloc, parser, kind),
        None => Err(parser.error()),
    }
}
