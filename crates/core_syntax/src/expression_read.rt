//! Instructions that are folded to any depth, read by a loop with a list of those whose groups are open.

ghost use Rattle.std.specs.Prelude.{◌≡◌, ◌≤◌, ◌∷◌, ◌++◌, [], MatchOption};
ghost use Rattle.wast_grammar.specs.Classes.{keyword, opening};
ghost use Rattle.wast_grammar.specs.Stand.{class_after};
ghost use Rattle.wast_grammar.specs.Grammar.{before, none};
ghost use Rattle.wast_grammar.specs.Read.{Gives, read};
ghost use Rattle.wast_parser.specs.View.{many_view};
ghost use Rattle.wast_grammar.specs.CoreRows.{instructions, operation};
ghost use Rattle.core_syntax.specs.CoreView.{expression_view, instruction_view};
ghost use Rattle.core_parts.specs.Operations.{word_of};

use crate::instructions::{Expression, Instruction};
use crate::operation_read::{operation, operation_of};
use core_parts::{Kind, Next, is_operation, next_turn, other_operation, take_end};
use std::alloc::Global;
use wast_parser::{Error, Parse, ParseView, Parser};

/// Reads an instruction that begins a group, whose word was told.
fn in_group<'a>(
    alloc: Global,
    parser: &mut Parser<'a>,
    kind: Kind,
) -> Result<Instruction<'a>, Error>
    requires { class_after parser.old ≡ keyword (word_of kind) }
    ensures gives { Gives instruction_view result parser.new (read (before opening operation) parser.old) }
    ensures text { parser.new.text ≡ parser.old.text }
    ensures forward { parser.old.at ≤ parser.new.at }
{
    parser.enter()?;
    let instruction = operation_of(alloc, parser, kind)?;
    Ok(instruction)
}

/// One instruction by its word, or what is left of a list that begins otherwise.
impl<'a> Parse<'a> for Instruction<'a> {
    ghost use Rattle.wast_grammar.specs.CoreRows.{instruction};
    ghost use Rattle.core_syntax.specs.CoreLaws.{readable_instruction};
    ghost use Rattle.core_syntax.specs.CoreView.{alone_view};
    ghost use Rattle.wast_parser.specs.Standing.{by_view};

    ghost grammar = { instruction };

    ghost is_sound = { readable_instruction.0 };

    ghost is_clear = { readable_instruction.1 };

    ghost stands = { by_view alone_view };

    #[tactic(auto, unfolding(wast_grammar::specs::CoreRows::instruction))]
    fn parse(alloc: Global, parser: &mut Parser<'a>) -> Result<Instruction<'a>, Error> {
        if is_operation(parser.cursor()) {
            return operation(alloc, parser);
        }
        match other_operation(parser) {
            Ok(span) => Ok(Instruction::Other(span)),
            Err(error) => Err(error),
        }
    }
}

impl<'a> ParseView<'a> for Instruction<'a> {
    ghost use Rattle.core_syntax.specs.CoreView.{alone_view};

    ghost view = { alone_view };

    ghost is_view = { λ x v h. h };
}

/// Takes the innermost instruction whose group is open.
fn take_innermost<'a>(begun: &mut Vec<Instruction<'a>>) -> Option<Instruction<'a>>
    ensures taken { MatchOption result (begun.old.items ≡ []) (λ x. begun.old.items ≡ begun.new.items ++ x ∷ []) }
{
    begun.pop()
}

/// Reads instructions up to the end of the group onto `instrs`, which is empty; `begun` holds those whose groups are open, none at
/// first. What a refusal leaves in either is nothing to go by.
fn instructions_into<'a>(
    alloc: Global,
    parser: &mut Parser<'a>,
    instrs: &mut Vec<Instruction<'a>>,
    begun: &mut Vec<Instruction<'a>>,
) -> Result<(), Error>
    requires none { instrs.old.items ≡ [] }
    requires closed { begun.old.items ≡ [] }
    ensures gives { Gives (λ _. many_view instruction_view instrs.new.items) result parser.new (read instructions parser.old) }
    ensures text { parser.new.text ≡ parser.old.text }
    ensures forward { parser.old.at ≤ parser.new.at }
{
    'turns: loop {
        match next_turn(parser) {
            Next::Operation(kind) => {
                let instruction = operation_of(alloc, parser, kind)?;
                instrs.push(instruction)?;
            }
            Next::Group(kind) => {
                let instruction = in_group(alloc, parser, kind)?;
                begun.push(instruction)?;
            }
            Next::GroupEnd => match take_innermost(begun) {
                Some(instruction) => {
                    take_end(parser);
                    instrs.push(instruction)?;
                }
                None => return Ok(()),
            },
            Next::TextEnd => match take_innermost(begun) {
                Some(_) => return Err(parser.error()),
                None => return Ok(()),
            },
            Next::Other => {
                let span = other_operation(parser)?;
                instrs.push(Instruction::Other(span))?;
            }
        }
    }
}

/// Gives back the room of a list that was read, where that is for many more than it has.
fn give_back<'a>(instrs: &mut Vec<Instruction<'a>>)
    ensures same { instrs.new.items ≡ instrs.old.items }
{
    if instrs.capacity() - instrs.len() >= 4 {
        instrs.shrink_to_fit();
    }
}

/// Instructions up to the end of the group, those that are folded laid out in order.
impl<'a> Parse<'a> for Expression<'a> {
    ghost use Rattle.core_syntax.specs.CoreLaws.{readable_instructions};
    ghost use Rattle.wast_parser.specs.Standing.{by_view};

    ghost grammar = { instructions };

    ghost is_sound = { readable_instructions.0 };

    ghost is_clear = { readable_instructions.1 };

    ghost stands = { by_view expression_view };

    fn parse(alloc: Global, parser: &mut Parser<'a>) -> Result<Expression<'a>, Error> {
        let mut instrs = Vec::new(alloc);
        let mut begun = Vec::new(alloc);
        match instructions_into(alloc, parser, &mut instrs, &mut begun) {
            Ok(()) => {
                give_back(&mut instrs);
                Ok(Expression { instrs })
            }
            Err(error) => Err(error),
        }
    }
}

impl<'a> ParseView<'a> for Expression<'a> {
    ghost view = { expression_view };

    ghost is_view = { λ x v h. h };
}
