//! The words of instructions, and the numbers behind them.

ghost use Rattle.std.specs.Prelude.{◌≡◌, ◌≤◌, false, true, MatchOption, IfSome};
ghost use Rattle.std.specs.Int.{w32, w64, cast_unsigned};
ghost use Rattle.wast_grammar.specs.Classes.{among, keyword};
ghost use Rattle.wast_grammar.specs.Stand.{IsInside, class_at, moved};
ghost use Rattle.wast_grammar.specs.Grammar.{constant, is_special, none, num, numbered, special_value};
ghost use Rattle.wast_grammar.specs.Read.{Gives, read};
ghost use Rattle.wast_parser.specs.View.{stand_of};
ghost use Rattle.wast_grammar.specs.CoreRows.{integer_32 as row_32, integer_64 as row_64, operation_words};
ghost use Rattle.core_parts.specs.Operations.{word_of};

use wast_parser::{Cursor, Error, Parser, constant_32, constant_64};

/// An instruction without an operand of its own.
#[derive(Clone, Copy)]
pub enum Plain {
    Unreachable,
    Nop,
    Return,
    Drop,
    I32Add,
    I32Sub,
    I32Mul,
}

/// An instruction with an index, without it.
#[derive(Clone, Copy)]
pub enum Indexed {
    Call,
    LocalGet,
    LocalSet,
    LocalTee,
    GlobalGet,
    GlobalSet,
}

/// What an instruction is by its word.
#[derive(Clone, Copy)]
pub enum Kind {
    Plain(Plain),
    Indexed(Indexed),
    I32Const,
    I64Const,
}

/// The instruction that a word names. Those that stand most often in texts are asked for first.
fn kind_of(word: &str) -> Option<Kind>
    ensures word { MatchOption result (among operation_words (keyword word.now) ≡ false) (λ o. word.now ≡ word_of o) }
{
    match word {
        "local.get" => Some(Kind::Indexed(Indexed::LocalGet)),
        "i32.const" => Some(Kind::I32Const),
        "local.set" => Some(Kind::Indexed(Indexed::LocalSet)),
        "i32.add" => Some(Kind::Plain(Plain::I32Add)),
        "call" => Some(Kind::Indexed(Indexed::Call)),
        "drop" => Some(Kind::Plain(Plain::Drop)),
        "local.tee" => Some(Kind::Indexed(Indexed::LocalTee)),
        "i32.sub" => Some(Kind::Plain(Plain::I32Sub)),
        "i32.mul" => Some(Kind::Plain(Plain::I32Mul)),
        "i64.const" => Some(Kind::I64Const),
        "return" => Some(Kind::Plain(Plain::Return)),
        "global.get" => Some(Kind::Indexed(Indexed::GlobalGet)),
        "global.set" => Some(Kind::Indexed(Indexed::GlobalSet)),
        "nop" => Some(Kind::Plain(Plain::Nop)),
        "unreachable" => Some(Kind::Plain(Plain::Unreachable)),
        _ => None,
    }
}

/// The instruction whose word is next, and the place behind the word.
#[tactic(auto, using(crate::proofs::Looks::no_operation_word))]
pub fn next_kind<'a>(cursor: Cursor<'a>) -> Option<(Kind, Cursor<'a>)>
    ensures next { MatchOption result (among operation_words (class_at (stand_of cursor.entry)) ≡ false) (λ r. (class_at (stand_of cursor.entry) ≡ keyword (word_of r.0)) × (stand_of r.1 ≡ moved (stand_of cursor.entry) 1)) }
    ensures inside { IfSome result (λ r. IsInside (stand_of r.1)) }
{
    match cursor.keyword() {
        Some((word, behind)) => match kind_of(word) {
            Some(kind) => Some((kind, behind)),
            None => None,
        },
        None => None,
    }
}

/// Whether the word of an instruction is next.
#[tactic(auto, using(crate::proofs::Operations::is_among))]
pub fn is_operation(cursor: Cursor<'_>) -> bool
    ensures next { result ≡ among operation_words (class_at (stand_of cursor.entry)) }
{
    next_kind(cursor).is_some()
}

/// The number of an integer of 32 bits, and the place behind it, if it is next.
#[tactic(auto, using(crate::proofs::Looks::is_integer, crate::proofs::Looks::no_integer))]
fn next_constant_32<'a>(cursor: Cursor<'a>) -> Option<(u32, Cursor<'a>)>
    ensures next { MatchOption result (is_special (constant 32) (stand_of cursor.entry) ≡ false) (λ r. (is_special (constant 32) (stand_of cursor.entry) ≡ true) × (num r.0 ≡ special_value (constant 32) (stand_of cursor.entry)) × (stand_of r.1 ≡ moved (stand_of cursor.entry) 1)) }
    ensures inside { IfSome result (λ r. IsInside (stand_of r.1)) }
{
    match cursor.integer() {
        Some((spelled, behind)) => match constant_32(spelled.as_bytes()) {
            Some(number) => Some((number, behind)),
            None => None,
        },
        None => None,
    }
}

/// A number of 32 bits as one with a sign.
#[tactic(auto, using(crate::proofs::Signs::same_bits_32))]
fn signed_32(number: u32) -> i32
    ensures bits { cast_unsigned w32 result ≡ number }
{
    number.cast_signed()
}

/// Reads an integer of 32 bits.
#[tactic(auto, unfolding(wast_grammar::specs::CoreRows::integer_32))]
pub fn integer_32(parser: &mut Parser<'_>) -> Result<i32, Error>
    ensures gives { Gives (λ n. num (cast_unsigned w32 n)) result parser.new (read row_32 parser.old) }
    ensures text { parser.new.text ≡ parser.old.text }
    ensures forward { parser.old.at ≤ parser.new.at }
{
    match next_constant_32(parser.cursor()) {
        Some((number, behind)) => {
            parser.advance(behind);
            Ok(signed_32(number))
        }
        None => Err(parser.error()),
    }
}

/// The number of an integer of 64 bits, and the place behind it, if it is next.
#[tactic(auto, using(crate::proofs::Looks::is_integer, crate::proofs::Looks::no_integer))]
fn next_constant_64<'a>(cursor: Cursor<'a>) -> Option<(u64, Cursor<'a>)>
    ensures next { MatchOption result (is_special (constant 64) (stand_of cursor.entry) ≡ false) (λ r. (is_special (constant 64) (stand_of cursor.entry) ≡ true) × (numbered r.0 none ≡ special_value (constant 64) (stand_of cursor.entry)) × (stand_of r.1 ≡ moved (stand_of cursor.entry) 1)) }
    ensures inside { IfSome result (λ r. IsInside (stand_of r.1)) }
{
    match cursor.integer() {
        Some((spelled, behind)) => match constant_64(spelled.as_bytes()) {
            Some(number) => Some((number, behind)),
            None => None,
        },
        None => None,
    }
}

/// A number of 64 bits as one with a sign.
#[tactic(auto, using(crate::proofs::Signs::same_bits_64))]
fn signed_64(number: u64) -> i64
    ensures bits { cast_unsigned w64 result ≡ number }
{
    number.cast_signed()
}

/// Reads an integer of 64 bits.
#[tactic(auto, unfolding(wast_grammar::specs::CoreRows::integer_64))]
pub fn integer_64(parser: &mut Parser<'_>) -> Result<i64, Error>
    ensures gives { Gives (λ n. numbered (cast_unsigned w64 n) none) result parser.new (read row_64 parser.old) }
    ensures text { parser.new.text ≡ parser.old.text }
    ensures forward { parser.old.at ≤ parser.new.at }
{
    match next_constant_64(parser.cursor()) {
        Some((number, behind)) => {
            parser.advance(behind);
            Ok(signed_64(number))
        }
        None => Err(parser.error()),
    }
}
