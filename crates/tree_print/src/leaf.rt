//! The tokens of single leaves, by how each is printed. A leaf that a field doesn't print has none.

ghost use Rattle.std.specs.Prelude.{◌≡◌, [], ◌∷◌, ◌++◌, OnOk};
ghost use Rattle.comp_model.specs.Core.{counted};
ghost use Rattle.comp_model.specs.Model as m;
ghost use Rattle.comp_wire.specs.Values.{core_value_of, heap_of};
ghost use Rattle.print_table.specs.Tokens.{numeral};
ghost use Rattle.print_table.specs.Lines as t;
ghost use Rattle.print_table.specs.TextOf.{reference, value_tokens, number_tokens, index_tokens, leaf_tokens};
ghost use Rattle.tree_print.specs.Lines.{field_of};
ghost use Rattle.tree_print.specs.Taken.{token_of, taken, step, put};
ghost use Rattle.tree_print.specs.Words.{word_text, word_token, words_tokens, maybe_null};

use crate::line::Field;
use crate::printer::Printer;
use crate::token::Token;
use crate::word::{Word, core_kind_words, kind_words, outer_kind_words, primitive_words, spelling};
use comp_model::Space;
use comp_wire::{WireHeap, WireVal};
use std::alloc::AllocError;

/// Prints a word.
pub fn put_word(printer: &mut Printer, word: Word) -> Result<(), AllocError>
    ensures { OnOk result (taken printer.new ≡ step (word_token word) (taken printer.old)) }
{
    printer.put(Token::Word(spelling(word)))
}

/// Prints words.
pub fn put_words(printer: &mut Printer, words: &[Word]) -> Result<(), AllocError>
    ensures { OnOk result (taken printer.new ≡ put (words_tokens words.now) (taken printer.old)) }
{
    for word in words {
        put_word(printer, *word)?;
    }
    Ok(())
}

/// Prints a text, or the payload of a custom section.
pub fn put_text(printer: &mut Printer, text: &[u8], field: Field) -> Result<(), AllocError>
    ensures { OnOk result (taken printer.new ≡ put (leaf_tokens (m.text text.now) (field_of field)) (taken printer.old)) }
{
    match field {
        Field::Text => printer.put(Token::Text(text)),
        Field::Payload => printer.put(Token::Text(text)),
        _ => Ok(()),
    }
}

/// Prints a word, where a number is 1.
fn put_flag(printer: &mut Printer, number: u32, word: Word) -> Result<(), AllocError>
    ensures { OnOk result (taken printer.new ≡ put (number_tokens number (t.flag (word_text word))) (taken printer.old)) }
{
    if number == 1 {
        return put_word(printer, word);
    }
    Ok(())
}

/// Prints `(` and `mut`, where a number is 1.
fn put_mutable(printer: &mut Printer, number: u32) -> Result<(), AllocError>
    ensures { OnOk result (taken printer.new ≡ put (number_tokens number t.opens_mutable) (taken printer.old)) }
{
    if number == 1 {
        printer.put(Token::Opening)?;
        return put_word(printer, Word::Mut);
    }
    Ok(())
}

/// Prints `)`, where a number is 1.
fn put_mutable_end(printer: &mut Printer, number: u32) -> Result<(), AllocError>
    ensures { OnOk result (taken printer.new ≡ put (number_tokens number t.closes_mutable) (taken printer.old)) }
{
    if number == 1 {
        return printer.put(Token::Closing);
    }
    Ok(())
}

/// Prints a number.
pub fn put_number(printer: &mut Printer, number: u32, field: Field) -> Result<(), AllocError>
    ensures { OnOk result (taken printer.new ≡ put (number_tokens number (field_of field)) (taken printer.old)) }
{
    match field {
        Field::Number => printer.put(Token::Numeral(number)),
        Field::Primitive => put_words(printer, primitive_words(number)),
        Field::Value => put_words(printer, primitive_words(number)),
        Field::Flag(word) => put_flag(printer, number, word),
        Field::OpensMutable => put_mutable(printer, number),
        Field::ClosesMutable => put_mutable_end(printer, number),
        _ => Ok(()),
    }
}

/// Prints words, and an index.
#[tactic(auto, using(crate::proofs::Puts::put_more))]
fn put_item(printer: &mut Printer, words: &[Word], index: u32) -> Result<(), AllocError>
    ensures { OnOk result (taken printer.new ≡ put (words_tokens words.now ++ numeral index ∷ []) (taken printer.old)) }
{
    put_words(printer, words)?;
    printer.put(Token::Numeral(index))
}

/// Prints an index.
pub fn put_index(
    printer: &mut Printer,
    space: Space,
    index: u32,
    field: Field,
) -> Result<(), AllocError>
    ensures { OnOk result (taken printer.new ≡ put (index_tokens space index (field_of field)) (taken printer.old)) }
{
    match field {
        Field::Number => printer.put(Token::Numeral(index)),
        Field::Value => printer.put(Token::Numeral(index)),
        Field::Item => put_item(printer, kind_words(space), index),
        Field::CoreItem => put_item(printer, core_kind_words(space), index),
        _ => Ok(()),
    }
}

/// Prints how many scopes outward.
pub fn put_outward(printer: &mut Printer, count: u32, field: Field) -> Result<(), AllocError>
    ensures { OnOk result (taken printer.new ≡ put (leaf_tokens (m.place (counted 0 count)) (field_of field)) (taken printer.old)) }
{
    match field {
        Field::Number => printer.put(Token::Numeral(count)),
        _ => Ok(()),
    }
}

/// Prints the words of a kind.
pub fn put_kind(printer: &mut Printer, space: Space, field: Field) -> Result<(), AllocError>
    ensures { OnOk result (taken printer.new ≡ put (leaf_tokens (m.kind space) (field_of field)) (taken printer.old)) }
{
    match field {
        Field::Kind => put_words(printer, kind_words(space)),
        Field::CoreKind => put_words(printer, core_kind_words(space)),
        Field::OuterKind => put_words(printer, outer_kind_words(space)),
        _ => Ok(()),
    }
}

/// Prints `null`, where a reference may be null.
fn put_null(printer: &mut Printer, nullable: bool) -> Result<(), AllocError>
    ensures { OnOk result (taken printer.new ≡ put (maybe_null nullable) (taken printer.old)) }
{
    if nullable {
        return put_word(printer, Word::Null);
    }
    Ok(())
}

/// Prints `(ref X)` or `(ref null X)`.
fn put_reference(printer: &mut Printer, nullable: bool, heap: Token<'_>) -> Result<(), AllocError>
    ensures { OnOk result (taken printer.new ≡ put (reference nullable (token_of heap.entry ∷ [])) (taken printer.old)) }
{
    printer.put(Token::Opening)?;
    put_word(printer, Word::Ref)?;
    put_null(printer, nullable)?;
    printer.put(heap)?;
    printer.put(Token::Closing)
}

/// Prints a type of references.
fn put_heap(printer: &mut Printer, nullable: bool, heap: WireHeap) -> Result<(), AllocError>
    ensures { OnOk result (taken printer.new ≡ put (value_tokens (heap_of nullable heap)) (taken printer.old)) }
{
    match heap {
        WireHeap::Func => {
            if nullable {
                return put_word(printer, Word::FuncRef);
            }
            put_reference(printer, nullable, Token::Word("func"))
        }
        WireHeap::Extern => {
            if nullable {
                return put_word(printer, Word::ExternRef);
            }
            put_reference(printer, nullable, Token::Word("extern"))
        }
        WireHeap::Concrete(index) => put_reference(printer, nullable, Token::Numeral(index)),
    }
}

/// Prints a core value type.
fn put_value(printer: &mut Printer, value: WireVal) -> Result<(), AllocError>
    ensures { OnOk result (taken printer.new ≡ put (value_tokens (core_value_of value)) (taken printer.old)) }
{
    match value {
        WireVal::I32 => put_word(printer, Word::I32),
        WireVal::I64 => put_word(printer, Word::I64),
        WireVal::F32 => put_word(printer, Word::F32),
        WireVal::F64 => put_word(printer, Word::F64),
        WireVal::V128 => put_word(printer, Word::V128),
        WireVal::Ref { nullable, heap } => put_heap(printer, nullable, heap),
    }
}

/// Prints a core value type, as its field has it.
pub fn put_core_value(printer: &mut Printer, value: WireVal, field: Field) -> Result<(), AllocError>
    ensures { OnOk result (taken printer.new ≡ put (leaf_tokens (m.core_value (core_value_of value)) (field_of field)) (taken printer.old)) }
{
    match field {
        Field::CoreValue => put_value(printer, value),
        Field::Element => put_value(printer, value),
        _ => Ok(()),
    }
}

/// Prints the results of a start function.
pub fn put_results(printer: &mut Printer, count: u32, field: Field) -> Result<(), AllocError>
    ensures { OnOk result (taken printer.new ≡ put (leaf_tokens (m.result_count count) (field_of field)) (taken printer.old)) }
{
    match field {
        Field::Results => printer.put_results(count),
        _ => Ok(()),
    }
}
