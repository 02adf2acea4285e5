//! The readers of functions and globals.

ghost use Rattle.std.specs.Prelude.{◌≡◌, []};
ghost use Rattle.wast_grammar.specs.Grammar.{both};
ghost use Rattle.core_syntax.specs.CoreView.{func_parts_view, func_rest_view, global_parts_view, global_rest_view, head_view};

use crate::fields::{Func, GlobalField, Local};
use crate::global_read::GlobalType;
use crate::instructions::Expression;
use crate::types::{TypeUse, ValType};
use core_parts::{
    Groups, Head, InlineImport, Joined, Part, in_turn, is_inline_import, word_and_two,
};
use std::alloc::Global;
use wast_parser::{Error, Parse, ParseView, Parser, Span};

/// What follows the inline exports of a function.
#[derive(Drop)]
pub(crate) struct FuncRest<'a> {
    pub(crate) import: Option<(&'a str, &'a str)>,
    pub(crate) ty: TypeUse<'a>,
    pub(crate) locals: Vec<Local<'a>>,
    pub(crate) body: Expression<'a>,
}

/// What follows the inline exports of a global.
#[derive(Drop)]
pub(crate) struct GlobalRest<'a> {
    pub(crate) import: Option<(&'a str, &'a str)>,
    pub(crate) ty: ValType<'a>,
    pub(crate) mutable: bool,
    pub(crate) init: Expression<'a>,
}

/// The locals and the instructions of a function.
type LocalsAndBody<'a> = Joined<Groups<Local<'a>>, Expression<'a>>;

/// An expression without instructions.
fn no_instructions<'a>(alloc: Global) -> Expression<'a>
    ensures none { result.instrs.items ≡ [] }
{
    Expression {
        instrs: Vec::new(alloc),
    }
}

impl<'a> Part<'a> for FuncRest<'a> {
    ghost use Rattle.wast_grammar.specs.CoreRows.{func_rest};
    ghost use Rattle.core_syntax.specs.CoreView.{func_rest_view};

    ghost part_row = { func_rest };

    ghost view = { λ x. func_rest_view x.import x.ty x.locals.items x.body };

    #[tactic(auto, unfolding(wast_grammar::specs::CoreRows::func_rest, wast_grammar::specs::CoreRows::imported_func, wast_grammar::specs::CoreRows::defined_func, wast_grammar::specs::CoreRows::locals_and_body, wast_grammar::specs::CoreRows::locals))]
    fn part(alloc: Global, parser: &mut Parser<'a>) -> Result<FuncRest<'a>, Error> {
        if is_inline_import(parser) {
            return match in_turn::<InlineImport<'a>, TypeUse<'a>>(alloc, parser) {
                Ok((InlineImport { names }, ty)) => Ok(FuncRest {
                    import: Some(names),
                    ty,
                    locals: Vec::new(alloc),
                    body: no_instructions(alloc),
                }),
                Err(error) => Err(error),
            };
        }
        match in_turn::<TypeUse<'a>, LocalsAndBody<'a>>(alloc, parser) {
            Ok((ty, Joined { first, second })) => Ok(FuncRest {
                import: None,
                ty,
                locals: first.items,
                body: second,
            }),
            Err(error) => Err(error),
        }
    }
}

/// A function of its parts.
fn func_of<'a>(span: Span, head: Head<'a>, rest: FuncRest<'a>) -> Func<'a>
    ensures parts { func_parts_view result ≡ both (head_view head.entry.names head.entry.exports.items) (func_rest_view rest.entry.import rest.entry.ty rest.entry.locals.items rest.entry.body) }
    ensures span { result.span ≡ span }
{
    let Head { names, exports } = head;
    let (id, name) = names;
    let FuncRest {
        import,
        ty,
        locals,
        body,
    } = rest;
    Func {
        span,
        id,
        name,
        exports,
        import,
        ty,
        locals,
        body,
    }
}

/// What stands in the parentheses of a function, from its word on.
impl<'a> Parse<'a> for Func<'a> {
    ghost use Rattle.wast_grammar.specs.CoreRows.{func_field};
    ghost use Rattle.core_syntax.specs.CoreLaws.{readable_func_field};
    ghost use Rattle.core_syntax.specs.CoreView.{func_view};
    ghost use Rattle.wast_parser.specs.Standing.{by_view};

    ghost grammar = { func_field };

    ghost is_sound = { readable_func_field.0 };

    ghost is_clear = { readable_func_field.1 };

    ghost stands = { by_view func_view };

    #[tactic(auto, unfolding(wast_grammar::specs::CoreRows::func_field, wast_grammar::specs::CoreRows::func_parts))]
    fn parse(alloc: Global, parser: &mut Parser<'a>) -> Result<Func<'a>, Error> {
        let span = parser.cur_span();
        match word_and_two::<Head<'a>, FuncRest<'a>>(alloc, parser, "func") {
            Ok((head, rest)) => Ok(func_of(span, head, rest)),
            Err(error) => Err(error),
        }
    }
}

impl<'a> ParseView<'a> for Func<'a> {
    ghost use Rattle.core_syntax.specs.CoreView.{func_view};

    ghost view = { func_view };

    ghost is_view = { λ x v h. h };
}

impl<'a> Part<'a> for GlobalRest<'a> {
    ghost use Rattle.wast_grammar.specs.CoreRows.{global_rest};
    ghost use Rattle.core_syntax.specs.CoreView.{global_rest_view};

    ghost part_row = { global_rest };

    ghost view = { λ x. global_rest_view x.import (x.ty, x.mutable) x.init };

    #[tactic(auto, unfolding(wast_grammar::specs::CoreRows::global_rest, wast_grammar::specs::CoreRows::imported_global, wast_grammar::specs::CoreRows::defined_global))]
    fn part(alloc: Global, parser: &mut Parser<'a>) -> Result<GlobalRest<'a>, Error> {
        if is_inline_import(parser) {
            return match in_turn::<InlineImport<'a>, GlobalType<'a>>(alloc, parser) {
                Ok((InlineImport { names }, GlobalType { ty, mutable })) => Ok(GlobalRest {
                    import: Some(names),
                    ty,
                    mutable,
                    init: no_instructions(alloc),
                }),
                Err(error) => Err(error),
            };
        }
        match in_turn::<GlobalType<'a>, Expression<'a>>(alloc, parser) {
            Ok((GlobalType { ty, mutable }, init)) => Ok(GlobalRest {
                import: None,
                ty,
                mutable,
                init,
            }),
            Err(error) => Err(error),
        }
    }
}

/// A global of its parts.
fn global_of<'a>(span: Span, head: Head<'a>, rest: GlobalRest<'a>) -> GlobalField<'a>
    ensures parts { global_parts_view result ≡ both (head_view head.entry.names head.entry.exports.items) (global_rest_view rest.entry.import (rest.entry.ty, rest.entry.mutable) rest.entry.init) }
    ensures span { result.span ≡ span }
{
    let Head { names, exports } = head;
    let (id, name) = names;
    let GlobalRest {
        import,
        ty,
        mutable,
        init,
    } = rest;
    GlobalField {
        span,
        id,
        name,
        exports,
        import,
        ty,
        mutable,
        init,
    }
}

/// What stands in the parentheses of a global, from its word on.
impl<'a> Parse<'a> for GlobalField<'a> {
    ghost use Rattle.wast_grammar.specs.CoreRows.{global_field};
    ghost use Rattle.core_syntax.specs.CoreLaws.{readable_global_field};
    ghost use Rattle.core_syntax.specs.CoreView.{global_view};
    ghost use Rattle.wast_parser.specs.Standing.{by_view};

    ghost grammar = { global_field };

    ghost is_sound = { readable_global_field.0 };

    ghost is_clear = { readable_global_field.1 };

    ghost stands = { by_view global_view };

    #[tactic(auto, unfolding(wast_grammar::specs::CoreRows::global_field, wast_grammar::specs::CoreRows::global_parts))]
    fn parse(alloc: Global, parser: &mut Parser<'a>) -> Result<GlobalField<'a>, Error> {
        let span = parser.cur_span();
        match word_and_two::<Head<'a>, GlobalRest<'a>>(alloc, parser, "global") {
            Ok((head, rest)) => Ok(global_of(span, head, rest)),
            Err(error) => Err(error),
        }
    }
}

impl<'a> ParseView<'a> for GlobalField<'a> {
    ghost use Rattle.core_syntax.specs.CoreView.{global_view};

    ghost view = { global_view };

    ghost is_view = { λ x v h. h };
}
