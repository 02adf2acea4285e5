//! Functions that are lifted and lowered (Component Model, "Canonical Definitions").

ghost use Rattle.std.specs.Prelude.{◌≡◌, [], None};
ghost use Rattle.comp_model.specs.Rows.{leaves_of};
ghost use Rattle.comp_model.specs.declared.row.Row.TheVariants as rows;
ghost use Rattle.text_rules.specs.CanonRules.{lift};
ghost use Rattle.text_rules.specs.Rule.{reads};
ghost use Rattle.text_table.specs.Code.{rule_of};
ghost use Rattle.typed_parts.specs.Leaves.{left_by};
ghost use Rattle.wast_parser.specs.Standing.{by_relation};
ghost use Rattle.wast_parser.specs.declared.index.Index.TheVariants.{Num};
ghost use Rattle.comp_canon.specs.LineLaws.{lift_reads, lift_shapes, lower_reads};
ghost use Rattle.comp_canon.specs.Lines.{lower};
ghost use Rattle.comp_canon.specs.Stands.{lift_leaves, lower_leaves};

use crate::lines::built_in;
use bumpalo::Bump;
use comp_items::{CanonOpt, CoreItemRef, ItemRef};
use comp_tree::Leaf;
use std::alloc::{AllocError, Global};
use text_table::canons::LIFT;
use text_table::rule::Rule;
use token_codes::numbers as word;
use typed_nodes::{two_from, two_into};
use typed_parts::{OfLeaves, parse_leaves};
use wast_parser::{Error, Index, Parse, Parser, Span, kw};

/// How a core function is lifted. The type of the lift stands beside it.
#[derive(Drop)]
pub struct CanonLift<'a> {
    /// The core function.
    pub func: CoreItemRef<'a, kw::func>,
    /// The options, in the order of the text.
    pub opts: Vec<CanonOpt<'a>>,
}

impl<'a> OfLeaves<'a> for CanonLift<'a> {
    ghost line = { lift };

    ghost is_readable = { lift_reads.taken };

    ghost shapes = { lift_shapes };

    ghost is_of_shapes = { lift_reads.shaped };

    ghost leaves = { lift_leaves };

    fn rule() -> &'static Rule<'static>
        ensures { rule_of result.now ≡ lift }
    {
        LIFT
    }

    fn into_tree<'t>(
        &self,
        alloc: Global,
        bump: &'t Bump,
    ) -> Result<&'t [Leaf<'t, 'a>], AllocError> {
        two_into::<CoreItemRef<'a, kw::func>, Vec<CanonOpt<'a>>>(
            alloc, bump, &self.func, &self.opts,
        )
    }

    fn from_tree(
        alloc: Global,
        bump: &'a Bump,
        parts: &[Leaf<'_, 'a>],
    ) -> Result<CanonLift<'a>, AllocError> {
        let (func, opts) = two_from::<CoreItemRef<'a, kw::func>, Vec<CanonOpt<'a>>>(
            alloc, bump, parts,
        )?;
        Ok(CanonLift { func, opts })
    }
}

/// `"lift" "(" "core" "func" idx text? ")" opt*`.
impl<'a> Parse<'a> for CanonLift<'a> {
    ghost grammar = { reads lift };

    ghost is_sound = { lift_reads.read_on };

    ghost is_clear = { lift_reads.decided };

    ghost stands = { by_relation (λ x v. lift_leaves x ≡ left_by lift v) };

    fn parse(alloc: Global, parser: &mut Parser<'a>) -> Result<CanonLift<'a>, Error> {
        parse_leaves::<CanonLift<'a>>(alloc, parser)
    }
}

impl<'a> CanonLift<'a> {
    /// The function 0 of its space, without options.
    pub fn placeholder(alloc: Global) -> CanonLift<'a>
        ensures func { result.func.idx ≡ Num 0 (record { offset = 0 }) }
        ensures names { result.func.export_name ≡ None }
        ensures opts { result.opts.items ≡ [] }
    {
        CanonLift {
            func: CoreItemRef {
                kind: kw::func::default(),
                idx: first(),
                export_name: None,
            },
            opts: Vec::new(alloc),
        }
    }
}

/// A core function that calls a function of the component.
#[derive(Drop)]
pub struct CanonLower<'a> {
    /// The function.
    pub func: ItemRef<'a, kw::func>,
    /// The options, in the order of the text.
    pub opts: Vec<CanonOpt<'a>>,
}

impl<'a> OfLeaves<'a> for CanonLower<'a> {
    ghost line = { lower };

    ghost is_readable = { lower_reads.taken };

    ghost shapes = { leaves_of rows.Lower };

    ghost is_of_shapes = { lower_reads.shaped };

    ghost leaves = { lower_leaves };

    fn rule() -> &'static Rule<'static>
        ensures { rule_of result.now ≡ lower }
    {
        built_in(word::LOWER)
    }

    fn into_tree<'t>(
        &self,
        alloc: Global,
        bump: &'t Bump,
    ) -> Result<&'t [Leaf<'t, 'a>], AllocError> {
        two_into::<ItemRef<'a, kw::func>, Vec<CanonOpt<'a>>>(alloc, bump, &self.func, &self.opts)
    }

    fn from_tree(
        alloc: Global,
        bump: &'a Bump,
        parts: &[Leaf<'_, 'a>],
    ) -> Result<CanonLower<'a>, AllocError> {
        let (func, opts) = two_from::<ItemRef<'a, kw::func>, Vec<CanonOpt<'a>>>(
            alloc, bump, parts,
        )?;
        Ok(CanonLower { func, opts })
    }
}

/// `"lower" "(" "func" idx text* ")" opt*`.
impl<'a> Parse<'a> for CanonLower<'a> {
    ghost grammar = { reads lower };

    ghost is_sound = { lower_reads.read_on };

    ghost is_clear = { lower_reads.decided };

    ghost stands = { by_relation (λ x v. lower_leaves x ≡ left_by lower v) };

    fn parse(alloc: Global, parser: &mut Parser<'a>) -> Result<CanonLower<'a>, Error> {
        parse_leaves::<CanonLower<'a>>(alloc, parser)
    }
}

impl<'a> CanonLower<'a> {
    /// The function 0 of its space, without options.
    pub fn placeholder(alloc: Global) -> CanonLower<'a>
        ensures func { result.func.idx ≡ Num 0 (record { offset = 0 }) }
        ensures names { result.func.export_names.items ≡ [] }
        ensures opts { result.opts.items ≡ [] }
    {
        CanonLower {
            func: ItemRef {
                kind: kw::func::default(),
                idx: first(),
                export_names: Vec::new(alloc),
            },
            opts: Vec::new(alloc),
        }
    }
}

/// The number 0, as an index that stands nowhere.
fn first<'a>() -> Index<'a>
    ensures { result ≡ Num 0 (record { offset = 0 }) }
{
    Index::Num(0, Span::from_offset(0))
}
