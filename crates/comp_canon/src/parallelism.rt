//! The built-in that tells how many threads may run (Component Model, "Canonical Built-ins").

ghost use Rattle.std.specs.Prelude.{◌≡◌};
ghost use Rattle.comp_model.specs.Model.{no_leaf};
ghost use Rattle.comp_model.specs.Rows.{leaves_of};
ghost use Rattle.comp_model.specs.declared.row.Row.TheVariants as rows;
ghost use Rattle.text_rules.specs.Rule.{reads};
ghost use Rattle.text_table.specs.Code.{rule_of};
ghost use Rattle.typed_parts.specs.Leaves.{left_by};
ghost use Rattle.wast_parser.specs.Standing.{by_relation};
ghost use Rattle.comp_canon.specs.LineLaws.{thread_available_parallelism_reads};
ghost use Rattle.comp_canon.specs.Lines.{thread_available_parallelism};

use bumpalo::Bump;
use comp_model::Row;
use comp_tree::Leaf;
use std::alloc::{AllocError, Global};
use text_table::rule::Rule::{Case, End, NoCase, Of, Word};
use text_table::rule::{Rule, Test};
use token_codes::numbers as word;
use typed_parts::{OfLeaves, parse_leaves};
use wast_parser::{Error, Parse, Parser};

/// What tells how many threads may run at a time.
#[derive(Drop)]
pub struct CanonThreadAvailableParallelism;

/// The line of the built-in by one spelling of its word.
macro_rules! line {
    ($word:expr) => {
        &Of(Row::ThreadAvailableParallelism, &Word($word, &End))
    };
}

const LINES: &Rule<'static> = &Case(
    0,
    &Test::Next(word::THREAD_AVAILABLE_PARALLELISM),
    line!(word::THREAD_AVAILABLE_PARALLELISM),
    &Case(
        1,
        &Test::Next(word::THREAD_AVAILABLE_PARALLELISM_OLDER),
        line!(word::THREAD_AVAILABLE_PARALLELISM_OLDER),
        &NoCase,
    ),
);

impl<'a> OfLeaves<'a> for CanonThreadAvailableParallelism {
    ghost line = { thread_available_parallelism };

    ghost is_readable = { thread_available_parallelism_reads.taken };

    ghost shapes = { leaves_of rows.ThreadAvailableParallelism };

    ghost is_of_shapes = { thread_available_parallelism_reads.shaped };

    ghost leaves = { λ _. no_leaf };

    fn rule() -> &'static Rule<'static>
        ensures { rule_of result.now ≡ thread_available_parallelism }
    {
        LINES
    }

    fn into_tree<'t>(
        &self,
        alloc: Global,
        bump: &'t Bump,
    ) -> Result<&'t [Leaf<'t, 'a>], AllocError> {
        let leaves: &'t [Leaf<'t, 'a>] = &[];
        Ok(leaves)
    }

    fn from_tree(
        alloc: Global,
        bump: &'a Bump,
        parts: &[Leaf<'_, 'a>],
    ) -> Result<CanonThreadAvailableParallelism, AllocError> {
        Ok(CanonThreadAvailableParallelism)
    }
}

/// `"thread.available-parallelism"`, or in its older spelling `"thread.available_parallelism"`.
impl<'a> Parse<'a> for CanonThreadAvailableParallelism {
    ghost grammar = { reads thread_available_parallelism };

    ghost is_sound = { thread_available_parallelism_reads.read_on };

    ghost is_clear = { thread_available_parallelism_reads.decided };

    ghost stands = { by_relation (λ x v. no_leaf ≡ left_by thread_available_parallelism v) };

    fn parse(
        alloc: Global,
        parser: &mut Parser<'a>,
    ) -> Result<CanonThreadAvailableParallelism, Error> {
        parse_leaves::<CanonThreadAvailableParallelism>(alloc, parser)
    }
}
