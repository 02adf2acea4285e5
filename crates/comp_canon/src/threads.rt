//! Built-ins of threads (Component Model, "Canonical Definitions").

ghost use Rattle.std.specs.Prelude.{◌≡◌};
ghost use Rattle.comp_model.specs.Rows.{leaves_of};
ghost use Rattle.comp_model.specs.declared.row.Row.TheVariants as rows;
ghost use Rattle.text_rules.specs.Rule.{reads};
ghost use Rattle.text_table.specs.Code.{rule_of};
ghost use Rattle.typed_parts.specs.Leaves.{left_by};
ghost use Rattle.wast_parser.specs.Standing.{by_relation};
ghost use Rattle.comp_canon.specs.LineLaws.{thread_spawn_ref_reads, thread_spawn_indirect_reads, thread_new_indirect_reads};
ghost use Rattle.comp_canon.specs.Lines.{thread_spawn_ref, thread_spawn_indirect, thread_new_indirect};
ghost use Rattle.comp_canon.specs.Stands.{thread_spawn_ref_leaves, thread_spawn_indirect_leaves, thread_new_indirect_leaves};

use crate::lines::built_in;
use bumpalo::Bump;
use comp_items::CoreItemRef;
use comp_tree::Leaf;
use std::alloc::{AllocError, Global};
use text_table::rule::Rule;
use token_codes::numbers as word;
use typed_nodes::{one_from, one_into, two_from, two_into};
use typed_parts::{OfLeaves, parse_leaves};
use wast_parser::{Error, Parse, Parser, kw};

/// What starts a thread by a reference to its function.
#[derive(Drop)]
pub struct CanonThreadSpawnRef<'a> {
    /// The type of the function that the thread runs.
    pub ty: CoreItemRef<'a, kw::type_>,
}

impl<'a> OfLeaves<'a> for CanonThreadSpawnRef<'a> {
    ghost line = { thread_spawn_ref };

    ghost is_readable = { thread_spawn_ref_reads.taken };

    ghost shapes = { leaves_of rows.ThreadSpawnRef };

    ghost is_of_shapes = { thread_spawn_ref_reads.shaped };

    ghost leaves = { thread_spawn_ref_leaves };

    fn rule() -> &'static Rule<'static>
        ensures { rule_of result.now ≡ thread_spawn_ref }
    {
        built_in(word::THREAD_SPAWN_REF)
    }

    fn into_tree<'t>(
        &self,
        alloc: Global,
        bump: &'t Bump,
    ) -> Result<&'t [Leaf<'t, 'a>], AllocError> {
        one_into::<CoreItemRef<'a, kw::type_>>(alloc, bump, &self.ty)
    }

    fn from_tree(
        alloc: Global,
        bump: &'a Bump,
        parts: &[Leaf<'_, 'a>],
    ) -> Result<CanonThreadSpawnRef<'a>, AllocError> {
        let ty = one_from::<CoreItemRef<'a, kw::type_>>(alloc, bump, parts)?;
        Ok(CanonThreadSpawnRef { ty })
    }
}

/// `"thread.spawn-ref" nref("type")`.
impl<'a> Parse<'a> for CanonThreadSpawnRef<'a> {
    ghost grammar = { reads thread_spawn_ref };

    ghost is_sound = { thread_spawn_ref_reads.read_on };

    ghost is_clear = { thread_spawn_ref_reads.decided };

    ghost stands = { by_relation (λ x v. thread_spawn_ref_leaves x ≡ left_by thread_spawn_ref v) };

    fn parse(alloc: Global, parser: &mut Parser<'a>) -> Result<CanonThreadSpawnRef<'a>, Error> {
        parse_leaves::<CanonThreadSpawnRef<'a>>(alloc, parser)
    }
}

/// What starts a thread by the place of its function in a table.
#[derive(Drop)]
pub struct CanonThreadSpawnIndirect<'a> {
    /// The type of the function that the thread runs.
    pub ty: CoreItemRef<'a, kw::type_>,
    /// The table of functions.
    pub table: CoreItemRef<'a, kw::table>,
}

impl<'a> OfLeaves<'a> for CanonThreadSpawnIndirect<'a> {
    ghost line = { thread_spawn_indirect };

    ghost is_readable = { thread_spawn_indirect_reads.taken };

    ghost shapes = { leaves_of rows.ThreadSpawnIndirect };

    ghost is_of_shapes = { thread_spawn_indirect_reads.shaped };

    ghost leaves = { thread_spawn_indirect_leaves };

    fn rule() -> &'static Rule<'static>
        ensures { rule_of result.now ≡ thread_spawn_indirect }
    {
        built_in(word::THREAD_SPAWN_INDIRECT)
    }

    fn into_tree<'t>(
        &self,
        alloc: Global,
        bump: &'t Bump,
    ) -> Result<&'t [Leaf<'t, 'a>], AllocError> {
        two_into::<CoreItemRef<'a, kw::type_>, CoreItemRef<'a, kw::table>>(
            alloc,
            bump,
            &self.ty,
            &self.table,
        )
    }

    fn from_tree(
        alloc: Global,
        bump: &'a Bump,
        parts: &[Leaf<'_, 'a>],
    ) -> Result<CanonThreadSpawnIndirect<'a>, AllocError> {
        let (ty, table) = two_from::<CoreItemRef<'a, kw::type_>, CoreItemRef<'a, kw::table>>(
            alloc, bump, parts,
        )?;
        Ok(CanonThreadSpawnIndirect { ty, table })
    }
}

/// `"thread.spawn-indirect" nref("type") cref("table")`.
impl<'a> Parse<'a> for CanonThreadSpawnIndirect<'a> {
    ghost grammar = { reads thread_spawn_indirect };

    ghost is_sound = { thread_spawn_indirect_reads.read_on };

    ghost is_clear = { thread_spawn_indirect_reads.decided };

    ghost stands = { by_relation (λ x v. thread_spawn_indirect_leaves x ≡ left_by thread_spawn_indirect v) };

    fn parse(
        alloc: Global,
        parser: &mut Parser<'a>,
    ) -> Result<CanonThreadSpawnIndirect<'a>, Error> {
        parse_leaves::<CanonThreadSpawnIndirect<'a>>(alloc, parser)
    }
}

/// What makes a thread by the place of its function in a table.
#[derive(Drop)]
pub struct CanonThreadNewIndirect<'a> {
    /// The type of the function that the thread runs.
    pub ty: CoreItemRef<'a, kw::type_>,
    /// The table of functions.
    pub table: CoreItemRef<'a, kw::table>,
}

impl<'a> OfLeaves<'a> for CanonThreadNewIndirect<'a> {
    ghost line = { thread_new_indirect };

    ghost is_readable = { thread_new_indirect_reads.taken };

    ghost shapes = { leaves_of rows.ThreadNewIndirect };

    ghost is_of_shapes = { thread_new_indirect_reads.shaped };

    ghost leaves = { thread_new_indirect_leaves };

    fn rule() -> &'static Rule<'static>
        ensures { rule_of result.now ≡ thread_new_indirect }
    {
        built_in(word::THREAD_NEW_INDIRECT)
    }

    fn into_tree<'t>(
        &self,
        alloc: Global,
        bump: &'t Bump,
    ) -> Result<&'t [Leaf<'t, 'a>], AllocError> {
        two_into::<CoreItemRef<'a, kw::type_>, CoreItemRef<'a, kw::table>>(
            alloc,
            bump,
            &self.ty,
            &self.table,
        )
    }

    fn from_tree(
        alloc: Global,
        bump: &'a Bump,
        parts: &[Leaf<'_, 'a>],
    ) -> Result<CanonThreadNewIndirect<'a>, AllocError> {
        let (ty, table) = two_from::<CoreItemRef<'a, kw::type_>, CoreItemRef<'a, kw::table>>(
            alloc, bump, parts,
        )?;
        Ok(CanonThreadNewIndirect { ty, table })
    }
}

/// `"thread.new-indirect" nref("type") cref("table")`.
impl<'a> Parse<'a> for CanonThreadNewIndirect<'a> {
    ghost grammar = { reads thread_new_indirect };

    ghost is_sound = { thread_new_indirect_reads.read_on };

    ghost is_clear = { thread_new_indirect_reads.decided };

    ghost stands = { by_relation (λ x v. thread_new_indirect_leaves x ≡ left_by thread_new_indirect v) };

    fn parse(alloc: Global, parser: &mut Parser<'a>) -> Result<CanonThreadNewIndirect<'a>, Error> {
        parse_leaves::<CanonThreadNewIndirect<'a>>(alloc, parser)
    }
}
