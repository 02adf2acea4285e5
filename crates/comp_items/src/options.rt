//! The options of canonical functions (Component Model, "Canonical Definitions").

ghost use Rattle.std.specs.Prelude.{◌≡◌, ◌≤◌, [], List};
ghost use Rattle.comp_model.specs.CoreModules.{CoreModule};
ghost use Rattle.comp_model.specs.Model as m;
ghost use Rattle.comp_model.specs.Model.{◌▸◌, no_leaf};
ghost use Rattle.comp_model.specs.Rows.{options as option_rows};
ghost use Rattle.comp_tree.specs.Lists.{node_of};
ghost use Rattle.text_rules.specs.CanonRules.{options};
ghost use Rattle.text_rules.specs.Rule.{reads};
ghost use Rattle.text_table.specs.Code.{rule_of};
ghost use Rattle.typed_parts.specs.Leaves.{left_by};
ghost use Rattle.wast_grammar.specs.CanonRows.{is_option};
ghost use Rattle.wast_grammar.specs.Grammar.{holds};
ghost use Rattle.wast_grammar.specs.Read.{read};
ghost use Rattle.wast_parser.specs.Standing.{ComesBy};
ghost use Rattle.wast_parser.specs.View.{stand_of};
ghost use Rattle.comp_items.specs.Options.{option_node, options_leaf};

use crate::core_items::CoreItemRef;
use bumpalo::Bump;
use comp_model::Row;
use comp_tree::{Leaf, Node};
use std::alloc::{AllocError, Global};
use text_table::canons::{IS_OPTION, OPTIONS};
use text_table::holds_at;
use text_table::rule::Rule;
use typed_nodes::{OfNode, node, node_of_part, one_from, one_into};
use typed_parts::{OfLeaves, parse_leaves};
use wast_parser::{Cursor, Error, Parser, Peek, kw};

/// An option of a canonical function.
#[derive(Drop)]
pub enum CanonOpt<'a> {
    /// Strings are in UTF-8.
    StringUtf8,
    /// Strings are in UTF-16.
    StringUtf16,
    /// Strings are in Latin-1 or UTF-16.
    StringLatin1Utf16,
    /// The call is asynchronous.
    Async,
    /// Values of the garbage collector are passed.
    Gc,
    /// The memory in which values lie.
    Memory(CoreItemRef<'a, kw::memory>),
    /// The function that makes room in it.
    Realloc(CoreItemRef<'a, kw::func>),
    /// The function that is called after the results were read.
    PostReturn(CoreItemRef<'a, kw::func>),
    /// The function that is called when an asynchronous call goes on.
    Callback(CoreItemRef<'a, kw::func>),
    /// The type of the core function.
    CoreType(CoreItemRef<'a, kw::type_>),
}

/// No leaves, at the lifetimes of the arena and of the option.
fn none<'t, 'a>(bump: &'t Bump, option: &CanonOpt<'a>) -> &'t [Leaf<'t, 'a>]
    ensures { result.now ≡ [] }
{
    &[]
}

/// The node of an option that is its word alone.
fn bare<'t, 'a>(bump: &'t Bump, option: &CanonOpt<'a>, row: Row) -> Node<'t, 'a>
    ensures { (cores : List CoreModule) → node_of cores result ≡ m.row row no_leaf }
{
    node(row, none(bump, option))
}

impl<'a> OfNode<'a> for CanonOpt<'a> {
    ghost node_rows = { option_rows };

    ghost node = { option_node };

    fn into_node<'t>(&self, alloc: Global, bump: &'t Bump) -> Result<Node<'t, 'a>, AllocError> {
        match self {
            CanonOpt::StringUtf8 => Ok(bare(bump, self, Row::OptionUtf8)),
            CanonOpt::StringUtf16 => Ok(bare(bump, self, Row::OptionUtf16)),
            CanonOpt::StringLatin1Utf16 => Ok(bare(bump, self, Row::OptionLatin1Utf16)),
            CanonOpt::Async => Ok(bare(bump, self, Row::OptionAsync)),
            CanonOpt::Gc => Ok(bare(bump, self, Row::OptionGc)),
            CanonOpt::Memory(memory) => node_of_part::<CoreItemRef<'a, kw::memory>>(
                alloc,
                bump,
                Row::OptionMemory,
                memory,
            ),
            CanonOpt::Realloc(func) => node_of_part::<CoreItemRef<'a, kw::func>>(
                alloc,
                bump,
                Row::OptionRealloc,
                func,
            ),
            CanonOpt::PostReturn(func) => node_of_part::<CoreItemRef<'a, kw::func>>(
                alloc,
                bump,
                Row::OptionPostReturn,
                func,
            ),
            CanonOpt::Callback(func) => node_of_part::<CoreItemRef<'a, kw::func>>(
                alloc,
                bump,
                Row::OptionCallback,
                func,
            ),
            CanonOpt::CoreType(ty) => node_of_part::<CoreItemRef<'a, kw::type_>>(
                alloc,
                bump,
                Row::OptionCoreType,
                ty,
            ),
        }
    }

    fn from_node(
        alloc: Global,
        bump: &'a Bump,
        part: &Node<'_, 'a>,
    ) -> Result<CanonOpt<'a>, AllocError> {
        match part.row {
            Row::OptionUtf8 => Ok(CanonOpt::StringUtf8),
            Row::OptionUtf16 => Ok(CanonOpt::StringUtf16),
            Row::OptionLatin1Utf16 => Ok(CanonOpt::StringLatin1Utf16),
            Row::OptionAsync => Ok(CanonOpt::Async),
            Row::OptionGc => Ok(CanonOpt::Gc),
            Row::OptionMemory => Ok(CanonOpt::Memory(one_from::<CoreItemRef<'a, kw::memory>>(
                alloc,
                bump,
                part.leaves,
            )?)),
            Row::OptionRealloc => Ok(CanonOpt::Realloc(one_from::<CoreItemRef<'a, kw::func>>(
                alloc,
                bump,
                part.leaves,
            )?)),
            Row::OptionPostReturn => Ok(CanonOpt::PostReturn(one_from::<CoreItemRef<'a, kw::func>>(
                alloc,
                bump,
                part.leaves,
            )?)),
            Row::OptionCallback => Ok(CanonOpt::Callback(one_from::<CoreItemRef<'a, kw::func>>(
                alloc,
                bump,
                part.leaves,
            )?)),
            Row::OptionCoreType => Ok(CanonOpt::CoreType(one_from::<CoreItemRef<'a, kw::type_>>(
                alloc,
                bump,
                part.leaves,
            )?)),
            _ => unreachable!(),
        }
    }
}

/// A word of an option is next, or `(` and a word that begins a group of one.
impl Peek for CanonOpt<'_> {
    ghost use Rattle.std.specs.Prelude.{refl};

    ghost test = { is_option };

    ghost is_short = { refl };

    fn peek(cursor: Cursor<'_>) -> bool
        ensures holds { result ≡ holds is_option (stand_of cursor.entry) }
    {
        holds_at(IS_OPTION, cursor)
    }

    fn display() -> &'static str {
        "a canonical option"
    }
}

/// Options, as they are read.
#[derive(Drop)]
struct CanonOpts<'a>(Vec<CanonOpt<'a>>);

impl<'a> OfLeaves<'a> for CanonOpts<'a> {
    ghost use Rattle.std.specs.Prelude.{◌∷◌, refl};
    ghost use Rattle.comp_model.specs.Rows.{a_list};

    ghost line = { options };

    ghost is_readable = { refl };

    ghost shapes = { a_list option_rows ∷ [] };

    ghost is_of_shapes = { refl };

    ghost leaves = { λ x. options_leaf x.0.items ▸ no_leaf };

    fn rule() -> &'static Rule<'static>
        ensures { rule_of result.now ≡ options }
    {
        OPTIONS
    }

    fn into_tree<'t>(
        &self,
        alloc: Global,
        bump: &'t Bump,
    ) -> Result<&'t [Leaf<'t, 'a>], AllocError> {
        one_into::<Vec<CanonOpt<'a>>>(alloc, bump, &self.0)
    }

    fn from_tree(
        alloc: Global,
        bump: &'a Bump,
        parts: &[Leaf<'_, 'a>],
    ) -> Result<CanonOpts<'a>, AllocError> {
        Ok(CanonOpts(one_from::<Vec<CanonOpt<'a>>>(alloc, bump, parts)?))
    }
}

/// Reads options, as many as stand there.
///
/// A refusal is `Parse` at the token that doesn't fit, or at the end of the text, or `NoMemory` at offset 0. After the first the parser stands at the
/// token that the offset names.
pub fn parse_canon_opts<'a>(
    alloc: Global,
    parser: &mut Parser<'a>,
) -> Result<Vec<CanonOpt<'a>>, Error>
    ensures gives { ComesBy (λ x v. options_leaf x.items ▸ no_leaf ≡ left_by options v) result parser.new (read (reads options) parser.old) }
    ensures text { parser.new.text ≡ parser.old.text }
    ensures forward { parser.old.at ≤ parser.new.at }
{
    match parse_leaves::<CanonOpts<'a>>(alloc, parser) {
        Ok(read) => Ok(read.0),
        Err(refusal) => Err(refusal),
    }
}
