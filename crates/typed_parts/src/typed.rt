//! Values that stand for the leaves that a rule leaves.

ghost use Rattle.std.specs.Prelude.{◌≡◌, ◌≤◌, IfOk, List, true};
ghost use Rattle.comp_model.specs.CoreModules.{CoreModule};
ghost use Rattle.comp_model.specs.Model.{Leaves};
ghost use Rattle.comp_model.specs.Rows.{Shape};
ghost use Rattle.comp_tree.specs.Lists.{listed};
ghost use Rattle.text_rules.specs.Rule.{Rule as Line, reads};
ghost use Rattle.text_table.specs.Code.{rule_of};
ghost use Rattle.typed_nodes.specs.Fits.{FitLeaves};
ghost use Rattle.wast_grammar.specs.Read.{read};
ghost use Rattle.wast_parser.specs.Standing.{ComesBy};
ghost use Rattle.typed_parts.specs.Leaves.{left_by};
ghost use Rattle.typed_parts.specs.OfShapes.{is_readable, leaves_fit};

use bumpalo::Bump;
use comp_tree::Leaf;
use std::alloc::{AllocError, Global};
use text_rules::laws::rules_leave_their_sorts;
use text_table::rule::Rule;
use tree_read::read_parts;
use wast_grammar::laws::names_are_of_text;
use wast_parser::{Error, ErrorKind, Parser};

/// A type whose values stand for leaves, as a rule of the text format leaves them.
pub trait OfLeaves<'a>: Sized + Drop {
    /// The rule.
    ghost line: { Line };

    /// A reader takes it.
    ghost is_readable: { is_readable line ≡ true };

    /// What each leaf is.
    ghost shapes: { List Shape };

    /// The rule leaves such leaves: so the checker computes.
    ghost is_of_shapes: { leaves_fit line shapes ≡ true };

    /// The leaves that a value stands for.
    ghost leaves: { Self → Leaves };

    /// The rule, from the table.
    fn rule() -> &'static Rule<'static>
        ensures { rule_of result.now ≡ line };

    /// The leaves, in the arena. They are refused where memory ran out.
    fn into_tree<'t>(&self, alloc: Global, bump: &'t Bump) -> Result<&'t [Leaf<'t, 'a>], AllocError>
        ensures { (cores : List CoreModule) → IfOk result (λ ls. listed cores ls.now ≡ leaves self.now) };

    /// The value that stands for leaves, with its texts in the arena. It is refused where memory ran out.
    fn from_tree(alloc: Global, bump: &'a Bump, parts: &[Leaf<'_, 'a>]) -> Result<Self, AllocError>
        requires { (cores : List CoreModule) × FitLeaves shapes (listed cores parts.now) }
        ensures { (cores : List CoreModule) → FitLeaves shapes (listed cores parts.now) → IfOk result (λ x. leaves x ≡ listed cores parts.now) };
}

/// Reads a value by its rule.
///
/// A refusal is `Parse` at the token that doesn't fit, or at the end of the text; `TooDeep` at a checked item below more than 100 open parentheses;
/// or `NoMemory` at offset 0. After either of the first two the parser stands at the token that the offset names.
pub fn parse_leaves<'a, T: OfLeaves<'a>>(alloc: Global, parser: &mut Parser<'a>) -> Result<T, Error>
    ensures gives { ComesBy (λ x v. T.leaves x ≡ left_by T.line v) result parser.new (read (reads T.line) parser.old) }
    ensures text { parser.new.text ≡ parser.old.text }
    ensures forward { parser.old.at ≤ parser.new.at }
{
    rules_leave_their_sorts();
    names_are_of_text();
    let bump = parser.arena();
    match read_parts(alloc, T::rule(), parser) {
        Ok(parts) => match T::from_tree(alloc, bump, parts.leaves.as_slice()) {
            Ok(value) => Ok(value),
            Err(AllocError) => Err(Error {
                kind: ErrorKind::NoMemory,
                offset: 0,
            }),
        },
        Err(refusal) => Err(refusal),
    }
}
