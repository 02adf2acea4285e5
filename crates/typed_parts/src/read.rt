//! Reading by a rule that leaves leaves alone, for a type whose rule hangs on a parameter of its own.

ghost use Rattle.std.specs.Prelude.{◌≡◌, ◌≤◌};
ghost use Rattle.text_rules.specs.Measure.{Fit};
ghost use Rattle.text_rules.specs.Rule.{reads};
ghost use Rattle.text_table.specs.Code.{rule_of};
ghost use Rattle.wast_grammar.specs.Read.{read};
ghost use Rattle.wast_parser.specs.Standing.{ComesBy};
ghost use Rattle.typed_parts.specs.Leaves.{AreLeavesOf};

use comp_tree::Leaf;
use std::alloc::Global;
use text_rules::laws::rules_leave_their_sorts;
use text_table::rule::Rule;
use tree_read::read_parts;
use wast_grammar::laws::names_are_of_text;
use wast_parser::{Error, Parser};

/// Reads by a rule of the table, and gives the leaves that it leaves, in the arena of the parser's buffer.
///
/// A refusal is `Parse` at the token that doesn't fit, or at the end of the text; `TooDeep` at a checked item below more than 100 open parentheses;
/// or `NoMemory` at offset 0. After either of the first two the parser stands at the token that the offset names.
pub fn read_leaves<'a>(
    alloc: Global,
    rule: &'static Rule<'static>,
    parser: &mut Parser<'a>,
) -> Result<Vec<Leaf<'a, 'a>>, Error>
    requires fit { Fit (rule_of rule.now) }
    ensures gives { ComesBy (λ x v. AreLeavesOf (rule_of rule.now) v x.items) result parser.new (read (reads (rule_of rule.now)) parser.old) }
    ensures text { parser.new.text ≡ parser.old.text }
    ensures forward { parser.old.at ≤ parser.new.at }
{
    rules_leave_their_sorts();
    names_are_of_text();
    match read_parts(alloc, rule, parser) {
        Ok(parts) => Ok(parts.leaves),
        Err(refusal) => Err(refusal),
    }
}
