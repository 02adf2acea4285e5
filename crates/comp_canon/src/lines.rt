//! The lines of built-ins in the table of the text format.

ghost use Rattle.std.specs.Prelude.{◌≡◌, Some, is_some, map, true};
ghost use Rattle.text_rules.specs.CanonRules.{built_in_line, built_ins};
ghost use Rattle.text_rules.specs.Rule.{Rule as Line};
ghost use Rattle.text_table.specs.Choice.{at_number};
ghost use Rattle.text_table.specs.Code.{rule_of};

use text_table::built_in_rule;
use text_table::rule::Rule;

/// The line of the built-in whose word has the number `code` in `token_codes`.
pub(crate) fn built_in(code: u8) -> &'static Rule<'static>
    requires { is_some (at_number (map built_in_line built_ins) 58 code) ≡ true }
    ensures { (line : Line) → at_number (map built_in_line built_ins) 58 code ≡ Some line → rule_of result.now ≡ line }
{
    match built_in_rule(code) {
        Some(rule) => rule,
        None => unreachable!(),
    }
}
