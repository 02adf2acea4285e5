//! The law of what rules leave. The function does nothing; its contract is the law.

ghost use Rattle.std.specs.Prelude.{◌≡◌, List, true};
ghost use Rattle.comp_model.specs.Rows.{Shape};
ghost use Rattle.text_rules.specs.Rule.{Rule, reads};
ghost use Rattle.typed_nodes.specs.Fits.{FitLeaves};
ghost use Rattle.typed_parts.specs.Leaves.{left_by};
ghost use Rattle.typed_parts.specs.OfShapes.{leaves_fit};
ghost use Rattle.wast_grammar.specs.Grammar.{Value};
ghost use Rattle.wast_grammar.specs.Spells.{Spells};
ghost use Rattle.wast_grammar.specs.Stand.{Stand};

use text_rules::laws::rules_leave_their_sorts;
use wast_grammar::laws::names_are_of_text;

/// What a rule leaves of a value that a text spells fits the shapes of its leaves.
pub fn what_is_left_fits()
    ensures { (line : Rule) (ss : List Shape) → leaves_fit line ss ≡ true → (s u : Stand) (v : Value) → Spells (reads line) s u v → FitLeaves ss (left_by line v) }
{
    rules_leave_their_sorts();
    names_are_of_text();
}
