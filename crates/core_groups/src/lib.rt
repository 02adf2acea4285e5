//! What the rows of parameters, results and locals spell: the published repetition of groups.
//!
//! A tree keeps the items of such groups and not the groups; so their row reads the groups as one list, `groups_of` of `core_syntax`. The
//! laws here say that this is the published repetition. Each function does nothing; its contract is the law.
#![tactic(auto)]

ghost use Rattle.std.specs.Prelude.{◌≡◌, ℕ, true, List, [], ◌∷◌, None, codes};
ghost use Rattle.wast_grammar.specs.Classes.{closing};
ghost use Rattle.wast_grammar.specs.Clear.{never, no};
ghost use Rattle.wast_grammar.specs.Grammar.{Grammar, Test, next};
ghost use Rattle.wast_grammar.specs.Shape.{sound, consumes};
ghost use Rattle.wast_grammar.specs.CoreForms.{groups_of};
ghost use Rattle.wast_grammar.specs.CoreRows.{params as params_row, results as results_row, locals as locals_row, is_value_type, parameter_item, value_type};
ghost use Rattle.core_groups.specs.Groups.{SpellsGroups};

/// Groups that are read as one list are the published repetition of groups, as far as it goes: the same tokens spell both, with the
/// same items. This holds of every item that can be read and doesn't begin with `)`, and every test of a further item that is false
/// before `)`.
pub fn groups_are_one_list()
    ensures { (w : List ℕ) (q : Test) (g : Grammar) → sound g ≡ true → consumes g ≡ true → never g (next (closing ∷ [])) ≡ true → no q closing None ≡ true → SpellsGroups (groups_of w q g) w q g }
{}

/// So are the rows of parameters, results and locals (WebAssembly, text format, Function Types and Functions): an item with an id or a
/// name, which is alone in its group, or value types, behind the first of which only value types stand.
pub fn rows_are_groups()
    ensures params { SpellsGroups params_row (codes "param") is_value_type parameter_item }
    ensures results { SpellsGroups results_row (codes "result") is_value_type value_type }
    ensures locals { SpellsGroups locals_row (codes "local") is_value_type parameter_item }
{}
