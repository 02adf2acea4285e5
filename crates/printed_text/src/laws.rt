//! The laws of printed texts. Each function does nothing; its contract is the law.

ghost use Rattle.std.specs.Prelude.{◌≡◌, List, true, false, Option, None, is_some};
ghost use Rattle.comp_model.specs.CoreModules.{CoreModule};
ghost use Rattle.comp_model.specs.Covered.{Uncovered, first_uncovered};
ghost use Rattle.comp_model.specs.Model.{Scope};
ghost use Rattle.wast_grammar.specs.Answers.{Fronts, first_deep};
ghost use Rattle.wast_grammar.specs.Grammar.{Value};
ghost use Rattle.wast_grammar.specs.Read.{start_of};
ghost use Rattle.wast_grammar.specs.Spells.{checks};
ghost use Rattle.wast_grammar.specs.Stand.{Stand};
ghost use Rattle.wast_grammar.specs.Tokens.{Text};
ghost use Rattle.wast_parser.specs.View.{IsTextOf};
ghost use Rattle.print_table.specs.Depths.{is_deep};
ghost use Rattle.print_table.specs.Tokens.{PrintedToken, text_of_tokens};
ghost use Rattle.print_table.specs.TextOf.{unnamed, text_of};
ghost use Rattle.print_table.specs.Printable.{IsPrintable};
ghost use Rattle.printed_text.specs.ReadTokens.{AreGood, cut_text};
ghost use Rattle.printed_text.specs.Spelled.{wat, Prints};

use text_rules::laws::text_is_component;

/// The text of tokens is cut into just these.
pub fn printed_tokens_are_cut()
    ensures { (xs : List PrintedToken) → AreGood xs → IsTextOf (text_of_tokens xs) false (cut_text xs) }
{}

/// The text of a component spells one component with numerals alone and without names, which meets the rule on names, and whose form is
/// the component that was printed, but for its custom sections of names.
pub fn printed_text_spells()
    ensures { (b : Scope) → IsPrintable (unnamed b) → Prints (text_of b) (unnamed b) }
{
    text_is_component();
}

/// A printed text has a checked item below more than 100 open parentheses exactly where the table of depths has one, however its tokens
/// are spelled.
pub fn printed_text_is_deep()
    ensures { (b : Scope) → IsPrintable (unnamed b) → (tokens : Text) → IsTextOf (text_of b) false tokens → (end : Stand) (v : Value) (front : Fronts wat (start_of tokens) end v) → is_some (first_deep (checks front.0)) ≡ is_deep b }
{
    text_is_component();
}

/// Where no form in a component is read and never written, none is without its custom sections of names.
pub fn unnamed_is_covered()
    ensures { (f : CoreModule → Option Uncovered) (b : Scope) → first_uncovered f b ≡ None → first_uncovered f (unnamed b) ≡ None }
{}
