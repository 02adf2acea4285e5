//! The laws of the table of the text format. Each function does nothing; its contract is the law.

ghost use Rattle.std.specs.Prelude.{◌≡◌, ◌⊎◌, Bool, true};
ghost use Rattle.wast_grammar.specs.Stand.{Stand};
ghost use Rattle.wast_grammar.specs.Grammar.{Value, Row, whole};
ghost use Rattle.wast_grammar.specs.Rows.{text_row};
ghost use Rattle.wast_grammar.specs.FieldRows.{wat_item as text_rows_item};
ghost use Rattle.wast_grammar.specs.Shape.{guarded};
ghost use Rattle.wast_grammar.specs.Spells.{Spells};
ghost use Rattle.wast_grammar.specs.Read.{read, reads as is_read};
ghost use Rattle.wast_grammar.specs.OfText.{IsOfText};
ghost use Rattle.text_rules.specs.Rule.{Rule, reads};
ghost use Rattle.text_rules.specs.Measure.{Fit};
ghost use Rattle.text_rules.specs.Makes.{makes};
ghost use Rattle.text_rules.specs.Table.{table, in_table};
ghost use Rattle.text_rules.specs.FieldRules.{wat_item, whole_component};
ghost use Rattle.text_rules.specs.Sorts.{Parts};
ghost use Rattle.text_rules.specs.HasSorts.{Has};
ghost use Rattle.text_rules.specs.Tests.{all, row_passes};
ghost use Rattle.text_rules.specs.Whole.{IsOfComponent, IsOfModule};

/// The rule of each row reads that row, and the rule of a text reads a text: so every law of grammars holds of the rules.
pub fn rules_read_rows()
    ensures rows { (n : Row) → in_table n ≡ true → reads (table n) ≡ text_row n }
    ensures text { reads wat_item ≡ text_rows_item }
{}

/// Each row of the table begins with a token, before any row that stands by a name.
pub fn rows_begin_with_tokens()
    ensures { (n : Row) → in_table n ≡ true → guarded (reads (table n)) ≡ true }
{}

/// A reader takes each rule of the table, and that of a text: it is sound, and has few parts.
pub fn rules_are_readable()
    ensures rows { (n : Row) → in_table n ≡ true → Fit (table n) }
    ensures text { Fit wat_item }
{}

/// Each rule of the table leaves what the name of its row stands for: so the checker computes.
pub fn table_passes()
    ensures { (n : Row) → in_table n ≡ true → row_passes n (table n) ≡ true }
{}

/// What a rule makes of a value that a text spells is of one of its sorts: of one of which each test holds that holds of all.
pub fn rules_leave_their_sorts()
    ensures { (r : Rule) (s t : Stand) (v : Value) → Spells (reads r) s t v → IsOfText v → (p : Parts → Bool) → all r p ≡ true → Has p (makes v r) }
{}

/// Whatever a text spells is one definition: of a component that fits the table of rows, with names in UTF-8 and where the text format has
/// them, short numerals and ids of the text alone; of a core module; or of bytes.
pub fn text_is_component()
    ensures component { (s t : Stand) (v : Value) → Spells (reads whole_component) s t v → IsOfComponent (makes v whole_component) }
    ensures spelled { (s t : Stand) (v : Value) → Spells (reads wat_item) s t v → IsOfComponent (makes v wat_item) ⊎ IsOfModule (makes v wat_item) }
    ensures read { (s t : Stand) (v : Value) → read (whole (reads wat_item)) s ≡ is_read v t → IsOfComponent (makes v wat_item) ⊎ IsOfModule (makes v wat_item) }
{}
