//! The laws of reading by rules. Each function does nothing; its contract is the law.

ghost use Rattle.std.specs.Prelude.{◌≡◌, ◌<◌, ℕ, Bool, List, true, cond, nat_lt};
ghost use Rattle.comp_model.specs.declared.Space.{Space};
ghost use Rattle.comp_model.specs.Core.{Reach};
ghost use Rattle.wast_grammar.specs.Classes.{Class, same};
ghost use Rattle.wast_grammar.specs.ValueRows.{strings};
ghost use Rattle.wast_grammar.specs.Stand.{Stand, class_at, moved, offset_of};
ghost use Rattle.wast_grammar.specs.Grammar.{Row, Test, Special, holds, next, class_of_leaf, value_at, is_special, number_in};
ghost use Rattle.wast_grammar.specs.Read.{open_at, skip_rest, left_of};
ghost use Rattle.text_rules.specs.Made.{Made, join, front, behind};
ghost use Rattle.text_rules.specs.Rule.{Rule, nothing, before, after, placed, keeps, reference, told, pair, either, by_test, many, many_by, case, no_case, row, checked, also, wraps, marks, silent, skipping, Adds, Keeps, kept, Wraps, outside, a_plain_name, a_text};
ghost use Rattle.text_rules.specs.Makes.{adds, kept_made, a_place_made, wrapped};
ghost use Rattle.text_rules.specs.Measure.{Fit, rank};
ghost use Rattle.text_rules.specs.Table.{table, in_table};
ghost use Rattle.rule_runs.specs.Run.{Ran, done, fault, deep, run, andthen, taken, referred, told_by, gone_over, named_interface};

/// Tokens: one that isn't kept, with or without its offset; one that is kept, and what it adds; an index; and a word of a table.
pub fn tokens_run()
    ensures nothing { (s : Stand) (a : Made) → run nothing s a ≡ done a s }
    ensures placed { (b : Bool) (c : Class) (s : Stand) (a : Made) → run (placed b c) s a ≡ taken c (join a (a_place_made b (offset_of s))) s }
    ensures keeps { (k : Keeps) (s : Stand) (a : Made) → run (keeps k) s a ≡ taken (class_of_leaf (kept k)) (join a (kept_made k (value_at (kept k) s))) s }
    ensures silent { (k : Special) (s : Stand) (a : Made) → run (silent k) s a ≡ cond (is_special k s) (done a (moved s 1)) (fault s) }
    ensures reference { (u : Space) (r : Reach) (s : Stand) (a : Made) → run (reference u r) s a ≡ referred u r s a }
    ensures told { (ws : List (List ℕ × ℕ)) (ns : List ℕ) (s : Stand) (a : Made) → run (told ws ns) s a ≡ told_by ns (number_in ws (class_at s)) s a }
{}

/// A token in front of a rule or behind it; the offset of its first token; and all that is left of a group, unread.
pub fn enclosed_rules_run()
    ensures before { (c : Class) (r : Rule) (s : Stand) (a : Made) → run (before c r) s a ≡ cond (same (class_at s) c) (run r (moved s 1) a) (fault s) }
    ensures after { (r : Rule) (c : Class) (s : Stand) (a : Made) → run (after r c) s a ≡ andthen (run r s a) (λ b t. taken c b t) }
    ensures marks { (r : Rule) (s : Stand) (a : Made) → run (marks r) s a ≡ run r s (join a (a_place_made true (offset_of s))) }
    ensures skipping { (r : Rule) (s : Stand) (a : Made) → run (skipping r) s a ≡ andthen (run r s a) (λ b t. gone_over b (skip_rest t)) }
    ensures checked { (r : Rule) (s : Stand) (a : Made) → run (checked r) s a ≡ cond (nat_lt 100 (open_at s)) (deep s) (run r s a) }
{}

/// One rule behind another; one of two, or of several, by a test of the next tokens; and a row by its name.
pub fn chosen_rules_run()
    ensures pair { (x y : Rule) (s : Stand) (a : Made) → run (pair x y) s a ≡ andthen (run x s a) (λ b t. run y t b) }
    ensures either { (t : Test) (x y : Rule) (s : Stand) (a : Made) → run (either t x y) s a ≡ cond (holds t s) (run x s a) (run y s a) }
    ensures by_test { (t : Test) (x y : Rule) (s : Stand) (a : Made) → run (by_test t x y) s a ≡ cond (holds t s) (run x s a) (run y s a) }
    ensures case { (n : ℕ) (t : Test) (x y : Rule) (s : Stand) (a : Made) → Fit (case n t x y) → run (case n t x y) s a ≡ cond (holds t s) (run x s a) (run y s a) }
    ensures no_case { (s : Stand) (a : Made) → run no_case s a ≡ fault s }
    ensures row { (n : Row) (s : Stand) (a : Made) → in_table n ≡ true → run (row n) s a ≡ run (table n) s a }
{}

/// As many as begin where a test holds: the first, and then the others behind what it made.
pub fn lists_run()
    ensures many { (t : Test) (x : Rule) (s : Stand) (a : Made) → Fit (many t x) → run (many t x) s a ≡ cond (holds t s) (andthen (run x s a) (λ b r. run (many t x) r b)) (done a s) }
    ensures many_by { (t : Test) (x : Rule) (s : Stand) (a : Made) → Fit (many_by t x) → run (many_by t x) s a ≡ cond (holds t s) (andthen (run x s a) (λ b r. run (many_by t x) r b)) (done a s) }
{}

/// A plain name: a string, or that of an interface.
pub fn names_run()
    ensures { (s : Stand) (a : Made) → run (outside a_plain_name) s a ≡ cond (holds (next strings) s) (run (keeps a_text) s a) (run named_interface s a) }
{}

/// What stands for no token comes behind what its rule left; and what a rule left behind what was there before is what a `wraps` takes.
pub fn parts_are_made()
    ensures also { (r : Rule) (x : Adds) (s : Stand) (a : Made) → run (also r x) s a ≡ andthen (run r s a) (λ b t. done (join b (adds x)) t) }
    ensures wraps { (w : Wraps) (r : Rule) (s : Stand) (a : Made) → run (wraps w r) s a ≡ andthen (run r s a) (λ b t. done (join (front a b) (wrapped w (behind a b))) t) }
{}

/// A reader that goes from a rule to its parts ends: a part is below its rule, and an item of a list has a token.
pub fn parts_are_below()
    ensures second { (x y : Rule) (s t : Stand) (a b : Made) → Fit (pair x y) → run x s a ≡ done b t → rank y t < rank (pair x y) s }
    ensures row { (n : Row) (s : Stand) → in_table n ≡ true → rank (table n) s < rank (row n) s }
    ensures item { (q : Test) (x : Rule) (s t : Stand) (a b : Made) → Fit (many q x) → run x s a ≡ done b t → left_of t < left_of s }
    ensures item_by { (q : Test) (x : Rule) (s t : Stand) (a b : Made) → Fit (many_by q x) → run x s a ≡ done b t → left_of t < left_of s }
{}
