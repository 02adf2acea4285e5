//! What rules in code come to. Each function does nothing; its contract is the law.

ghost use Rattle.std.specs.Prelude.{◌≡◌, ◌<◌, ℕ, Bool, true, cond};
ghost use Rattle.wast_grammar.specs.Classes.{closing};
ghost use Rattle.wast_grammar.specs.Stand.{Stand, class_at, moved, offset_of};
ghost use Rattle.text_rules.specs.Rule.{Rule};
ghost use Rattle.text_rules.specs.Made.{Made, join};
ghost use Rattle.text_rules.specs.Makes.{a_place_made};
ghost use Rattle.text_rules.specs.Measure.{Fit, rank};
ghost use Rattle.rule_runs.specs.Run.{fault, run, andthen, taken};
ghost use Rattle.token_codes.specs.Numbers.{number, between};
ghost use Rattle.text_table.specs.Code.{a_word, a_placed, a_note};

/// A rule that begins with the token of a number goes on where the next token has this number, and else refuses it.
pub fn numbered_rules_run()
    ensures word { (n : ℕ) (x : Rule) (s : Stand) (a : Made) → run (a_word n x) s a ≡ cond (between n (number (class_at s)) n) (run x (moved s 1) a) (fault s) }
    ensures placed { (b : Bool) (n : ℕ) (x : Rule) (s : Stand) (a : Made) → run (a_placed b n x) s a ≡ cond (between n (number (class_at s)) n) (run x (moved s 1) (join a (a_place_made b (offset_of s)))) (fault s) }
    ensures note { (n : ℕ) (x : Rule) (s : Stand) (a : Made) → run (a_note n x) s a ≡ cond (between n (number (class_at s)) n) (andthen (run x (moved s 1) a) (λ b t. taken closing b t)) (fault s) }
{}

/// What follows such a token is below its rule.
pub fn rests_are_below()
    ensures word { (n : ℕ) (x : Rule) (s : Stand) → between n (number (class_at s)) n ≡ true → Fit (a_word n x) → rank x (moved s 1) < rank (a_word n x) s }
    ensures placed { (b : Bool) (n : ℕ) (x : Rule) (s : Stand) → between n (number (class_at s)) n ≡ true → Fit (a_placed b n x) → rank x (moved s 1) < rank (a_placed b n x) s }
    ensures note { (n : ℕ) (x : Rule) (s : Stand) → between n (number (class_at s)) n ≡ true → Fit (a_note n x) → rank x (moved s 1) < rank (a_note n x) s }
{}
