//! What numbers tell. Each function does nothing; its contract is the law.

ghost use Rattle.std.specs.Prelude.{◌≡◌, ◌<◌, ℕ, nat_eq};
ghost use Rattle.wast_grammar.specs.Classes.{Class, same, among};
ghost use Rattle.token_codes.specs.Numbers.{number, class, range, between};

/// A class has a number of its own: a token is of the class exactly if it has its number, and of one of several whose numbers follow each other
/// exactly if its number is among them.
pub fn numbers_tell_classes()
    ensures own { (n : ℕ) → n < 149 → number (class n) ≡ n }
    ensures told { (n : ℕ) (c : Class) → n < 149 → same c (class n) ≡ nat_eq (number c) n }
    ensures range { (a b : ℕ) (c : Class) → among (range a b) c ≡ between a (number c) b }
{}
