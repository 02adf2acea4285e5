//! The laws of the model. Each function does nothing; its contract is the law.

ghost use Rattle.std.specs.Prelude.{◌≡◌, ℕ, ◌+◌, true, length, slice_get};
ghost use Rattle.comp_model.specs.declared.Space.{Space};
ghost use Rattle.comp_model.specs.declared.row.Row.{Row};
ghost use Rattle.comp_model.specs.RowNumbers.{same_row};
ghost use Rattle.comp_model.specs.Model.{Defs, count_defs};
ghost use Rattle.comp_model.specs.Spaces.{same_space, items_from, count_items, append_defs};
ghost use Rattle.comp_model.specs.Origins.{Origin, same_origin};

/// Rows, spaces and origins that a test finds equal are equal.
pub fn tests_decide()
    ensures rows { (s t : Row) → same_row s t ≡ true → s ≡ t }
    ensures spaces { (s t : Space) → same_space s t ≡ true → s ≡ t }
    ensures origins { (a b : Origin) → same_origin a b ≡ true → a ≡ b }
{}

/// Definitions declare as many items of a space as are counted, and an item behind them is found behind that count.
pub fn items_are_counted()
    ensures number { (space : Space) (k : ℕ) (ds : Defs) → length (items_from space k ds) ≡ count_items space ds }
    ensures behind { (space : Space) (k : ℕ) (ds es : Defs) (i : ℕ) → slice_get (items_from space k (append_defs ds es)) (count_items space ds + i) ≡ slice_get (items_from space (k + count_defs ds) es) i }
{}
