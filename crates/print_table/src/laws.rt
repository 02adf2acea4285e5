//! The laws of the table of the printed text. Each function does nothing; its contract is the law.

ghost use Rattle.std.specs.Prelude.{◌≡◌, true, false};
ghost use Rattle.comp_model.specs.Model.{Scope};
ghost use Rattle.comp_model.specs.Rows.{FitsRows};
ghost use Rattle.comp_wire.specs.Read.{FitsComponent};
ghost use Rattle.print_table.specs.Printable.{IsPrintable};
ghost use Rattle.print_table.specs.HasText.{has_text, holds_module, has_bytes};
ghost use Rattle.print_table.specs.TextOf.{unnamed};

/// What can be printed passes the tests of what is refused.
pub fn printable_passes()
    ensures text { (b : Scope) → IsPrintable b → has_text b ≡ true }
    ensures no_module { (b : Scope) → IsPrintable b → holds_module b ≡ false }
{}

/// A component that can be written, with texts of bytes, can be printed where no core module is defined in it and it has a text, its
/// custom sections of names left out.
pub fn passing_is_printable()
    ensures { (b : Scope) → FitsComponent b → has_bytes b ≡ true → holds_module b ≡ false → has_text (unnamed b) ≡ true → IsPrintable (unnamed b) }
{}

/// A core module is defined in a component without its custom sections of names exactly where one is with them.
pub fn unnamed_holds_module()
    ensures { (b : Scope) → FitsRows b → holds_module (unnamed b) ≡ holds_module b }
{}
