//! The laws of this crate's definitions. Each function does nothing; its contract is the law.

ghost use Rattle.std.specs.Prelude.{◌≡◌};
ghost use Rattle.std.specs.Option.{option_and_then};
ghost use Rattle.comp_model.specs.declared.Space.{Space};
ghost use Rattle.comp_model.specs.Core.{Id};
ghost use Rattle.comp_model.specs.Model.{Scope};
ghost use Rattle.comp_model.specs.Spaces.{at, declared};
ghost use Rattle.core_model.specs.Items.{place_of};
ghost use Rattle.core_names.specs.Names.{ids_declared};

/// The place of an id in a namespace that holds the ids of a scope's items of a space, in order, is the index of the first declaration
/// that bears the id.
pub fn names_find_declarations()
    ensures { (c : Scope) (s : Space) (x : Id) → declared c s x ≡ option_and_then (at c s) (place_of x (ids_declared s c)) }
{}
