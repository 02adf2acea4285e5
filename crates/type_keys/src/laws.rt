//! The laws of keys. Each function does nothing; its contract is the law.
//!
//! In them `xs` are the types of a scope that have been passed, in the order of their marks, and a key is made over them
//! (`type_key xs t ls`, of the type of row `t` with leaves `ls`): each inline type has the number of the first of `xs` that is equal.
//! `LeavesPassed xs ls` says that there is one for each shared type inline in `ls` that is equal to any, itself included.

ghost use Rattle.std.specs.Prelude.{◌≡◌, ℕ, ◌+◌, Bool, false, ◌&&◌, List, [], ◌∷◌, ◌++◌, Some, option_map, IsSome};
ghost use Rattle.comp_model.specs.declared.row.Row.{Row};
ghost use Rattle.comp_model.specs.RowNumbers.{same_row};
ghost use Rattle.comp_model.specs.Model.{Leaves, Scope};
ghost use Rattle.comp_model.specs.Origins.{Origin};
ghost use Rattle.comp_scopes.specs.Reused.{same_leaves, Typed, earlier_type, types_of_leaves};
ghost use Rattle.type_keys.specs.Keys.{Part, same_parts, type_key, keys, first_key, first_equal, LeavesPassed, AllPassed};
ghost use Rattle.type_keys.specs.Named.{NoneMarked, origin_of};
ghost use Rattle.type_keys.specs.Shown.{KeysShow};
ghost use Rattle.type_keys.specs.declared.types.Types.{Types};

/// Two types have equal keys exactly where they are equal as written.
pub fn keys_tell_types()
    ensures { (xs : List Typed) (t v : Row) (ls ms : Leaves) → LeavesPassed xs ls → LeavesPassed xs ms → same_parts (type_key xs t ls) (type_key xs v ms) ≡ (same_row t v && same_leaves ls ms) }
{}

/// A search by key finds the first type that is equal.
pub fn search_finds_first()
    ensures { (xs ys : List Typed) (t : Row) (ls : Leaves) → LeavesPassed xs ls → AllPassed xs ys → first_key (type_key xs t ls) (keys xs ys) ≡ first_equal t ls ys }
{}

/// Keys that were made stay right where more types are passed, and so does what has been passed.
pub fn keys_stay()
    ensures key { (xs zs : List Typed) (t : Row) (ls : Leaves) → LeavesPassed xs ls → type_key (xs ++ zs) t ls ≡ type_key xs t ls }
    ensures keys { (xs zs ys : List Typed) → AllPassed xs ys → keys (xs ++ zs) ys ≡ keys xs ys }
    ensures passed { (xs zs : List Typed) (ls : Leaves) → LeavesPassed xs ls → LeavesPassed (xs ++ zs) ls }
{}

/// Behind a walk over leaves, the types that stand inline in them have been passed.
pub fn walk_passes_types()
    ensures { (c : Scope) (k u : ℕ) (ls : Leaves) (earlier : List Typed) → LeavesPassed (earlier ++ types_of_leaves c k u ls earlier) ls }
{}

/// What an inline type reuses is the first equal type among those in front of it, none of which has its mark.
pub fn first_equal_is_reused()
    ensures { (o : Origin) (t : Row) (ls : Leaves) (xs : List Typed) → NoneMarked o xs → earlier_type o t ls xs ≡ option_map (origin_of xs) (first_equal t ls xs) }
{}

/// A type whose key an earlier one has need not be noted.
pub fn equal_key_is_shown()
    ensures { (a : Types) (ks : List (List Part)) (q : List Part) → KeysShow a ks → IsSome (first_key q ks) → KeysShow a (ks ++ q ∷ []) }
{}
