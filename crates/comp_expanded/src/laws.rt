//! The laws of expanded lists. Each function does nothing; its contract is the law.
//!
//! In them `e` is what is given of core modules, `s` a scope of the text in the stack `st` of the scopes around
//! it, the innermost first, and `x` with marks `os` an expanded list in the stack `xs` of expanded scopes. Both stacks are empty for
//! a whole component. `Rowed s` and `OfText s` are what a component of the text meets: it fits the table of rows (`rows_are_rowed` of
//! `comp_scopes`), and its ids are those of a text.

ghost use Rattle.std.specs.Prelude.{◌≡◌, ◌↔◌, ℕ, ◌+◌, List, [], ◌∷◌, ◌++◌, map, Option};
ghost use Rattle.comp_model.specs.Core.{Id};
ghost use Rattle.comp_model.specs.Model.{Leaves, Scope, defs_of};
ghost use Rattle.comp_model.specs.Origins.{Origin};
ghost use Rattle.comp_expanded.specs.ListMarks.{ListMarks};
ghost use Rattle.comp_scopes.specs.Encoding.{Encoding};
ghost use Rattle.comp_scopes.specs.Rule.{ScopeRule};
ghost use Rattle.comp_scopes.specs.Unmet.{first_unmet};
ghost use Rattle.comp_scopes.specs.Plan.{mark, plan_leaves, marks, before};
ghost use Rattle.comp_scopes.specs.Form.{form_leaves, built, plan, form};
ghost use Rattle.comp_scopes.specs.Rowed.{Rowed};
ghost use Rattle.comp_expanded.specs.Expansion.{Naming, Entry, expand, expand_marks};
ghost use Rattle.comp_expanded.specs.OfText.{OfText};
ghost use Rattle.comp_expanded.specs.Named.{GeneratedOnce, entry_ids, NewIds, Named};
ghost use Rattle.comp_expanded.specs.Expands.{AllExpand, IdsStand, ExpandsDefs, ExpandsExports, ExpandsList, Expands};
ghost use Rattle.comp_expanded.specs.WrittenMarks.{written_marks};
ghost use Rattle.comp_expanded.specs.OwnMarks.{own_marks};
ghost use Rattle.comp_expanded.specs.IsResolved.{IsResolved};
ghost use Rattle.comp_scopes.specs.Resolved.{binary_of};
ghost use Rattle.comp_expanded.specs.IsExpanded.{LeavesExpanded, IsExpanded};
ghost use Rattle.comp_expanded.specs.TextNumbers.{entries, mark_in_text, marks_in_text};

/// A list that is the expansion of a scope has its first unmet demand: the same cause at the same offset, or none.
pub fn expansion_keeps_first_unmet()
    ensures { (e : Encoding) (st xs : List Scope) (s x : Scope) (os : ListMarks) → AllExpand st xs → Rowed s → OfText s → Expands s x os → first_unmet e xs x ≡ first_unmet e st s }
{}

/// The list meets the rule on names exactly where the scope does.
pub fn expansion_keeps_rule()
    ensures { (e : Encoding) (st xs : List Scope) (s x : Scope) (os : ListMarks) → AllExpand st xs → Rowed s → OfText s → Expands s x os → ScopeRule e xs x ↔ ScopeRule e st s }
{}

/// Where the rule holds, the list has the form of the scope, name sections included: generated ids are no names.
pub fn expansion_keeps_form()
    ensures { (e : Encoding) (st xs : List Scope) (s x : Scope) (os : ListMarks) → AllExpand st xs → Rowed s → OfText s → Expands s x os → ScopeRule e st s → form e xs x ≡ form e st s }
{}

/// Where the rule holds, the scope's plan is that of the list, each mark brought into the numbers of the text. For that the list and its
/// marks are enough: the scope isn't looked at.
pub fn expansion_keeps_plan()
    ensures { (e : Encoding) (st xs : List Scope) (s x : Scope) (os : ListMarks) → AllExpand st xs → Rowed s → OfText s → Expands s x os → ScopeRule e st s → plan e st s ≡ marks_in_text (entries (defs_of x) os) (plan e xs x) }
{}

/// The marks of the scope itself, inner scopes aside, are those of the list in the numbers of the text, whether the rule holds or not.
pub fn expansion_keeps_marks()
    ensures { (st xs : List Scope) (s x : Scope) (os : ListMarks) → AllExpand st xs → Rowed s → OfText s → Expands s x os → marks (s ∷ st) ≡ map (λ m. mark (mark_in_text (entries (defs_of x) os) m.origin) m.spaces) (marks (x ∷ xs)) }
{}

/// Each expansion of a scope is what `expand` makes of it under some ids that serve.
pub fn expansion_has_naming()
    ensures { (s x : Scope) (os : ListMarks) → Rowed s → OfText s → Expands s x os → (g : Naming) × Named g s × (x ≡ expand g s) × (os ≡ expand_marks g s) }
{}

/// What `expand` makes of a scope under ids that serve is an expansion of it.
pub fn naming_expands()
    ensures { (g : Naming) (s : Scope) → Named g s → Expands s (expand g s) (expand_marks g s) }
{}

/// A list whose exports and reused types were named by a table of ids is an expansion, where each id of the table is that of the
/// definition of its mark in the list. So a program may fill the table as it goes.
pub fn table_expands()
    ensures { (s : Scope) (ids : Origin → Option Id) (ys zs : List Entry) → ExpandsDefs ids s 0 (defs_of s) ys → ExpandsExports ids 0 (defs_of s) zs → IdsStand ids (ys ++ zs) → GeneratedOnce (entry_ids (ys ++ zs)) → ExpandsList s (ys ++ zs) }
{}

/// Each scope of the text has an expansion, and any ids that are new give it one: each generated, those of one scope pairwise different.
pub fn text_has_expansion()
    ensures there { (s : Scope) → OfText s → (x : Scope) × (os : ListMarks) × Expands s x os }
    ensures new_ids { (g : Naming) (s : Scope) → OfText s → NewIds g → Expands s (expand g s) (expand_marks g s) }
{}

/// An expansion has no inline nodes, bundles or inline exports; and leaves without them plan and form nothing but what stands just
/// before their definition.
pub fn expansion_stands_alone()
    ensures expanded { (s x : Scope) (os : ListMarks) → Rowed s → OfText s → Expands s x os → IsExpanded x }
    ensures plan { (st : List Scope) (k u : ℕ) (ls : Leaves) → LeavesExpanded ls → ((plan_leaves st k u ls).inlined ≡ []) × ((plan_leaves st k u ls).bundles ≡ []) }
    ensures form { (e : Encoding) (st : List Scope) (k u : ℕ) (ls : Leaves) → LeavesExpanded ls → ((form_leaves e st k u ls).inlined ≡ []) × ((form_leaves e st k u ls).bundles ≡ []) }
{}

/// A scope of the text without inline parts is its own expanded list: its definitions are written, and their references stand in them.
pub fn expanded_is_its_own()
    ensures { (s : Scope) → OfText s → IsExpanded s → Expands s s (own_marks s) }
{}

/// A list whose references are numerals is expanded; its form is the binary scope that it stands for, definition by definition, and
/// its plan is its definitions alone, with the name section where one is due.
pub fn resolved_is_its_own()
    ensures expanded { (s : Scope) → IsResolved s → IsExpanded s }
    ensures form { (e : Encoding) (st : List Scope) (s : Scope) → IsResolved s → form e st s ≡ binary_of e s }
    ensures plan { (e : Encoding) (st : List Scope) (s : Scope) → IsResolved s → plan e st s ≡ written_marks s }
{}
