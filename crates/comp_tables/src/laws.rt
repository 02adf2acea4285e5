//! The laws of resolving with tables: what counters, registries and tables hold, and that what is read from them is the first unmet
//! demand, or the form and the plan. Each function does nothing; its contract is the law.
//!
//! In them `os` are the open scopes with their registries and tables, and `st` the scopes that they stand for, the innermost first.
//! `RegistriesHold os st` and `TablesHold os st` say that they are right; both hold of empty stacks. `IsExpanded s` says that a scope
//! has nothing inline in it, and `Marked` that its marks are as many as its definitions. The passes are in the specifications `Tables`,
//! `Built` and `InText`, and as walks whose state grows leaf by leaf in `Walks`, which a program can follow.

ghost use Rattle.std.specs.List.{range_with_len};
ghost use Rattle.std.specs.Prelude.{◌≡◌, ℕ, ◌+◌, ◌≤◌, List, [], ◌∷◌, ◌++◌, length, map, replicate, take, false, Option, Some, None, option_map};
ghost use Rattle.comp_model.specs.declared.Space.{Space};
ghost use Rattle.comp_model.specs.declared.row.Row.TheVariants as rows;
ghost use Rattle.comp_model.specs.declared.row.Row.{Row};
ghost use Rattle.comp_model.specs.RowNumbers.{same_row};
ghost use Rattle.comp_model.specs.Core.{Id, Reach};
ghost use Rattle.comp_model.specs.Model.{scope, Leaves, Defs, Scope, scope_of, kind_of, defs_of};
ghost use Rattle.comp_model.specs.Spaces.{declarations, declared};
ghost use Rattle.comp_model.specs.Rows.{leaves_of, ShapedLeaves};
ghost use Rattle.comp_model.specs.Origins.{holds};
ghost use Rattle.comp_scopes.specs.Encoding.{Encoding};
ghost use Rattle.comp_scopes.specs.Names.{Denoted, first_of_two, denotes};
ghost use Rattle.comp_scopes.specs.References.{references};
ghost use Rattle.comp_scopes.specs.Rule.{ScopeRule};
ghost use Rattle.comp_scopes.specs.Unmet.{Unmet, first_duplicate, first_unmet};
ghost use Rattle.comp_scopes.specs.Outward.{Outward, outward_leaves, outward_names, served};
ghost use Rattle.comp_scopes.specs.Plan.{Mark, marks, plan_leaves, before};
ghost use Rattle.comp_scopes.specs.Form.{Made, form_leaves, binary_defs, origins_of, built, plan, form};
ghost use Rattle.comp_scopes.specs.Filled.{indices, filled};
ghost use Rattle.comp_scopes.specs.Rowed.{holds_scope, LeavesRowed, Rowed};
ghost use Rattle.comp_expanded.specs.ListMarks.{ListMarks, inside_are};
ghost use Rattle.comp_expanded.specs.TextNumbers.{entries, marks_in_text};
ghost use Rattle.comp_expanded.specs.OfText.{OfText};
ghost use Rattle.comp_expanded.specs.Expands.{AllExpand, Expands};
ghost use Rattle.comp_expanded.specs.IsExpanded.{LeavesExpanded, IsExpanded};
ghost use Rattle.comp_tables.specs.Tables.{Counters, no_counts, advanced, alias_of, nothing_registered, first_taken, Opened, found, past, counted_table, unmet_kinds, unmet_kinds_defs, found_indices, needs};
ghost use Rattle.comp_tables.specs.Stand.{RegistriesHold, TablesHold, EachItem, HoldsFirst, outward_at, CountersHold, ComesNext};
ghost use Rattle.comp_tables.specs.Built.{registry_of, table_for, open_scope, Outcome, refused, done, outcome, and_then, missing_roots, missing, missing_leaf, missing_scope, renumbered, renumbered_leaf, made_scope};
ghost use Rattle.comp_tables.specs.InText.{Marked, in_text, text_held_leaf, text_scope};
ghost use Rattle.comp_tables.specs.Walks.{counters_in, all_more, CountState, count, TableState, table_defs, ReadState, read_past, read, run};
ghost use Rattle.comp_model.specs.Events.{told_leaves, enters_none};
ghost use Rattle.comp_tables.specs.Visitor.{count_step, root_step, VisitState, read_step, CasesFirst};
ghost use Rattle.comp_tables.specs.Bounds.{most_needs, most_declared};

/// The counts of counters can be kept in a list of thirteen numbers, one for each space.
pub fn counters_fit_a_list()
    ensures head { counters_in (replicate 13 0) ≡ no_counts.counts }
    ensures more { (xs : List ℕ) (ss : List Space) (c : Counters) → length xs ≡ 13 → counters_in xs ≡ c.counts → (length (all_more xs ss) ≡ 13) × (counters_in (all_more xs ss) ≡ (advanced ss c).counts) }
{}

/// The registry of a scope has the first declaration of each id, and the first id that is taken while it is filled is the first that is
/// borne twice.
pub fn registry_finds()
    ensures names { (s : Scope) (space : Space) (x : Id) → registry_of s space x ≡ declared s space x }
    ensures taken { (s : Scope) → first_taken nothing_registered (declarations s) ≡ first_duplicate [] (declarations s) }
{}

/// What is found for a name in the registries of the open scopes is what it denotes.
pub fn names_are_looked_up()
    ensures { (os : List Opened) (st : List Scope) (space : Space) (r : Reach) (x : Id) → RegistriesHold os st → found os space r x ≡ denotes st space r x }
{}

/// Counters hold what is in front of a place where their counts are the declarations in front of it and their aliases those of the items
/// that the names in front of it denote. At the head of a scope they do, and past leaves they do again: of the names that lead out, the
/// first of each item has added its alias.
pub fn counters_count()
    ensures head { (st : List Scope) → CountersHold st no_counts [] [] }
    ensures front { (os : List Opened) (st : List Scope) (k u : ℕ) (ls : Leaves) (c : Counters) (front rest : List Mark) (named later : List Outward) → RegistriesHold os st → LeavesExpanded ls
        → marks st ≡ front ++ ((plan_leaves st k u ls).needed ++ rest) → outward_names st ≡ named ++ ((outward_leaves st k u ls).needed ++ later) → CountersHold st c front named
        → CountersHold st (past os ls c) (front ++ (plan_leaves st k u ls).needed) (named ++ (outward_leaves st k u ls).needed) }
    ensures serve { (st : List Scope) (k u : ℕ) (s : Space) (d : Denoted) (c : Counters) (front : List Mark) (named later : List Outward) → outward_names st ≡ named ++ outward_at k u s d ∷ later → CountersHold st c front named
        → alias_of s d c.aliases ≡ option_map (λ o. before s o (marks st)) (served st k u s d) }
{}

/// The table that is counted along a scope has, for each definition, the index of the first item that it declares.
pub fn table_has_first_indices()
    ensures { (os : List Opened) (st : List Scope) (s : Scope) → RegistriesHold os st → Rowed s → IsExpanded s → EachItem (HoldsFirst (table_for os s) (marks (s ∷ st))) (declarations s) }
{}

/// A scope that is opened in front of right open scopes has a right registry and a right table.
pub fn opened_scope_stands()
    ensures { (os : List Opened) (st : List Scope) (s : Scope) → RegistriesHold os st → TablesHold os st → Rowed s → IsExpanded s → RegistriesHold (open_scope os s ∷ os) (s ∷ st) × TablesHold (open_scope os s ∷ os) (s ∷ st) }
{}

/// Where the counters hold what is in front of a definition, what is found for its references are their indices, and what is needed
/// before it is what its form has there.
pub fn references_are_read()
    ensures indices { (os : List Opened) (st : List Scope) (k u : ℕ) (ls : Leaves) (c : Counters) → RegistriesHold os st → TablesHold os st → LeavesExpanded ls → ComesNext st c (plan_leaves st k u ls).needed (outward_leaves st k u ls).needed → found_indices os ls c ≡ indices st k u ls }
    ensures needs { (e : Encoding) (os : List Opened) (st : List Scope) (k : ℕ) (ls : Leaves) (c : Counters) → RegistriesHold os st → TablesHold os st → LeavesExpanded ls → ComesNext st c (plan_leaves st k 0 ls).needed (outward_leaves st k 0 ls).needed → needs os k (range_with_len 0 (references ls)) ls c ≡ (form_leaves e st k 0 ls).needed }
{}

/// By parts: what is missing is the first unmet demand, what is made are the planned definitions, leaves are filled from a list of
/// indices, and what is made with marks of the text are the planned definitions in the numbers of the text.
pub fn tables_give_parts()
    ensures missing { (e : Encoding) (os : List Opened) (st : List Scope) (s : Scope) → RegistriesHold os st → IsExpanded s → missing_scope e os s ≡ first_unmet e st s }
    ensures made { (e : Encoding) (os : List Opened) (st : List Scope) (s : Scope) → RegistriesHold os st → TablesHold os st → Rowed s → IsExpanded s → made_scope e os s ≡ built e st s }
    ensures filled { (e : Encoding) (os : List Opened) (st : List Scope) (table : List ℕ) (u : ℕ) (ls : Leaves) → RegistriesHold os st → TablesHold os st → LeavesRowed ls → LeavesExpanded ls → renumbered e os table u ls ≡ filled e st table u ls }
    ensures told { (e : Encoding) (os : List Opened) (st : List Scope) (s : Scope) (ms : ListMarks) → RegistriesHold os st → TablesHold os st → Rowed s → IsExpanded s → Marked (defs_of s) ms → text_scope e os s ms ≡ map (in_text (entries (defs_of s) ms)) (built e st s) }
{}

/// The walk that counts gives the table and the second search; the walk that reads gives the indices, what stands before the definition
/// with marks of the text, and the third search.
pub fn walks_fill_tables()
    ensures count { (os : List Opened) (ls : Leaves) (q : CountState) → count os ls q ≡ record { counters = past os ls q.counters; refused = first_of_two q.refused (unmet_kinds os ls) } }
    ensures table { (os : List Opened) (ds : Defs) (w : TableState) → (table_defs os ds w).table ≡ w.table ++ counted_table os w.counters ds }
    ensures refused { (os : List Opened) (ds : Defs) (w : TableState) → (table_defs os ds w).refused ≡ first_of_two w.refused (unmet_kinds_defs os ds) }
    ensures read { (e : Encoding) (os : List Opened) (j : ℕ) (ls : Leaves) (r : ReadState) → read e os j ls r ≡ read_past r (past os ls r.counters) (references ls) (found_indices os ls r.counters) (needs os j r.places ls r.counters) (missing e os ls) }
{}

/// A visitor that is told leaves, and no scope in them, counts, finds the first missing root, and reads, if it keeps the ids of earlier
/// cases beside. That these are at hand where they are needed comes of the table of rows.
pub fn visitors_fill_tables()
    ensures count { (os : List Opened) (ls : Leaves) (q : CountState) → LeavesExpanded ls → told_leaves (count_step os) enters_none ls q ≡ count os ls q }
    ensures roots { (os : List Opened) (ls : Leaves) (x : Option Unmet) → LeavesExpanded ls → told_leaves (root_step os) enters_none ls x ≡ first_of_two x (missing_roots os ls) }
    ensures read { (e : Encoding) (os : List Opened) (j : ℕ) (ls : Leaves) (w : VisitState) → CasesFirst ls → (told_leaves (read_step e os j) enters_none ls w).reading ≡ read e os j ls w.reading }
    ensures cased { (t : Row) (ls : Leaves) → same_row t rows.CaseType ≡ false → ShapedLeaves ls (leaves_of t) → LeavesExpanded ls → holds_scope ls ≡ false → CasesFirst ls }
{}

/// What `run` gives for an inner scope is what the definition that holds it takes: the refusal, or the node and the marks.
pub fn inner_scope_is_run()
    ensures parts { (e : Encoding) (os : List Opened) (s : Scope) (ms : ListMarks) → Marked (defs_of s) ms → run e os s ms ≡ outcome (missing_scope e os s) (text_scope e os s ms) }
    ensures refused { (e : Encoding) (os : List Opened) (s : Scope) (ms : ListMarks) (u : Unmet) → Marked (defs_of s) ms → run e os s ms ≡ refused u → missing_leaf e os (scope s) ≡ Some u }
    ensures done { (e : Encoding) (os : List Opened) (s : Scope) (ms : ListMarks) (made : List Made) → Marked (defs_of s) ms → run e os s ms ≡ done made
        → (missing_leaf e os (scope s) ≡ None) × ((table : List ℕ) (u : ℕ) → renumbered_leaf e os table u (scope s) ≡ scope (scope_of (kind_of s) None None (binary_defs made))) × (text_held_leaf e os (scope s) (inside_are ms) ≡ holds (origins_of made)) }
{}

/// Steps that stop at the first refusal can be taken together from either end.
pub fn steps_follow()
    ensures together { (x y z : Outcome) → and_then (and_then x y) z ≡ and_then x (and_then y z) }
    ensures none { (x : Outcome) → and_then (done []) x ≡ x }
{}

/// `run` of an expanded scope is its first unmet demand, or else its planned definitions in the numbers of the text.
pub fn tables_resolve()
    ensures outcome { (e : Encoding) (os : List Opened) (st : List Scope) (s : Scope) (ms : ListMarks) → RegistriesHold os st → TablesHold os st → Rowed s → IsExpanded s → Marked (defs_of s) ms → run e os s ms ≡ outcome (first_unmet e st s) (map (in_text (entries (defs_of s) ms)) (built e st s)) }
    ensures refused { (e : Encoding) (os : List Opened) (st : List Scope) (s : Scope) (ms : ListMarks) (u : Unmet) → RegistriesHold os st → TablesHold os st → Rowed s → IsExpanded s → Marked (defs_of s) ms → run e os s ms ≡ refused u → first_unmet e st s ≡ Some u }
    ensures done { (e : Encoding) (os : List Opened) (st : List Scope) (s : Scope) (ms : ListMarks) (made : List Made) → RegistriesHold os st → TablesHold os st → Rowed s → IsExpanded s → Marked (defs_of s) ms → run e os s ms ≡ done made
        → (first_unmet e st s ≡ None) × (form e st s ≡ scope_of (kind_of s) None None (binary_defs made)) × (marks_in_text (entries (defs_of s) ms) (plan e st s) ≡ origins_of made) }
{}

/// There is one index for each reference; what is needed before a definition, and how far a count comes, is bounded by the names and
/// export names in the leaves and by what is declared.
pub fn counters_are_bounded()
    ensures indices { (os : List Opened) (ls : Leaves) (c : Counters) → LeavesExpanded ls → length (found_indices os ls c) ≡ references ls }
    ensures needs { (os : List Opened) (j : ℕ) (vs : List ℕ) (ls : Leaves) (c : Counters) → length (needs os j vs ls c) ≤ most_needs ls }
    ensures leaves { (os : List Opened) (ls : Leaves) (c : Counters) (space : Space) → (past os ls c).counts space ≤ c.counts space + most_needs ls }
    ensures definition { (os : List Opened) (ds : Defs) (ls : Leaves) (ss : List Space) (c : Counters) (space : Space) → (advanced ss (past os ls c)).counts space + most_declared ds ≤ c.counts space + (most_needs ls + length ss + most_declared ds) }
{}

/// What is needed before a definition has the numbers in the text of its own references: those behind them don't count.
pub fn needs_take_places()
    ensures { (os : List Opened) (j : ℕ) (vs ws : List ℕ) (ls : Leaves) (c : Counters) → take (references ls) vs ≡ take (references ls) ws → needs os j vs ls c ≡ needs os j ws ls c }
{}

/// An expansion of a scope of the text meets what the tables ask of it.
pub fn expansion_is_marked()
    ensures rowed { (s x : Scope) (ms : ListMarks) → Rowed s → OfText s → Expands s x ms → Rowed x }
    ensures marked { (s x : Scope) (ms : ListMarks) → Rowed s → OfText s → Expands s x ms → Marked (defs_of x) ms }
{}

/// So the expansion of a scope of the text, resolved with tables, gives that scope's first unmet demand, or else its form and its plan.
/// Both premises on open scopes hold of none: of a whole component nothing but the expansion is asked.
pub fn tables_resolve_expansion()
    ensures refused { (e : Encoding) (os : List Opened) (st xs : List Scope) (s x : Scope) (ms : ListMarks) (u : Unmet) → RegistriesHold os xs → TablesHold os xs → AllExpand st xs → Rowed s → OfText s → Expands s x ms → run e os x ms ≡ refused u → first_unmet e st s ≡ Some u }
    ensures done { (e : Encoding) (os : List Opened) (st xs : List Scope) (s x : Scope) (ms : ListMarks) (made : List Made) → RegistriesHold os xs → TablesHold os xs → AllExpand st xs → Rowed s → OfText s → Expands s x ms → run e os x ms ≡ done made
        → ScopeRule e st s × (form e st s ≡ scope_of (kind_of x) None None (binary_defs made)) × (plan e st s ≡ origins_of made) }
{}
