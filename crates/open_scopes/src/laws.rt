//! Which open scopes of the model those of the code stand for.

ghost use Rattle.std.specs.Prelude.{◌++◌, [], ◌∷◌, List};
ghost use Rattle.comp_tables.specs.Tables.{Opened};
ghost use Rattle.open_scopes.specs.declared.scopes.Open.{Open as Scope};
ghost use Rattle.open_scopes.specs.Shown.{Shows, OpenScopesShow};
ghost use Rattle.open_scopes.specs.Indexed.{AreIndexed, OpenIndexed};

/// The laws of open scopes: they stand for some of the model; a scope that is opened is the innermost of those; and where its items have
/// indices, and those of the scopes around it do, all have.
pub fn opened_scopes_show()
    ensures some_shown { (scopes : List Scope) → (ms : List Opened) × OpenScopesShow scopes ms }
    ensures none_open { OpenScopesShow [] [] }
    ensures shown { (scopes : List Scope) (o : Scope) (ms : List Opened) (m : Opened) → OpenScopesShow scopes ms → Shows o m → OpenScopesShow (scopes ++ o ∷ []) (m ∷ ms) }
    ensures none_indexed { OpenIndexed [] }
    ensures indexed { (scopes : List Scope) (o : Scope) → OpenIndexed scopes → AreIndexed o.names o.table.items → OpenIndexed (scopes ++ o ∷ []) }
{}
