//! The laws of walks. Each function does nothing; its contract is the law.

ghost use Rattle.std.specs.Prelude.{◌≡◌, ℕ, List, Bool, true, false};
ghost use Rattle.comp_model.specs.Events.{told_leaves, told_defs, enters_all};
ghost use Rattle.comp_model.specs.Model.{Leaves, Defs, Scope};
ghost use Rattle.comp_scopes.specs.Encoding.{Encoding};
ghost use Rattle.comp_scopes.specs.Form.{form_leaves};
ghost use Rattle.comp_scopes.specs.Filled.{indices, filled};
ghost use Rattle.comp_scopes.specs.Resolved.{binary_of_leaves};
ghost use Rattle.comp_expanded.specs.IsResolved.{LeavesResolved};
ghost use Rattle.comp_tables.specs.Tables.{Opened};
ghost use Rattle.comp_tables.specs.Built.{renumbered};
ghost use Rattle.comp_walks.specs.Numbered.{numbered};
ghost use Rattle.comp_walks.specs.Plain.{ArePlain};
ghost use Rattle.comp_walks.specs.Shapes.{all_pass, is_text_event};

/// Plain leaves that are numbered from a table are those that are filled from it, and those that a resolver with tables renumbers; from
/// the table of their indices they are the form's.
pub fn numbered_is_formed()
    ensures filled { (e : Encoding) (st : List Scope) (table : List ℕ) (u : ℕ) (ls : Leaves) → ArePlain ls → binary_of_leaves e (numbered table u ls) ≡ filled e st table u ls }
    ensures renumbered { (e : Encoding) (os : List Opened) (table : List ℕ) (u : ℕ) (ls : Leaves) → ArePlain ls → binary_of_leaves e (numbered table u ls) ≡ renumbered e os table u ls }
    ensures formed { (e : Encoding) (st : List Scope) (k : ℕ) (ls : Leaves) → ArePlain ls → binary_of_leaves e (numbered (indices st k 0 ls) 0 ls) ≡ (form_leaves e st k 0 ls).here }
    ensures resolved { (table : List ℕ) (u : ℕ) (ls : Leaves) → ArePlain ls → LeavesResolved (numbered table u ls) }
{
    comp_scopes::laws::definition_is_filled();
}
