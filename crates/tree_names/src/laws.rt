//! What leaves that settled are among the tables of the model.

ghost use Rattle.std.specs.Prelude.{◌≡◌, List};
ghost use Rattle.comp_model.specs.Model.{Leaves};
ghost use Rattle.comp_scopes.specs.Encoding.{Encoding};
ghost use Rattle.comp_expanded.specs.IsExpanded.{LeavesExpanded};
ghost use Rattle.comp_tables.specs.Tables.{Counters, Opened, found_indices};
ghost use Rattle.comp_tables.specs.Built.{renumbered};
ghost use Rattle.tree_names.specs.Settled.{settled};

/// Leaves that settled are those with the indices that the tables find for their references.
pub fn settled_is_renumbered()
    ensures { (e : Encoding) (ms : List Opened) (ls : Leaves) (c : Counters) → LeavesExpanded ls → renumbered e ms (found_indices ms ls c) 0 ls ≡ settled e ms ls c }
{}
