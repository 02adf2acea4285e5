//! The space of the one item that most definitions declare, told without a list.

ghost use Rattle.std.specs.Prelude.{◌≡◌, ◌++◌, ◌∷◌, [], List, IfSome};
ghost use Rattle.comp_model.specs.CoreModules.{CoreModule};
ghost use Rattle.comp_model.specs.Spaces.{declares_row, leaves_spaces};
ghost use Rattle.comp_tree.specs.Lists.{listed};
ghost use Rattle.comp_model.specs.Spaces.{maybe_one};
ghost use Rattle.comp_tree.specs.Spaces.{run_of};

use comp_model::{Declares, Row, Space, declares_by};
use comp_tree::{Leaf, Run, leaf_run};

/// At most one space with those of a run behind it; `None` where these are more than one.
fn with_run(sole: Option<Space>, run: Run) -> Option<Option<Space>>
    ensures { IfSome result (λ s. maybe_one s ≡ maybe_one sole ++ run_of run) }
{
    if run.count == 0 {
        return Some(sole);
    }
    if run.count > 1 {
        return None;
    }
    match sole {
        None => Some(Some(run.space)),
        Some(_) => None,
    }
}

/// The space of the one item that leaves give to a definition whose spaces stand there; `None` where they give none or more.
fn sole_given(leaves: &[Leaf<'_, '_>], by: Declares) -> Option<Space>
    ensures { (C : List CoreModule) → IfSome result (λ s. s ∷ [] ≡ leaves_spaces (listed C leaves.now) by) }
{
    let mut sole = None;
    for leaf in leaves {
        match with_run(sole, leaf_run(leaf, by)) {
            Some(so_far) => sole = so_far,
            None => return None,
        }
    }
    sole
}

/// The space of the one item that a definition declares, by its row and its leaves; `None` where it declares none or more, and of the rows
/// that declare as many items as a list has.
pub(crate) fn sole_space(row: Row, leaves: &[Leaf<'_, '_>]) -> Option<Space>
    ensures { (C : List CoreModule) → IfSome result (λ s. s ∷ [] ≡ declares_row row (listed C leaves.now)) }
{
    match declares_by(row) {
        Declares::Always(space) => Some(space),
        Declares::ByKind => sole_given(leaves, Declares::ByKind),
        Declares::ByDescription => sole_given(leaves, Declares::ByDescription),
        Declares::ByReference => sole_given(leaves, Declares::ByReference),
        Declares::ByList => None,
        Declares::ByResults => None,
        Declares::Nothing => None,
    }
}
