//! The ids of the cases of a variant.

ghost use Rattle.std.specs.Prelude.{◌≡◌, ◌++◌, List, None, Some, [], MatchResult, OnOk, IfErr, option_map};
ghost use Rattle.comp_model.specs.Core.{Id as ModelId};
ghost use Rattle.comp_model.specs.CoreModules.{CoreModule};
ghost use Rattle.comp_model.specs.Model.{Leaves, ◌▸◌};
ghost use Rattle.comp_scopes.specs.Rule.{case_ids};
ghost use Rattle.comp_scopes.specs.Unmet.{unmet_cases};
ghost use Rattle.comp_tree.specs.Lists.{listed};
ghost use Rattle.comp_tree.specs.Model.{leaf_of};
ghost use Rattle.open_scopes.specs.Refusals.{refusal_of, no_memory};
ghost use Rattle.tree_names.specs.Cases.{CasesHold, id_before};

use crate::refusals::no_memory;
use comp_model::Space;
use comp_tree::Leaf;
use open_scopes::{Item, Registry};
use std::alloc::Global;
use wast_parser::{Error, ErrorKind, Id};

/// What is kept of the id of a case: that there is one.
const SOME_CASE: Item = Item {
    definition: 0,
    part: 0,
};

/// No case so far. It takes no memory.
pub(crate) fn no_cases<'a>(alloc: Global) -> Registry<'a>
    ensures { CasesHold result [] }
{
    Registry::new(alloc)
}

/// The id of a leaf, where it is that of a case.
fn case_id<'a>(leaf: &Leaf<'_, 'a>) -> Option<Id<'a>>
    ensures { (C : List CoreModule) (ls : Leaves) → case_ids (leaf_of C leaf.now ▸ ls) ≡ id_before result (case_ids ls) }
{
    match leaf {
        Leaf::CaseId(id) => **id,
        Leaf::Core(_) => None,
        Leaf::Text(_)
        | Leaf::Pieces(_)
        | Leaf::Number(_)
        | Leaf::Kind(_)
        | Leaf::CoreValue(_)
        | Leaf::Numeral(_, _, _)
        | Leaf::Name(_, _, _)
        | Leaf::Path(_, _)
        | Leaf::Place(_)
        | Leaf::Absent
        | Leaf::Present(_)
        | Leaf::Node(_)
        | Leaf::Nodes(_)
        | Leaf::Inline(_, _)
        | Leaf::Bundle(_, _)
        | Leaf::Results(_)
        | Leaf::Scope(_) => None,
    }
}

/// Looks at an id, if there is one.
fn check_id<'a>(cases: &Registry<'a>, id: Option<Id<'a>>) -> Result<(), Error>
    ensures { (earlier xs : List ModelId) → CasesHold cases.now earlier → MatchResult result (λ done. unmet_cases earlier (id_before id.entry xs) ≡ unmet_cases earlier xs) (λ x. option_map refusal_of (unmet_cases earlier (id_before id.entry xs)) ≡ Some x) }
{
    match id {
        Some(id) => {
            if cases.find(Space::Ty, id).is_some() {
                return Err(Error {
                    kind: ErrorKind::Duplicate,
                    offset: id.span().offset,
                });
            }
            Ok(())
        }
        None => Ok(()),
    }
}

/// Keeps an id, if there is one.
fn keep_id<'a>(cases: &mut Registry<'a>, id: Option<Id<'a>>) -> Result<(), Error>
    ensures kept { OnOk result ((xs : List ModelId) → CasesHold cases.old xs → CasesHold cases.new (id_before id.entry xs)) }
    ensures refused { IfErr result (λ e. e ≡ no_memory) }
{
    match id {
        Some(id) => match cases.replace(Space::Ty, id, SOME_CASE) {
            Ok(()) => Ok(()),
            Err(_) => Err(no_memory()),
        },
        None => Ok(()),
    }
}

/// Looks at the ids of a case. One that an earlier case bears is `Duplicate`, at the id.
pub(crate) fn check_case<'a>(cases: &Registry<'a>, leaves: &[Leaf<'_, 'a>]) -> Result<(), Error>
    ensures { (C : List CoreModule) (earlier : List ModelId) → CasesHold cases.now earlier → MatchResult result (λ done. unmet_cases earlier (case_ids (listed C leaves.now)) ≡ None) (λ x. option_map refusal_of (unmet_cases earlier (case_ids (listed C leaves.now))) ≡ Some x) }
{
    for leaf in leaves {
        match check_id(cases, case_id(leaf)) {
            Ok(()) => {}
            Err(refused) => return Err(refused),
        }
    }
    Ok(())
}

/// Keeps the ids of a case, the last one first. Want of memory is `NoMemory` at 0.
pub(crate) fn keep_case<'a>(cases: &mut Registry<'a>, leaves: &[Leaf<'_, 'a>]) -> Result<(), Error>
    ensures kept { OnOk result ((C : List CoreModule) (earlier : List ModelId) → CasesHold cases.old earlier → CasesHold cases.new (case_ids (listed C leaves.now) ++ earlier)) }
    ensures refused { IfErr result (λ e. e ≡ no_memory) }
{
    for behind in 0..leaves.len() {
        let at = leaves.len() - 1 - behind;
        match keep_id(cases, case_id(&leaves[at])) {
            Ok(()) => {}
            Err(refused) => return Err(refused),
        }
    }
    Ok(())
}
