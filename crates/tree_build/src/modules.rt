//! Core modules get their names.

ghost use Rattle.std.specs.Prelude.{◌≡◌, List, None, IfOk, OnOk, map, option_map};
ghost use Rattle.comp_model.specs.CoreModules.{CoreModule, Field};
ghost use Rattle.comp_model.specs.Model as m;
ghost use Rattle.core_model.specs.Module.{module_with};
ghost use Rattle.comp_tree.specs.Model.{leaf_of, id_of, lent_text};
ghost use Rattle.tree_build.specs.Cores.{Final, Grows, fields_at};
ghost use Rattle.tree_build.specs.Held.{core_number, loose};

use crate::cores::{Cores, NamedModule};
use comp_tree::Leaf;
use std::alloc::AllocError;
use wast_parser::Id;

/// A module of an id, a label and the fields of a number, as a leaf.
#[inline]
pub(crate) fn name_module<'t, 'a>(
    cores: &mut Cores<'a>,
    id: Option<Id<'a>>,
    label: Option<&'a str>,
    fields: usize,
) -> Result<Leaf<'t, 'a>, AllocError>
    ensures grows { OnOk result (Grows cores.old cores.new) }
    ensures leaf { (fs : List (List Field)) (cs : List CoreModule) → Final fs cs cores.new → IfOk result (λ l. leaf_of cs l ≡ m.core_source (module_with (record { id = option_map id_of id.entry; label = option_map lent_text label.entry }) (fields_at fs fields))) }
{
    let number = cores.modules.as_slice().len();
    match cores.modules.push(NamedModule { id, label, fields }) {
        Ok(()) => Ok(Leaf::Core(number)),
        Err(_) => Err(AllocError),
    }
}

/// The number of the fields of a loose leaf that is a core module.
#[inline]
pub(crate) fn core_number(leaf: &Leaf<'_, '_>) -> Option<usize>
    ensures { result ≡ core_number leaf.now }
{
    match leaf {
        Leaf::Core(number) => Some(*number),
        _ => None,
    }
}

/// A loose leaf, which no definition holds: a core module has no names.
#[inline]
fn settled<'t, 'a>(cores: &mut Cores<'a>, leaf: Leaf<'t, 'a>) -> Result<Leaf<'t, 'a>, AllocError>
    ensures grows { OnOk result (Grows cores.old cores.new) }
    ensures leaf { (fs : List (List Field)) (cs : List CoreModule) → Final fs cs cores.new → IfOk result (λ l. leaf_of cs l ≡ loose fs cs leaf.entry) }
{
    match core_number(&leaf) {
        Some(fields) => name_module(cores, None, None, fields),
        None => Ok(leaf),
    }
}

/// Loose leaves, which no definition holds.
pub(crate) fn settle<'a>(
    cores: &mut Cores<'a>,
    leaves: &mut [Leaf<'_, 'a>],
) -> Result<(), AllocError>
    ensures grows { OnOk result (Grows cores.old cores.new) }
    ensures leaves { (fs : List (List Field)) (cs : List CoreModule) → Final fs cs cores.new → OnOk result (map (leaf_of cs) leaves.new ≡ map (loose fs cs) leaves.old) }
{
    'leaves: for i in 0..leaves.len() {
        match settled(cores, leaves[i]) {
            Ok(leaf) => leaves[i] = leaf,
            Err(AllocError) => return Err(AllocError),
        }
    }
    Ok(())
}
