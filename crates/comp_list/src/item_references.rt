//! The references of a definition of a tree.

ghost use Rattle.std.specs.Prelude.{◌≡◌, ◌++◌, OnOk, IfOk};
ghost use Rattle.comp_wire.specs.Values.{rows_of_list, function_row};
ghost use Rattle.item_tree.specs.Model.{item_row};
ghost use Rattle.comp_list.specs.References.{node_references};
ghost use Rattle.comp_list.specs.Places.{references_at, row_references};

use crate::item_places::places_of;
use crate::places::Places;
use crate::reference::{Reference, push_some};
use comp_wire::WireFunc;
use item_tree::Item;
use std::alloc::{AllocError, Global};

/// Puts the references at places behind others.
fn push_places(found: &mut Vec<Reference>, places: &Places<'_>) -> Result<(), AllocError>
    ensures { OnOk result (found.new.items ≡ found.old.items ++ references_at places.now) }
{
    for place in 0..places.count() {
        push_some(found, places.at(place))?;
    }
    Ok(())
}

/// Puts the references of core function types behind others.
fn push_functions(found: &mut Vec<Reference>, functions: &[WireFunc]) -> Result<(), AllocError>
    ensures { OnOk result (found.new.items ≡ found.old.items ++ node_references (rows_of_list function_row functions.now)) }
{
    for function in functions {
        push_places(found, &Places::CoreValues(function.params.as_slice()))?;
        push_places(found, &Places::CoreValues(function.results.as_slice()))?;
    }
    Ok(())
}

/// The references of a definition, in the order of its leaves. It is refused where memory ran out.
pub fn item_references(alloc: Global, item: &Item<'_>) -> Result<Vec<Reference>, AllocError>
    ensures { IfOk result (λ v. v.items ≡ row_references (item_row item.now)) }
{
    let places = places_of(item);
    let mut found = Vec::new(alloc);
    push_places(&mut found, &places.first)?;
    push_places(&mut found, &places.second)?;
    push_places(&mut found, &places.third)?;
    push_functions(&mut found, places.functions)?;
    Ok(found)
}
