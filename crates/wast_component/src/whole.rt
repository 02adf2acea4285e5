//! What a whole text is: by the one definition that was read.

ghost use Rattle.std.specs.Prelude.{◌≡◌, List};
ghost use Rattle.comp_model.specs.CoreModules.{CoreModule};
ghost use Rattle.comp_model.specs.declared.row.Row.TheVariants as rows;
ghost use Rattle.comp_model.specs.RowNumbers.{same_row};
ghost use Rattle.comp_tree.specs.Lists.{def_of};
ghost use Rattle.comp_tree.specs.Model.{leaf_of};
ghost use Rattle.wast_component.specs.Seen.{seen};
ghost use Rattle.wast_component.specs.Whole.{of_leaf, whole_of};

use comp_model::Row;
use comp_tree::{Def, Leaf, Scope};

/// What a text is.
#[derive(Clone, Copy)]
pub(crate) enum Whole<'a> {
    /// A rows.Component in text form.
    Component(&'a Scope<'a, 'a>),
    /// One in binary form, by one string.
    Text(&'a str),
    /// One in binary form, by its strings.
    Pieces(&'a [&'a [u8]]),
    /// A core module, by the offset of its word.
    Module(u32),
}

/// What a rows.Component is that is this leaf alone; all but a scope and a text is a core module at that offset.
fn component_of<'a>(leaf: &Leaf<'a, 'a>, offset: u32) -> Whole<'a>
    ensures { (cores : List CoreModule) → seen cores result ≡ of_leaf offset (leaf_of cores leaf.now) }
{
    match leaf {
        Leaf::Scope(scope) => Whole::Component(scope),
        Leaf::Text(text) => Whole::Text(text),
        Leaf::Pieces(pieces) => Whole::Pieces(pieces),
        Leaf::Number(_) => Whole::Module(offset),
        Leaf::Kind(_) => Whole::Module(offset),
        Leaf::CoreValue(_) => Whole::Module(offset),
        Leaf::Numeral(_, _, _) => Whole::Module(offset),
        Leaf::Name(_, _, _) => Whole::Module(offset),
        Leaf::Path(_, _) => Whole::Module(offset),
        Leaf::Place(_) => Whole::Module(offset),
        Leaf::Absent => Whole::Module(offset),
        Leaf::Present(_) => Whole::Module(offset),
        Leaf::Node(_) => Whole::Module(offset),
        Leaf::Nodes(_) => Whole::Module(offset),
        Leaf::Inline(_, _) => Whole::Module(offset),
        Leaf::Bundle(_, _) => Whole::Module(offset),
        Leaf::CaseId(_) => Whole::Module(offset),
        Leaf::Results(_) => Whole::Module(offset),
        Leaf::Core(_) => Whole::Module(offset),
    }
}

/// Whether a row is that of components.
fn is_component(row: Row) -> bool
    ensures { result ≡ same_row row rows.Component }
{
    match row {
        Row::Component => true,
        _ => false,
    }
}

/// What a text is whose definition this is.
pub(crate) fn whole_of<'a>(def: &Def<'a, 'a>) -> Whole<'a>
    ensures { (cores : List CoreModule) → seen cores result ≡ whole_of (def_of cores def.now) }
{
    let offset = def.span.offset;
    if is_component(def.node.row) && def.node.leaves.len() == 1 {
        component_of(&def.node.leaves[0], offset)
    } else {
        Whole::Module(offset)
    }
}
