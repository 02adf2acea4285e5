//! What a rule leaves that stands for no token.

ghost use Rattle.std.specs.Prelude.{◌≡◌, None, option_map};
ghost use Rattle.comp_tree.specs.Model.{id_of, core_value_of};
ghost use Rattle.text_rules.specs.Makes.{adds};
ghost use Rattle.text_table.specs.Code.{add_of, core_type_of};
ghost use Rattle.tree_build.specs.Adds.{Adds};

use comp_tree::{CoreValue, Leaf};
use std::alloc::AllocError;
use text_table::rule::{Add, CoreType};
use tree_build::Scratch;
use wast_parser::Id;

/// No id, which all cases that have none share.
static NO_ID: Option<Id<'static>> = None;

/// No id.
fn no_id() -> &'static Option<Id<'static>>
    ensures { option_map id_of result.now ≡ None }
{
    &NO_ID
}

/// A core value type, as the tree has it.
fn core_value(value: CoreType) -> CoreValue<'static, 'static>
    ensures { core_value_of result ≡ core_type_of value }
{
    match value {
        CoreType::I32 => CoreValue::I32,
        CoreType::I64 => CoreValue::I64,
        CoreType::F32 => CoreValue::F32,
        CoreType::F64 => CoreValue::F64,
        CoreType::V128 => CoreValue::V128,
        CoreType::RefFunc(nullable) => CoreValue::RefFunc(nullable),
        CoreType::RefExtern(nullable) => CoreValue::RefExtern(nullable),
        CoreType::Other => CoreValue::Other,
    }
}

/// Adds what stands for no token.
pub(crate) fn add(add: Add, scratch: &mut Scratch<'_, '_>) -> Result<(), AllocError>
    ensures { Adds result scratch.old scratch.new (λ fs cs. adds (add_of add)) }
{
    match add {
        Add::Number(number) => scratch.leaf(Leaf::Number(number)),
        Add::CoreValue(value) => scratch.leaf(Leaf::CoreValue(core_value(value))),
        Add::Kind(space) => scratch.leaf(Leaf::Kind(space)),
        Add::NoPart => scratch.leaf(Leaf::Absent),
        Add::NoCaseId => scratch.leaf(Leaf::CaseId(no_id())),
        Add::NoId => scratch.id(None),
        Add::NoLabel => scratch.label(None),
    }
}
