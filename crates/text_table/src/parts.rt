//! The rules that stand in others by their names.

ghost use Rattle.std.specs.Prelude.{◌≡◌};
ghost use Rattle.text_table.specs.Code.{rule_of, part_of, uses};

use crate::canons::{
    CONTEXT, CORE_TYPE_AND_TABLE, FUNC, FUNC_AND_OPTIONS, MEMORY, RESULT_AND_OPTIONS,
    TYPE_AND_ASYNC, TYPE_AND_OPTIONS, TYPE_OF,
};
use crate::core_types::{CORE_FUNCTION, CORE_REC, CORE_SIGNATURE, CORE_TYPE};
use crate::fields::{CORE_MODULE, CUSTOM, INNER_COMPONENT, PRODUCERS, START, TYPE};
use crate::instances::{CORE_INSTANCE, INSTANCE};
use crate::references::ITEM;
use crate::rule::{Part, Rule};
use crate::types::{ALIAS, EXPORT, EXPORT_TYPE, IMPORT, RESOURCE_TYPE, TYPE_DECLARATION};

/// The rule of a name.
pub fn part_rule(part: Part) -> &'static Rule<'static>
    ensures rule { rule_of result.now ≡ part_of part }
    ensures part { uses result.now ≡ 0 }
{
    match part {
        Part::CoreType => CORE_TYPE,
        Part::CoreRec => CORE_REC,
        Part::CoreFunction => CORE_FUNCTION,
        Part::CoreSignature => CORE_SIGNATURE,
        Part::TypeDeclaration => TYPE_DECLARATION,
        Part::Alias => ALIAS,
        Part::Import => IMPORT,
        Part::ExportedType => EXPORT_TYPE,
        Part::Export => EXPORT,
        Part::Resource => RESOURCE_TYPE,
        Part::Item => ITEM,
        Part::CoreInstance => CORE_INSTANCE,
        Part::Instance => INSTANCE,
        Part::Func => FUNC,
        Part::CoreModule => CORE_MODULE,
        Part::InnerComponent => INNER_COMPONENT,
        Part::Type => TYPE,
        Part::Start => START,
        Part::Custom => CUSTOM,
        Part::Producers => PRODUCERS,
        Part::TypeOf => TYPE_OF,
        Part::TypeAndOptions => TYPE_AND_OPTIONS,
        Part::TypeAndAsync => TYPE_AND_ASYNC,
        Part::FuncAndOptions => FUNC_AND_OPTIONS,
        Part::ResultAndOptions => RESULT_AND_OPTIONS,
        Part::Context => CONTEXT,
        Part::CoreTypeAndTable => CORE_TYPE_AND_TABLE,
        Part::Memory => MEMORY,
    }
}
