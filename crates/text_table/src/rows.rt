//! The rules of the rows that stand in rules by their names, and of a whole text.

ghost use Rattle.std.specs.Prelude.{◌≡◌, true};
ghost use Rattle.text_rules.specs.Table.{table, in_table};
ghost use Rattle.text_rules.specs.FieldRules.{wat_item};
ghost use Rattle.text_table.specs.Code.{rule_of, row_of};

use crate::canons::{CANON, CANONICAL_OPTION, CORE_FUNC};
use crate::core_types::{CORE_TYPE_GROUP, CORE_VALUE_RULE, MODULE_TYPE_ITEM};
use crate::fields::{COMPONENT_ITEM, WHOLE_TEXT};
use crate::rule::{RowName, Rule};
use crate::types::{
    COMPONENT_TYPE_ITEM, INSTANCE_TYPE_ITEM, NAMELESS_SIGNATURE, SIGNATURE, TYPE_DEFINITION,
};
use crate::values::VAL_RULE;

/// The rule of a row.
pub fn row_rule(name: RowName) -> &'static Rule<'static>
    ensures rule { rule_of result.now ≡ table (row_of name) }
    ensures named { in_table (row_of name) ≡ true }
{
    match name {
        RowName::Val => VAL_RULE,
        RowName::ComponentItem => COMPONENT_ITEM,
        RowName::ComponentTypeItem => COMPONENT_TYPE_ITEM,
        RowName::InstanceTypeItem => INSTANCE_TYPE_ITEM,
        RowName::ModuleTypeItem => MODULE_TYPE_ITEM,
        RowName::CoreFunc => CORE_FUNC,
        RowName::Canon => CANON,
        RowName::CanonicalOption => CANONICAL_OPTION,
        RowName::TypeDefinition => TYPE_DEFINITION,
        RowName::Signature => SIGNATURE,
        RowName::NamelessSignature => NAMELESS_SIGNATURE,
        RowName::CoreValue => CORE_VALUE_RULE,
        RowName::CoreTypeDefinition => CORE_TYPE_GROUP,
    }
}

/// The rule of a whole text.
pub fn whole_text() -> &'static Rule<'static>
    ensures { rule_of result.now ≡ wat_item }
{
    WHOLE_TEXT
}
