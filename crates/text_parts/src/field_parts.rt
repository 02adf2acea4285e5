//! Fields of a component, instances and functions as what they hold is read alone (Component Model, "Component Definitions", "Instance Definitions"
//! and "Canonical Definitions").

ghost use Rattle.std.specs.Prelude.{◌≡◌};
ghost use Rattle.text_table.specs.Code.{rule_of};
ghost use Rattle.text_parts.specs.ReadAlone.{field_part};

use text_table::canons::{CORE_FUNC_KIND, FUNC_KIND, LIFT, OPTIONS};
use text_table::fields::{CUSTOM_CONTENTS, FIELD_CONTENTS, PRODUCERS_CONTENTS, WHOLE_COMPONENT};
use text_table::instances::{
    ARGUMENT, ARGUMENT_KIND, ARGUMENTS, CORE_ARGUMENT, CORE_ARGUMENT_KIND, CORE_ARGUMENTS,
    CORE_EXPORT, CORE_EXPORTS, CORE_INSTANCE_KIND, INSTANCE_KIND,
};
use text_table::rule::Rule;

/// What is read alone of the fields of a component.
#[derive(Clone, Copy)]
pub enum FieldPart {
    /// A component that is the whole text, in its parentheses.
    WholeComponent,
    /// A field of a component, in its parentheses; from its annotation on, if it is one.
    Field,
    /// A custom section, from its annotation on, up to what closes it.
    Custom,
    /// A `producers` section, from its annotation on, up to what closes it.
    Producers,
    /// What a core instance is: an instantiation or exports.
    CoreInstanceKind,
    /// What an instance is: an inline import, an instantiation or exports.
    InstanceKind,
    /// `carg`, in its parentheses.
    CoreArgument,
    /// What stands behind the name of `carg`.
    CoreArgumentKind,
    /// `carg*`.
    CoreArguments,
    /// `cbexp`, in its parentheses.
    CoreExport,
    /// `cbexp*`.
    CoreExports,
    /// `arg`, in its parentheses.
    Argument,
    /// What stands behind the name of `arg`.
    ArgumentKind,
    /// `arg*`.
    Arguments,
    /// What a function is: an inline import, an alias or a lift.
    FuncKind,
    /// What a core function is, in its parentheses: an alias or a built-in.
    CoreFuncKind,
    /// `lift`.
    Lift,
    /// `opt*`.
    Options,
}

/// The rule of a part.
pub fn field_rule(part: FieldPart) -> &'static Rule<'static>
    ensures { rule_of result.now ≡ field_part part }
{
    match part {
        FieldPart::WholeComponent => WHOLE_COMPONENT,
        FieldPart::Field => FIELD_CONTENTS,
        FieldPart::Custom => CUSTOM_CONTENTS,
        FieldPart::Producers => PRODUCERS_CONTENTS,
        FieldPart::CoreInstanceKind => CORE_INSTANCE_KIND,
        FieldPart::InstanceKind => INSTANCE_KIND,
        FieldPart::CoreArgument => CORE_ARGUMENT,
        FieldPart::CoreArgumentKind => CORE_ARGUMENT_KIND,
        FieldPart::CoreArguments => CORE_ARGUMENTS,
        FieldPart::CoreExport => CORE_EXPORT,
        FieldPart::CoreExports => CORE_EXPORTS,
        FieldPart::Argument => ARGUMENT,
        FieldPart::ArgumentKind => ARGUMENT_KIND,
        FieldPart::Arguments => ARGUMENTS,
        FieldPart::FuncKind => FUNC_KIND,
        FieldPart::CoreFuncKind => CORE_FUNC_KIND,
        FieldPart::Lift => LIFT,
        FieldPart::Options => OPTIONS,
    }
}
