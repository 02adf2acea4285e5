//! Types of components, instances and core modules, descriptions and declarations as each is read alone (Component Model, "Type Definitions" and
//! "Import and Export Definitions").

ghost use Rattle.std.specs.Prelude.{◌≡◌};
ghost use Rattle.text_table.specs.Code.{rule_of};
ghost use Rattle.text_parts.specs.ReadAlone.{type_part};

use text_table::core_types::{
    CORE_OR_MODULE_TYPE, MODULE_DECLARATION, MODULE_DECLARATIONS, MODULE_TYPE,
};
use text_table::rule::Rule;
use text_table::types::{
    BOUND, COMPONENT_DECLARATION, COMPONENT_DECLARATIONS, COMPONENT_TYPE, COMPONENT_USE,
    DESCRIPTION, FUNC_USE, INSTANCE_DECLARATION, INSTANCE_DECLARATIONS, INSTANCE_TYPE,
    INSTANCE_USE, MODULE_USE, NAMELESS_DESCRIPTION, RESOURCE_PARTS, VALUE_USE,
};

/// What is read alone of types and of what is described.
#[derive(Clone, Copy)]
pub enum TypePart {
    /// What stands behind the word `resource`.
    Resource,
    /// `use(fty)`, the type of a function or a reference to it.
    FuncUse,
    /// `use(cty)`.
    ComponentUse,
    /// `use(ity)`.
    InstanceUse,
    /// `cuse(mty)`.
    ModuleUse,
    /// `valuse`, the type of a value.
    ValueUse,
    /// `bound`, in its parentheses.
    Bound,
    /// `sig`, in its parentheses.
    Description,
    /// `signn`, in its parentheses.
    NamelessDescription,
    /// `mty`, from behind the word `module`.
    ModuleType,
    /// `cty`, from behind the word `component`.
    ComponentType,
    /// `ity`, from behind the word `instance`.
    InstanceType,
    /// What a core type is defined to be, in its parentheses.
    CoreOrModuleType,
    /// `mdecl`, in its parentheses.
    ModuleDeclaration,
    /// `tdecl` or an import, in its parentheses.
    ComponentDeclaration,
    /// `tdecl`, in its parentheses.
    InstanceDeclaration,
    /// `mdecl*`.
    ModuleDeclarations,
    /// `( tdecl | import )*`.
    ComponentDeclarations,
    /// `tdecl*`.
    InstanceDeclarations,
}

/// The rule of a part.
pub fn type_rule(part: TypePart) -> &'static Rule<'static>
    ensures { rule_of result.now ≡ type_part part }
{
    match part {
        TypePart::Resource => RESOURCE_PARTS,
        TypePart::FuncUse => FUNC_USE,
        TypePart::ComponentUse => COMPONENT_USE,
        TypePart::InstanceUse => INSTANCE_USE,
        TypePart::ModuleUse => MODULE_USE,
        TypePart::ValueUse => VALUE_USE,
        TypePart::Bound => BOUND,
        TypePart::Description => DESCRIPTION,
        TypePart::NamelessDescription => NAMELESS_DESCRIPTION,
        TypePart::ModuleType => MODULE_TYPE,
        TypePart::ComponentType => COMPONENT_TYPE,
        TypePart::InstanceType => INSTANCE_TYPE,
        TypePart::CoreOrModuleType => CORE_OR_MODULE_TYPE,
        TypePart::ModuleDeclaration => MODULE_DECLARATION,
        TypePart::ComponentDeclaration => COMPONENT_DECLARATION,
        TypePart::InstanceDeclaration => INSTANCE_DECLARATION,
        TypePart::ModuleDeclarations => MODULE_DECLARATIONS,
        TypePart::ComponentDeclarations => COMPONENT_DECLARATIONS,
        TypePart::InstanceDeclarations => INSTANCE_DECLARATIONS,
    }
}
