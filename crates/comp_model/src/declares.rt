//! The table of what each row declares (Component Model, "Index Spaces").

ghost use Rattle.std.specs.Prelude.{◌≡◌};
ghost use Rattle.comp_model.specs.Spaces.{declares_by, described, maybe_one};

use crate::Space;
use crate::row::Row;

/// Where the spaces stand in which a row declares its items.
#[derive(Clone, Copy)]
pub enum Declares {
    /// With the row.
    Always(Space),
    /// In its kind.
    ByKind,
    /// In its description.
    ByDescription,
    /// In its reference.
    ByReference,
    /// In its list of core types.
    ByList,
    /// In its results.
    ByResults,
    /// Nowhere: it declares nothing.
    Nothing,
}

/// The table of what each row declares.
pub fn declares_by(row: Row) -> Declares
    ensures { result ≡ declares_by row }
{
    match row {
        Row::CoreModule => Declares::Always(Space::CoreModule),
        Row::CoreInstantiate | Row::CoreBundle => Declares::Always(Space::CoreInstance),
        Row::CoreFunctionType => Declares::Always(Space::CoreType),
        Row::CoreRec => Declares::ByList,
        Row::ModuleType => Declares::Always(Space::CoreType),
        Row::Component => Declares::Always(Space::Component),
        Row::Instantiate | Row::Bundle => Declares::Always(Space::Instance),
        Row::AliasExport | Row::AliasCoreExport | Row::AliasOuter => Declares::ByKind,
        Row::Start => Declares::ByResults,
        Row::Import => Declares::ByDescription,
        Row::Export => Declares::ByReference,
        Row::Primitive | Row::RecordType | Row::VariantType => Declares::Always(Space::Ty),
        Row::ListType | Row::FixedLengthListType | Row::TupleType => Declares::Always(Space::Ty),
        Row::FlagsType | Row::EnumType | Row::OptionType => Declares::Always(Space::Ty),
        Row::ResultType | Row::OwnType | Row::BorrowType => Declares::Always(Space::Ty),
        Row::StreamType | Row::FutureType | Row::FunctionType => Declares::Always(Space::Ty),
        Row::ComponentType | Row::InstanceType | Row::ResourceType => Declares::Always(Space::Ty),
        Row::MapType => Declares::Always(Space::Ty),
        Row::Lift => Declares::Always(Space::Func),
        Row::ExportType => Declares::ByDescription,
        Row::OtherCoreType => Declares::Always(Space::CoreType),
        Row::Custom | Row::Producers | Row::ModuleImport | Row::ModuleExport => Declares::Nothing,
        Row::CoreValueType | Row::NamedType | Row::CaseType | Row::LoneType => Declares::Nothing,
        Row::LoneName | Row::CoreArgument | Row::CoreBundleExport => Declares::Nothing,
        Row::Argument | Row::BundleExport | Row::StartArgument | Row::Producer => Declares::Nothing,
        Row::OptionUtf8 | Row::OptionUtf16 | Row::OptionLatin1Utf16 => Declares::Nothing,
        Row::OptionMemory | Row::OptionRealloc | Row::OptionPostReturn => Declares::Nothing,
        Row::OptionAsync | Row::OptionCallback | Row::ModuleDescription => Declares::Nothing,
        Row::FuncDescription | Row::TypeEq | Row::SubResource => Declares::Nothing,
        Row::ComponentDescription | Row::InstanceDescription | Row::FuncEntity => Declares::Nothing,
        Row::TableEntity | Row::MemoryEntity | Row::GlobalEntity => Declares::Nothing,
        Row::AttributedName | Row::ValueDescription | Row::OptionGc => Declares::Nothing,
        Row::OptionCoreType | Row::OtherEntity => Declares::Nothing,
        _ => Declares::Always(Space::CoreFunc),
    }
}

/// The space of the items that a description admits.
pub fn described_space(row: Row) -> Option<Space>
    ensures { maybe_one result ≡ described row }
{
    match row {
        Row::ModuleDescription => Some(Space::CoreModule),
        Row::FuncDescription => Some(Space::Func),
        Row::ValueDescription => Some(Space::Value),
        Row::TypeEq => Some(Space::Ty),
        Row::SubResource => Some(Space::Ty),
        Row::ComponentDescription => Some(Space::Component),
        Row::InstanceDescription => Some(Space::Instance),
        _ => None,
    }
}
