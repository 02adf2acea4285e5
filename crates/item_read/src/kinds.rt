//! What kind of definition a row is.

ghost use Rattle.std.specs.Prelude.{◌≡◌};
ghost use Rattle.item_read.specs.Scopes.{kind_of_canon, kind_of_row};

use comp_model::Row;

/// What kind of definition a row is.
pub enum Kind {
    /// A core type.
    CoreType,
    /// An alias.
    Alias,
    /// A type without a list.
    Ty,
    /// A type with a list.
    ListedType,
    /// A canonical function that is named alone.
    BuiltIn,
    /// A canonical function of a type.
    OfType,
    /// Another canonical function without options.
    Canon,
    /// A canonical function with options.
    WithOptions,
    /// Another definition of a component without a list.
    Plain,
    /// Another that is a declaration of a type alone.
    Declared,
    /// Another definition with a list.
    Listed,
    /// One that holds a scope.
    Scope,
}

/// The kind of a canonical function's row.
fn kind_of_canon(row: Row) -> Kind
    ensures { result ≡ kind_of_canon row }
{
    match row {
        Row::TaskCancel => Kind::BuiltIn,
        Row::SubtaskDrop => Kind::BuiltIn,
        Row::ErrorContextDrop => Kind::BuiltIn,
        Row::WaitableSetNew => Kind::BuiltIn,
        Row::WaitableSetDrop => Kind::BuiltIn,
        Row::WaitableJoin => Kind::BuiltIn,
        Row::BackpressureInc => Kind::BuiltIn,
        Row::BackpressureDec => Kind::BuiltIn,
        Row::ThreadAvailableParallelism => Kind::BuiltIn,
        Row::ResourceNew => Kind::OfType,
        Row::ResourceDrop => Kind::OfType,
        Row::ResourceRep => Kind::OfType,
        Row::StreamNew => Kind::OfType,
        Row::StreamDropReadable => Kind::OfType,
        Row::StreamDropWritable => Kind::OfType,
        Row::FutureNew => Kind::OfType,
        Row::FutureDropReadable => Kind::OfType,
        Row::FutureDropWritable => Kind::OfType,
        Row::Lift => Kind::WithOptions,
        Row::Lower => Kind::WithOptions,
        Row::TaskReturn => Kind::WithOptions,
        Row::StreamRead => Kind::WithOptions,
        Row::StreamWrite => Kind::WithOptions,
        Row::FutureRead => Kind::WithOptions,
        Row::FutureWrite => Kind::WithOptions,
        Row::ErrorContextNew => Kind::WithOptions,
        Row::ErrorContextDebugMessage => Kind::WithOptions,
        _ => Kind::Canon,
    }
}

/// The kind of a definition's row.
pub fn kind_of(row: Row) -> Kind
    ensures { result ≡ kind_of_row row }
{
    match row {
        Row::CoreFunctionType => Kind::CoreType,
        Row::CoreRec => Kind::CoreType,
        Row::AliasExport => Kind::Alias,
        Row::AliasCoreExport => Kind::Alias,
        Row::AliasOuter => Kind::Alias,
        Row::Primitive => Kind::Ty,
        Row::ListType => Kind::Ty,
        Row::FixedLengthListType => Kind::Ty,
        Row::OptionType => Kind::Ty,
        Row::ResultType => Kind::Ty,
        Row::OwnType => Kind::Ty,
        Row::BorrowType => Kind::Ty,
        Row::StreamType => Kind::Ty,
        Row::FutureType => Kind::Ty,
        Row::ResourceType => Kind::Ty,
        Row::RecordType => Kind::ListedType,
        Row::VariantType => Kind::ListedType,
        Row::TupleType => Kind::ListedType,
        Row::FlagsType => Kind::ListedType,
        Row::EnumType => Kind::ListedType,
        Row::FunctionType => Kind::ListedType,
        Row::CoreModule => Kind::Plain,
        Row::Import => Kind::Plain,
        Row::Export => Kind::Plain,
        Row::Custom => Kind::Plain,
        Row::ExportType => Kind::Declared,
        Row::ModuleImport => Kind::Declared,
        Row::ModuleExport => Kind::Declared,
        Row::CoreInstantiate => Kind::Listed,
        Row::CoreBundle => Kind::Listed,
        Row::Instantiate => Kind::Listed,
        Row::Bundle => Kind::Listed,
        Row::Start => Kind::Listed,
        Row::Component => Kind::Scope,
        Row::ComponentType => Kind::Scope,
        Row::InstanceType => Kind::Scope,
        Row::ModuleType => Kind::Scope,
        _ => kind_of_canon(row),
    }
}
