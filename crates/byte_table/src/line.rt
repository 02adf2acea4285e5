//! The types of a line: families of rows, and the pieces of which the bytes of a row are made.

ghost use Rattle.std.specs.Prelude.{◌≡◌};
ghost use Rattle.byte_table.specs.Lines.{family_of, family_number};

use comp_model::Space;

/// The rows that may stand in one place: the bytes decide among them.
#[derive(Clone, Copy)]
pub enum Family {
    /// Custom sections.
    Customs,
    /// Core modules.
    CoreModules,
    /// Core instances.
    CoreInstances,
    /// Arguments of core instances.
    CoreArguments,
    /// Exports of core instances.
    CoreBundleExports,
    /// Core types.
    CoreTypes,
    /// Core function types in a recursive group.
    CoreFunctions,
    /// Core value types.
    CoreValues,
    /// What a core module imports or exports.
    Entities,
    /// Instances.
    Instances,
    /// Arguments of instances.
    Arguments,
    /// Exports of instances.
    BundleExports,
    /// Aliases.
    Aliases,
    /// Types.
    Types,
    /// Names with value types.
    NamedTypes,
    /// Cases of a variant.
    Cases,
    /// Value types.
    LoneTypes,
    /// Names.
    LoneNames,
    /// Canonical functions.
    Canons,
    /// Their options.
    Options,
    /// Start functions.
    Starts,
    /// Their arguments.
    StartArguments,
    /// Imports.
    Imports,
    /// Exports.
    Exports,
    /// What an import or export is.
    Descriptions,
    /// Declarations of a component type.
    ComponentDeclarations,
    /// Declarations of an instance type.
    InstanceDeclarations,
    /// Declarations of the type of a core module.
    ModuleDeclarations,
}

/// The kinds of types whose declarations stand in them.
#[derive(Clone, Copy)]
pub enum TypeKind {
    /// Component types.
    Component,
    /// Instance types.
    Instance,
    /// The types of core modules.
    Module,
}

/// A part that may be missing, where it is there.
#[derive(Clone, Copy)]
pub enum Part {
    /// A value type.
    Value,
    /// An index of a space.
    IndexIn(Space),
    /// A row.
    One(Family),
}

/// How one leaf is written.
#[derive(Clone, Copy)]
pub enum Field {
    /// A number in unsigned LEB128.
    Unsigned,
    /// An index of a space.
    IndexIn(Space),
    /// An index, whose space the bytes around it give.
    AnyIndex,
    /// How many scopes outward.
    Outward,
    /// How many results a start function has.
    Results,
    /// A sort.
    Sort,
    /// A sort of core items.
    CoreSort,
    /// A kind without bytes.
    KindIs(Space),
    /// A sort and an index.
    SortedIndex,
    /// The byte of a core sort and an index.
    CoreSortedIndex,
    /// A length and so many bytes.
    Str,
    /// The name of an import or export.
    ExternName,
    /// The byte of a primitive type.
    PrimitiveByte,
    /// A value type.
    Value,
    /// A part that may be missing.
    Optional(Part),
    /// The result of a function.
    Result(Part),
    /// The byte of a function type.
    AsyncByte,
    /// 00 or 01.
    Flag,
    /// A leaf that has no bytes.
    Unspelled,
    /// A row.
    One(Family),
    /// A count and so many rows.
    Each(Family),
    /// A core value type.
    CoreType,
    /// Whether the maximum of limits is there.
    Presence,
    /// The maximum of limits.
    Maximum,
    /// A count and the declarations of a type.
    TypeScope(TypeKind),
    /// A core module.
    WholeModule,
    /// Bytes to the end.
    Rest,
}

/// A part of a line.
#[derive(Clone, Copy)]
pub enum Piece {
    /// A byte.
    Byte(u8),
    /// The leaf at this place, and how it is written.
    Leaf(u8, Field),
    /// Limits: the number at this place, and the optional one behind it.
    Limits(u8),
    /// A reference outward: the leaves at this place and behind it.
    Outer(u8),
}

/// The line of a row: the family where it stands as it is, and its pieces in the order of the bytes.
#[derive(Clone, Copy)]
pub struct Line {
    /// The family.
    pub home: Family,
    /// The pieces.
    pub pieces: &'static [Piece],
}

/// A number for each family.
#[inline(always)]
pub fn number_of(family: Family) -> u8
    ensures { result ≡ family_number (family_of family) }
{
    match family {
        Family::Customs => 0,
        Family::CoreModules => 1,
        Family::CoreInstances => 2,
        Family::CoreArguments => 3,
        Family::CoreBundleExports => 4,
        Family::CoreTypes => 5,
        Family::CoreFunctions => 6,
        Family::CoreValues => 7,
        Family::Entities => 8,
        Family::Instances => 9,
        Family::Arguments => 10,
        Family::BundleExports => 11,
        Family::Aliases => 12,
        Family::Types => 13,
        Family::NamedTypes => 14,
        Family::Cases => 15,
        Family::LoneTypes => 16,
        Family::LoneNames => 17,
        Family::Canons => 18,
        Family::Options => 19,
        Family::Starts => 20,
        Family::StartArguments => 21,
        Family::Imports => 22,
        Family::Exports => 23,
        Family::Descriptions => 24,
        Family::ComponentDeclarations => 25,
        Family::InstanceDeclarations => 26,
        Family::ModuleDeclarations => 27,
    }
}
