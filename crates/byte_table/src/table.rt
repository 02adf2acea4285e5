//! The table of bytes: a line for each row (Component Model, binary format), in the order of the sections.
//!
//! A component has none: its bytes are those of its sections.

ghost use Rattle.std.specs.Prelude.{◌≡◌, map};
ghost use Rattle.byte_table.specs.Lines.{family_of, piece_of, home, home_pieces};

use crate::line::{Family, Field, Line, Part, Piece, TypeKind};
use comp_model::{Row, Space};

/// The line of a row. Rows that are never written have none: nothing stands in it.
#[inline(always)]
pub fn line_of(row: Row) -> Line
    ensures home { family_of result.home ≡ home row }
    ensures pieces { map piece_of result.pieces.now ≡ home_pieces row }
{
    match row {
        Row::CoreInstantiate => Line {
            home: Family::CoreInstances,
            pieces: &[
                Piece::Byte(0x00),
                Piece::Leaf(0, Field::IndexIn(Space::CoreModule)),
                Piece::Leaf(1, Field::Each(Family::CoreArguments)),
            ],
        },
        Row::CoreBundle => Line {
            home: Family::CoreInstances,
            pieces: &[
                Piece::Byte(0x01),
                Piece::Leaf(0, Field::Each(Family::CoreBundleExports)),
            ],
        },
        Row::CoreFunctionType => Line {
            home: Family::CoreTypes,
            pieces: &[
                Piece::Byte(0x60),
                Piece::Leaf(0, Field::Each(Family::CoreValues)),
                Piece::Leaf(1, Field::Each(Family::CoreValues)),
            ],
        },
        Row::CoreRec => Line {
            home: Family::CoreTypes,
            pieces: &[
                Piece::Byte(0x4e),
                Piece::Leaf(0, Field::Each(Family::CoreFunctions)),
            ],
        },
        Row::ModuleType => Line {
            home: Family::CoreTypes,
            pieces: &[
                Piece::Byte(0x50),
                Piece::Leaf(0, Field::TypeScope(TypeKind::Module)),
            ],
        },
        Row::FuncEntity => Line {
            home: Family::Entities,
            pieces: &[
                Piece::Byte(0x00),
                Piece::Leaf(0, Field::IndexIn(Space::CoreType)),
            ],
        },
        Row::TableEntity => Line {
            home: Family::Entities,
            pieces: &[
                Piece::Byte(0x01),
                Piece::Leaf(0, Field::CoreType),
                Piece::Limits(1),
            ],
        },
        Row::MemoryEntity => Line {
            home: Family::Entities,
            pieces: &[Piece::Byte(0x02), Piece::Limits(0)],
        },
        Row::GlobalEntity => Line {
            home: Family::Entities,
            pieces: &[
                Piece::Byte(0x03),
                Piece::Leaf(0, Field::CoreType),
                Piece::Leaf(1, Field::Flag),
            ],
        },
        Row::Instantiate => Line {
            home: Family::Instances,
            pieces: &[
                Piece::Byte(0x00),
                Piece::Leaf(0, Field::IndexIn(Space::Component)),
                Piece::Leaf(1, Field::Each(Family::Arguments)),
            ],
        },
        Row::Bundle => Line {
            home: Family::Instances,
            pieces: &[
                Piece::Byte(0x01),
                Piece::Leaf(0, Field::Each(Family::BundleExports)),
            ],
        },
        Row::AliasExport => Line {
            home: Family::Aliases,
            pieces: &[
                Piece::Leaf(2, Field::Sort),
                Piece::Byte(0x00),
                Piece::Leaf(0, Field::IndexIn(Space::Instance)),
                Piece::Leaf(1, Field::Str),
            ],
        },
        Row::AliasCoreExport => Line {
            home: Family::Aliases,
            pieces: &[
                Piece::Leaf(2, Field::CoreSort),
                Piece::Byte(0x01),
                Piece::Leaf(0, Field::IndexIn(Space::CoreInstance)),
                Piece::Leaf(1, Field::Str),
            ],
        },
        Row::AliasOuter => Line {
            home: Family::Aliases,
            pieces: &[Piece::Outer(0)],
        },
        Row::Primitive => Line {
            home: Family::Types,
            pieces: &[Piece::Leaf(0, Field::PrimitiveByte)],
        },
        Row::RecordType => Line {
            home: Family::Types,
            pieces: &[
                Piece::Byte(0x72),
                Piece::Leaf(0, Field::Each(Family::NamedTypes)),
            ],
        },
        Row::VariantType => Line {
            home: Family::Types,
            pieces: &[
                Piece::Byte(0x71),
                Piece::Leaf(0, Field::Each(Family::Cases)),
            ],
        },
        Row::ListType => Line {
            home: Family::Types,
            pieces: &[Piece::Byte(0x70), Piece::Leaf(0, Field::Value)],
        },
        Row::FixedLengthListType => Line {
            home: Family::Types,
            pieces: &[
                Piece::Byte(0x67),
                Piece::Leaf(0, Field::Value),
                Piece::Leaf(1, Field::Unsigned),
            ],
        },
        Row::TupleType => Line {
            home: Family::Types,
            pieces: &[
                Piece::Byte(0x6f),
                Piece::Leaf(0, Field::Each(Family::LoneTypes)),
            ],
        },
        Row::FlagsType => Line {
            home: Family::Types,
            pieces: &[
                Piece::Byte(0x6e),
                Piece::Leaf(0, Field::Each(Family::LoneNames)),
            ],
        },
        Row::EnumType => Line {
            home: Family::Types,
            pieces: &[
                Piece::Byte(0x6d),
                Piece::Leaf(0, Field::Each(Family::LoneNames)),
            ],
        },
        Row::OptionType => Line {
            home: Family::Types,
            pieces: &[Piece::Byte(0x6b), Piece::Leaf(0, Field::Value)],
        },
        Row::ResultType => Line {
            home: Family::Types,
            pieces: &[
                Piece::Byte(0x6a),
                Piece::Leaf(0, Field::Optional(Part::Value)),
                Piece::Leaf(1, Field::Optional(Part::Value)),
            ],
        },
        Row::OwnType => Line {
            home: Family::Types,
            pieces: &[Piece::Byte(0x69), Piece::Leaf(0, Field::IndexIn(Space::Ty))],
        },
        Row::BorrowType => Line {
            home: Family::Types,
            pieces: &[Piece::Byte(0x68), Piece::Leaf(0, Field::IndexIn(Space::Ty))],
        },
        Row::StreamType => Line {
            home: Family::Types,
            pieces: &[
                Piece::Byte(0x66),
                Piece::Leaf(0, Field::Optional(Part::Value)),
            ],
        },
        Row::FutureType => Line {
            home: Family::Types,
            pieces: &[
                Piece::Byte(0x65),
                Piece::Leaf(0, Field::Optional(Part::Value)),
            ],
        },
        Row::FunctionType => Line {
            home: Family::Types,
            pieces: &[
                Piece::Leaf(0, Field::AsyncByte),
                Piece::Leaf(1, Field::Each(Family::NamedTypes)),
                Piece::Leaf(2, Field::Result(Part::Value)),
            ],
        },
        Row::ComponentType => Line {
            home: Family::Types,
            pieces: &[
                Piece::Byte(0x41),
                Piece::Leaf(0, Field::TypeScope(TypeKind::Component)),
            ],
        },
        Row::InstanceType => Line {
            home: Family::Types,
            pieces: &[
                Piece::Byte(0x42),
                Piece::Leaf(0, Field::TypeScope(TypeKind::Instance)),
            ],
        },
        Row::ResourceType => Line {
            home: Family::Types,
            pieces: &[
                Piece::Byte(0x3f),
                Piece::Leaf(0, Field::CoreType),
                Piece::Leaf(1, Field::Optional(Part::IndexIn(Space::CoreFunc))),
            ],
        },
        Row::Lift => Line {
            home: Family::Canons,
            pieces: &[
                Piece::Byte(0x00),
                Piece::Byte(0x00),
                Piece::Leaf(1, Field::IndexIn(Space::CoreFunc)),
                Piece::Leaf(2, Field::Each(Family::Options)),
                Piece::Leaf(0, Field::IndexIn(Space::Ty)),
            ],
        },
        Row::Lower => Line {
            home: Family::Canons,
            pieces: &[
                Piece::Byte(0x01),
                Piece::Byte(0x00),
                Piece::Leaf(0, Field::IndexIn(Space::Func)),
                Piece::Leaf(1, Field::Each(Family::Options)),
            ],
        },
        Row::ResourceNew => Line {
            home: Family::Canons,
            pieces: &[Piece::Byte(0x02), Piece::Leaf(0, Field::IndexIn(Space::Ty))],
        },
        Row::ResourceDrop => Line {
            home: Family::Canons,
            pieces: &[Piece::Byte(0x03), Piece::Leaf(0, Field::IndexIn(Space::Ty))],
        },
        Row::ResourceRep => Line {
            home: Family::Canons,
            pieces: &[Piece::Byte(0x04), Piece::Leaf(0, Field::IndexIn(Space::Ty))],
        },
        Row::TaskCancel => Line {
            home: Family::Canons,
            pieces: &[Piece::Byte(0x05)],
        },
        Row::SubtaskCancel => Line {
            home: Family::Canons,
            pieces: &[Piece::Byte(0x06), Piece::Leaf(0, Field::Flag)],
        },
        Row::TaskReturn => Line {
            home: Family::Canons,
            pieces: &[
                Piece::Byte(0x09),
                Piece::Leaf(0, Field::Result(Part::Value)),
                Piece::Leaf(1, Field::Each(Family::Options)),
            ],
        },
        Row::ContextGet => Line {
            home: Family::Canons,
            pieces: &[
                Piece::Byte(0x0a),
                Piece::Leaf(0, Field::CoreType),
                Piece::Leaf(1, Field::Unsigned),
            ],
        },
        Row::ContextSet => Line {
            home: Family::Canons,
            pieces: &[
                Piece::Byte(0x0b),
                Piece::Leaf(0, Field::CoreType),
                Piece::Leaf(1, Field::Unsigned),
            ],
        },
        Row::SubtaskDrop => Line {
            home: Family::Canons,
            pieces: &[Piece::Byte(0x0d)],
        },
        Row::StreamNew => Line {
            home: Family::Canons,
            pieces: &[Piece::Byte(0x0e), Piece::Leaf(0, Field::IndexIn(Space::Ty))],
        },
        Row::StreamRead => Line {
            home: Family::Canons,
            pieces: &[
                Piece::Byte(0x0f),
                Piece::Leaf(0, Field::IndexIn(Space::Ty)),
                Piece::Leaf(1, Field::Each(Family::Options)),
            ],
        },
        Row::StreamWrite => Line {
            home: Family::Canons,
            pieces: &[
                Piece::Byte(0x10),
                Piece::Leaf(0, Field::IndexIn(Space::Ty)),
                Piece::Leaf(1, Field::Each(Family::Options)),
            ],
        },
        Row::StreamCancelRead => Line {
            home: Family::Canons,
            pieces: &[
                Piece::Byte(0x11),
                Piece::Leaf(0, Field::IndexIn(Space::Ty)),
                Piece::Leaf(1, Field::Flag),
            ],
        },
        Row::StreamCancelWrite => Line {
            home: Family::Canons,
            pieces: &[
                Piece::Byte(0x12),
                Piece::Leaf(0, Field::IndexIn(Space::Ty)),
                Piece::Leaf(1, Field::Flag),
            ],
        },
        Row::StreamDropReadable => Line {
            home: Family::Canons,
            pieces: &[Piece::Byte(0x13), Piece::Leaf(0, Field::IndexIn(Space::Ty))],
        },
        Row::StreamDropWritable => Line {
            home: Family::Canons,
            pieces: &[Piece::Byte(0x14), Piece::Leaf(0, Field::IndexIn(Space::Ty))],
        },
        Row::FutureNew => Line {
            home: Family::Canons,
            pieces: &[Piece::Byte(0x15), Piece::Leaf(0, Field::IndexIn(Space::Ty))],
        },
        Row::FutureRead => Line {
            home: Family::Canons,
            pieces: &[
                Piece::Byte(0x16),
                Piece::Leaf(0, Field::IndexIn(Space::Ty)),
                Piece::Leaf(1, Field::Each(Family::Options)),
            ],
        },
        Row::FutureWrite => Line {
            home: Family::Canons,
            pieces: &[
                Piece::Byte(0x17),
                Piece::Leaf(0, Field::IndexIn(Space::Ty)),
                Piece::Leaf(1, Field::Each(Family::Options)),
            ],
        },
        Row::FutureCancelRead => Line {
            home: Family::Canons,
            pieces: &[
                Piece::Byte(0x18),
                Piece::Leaf(0, Field::IndexIn(Space::Ty)),
                Piece::Leaf(1, Field::Flag),
            ],
        },
        Row::FutureCancelWrite => Line {
            home: Family::Canons,
            pieces: &[
                Piece::Byte(0x19),
                Piece::Leaf(0, Field::IndexIn(Space::Ty)),
                Piece::Leaf(1, Field::Flag),
            ],
        },
        Row::FutureDropReadable => Line {
            home: Family::Canons,
            pieces: &[Piece::Byte(0x1a), Piece::Leaf(0, Field::IndexIn(Space::Ty))],
        },
        Row::FutureDropWritable => Line {
            home: Family::Canons,
            pieces: &[Piece::Byte(0x1b), Piece::Leaf(0, Field::IndexIn(Space::Ty))],
        },
        Row::ErrorContextNew => Line {
            home: Family::Canons,
            pieces: &[
                Piece::Byte(0x1c),
                Piece::Leaf(0, Field::Each(Family::Options)),
            ],
        },
        Row::ErrorContextDebugMessage => Line {
            home: Family::Canons,
            pieces: &[
                Piece::Byte(0x1d),
                Piece::Leaf(0, Field::Each(Family::Options)),
            ],
        },
        Row::ErrorContextDrop => Line {
            home: Family::Canons,
            pieces: &[Piece::Byte(0x1e)],
        },
        Row::WaitableSetNew => Line {
            home: Family::Canons,
            pieces: &[Piece::Byte(0x1f)],
        },
        Row::WaitableSetDrop => Line {
            home: Family::Canons,
            pieces: &[Piece::Byte(0x22)],
        },
        Row::WaitableJoin => Line {
            home: Family::Canons,
            pieces: &[Piece::Byte(0x23)],
        },
        Row::BackpressureInc => Line {
            home: Family::Canons,
            pieces: &[Piece::Byte(0x24)],
        },
        Row::BackpressureDec => Line {
            home: Family::Canons,
            pieces: &[Piece::Byte(0x25)],
        },
        Row::ThreadSpawnRef => Line {
            home: Family::Canons,
            pieces: &[
                Piece::Byte(0x40),
                Piece::Leaf(0, Field::IndexIn(Space::CoreType)),
            ],
        },
        Row::ThreadSpawnIndirect => Line {
            home: Family::Canons,
            pieces: &[
                Piece::Byte(0x41),
                Piece::Leaf(0, Field::IndexIn(Space::CoreType)),
                Piece::Leaf(1, Field::IndexIn(Space::CoreTable)),
            ],
        },
        Row::ThreadAvailableParallelism => Line {
            home: Family::Canons,
            pieces: &[Piece::Byte(0x42)],
        },
        Row::OptionUtf8 => Line {
            home: Family::Options,
            pieces: &[Piece::Byte(0x00)],
        },
        Row::OptionUtf16 => Line {
            home: Family::Options,
            pieces: &[Piece::Byte(0x01)],
        },
        Row::OptionLatin1Utf16 => Line {
            home: Family::Options,
            pieces: &[Piece::Byte(0x02)],
        },
        Row::OptionMemory => Line {
            home: Family::Options,
            pieces: &[
                Piece::Byte(0x03),
                Piece::Leaf(0, Field::IndexIn(Space::CoreMemory)),
            ],
        },
        Row::OptionRealloc => Line {
            home: Family::Options,
            pieces: &[
                Piece::Byte(0x04),
                Piece::Leaf(0, Field::IndexIn(Space::CoreFunc)),
            ],
        },
        Row::OptionPostReturn => Line {
            home: Family::Options,
            pieces: &[
                Piece::Byte(0x05),
                Piece::Leaf(0, Field::IndexIn(Space::CoreFunc)),
            ],
        },
        Row::OptionAsync => Line {
            home: Family::Options,
            pieces: &[Piece::Byte(0x06)],
        },
        Row::OptionCallback => Line {
            home: Family::Options,
            pieces: &[
                Piece::Byte(0x07),
                Piece::Leaf(0, Field::IndexIn(Space::CoreFunc)),
            ],
        },
        Row::ModuleDescription => Line {
            home: Family::Descriptions,
            pieces: &[
                Piece::Byte(0x00),
                Piece::Byte(0x11),
                Piece::Leaf(0, Field::IndexIn(Space::CoreType)),
            ],
        },
        Row::FuncDescription => Line {
            home: Family::Descriptions,
            pieces: &[Piece::Byte(0x01), Piece::Leaf(0, Field::IndexIn(Space::Ty))],
        },
        Row::TypeEq => Line {
            home: Family::Descriptions,
            pieces: &[
                Piece::Byte(0x03),
                Piece::Byte(0x00),
                Piece::Leaf(0, Field::IndexIn(Space::Ty)),
            ],
        },
        Row::SubResource => Line {
            home: Family::Descriptions,
            pieces: &[Piece::Byte(0x03), Piece::Byte(0x01)],
        },
        Row::ComponentDescription => Line {
            home: Family::Descriptions,
            pieces: &[Piece::Byte(0x04), Piece::Leaf(0, Field::IndexIn(Space::Ty))],
        },
        Row::InstanceDescription => Line {
            home: Family::Descriptions,
            pieces: &[Piece::Byte(0x05), Piece::Leaf(0, Field::IndexIn(Space::Ty))],
        },
        Row::ExportType => Line {
            home: Family::InstanceDeclarations,
            pieces: &[
                Piece::Byte(0x04),
                Piece::Leaf(0, Field::ExternName),
                Piece::Leaf(1, Field::One(Family::Descriptions)),
            ],
        },
        Row::ModuleImport => Line {
            home: Family::ModuleDeclarations,
            pieces: &[
                Piece::Byte(0x00),
                Piece::Leaf(0, Field::Str),
                Piece::Leaf(1, Field::Str),
                Piece::Leaf(2, Field::One(Family::Entities)),
            ],
        },
        Row::ModuleExport => Line {
            home: Family::ModuleDeclarations,
            pieces: &[
                Piece::Byte(0x03),
                Piece::Leaf(0, Field::Str),
                Piece::Leaf(1, Field::One(Family::Entities)),
            ],
        },
        Row::Custom => Line {
            home: Family::Customs,
            pieces: &[Piece::Leaf(0, Field::Str), Piece::Leaf(1, Field::Rest)],
        },
        Row::CoreModule => Line {
            home: Family::CoreModules,
            pieces: &[Piece::Leaf(0, Field::WholeModule)],
        },
        Row::CoreArgument => Line {
            home: Family::CoreArguments,
            pieces: &[
                Piece::Leaf(0, Field::Str),
                Piece::Byte(0x12),
                Piece::Leaf(1, Field::IndexIn(Space::CoreInstance)),
            ],
        },
        Row::CoreBundleExport => Line {
            home: Family::CoreBundleExports,
            pieces: &[
                Piece::Leaf(0, Field::Str),
                Piece::Leaf(1, Field::CoreSortedIndex),
            ],
        },
        Row::CoreValueType => Line {
            home: Family::CoreValues,
            pieces: &[Piece::Leaf(0, Field::CoreType)],
        },
        Row::Argument => Line {
            home: Family::Arguments,
            pieces: &[
                Piece::Leaf(0, Field::Str),
                Piece::Leaf(1, Field::SortedIndex),
            ],
        },
        Row::BundleExport => Line {
            home: Family::BundleExports,
            pieces: &[
                Piece::Leaf(0, Field::ExternName),
                Piece::Leaf(1, Field::SortedIndex),
            ],
        },
        Row::NamedType => Line {
            home: Family::NamedTypes,
            pieces: &[Piece::Leaf(0, Field::Str), Piece::Leaf(1, Field::Value)],
        },
        Row::CaseType => Line {
            home: Family::Cases,
            pieces: &[
                Piece::Leaf(0, Field::Unspelled),
                Piece::Leaf(1, Field::Str),
                Piece::Leaf(2, Field::Optional(Part::Value)),
                Piece::Byte(0x00),
            ],
        },
        Row::LoneType => Line {
            home: Family::LoneTypes,
            pieces: &[Piece::Leaf(0, Field::Value)],
        },
        Row::LoneName => Line {
            home: Family::LoneNames,
            pieces: &[Piece::Leaf(0, Field::Str)],
        },
        Row::Start => Line {
            home: Family::Starts,
            pieces: &[
                Piece::Leaf(0, Field::IndexIn(Space::Func)),
                Piece::Leaf(1, Field::Each(Family::StartArguments)),
                Piece::Leaf(2, Field::Results),
            ],
        },
        Row::StartArgument => Line {
            home: Family::StartArguments,
            pieces: &[Piece::Leaf(0, Field::IndexIn(Space::Value))],
        },
        Row::Import => Line {
            home: Family::Imports,
            pieces: &[
                Piece::Leaf(0, Field::ExternName),
                Piece::Leaf(1, Field::One(Family::Descriptions)),
            ],
        },
        Row::Export => Line {
            home: Family::Exports,
            pieces: &[
                Piece::Leaf(0, Field::ExternName),
                Piece::Leaf(2, Field::SortedIndex),
                Piece::Leaf(1, Field::Optional(Part::One(Family::Descriptions))),
            ],
        },
        _ => Line {
            home: Family::Options,
            pieces: &[],
        },
    }
}
