//! The lines of definitions (Component Model, text format), in the order of the sections.

ghost use Rattle.std.specs.Prelude.{◌≡◌};
ghost use Rattle.print_table.specs.Lines.{definition_line, module_definition_line, definition_in};
ghost use Rattle.tree_print.specs.Lines.{line_pieces};

use crate::line::{Field, Frame, Line, Part, Piece};
use crate::word::Word;
use comp_model::{Row, ScopeKind};

/// The line of a definition of a component, or of the type of a component or an instance; none of a row that is printed nowhere there.
pub fn definition_line(row: Row) -> Line
    ensures { line_pieces result ≡ definition_line row }
{
    match row {
        Row::CoreInstantiate => Line {
            frame: Frame::Group(Word::Core),
            pieces: &[
                Piece::Word(Word::Instance),
                Piece::Open,
                Piece::Word(Word::Instantiate),
                Piece::Leaf(0, Field::Number),
                Piece::Leaf(1, Field::EachIn(Word::With)),
                Piece::Close,
            ],
        },
        Row::CoreBundle => Line {
            frame: Frame::Group(Word::Core),
            pieces: &[
                Piece::Word(Word::Instance),
                Piece::Leaf(0, Field::EachIn(Word::Export)),
            ],
        },
        Row::CoreFunctionType => Line {
            frame: Frame::Group(Word::Core),
            pieces: &[
                Piece::Word(Word::Ty),
                Piece::Open,
                Piece::Word(Word::Func),
                Piece::Leaf(0, Field::EachIn(Word::Param)),
                Piece::Leaf(1, Field::EachIn(Word::Result)),
                Piece::Close,
            ],
        },
        Row::CoreRec => Line {
            frame: Frame::Group(Word::Core),
            pieces: &[
                Piece::Word(Word::Rec),
                Piece::Leaf(0, Field::EachIn(Word::Ty)),
            ],
        },
        Row::ModuleType => Line {
            frame: Frame::Group(Word::Core),
            pieces: &[
                Piece::Word(Word::Ty),
                Piece::Open,
                Piece::Word(Word::Module),
                Piece::Leaf(0, Field::Definitions),
                Piece::Close,
            ],
        },
        Row::Component => Line {
            frame: Frame::Group(Word::Component),
            pieces: &[Piece::Leaf(0, Field::Definitions)],
        },
        Row::Instantiate => Line {
            frame: Frame::Group(Word::Instance),
            pieces: &[
                Piece::Open,
                Piece::Word(Word::Instantiate),
                Piece::Leaf(0, Field::Number),
                Piece::Leaf(1, Field::EachIn(Word::With)),
                Piece::Close,
            ],
        },
        Row::Bundle => Line {
            frame: Frame::Group(Word::Instance),
            pieces: &[Piece::Leaf(0, Field::EachIn(Word::Export))],
        },
        Row::AliasExport => Line {
            frame: Frame::Group(Word::Alias),
            pieces: &[
                Piece::Word(Word::Export),
                Piece::Leaf(0, Field::Number),
                Piece::Leaf(1, Field::Text),
                Piece::Open,
                Piece::Leaf(2, Field::Kind),
                Piece::Close,
            ],
        },
        Row::AliasCoreExport => Line {
            frame: Frame::Group(Word::Alias),
            pieces: &[
                Piece::Word(Word::Core),
                Piece::Word(Word::Export),
                Piece::Leaf(0, Field::Number),
                Piece::Leaf(1, Field::Text),
                Piece::Open,
                Piece::Word(Word::Core),
                Piece::Leaf(2, Field::CoreKind),
                Piece::Close,
            ],
        },
        Row::AliasOuter => Line {
            frame: Frame::Group(Word::Alias),
            pieces: &[
                Piece::Word(Word::Outer),
                Piece::Leaf(0, Field::Number),
                Piece::Leaf(1, Field::Number),
                Piece::Open,
                Piece::Leaf(2, Field::OuterKind),
                Piece::Close,
            ],
        },
        Row::Lift => Line {
            frame: Frame::Group(Word::Canon),
            pieces: &[
                Piece::Word(Word::Lift),
                Piece::Open,
                Piece::Word(Word::Core),
                Piece::Word(Word::Func),
                Piece::Leaf(1, Field::Number),
                Piece::Close,
                Piece::Leaf(2, Field::Each),
                Piece::Open,
                Piece::Word(Word::Func),
                Piece::Open,
                Piece::Word(Word::Ty),
                Piece::Leaf(0, Field::Number),
                Piece::Close,
                Piece::Close,
            ],
        },
        Row::Start => Line {
            frame: Frame::Group(Word::Start),
            pieces: &[
                Piece::Leaf(0, Field::Number),
                Piece::Leaf(1, Field::EachIn(Word::Value)),
                Piece::Leaf(2, Field::Results),
            ],
        },
        Row::Import => Line {
            frame: Frame::Group(Word::Import),
            pieces: &[Piece::Leaf(0, Field::Text), Piece::Leaf(1, Field::One)],
        },
        Row::Export => Line {
            frame: Frame::Group(Word::Export),
            pieces: &[
                Piece::Leaf(0, Field::Text),
                Piece::Open,
                Piece::Leaf(2, Field::Item),
                Piece::Close,
                Piece::Leaf(1, Field::Optional(Part::One)),
            ],
        },
        Row::ExportType => Line {
            frame: Frame::Group(Word::Export),
            pieces: &[Piece::Leaf(0, Field::Text), Piece::Leaf(1, Field::One)],
        },
        Row::Custom => Line {
            frame: Frame::Custom,
            pieces: &[Piece::Leaf(0, Field::Text), Piece::Leaf(1, Field::Payload)],
        },
        Row::Primitive => Line {
            frame: Frame::Group(Word::Ty),
            pieces: &[Piece::Leaf(0, Field::Primitive)],
        },
        Row::RecordType => Line {
            frame: Frame::TypeOf(Word::Record),
            pieces: &[Piece::Leaf(0, Field::EachIn(Word::Field))],
        },
        Row::VariantType => Line {
            frame: Frame::TypeOf(Word::Variant),
            pieces: &[Piece::Leaf(0, Field::EachIn(Word::Case))],
        },
        Row::ListType => Line {
            frame: Frame::TypeOf(Word::List),
            pieces: &[Piece::Leaf(0, Field::Value)],
        },
        Row::FixedLengthListType => Line {
            frame: Frame::TypeOf(Word::List),
            pieces: &[Piece::Leaf(0, Field::Value), Piece::Leaf(1, Field::Number)],
        },
        Row::TupleType => Line {
            frame: Frame::TypeOf(Word::Tuple),
            pieces: &[Piece::Leaf(0, Field::Each)],
        },
        Row::FlagsType => Line {
            frame: Frame::TypeOf(Word::Flags),
            pieces: &[Piece::Leaf(0, Field::Each)],
        },
        Row::EnumType => Line {
            frame: Frame::TypeOf(Word::Enum),
            pieces: &[Piece::Leaf(0, Field::Each)],
        },
        Row::OptionType => Line {
            frame: Frame::TypeOf(Word::Option),
            pieces: &[Piece::Leaf(0, Field::Value)],
        },
        Row::ResultType => Line {
            frame: Frame::TypeOf(Word::Result),
            pieces: &[
                Piece::Leaf(0, Field::Optional(Part::Value)),
                Piece::Leaf(1, Field::OptionalIn(Word::Error, Part::Value)),
            ],
        },
        Row::OwnType => Line {
            frame: Frame::TypeOf(Word::Own),
            pieces: &[Piece::Leaf(0, Field::Number)],
        },
        Row::BorrowType => Line {
            frame: Frame::TypeOf(Word::Borrow),
            pieces: &[Piece::Leaf(0, Field::Number)],
        },
        Row::StreamType => Line {
            frame: Frame::TypeOf(Word::Stream),
            pieces: &[Piece::Leaf(0, Field::Optional(Part::Value))],
        },
        Row::FutureType => Line {
            frame: Frame::TypeOf(Word::Future),
            pieces: &[Piece::Leaf(0, Field::Optional(Part::Value))],
        },
        Row::FunctionType => Line {
            frame: Frame::TypeOf(Word::Func),
            pieces: &[
                Piece::Leaf(0, Field::Flag(Word::Async)),
                Piece::Leaf(1, Field::EachIn(Word::Param)),
                Piece::Leaf(2, Field::OptionalIn(Word::Result, Part::Value)),
            ],
        },
        Row::ComponentType => Line {
            frame: Frame::TypeOf(Word::Component),
            pieces: &[Piece::Leaf(0, Field::Definitions)],
        },
        Row::InstanceType => Line {
            frame: Frame::TypeOf(Word::Instance),
            pieces: &[Piece::Leaf(0, Field::Definitions)],
        },
        Row::ResourceType => Line {
            frame: Frame::TypeOf(Word::Resource),
            pieces: &[
                Piece::Open,
                Piece::Word(Word::Rep),
                Piece::Leaf(0, Field::CoreValue),
                Piece::Close,
                Piece::Leaf(1, Field::OptionalIn(Word::Dtor, Part::Number)),
            ],
        },
        Row::Lower => Line {
            frame: Frame::BuiltIn(Word::Lower),
            pieces: &[
                Piece::Open,
                Piece::Word(Word::Func),
                Piece::Leaf(0, Field::Number),
                Piece::Close,
                Piece::Leaf(1, Field::Each),
            ],
        },
        Row::ResourceNew => Line {
            frame: Frame::BuiltIn(Word::ResourceNew),
            pieces: &[Piece::Leaf(0, Field::Number)],
        },
        Row::ResourceDrop => Line {
            frame: Frame::BuiltIn(Word::ResourceDrop),
            pieces: &[Piece::Leaf(0, Field::Number)],
        },
        Row::ResourceRep => Line {
            frame: Frame::BuiltIn(Word::ResourceRep),
            pieces: &[Piece::Leaf(0, Field::Number)],
        },
        Row::TaskCancel => Line {
            frame: Frame::BuiltIn(Word::TaskCancel),
            pieces: &[],
        },
        Row::SubtaskCancel => Line {
            frame: Frame::BuiltIn(Word::SubtaskCancel),
            pieces: &[Piece::Leaf(0, Field::Flag(Word::Async))],
        },
        Row::SubtaskDrop => Line {
            frame: Frame::BuiltIn(Word::SubtaskDrop),
            pieces: &[],
        },
        Row::TaskReturn => Line {
            frame: Frame::BuiltIn(Word::TaskReturn),
            pieces: &[
                Piece::Leaf(0, Field::OptionalIn(Word::Result, Part::Value)),
                Piece::Leaf(1, Field::Each),
            ],
        },
        Row::ContextGet => Line {
            frame: Frame::BuiltIn(Word::ContextGet),
            pieces: &[
                Piece::Leaf(0, Field::CoreValue),
                Piece::Leaf(1, Field::Number),
            ],
        },
        Row::ContextSet => Line {
            frame: Frame::BuiltIn(Word::ContextSet),
            pieces: &[
                Piece::Leaf(0, Field::CoreValue),
                Piece::Leaf(1, Field::Number),
            ],
        },
        Row::StreamNew => Line {
            frame: Frame::BuiltIn(Word::StreamNew),
            pieces: &[Piece::Leaf(0, Field::Number)],
        },
        Row::StreamRead => Line {
            frame: Frame::BuiltIn(Word::StreamRead),
            pieces: &[Piece::Leaf(0, Field::Number), Piece::Leaf(1, Field::Each)],
        },
        Row::StreamWrite => Line {
            frame: Frame::BuiltIn(Word::StreamWrite),
            pieces: &[Piece::Leaf(0, Field::Number), Piece::Leaf(1, Field::Each)],
        },
        Row::StreamCancelRead => Line {
            frame: Frame::BuiltIn(Word::StreamCancelRead),
            pieces: &[
                Piece::Leaf(0, Field::Number),
                Piece::Leaf(1, Field::Flag(Word::Async)),
            ],
        },
        Row::StreamCancelWrite => Line {
            frame: Frame::BuiltIn(Word::StreamCancelWrite),
            pieces: &[
                Piece::Leaf(0, Field::Number),
                Piece::Leaf(1, Field::Flag(Word::Async)),
            ],
        },
        Row::StreamDropReadable => Line {
            frame: Frame::BuiltIn(Word::StreamDropReadable),
            pieces: &[Piece::Leaf(0, Field::Number)],
        },
        Row::StreamDropWritable => Line {
            frame: Frame::BuiltIn(Word::StreamDropWritable),
            pieces: &[Piece::Leaf(0, Field::Number)],
        },
        Row::FutureNew => Line {
            frame: Frame::BuiltIn(Word::FutureNew),
            pieces: &[Piece::Leaf(0, Field::Number)],
        },
        Row::FutureRead => Line {
            frame: Frame::BuiltIn(Word::FutureRead),
            pieces: &[Piece::Leaf(0, Field::Number), Piece::Leaf(1, Field::Each)],
        },
        Row::FutureWrite => Line {
            frame: Frame::BuiltIn(Word::FutureWrite),
            pieces: &[Piece::Leaf(0, Field::Number), Piece::Leaf(1, Field::Each)],
        },
        Row::FutureCancelRead => Line {
            frame: Frame::BuiltIn(Word::FutureCancelRead),
            pieces: &[
                Piece::Leaf(0, Field::Number),
                Piece::Leaf(1, Field::Flag(Word::Async)),
            ],
        },
        Row::FutureCancelWrite => Line {
            frame: Frame::BuiltIn(Word::FutureCancelWrite),
            pieces: &[
                Piece::Leaf(0, Field::Number),
                Piece::Leaf(1, Field::Flag(Word::Async)),
            ],
        },
        Row::FutureDropReadable => Line {
            frame: Frame::BuiltIn(Word::FutureDropReadable),
            pieces: &[Piece::Leaf(0, Field::Number)],
        },
        Row::FutureDropWritable => Line {
            frame: Frame::BuiltIn(Word::FutureDropWritable),
            pieces: &[Piece::Leaf(0, Field::Number)],
        },
        Row::ErrorContextNew => Line {
            frame: Frame::BuiltIn(Word::ErrorContextNew),
            pieces: &[Piece::Leaf(0, Field::Each)],
        },
        Row::ErrorContextDebugMessage => Line {
            frame: Frame::BuiltIn(Word::ErrorContextDebugMessage),
            pieces: &[Piece::Leaf(0, Field::Each)],
        },
        Row::ErrorContextDrop => Line {
            frame: Frame::BuiltIn(Word::ErrorContextDrop),
            pieces: &[],
        },
        Row::WaitableSetNew => Line {
            frame: Frame::BuiltIn(Word::WaitableSetNew),
            pieces: &[],
        },
        Row::WaitableSetDrop => Line {
            frame: Frame::BuiltIn(Word::WaitableSetDrop),
            pieces: &[],
        },
        Row::WaitableJoin => Line {
            frame: Frame::BuiltIn(Word::WaitableJoin),
            pieces: &[],
        },
        Row::BackpressureInc => Line {
            frame: Frame::BuiltIn(Word::BackpressureInc),
            pieces: &[],
        },
        Row::BackpressureDec => Line {
            frame: Frame::BuiltIn(Word::BackpressureDec),
            pieces: &[],
        },
        Row::ThreadSpawnRef => Line {
            frame: Frame::BuiltIn(Word::ThreadSpawnRef),
            pieces: &[Piece::Leaf(0, Field::Number)],
        },
        Row::ThreadSpawnIndirect => Line {
            frame: Frame::BuiltIn(Word::ThreadSpawnIndirect),
            pieces: &[Piece::Leaf(0, Field::Number), Piece::Leaf(1, Field::Number)],
        },
        Row::ThreadAvailableParallelism => Line {
            frame: Frame::BuiltIn(Word::ThreadAvailableParallelism),
            pieces: &[],
        },
        Row::CoreModule
        | Row::Producers
        | Row::ModuleImport
        | Row::ModuleExport
        | Row::CoreValueType
        | Row::NamedType
        | Row::CaseType
        | Row::LoneType
        | Row::LoneName
        | Row::CoreArgument
        | Row::CoreBundleExport
        | Row::Argument
        | Row::BundleExport
        | Row::StartArgument
        | Row::Producer
        | Row::OptionUtf8
        | Row::OptionUtf16
        | Row::OptionLatin1Utf16
        | Row::OptionMemory
        | Row::OptionRealloc
        | Row::OptionPostReturn
        | Row::OptionAsync
        | Row::OptionCallback
        | Row::ModuleDescription
        | Row::FuncDescription
        | Row::TypeEq
        | Row::SubResource
        | Row::ComponentDescription
        | Row::InstanceDescription
        | Row::FuncEntity
        | Row::TableEntity
        | Row::MemoryEntity
        | Row::GlobalEntity
        | Row::AttributedName
        | Row::MapType
        | Row::ValueDescription
        | Row::OptionGc
        | Row::OptionCoreType
        | Row::StreamForward
        | Row::FutureForward
        | Row::WaitableSetWait
        | Row::WaitableSetPoll
        | Row::ThreadIndex
        | Row::ThreadNewIndirect
        | Row::ThreadResumeLater
        | Row::ThreadSuspend
        | Row::ThreadYield
        | Row::ThreadSuspendThenResume
        | Row::ThreadYieldThenResume
        | Row::ThreadSuspendThenPromote
        | Row::ThreadYieldThenPromote
        | Row::OtherCoreType
        | Row::OtherEntity => Line {
            frame: Frame::Bare,
            pieces: &[],
        },
    }
}

/// The line of a definition of the type of a core module; none of another row.
pub fn module_definition_line(row: Row) -> Line
    ensures { line_pieces result ≡ module_definition_line row }
{
    match row {
        Row::CoreFunctionType => Line {
            frame: Frame::Group(Word::Ty),
            pieces: &[
                Piece::Open,
                Piece::Word(Word::Func),
                Piece::Leaf(0, Field::EachIn(Word::Param)),
                Piece::Leaf(1, Field::EachIn(Word::Result)),
                Piece::Close,
            ],
        },
        Row::CoreRec => Line {
            frame: Frame::Group(Word::Rec),
            pieces: &[Piece::Leaf(0, Field::EachIn(Word::Ty))],
        },
        Row::AliasOuter => Line {
            frame: Frame::Group(Word::Alias),
            pieces: &[
                Piece::Word(Word::Outer),
                Piece::Leaf(0, Field::Number),
                Piece::Leaf(1, Field::Number),
                Piece::Open,
                Piece::Word(Word::Ty),
                Piece::Close,
            ],
        },
        Row::ModuleImport => Line {
            frame: Frame::Group(Word::Import),
            pieces: &[
                Piece::Leaf(0, Field::Text),
                Piece::Leaf(1, Field::Text),
                Piece::Leaf(2, Field::One),
            ],
        },
        Row::ModuleExport => Line {
            frame: Frame::Group(Word::Export),
            pieces: &[Piece::Leaf(0, Field::Text), Piece::Leaf(1, Field::One)],
        },
        _ => Line {
            frame: Frame::Bare,
            pieces: &[],
        },
    }
}

/// The line of a definition in a scope of this kind.
pub fn definition_in(kind: ScopeKind, row: Row) -> Line
    ensures { line_pieces result ≡ definition_in kind row }
{
    match kind {
        ScopeKind::ModuleType => module_definition_line(row),
        _ => definition_line(row),
    }
}
