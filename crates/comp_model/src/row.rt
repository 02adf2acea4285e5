//! The rows of the model, and the kinds of its scopes: code and specifications name the same enums.

ghost use Rattle.std.specs.Prelude.{◌≡◌};
ghost use Rattle.comp_model.specs.RowNumbers.{row_number};

/// A row of the tables of the Component Model: what a definition, or an entry of a list, is. Those of definitions come first, in the order
/// of the sections of a component where they have one. Which leaves each has, and what it declares, is in `specs/Rows` and `specs/Spaces`.
#[derive(Clone, Copy, Debug)]
pub enum Row {
    /// A core module.
    CoreModule,
    /// A core instance of a core module.
    CoreInstantiate,
    /// A core instance of exports.
    CoreBundle,
    /// A core function type.
    CoreFunctionType,
    /// A recursive group of core types.
    CoreRec,
    /// The type of a core module.
    ModuleType,
    /// A component.
    Component,
    /// An instance of a component.
    Instantiate,
    /// An instance of exports.
    Bundle,
    /// The alias of an export.
    AliasExport,
    /// The alias of a core export.
    AliasCoreExport,
    /// The alias of an item of an enclosing scope.
    AliasOuter,
    /// The start function.
    Start,
    /// An import.
    Import,
    /// An export.
    Export,
    /// A custom section.
    Custom,
    /// The custom section `producers`.
    Producers,
    /// A primitive type.
    Primitive,
    /// `record`.
    RecordType,
    /// `variant`.
    VariantType,
    /// `list` of any length.
    ListType,
    /// `list` of a fixed length.
    FixedLengthListType,
    /// `tuple`.
    TupleType,
    /// `flags`.
    FlagsType,
    /// `enum`.
    EnumType,
    /// `option`.
    OptionType,
    /// `result`.
    ResultType,
    /// `own`.
    OwnType,
    /// `borrow`.
    BorrowType,
    /// `stream`.
    StreamType,
    /// `future`.
    FutureType,
    /// A function type.
    FunctionType,
    /// A component type.
    ComponentType,
    /// An instance type.
    InstanceType,
    /// A resource type.
    ResourceType,
    /// `lift`.
    Lift,
    /// `lower`.
    Lower,
    /// `resource.new`.
    ResourceNew,
    /// `resource.drop`.
    ResourceDrop,
    /// `resource.rep`.
    ResourceRep,
    /// `task.cancel`.
    TaskCancel,
    /// `subtask.cancel`.
    SubtaskCancel,
    /// `subtask.drop`.
    SubtaskDrop,
    /// `task.return`.
    TaskReturn,
    /// `context.get`.
    ContextGet,
    /// `context.set`.
    ContextSet,
    /// `stream.new`.
    StreamNew,
    /// `stream.read`.
    StreamRead,
    /// `stream.write`.
    StreamWrite,
    /// `stream.cancel-read`.
    StreamCancelRead,
    /// `stream.cancel-write`.
    StreamCancelWrite,
    /// `stream.drop-readable`.
    StreamDropReadable,
    /// `stream.drop-writable`.
    StreamDropWritable,
    /// `future.new`.
    FutureNew,
    /// `future.read`.
    FutureRead,
    /// `future.write`.
    FutureWrite,
    /// `future.cancel-read`.
    FutureCancelRead,
    /// `future.cancel-write`.
    FutureCancelWrite,
    /// `future.drop-readable`.
    FutureDropReadable,
    /// `future.drop-writable`.
    FutureDropWritable,
    /// `error-context.new`.
    ErrorContextNew,
    /// `error-context.debug-message`.
    ErrorContextDebugMessage,
    /// `error-context.drop`.
    ErrorContextDrop,
    /// `waitable-set.new`.
    WaitableSetNew,
    /// `waitable-set.drop`.
    WaitableSetDrop,
    /// `waitable.join`.
    WaitableJoin,
    /// `backpressure.inc`.
    BackpressureInc,
    /// `backpressure.dec`.
    BackpressureDec,
    /// `thread.spawn-ref`.
    ThreadSpawnRef,
    /// `thread.spawn-indirect`.
    ThreadSpawnIndirect,
    /// `thread.available-parallelism`.
    ThreadAvailableParallelism,
    /// An export of a component or instance type.
    ExportType,
    /// An import of a module type.
    ModuleImport,
    /// An export of a module type.
    ModuleExport,
    /// A core value type.
    CoreValueType,
    /// A field of a record, or a parameter.
    NamedType,
    /// A case of a variant.
    CaseType,
    /// A type alone.
    LoneType,
    /// A name alone.
    LoneName,
    /// An argument of a core instance.
    CoreArgument,
    /// An export of a core instance of exports.
    CoreBundleExport,
    /// An argument of an instance.
    Argument,
    /// An export of an instance of exports.
    BundleExport,
    /// An argument of the start function.
    StartArgument,
    /// A field of `producers`.
    Producer,
    /// `string-encoding=utf8`.
    OptionUtf8,
    /// `string-encoding=utf16`.
    OptionUtf16,
    /// `string-encoding=latin1+utf16`.
    OptionLatin1Utf16,
    /// `memory`.
    OptionMemory,
    /// `realloc`.
    OptionRealloc,
    /// `post-return`.
    OptionPostReturn,
    /// `async`.
    OptionAsync,
    /// `callback`.
    OptionCallback,
    /// A core module, as an import or export asks for it.
    ModuleDescription,
    /// A function, as an import or export asks for it.
    FuncDescription,
    /// A type that is another.
    TypeEq,
    /// A type that is a resource.
    SubResource,
    /// A component, as an import or export asks for it.
    ComponentDescription,
    /// An instance, as an import or export asks for it.
    InstanceDescription,
    /// A function, as a module type has it.
    FuncEntity,
    /// A table, as a module type has it.
    TableEntity,
    /// A memory, as a module type has it.
    MemoryEntity,
    /// A global, as a module type has it.
    GlobalEntity,
    /// A name with attributes.
    AttributedName,
    /// `map`.
    MapType,
    /// A value, as an import or export asks for it.
    ValueDescription,
    /// `gc`.
    OptionGc,
    /// `core-type`.
    OptionCoreType,
    /// `stream.forward`.
    StreamForward,
    /// `future.forward`.
    FutureForward,
    /// `waitable-set.wait`.
    WaitableSetWait,
    /// `waitable-set.poll`.
    WaitableSetPoll,
    /// `thread.index`.
    ThreadIndex,
    /// `thread.new-indirect`.
    ThreadNewIndirect,
    /// `thread.resume-later`.
    ThreadResumeLater,
    /// `thread.suspend`.
    ThreadSuspend,
    /// `thread.yield`.
    ThreadYield,
    /// `thread.suspend-then-resume`.
    ThreadSuspendThenResume,
    /// `thread.yield-then-resume`.
    ThreadYieldThenResume,
    /// `thread.suspend-then-promote`.
    ThreadSuspendThenPromote,
    /// `thread.yield-then-promote`.
    ThreadYieldThenPromote,
    /// A core type that is another.
    OtherCoreType,
    /// An entity of a module type that is another.
    OtherEntity,
}

impl Row {
    /// The number of the row: its place in the table above, from 0.
    pub fn number(self) -> u32
        ensures { result ≡ row_number self }
    {
        self as u32
    }
}

/// What a scope is of.
#[derive(Clone, Copy, Debug)]
pub enum ScopeKind {
    /// A component.
    Component,
    /// The type of a component.
    ComponentType,
    /// The type of an instance.
    InstanceType,
    /// The type of a core module.
    ModuleType,
}
