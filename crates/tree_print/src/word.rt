//! The words of the printed text.

ghost use Rattle.std.specs.Prelude.{◌≡◌, codes};
ghost use Rattle.print_table.specs.TextOf as text;
ghost use Rattle.tree_print.specs.Words.{word_text, words_tokens};

use comp_model::Space;

/// A word of the text format.
#[derive(Clone, Copy)]
pub enum Word {
    /// `alias`.
    Alias,
    /// `async`.
    Async,
    /// `borrow`.
    Borrow,
    /// `callback`.
    Callback,
    /// `canon`.
    Canon,
    /// `case`.
    Case,
    /// `component`.
    Component,
    /// `core`.
    Core,
    /// `dtor`.
    Dtor,
    /// `enum`.
    Enum,
    /// `eq`.
    Eq,
    /// `error`.
    Error,
    /// `export`.
    Export,
    /// `field`.
    Field,
    /// `flags`.
    Flags,
    /// `func`.
    Func,
    /// `future`.
    Future,
    /// `global`.
    Global,
    /// `import`.
    Import,
    /// `instance`.
    Instance,
    /// `instantiate`.
    Instantiate,
    /// `lift`.
    Lift,
    /// `list`.
    List,
    /// `lower`.
    Lower,
    /// `memory`.
    Memory,
    /// `module`.
    Module,
    /// `mut`.
    Mut,
    /// `option`.
    Option,
    /// `outer`.
    Outer,
    /// `own`.
    Own,
    /// `param`.
    Param,
    /// `post-return`.
    PostReturn,
    /// `realloc`.
    Realloc,
    /// `rec`.
    Rec,
    /// `record`.
    Record,
    /// `rep`.
    Rep,
    /// `resource`.
    Resource,
    /// `result`.
    Result,
    /// `start`.
    Start,
    /// `stream`.
    Stream,
    /// `sub`.
    Sub,
    /// `table`.
    Table,
    /// `tag`.
    Tag,
    /// `tuple`.
    Tuple,
    /// `type`.
    Ty,
    /// `value`.
    Value,
    /// `variant`.
    Variant,
    /// `with`.
    With,
    /// `string-encoding=utf8`.
    EncodingUtf8,
    /// `string-encoding=utf16`.
    EncodingUtf16,
    /// `string-encoding=latin1+utf16`.
    EncodingLatin1Utf16,
    /// `resource.new`.
    ResourceNew,
    /// `resource.drop`.
    ResourceDrop,
    /// `resource.rep`.
    ResourceRep,
    /// `task.cancel`.
    TaskCancel,
    /// `task.return`.
    TaskReturn,
    /// `subtask.cancel`.
    SubtaskCancel,
    /// `subtask.drop`.
    SubtaskDrop,
    /// `context.get`.
    ContextGet,
    /// `context.set`.
    ContextSet,
    /// `stream.new`.
    StreamNew,
    /// `stream.read`.
    StreamRead,
    /// `stream.write`.
    StreamWrite,
    /// `stream.cancel-read`.
    StreamCancelRead,
    /// `stream.cancel-write`.
    StreamCancelWrite,
    /// `stream.drop-readable`.
    StreamDropReadable,
    /// `stream.drop-writable`.
    StreamDropWritable,
    /// `future.new`.
    FutureNew,
    /// `future.read`.
    FutureRead,
    /// `future.write`.
    FutureWrite,
    /// `future.cancel-read`.
    FutureCancelRead,
    /// `future.cancel-write`.
    FutureCancelWrite,
    /// `future.drop-readable`.
    FutureDropReadable,
    /// `future.drop-writable`.
    FutureDropWritable,
    /// `error-context.new`.
    ErrorContextNew,
    /// `error-context.debug-message`.
    ErrorContextDebugMessage,
    /// `error-context.drop`.
    ErrorContextDrop,
    /// `waitable-set.new`.
    WaitableSetNew,
    /// `waitable-set.drop`.
    WaitableSetDrop,
    /// `waitable.join`.
    WaitableJoin,
    /// `backpressure.inc`.
    BackpressureInc,
    /// `backpressure.dec`.
    BackpressureDec,
    /// `thread.spawn-ref`.
    ThreadSpawnRef,
    /// `thread.spawn-indirect`.
    ThreadSpawnIndirect,
    /// `thread.available-parallelism`.
    ThreadAvailableParallelism,
    /// `bool`.
    Bool,
    /// `s8`.
    S8,
    /// `u8`.
    U8,
    /// `s16`.
    S16,
    /// `u16`.
    U16,
    /// `s32`.
    S32,
    /// `u32`.
    U32,
    /// `s64`.
    S64,
    /// `u64`.
    U64,
    /// `f32`.
    F32,
    /// `f64`.
    F64,
    /// `char`.
    Char,
    /// `string`.
    Str,
    /// `error-context`.
    ErrorContext,
    /// `i32`.
    I32,
    /// `i64`.
    I64,
    /// `v128`.
    V128,
    /// `funcref`.
    FuncRef,
    /// `externref`.
    ExternRef,
    /// `extern`.
    Extern,
    /// `ref`.
    Ref,
    /// `null`.
    Null,
}

/// The characters of a word.
pub fn spelling(word: Word) -> &'static str
    ensures { result.now ≡ codes (word_text word) }
{
    match word {
        Word::Alias => "alias",
        Word::Async => "async",
        Word::Borrow => "borrow",
        Word::Callback => "callback",
        Word::Canon => "canon",
        Word::Case => "case",
        Word::Component => "component",
        Word::Core => "core",
        Word::Dtor => "dtor",
        Word::Enum => "enum",
        Word::Eq => "eq",
        Word::Error => "error",
        Word::Export => "export",
        Word::Field => "field",
        Word::Flags => "flags",
        Word::Func => "func",
        Word::Future => "future",
        Word::Global => "global",
        Word::Import => "import",
        Word::Instance => "instance",
        Word::Instantiate => "instantiate",
        Word::Lift => "lift",
        Word::List => "list",
        Word::Lower => "lower",
        Word::Memory => "memory",
        Word::Module => "module",
        Word::Mut => "mut",
        Word::Option => "option",
        Word::Outer => "outer",
        Word::Own => "own",
        Word::Param => "param",
        Word::PostReturn => "post-return",
        Word::Realloc => "realloc",
        Word::Rec => "rec",
        Word::Record => "record",
        Word::Rep => "rep",
        Word::Resource => "resource",
        Word::Result => "result",
        Word::Start => "start",
        Word::Stream => "stream",
        Word::Sub => "sub",
        Word::Table => "table",
        Word::Tag => "tag",
        Word::Tuple => "tuple",
        Word::Ty => "type",
        Word::Value => "value",
        Word::Variant => "variant",
        Word::With => "with",
        Word::EncodingUtf8 => "string-encoding=utf8",
        Word::EncodingUtf16 => "string-encoding=utf16",
        Word::EncodingLatin1Utf16 => "string-encoding=latin1+utf16",
        Word::ResourceNew => "resource.new",
        Word::ResourceDrop => "resource.drop",
        Word::ResourceRep => "resource.rep",
        Word::TaskCancel => "task.cancel",
        Word::TaskReturn => "task.return",
        Word::SubtaskCancel => "subtask.cancel",
        Word::SubtaskDrop => "subtask.drop",
        Word::ContextGet => "context.get",
        Word::ContextSet => "context.set",
        Word::StreamNew => "stream.new",
        Word::StreamRead => "stream.read",
        Word::StreamWrite => "stream.write",
        Word::StreamCancelRead => "stream.cancel-read",
        Word::StreamCancelWrite => "stream.cancel-write",
        Word::StreamDropReadable => "stream.drop-readable",
        Word::StreamDropWritable => "stream.drop-writable",
        Word::FutureNew => "future.new",
        Word::FutureRead => "future.read",
        Word::FutureWrite => "future.write",
        Word::FutureCancelRead => "future.cancel-read",
        Word::FutureCancelWrite => "future.cancel-write",
        Word::FutureDropReadable => "future.drop-readable",
        Word::FutureDropWritable => "future.drop-writable",
        Word::ErrorContextNew => "error-context.new",
        Word::ErrorContextDebugMessage => "error-context.debug-message",
        Word::ErrorContextDrop => "error-context.drop",
        Word::WaitableSetNew => "waitable-set.new",
        Word::WaitableSetDrop => "waitable-set.drop",
        Word::WaitableJoin => "waitable.join",
        Word::BackpressureInc => "backpressure.inc",
        Word::BackpressureDec => "backpressure.dec",
        Word::ThreadSpawnRef => "thread.spawn-ref",
        Word::ThreadSpawnIndirect => "thread.spawn-indirect",
        Word::ThreadAvailableParallelism => "thread.available-parallelism",
        Word::Bool => "bool",
        Word::S8 => "s8",
        Word::U8 => "u8",
        Word::S16 => "s16",
        Word::U16 => "u16",
        Word::S32 => "s32",
        Word::U32 => "u32",
        Word::S64 => "s64",
        Word::U64 => "u64",
        Word::F32 => "f32",
        Word::F64 => "f64",
        Word::Char => "char",
        Word::Str => "string",
        Word::ErrorContext => "error-context",
        Word::I32 => "i32",
        Word::I64 => "i64",
        Word::V128 => "v128",
        Word::FuncRef => "funcref",
        Word::ExternRef => "externref",
        Word::Extern => "extern",
        Word::Ref => "ref",
        Word::Null => "null",
    }
}

/// The word of the primitive type of a byte (Component Model, text format, Type Definitions); none of another byte.
pub fn primitive_words(byte: u32) -> &'static [Word]
    ensures { words_tokens result.now ≡ text.primitive_in text.primitive_words byte }
{
    match byte {
        0x7f => &[Word::Bool],
        0x7e => &[Word::S8],
        0x7d => &[Word::U8],
        0x7c => &[Word::S16],
        0x7b => &[Word::U16],
        0x7a => &[Word::S32],
        0x79 => &[Word::U32],
        0x78 => &[Word::S64],
        0x77 => &[Word::U64],
        0x76 => &[Word::F32],
        0x75 => &[Word::F64],
        0x74 => &[Word::Char],
        0x73 => &[Word::Str],
        0x64 => &[Word::ErrorContext],
        _ => &[],
    }
}

/// The words of an item that a component exports (Component Model, text format, Instance Definitions); none of another item.
pub fn kind_words(space: Space) -> &'static [Word]
    ensures { words_tokens result.now ≡ text.kind_words space }
{
    match space {
        Space::CoreModule => &[Word::Core, Word::Module],
        Space::Func => &[Word::Func],
        Space::Value => &[Word::Value],
        Space::Ty => &[Word::Ty],
        Space::Component => &[Word::Component],
        Space::Instance => &[Word::Instance],
        _ => &[],
    }
}

/// The word of an item that a core module exports; none of another item.
pub fn core_kind_words(space: Space) -> &'static [Word]
    ensures { words_tokens result.now ≡ text.core_kind_words space }
{
    match space {
        Space::CoreFunc => &[Word::Func],
        Space::CoreTable => &[Word::Table],
        Space::CoreMemory => &[Word::Memory],
        Space::CoreGlobal => &[Word::Global],
        Space::CoreTag => &[Word::Tag],
        _ => &[],
    }
}

/// The words of an item that is aliased from an enclosing scope; none of another item.
pub fn outer_kind_words(space: Space) -> &'static [Word]
    ensures { words_tokens result.now ≡ text.outer_kind_words space }
{
    match space {
        Space::CoreModule => &[Word::Core, Word::Module],
        Space::CoreType => &[Word::Core, Word::Ty],
        Space::Ty => &[Word::Ty],
        Space::Component => &[Word::Component],
        _ => &[],
    }
}
