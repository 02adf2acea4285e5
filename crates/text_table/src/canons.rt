//! Canonical functions, and functions that are made of one (Component Model, "Canonical Definitions").

use crate::core_types::OUTWARD_CORE_VALUE;
use crate::forms::{COUNT, NAMES, TEXT, cases, first_words, lone_word};
use crate::references::{
    MEMORY_REFERENCE, core_reference, core_words, index_or_core, index_or_item, item_path,
};
use crate::rule::Reach::Outward;
use crate::rule::Rule::{
    Also, Choice, Def, Either, End, Entry, Group, List, Named, Of, Placed, Reference, Then, Use,
    Word, Wraps,
};
use crate::rule::{Add, Part, RowName, Rule, Test, Wrap};
use crate::types::{FUNC_USE, imported, inline_exports};
use crate::values::{OPTIONAL_ASYNC, OPTIONAL_RESULT};
use comp_model::{Row, Space};
use token_codes::numbers as word;

/// An option that is a word.
macro_rules! word_option {
    ($row:expr, $word:expr) => {
        &Entry($row, lone_word!($word))
    };
}

/// `"(" w cref("func") ")"`.
macro_rules! func_option {
    ($row:expr, $word:expr) => {
        &Entry($row, &Group(&Word($word, core_reference!(word::FUNC, Space::CoreFunc))))
    };
}

/// An option is next.
pub const IS_OPTION: &Test<'static> = &Test::Or(
    &Test::Range(word::STRING_ENCODING_UTF8, word::GC),
    &Test::GroupRange(word::MEMORY, word::CORE_TYPE),
);

/// `opt = "string-encoding=utf8" | .. | "gc" | "(" "memory" memory ")" | "(" "realloc" cref("func") ")" | .. | "(" "core-type" cref("type") ")"`.
pub const CANONICAL_OPTION: &Rule<'static> = cases! {
    &Test::Next(word::STRING_ENCODING_UTF8) => word_option!(Row::OptionUtf8, word::STRING_ENCODING_UTF8),
    &Test::Next(word::STRING_ENCODING_UTF16) => word_option!(Row::OptionUtf16, word::STRING_ENCODING_UTF16),
    &Test::Next(word::STRING_ENCODING_LATIN1_UTF16) => word_option!(Row::OptionLatin1Utf16, word::STRING_ENCODING_LATIN1_UTF16),
    &Test::Next(word::ASYNC) => word_option!(Row::OptionAsync, word::ASYNC),
    &Test::Next(word::GC) => word_option!(Row::OptionGc, word::GC),
    &Test::Group(word::MEMORY) => &Entry(Row::OptionMemory, &Group(&Word(word::MEMORY, MEMORY_REFERENCE))),
    &Test::Group(word::REALLOC) => func_option!(Row::OptionRealloc, word::REALLOC),
    &Test::Group(word::POST_RETURN) => func_option!(Row::OptionPostReturn, word::POST_RETURN),
    &Test::Group(word::CALLBACK) => func_option!(Row::OptionCallback, word::CALLBACK),
    &Test::Group(word::CORE_TYPE) => &Entry(Row::OptionCoreType, &Group(&Word(word::CORE_TYPE, core_reference!(word::TYPE, Space::CoreType)))),
};

/// `opt*`.
pub const OPTIONS: &Rule<'static> = &List(IS_OPTION, &Rule::Row(RowName::CanonicalOption));

/// `ior("type")`.
pub const TYPE_OF: &Rule<'static> = index_or_item!(word::TYPE, Space::Ty);

/// `"(" "func" idx text* ")" opt*`.
pub const FUNC_AND_OPTIONS: &Rule<'static> = &Then(
    &Group(&Word(word::FUNC, item_path!(Space::Func))),
    OPTIONS,
);

/// `ty opt*`.
pub const TYPE_AND_OPTIONS: &Rule<'static> = &Then(TYPE_OF, OPTIONS);

/// `ty "async"?`.
pub const TYPE_AND_ASYNC: &Rule<'static> = &Then(TYPE_OF, OPTIONAL_ASYNC);

/// `( "(" "result" val ")" )? opt*`.
pub const RESULT_AND_OPTIONS: &Rule<'static> = &Then(OPTIONAL_RESULT, OPTIONS);

/// `cval num`.
pub const CONTEXT: &Rule<'static> = &Then(OUTWARD_CORE_VALUE, COUNT);

/// `nref("type")`.
pub const CORE_TYPE_OF: &Rule<'static> = index_or_core!(word::TYPE, Space::CoreType);

/// `nref("type") cref("table")`.
pub const CORE_TYPE_AND_TABLE: &Rule<'static> = &Then(
    CORE_TYPE_OF,
    core_reference!(word::TABLE, Space::CoreTable),
);

/// `"(" "memory" memory ")"`.
pub const MEMORY: &Rule<'static> = &Group(&Word(word::MEMORY, MEMORY_REFERENCE));

/// A built-in: its row, its word and its parts.
macro_rules! is {
    ($row:ident, $word:ident, $parts:expr) => {
        Of(Row::$row, &Word(word::$word, $parts))
    };
}

/// The built-ins, in the order of their words' numbers (Canonical Built-ins).
pub static BUILT_IN_ROWS: [Rule<'static>; 49] = [
    is!(Lower, LOWER, &Use(Part::FuncAndOptions)),
    is!(ResourceNew, RESOURCE_NEW, &Use(Part::TypeOf)),
    is!(ResourceDrop, RESOURCE_DROP, &Use(Part::TypeOf)),
    is!(ResourceRep, RESOURCE_REP, &Use(Part::TypeOf)),
    is!(ThreadSpawnRef, THREAD_SPAWN_REF, CORE_TYPE_OF),
    is!(
        ThreadSpawnIndirect,
        THREAD_SPAWN_INDIRECT,
        &Use(Part::CoreTypeAndTable)
    ),
    is!(
        ThreadNewIndirect,
        THREAD_NEW_INDIRECT,
        &Use(Part::CoreTypeAndTable)
    ),
    is!(
        ThreadAvailableParallelism,
        THREAD_AVAILABLE_PARALLELISM,
        &End
    ),
    is!(
        ThreadAvailableParallelism,
        THREAD_AVAILABLE_PARALLELISM_OLDER,
        &End
    ),
    is!(TaskReturn, TASK_RETURN, &Use(Part::ResultAndOptions)),
    is!(TaskCancel, TASK_CANCEL, &End),
    is!(ContextGet, CONTEXT_GET, &Use(Part::Context)),
    is!(ContextSet, CONTEXT_SET, &Use(Part::Context)),
    is!(SubtaskDrop, SUBTASK_DROP, &End),
    is!(SubtaskCancel, SUBTASK_CANCEL, OPTIONAL_ASYNC),
    is!(StreamNew, STREAM_NEW, &Use(Part::TypeOf)),
    is!(StreamRead, STREAM_READ, &Use(Part::TypeAndOptions)),
    is!(StreamWrite, STREAM_WRITE, &Use(Part::TypeAndOptions)),
    is!(StreamForward, STREAM_FORWARD, &Use(Part::TypeOf)),
    is!(
        StreamCancelRead,
        STREAM_CANCEL_READ,
        &Use(Part::TypeAndAsync)
    ),
    is!(
        StreamCancelWrite,
        STREAM_CANCEL_WRITE,
        &Use(Part::TypeAndAsync)
    ),
    is!(StreamDropReadable, STREAM_DROP_READABLE, &Use(Part::TypeOf)),
    is!(StreamDropWritable, STREAM_DROP_WRITABLE, &Use(Part::TypeOf)),
    is!(FutureNew, FUTURE_NEW, &Use(Part::TypeOf)),
    is!(FutureRead, FUTURE_READ, &Use(Part::TypeAndOptions)),
    is!(FutureWrite, FUTURE_WRITE, &Use(Part::TypeAndOptions)),
    is!(FutureForward, FUTURE_FORWARD, &Use(Part::TypeOf)),
    is!(
        FutureCancelRead,
        FUTURE_CANCEL_READ,
        &Use(Part::TypeAndAsync)
    ),
    is!(
        FutureCancelWrite,
        FUTURE_CANCEL_WRITE,
        &Use(Part::TypeAndAsync)
    ),
    is!(FutureDropReadable, FUTURE_DROP_READABLE, &Use(Part::TypeOf)),
    is!(FutureDropWritable, FUTURE_DROP_WRITABLE, &Use(Part::TypeOf)),
    is!(ErrorContextNew, ERROR_CONTEXT_NEW, OPTIONS),
    is!(
        ErrorContextDebugMessage,
        ERROR_CONTEXT_DEBUG_MESSAGE,
        OPTIONS
    ),
    is!(ErrorContextDrop, ERROR_CONTEXT_DROP, &End),
    is!(BackpressureInc, BACKPRESSURE_INC, &End),
    is!(BackpressureDec, BACKPRESSURE_DEC, &End),
    is!(WaitableSetNew, WAITABLE_SET_NEW, &End),
    is!(WaitableSetDrop, WAITABLE_SET_DROP, &End),
    is!(WaitableJoin, WAITABLE_JOIN, &End),
    is!(WaitableSetWait, WAITABLE_SET_WAIT, &Use(Part::Memory)),
    is!(WaitableSetPoll, WAITABLE_SET_POLL, &Use(Part::Memory)),
    is!(ThreadIndex, THREAD_INDEX, &End),
    is!(ThreadResumeLater, THREAD_RESUME_LATER, &End),
    is!(ThreadSuspend, THREAD_SUSPEND, &End),
    is!(ThreadYield, THREAD_YIELD, &End),
    is!(ThreadSuspendThenResume, THREAD_SUSPEND_THEN_RESUME, &End),
    is!(ThreadYieldThenResume, THREAD_YIELD_THEN_RESUME, &End),
    is!(ThreadSuspendThenPromote, THREAD_SUSPEND_THEN_PROMOTE, &End),
    is!(ThreadYieldThenPromote, THREAD_YIELD_THEN_PROMOTE, &End),
];

/// `builtin`, by its name.
pub const BUILT_IN: &Rule<'static> = &Choice(crate::rule::Choice::BuiltIn);

/// `"lift" "(" "core" "func" idx text? ")" opt*`, without its type.
pub const LIFT: &Rule<'static> = &Word(
    word::LIFT,
    &Then(&Group(core_words!(word::FUNC, Space::CoreFunc)), OPTIONS),
);

/// `"alias" "core" "export" idx text` (Alias Definitions).
pub const CORE_ALIAS: &Rule<'static> = &Of(
    Row::AliasCoreExport,
    &Also(
        &Word(
            word::ALIAS,
            &Word(
                word::CORE,
                &Word(word::EXPORT, &Reference(Space::CoreInstance, Outward, TEXT)),
            ),
        ),
        Add::Kind(Space::CoreFunc),
    ),
);

/// `"alias" "core" "export" idx text | "canon" builtin`.
pub const CORE_FUNC_KIND: &Rule<'static> = &Either(
    &Test::Next(word::ALIAS),
    CORE_ALIAS,
    &Word(word::CANON, BUILT_IN),
);

/// `"core" "func" id? name? "(" ( "alias" "core" "export" idx text | "canon" builtin ) ")"`.
pub const CORE_FUNC: &Rule<'static> = &Def(first_words!(
    word::CORE,
    word::FUNC,
    &Named(&Group(CORE_FUNC_KIND))
));

/// `"alias" "export" idx text` (Alias Definitions).
pub const INLINE_ALIAS: &Rule<'static> = &Of(
    Row::AliasExport,
    &Also(
        &Word(
            word::ALIAS,
            &Word(word::EXPORT, &Reference(Space::Instance, Outward, TEXT)),
        ),
        Add::Kind(Space::Func),
    ),
);

/// `iimp use(fty) | "(" "alias" "export" idx text ")" | use(fty) "(" "canon" lift ")"`.
pub const FUNC_KIND: &Rule<'static> = imported!(
    Row::FuncDescription,
    FUNC_USE,
    &Either(
        &Test::Group(word::ALIAS),
        &Group(INLINE_ALIAS),
        &Of(Row::Lift, &Then(FUNC_USE, &Group(&Word(word::CANON, LIFT)))),
    )
);

/// `"func" id? name? iexp* ( iimp use(fty) | "(" "alias" "export" idx text ")" | use(fty) "(" "canon" lift ")" )`.
pub const FUNC: &Rule<'static> = &Def(&Placed(
    true,
    word::FUNC,
    &Named(inline_exports!(FUNC_KIND)),
));

/// `"canon" lift "(" "func" id? name? use(fty) ")" | "canon" builtin "(" "core" "func" id? name? ")"`; the type of a lift stands in front.
pub const CANON: &Rule<'static> = &Def(&Placed(
    true,
    word::CANON,
    &Either(
        &Test::Next(word::LIFT),
        &Of(
            Row::Lift,
            &Wraps(
                Wrap::LastFirst,
                &Then(LIFT, &Group(&Word(word::FUNC, &Named(FUNC_USE)))),
            ),
        ),
        &Then(
            BUILT_IN,
            &Group(&Word(word::CORE, &Word(word::FUNC, NAMES))),
        ),
    ),
));
