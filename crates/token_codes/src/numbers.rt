//! Numbers for the classes of tokens, so that each token is told by one look-up.
//!
//! The end of the text, parentheses, strings, ids, integers and annotations have the first numbers, the words of the text format of components follow in
//! the order of `WORDS`, and every other token has the last number. A word is found by a hash of its length and three of its bytes, which leads to at
//! most two words that stand beside each other in the table.

ghost use Rattle.std.specs.Prelude.{◌≡◌, ◌≤◌, ◌<◌, ◌∷◌, [], map, slice_get, slice_index, unwrap_or};
ghost use Rattle.wast_grammar.specs.Classes.{keyword, annotation};
ghost use Rattle.token_codes.specs.Numbers.{number, hash, word_at};

/// The end of the text.
pub const FINISH: u8 = 0;
/// `)`.
pub const CLOSING: u8 = 1;
/// `(`.
pub const OPENING: u8 = 2;
/// A string that is UTF-8.
pub const TEXT: u8 = 3;
/// Any other string.
pub const BYTES: u8 = 4;
/// An id.
pub const ID: u8 = 5;
/// An integer without `-`, below 2^32.
pub const NUMERAL: u8 = 6;
/// Any other integer.
pub const WIDE: u8 = 7;
/// The annotation `(@name`.
pub const NAME: u8 = 8;
/// The annotation `(@custom`.
pub const CUSTOM: u8 = 9;
/// The annotation `(@producers`.
pub const PRODUCERS: u8 = 10;
/// The first of the words.
pub const FIRST: u8 = 11;
/// `bool`.
pub const BOOL: u8 = 11;
/// `s8`.
pub const S8: u8 = 12;
/// `u8`.
pub const U8: u8 = 13;
/// `s16`.
pub const S16: u8 = 14;
/// `u16`.
pub const U16: u8 = 15;
/// `s32`.
pub const S32: u8 = 16;
/// `u32`.
pub const U32: u8 = 17;
/// `s64`.
pub const S64: u8 = 18;
/// `u64`.
pub const U64: u8 = 19;
/// `f32`.
pub const F32: u8 = 20;
/// `float32`.
pub const FLOAT32: u8 = 21;
/// `f64`.
pub const F64: u8 = 22;
/// `float64`.
pub const FLOAT64: u8 = 23;
/// `char`.
pub const CHAR: u8 = 24;
/// `string`.
pub const STRING: u8 = 25;
/// `error-context`.
pub const ERROR_CONTEXT: u8 = 26;
/// `record`.
pub const RECORD: u8 = 27;
/// `variant`.
pub const VARIANT: u8 = 28;
/// `list`.
pub const LIST: u8 = 29;
/// `map`.
pub const MAP: u8 = 30;
/// `tuple`.
pub const TUPLE: u8 = 31;
/// `flags`.
pub const FLAGS: u8 = 32;
/// `enum`.
pub const ENUM: u8 = 33;
/// `option`.
pub const OPTION: u8 = 34;
/// `result`.
pub const RESULT: u8 = 35;
/// `own`.
pub const OWN: u8 = 36;
/// `borrow`.
pub const BORROW: u8 = 37;
/// `stream`.
pub const STREAM: u8 = 38;
/// `future`.
pub const FUTURE: u8 = 39;
/// `i32`.
pub const I32: u8 = 40;
/// `i64`.
pub const I64: u8 = 41;
/// `v128`.
pub const V128: u8 = 42;
/// `string-encoding=utf8`.
pub const STRING_ENCODING_UTF8: u8 = 43;
/// `string-encoding=utf16`.
pub const STRING_ENCODING_UTF16: u8 = 44;
/// `string-encoding=latin1+utf16`.
pub const STRING_ENCODING_LATIN1_UTF16: u8 = 45;
/// `async`.
pub const ASYNC: u8 = 46;
/// `gc`.
pub const GC: u8 = 47;
/// `memory`.
pub const MEMORY: u8 = 48;
/// `realloc`.
pub const REALLOC: u8 = 49;
/// `post-return`.
pub const POST_RETURN: u8 = 50;
/// `callback`.
pub const CALLBACK: u8 = 51;
/// `core-type`.
pub const CORE_TYPE: u8 = 52;
/// `funcref`.
pub const FUNCREF: u8 = 53;
/// `externref`.
pub const EXTERNREF: u8 = 54;
/// `language`.
pub const LANGUAGE: u8 = 55;
/// `sdk`.
pub const SDK: u8 = 56;
/// `processed-by`.
pub const PROCESSED_BY: u8 = 57;
/// `lower`.
pub const LOWER: u8 = 58;
/// `resource.new`.
pub const RESOURCE_NEW: u8 = 59;
/// `resource.drop`.
pub const RESOURCE_DROP: u8 = 60;
/// `resource.rep`.
pub const RESOURCE_REP: u8 = 61;
/// `thread.spawn-ref`.
pub const THREAD_SPAWN_REF: u8 = 62;
/// `thread.spawn-indirect`.
pub const THREAD_SPAWN_INDIRECT: u8 = 63;
/// `thread.new-indirect`.
pub const THREAD_NEW_INDIRECT: u8 = 64;
/// `thread.available-parallelism`.
pub const THREAD_AVAILABLE_PARALLELISM: u8 = 65;
/// `thread.available_parallelism`.
pub const THREAD_AVAILABLE_PARALLELISM_OLDER: u8 = 66;
/// `task.return`.
pub const TASK_RETURN: u8 = 67;
/// `task.cancel`.
pub const TASK_CANCEL: u8 = 68;
/// `context.get`.
pub const CONTEXT_GET: u8 = 69;
/// `context.set`.
pub const CONTEXT_SET: u8 = 70;
/// `subtask.drop`.
pub const SUBTASK_DROP: u8 = 71;
/// `subtask.cancel`.
pub const SUBTASK_CANCEL: u8 = 72;
/// `stream.new`.
pub const STREAM_NEW: u8 = 73;
/// `stream.read`.
pub const STREAM_READ: u8 = 74;
/// `stream.write`.
pub const STREAM_WRITE: u8 = 75;
/// `stream.forward`.
pub const STREAM_FORWARD: u8 = 76;
/// `stream.cancel-read`.
pub const STREAM_CANCEL_READ: u8 = 77;
/// `stream.cancel-write`.
pub const STREAM_CANCEL_WRITE: u8 = 78;
/// `stream.drop-readable`.
pub const STREAM_DROP_READABLE: u8 = 79;
/// `stream.drop-writable`.
pub const STREAM_DROP_WRITABLE: u8 = 80;
/// `future.new`.
pub const FUTURE_NEW: u8 = 81;
/// `future.read`.
pub const FUTURE_READ: u8 = 82;
/// `future.write`.
pub const FUTURE_WRITE: u8 = 83;
/// `future.forward`.
pub const FUTURE_FORWARD: u8 = 84;
/// `future.cancel-read`.
pub const FUTURE_CANCEL_READ: u8 = 85;
/// `future.cancel-write`.
pub const FUTURE_CANCEL_WRITE: u8 = 86;
/// `future.drop-readable`.
pub const FUTURE_DROP_READABLE: u8 = 87;
/// `future.drop-writable`.
pub const FUTURE_DROP_WRITABLE: u8 = 88;
/// `error-context.new`.
pub const ERROR_CONTEXT_NEW: u8 = 89;
/// `error-context.debug-message`.
pub const ERROR_CONTEXT_DEBUG_MESSAGE: u8 = 90;
/// `error-context.drop`.
pub const ERROR_CONTEXT_DROP: u8 = 91;
/// `backpressure.inc`.
pub const BACKPRESSURE_INC: u8 = 92;
/// `backpressure.dec`.
pub const BACKPRESSURE_DEC: u8 = 93;
/// `waitable-set.new`.
pub const WAITABLE_SET_NEW: u8 = 94;
/// `waitable-set.drop`.
pub const WAITABLE_SET_DROP: u8 = 95;
/// `waitable.join`.
pub const WAITABLE_JOIN: u8 = 96;
/// `waitable-set.wait`.
pub const WAITABLE_SET_WAIT: u8 = 97;
/// `waitable-set.poll`.
pub const WAITABLE_SET_POLL: u8 = 98;
/// `thread.index`.
pub const THREAD_INDEX: u8 = 99;
/// `thread.resume-later`.
pub const THREAD_RESUME_LATER: u8 = 100;
/// `thread.suspend`.
pub const THREAD_SUSPEND: u8 = 101;
/// `thread.yield`.
pub const THREAD_YIELD: u8 = 102;
/// `thread.suspend-then-resume`.
pub const THREAD_SUSPEND_THEN_RESUME: u8 = 103;
/// `thread.yield-then-resume`.
pub const THREAD_YIELD_THEN_RESUME: u8 = 104;
/// `thread.suspend-then-promote`.
pub const THREAD_SUSPEND_THEN_PROMOTE: u8 = 105;
/// `thread.yield-then-promote`.
pub const THREAD_YIELD_THEN_PROMOTE: u8 = 106;
/// `alias`.
pub const ALIAS: u8 = 107;
/// `array`.
pub const ARRAY: u8 = 108;
/// `binary`.
pub const BINARY: u8 = 109;
/// `canon`.
pub const CANON: u8 = 110;
/// `case`.
pub const CASE: u8 = 111;
/// `component`.
pub const COMPONENT: u8 = 112;
/// `cont`.
pub const CONT: u8 = 113;
/// `core`.
pub const CORE: u8 = 114;
/// `dtor`.
pub const DTOR: u8 = 115;
/// `eq`.
pub const EQ: u8 = 116;
/// `error`.
pub const ERROR: u8 = 117;
/// `export`.
pub const EXPORT: u8 = 118;
/// `extern`.
pub const EXTERN: u8 = 119;
/// `external-id`.
pub const EXTERNAL_ID: u8 = 120;
/// `field`.
pub const FIELD: u8 = 121;
/// `func`.
pub const FUNC: u8 = 122;
/// `global`.
pub const GLOBAL: u8 = 123;
/// `implements`.
pub const IMPLEMENTS: u8 = 124;
/// `import`.
pub const IMPORT: u8 = 125;
/// `instance`.
pub const INSTANCE: u8 = 126;
/// `instantiate`.
pub const INSTANTIATE: u8 = 127;
/// `interface`.
pub const INTERFACE: u8 = 128;
/// `lift`.
pub const LIFT: u8 = 129;
/// `module`.
pub const MODULE: u8 = 130;
/// `mut`.
pub const MUT: u8 = 131;
/// `null`.
pub const NULL: u8 = 132;
/// `outer`.
pub const OUTER: u8 = 133;
/// `param`.
pub const PARAM: u8 = 134;
/// `rec`.
pub const REC: u8 = 135;
/// `ref`.
pub const REF: u8 = 136;
/// `rep`.
pub const REP: u8 = 137;
/// `resource`.
pub const RESOURCE: u8 = 138;
/// `shared`.
pub const SHARED: u8 = 139;
/// `start`.
pub const START: u8 = 140;
/// `struct`.
pub const STRUCT: u8 = 141;
/// `sub`.
pub const SUB: u8 = 142;
/// `table`.
pub const TABLE: u8 = 143;
/// `tag`.
pub const TAG: u8 = 144;
/// `type`.
pub const TYPE: u8 = 145;
/// `value`.
pub const VALUE: u8 = 146;
/// `version-suffix`.
pub const VERSION_SUFFIX: u8 = 147;
/// `with`.
pub const WITH: u8 = 148;
/// Every other token.
pub const OTHER: u8 = 149;

/// The words, from the first number on.
const WORDS: [&str; 138] = [
    "bool",
    "s8",
    "u8",
    "s16",
    "u16",
    "s32",
    "u32",
    "s64",
    "u64",
    "f32",
    "float32",
    "f64",
    "float64",
    "char",
    "string",
    "error-context",
    "record",
    "variant",
    "list",
    "map",
    "tuple",
    "flags",
    "enum",
    "option",
    "result",
    "own",
    "borrow",
    "stream",
    "future",
    "i32",
    "i64",
    "v128",
    "string-encoding=utf8",
    "string-encoding=utf16",
    "string-encoding=latin1+utf16",
    "async",
    "gc",
    "memory",
    "realloc",
    "post-return",
    "callback",
    "core-type",
    "funcref",
    "externref",
    "language",
    "sdk",
    "processed-by",
    "lower",
    "resource.new",
    "resource.drop",
    "resource.rep",
    "thread.spawn-ref",
    "thread.spawn-indirect",
    "thread.new-indirect",
    "thread.available-parallelism",
    "thread.available_parallelism",
    "task.return",
    "task.cancel",
    "context.get",
    "context.set",
    "subtask.drop",
    "subtask.cancel",
    "stream.new",
    "stream.read",
    "stream.write",
    "stream.forward",
    "stream.cancel-read",
    "stream.cancel-write",
    "stream.drop-readable",
    "stream.drop-writable",
    "future.new",
    "future.read",
    "future.write",
    "future.forward",
    "future.cancel-read",
    "future.cancel-write",
    "future.drop-readable",
    "future.drop-writable",
    "error-context.new",
    "error-context.debug-message",
    "error-context.drop",
    "backpressure.inc",
    "backpressure.dec",
    "waitable-set.new",
    "waitable-set.drop",
    "waitable.join",
    "waitable-set.wait",
    "waitable-set.poll",
    "thread.index",
    "thread.resume-later",
    "thread.suspend",
    "thread.yield",
    "thread.suspend-then-resume",
    "thread.yield-then-resume",
    "thread.suspend-then-promote",
    "thread.yield-then-promote",
    "alias",
    "array",
    "binary",
    "canon",
    "case",
    "component",
    "cont",
    "core",
    "dtor",
    "eq",
    "error",
    "export",
    "extern",
    "external-id",
    "field",
    "func",
    "global",
    "implements",
    "import",
    "instance",
    "instantiate",
    "interface",
    "lift",
    "module",
    "mut",
    "null",
    "outer",
    "param",
    "rec",
    "ref",
    "rep",
    "resource",
    "shared",
    "start",
    "struct",
    "sub",
    "table",
    "tag",
    "type",
    "value",
    "version-suffix",
    "with",
];

/// For each hash the number of the word that may be meant, or else the one behind it.
const SLOTS: [u8; 1024] = [
    149, 149, 149, 127, 149, 149, 57, 149, 149, 149, 149, 149, 149, 128, 149, 149, 149, 149, 114,
    149, 149, 149, 149, 149, 149, 149, 149, 149, 149, 149, 149, 149, 149, 149, 149, 149, 149, 149,
    149, 149, 149, 149, 149, 149, 28, 149, 81, 149, 149, 106, 149, 44, 149, 149, 149, 149, 52, 149,
    149, 149, 149, 149, 149, 149, 134, 149, 149, 149, 149, 111, 149, 89, 149, 126, 149, 30, 149,
    149, 149, 40, 149, 149, 149, 67, 46, 149, 149, 149, 149, 149, 149, 97, 149, 149, 149, 149, 149,
    149, 149, 149, 149, 149, 149, 149, 49, 149, 149, 149, 149, 149, 149, 149, 149, 149, 149, 149,
    149, 149, 149, 149, 125, 149, 149, 17, 149, 149, 149, 149, 149, 149, 149, 147, 68, 149, 149,
    149, 149, 149, 149, 149, 149, 36, 149, 149, 149, 149, 149, 149, 149, 149, 149, 149, 149, 149,
    149, 149, 149, 149, 149, 142, 149, 149, 149, 149, 43, 33, 149, 148, 149, 149, 149, 149, 149,
    149, 149, 22, 149, 149, 149, 149, 149, 149, 59, 149, 149, 149, 149, 116, 149, 149, 149, 149,
    149, 149, 149, 149, 82, 149, 149, 140, 149, 149, 149, 35, 149, 149, 149, 149, 149, 149, 149,
    149, 149, 149, 149, 149, 149, 149, 149, 149, 51, 149, 149, 149, 149, 149, 149, 149, 149, 47,
    149, 130, 149, 149, 149, 149, 149, 56, 96, 149, 149, 149, 149, 149, 149, 149, 149, 149, 149,
    149, 149, 149, 149, 149, 149, 149, 149, 149, 149, 149, 149, 149, 149, 14, 149, 27, 149, 149,
    149, 149, 149, 149, 149, 149, 149, 98, 149, 149, 149, 149, 149, 149, 149, 149, 149, 149, 149,
    149, 149, 149, 149, 149, 141, 149, 149, 115, 149, 65, 149, 149, 149, 124, 149, 149, 149, 149,
    100, 149, 18, 94, 85, 149, 149, 149, 149, 149, 149, 149, 149, 149, 149, 149, 45, 149, 149, 149,
    149, 149, 149, 149, 149, 149, 109, 149, 149, 149, 55, 149, 149, 149, 149, 149, 149, 149, 149,
    149, 149, 149, 149, 149, 149, 149, 149, 149, 149, 149, 149, 149, 149, 149, 149, 149, 149, 25,
    149, 113, 149, 149, 149, 149, 149, 149, 149, 149, 149, 149, 149, 149, 149, 149, 149, 149, 149,
    135, 149, 149, 149, 149, 149, 149, 149, 149, 149, 149, 149, 149, 149, 29, 149, 101, 149, 149,
    132, 149, 149, 145, 149, 149, 149, 149, 149, 149, 149, 149, 149, 149, 149, 149, 149, 149, 149,
    149, 149, 149, 149, 149, 149, 149, 149, 149, 149, 149, 149, 149, 149, 149, 149, 149, 149, 149,
    149, 15, 41, 77, 149, 149, 149, 149, 149, 149, 149, 149, 149, 149, 149, 149, 149, 149, 149,
    149, 149, 149, 149, 149, 149, 149, 149, 149, 149, 149, 149, 61, 149, 149, 149, 149, 146, 149,
    149, 149, 149, 149, 149, 149, 149, 149, 19, 123, 58, 149, 149, 131, 149, 149, 149, 149, 149,
    149, 21, 149, 149, 149, 31, 149, 149, 149, 149, 139, 149, 149, 149, 11, 86, 149, 149, 149, 24,
    149, 149, 149, 149, 149, 149, 149, 149, 149, 149, 149, 149, 149, 69, 149, 149, 149, 149, 149,
    149, 149, 84, 149, 149, 149, 149, 149, 149, 149, 149, 149, 149, 149, 149, 149, 149, 149, 149,
    149, 149, 149, 149, 149, 149, 149, 149, 149, 149, 149, 120, 149, 60, 149, 149, 149, 149, 149,
    149, 149, 149, 149, 149, 149, 149, 149, 149, 149, 149, 149, 149, 73, 149, 149, 149, 149, 149,
    149, 149, 149, 149, 149, 149, 149, 149, 149, 133, 149, 149, 149, 149, 149, 149, 149, 149, 149,
    149, 149, 149, 149, 149, 149, 149, 149, 149, 149, 149, 149, 149, 149, 149, 149, 149, 149, 149,
    149, 39, 149, 117, 149, 149, 149, 121, 149, 149, 149, 149, 149, 149, 78, 149, 149, 149, 149,
    62, 149, 149, 149, 149, 149, 149, 149, 149, 149, 149, 149, 149, 149, 149, 83, 149, 149, 149,
    149, 149, 76, 119, 149, 149, 149, 149, 149, 149, 149, 149, 149, 149, 149, 149, 149, 149, 149,
    149, 149, 149, 149, 149, 149, 149, 95, 149, 149, 136, 149, 149, 149, 149, 72, 149, 149, 149,
    149, 23, 149, 149, 87, 149, 149, 149, 149, 149, 149, 149, 149, 64, 149, 149, 149, 137, 149,
    149, 149, 149, 149, 149, 149, 149, 12, 149, 149, 149, 74, 149, 149, 149, 149, 34, 149, 149,
    149, 149, 149, 149, 149, 149, 50, 149, 149, 149, 149, 149, 149, 129, 149, 149, 149, 149, 91,
    149, 149, 149, 149, 149, 149, 149, 149, 149, 149, 149, 149, 149, 144, 149, 149, 149, 149, 102,
    149, 149, 149, 54, 149, 118, 38, 149, 149, 149, 149, 149, 149, 149, 149, 75, 149, 149, 149,
    149, 149, 149, 149, 149, 149, 149, 149, 149, 149, 143, 149, 149, 149, 149, 149, 149, 149, 149,
    149, 149, 149, 149, 149, 149, 149, 149, 149, 149, 149, 149, 149, 99, 149, 20, 149, 149, 149,
    149, 149, 149, 149, 79, 149, 149, 149, 149, 149, 149, 149, 149, 149, 149, 26, 110, 149, 149,
    149, 149, 149, 149, 149, 149, 149, 149, 149, 149, 149, 138, 149, 149, 149, 149, 149, 149, 149,
    149, 149, 149, 149, 149, 149, 149, 149, 149, 149, 42, 149, 149, 149, 149, 149, 149, 122, 149,
    149, 149, 149, 149, 112, 149, 103, 149, 149, 149, 149, 149, 149, 149, 13, 149, 149, 63, 149,
    149, 149, 149, 149, 149, 149, 149, 149, 149, 149, 149, 149, 149, 149, 149, 149, 149, 149, 92,
    149, 149, 149, 149, 149, 53, 149, 149, 149, 149, 149, 149, 149, 107, 149, 149, 149, 149, 149,
    149, 149, 149, 149, 149, 149, 149, 149, 149, 149, 149, 149, 149, 149, 71, 16, 149, 149, 149,
    149, 149, 149, 104, 149, 149, 149, 149, 149, 149, 149, 149, 32, 149, 149, 149, 37, 149, 149,
    149, 149, 149, 149, 149, 149, 149, 149, 105, 48, 149, 149, 149, 149, 149, 90, 149, 149, 149,
    149, 149, 108, 149, 149, 149, 149, 149, 149, 149, 149, 149, 149,
];

/// The place of a word in `SLOTS`.
#[inline]
fn hash_of(bytes: &[u8]) -> usize
    ensures hash { result ≡ hash bytes.now }
    ensures within { result < 1024 }
{
    let length = bytes.len();
    if length == 0 {
        return 0;
    }
    let first = bytes[0] as usize;
    let last = bytes[length - 1] as usize;
    let middle = bytes[length / 2] as usize;
    (97 * (length % 1024) + 89 * first + 105 * last + 51 * middle) % 1024
}

/// A word of a table, or the empty text past its end.
fn entry(table: &[&'static str], place: usize) -> &'static str
    ensures spelled { result.now ≡ unwrap_or (slice_get (map (λ w. w.now) table.now) place) [] }
{
    match table.get(place) {
        Some(word) => word,
        None => "",
    }
}

/// The word of a number; the empty text for a number past those of words.
#[inline]
#[tactic(auto, using(crate::proofs::Words::words_are))]
pub fn word(number: u8) -> &'static str
    requires { 11 ≤ number }
    ensures spelled { result.now ≡ word_at number }
{
    entry(&WORDS, (number - FIRST) as usize)
}

/// What `SLOTS` has at a place.
#[inline]
fn slot_at(place: usize) -> u8
    requires { place < 1024 }
    ensures { result ≡ slice_index SLOTS place }
{
    SLOTS[place]
}

/// The number that `SLOTS` has for a word.
#[inline]
fn slot_of(bytes: &[u8]) -> u8
    ensures slot { result ≡ slice_index SLOTS (hash bytes.now) }
    ensures least { 11 ≤ result }
    ensures most { result ≤ 149 }
{
    slot_at(hash_of(bytes))
}

/// The number of a keyword as it is spelled, or `OTHER`.
#[inline]
pub fn keyword_number(spelled: &str) -> u8
    ensures number { result ≡ number (keyword spelled.now) }
{
    let slot = slot_of(spelled.as_bytes());
    if word(slot) == spelled {
        slot
    } else if word(slot + 1) == spelled {
        slot + 1
    } else {
        OTHER
    }
}

/// The number of an annotation by its name, without `(@`, or `OTHER`.
#[inline]
pub fn annotation_number(name: &str) -> u8
    ensures number { result ≡ number (annotation (40 ∷ 64 ∷ name.now)) }
{
    if name == "name" {
        NAME
    } else if name == "custom" {
        CUSTOM
    } else if name == "producers" {
        PRODUCERS
    } else {
        OTHER
    }
}
