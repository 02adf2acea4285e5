//! Each keyword's type is that of its word: the names of the types against the words that they display.

use wast_parser::{Note, Peek, annotation, kw};

/// A word as its type displays it.
fn shown<T: Peek>() -> &'static str {
    T::display()
}

/// Whether each word is displayed as it is spelled.
fn are_spelled(table: &[(&str, &str)]) -> bool {
    table.iter().all(|(word, displayed)| word == displayed)
}

#[test]
fn words_of_definitions(rt: HostRuntime) {
    assert!(rt;
        are_spelled(&[
            ("component", shown::<kw::component>()),
            ("binary", shown::<kw::binary>()),
            ("module", shown::<kw::module>()),
            ("core", shown::<kw::core_>()),
            ("instance", shown::<kw::instance>()),
            ("instantiate", shown::<kw::instantiate>()),
            ("func", shown::<kw::func>()),
            ("alias", shown::<kw::alias>()),
            ("export", shown::<kw::export>()),
            ("canon", shown::<kw::canon>()),
            ("type", shown::<kw::type_>()),
            ("start", shown::<kw::start>()),
            ("value", shown::<kw::value>()),
            ("result", shown::<kw::result>()),
            ("language", shown::<kw::language>()),
            ("sdk", shown::<kw::sdk>()),
            ("processed-by", shown::<kw::processed_by>()),
            ("rec", shown::<kw::rec>()),
            ("outer", shown::<kw::outer>()),
            ("table", shown::<kw::table>()),
            ("memory", shown::<kw::memory>()),
            ("global", shown::<kw::global>()),
            ("tag", shown::<kw::tag>()),
        ])
    );
}

#[test]
fn words_of_imports_and_types(rt: HostRuntime) {
    assert!(rt;
        are_spelled(&[
            ("import", shown::<kw::import>()),
            ("interface", shown::<kw::interface>()),
            ("implements", shown::<kw::implements>()),
            ("version-suffix", shown::<kw::version_suffix>()),
            ("external-id", shown::<kw::external_id>()),
            ("eq", shown::<kw::eq>()),
            ("sub", shown::<kw::sub>()),
            ("resource", shown::<kw::resource>()),
            ("with", shown::<kw::with>()),
            ("rep", shown::<kw::rep>()),
            ("dtor", shown::<kw::dtor>()),
            ("record", shown::<kw::record_>()),
            ("field", shown::<kw::field>()),
            ("variant", shown::<kw::variant>()),
            ("case", shown::<kw::case>()),
            ("list", shown::<kw::list>()),
            ("map", shown::<kw::map>()),
            ("tuple", shown::<kw::tuple>()),
            ("flags", shown::<kw::flags>()),
            ("enum", shown::<kw::enum_>()),
            ("option", shown::<kw::option>()),
            ("error", shown::<kw::error>()),
            ("own", shown::<kw::own>()),
        ])
    );
}

#[test]
fn words_of_options(rt: HostRuntime) {
    assert!(rt;
        are_spelled(&[
            ("borrow", shown::<kw::borrow>()),
            ("stream", shown::<kw::stream>()),
            ("future", shown::<kw::future>()),
            ("async", shown::<kw::async_>()),
            ("param", shown::<kw::param>()),
            ("lift", shown::<kw::lift>()),
            ("string-encoding=utf8", shown::<kw::string_encoding_utf8>()),
            (
                "string-encoding=utf16",
                shown::<kw::string_encoding_utf16>()
            ),
            (
                "string-encoding=latin1+utf16",
                shown::<kw::string_encoding_latin1_utf16>()
            ),
            ("gc", shown::<kw::gc>()),
            ("realloc", shown::<kw::realloc>()),
            ("post-return", shown::<kw::post_return>()),
            ("callback", shown::<kw::callback>()),
            ("core-type", shown::<kw::core_type>()),
            ("lower", shown::<kw::lower>()),
            ("resource.new", shown::<kw::resource_new>()),
            ("resource.drop", shown::<kw::resource_drop>()),
            ("resource.rep", shown::<kw::resource_rep>()),
            ("thread.spawn-ref", shown::<kw::thread_spawn_ref>()),
            (
                "thread.spawn-indirect",
                shown::<kw::thread_spawn_indirect>()
            ),
            ("thread.new-indirect", shown::<kw::thread_new_indirect>()),
            (
                "thread.available-parallelism",
                shown::<kw::thread_available_parallelism>()
            ),
            (
                "thread.available_parallelism",
                shown::<kw::thread_available_parallelism_>()
            ),
        ])
    );
}

#[test]
fn words_of_built_ins(rt: HostRuntime) {
    assert!(rt;
        are_spelled(&[
            ("task.return", shown::<kw::task_return>()),
            ("task.cancel", shown::<kw::task_cancel>()),
            ("context.get", shown::<kw::context_get>()),
            ("context.set", shown::<kw::context_set>()),
            ("subtask.drop", shown::<kw::subtask_drop>()),
            ("subtask.cancel", shown::<kw::subtask_cancel>()),
            ("stream.new", shown::<kw::stream_new>()),
            ("future.new", shown::<kw::future_new>()),
            ("stream.read", shown::<kw::stream_read>()),
            ("future.read", shown::<kw::future_read>()),
            ("stream.write", shown::<kw::stream_write>()),
            ("future.write", shown::<kw::future_write>()),
            ("stream.forward", shown::<kw::stream_forward>()),
            ("future.forward", shown::<kw::future_forward>()),
            ("stream.cancel-read", shown::<kw::stream_cancel_read>()),
            ("future.cancel-read", shown::<kw::future_cancel_read>()),
            ("stream.cancel-write", shown::<kw::stream_cancel_write>()),
            ("future.cancel-write", shown::<kw::future_cancel_write>()),
            ("stream.drop-readable", shown::<kw::stream_drop_readable>()),
            ("future.drop-readable", shown::<kw::future_drop_readable>()),
            ("stream.drop-writable", shown::<kw::stream_drop_writable>()),
            ("future.drop-writable", shown::<kw::future_drop_writable>()),
            ("error-context.new", shown::<kw::error_context_new>()),
        ])
    );
}

#[test]
fn words_of_streams_and_waitables(rt: HostRuntime) {
    assert!(rt;
        are_spelled(&[
            (
                "error-context.debug-message",
                shown::<kw::error_context_debug_message>()
            ),
            ("error-context.drop", shown::<kw::error_context_drop>()),
            ("backpressure.inc", shown::<kw::backpressure_inc>()),
            ("backpressure.dec", shown::<kw::backpressure_dec>()),
            ("waitable-set.new", shown::<kw::waitable_set_new>()),
            ("waitable-set.drop", shown::<kw::waitable_set_drop>()),
            ("waitable.join", shown::<kw::waitable_join>()),
            ("waitable-set.wait", shown::<kw::waitable_set_wait>()),
            ("waitable-set.poll", shown::<kw::waitable_set_poll>()),
            ("bool", shown::<kw::bool>()),
            ("s8", shown::<kw::s8>()),
            ("u8", shown::<kw::u8>()),
            ("s16", shown::<kw::s16>()),
            ("u16", shown::<kw::u16>()),
            ("s32", shown::<kw::s32>()),
            ("u32", shown::<kw::u32>()),
            ("s64", shown::<kw::s64>()),
            ("u64", shown::<kw::u64>()),
            ("f32", shown::<kw::f32>()),
            ("f64", shown::<kw::f64>()),
            ("char", shown::<kw::char>()),
            ("string", shown::<kw::string>()),
            ("error-context", shown::<kw::error_context>()),
        ])
    );
}

#[test]
fn words_of_primitive_and_core_types(rt: HostRuntime) {
    assert!(rt;
        are_spelled(&[
            ("float32", shown::<kw::float32>()),
            ("float64", shown::<kw::float64>()),
            ("thread.index", shown::<kw::thread_index>()),
            ("thread.resume-later", shown::<kw::thread_resume_later>()),
            ("thread.suspend", shown::<kw::thread_suspend>()),
            ("thread.yield", shown::<kw::thread_yield>()),
            (
                "thread.suspend-then-resume",
                shown::<kw::thread_suspend_then_resume>()
            ),
            (
                "thread.yield-then-resume",
                shown::<kw::thread_yield_then_resume>()
            ),
            (
                "thread.suspend-then-promote",
                shown::<kw::thread_suspend_then_promote>()
            ),
            (
                "thread.yield-then-promote",
                shown::<kw::thread_yield_then_promote>()
            ),
            ("i32", shown::<kw::i32>()),
            ("i64", shown::<kw::i64>()),
            ("v128", shown::<kw::v128>()),
            ("funcref", shown::<kw::funcref>()),
            ("externref", shown::<kw::externref>()),
            ("ref", shown::<kw::ref_>()),
            ("null", shown::<kw::null>()),
            ("extern", shown::<kw::extern_>()),
            ("mut", shown::<kw::mut_>()),
            ("local", shown::<kw::local>()),
        ])
    );
}

#[test]
fn registered_annotations(rt: HostRuntime) {
    assert!(rt;
        are_spelled(&[
            ("(@name", shown::<annotation::name>()),
            ("(@custom", shown::<annotation::custom>()),
            ("(@producers", shown::<annotation::producers>()),
            ("(@dylink.0", shown::<annotation::dylink_0>()),
            (
                "(@metadata.code.branch_hint",
                shown::<annotation::metadata_code_branch_hint>()
            ),
            ("", shown::<Note<5>>()),
        ])
    );
}
