//! Texts of core modules that are read, and what is measured of their fields; the reader of one annotation.

use bumpalo::Bump;
use core_syntax::{
    Export, ExportKind, Module, ModuleField, ModuleKind, Producers, core_uncovered, core_weight,
    is_resolved_core,
};
use std::test::Fail;
use wast_parser::{Error, ErrorKind, FormKind, Id, Index, ParseBuffer, Span, parse};

/// What a module holds.
#[derive(Clone, Copy)]
enum Held {
    /// Fields: their weight, the first form that is never written and where it stands, and whether they are resolved.
    Fields(u64, Option<(FormKind, u32)>, bool),
    /// So many strings.
    Strings(usize),
}

/// What stands in the parentheses of a module, and what it holds.
///
/// A field, an inline export, a parameter, a result, a local and an instruction weigh 32 each, and each byte of a text, an id or a
/// label weighs 1.
const MODULES: [(&str, Held); 14] = [
    ("module", Held::Fields(0, None, true)),
    (
        "module (elem)",
        Held::Fields(32, Some((FormKind::U7, 8)), true),
    ),
    (
        "module (type $t (func (param $p i32) (param (@name \"lab\") i64) (result f32)))",
        Held::Fields(33 + 33 + 35 + 32, None, true),
    ),
    (
        "module (func (export \"run\") (local i32) nop drop)",
        Held::Fields(32 + 35 + 32 + 64, None, false),
    ),
    (
        "module (func (export \"run\") (type $t) (local i32) nop drop)",
        Held::Fields(32 + 35 + 32 + 64, None, false),
    ),
    (
        "module (func (export \"run\") (type 0) (local i32) nop local.get $p)",
        Held::Fields(32 + 35 + 32 + 64, None, false),
    ),
    (
        "module (func (export \"run\") (local anyref) nop block)",
        Held::Fields(32 + 35 + 32 + 64, Some((FormKind::U6, 8)), false),
    ),
    (
        "module (memory (import \"m\" \"n\") 1) (export \"x\" (func $i))",
        Held::Fields(34 + 33, None, false),
    ),
    (
        "module (memory (import \"m\" \"n\") 1) (func (export \"run\") (local i32) nop drop)",
        Held::Fields(34 + 163, None, false),
    ),
    (
        "module (memory (import \"m\" \"n\") 1) (func (export \"run\") (local i32) nop block)",
        Held::Fields(34 + 163, Some((FormKind::U7, 36)), false),
    ),
    (
        "module (type $t (func (param $p i32) (param (@name \"lab\") i64) (result f32))) (func (export \"run\") (type 0) (local i32) nop call 0) (memory (import \"m\" \"n\") 1)",
        Held::Fields(133 + 163 + 34, None, true),
    ),
    (
        "module (export \"x\" (global $i))",
        Held::Fields(33, None, false),
    ),
    ("module binary", Held::Strings(0)),
    ("module binary \"\\00asm\" \"\\ff\"", Held::Strings(2)),
];

/// The refusal of a form.
fn refusal(form: Option<(FormKind, u32)>) -> Option<Error> {
    match form {
        Some((kind, offset)) => Some(Error {
            kind: ErrorKind::Form(kind),
            offset,
        }),
        None => None,
    }
}

/// Whether a module holds this.
fn holds(kind: &ModuleKind<'_>, held: Held) -> bool {
    match (kind, held) {
        (ModuleKind::Text(fields), Held::Fields(weight, form, resolved)) => {
            core_weight(fields) == weight
                && core_uncovered(fields) == refusal(form)
                && is_resolved_core(fields) == resolved
        }
        (ModuleKind::Binary(strings), Held::Strings(count)) => strings.len() == count,
        _ => false,
    }
}

#[test]
fn modules(rt: HostRuntime) -> Result<(), Fail> {
    for (text, held) in MODULES {
        let arena = Bump::new(rt.alloc());
        let buffer = ParseBuffer::new(rt.alloc(), text, &arena, false)?;
        let found = match parse::<Module<'_>>(rt.alloc(), &buffer) {
            Ok(module) => holds(&module.kind, held),
            Err(_) => false,
        };
        assert!(rt; found, "{text}");
    }
    Ok(())
}

/// An export of the item `$i`, which stands at 4.
fn export(kind: ExportKind) -> ModuleField<'static> {
    ModuleField::Export(Export {
        span: Span::from_offset(4),
        name: "x",
        kind,
        item: Index::Id(Id::new("i", Span::from_offset(4))),
    })
}

#[test]
fn an_export_that_no_text_spells(rt: HostRuntime) -> Result<(), Fail> {
    let fields = [
        export(ExportKind::Tag),
        ModuleField::Other(Span::from_offset(5)),
    ];
    assert!(rt; core_uncovered(&fields) == refusal(Some((FormKind::U7, 4))));
    Ok(())
}

/// What stands in the group of the annotation, and how many words it has, or the offset at which it is refused.
const PRODUCERS: [(&str, Result<usize, u32>); 5] = [
    ("(@producers", Ok(0)),
    (
        "(@producers (language \"Rust\" \"1\") (sdk \"a\" \"\") (processed-by \"b\" \"2\")",
        Ok(3),
    ),
    ("(@producers (maker \"a\" \"b\")", Err(13)),
    ("(@producers (sdk \"a\")", Err(20)),
    ("(@custom", Err(0)),
];

#[test]
fn producers(rt: HostRuntime) -> Result<(), Fail> {
    for (text, expected) in PRODUCERS {
        let arena = Bump::new(rt.alloc());
        let buffer = ParseBuffer::new(rt.alloc(), text, &arena, false)?;
        let found = match parse::<Producers<'_>>(rt.alloc(), &buffer) {
            Ok(producers) => Ok(producers.fields.len()),
            Err(error) => Err(error.offset),
        };
        assert!(rt; found == expected, "{text}");
    }
    Ok(())
}
