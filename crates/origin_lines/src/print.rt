//! The lines of origins.

ghost use Rattle.std.specs.Prelude.{◌≡◌, ◌++◌, [], string_bytes, IfOk, OnOk};
ghost use Rattle.comp_wire.specs.Origins.{origin_of, origins_of};
ghost use Rattle.origin_lines.specs.Lines.{origin_words, line, two_spaces, lines_behind};

use comp_wire::{Origin, ScopeOrigins};
use std::alloc::{AllocError, Global};
use std::fmt::Write;

/// Appends what an origin is called, with its numbers.
fn push_words(out: &mut String, origin: Origin) -> Result<(), AllocError>
    ensures { OnOk result (string_bytes out.new ≡ string_bytes out.old ++ origin_words (origin_of origin)) }
{
    match origin {
        Origin::Written(def) => write!(out, "written {def}"),
        Origin::InlineType { def, place } => write!(out, "inline-type {def} {place}"),
        Origin::Bundle { def, place } => write!(out, "bundle {def} {place}"),
        Origin::InlineExport { def, name } => write!(out, "inline-export {def} {name}"),
        Origin::ExportStep { def, place, step } => write!(out, "export-step {def} {place} {step}"),
        Origin::OuterAlias { def, place } => write!(out, "outer-alias {def} {place}"),
        Origin::NameSection => write!(out, "name-section"),
    }
}

/// Appends the line of an origin behind `indent`.
fn push_line(out: &mut String, indent: &str, origin: Origin) -> Result<(), AllocError>
    ensures { OnOk result (string_bytes out.new ≡ string_bytes out.old ++ line indent.now (origin_of origin)) }
{
    out.push_str(indent)?;
    push_words(out, origin)?;
    out.push_str("\n")
}

/// A text with two spaces behind it.
fn two_spaces_behind(alloc: Global, indent: &str) -> Result<String, AllocError>
    ensures { IfOk result (λ deeper. string_bytes deeper ≡ indent.now ++ two_spaces) }
{
    let mut deeper = String::from_str(alloc, indent)?;
    deeper.push_str("  ")?;
    Ok(deeper)
}

/// Appends the lines of the origins of a scope to `out`: for each definition, in order, `indent` and what its origin is called, with its
/// numbers, and behind it the lines of the scope that it holds, indented by two more spaces.
///
/// For want of memory `out` has some of these lines, and is fit for nothing more.
pub fn push_lines(
    alloc: Global,
    out: &mut String,
    indent: &str,
    scope: &ScopeOrigins,
) -> Result<(), AllocError>
    ensures { OnOk result (string_bytes out.new ≡ string_bytes out.old ++ lines_behind indent.now (origins_of scope.now)) }
{
    for item in scope.items.as_slice() {
        push_line(out, indent, item.origin)?;
        if let Some(inner) = &item.inner {
            let deeper = two_spaces_behind(alloc, indent)?;
            push_lines(alloc, out, deeper.as_str(), inner)?;
        }
    }
    Ok(())
}

/// The lines of the origins of a component, those of its inner scopes indented.
pub fn origin_lines(alloc: Global, scope: &ScopeOrigins) -> Result<String, AllocError>
    ensures { IfOk result (λ lines. string_bytes lines ≡ lines_behind [] (origins_of scope.now)) }
{
    let mut lines = String::new(alloc);
    push_lines(alloc, &mut lines, "", scope)?;
    Ok(lines)
}
