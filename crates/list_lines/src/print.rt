//! The lines of a listing, and that of its order.

ghost use Rattle.std.specs.Prelude.{◌≡◌, ◌++◌, string_bytes, IfOk, OnOk};
ghost use Rattle.list_lines.specs.Lines.{space_name, indent, up_words, spot_words, at_words, led_words, line_head, list_line, list_lines, order_line};

use comp_list::{Led, Line, Spot};
use comp_model::Space;
use comp_order::Order;
use std::alloc::{AllocError, Global};
use std::fmt::Write;

/// The printed name of a space.
fn space_name(space: Space) -> &'static str
    ensures { result.now ≡ space_name space }
{
    match space {
        Space::CoreFunc => "core-func",
        Space::CoreTable => "core-table",
        Space::CoreMemory => "core-memory",
        Space::CoreGlobal => "core-global",
        Space::CoreTag => "core-tag",
        Space::CoreType => "core-type",
        Space::CoreModule => "core-module",
        Space::CoreInstance => "core-instance",
        Space::Func => "func",
        Space::Value => "value",
        Space::Ty => "type",
        Space::Component => "component",
        Space::Instance => "instance",
    }
}

/// Appends two spaces for each level.
fn push_indent(out: &mut String, level: u32) -> Result<(), AllocError>
    ensures { OnOk result (string_bytes out.new ≡ string_bytes out.old ++ indent level) }
{
    for _ in 0..level {
        out.push_str("  ")?;
    }
    Ok(())
}

/// Appends the numbers of a definition, of a reference in it and of its index, and the space.
fn push_head(out: &mut String, line: &Line) -> Result<(), AllocError>
    ensures { OnOk result (string_bytes out.new ≡ string_bytes out.old ++ line_head line.now) }
{
    let def = line.def;
    let place = line.place;
    let space = space_name(line.space);
    let index = line.index;
    write!(out, "{def} {place} {space} {index}")
}

/// Appends the count of an outer alias.
fn push_up(out: &mut String, up: Option<u32>) -> Result<(), AllocError>
    ensures { OnOk result (string_bytes out.new ≡ string_bytes out.old ++ up_words up) }
{
    match up {
        None => Ok(()),
        Some(count) => write!(out, " up {count}"),
    }
}

/// Appends what an index is that of.
fn push_at(out: &mut String, at: Option<Spot>) -> Result<(), AllocError>
    ensures { OnOk result (string_bytes out.new ≡ string_bytes out.old ++ at_words at) }
{
    match at {
        None => out.push_str(" -> none"),
        Some(spot) => {
            let def = spot.def;
            let part = spot.part;
            write!(out, " -> {def} {part}")
        }
    }
}

/// Appends where an outer alias leads.
fn push_led(out: &mut String, led: Led) -> Result<(), AllocError>
    ensures { OnOk result (string_bytes out.new ≡ string_bytes out.old ++ led_words led) }
{
    match led {
        Led::Not => Ok(()),
        Led::Nowhere => out.push_str(" => none"),
        Led::To { up, spot } => {
            let def = spot.def;
            let part = spot.part;
            write!(out, " => {up} {def} {part}")
        }
    }
}

/// Appends the line of a reference.
fn push_line(out: &mut String, line: &Line) -> Result<(), AllocError>
    ensures { OnOk result (string_bytes out.new ≡ string_bytes out.old ++ list_line line.now) }
{
    push_indent(out, line.level)?;
    push_head(out, line)?;
    push_up(out, line.up)?;
    push_at(out, line.at)?;
    push_led(out, line.led)?;
    out.push_str("\n")
}

/// The lines of a listing.
pub fn list_lines(alloc: Global, lines: &[Line]) -> Result<String, AllocError>
    ensures { IfOk result (λ out. string_bytes out ≡ list_lines lines.now) }
{
    let mut out = String::new(alloc);
    for line in lines {
        push_line(&mut out, line)?;
    }
    Ok(out)
}

/// The line that says whether a listing is in order, or which of its lines isn't.
pub fn order_line(alloc: Global, order: Order) -> Result<String, AllocError>
    ensures { IfOk result (λ out. string_bytes out ≡ order_line order) }
{
    let mut out = String::new(alloc);
    match order {
        Order::Ordered => out.push_str("ordered\n")?,
        Order::Index { line } => writeln!(out, "index at line {line}")?,
        Order::Outer { line } => writeln!(out, "outer at line {line}")?,
    }
    Ok(out)
}
