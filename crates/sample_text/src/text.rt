//! The text of the component.

ghost use Rattle.std.specs.Prelude.{◌≡◌, ◌++◌, string_bytes, IfOk, OnOk};
ghost use Rattle.sample_text.specs.Sample.{declared, used, sample_text};

use std::alloc::{AllocError, Global};
use std::fmt::Write;

/// Appends the type of a number: a list of the type before it, or of `u8` for the first.
fn push_declared(text: &mut String, number: u32) -> Result<(), AllocError>
    ensures { OnOk result (string_bytes text.new ≡ string_bytes text.old ++ declared number) }
{
    match number.checked_sub(1) {
        None => write!(text, " (type $t{number} (list u8))"),
        Some(before) => write!(text, " (type $t{number} (list $t{before}))"),
    }
}

/// Appends the type of the inner component that is a list of the type of a number.
fn push_used(text: &mut String, number: u32) -> Result<(), AllocError>
    ensures { OnOk result (string_bytes text.new ≡ string_bytes text.old ++ used number) }
{
    write!(text, " (type (list $t{number}))")
}

/// The text of a component with `count` types, each a list of the one before it and the first one of `u8`, behind which stands an inner
/// component with a list of each of them. For 2 it is
///
/// `(component (type $t0 (list u8)) (type $t1 (list $t0)) (component (type (list $t0)) (type (list $t1))))`.
pub fn text_of(alloc: Global, count: u32) -> Result<String, AllocError>
    ensures { IfOk result (λ text. string_bytes text ≡ sample_text count) }
{
    let mut text = String::from_str(alloc, "(component")?;
    for number in 0..count {
        push_declared(&mut text, number)?;
    }
    text.push_str(" (component")?;
    for number in 0..count {
        push_used(&mut text, number)?;
    }
    text.push_str("))")?;
    Ok(text)
}
