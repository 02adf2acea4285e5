//! References.

use crate::answer::print_read;
use comp_items::{CanonOpt, CoreItemRef, CorePrefixedRef, IndexOrRef, ItemRef};
use std::io;
use wast_parser::{ParseBuffer, Parser, Peek, kw};

/// Prints a reference to an item, by the type of this name.
pub fn print_reference<'a>(
    rt: &HostRuntime,
    name: &str,
    buffer: &'a ParseBuffer<'a>,
) -> Result<(), io::Error> {
    match name {
        "module" => print_read::<ItemRef<'a, kw::module>>(rt, buffer),
        "func" => print_read::<ItemRef<'a, kw::func>>(rt, buffer),
        "value" => print_read::<ItemRef<'a, kw::value>>(rt, buffer),
        "type" => print_read::<ItemRef<'a, kw::type_>>(rt, buffer),
        "component" => print_read::<ItemRef<'a, kw::component>>(rt, buffer),
        "instance" => print_read::<ItemRef<'a, kw::instance>>(rt, buffer),
        "index-or-module" => print_read::<IndexOrRef<'a, kw::module>>(rt, buffer),
        "index-or-func" => print_read::<IndexOrRef<'a, kw::func>>(rt, buffer),
        "index-or-value" => print_read::<IndexOrRef<'a, kw::value>>(rt, buffer),
        "index-or-type" => print_read::<IndexOrRef<'a, kw::type_>>(rt, buffer),
        "index-or-component" => print_read::<IndexOrRef<'a, kw::component>>(rt, buffer),
        "index-or-instance" => print_read::<IndexOrRef<'a, kw::instance>>(rt, buffer),
        _ => println!(rt; "  no type"),
    }
}

/// Prints a reference to a core item, by the type of this name.
pub fn print_core_reference<'a>(
    rt: &HostRuntime,
    name: &str,
    buffer: &'a ParseBuffer<'a>,
) -> Result<(), io::Error> {
    match name {
        "func" => print_read::<CoreItemRef<'a, kw::func>>(rt, buffer),
        "table" => print_read::<CoreItemRef<'a, kw::table>>(rt, buffer),
        "memory" => print_read::<CoreItemRef<'a, kw::memory>>(rt, buffer),
        "type" => print_read::<CoreItemRef<'a, kw::type_>>(rt, buffer),
        "instance" => print_read::<CoreItemRef<'a, kw::instance>>(rt, buffer),
        "prefixed-func" => print_read::<CorePrefixedRef<'a, kw::func, false>>(rt, buffer),
        "prefixed-type" => print_read::<CorePrefixedRef<'a, kw::type_, false>>(rt, buffer),
        "older-func" => print_read::<CorePrefixedRef<'a, kw::func, true>>(rt, buffer),
        "older-type" => print_read::<CorePrefixedRef<'a, kw::type_, true>>(rt, buffer),
        _ => println!(rt; "  no type"),
    }
}

/// Tells whether the next tokens are those of the type of this name.
pub fn print_peek<'a>(
    rt: &HostRuntime,
    name: &str,
    buffer: &'a ParseBuffer<'a>,
) -> Result<(), io::Error> {
    match name {
        "func" => print_test::<ItemRef<'a, kw::func>>(rt, buffer),
        "type" => print_test::<ItemRef<'a, kw::type_>>(rt, buffer),
        "core-memory" => print_test::<CoreItemRef<'a, kw::memory>>(rt, buffer),
        "option" => print_test::<CanonOpt<'a>>(rt, buffer),
        _ => println!(rt; "  no type"),
    }
}

/// Tells whether a test holds at the start of a text.
fn print_test<'a, T: Peek>(rt: &HostRuntime, buffer: &'a ParseBuffer<'a>) -> Result<(), io::Error> {
    let parser = Parser::at_start(buffer);
    println!(rt; "  {}", parser.peek::<T>())
}
