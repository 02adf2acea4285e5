//! What bytes are read as, in print.

use bumpalo::Bump;
use item_read::read;
use std::alloc::Global;
use std::io;
use wire_read::{ReadError, ReadKind, read_tree};

/// How many definitions the component has that the bytes are read as, or why they aren't read.
pub fn answer(alloc: Global, bytes: &[u8]) -> Result<usize, ReadError> {
    let bump = Bump::new(alloc);
    match read_tree(alloc, &bump, bytes) {
        Ok(scope) => Ok(scope.defs.len()),
        Err(refusal) => Err(refusal),
    }
}

/// Whether two refusals are of one kind.
fn is_kind(first: ReadKind, second: ReadKind) -> bool {
    match (first, second) {
        (ReadKind::TooBig { .. }, ReadKind::TooBig { .. }) => true,
        (ReadKind::NotComponent, ReadKind::NotComponent) => true,
        (ReadKind::TooDeep, ReadKind::TooDeep) => true,
        _ => false,
    }
}

/// Whether bytes are read with their fields as they are read as rows: as many definitions, or a refusal of that kind at that offset.
fn is_read_alike(alloc: Global, bytes: &[u8]) -> bool {
    match (answer(alloc, bytes), read(alloc, bytes)) {
        (Ok(definitions), Ok(tree)) => tree.defs.as_slice().len() == definitions,
        (Err(rows), Err(fields)) => {
            rows.offset == fields.offset && is_kind(rows.kind, fields.kind)
        }
        _ => false,
    }
}

/// Writes how many definitions the component has that the bytes are read as, or the refusal; and a line more where they are read otherwise
/// with their fields.
pub fn print_answer(rt: &HostRuntime, bytes: &[u8]) -> Result<(), io::Error> {
    print_rows(rt, bytes)?;
    if !is_read_alike(rt.alloc(), bytes) {
        return println!(rt; "  otherwise with fields");
    }
    Ok(())
}

/// Writes how many definitions the component has that the bytes are read as, or the refusal.
fn print_rows(rt: &HostRuntime, bytes: &[u8]) -> Result<(), io::Error> {
    match answer(rt.alloc(), bytes) {
        Ok(definitions) => println!(rt; "  {} definitions", definitions),
        Err(refusal) => match refusal.kind {
            ReadKind::TooBig { found, limit } => {
                println!(rt; "  TooBig {} {} at {}", found, limit, refusal.offset)
            }
            ReadKind::NotComponent => println!(rt; "  NotComponent at {}", refusal.offset),
            ReadKind::TooDeep => println!(rt; "  TooDeep at {}", refusal.offset),
            ReadKind::NoMemory => println!(rt; "  NoMemory"),
        },
    }
}

/// How many lists of bytes were read, and how many were none of a component.
#[derive(Clone, Copy)]
struct Count {
    /// Those that were read.
    read: u32,
    /// Those that are no component.
    refused: u32,
    /// All others, and those that are read otherwise with their fields.
    other: u32,
}

impl Count {
    /// Reads one more list of bytes.
    fn add(&mut self, alloc: Global, bytes: &[u8]) {
        if !is_read_alike(alloc, bytes) {
            self.other = self.other.saturating_add(1);
            return;
        }
        match answer(alloc, bytes) {
            Ok(_) => self.read = self.read.saturating_add(1),
            Err(refusal) => match refusal.kind {
                ReadKind::NotComponent => self.refused = self.refused.saturating_add(1),
                _ => self.other = self.other.saturating_add(1),
            },
        }
    }
}

/// Nothing counted.
fn nothing() -> Count {
    Count {
        read: 0,
        refused: 0,
        other: 0,
    }
}

/// Writes a count behind a word.
fn print_count(rt: &HostRuntime, word: &str, count: &Count) -> Result<(), io::Error> {
    println!(rt;
        "  {}: {} read, {} no component, {} other",
        word, count.read, count.refused, count.other
    )
}

/// Writes how many of the fronts of these bytes are read, and how many of the lists that differ from them in one bit.
pub fn print_each(rt: &HostRuntime, digits: &str) -> Result<(), io::Error> {
    match hex::decode(rt.alloc(), digits) {
        Ok(mut bytes) => {
            let mut fronts = nothing();
            for length in 0..bytes.len() {
                fronts.add(rt.alloc(), &bytes[..length]);
            }
            print_count(rt, "fronts", &fronts)?;
            let mut turned = nothing();
            for at in 0..bytes.len() {
                for bit in 0..8u32 {
                    let byte = bytes[at];
                    bytes[at] = byte ^ (1u8 << bit);
                    turned.add(rt.alloc(), &bytes);
                    bytes[at] = byte;
                }
            }
            print_count(rt, "bits", &turned)
        }
        Err(_) => println!(rt; "  not hexadecimal"),
    }
}
