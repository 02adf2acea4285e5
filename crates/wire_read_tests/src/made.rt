//! Binaries that are too long to stand in a table.

use std::alloc::{AllocError, Global};

/// The magic number, the version and the layer of a component.
const PREAMBLE: [u8; 8] = [0x00, 0x61, 0x73, 0x6d, 0x0d, 0x00, 0x01, 0x00];

/// Puts a number below 2^35 behind bytes, in unsigned LEB128.
fn push_number(bytes: &mut Vec<u8>, number: usize) -> Result<(), AllocError> {
    let mut left = number;
    for _ in 0..4 {
        if left >= 128 {
            bytes.push((left % 128) as u8 + 128)?;
            left = left / 128;
        }
    }
    bytes.push((left % 128) as u8)?;
    Ok(())
}

/// Puts bytes behind others.
fn push_bytes(bytes: &mut Vec<u8>, more: &[u8]) -> Result<(), AllocError> {
    for byte in more {
        bytes.push(*byte)?;
    }
    Ok(())
}

/// So many components in each other.
pub fn nested_components(alloc: Global, count: u32) -> Result<Vec<u8>, AllocError> {
    let mut bytes = Vec::new(alloc);
    for i in 0..count {
        let mut outer = Vec::new(alloc);
        push_bytes(&mut outer, &PREAMBLE)?;
        if i != 0 {
            outer.push(0x04)?;
            push_number(&mut outer, bytes.len())?;
            push_bytes(&mut outer, &bytes)?;
        }
        bytes = outer;
    }
    Ok(bytes)
}

/// A component with types in each other, all scopes counted: component types, whose innermost declares nothing.
pub fn nested_types(alloc: Global, count: u32) -> Result<Vec<u8>, AllocError> {
    let mut body = Vec::new(alloc);
    body.push(0x01)?;
    for i in 1..count {
        if i != 1 {
            push_bytes(&mut body, &[0x01, 0x01])?;
        }
        body.push(0x41)?;
    }
    body.push(0x00)?;
    let mut bytes = Vec::new(alloc);
    push_bytes(&mut bytes, &PREAMBLE)?;
    bytes.push(0x07)?;
    push_number(&mut bytes, body.len())?;
    push_bytes(&mut bytes, &body)?;
    Ok(bytes)
}

/// A component of so many bytes with one custom section, whose length has four bytes.
pub fn one_custom(alloc: Global, length: u32) -> Result<Vec<u8>, AllocError> {
    let mut bytes = Vec::new(alloc);
    push_bytes(&mut bytes, &PREAMBLE)?;
    bytes.push(0x00)?;
    push_number(&mut bytes, length.saturating_sub(13) as usize)?;
    bytes.push(0x00)?;
    for _ in 14..length {
        bytes.push(0xff)?;
    }
    Ok(bytes)
}
