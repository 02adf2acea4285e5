//! Components that weigh as much as one may, and more.

use std::alloc::{AllocError, Global};
use std::test::Fail;
use wast_component::{component_binary, encode_component_text};
use wast_parser::{Error, ErrorKind};

/// The text of a component with so many fields of one spelling.
fn fields(alloc: Global, field: &str, count: usize) -> Result<String, AllocError> {
    let mut text = String::from_str(alloc, "(component")?;
    for _ in 0..count {
        text.push_str(field)?;
    }
    text.push_str(")")?;
    Ok(text)
}

/// Whether both calls refuse a text because its component weighs so much.
fn too_heavy(alloc: Global, text: &str, found: u64) -> bool {
    let refusal = Error {
        kind: ErrorKind::TooBig {
            found,
            limit: 67_108_864,
        },
        offset: 0,
    };
    match encode_component_text(alloc, text, false) {
        Ok(_) => return false,
        Err(error) => {
            if error != refusal {
                return false;
            }
        }
    }
    match component_binary(alloc, text, false) {
        Ok(_) => false,
        Err(error) => error == refusal,
    }
}

// A type weighs 96. The count 699050 and the length 699053 have three bytes each.
#[test]
fn heaviest_types(rt: HostRuntime) -> Result<(), Fail> {
    let text = fields(rt.alloc(), " (type u8)", 699_050)?;
    let encoded = encode_component_text(rt.alloc(), text.as_str(), false)?;
    assert_eq!(rt; encoded.bytes.len(), 8 + 1 + 3 + 3 + 699_050);
    assert_eq!(rt; encoded.origins.items.as_slice().len(), 699_050);
    Ok(())
}

#[test]
fn too_many_types(rt: HostRuntime) -> Result<(), Fail> {
    let text = fields(rt.alloc(), " (type u8)", 699_051)?;
    assert!(rt; too_heavy(rt.alloc(), text.as_str(), 67_108_928));
    Ok(())
}

// A component without fields weighs 128. Its section has a number, a length and its first eight bytes.
#[test]
fn heaviest_components(rt: HostRuntime) -> Result<(), Fail> {
    let text = fields(rt.alloc(), " (component)", 524_287)?;
    let encoded = encode_component_text(rt.alloc(), text.as_str(), false)?;
    assert_eq!(rt; encoded.bytes.len(), 8 + 524_287 * (1 + 1 + 8));
    assert_eq!(rt; encoded.origins.items.as_slice().len(), 524_287);
    Ok(())
}

#[test]
fn too_many_components(rt: HostRuntime) -> Result<(), Fail> {
    let text = fields(rt.alloc(), " (component)", 524_288)?;
    assert!(rt; too_heavy(rt.alloc(), text.as_str(), 67_108_896));
    Ok(())
}
