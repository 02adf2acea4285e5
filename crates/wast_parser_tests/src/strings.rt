//! Strings of any bytes, which no part of a component has so far.

use bumpalo::Bump;
use std::test::Fail;
use wast_parser::{ParseBuffer, parse};

/// A string that isn't UTF-8, and the bytes that it stands for.
const STRINGS: [(&str, &[u8]); 2] = [
    ("\"\\00\\fF\\7f\"", &[0x00, 0xff, 0x7f]),
    ("\"\\ff\\00a\"", &[0xff, 0x00, b'a']),
];

#[test]
fn bytes(rt: HostRuntime) -> Result<(), Fail> {
    for (text, bytes) in STRINGS {
        let arena = Bump::new(rt.alloc());
        let buffer = ParseBuffer::new(rt.alloc(), text, &arena, false)?;
        let found: &[u8] = parse(rt.alloc(), &buffer)?;
        assert_eq!(rt; found, bytes);
    }
    Ok(())
}
