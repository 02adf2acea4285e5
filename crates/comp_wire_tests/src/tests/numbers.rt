//! LEB128.

use comp_wire::{sleb, uleb};
use std::test::Fail;

/// A number, and its bytes (WebAssembly, binary format, Integers).
const UNSIGNED: [(u32, &[u8]); 7] = [
    (0, &[0x00]),
    (127, &[0x7f]),
    (128, &[0x80, 0x01]),
    (16_383, &[0xff, 0x7f]),
    (16_384, &[0x80, 0x80, 0x01]),
    (624_485, &[0xe5, 0x8e, 0x26]),
    (4_294_967_295, &[0xff, 0xff, 0xff, 0xff, 0x0f]),
];

/// A number, and its bytes (WebAssembly, binary format, Integers).
const SIGNED: [(i64, &[u8]); 11] = [
    (0, &[0x00]),
    (63, &[0x3f]),
    (64, &[0xc0, 0x00]),
    (300, &[0xac, 0x02]),
    (4_294_967_295, &[0xff, 0xff, 0xff, 0xff, 0x0f]),
    (-1, &[0x7f]),
    (-64, &[0x40]),
    (-65, &[0xbf, 0x7f]),
    (-123_456, &[0xc0, 0xbb, 0x78]),
    (
        9_223_372_036_854_775_807,
        &[0xff, 0xff, 0xff, 0xff, 0xff, 0xff, 0xff, 0xff, 0xff, 0x00],
    ),
    (
        -9_223_372_036_854_775_808,
        &[0x80, 0x80, 0x80, 0x80, 0x80, 0x80, 0x80, 0x80, 0x80, 0x7f],
    ),
];

#[test]
fn unsigned(rt: HostRuntime) -> Result<(), Fail> {
    for (value, bytes) in UNSIGNED {
        let mut out = Vec::new(rt.alloc());
        uleb(rt.alloc(), &mut out, value)?;
        assert_eq!(rt; out.as_slice(), bytes);
    }
    Ok(())
}

#[test]
fn signed(rt: HostRuntime) -> Result<(), Fail> {
    for (value, bytes) in SIGNED {
        let mut out = Vec::new(rt.alloc());
        sleb(rt.alloc(), &mut out, value)?;
        assert_eq!(rt; out.as_slice(), bytes);
    }
    Ok(())
}
