//! Instructions that nest deep: folding takes no stack.

use crate::encode::encode;
use std::alloc::{AllocError, Global};
use std::test::Fail;

/// A folded expression of so many instructions, each the operand of the one around it.
fn nested(alloc: Global, depth: u32) -> Result<String, AllocError> {
    let mut text = String::from_str(alloc, "module (func ")?;
    for _ in 0..depth {
        text.push_str("(nop ")?;
    }
    for _ in 0..depth {
        text.push_str(")")?;
    }
    text.push_str(")")?;
    Ok(text)
}

#[test]
fn folded_a_million_deep(rt: HostRuntime) -> Result<(), Fail> {
    let text = nested(rt.alloc(), 1_000_000)?;
    let bytes = encode(rt.alloc(), text.as_str())?;
    assert!(rt; bytes.len() > 1_000_000);
    assert!(rt; bytes.ends_with(&[0x01, 0x01, 0x0b]));
    Ok(())
}
