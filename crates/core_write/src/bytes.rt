//! Bytes, texts and numbers behind what was written.

ghost use Rattle.std.specs.Prelude.{◌≡◌, ◌∷◌, [], ◌++◌, length, OnOk};
ghost use Rattle.comp_model.specs.Leb.{uleb as unsigned_bytes};
ghost use Rattle.comp_model.specs.Payloads.{framed};
ghost use Rattle.core_model.specs.Words.{Word};

use comp_wire::{NoMemory, uleb};
use leb_lengths::uleb_length;
use std::alloc::Global;

/// Appends one byte.
pub(crate) fn push_byte(out: &mut Vec<u8>, byte: u8) -> Result<(), NoMemory>
    ensures { OnOk result (out.new.items ≡ out.old.items ++ byte ∷ []) }
{
    match out.push(byte) {
        Ok(()) => Ok(()),
        Err(_) => Err(NoMemory),
    }
}

/// Appends the bytes.
pub(crate) fn push_bytes(out: &mut Vec<u8>, bytes: &[u8]) -> Result<(), NoMemory>
    ensures { OnOk result (out.new.items ≡ out.old.items ++ bytes.now) }
{
    match out.extend_from_slice(bytes) {
        Ok(()) => Ok(()),
        Err(_) => Err(NoMemory),
    }
}

/// Appends the length and the bytes.
pub(crate) fn push_framed(alloc: Global, out: &mut Vec<u8>, bytes: &[u8]) -> Result<(), NoMemory>
    requires { Word (length bytes.now) }
    ensures { OnOk result (out.new.items ≡ out.old.items ++ framed bytes.now) }
{
    uleb(alloc, out, bytes.len() as u32)?;
    push_bytes(out, bytes)
}

/// Appends the length of a count and the bytes of so many items, the count and the bytes.
pub(crate) fn push_counted(
    alloc: Global,
    out: &mut Vec<u8>,
    count: u32,
    items: &[u8],
) -> Result<(), NoMemory>
    requires { Word (length (unsigned_bytes count ++ items.now)) }
    ensures { OnOk result (out.new.items ≡ out.old.items ++ framed (unsigned_bytes count ++ items.now)) }
{
    let length = uleb_length(count as u64) + items.len() as u64;
    uleb(alloc, out, length as u32)?;
    uleb(alloc, out, count)?;
    push_bytes(out, items)
}

/// Appends the length and the bytes of a text.
pub(crate) fn push_text(alloc: Global, out: &mut Vec<u8>, text: &str) -> Result<(), NoMemory>
    requires { Word (length text.now) }
    ensures { OnOk result (out.new.items ≡ out.old.items ++ framed text.now) }
{
    push_framed(alloc, out, text.as_bytes())
}
