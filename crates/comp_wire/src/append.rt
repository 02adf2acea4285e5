//! Bytes, texts and lengths behind what was written.

ghost use Rattle.std.specs.Prelude.{◌≡◌, ◌∷◌, [], ◌++◌, length, OnOk};
ghost use Rattle.comp_model.specs.Leb.{uleb as unsigned_bytes};
ghost use Rattle.comp_model.specs.Payloads.{framed};
ghost use Rattle.comp_wire.specs.Sections.{Word};

use crate::leb::uleb;
use crate::memory::NoMemory;
use std::alloc::Global;

/// Appends the bytes.
pub fn append(out: &mut Vec<u8>, bytes: &[u8]) -> Result<(), NoMemory>
    ensures { OnOk result (out.new.items ≡ out.old.items ++ bytes.now) }
{
    match out.extend_from_slice(bytes) {
        Ok(()) => Ok(()),
        Err(_) => Err(NoMemory),
    }
}

/// Appends one byte.
pub fn append_byte(out: &mut Vec<u8>, byte: u8) -> Result<(), NoMemory>
    ensures { OnOk result (out.new.items ≡ out.old.items ++ byte ∷ []) }
{
    match out.push(byte) {
        Ok(()) => Ok(()),
        Err(_) => Err(NoMemory),
    }
}

/// Appends the length and the bytes.
pub fn append_framed(alloc: Global, out: &mut Vec<u8>, bytes: &[u8]) -> Result<(), NoMemory>
    requires { Word (length bytes.now) }
    ensures { OnOk result (out.new.items ≡ out.old.items ++ framed bytes.now) }
{
    uleb(alloc, out, bytes.len() as u32)?;
    append(out, bytes)
}

/// Appends a byte and an index.
pub fn append_indexed(
    alloc: Global,
    out: &mut Vec<u8>,
    byte: u8,
    index: u32,
) -> Result<(), NoMemory>
    ensures { OnOk result (out.new.items ≡ out.old.items ++ byte ∷ unsigned_bytes index) }
{
    append_byte(out, byte)?;
    uleb(alloc, out, index)
}

/// Appends a byte and two indices.
pub fn append_two_indices(
    alloc: Global,
    out: &mut Vec<u8>,
    byte: u8,
    first: u32,
    second: u32,
) -> Result<(), NoMemory>
    ensures { OnOk result (out.new.items ≡ out.old.items ++ byte ∷ (unsigned_bytes first ++ unsigned_bytes second)) }
{
    append_indexed(alloc, out, byte, first)?;
    uleb(alloc, out, second)
}
