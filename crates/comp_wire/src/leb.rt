//! Numbers in LEB128: seven bits a byte, the lowest first.

ghost use Rattle.std.specs.Prelude.{◌≡◌, ◌∷◌, [], ◌++◌, ◌<◌, take, length, true, cond, ℕ, OnOk, OnErr};
ghost use Rattle.comp_model.specs.Leb.{leb, plain, turned, uleb as unsigned_bytes, signed_leb, magnitude};

use crate::memory::NoMemory;
use std::alloc::Global;

fn push_byte(out: &mut Vec<u8>, byte: u8) -> Result<(), NoMemory>
    ensures ok { OnOk result (out.new.items ≡ out.old.items ++ byte ∷ []) }
    ensures err { OnErr result (out.new.items ≡ out.old.items) }
{
    match out.push(byte) {
        Ok(()) => Ok(()),
        Err(_) => Err(NoMemory),
    }
}

/// Appends the bytes of a number; after a refusal some of them may stand there.
fn push_unsigned(out: &mut Vec<u8>, value: u32) -> Result<(), NoMemory>
    ensures ok { OnOk result (out.new.items ≡ out.old.items ++ unsigned_bytes value) }
    ensures err { OnErr result (take (length out.old.items) out.new.items ≡ out.old.items) }
{
    let mut rest = value;
    while rest >= 128 {
        push_byte(out, 128 + (rest % 128) as u8)?;
        rest /= 128;
    }
    push_byte(out, rest as u8)
}

/// Appends the shortest unsigned LEB128 of `value`, one to five bytes. A refusal leaves `out` as it was.
///
/// WebAssembly, binary format, Integers.
pub fn uleb(_alloc: Global, out: &mut Vec<u8>, value: u32) -> Result<(), NoMemory>
    ensures appended { OnOk result (out.new.items ≡ out.old.items ++ unsigned_bytes value) }
    ensures unchanged { OnErr result (out.new.items ≡ out.old.items) }
{
    let start = out.len();
    match push_unsigned(out, value) {
        Ok(()) => Ok(()),
        Err(refusal) => {
            out.truncate(start);
            Err(refusal)
        }
    }
}

/// The low seven bits of a signed number, by those of its magnitude.
fn low_bits(bits: u64, negative: bool) -> u8
    requires seven_bits { bits < 128 }
    ensures seven_bits { result < 128 }
    ensures turned { result ≡ (cond negative turned plain) bits }
{
    if negative {
        127 - bits as u8
    } else {
        bits as u8
    }
}

/// The number, or -1 minus the number where it is negative.
fn bits_of(value: i64) -> u64
    ensures magnitude { result ≡ magnitude value }
{
    if value < 0 {
        -(value + 1) as u64
    } else {
        value as u64
    }
}

/// Appends the bytes of a number; after a refusal some of them may stand there.
fn push_signed(out: &mut Vec<u8>, bits: u64, negative: bool) -> Result<(), NoMemory>
    ensures ok { OnOk result (out.new.items ≡ out.old.items ++ leb (cond negative turned plain) 64 bits) }
    ensures err { OnErr result (take (length out.old.items) out.new.items ≡ out.old.items) }
{
    let mut rest = bits;
    while rest >= 64 {
        push_byte(out, 128 + low_bits(rest % 128, negative))?;
        rest /= 128;
    }
    push_byte(out, low_bits(rest, negative))
}

/// Appends the shortest signed LEB128 of `value`, one to ten bytes. A refusal leaves `out` as it was.
///
/// WebAssembly, binary format, Integers.
pub fn sleb(_alloc: Global, out: &mut Vec<u8>, value: i64) -> Result<(), NoMemory>
    ensures appended { OnOk result (out.new.items ≡ out.old.items ++ signed_leb value) }
    ensures unchanged { OnErr result (out.new.items ≡ out.old.items) }
{
    let start = out.len();
    match push_signed(out, bits_of(value), value < 0) {
        Ok(()) => Ok(()),
        Err(refusal) => {
            out.truncate(start);
            Err(refusal)
        }
    }
}
