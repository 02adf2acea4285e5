//! The bytes of a binary in hexadecimal.

ghost use Rattle.std.specs.Prelude.{◌≡◌, length, take, IfOk, IfErr};
ghost use Rattle.hex.specs.Hex.{decode_of};
ghost use Rattle.binary_inputs.specs.Input.{digits_of, IsHexRefusal};

use hex::FromHexError;
use std::alloc::Global;

/// The input without one line feed at its end.
pub fn digits_of(input: &[u8]) -> &[u8]
    ensures { result.now ≡ digits_of input.now }
{
    if input.is_empty() {
        return input;
    }
    let last = input.len() - 1;
    if input[last] == b'\n' {
        return &input[..last];
    }
    input
}

/// Why an input isn't hexadecimal.
#[derive(Clone, Copy)]
pub enum HexRefusal {
    /// At this offset.
    At(usize),
    /// Memory ran out.
    NoMemory,
}

/// The bytes that digits say, or where they aren't hexadecimal: at their end where they are an odd number, else at the first that is none.
#[tactic(auto, using(crate::proofs::Digits::odd_refuses))]
pub fn bytes_of(alloc: Global, digits: &[u8]) -> Result<Vec<u8>, HexRefusal>
    ensures ok { IfOk result (λ bytes. decode_of digits.now ≡ Ok bytes.items) }
    ensures err { IfErr result (λ refusal. IsHexRefusal digits.now refusal) }
{
    match hex::decode(alloc, digits) {
        Ok(bytes) => Ok(bytes),
        Err(FromHexError::OddLength) => Err(HexRefusal::At(digits.len())),
        Err(FromHexError::InvalidHexCharacter { c: _, index }) => Err(HexRefusal::At(index)),
        Err(FromHexError::OutOfMemory) => Err(HexRefusal::NoMemory),
        Err(FromHexError::InvalidStringLength) => unreachable!(),
    }
}
