//! The caller's buffer.

ghost use Rattle.wast_c.specs.Buffer.{IsHandedOut};

use crate::status::{DONE, TOO_SHORT};

/// Writes the bytes at the beginning of the buffer, if they fit, and how many they are. Answers `DONE` or `TOO_SHORT`.
pub fn hand_out(bytes: &[u8], out: &mut [u8], needed: &mut usize) -> u8
    ensures { IsHandedOut bytes.now result out.old out.new needed.new }
{
    let length = bytes.len();
    *needed = length;
    if length > out.len() {
        return TOO_SHORT;
    }
    out[..length].copy_from_slice(bytes);
    DONE
}
