//! The encoding of a text, and the lines of its origins.

ghost use Rattle.std.specs.Prelude.{◌≡◌, ◌≤◌, ◌<◌, ◌⊎◌, ℕ, IfOk, IfErr};
ghost use Rattle.std.specs.Str.{IsUtf8, IsValidUpTo};
ghost use Rattle.wast_tokens.specs.declared.error.ErrorKind.{ErrorKind as Kind};
ghost use Rattle.wast_component.specs.Answer.{IsValid, Encodes, TextRefuses, EncoderRefuses, IsRefusedAs};
ghost use Rattle.wast_component.specs.Whole.{Whole};
ghost use Rattle.wast_c.specs.Answer.{Tells, IsTold, IsLinesOf, TextAnswers};
ghost use Rattle.wast_c.specs.Buffer.{IsHandedOut};
ghost use Rattle.wast_c.specs.Status.{done, refused, too_short, not_utf8, out_of_memory, bad_flags, legacy};

use crate::buffer::hand_out;
use crate::refusal::{WastRefusal, refusal_of};
use crate::status::{BAD_FLAGS, LEGACY, NO_MEMORY, NOT_UTF8, REFUSED};
use origin_lines::origin_lines;
use std::alloc::Global;
use wast_component::{component_binary, encode_component_text};
use wast_tokens::{Error, ErrorKind};

/// The characters of a text, if its flags are defined and its bytes are UTF-8; else the status, and where they are not UTF-8 how many are.
fn characters_of<'a>(text: &'a [u8], flags: u32, why: &mut WastRefusal) -> Result<&'a str, u8>
    ensures ok { IfOk result (λ characters. (characters.now ≡ text.now) × IsUtf8 text.now × (flags ≤ 1) × (why.new ≡ why.old)) }
    ensures err { IfErr result (λ status. ((status ≡ bad_flags) × (1 < flags) × (why.new ≡ why.old)) ⊎ ((status ≡ not_utf8) × (flags ≤ 1) × ¬ (IsUtf8 text.now) × IsValidUpTo text.now why.new.offset × (why.new.kind ≡ 0) × (why.new.found ≡ 0) × (why.new.limit ≡ 0))) }
{
    if flags > LEGACY {
        return Err(BAD_FLAGS);
    }
    match std::str::from_utf8(text) {
        Ok(characters) => Ok(characters),
        Err(error) => {
            *why = WastRefusal {
                kind: 0,
                offset: error.valid_up_to() as u64,
                found: 0,
                limit: 0,
            };
            Err(NOT_UTF8)
        }
    }
}

/// Hands out what was made of a text, or why nothing was.
fn answer(
    made: Result<Vec<u8>, Error>,
    out: &mut [u8],
    needed: &mut usize,
    why: &mut WastRefusal,
) -> u8
    ensures made { IfOk made (λ bytes. IsHandedOut bytes.items result out.old out.new needed.new × (why.new ≡ why.old)) }
    ensures told { IfErr made (λ e. IsTold e result why.old why.new × (out.new ≡ out.old) × (needed.new ≡ needed.old)) }
{
    match made {
        Ok(bytes) => hand_out(bytes.as_slice(), out, needed),
        Err(error) => match error.kind {
            ErrorKind::NoMemory => NO_MEMORY,
            _ => {
                *why = refusal_of(error);
                REFUSED
            }
        },
    }
}

/// The lines of the origins of a text's encoding.
fn lines_of(alloc: Global, text: &str, legacy: bool) -> Result<Vec<u8>, Error>
    ensures lines { IfOk result (λ lines. IsLinesOf text.now legacy lines.items) }
    ensures refused { IfErr result (λ e. EncoderRefuses text.now legacy e.kind e.offset) }
    ensures exact { (kind : Kind) (offset : ℕ) → TextRefuses text.now legacy kind offset → IsRefusedAs result kind offset }
    ensures complete { (component : Whole) → IsValid text.now legacy component → IfErr result (λ e. e.kind ≡ Kind.NoMemory) }
{
    let encoded = match encode_component_text(alloc, text, legacy) {
        Ok(encoded) => encoded,
        Err(refusal) => return Err(refusal),
    };
    match origin_lines(alloc, &encoded.origins) {
        Ok(lines) => Ok(lines.into_bytes()),
        Err(error) => Err(Error::from(error)),
    }
}

/// Writes the binary of the component that a text spells to `out`, and its length to `needed`.
///
/// `text` is the text of one component, in UTF-8. Where `flags` is `LEGACY`, references are read in their older forms too; else it is 0. The
/// binary and the refusals are those of [`component_binary`]. The answer is
///
/// - `DONE`: the binary stands at the beginning of `out`, the bytes behind it stay as they were;
/// - `TOO_SHORT`: the binary is longer than `out`, and `needed` is its length;
/// - `REFUSED`: the text has no binary, and `why` says why and where;
/// - `NOT_UTF8`: the text isn't UTF-8, and the offset of `why` is the length of its longest front that is;
/// - `NO_MEMORY`: memory ran out;
/// - `BAD_FLAGS`: `flags` is neither 0 nor `LEGACY`.
///
/// What isn't named beside an answer stays as it was.
#[unsafe(no_mangle)]
pub extern "C" fn wast_encode(
    alloc: Global,
    text: &[u8],
    flags: u32,
    out: &mut [u8],
    needed: &mut usize,
    why: &mut WastRefusal,
) -> u8
    // What is written is an encoding of the text; a refusal has its cause.
    ensures answers { TextAnswers (Encodes text.now (legacy flags)) text.now flags out.old needed.old why.old result out.new needed.new why.new }

    // Each cause has its refusal, but for want of memory.
    ensures exact { (kind : Kind) (offset : ℕ) → flags ≤ 1 → IsUtf8 text.now → TextRefuses text.now (legacy flags) kind offset → ((result ≡ refused) × Tells why.new kind offset) ⊎ (result ≡ out_of_memory) }

    // Valid text has its binary, but for want of memory.
    ensures complete { (component : Whole) → flags ≤ 1 → IsUtf8 text.now → IsValid text.now (legacy flags) component → (result ≡ done) ⊎ (result ≡ too_short) ⊎ (result ≡ out_of_memory) }
{
    match characters_of(text, flags, why) {
        Ok(characters) => answer(
            component_binary(alloc, characters, flags == LEGACY),
            out,
            needed,
            why,
        ),
        Err(status) => status,
    }
}

/// Writes the lines of the origins of a text's binary to `out`, and their length to `needed`.
///
/// A line for each definition of the binary, in order, those inside a definition below it, two spaces further to the right, as the program
/// prints them (`origin_lines`). All else is as with [`wast_encode`].
#[unsafe(no_mangle)]
pub extern "C" fn wast_origins(
    alloc: Global,
    text: &[u8],
    flags: u32,
    out: &mut [u8],
    needed: &mut usize,
    why: &mut WastRefusal,
) -> u8
    ensures answers { TextAnswers (IsLinesOf text.now (legacy flags)) text.now flags out.old needed.old why.old result out.new needed.new why.new }
    ensures exact { (kind : Kind) (offset : ℕ) → flags ≤ 1 → IsUtf8 text.now → TextRefuses text.now (legacy flags) kind offset → ((result ≡ refused) × Tells why.new kind offset) ⊎ (result ≡ out_of_memory) }
    ensures complete { (component : Whole) → flags ≤ 1 → IsUtf8 text.now → IsValid text.now (legacy flags) component → (result ≡ done) ⊎ (result ≡ too_short) ⊎ (result ≡ out_of_memory) }
{
    match characters_of(text, flags, why) {
        Ok(characters) => answer(
            lines_of(alloc, characters, flags == LEGACY),
            out,
            needed,
            why,
        ),
        Err(status) => status,
    }
}
