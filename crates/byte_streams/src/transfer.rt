//! Reading to the end, and writing to the last byte, over sources and sinks that give and take less.

ghost use Rattle.std.specs.Prelude.{◌≡◌, ◌<◌, ◌≤◌, length, vec_len, IfOk, OnOk, OnErr, IsErrOf, MatchResult};
ghost use Rattle.std.specs.Io.KnownBytes.{Appends};
ghost use Rattle.byte_streams.specs.Limits.{read_limit};
ghost use Rattle.byte_streams.specs.Outside.{Rose, TakesFront, ReadsFront, ReadsAll, AddsPiece, Reads, ReadsOnce, ReadsUntil, Writes, WritesToError};

use crate::outside::{Sink, SinkError, Source};
use std::alloc::{AllocError, Global};
use wast_tokens::MAX_TEXT;

/// The most bytes that are read: one more than a text has, so that a longer one is seen.
pub const MAX_READ: usize = MAX_TEXT + 1;

/// The most bytes that are asked for at once.
const CHUNK: usize = 65_536;

/// Why not all was read.
#[derive(Clone, Copy, PartialEq, Eq, Debug)]
pub enum ReadError {
    /// The source failed.
    Failed,
    /// Memory ran out.
    NoMemory,
}

/// A buffer to read into.
fn make_chunk(alloc: Global) -> Result<Vec<u8>, AllocError>
    ensures { IfOk result (λ chunk. vec_len chunk ≡ CHUNK) }
{
    Ok(vec![in alloc; 0u8; CHUNK]?)
}

/// Reads once into `piece`, and adds what was read to `bytes`. The count is 0 at the end alone.
fn read_piece<S: Source>(
    input: &mut S,
    piece: &mut [u8],
    bytes: &mut Vec<u8>,
) -> Result<usize, ReadError>
    requires { 0 < length piece.old }
    ensures ok { IfOk result (AddsPiece (S.left input.old) (S.left input.new) (length piece.old)
        bytes.old.items bytes.new.items) }
    ensures err { OnErr result (ReadsFront (S.left input.old) (S.left input.new) (length piece.old)) }
    ensures later { S.faults input.old ≤ S.faults input.new }
    ensures cause { IsErrOf result ReadError.Failed → Rose (S.faults input.old) (S.faults input.new) }
    ensures once { ReadsOnce S.read_gives input.old input.new result }
{
    match input.read(piece) {
        Ok(count) => {
            if bytes.extend_from_slice(&piece[..count]).is_err() {
                return Err(ReadError::NoMemory);
            }
            Ok(count)
        }
        Err(_) => Err(ReadError::Failed),
    }
}

/// Reads to the end of the source, or as many bytes as are read at most.
pub fn read_all<S: Source>(alloc: Global, input: &mut S) -> Result<Vec<u8>, ReadError>
    ensures ok { IfOk result (λ bytes. ReadsAll (S.left input.old) (S.left input.new) bytes.items) }
    ensures err { OnErr result (ReadsFront (S.left input.old) (S.left input.new) read_limit) }
    ensures later { S.faults input.old ≤ S.faults input.new }
    ensures cause { IsErrOf result ReadError.Failed → Rose (S.faults input.old) (S.faults input.new) }
    ensures reads { MatchResult result (λ _. Reads S.read_gives input.old input.new) (ReadsUntil S.read_gives input.old input.new) }
{
    let mut bytes = Vec::new(alloc);
    let Ok(mut chunk) = make_chunk(alloc) else {
        return Err(ReadError::NoMemory);
    };
    while bytes.len() < MAX_READ {
        let room = CHUNK.min(MAX_READ - bytes.len());
        match read_piece(input, &mut chunk[..room], &mut bytes) {
            Ok(count) => {
                if count == 0 {
                    return Ok(bytes);
                }
            }
            Err(error) => return Err(error),
        }
    }
    Ok(bytes)
}

/// Writes all the bytes, in as few calls as the sink takes them. The first error that the sink gives is the answer, and no call comes after it.
pub fn write_all<O: Sink>(output: &mut O, bytes: &[u8]) -> Result<(), SinkError>
    ensures ok { OnOk result (Appends (O.taken output.old) (O.taken output.new) bytes.now) }
    ensures err { OnErr result (TakesFront (O.taken output.old) (O.taken output.new) bytes.now) }
    ensures later { O.faults output.old ≤ O.faults output.new }
    ensures cause { IsErrOf result SinkError.Failed → Rose (O.faults output.old) (O.faults output.new) }
    ensures writes { MatchResult result (λ _. Writes O.write_gives output.old output.new) (WritesToError O.write_gives output.old output.new) }
{
    let mut at = 0;
    while at < bytes.len() {
        match output.write(&bytes[at..]) {
            Ok(count) => at += count,
            Err(error) => return Err(error),
        }
    }
    Ok(())
}
