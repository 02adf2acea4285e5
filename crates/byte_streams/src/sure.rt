//! A source and a sink in memory that never fail: their count of faults is the constant 0, so a
//! run over them ends with neither fault.

ghost use Rattle.std.specs.Prelude.{◌≡◌, ◌≤◌, ◌++◌, ℕ, List, Some, [], drop, min, length, MatchOption, IsOk, IfOk, OnErr, IsErrOf};
ghost use Rattle.std.specs.Result.{result_ok};
ghost use Rattle.std.specs.Io.KnownBytes.{ReadConsumes};
ghost use Rattle.byte_streams.specs.Outside.{Takes, TakesFront};
ghost use Rattle.byte_streams.specs.Memory.{TakesSurely};

use crate::outside::{Failed, Sink, SinkError, Source};
use std::alloc::Global;
use std::marker::Model;

/// Reads the bytes that it was made of, and never fails. Clauses see the bytes that it has left.
#[derive(Drop)]
pub struct SureSource {
    bytes: Vec<u8>,
    at: usize,
}

impl Model for SureSource {
    ghost Value = { List ℕ };

    ghost view = { λ s. drop s.at s.bytes.items };

    ghost invariant = { λ s. s.at ≤ length s.bytes.items };
}

impl SureSource {
    /// A source of `bytes`. Takes no memory.
    pub fn new(bytes: Vec<u8>) -> SureSource
        ensures left { result ≡ bytes.items }
        ensures faults { ⟦<SureSource as Source>⟧.faults result ≡ 0 }
    {
        SureSource { bytes, at: 0 }
    }
}

impl Source for SureSource {
    ghost left = { λ source. Some source };

    ghost faults = { λ source. 0 };

    ghost read_gives = { λ old count new. MatchOption count ⊥ (λ given. new ≡ drop given old) };

    fn read(&mut self, buf: &mut [u8]) -> Result<usize, Failed>
        ensures bound { IfOk result (λ count. count ≤ length buf.new) }
        ensures bytes { ReadConsumes (Some self.old) (Some self.new) result buf.new }
        ensures gives { ⟦<SureSource as Source>⟧.read_gives self.old (result_ok result) self.new }

        // It never fails, and gives as many bytes as it may.
        ensures sure { IsOk result }
        ensures count { IfOk result (λ count. count ≡ min (length buf.old) (length self.old)) }
        ensures read { IfOk result (λ count. self.new ≡ drop count self.old) }
    {
        let at = self.at;
        let count = buf.len().min(self.bytes.len() - at);
        buf[..count].copy_from_slice(&self.bytes[at..at + count]);
        self.at = at + count;
        Ok(count)
    }
}

/// Takes bytes, and fails for want of memory alone. Clauses see the bytes that it has taken.
#[derive(Drop)]
pub struct SureSink {
    bytes: Vec<u8>,
}

impl Model for SureSink {
    ghost Value = { List ℕ };

    ghost view = { λ s. s.bytes.items };
}

impl SureSink {
    /// A sink that has taken nothing yet. Takes no memory itself; a write takes some, and answers
    /// `NoMemory` where there is none.
    pub fn new(alloc: Global) -> SureSink
        ensures taken { result ≡ [] }
        ensures faults { ⟦<SureSink as Sink>⟧.faults result ≡ 0 }
    {
        SureSink {
            bytes: Vec::new(alloc),
        }
    }

    /// The bytes that it has taken.
    pub fn bytes(&self) -> &[u8]
        ensures { result.now ≡ self.now }
    {
        &self.bytes
    }
}

impl Sink for SureSink {
    ghost taken = { λ sink. Some sink };

    ghost faults = { λ sink. 0 };

    ghost write_gives = { TakesSurely };

    fn write(&mut self, piece: &[u8]) -> Result<usize, SinkError>
        ensures ok { IfOk result (Takes (Some self.old) (Some self.new) piece.now) }
        ensures err { OnErr result (TakesFront (Some self.old) (Some self.new) piece.now) }
        ensures gives { TakesSurely self.old result self.new }

        // It takes the whole piece, or finds no memory and takes nothing.
        ensures sure { ¬ (IsErrOf result SinkError.Failed) }
        ensures count { IfOk result (λ count. count ≡ length piece.now) }
        ensures written { IfOk result (λ _. self.new ≡ self.old ++ piece.now) }
        ensures no_memory { OnErr result (self.new ≡ self.old) }
    {
        if self.bytes.extend_from_slice(piece).is_err() {
            return Err(SinkError::NoMemory);
        }
        Ok(piece.len())
    }
}
