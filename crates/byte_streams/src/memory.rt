//! A source and a sink in memory that fail where they are told to: the outside of the tests.

ghost use Rattle.std.specs.Prelude.{◌≡◌, ◌≤◌, ◌↔◌, ◌++◌, if◌then◌else◌, Some, [], drop, take, min, length, IfOk, MatchOption, OnErr, IsErrOf, IsTrue, is_err};
ghost use Rattle.std.specs.Result.{result_ok};
ghost use Rattle.std.specs.Io.KnownBytes.{ReadConsumes};
ghost use Rattle.byte_streams.specs.Outside.{Rose, Takes, TakesFront};
ghost use Rattle.byte_streams.specs.Memory.{Memory, next, is_to_fail, after_call, after_fault, WriteGives};

use crate::outside::{Failed, Sink, SinkError, Source};
use crate::sure::{SureSink, SureSource};
use std::alloc::Global;
use std::marker::Model;

/// Which calls are to fail, and how many were made and failed.
#[derive(Drop)]
struct Schedule {
    fails: Vec<u64>,
    call: u64,
    faults: u64,
}

impl Schedule {
    /// The numbers of the calls that are to fail, before the first call.
    fn new(fails: Vec<u64>) -> Schedule
        ensures { result ≡ record { fails = fails; call = 0; faults = 0 } }
    {
        Schedule {
            fails,
            call: 0,
            faults: 0,
        }
    }

    /// Counts a call, and its fault where it is to fail, and answers whether it is.
    fn fails_now(&mut self) -> bool
        ensures value { result ≡ is_to_fail self.old.fails.items self.old.call }
        ensures fails { self.new.fails.items ≡ self.old.fails.items }
        ensures call { self.new.call ≡ next self.old.call }
        ensures faults { self.new.faults ≡ (if result then next self.old.faults else self.old.faults) }
    {
        let fails = self.fails.contains(&self.call);
        self.call = self.call.saturating_add(1);
        if fails {
            self.faults = self.faults.saturating_add(1);
        }
        fails
    }
}

/// Reads the bytes that it was made of, and fails at the calls that are to fail.
#[derive(Drop)]
pub struct MemSource {
    source: SureSource,
    piece: usize,
    schedule: Schedule,
}

impl Model for MemSource {
    ghost Value = { Memory };

    ghost view = { λ s. record {
      bytes = s.source;
      fails = s.schedule.fails.items;
      piece = s.piece;
      call = s.schedule.call;
      faults = s.schedule.faults;
    } };

    ghost invariant = { λ s. 1 ≤ s.piece };
}

impl MemSource {
    /// A source of `bytes` that gives at most `piece` of them in one call.
    ///
    /// `fails` holds the numbers of the calls that are to fail, counted from 0; every call past
    /// `u64::MAX` has that number. A call that is to fail gives no byte. Takes no memory.
    pub fn new(bytes: Vec<u8>, fails: Vec<u64>, piece: usize) -> MemSource
        requires { 1 ≤ piece }
        ensures { result ≡ record { bytes = bytes.items; fails = fails.items; piece = piece; call = 0; faults = 0 } }
    {
        MemSource {
            source: SureSource::new(bytes),
            piece,
            schedule: Schedule::new(fails),
        }
    }
}

impl Source for MemSource {
    ghost left = { λ source. Some source.bytes };

    ghost faults = { λ source. source.faults };

    ghost read_gives = { λ old count new. MatchOption count
        (IsTrue (is_to_fail old.fails old.call) × (new ≡ after_fault old))
        (λ given. ¬ (IsTrue (is_to_fail old.fails old.call)) × (new ≡ after_call old (drop given old.bytes))) };

    fn read(&mut self, buf: &mut [u8]) -> Result<usize, Failed>
        ensures bound { IfOk result (λ count. count ≤ length buf.new) }
        ensures bytes { ReadConsumes (Some self.old.bytes) (Some self.new.bytes) result buf.new }
        ensures later { self.old.faults ≤ self.new.faults }
        ensures cause { OnErr result (Rose self.old.faults self.new.faults) }
        ensures gives { ⟦<MemSource as Source>⟧.read_gives self.old (result_ok result) self.new }

        // A call fails exactly where it is to fail, and gives as many bytes as it may.
        ensures fails { is_err result ≡ is_to_fail self.old.fails self.old.call }
        ensures count { IfOk result (λ count. count ≡ min (min (length buf.old) self.old.piece) (length self.old.bytes)) }
        ensures read { IfOk result (λ count. self.new ≡ after_call self.old (drop count self.old.bytes)) }
        ensures failed { OnErr result (self.new ≡ after_fault self.old) }
    {
        if self.schedule.fails_now() {
            return Err(Failed);
        }
        let room = buf.len().min(self.piece);
        self.source.read(&mut buf[..room])
    }
}

/// Takes bytes, and fails at the calls that are to fail.
#[derive(Drop)]
pub struct MemSink {
    sink: SureSink,
    piece: usize,
    schedule: Schedule,
}

impl Model for MemSink {
    ghost Value = { Memory };

    ghost view = { λ s. record {
      bytes = s.sink;
      fails = s.schedule.fails.items;
      piece = s.piece;
      call = s.schedule.call;
      faults = s.schedule.faults;
    } };

    ghost invariant = { λ s. 1 ≤ s.piece };
}

impl MemSink {
    /// A sink that has taken nothing yet, and takes at most `piece` bytes in one call.
    ///
    /// `fails` holds the numbers of the calls that are to fail, counted from 0; every call past
    /// `u64::MAX` has that number. A call that is to fail takes no byte. Takes no memory itself; a
    /// write takes some, and answers `NoMemory` where there is none.
    pub fn new(alloc: Global, fails: Vec<u64>, piece: usize) -> MemSink
        requires { 1 ≤ piece }
        ensures { result ≡ record { bytes = []; fails = fails.items; piece = piece; call = 0; faults = 0 } }
    {
        MemSink {
            sink: SureSink::new(alloc),
            piece,
            schedule: Schedule::new(fails),
        }
    }

    /// The bytes that it has taken.
    pub fn bytes(&self) -> &[u8]
        ensures { result.now ≡ self.now.bytes }
    {
        self.sink.bytes()
    }
}

impl Sink for MemSink {
    ghost taken = { λ sink. Some sink.bytes };

    ghost faults = { λ sink. sink.faults };

    ghost write_gives = { WriteGives };

    fn write(&mut self, piece: &[u8]) -> Result<usize, SinkError>
        ensures ok { IfOk result (Takes (Some self.old.bytes) (Some self.new.bytes) piece.now) }
        ensures err { OnErr result (TakesFront (Some self.old.bytes) (Some self.new.bytes) piece.now) }
        ensures later { self.old.faults ≤ self.new.faults }
        ensures cause { IsErrOf result SinkError.Failed → Rose self.old.faults self.new.faults }
        ensures gives { WriteGives self.old result self.new }

        // A call fails exactly where it is to fail, and takes as many bytes as it may.
        ensures fails { IsErrOf result SinkError.Failed ↔ IsTrue (is_to_fail self.old.fails self.old.call) }
        ensures count { IfOk result (λ count. count ≡ min (length piece.now) self.old.piece) }
        ensures written { IfOk result (λ count. self.new ≡ after_call self.old (self.old.bytes ++ take count piece.now)) }
        ensures failed { IsErrOf result SinkError.Failed → self.new ≡ after_fault self.old }
        ensures no_memory { IsErrOf result SinkError.NoMemory → self.new ≡ after_call self.old self.old.bytes }
    {
        if self.schedule.fails_now() {
            return Err(SinkError::Failed);
        }
        let count = piece.len().min(self.piece);
        self.sink.write(&piece[..count])
    }
}
