//! What the program reads from and writes to.
//!
//! A source and a sink each mean a list of bytes, where they tell it, and a count of their faults,
//! which never falls: so a fault that is answered can be told from one that came.

ghost use Rattle.std.specs.Prelude.{◌≡◌, ◌≤◌, ℕ, List, Result, ⊤, length, IfOk, OnErr, IsErrOf};
ghost use Rattle.std.specs.Result.{result_ok};
ghost use Rattle.std.specs.declared.option.Option.{Option};
ghost use Rattle.std.specs.Io.KnownBytes.{ReadConsumes};
ghost use Rattle.byte_streams.specs.Outside.{Rose, Takes, TakesFront};

/// A read failed.
#[derive(Clone, Copy, PartialEq, Eq, Debug)]
pub struct Failed;

/// Why a write failed.
#[derive(Clone, Copy, PartialEq, Eq, Debug)]
pub enum SinkError {
    /// The sink's outside failed, and the sink has counted it.
    Failed,
    /// The sink found no memory.
    NoMemory,
}

/// What bytes are read from.
pub trait Source {
    /// The bytes that it has left, where it tells them.
    ghost left: { Self → Option (List ℕ) };

    /// How often it has failed, up to the last value of a `u64`.
    ghost faults: { Self → ℕ };

    /// What one read does, where it tells it: the source before it, how many bytes it gave, or that
    /// it failed, and the source after it.
    ghost read_gives: { Self → Option ℕ → Self → Type 0 } = { λ _ _ _. ⊤ };

    /// Reads up to `buf.len()` bytes off the front into the front of `buf`, and answers how many.
    ///
    /// 0 for a buffer that isn't empty means the end. `Failed` comes only where the count of faults
    /// rose, or stands at its last value; no byte is read then.
    fn read(&mut self, buf: &mut [u8]) -> Result<usize, Failed>
        ensures bound { IfOk result (λ count. count ≤ length buf.new) }
        ensures bytes { ReadConsumes (left self.old) (left self.new) result buf.new }
        ensures later { faults self.old ≤ faults self.new }
        ensures cause { OnErr result (Rose (faults self.old) (faults self.new)) }
        ensures gives { read_gives self.old (result_ok result) self.new };
}

/// What bytes are written to.
pub trait Sink {
    ghost use Rattle.byte_streams.specs.declared.outside.SinkError.{SinkError};

    /// The bytes that it has taken, where it tells them.
    ghost taken: { Self → Option (List ℕ) };

    /// How often it has failed, up to the last value of a `u64`.
    ghost faults: { Self → ℕ };

    /// What one write does, where it tells it: the sink before it, how many bytes it took, or by
    /// which error it took none or a front of them, and the sink after it.
    ghost write_gives: { Self → Result ℕ SinkError → Self → Type 0 } = { λ _ _ _. ⊤ };

    /// Takes bytes off the front of `piece`, and answers how many: at least one, where there is one.
    ///
    /// `Failed` comes only where the count of faults rose, or stands at its last value. At either
    /// error a front of the piece, maybe none of it, was taken.
    fn write(&mut self, piece: &[u8]) -> Result<usize, SinkError>
        ensures ok { IfOk result (Takes (taken self.old) (taken self.new) piece.now) }
        ensures err { OnErr result (TakesFront (taken self.old) (taken self.new) piece.now) }
        ensures later { faults self.old ≤ faults self.new }
        ensures cause { IsErrOf result SinkError.Failed → Rose (faults self.old) (faults self.new) }
        ensures gives { write_gives self.old result self.new };
}
