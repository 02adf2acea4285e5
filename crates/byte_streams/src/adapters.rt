//! Sources and sinks over std's readers and writers: the program's trusted edge.
//!
//! Of the standard streams they tell no content, since nothing here can see it.

ghost use Rattle.std.specs.Prelude.{◌≡◌, if◌then◌else◌, is_none, IfOk, OnErr, IsErrOf, is_err, ◌≤◌};
ghost use Rattle.byte_streams.specs.Outside.{Rose, Takes, TakesFront};
ghost use Rattle.byte_streams.specs.Memory.{next, CountsFault};

use crate::outside::{Failed, Sink, SinkError, Source};
use std::io::{Read, Write};

/// Reads from a reader, and counts its errors.
#[derive(Drop)]
pub struct ReaderSource<R: Read> {
    reader: R,
    faults: u64,
}

impl<R: Read> ReaderSource<R> {
    /// A source over the reader, with no fault yet. Takes no memory.
    pub fn new(reader: R) -> ReaderSource<R>
        ensures left { ⟦<ReaderSource<R> as Source>⟧.left result ≡ R.remaining reader }
        ensures faults { ⟦<ReaderSource<R> as Source>⟧.faults result ≡ 0 }
    {
        ReaderSource { reader, faults: 0 }
    }
}

impl<R: Read> Source for ReaderSource<R> {
    ghost left = { λ source. R.remaining source.reader };

    ghost faults = { λ source. source.faults };

    // A fault is counted once, and nothing else is.
    ghost read_gives = { λ old count new. new.faults ≡ (if is_none count then next old.faults else old.faults) };

    fn read(&mut self, buf: &mut [u8]) -> Result<usize, Failed> {
        match self.reader.read(buf) {
            Ok(count) => Ok(count),
            Err(_) => {
                self.faults = self.faults.saturating_add(1);
                Err(Failed)
            }
        }
    }
}

/// Writes to a writer and flushes it at once, and counts its errors.
#[derive(Drop)]
pub struct WriterSink<W: Write> {
    writer: W,
    faults: u64,
}

impl<W: Write> WriterSink<W> {
    /// A sink over the writer, with no fault yet. Takes no memory.
    pub fn new(writer: W) -> WriterSink<W>
        ensures taken { ⟦<WriterSink<W> as Sink>⟧.taken result ≡ W.contents writer }
        ensures faults { ⟦<WriterSink<W> as Sink>⟧.faults result ≡ 0 }
    {
        WriterSink { writer, faults: 0 }
    }
}

impl<W: Write> Sink for WriterSink<W> {
    ghost taken = { λ sink. W.contents sink.writer };

    ghost faults = { λ sink. sink.faults };

    // It never lacks memory. A fault is counted once, and nothing else is.
    ghost write_gives = { λ old given new. CountsFault old.faults given new.faults };

    fn write(&mut self, piece: &[u8]) -> Result<usize, SinkError>
        ensures ok { IfOk result (Takes (W.contents self.old.writer) (W.contents self.new.writer) piece.now) }
        ensures err { OnErr result (TakesFront (W.contents self.old.writer) (W.contents self.new.writer) piece.now) }
        ensures later { self.old.faults ≤ self.new.faults }
        ensures cause { IsErrOf result SinkError.Failed → Rose self.old.faults self.new.faults }
        ensures gives { ⟦<WriterSink<W> as Sink>⟧.write_gives self.old result self.new }

        // It never lacks memory. A fault is counted once, and nothing else is.
        ensures memory { ¬ (IsErrOf result SinkError.NoMemory) }
        ensures counted { self.new.faults ≡ (if is_err result then next self.old.faults else self.old.faults) }
    {
        let Ok(count) = self.writer.write(piece) else {
            self.faults = self.faults.saturating_add(1);
            return Err(SinkError::Failed);
        };
        if count == 0 && !piece.is_empty() {
            self.faults = self.faults.saturating_add(1);
            return Err(SinkError::Failed);
        }
        if self.writer.flush().is_err() {
            self.faults = self.faults.saturating_add(1);
            return Err(SinkError::Failed);
        }
        Ok(count)
    }
}
