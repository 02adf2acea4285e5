//! The call that reads, answers and writes: the whole program, over any source and sinks.

ghost use Rattle.std.specs.Prelude.{◌≡◌, ◌≤◌, map, string_bytes};
ghost use Rattle.byte_streams.specs.Limits.{read_limit};
ghost use Rattle.byte_streams.specs.Outside.{ReadsFront};
ghost use Rattle.wast_prog.specs.Command.{AskForInput};
ghost use Rattle.wast_prog.specs.Ends.{change, Finishes, Ends, ReadsOfRun, WritesUntil, WritesOfRun, LeavesOutput, LeavesFaults};

use crate::command::command_of;
use crate::reply::{Reply, reply_to};
use byte_streams::{ReadError, Sink, SinkError, Source, write_all};
use std::alloc::Global;

/// The line for words that are no command.
pub const USAGE: &str =
    "usage: encode [--legacy] [--raw] | origins [--legacy] | gen N | list [--raw] | order [--raw] | print [--raw] | compose [--raw]\n";

/// How a run ended.
#[derive(Clone, Copy, PartialEq, Eq, Debug)]
pub enum Status {
    /// The text was encoded, and its binary is on the output.
    Done,
    /// The text was refused, and the line that says why is on the faults.
    Refused,
    /// The words are no command, and the line that says so is on the faults.
    Usage,
    /// A read failed, and nothing was written.
    ReadFault,
    /// A write failed, and a front of what was to be written was.
    WriteFault,
    /// Memory ran out, and a front of what was to be written, maybe none of it, was.
    NoMemory,
}

/// Writes the bytes to the sink, and answers `wanted` where all were written.
fn finish<O: Sink>(sink: &mut O, bytes: &[u8], wanted: Status) -> Status
    ensures ends { Finishes (change O.taken O.faults sink.old sink.new) bytes.now wanted result }
    ensures later { O.faults sink.old ≤ O.faults sink.new }
    ensures writes { WritesUntil O.write_gives sink.old sink.new wanted result }
{
    match write_all(sink, bytes) {
        Ok(()) => wanted,
        Err(SinkError::Failed) => Status::WriteFault,
        Err(SinkError::NoMemory) => Status::NoMemory,
    }
}

/// Does what the words ask for, and answers how that went.
///
/// `words` are the program's arguments, without its name:
///
/// - `encode`, then `--legacy` and `--raw`, each at most once, in any order: the binary of the component whose text `input` has goes to
///   `output`, in lower-case hexadecimal with a line feed, or by `--raw` its bytes alone;
/// - `origins`, then at most one `--legacy`: where each definition of that component comes from, a line each (`origin_lines`);
/// - `gen` and a numeral of at most 100,000: nothing is read, the sample of so many types is encoded (`sample_text`), and how many bytes
///   its text and its binary have, how many marks its origins, and how many of them are outer aliases go to `output`, a line each;
/// - `list`, then at most one `--raw`: `input` is the binary of a component in hexadecimal, one line feed at its end aside, or by `--raw`
///   its bytes; a line for each of its references goes to `output` (`list_lines`);
/// - `order`, then at most one `--raw`: `input` is read alike, and a line goes to `output` that says whether each of these references is to
///   something that stands before it, or else the number of the first that isn't;
/// - `print`, then at most one `--raw`: `input` is read alike, and the text of the component, with numerals in place of names, goes to
///   `output` with a line feed (`tree_print`);
/// - `compose`, then at most one `--raw`: `input` is a plan (`comp_compose`); the binary of the component that it composes goes to `output`,
///   in lower-case hexadecimal with a line feed, or by `--raw` its bytes alone.
///
/// `input` is read to its end, but no further than `MAX_READ` bytes. By `--legacy` references are read in their older forms too. Where the
/// input is refused, nothing goes to `output`, and a line `error: KIND at OFFSET` goes to `faults`: OFFSET in bytes from the beginning of
/// the input, KIND the name of the refusal's kind, or `TooBig` at 0 for more than `MAX_TEXT` bytes, before any other look at them, or
/// `utf-8` at the length of the longest front that is UTF-8. Of `list`, `order` and `print` it is `hex` at the first digit that is
/// none, or at the number of digits where that is odd, or a kind that begins with `Read-`, at an offset in the bytes, or of `print` one that
/// begins with `Print-`, at 0; of `compose` a kind that begins with `Plan-`. For any other words `USAGE` goes to `faults`, and nothing is
/// read.
///
/// `Done`, `Refused` and `Usage` are answered where all of that was written, whatever counts of
/// faults rose. The first `Failed` of a read or a write ends the run: `ReadFault` with nothing
/// written, `WriteFault` with a front of what was to be written. `NoMemory` comes for want of
/// memory, of `run` itself, which takes all its own before the first write, or of a sink that
/// answered so: a write that failed is never told as want of memory, nor the other way round.
pub fn run<S: Source, O: Sink, E: Sink>(
    alloc: Global,
    words: &[String],
    input: &mut S,
    output: &mut O,
    faults: &mut E,
) -> Status
    ensures ends { Ends (map string_bytes words.now) (change S.left S.faults input.old input.new)
        (change O.taken O.faults output.old output.new) (change E.taken E.faults faults.old faults.new)
        result }

    // Of the input at most `MAX_READ` bytes are read, and nothing for words that ask for none.
    ensures front { ReadsFront (S.left input.old) (S.left input.new) read_limit }
    ensures unread { ¬ (AskForInput (map string_bytes words.now)) → input.new ≡ input.old }

    // The first read that fails is the last one, and ends the run by `ReadFault`.
    ensures reads { ReadsOfRun S.read_gives input.old input.new result }

    // The first write that gives an error is the last one, and the run ends by that error.
    ensures writes { WritesOfRun O.write_gives E.write_gives output.old output.new faults.old faults.new result }

    // The sink that the status says nothing is written to isn't even called.
    ensures output_kept { LeavesOutput result → output.new ≡ output.old }
    ensures faults_kept { LeavesFaults result → faults.new ≡ faults.old }

    // No count of faults falls.
    ensures source_later { S.faults input.old ≤ S.faults input.new }
    ensures output_later { O.faults output.old ≤ O.faults output.new }
    ensures faults_later { E.faults faults.old ≤ E.faults faults.new }
{
    let command = match command_of(words) {
        Some(command) => command,
        None => return finish(faults, USAGE.as_bytes(), Status::Usage),
    };
    match reply_to(alloc, input, command) {
        Ok(Reply::Output(out)) => finish(output, &out, Status::Done),
        Ok(Reply::Faults(line)) => finish(faults, line.as_bytes(), Status::Refused),
        Err(ReadError::Failed) => Status::ReadFault,
        Err(ReadError::NoMemory) => Status::NoMemory,
    }
}

#[cfg(test)]
mod tests;
