//! What a command answers: the bytes for one of the two sinks.

ghost use Rattle.std.specs.Prelude.{◌≡◌, ◌<◌, ◌≤◌, ◌^◌, ◌++◌, ℕ, List, length, string_bytes, IfOk, IfErr, OnOk, IsErrOf, MatchResult};
ghost use Rattle.wast_component.specs.Answer.{text_limit, EncoderRefuses};
ghost use Rattle.comp_wire.specs.Origins.{origins_of};
ghost use Rattle.origin_lines.specs.Count.{marks_in};
ghost use Rattle.byte_streams.specs.Limits.{read_limit};
ghost use Rattle.byte_streams.specs.Outside.{Rose, ReadsFront, Reads, ReadsUntil};
ghost use Rattle.wast_prog.specs.Command.{ReadsInput};
ghost use Rattle.wast_prog.specs.Answer.{hex_line, number_line, sample_lines, IsPrinted, IsRefusalLine, Replies, RepliesAfter};

use crate::command::{Command, Print};
use binary_inputs::Told;
use byte_streams::{ReadError, Source, read_all};
use compose_replies::{Told as Composed, reply_to_plan};
use list_replies::{Ask, reply_to_binary};
use origin_lines::{count_marks, origin_lines, plan_costs_its_marks};
use print_replies::reply_to_print;
use sample_text::text_of;
use std::alloc::{AllocError, Global};
use std::fmt::Write;
use wast_component::{Encoded, component_binary, encode_component_text, encodings_are_light};
use wast_refusals::{kind_name, refusal_line};
use wast_tokens::{Error, MAX_TEXT};

/// What is to be written, and where.
#[derive(Drop)]
pub enum Reply {
    /// To the output.
    Output(Vec<u8>),
    /// To the faults.
    Faults(String),
}

/// The bytes in lower-case hexadecimal, and a line feed.
fn hex_line(alloc: Global, bytes: &[u8]) -> Result<Vec<u8>, AllocError>
    ensures { IfOk result (λ line. line.items ≡ hex_line bytes.now) }
{
    let mut line = hex::encode(alloc, bytes)?;
    line.push_str("\n")?;
    Ok(line.into_bytes())
}

/// The binary of a text in hexadecimal.
fn printed_hex(alloc: Global, text: &str, legacy: bool) -> Result<Vec<u8>, Error>
    ensures ok { IfOk result (λ out. IsPrinted text.now legacy Print.Hex out.items) }
    ensures err { IfErr result (λ e. EncoderRefuses text.now legacy e.kind e.offset) }
{
    let bytes = match component_binary(alloc, text, legacy) {
        Ok(bytes) => bytes,
        Err(refusal) => return Err(refusal),
    };
    match hex_line(alloc, &bytes) {
        Ok(line) => Ok(line),
        Err(error) => Err(Error::from(error)),
    }
}

/// The lines of a text's origins.
fn printed_origins(alloc: Global, text: &str, legacy: bool) -> Result<Vec<u8>, Error>
    ensures ok { IfOk result (λ out. IsPrinted text.now legacy Print.Origins out.items) }
    ensures err { IfErr result (λ e. EncoderRefuses text.now legacy e.kind e.offset) }
{
    let encoded = match encode_component_text(alloc, text, legacy) {
        Ok(encoded) => encoded,
        Err(refusal) => return Err(refusal),
    };
    match origin_lines(alloc, &encoded.origins) {
        Ok(lines) => Ok(lines.into_bytes()),
        Err(error) => Err(Error::from(error)),
    }
}

/// What is printed of the encoding of a text, or why it is refused.
fn printed(alloc: Global, text: &str, legacy: bool, print: Print) -> Result<Vec<u8>, Error>
    ensures ok { IfOk result (λ out. IsPrinted text.now legacy print out.items) }
    ensures err { IfErr result (λ e. EncoderRefuses text.now legacy e.kind e.offset) }
{
    match print {
        Print::Hex => printed_hex(alloc, text, legacy),
        Print::Raw => component_binary(alloc, text, legacy),
        Print::Origins => printed_origins(alloc, text, legacy),
    }
}

/// The line that says why a text is refused; want of memory has none.
fn line_of(alloc: Global, refusal: Error) -> Result<String, AllocError>
    ensures { IfOk result (λ line. IsRefusalLine refusal (string_bytes line)) }
{
    match kind_name(refusal.kind) {
        Some(name) => refusal_line(alloc, name, refusal.offset as usize),
        None => Err(AllocError),
    }
}

/// What is to be written for an input that isn't too big.
fn reply_to_text(
    alloc: Global,
    input: &[u8],
    legacy: bool,
    print: Print,
) -> Result<Reply, AllocError>
    requires { length input.now ≤ text_limit }
    ensures { IfOk result (Replies input.now (Command.Encode legacy print)) }
{
    let text = match str::from_utf8(input) {
        Ok(text) => text,
        Err(error) => {
            let line = refusal_line(alloc, "utf-8", error.valid_up_to())?;
            return Ok(Reply::Faults(line));
        }
    };
    match printed(alloc, text, legacy, print) {
        Ok(out) => Ok(Reply::Output(out)),
        Err(refusal) => Ok(Reply::Faults(line_of(alloc, refusal)?)),
    }
}

/// What is to be written for an input, which isn't too big, that has the binary of a component.
fn reply_to_component(alloc: Global, input: &[u8], raw: bool, ask: Ask) -> Result<Reply, AllocError>
    requires { length input.now ≤ text_limit }
    ensures { IfOk result (Replies input.now (Command.Binary raw ask)) }
{
    match reply_to_binary(alloc, input, raw, ask)? {
        Told::Output(lines) => Ok(Reply::Output(lines.into_bytes())),
        Told::Refusal(line) => Ok(Reply::Faults(line)),
    }
}

/// What is to be written for an input, which isn't too big, that has the binary of a component to be printed.
fn reply_to_printing(alloc: Global, input: &[u8], raw: bool) -> Result<Reply, AllocError>
    requires { length input.now ≤ text_limit }
    ensures { IfOk result (Replies input.now (Command.Text raw)) }
{
    match reply_to_print(alloc, input, raw)? {
        Told::Output(text) => Ok(Reply::Output(text.into_bytes())),
        Told::Refusal(line) => Ok(Reply::Faults(line)),
    }
}

/// What is to be written for an input, which isn't too big, that is a plan.
fn reply_to_composition(alloc: Global, input: &[u8], raw: bool) -> Result<Reply, AllocError>
    requires { length input.now ≤ text_limit }
    ensures { IfOk result (Replies input.now (Command.Compose raw)) }
{
    match reply_to_plan(alloc, input, raw)? {
        Composed::Output(out) => Ok(Reply::Output(out)),
        Composed::Refusal(line) => Ok(Reply::Faults(line)),
    }
}

/// What is to be written for a command and an input that isn't too big.
fn reply_to_whole(alloc: Global, input: &[u8], command: Command) -> Result<Reply, AllocError>
    requires { length input.now ≤ text_limit }
    ensures { IfOk result (Replies input.now command) }
{
    match command {
        Command::Encode { legacy, print } => reply_to_text(alloc, input, legacy, print),
        Command::Binary { raw, ask } => reply_to_component(alloc, input, raw, ask),
        Command::Text { raw } => reply_to_printing(alloc, input, raw),
        Command::Compose { raw } => reply_to_composition(alloc, input, raw),
        Command::Sample { count } => reply_to_sample(alloc, count),
    }
}

/// What is to be written for all that a source has, by a command that reads it.
fn reply_to_input<S: Source>(
    alloc: Global,
    input: &mut S,
    command: Command,
) -> Result<Reply, ReadError>
    requires { ReadsInput command }
    ensures ok { IfOk result (RepliesAfter (S.left input.old) command) }
    ensures front { ReadsFront (S.left input.old) (S.left input.new) read_limit }
    ensures later { S.faults input.old ≤ S.faults input.new }
    ensures cause { IsErrOf result ReadError.Failed → Rose (S.faults input.old) (S.faults input.new) }
    ensures reads { MatchResult result (λ _. Reads S.read_gives input.old input.new) (ReadsUntil S.read_gives input.old input.new) }
{
    let bytes = match read_all(alloc, input) {
        Ok(bytes) => bytes,
        Err(error) => return Err(error),
    };
    if bytes.len() > MAX_TEXT {
        let Ok(line) = refusal_line(alloc, "TooBig", 0) else {
            return Err(ReadError::NoMemory);
        };
        return Ok(Reply::Faults(line));
    }
    match reply_to_whole(alloc, &bytes, command) {
        Ok(reply) => Ok(reply),
        Err(_) => Err(ReadError::NoMemory),
    }
}

/// Appends a line with a word and a number.
fn push_number(lines: &mut String, word: &str, number: u64) -> Result<(), AllocError>
    ensures { OnOk result (string_bytes lines.new ≡ string_bytes lines.old ++ number_line word.now number) }
{
    writeln!(lines, "{word} {number}")
}

/// The lines with the numbers of a sample: the bytes of its text and of its binary, all its marks, and those of outer aliases.
fn sample_lines(alloc: Global, text: &str, encoded: &Encoded) -> Result<Vec<u8>, AllocError>
    requires few { marks_in (origins_of encoded.now.origins) < 2 ^ 64 }
    ensures { IfOk result (λ out. out.items ≡ sample_lines text.now encoded.now.bytes.items (origins_of encoded.now.origins)) }
{
    let Some(counts) = count_marks(&encoded.origins) else {
        unreachable!()
    };
    let mut lines = String::new(alloc);
    push_number(&mut lines, "text", text.len() as u64)?;
    push_number(&mut lines, "binary", encoded.bytes.len() as u64)?;
    push_number(&mut lines, "marks", counts.marks)?;
    push_number(&mut lines, "outer-aliases", counts.outer_aliases)?;
    Ok(lines.into_bytes())
}

/// What is to be written for a sample.
fn reply_to_sample(alloc: Global, count: u32) -> Result<Reply, AllocError>
    ensures { IfOk result (λ reply. (input : List ℕ) → Replies input (Command.Sample count) reply) }
{
    encodings_are_light();
    plan_costs_its_marks();
    let text = text_of(alloc, count)?;
    match encode_component_text(alloc, text.as_str(), false) {
        Ok(encoded) => Ok(Reply::Output(sample_lines(alloc, text.as_str(), &encoded)?)),
        Err(refusal) => Ok(Reply::Faults(line_of(alloc, refusal)?)),
    }
}

/// What is to be written for a command. A source that the command doesn't read stays as it is.
pub fn reply_to<S: Source>(
    alloc: Global,
    input: &mut S,
    command: Command,
) -> Result<Reply, ReadError>
    ensures ok { IfOk result (RepliesAfter (S.left input.old) command) }
    ensures front { ReadsFront (S.left input.old) (S.left input.new) read_limit }
    ensures unread { ¬ (ReadsInput command) → input.new ≡ input.old }
    ensures failed { IsErrOf result ReadError.Failed → ReadsInput command }
    ensures later { S.faults input.old ≤ S.faults input.new }
    ensures cause { IsErrOf result ReadError.Failed → Rose (S.faults input.old) (S.faults input.new) }
    ensures reads { MatchResult result (λ _. Reads S.read_gives input.old input.new) (ReadsUntil S.read_gives input.old input.new) }
{
    match command {
        Command::Encode { legacy, print } => {
            reply_to_input(alloc, input, Command::Encode { legacy, print })
        }
        Command::Binary { raw, ask } => {
            reply_to_input(alloc, input, Command::Binary { raw, ask })
        }
        Command::Text { raw } => reply_to_input(alloc, input, Command::Text { raw }),
        Command::Compose { raw } => reply_to_input(alloc, input, Command::Compose { raw }),
        Command::Sample { count } => match reply_to_sample(alloc, count) {
            Ok(reply) => Ok(reply),
            Err(_) => Err(ReadError::NoMemory),
        },
    }
}
