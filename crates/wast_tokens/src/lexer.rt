//! Cuts a text into tokens.
//!
//! The text comes as it was read; the tokens go to the readers, by their places alone.

ghost use Rattle.std.specs.Prelude.{◌≡◌, ◌<◌, ◌≤◌, length, IfOk, IfErr, MatchResult, vec_len};
ghost use Rattle.std.specs.List.{All};
ghost use Rattle.wast_tokens.specs.declared.chars.Beginning.TheVariants.{Annotation, Run};
ghost use Rattle.wast_tokens.specs.Chars.{beginning_at};
ghost use Rattle.wast_tokens.specs.Tiling.{IsTiling};
ghost use Rattle.wast_tokens.specs.Lexing.{LexRefuses, IsPlaced, ArePlaced, IsCutOnce, IsNeverBoth, HasOneFault, IsOneOfBoth};
ghost use Rattle.wast_tokens.specs.Spelled.{IsSpelled};
ghost use Rattle.wast_tokens.specs.Steps.{IsStep, IsStop, HasPlaceBelow, refusal_of};

use crate::blocks::block_end;
use crate::chars::{Beginning, beginning_at, line_end, word_end};
use crate::error::{Error, ErrorKind, LexFault};
use crate::runs::{Stop, goes_on, run_at, run_end};
use crate::strings::Fault;
use crate::token::{Token, TokenKind};
use std::alloc::Global;

/// The most bytes that a text can have.
pub const MAX_TEXT: usize = 67_108_864;

/// What begins at a place.
enum Step {
    /// What stands between tokens, up to a place.
    Gap(usize),
    /// A token.
    Whole(Token),
}

/// The token of a kind between two places.
#[inline]
fn token(kind: TokenKind, start: usize, end: usize) -> Step
    requires ordered { start ≤ end }
    requires small { end ≤ 67_108_864 }
    ensures token { result ≡ Step.Whole (record { kind = kind; start = start; end = end }) }
{
    Step::Whole(Token {
        kind,
        start: start as u32,
        end: end as u32,
    })
}

/// That a fault shows at a place.
#[inline]
fn stop(fault: LexFault, place: usize) -> Stop
    ensures stop { result ≡ Stop.Fault (record { fault = fault; place = place }) }
{
    Stop::Fault(Fault { fault, place })
}

/// The annotation whose `(@` stands at a place, or why none does.
fn annotation_at(text: &[u8], at: usize) -> Result<Step, Stop>
    requires begins { beginning_at text.now at ≡ Annotation }
    requires small { length text.now ≤ 67_108_864 }
    ensures step { MatchResult result (IsStep text.now at) (IsStop text.now at) }
{
    let end = word_end(text, at + 2);
    if end == at + 2 {
        return Err(stop(LexFault::EmptyId, at));
    }
    if goes_on(text, end) {
        return match run_end(text, end) {
            Ok(_) => Err(stop(LexFault::Glued, end)),
            Err(fault) => Err(Stop::Fault(fault)),
        };
    }
    Ok(token(TokenKind::Annotation, at, end))
}

/// The run that begins at a place, as a token, or why none does.
#[inline]
fn run_token(alloc: Global, text: &[u8], at: usize) -> Result<Step, Stop>
    requires begins { beginning_at text.now at ≡ Run }
    requires here { at < length text.now }
    requires small { length text.now ≤ 67_108_864 }
    ensures step { MatchResult result (IsStep text.now at) (IsStop text.now at) }
{
    match run_at(alloc, text, at) {
        Ok(found) => match found.kind {
            Ok(kind) => Ok(token(kind, at, found.end)),
            Err(fault) => Err(stop(fault, at)),
        },
        Err(stop) => Err(stop),
    }
}

/// What begins at a place, or why nothing does.
#[inline]
fn step_at(alloc: Global, text: &[u8], at: usize) -> Result<Step, Stop>
    requires here { at < length text.now }
    requires small { length text.now ≤ 67_108_864 }
    ensures step { MatchResult result (IsStep text.now at) (IsStop text.now at) }
{
    match beginning_at(text, at) {
        Beginning::Run => run_token(alloc, text, at),
        Beginning::Space => Ok(Step::Gap(at + 1)),
        Beginning::Opening => Ok(token(TokenKind::LParen, at, at + 1)),
        Beginning::Closing => Ok(token(TokenKind::RParen, at, at + 1)),
        Beginning::Annotation => annotation_at(text, at),
        Beginning::LineComment => Ok(Step::Gap(line_end(text, at + 2))),
        Beginning::BlockComment => match block_end(text, at) {
            Some(end) => Ok(Step::Gap(end)),
            None => Err(stop(LexFault::UnclosedComment, at)),
        },
        Beginning::Nothing => Err(stop(LexFault::BadChar, at)),
    }
}

/// The refusal of a text that can't be cut at some place.
fn refusal(stop: Stop) -> Error
    requires fits { HasPlaceBelow 4_294_967_296 stop }
    ensures refusal { result ≡ refusal_of stop }
{
    match stop {
        Stop::Fault(fault) => Error {
            kind: ErrorKind::Lex(fault.fault),
            offset: fault.place as u32,
        },
        Stop::NoMemory => Error {
            kind: ErrorKind::NoMemory,
            offset: 0,
        },
    }
}

/// The tokens of a text, without the white space and comments between them.
///
/// Refused are a text of more than [`MAX_TEXT`] bytes, by `TooBig` with its length at offset 0, and
/// one that can't be cut, by `Lex` with the first fault and the byte offset at which it stands.
/// Where memory for a token runs out, the answer is `NoMemory` at offset 0.
///
/// The rules are those of the WebAssembly text format, Lexical Format, with annotations. A string may
/// hold any bytes by its escapes; an id in quotes is UTF-8 and not empty.
pub fn lex(alloc: Global, text: &str) -> Result<Vec<Token>, Error>
    ensures small { IfOk result (λ tokens. length text.now ≤ 67_108_864) }
    ensures tiling { IfOk result (λ tokens. IsTiling text.now tokens.items) }
    ensures placed { IfOk result (λ tokens. All (IsPlaced text.now) tokens.items) }
    ensures in_order { IfOk result (λ tokens. ArePlaced text.now 0 tokens.items) }
    ensures spelled { IfOk result (λ tokens. All (IsSpelled text.now) tokens.items) }
    ensures few { IfOk result (λ tokens. vec_len tokens ≤ length text.now) }
    ensures refused { IfErr result (λ e. LexRefuses text.now e.kind e.offset) }
{
    let bytes = text.as_bytes();
    if bytes.len() > MAX_TEXT {
        return Err(Error {
            kind: ErrorKind::TooBig {
                found: bytes.len() as u64,
                limit: MAX_TEXT as u64,
            },
            offset: 0,
        });
    }
    let mut tokens = Vec::new(alloc);
    let mut at = 0;
    while at < bytes.len() {
        match step_at(alloc, bytes, at) {
            Ok(Step::Gap(end)) => at = end,
            Ok(Step::Whole(token)) => {
                if tokens.push(token).is_err() {
                    return Err(refusal(Stop::NoMemory));
                }
                at = token.end as usize;
            }
            Err(stop) => return Err(refusal(stop)),
        }
    }
    Ok(tokens)
}

/// The laws of the cut: a text has one tiling or one first fault, and never both.
pub fn one_tiling_or_fault()
    ensures once { IsCutOnce }
    ensures never_both { IsNeverBoth }
    ensures one_fault { HasOneFault }
    ensures one_of_both { IsOneOfBoth }
{}
