//! Runs: the tokens other than parentheses and annotations.

ghost use Rattle.std.specs.Prelude.{◌≡◌, ◌≤◌, ◌<◌, ◌+◌, IfOk, MatchResult, Ok, length, slice_index};
ghost use Rattle.std.specs.Bool.{MatchBool, OnTrue};
ghost use Rattle.wast_tokens.specs.declared.chars.Beginning.TheVariants.{Run};
ghost use Rattle.wast_tokens.specs.declared.token.TokenKind.TheVariants.{Reserved};
ghost use Rattle.wast_tokens.specs.Along.{Along};
ghost use Rattle.wast_tokens.specs.Chars.{beginning_at, word_end};
ghost use Rattle.wast_tokens.specs.Runs.{IsPart, IsBrokenRun, word_kind, named_kind, string_of};
ghost use Rattle.wast_tokens.specs.Steps.{IsRunOfKind, IsStoppedRun};

use crate::chars::{Beginning, beginning_at, word_end};
use crate::error::LexFault;
use crate::numbers::is_integer;
use crate::strings::{Fault, push_decoded, string_end};
use crate::token::TokenKind;
use std::alloc::{AllocError, Global};

/// A run: its kind, or what is wrong with it, and where it ends.
#[derive(Clone, Copy)]
pub struct Classified {
    pub kind: Result<TokenKind, LexFault>,
    pub end: usize,
}

/// Why a run has no end that is found.
#[derive(Clone, Copy)]
pub enum Stop {
    /// For a fault.
    Fault(Fault),
    /// For want of memory.
    NoMemory,
}

/// Whether a run begins at a place, or goes on there.
#[inline]
pub fn goes_on(text: &[u8], at: usize) -> bool
    requires here { at ≤ length text.now }
    ensures goes_on { MatchBool result (beginning_at text.now at ≡ Run) (¬ (beginning_at text.now at ≡ Run)) }
    ensures within { OnTrue result (at < length text.now) }
{
    matches!(beginning_at(text, at), Beginning::Run)
}

/// Where a run ends, of which some parts or none stand before a place.
pub fn run_end(text: &[u8], from: usize) -> Result<usize, Fault>
    requires here { from ≤ length text.now }
    ensures end { MatchResult result (λ end. Along (IsPart text.now) from end × ¬ (beginning_at text.now end ≡ Run)) (λ f. IsBrokenRun text.now from f.fault f.place) }
    ensures within { IfOk result (λ end. (from ≤ end) × (end ≤ length text.now)) }
{
    let mut end = from;
    while goes_on(text, end) {
        if text[end] == b'"' {
            end = string_end(text, end)?;
        } else {
            end += 1;
        }
    }
    Ok(end)
}

/// The kind of a run of id characters alone.
#[tactic(auto, using(crate::proofs::Keywords::keyword_kind), unfolding(crate::specs::Runs::word_kind))]
fn word_kind(run: &[u8]) -> Result<TokenKind, LexFault>
    requires some { 0 < length run.now }
    ensures kind { result ≡ word_kind run.now }
{
    if run[0].is_ascii_lowercase() {
        Ok(TokenKind::Keyword)
    } else if run[0] == b'$' {
        if run.len() == 1 {
            Err(LexFault::EmptyId)
        } else {
            Ok(TokenKind::Id)
        }
    } else if is_integer(run) {
        Ok(TokenKind::Integer)
    } else {
        Ok(TokenKind::Reserved)
    }
}

/// The kind of a run that is `$` and a string with a value.
#[tactic(auto, unfolding(crate::specs::Runs::named_kind))]
fn named_kind(name: &[u8]) -> Result<TokenKind, LexFault>
    ensures kind { result ≡ named_kind name.now }
{
    if name.is_empty() {
        return Err(LexFault::EmptyId);
    }
    match str::from_utf8(name) {
        Ok(_) => Ok(TokenKind::Id),
        Err(_) => Err(LexFault::BadIdText),
    }
}

/// The kind of a run that is `$` and a string, given without its `$`. A string without an escape stands for itself, and takes no memory.
#[tactic(auto, using(crate::proofs::Decoding::decoded_plain))]
fn quoted_kind(alloc: Global, string: &[u8]) -> Result<Result<TokenKind, LexFault>, AllocError>
    requires quotes { 2 ≤ length string.now }
    ensures kind { IfOk result (λ kind. kind ≡ named_kind (string_of string.now)) }
{
    let inside = &string[1..string.len() - 1];
    if !inside.contains(&b'\\') {
        return Ok(named_kind(inside));
    }
    let mut name = Vec::with_capacity(alloc, inside.len())?;
    push_decoded(&mut name, inside)?;
    Ok(named_kind(name.as_slice()))
}

/// A reserved run.
#[inline]
fn reserved(end: usize) -> Classified
    ensures end { result.end ≡ end }
    ensures kind { result.kind ≡ Ok Reserved }
{
    Classified {
        kind: Ok(TokenKind::Reserved),
        end,
    }
}

/// The run that begins at a place, whose first string begins at `quote`, behind its first id characters.
fn run_with_string(alloc: Global, text: &[u8], at: usize, quote: usize) -> Result<Classified, Stop>
    requires begins { beginning_at text.now at ≡ Run }
    requires quote { quote ≡ word_end text.now at }
    requires opened { slice_index text.now quote ≡ 34 }
    ensures run { MatchResult result (IsRunOfKind text.now at) (IsStoppedRun text.now at) }
{
    let close = match string_end(text, quote) {
        Ok(close) => close,
        Err(fault) => return Err(Stop::Fault(fault)),
    };
    let end = match run_end(text, close) {
        Ok(end) => end,
        Err(fault) => return Err(Stop::Fault(fault)),
    };
    if end != close {
        return Ok(reserved(end));
    }
    if quote == at {
        return Ok(Classified {
            kind: Ok(TokenKind::Text),
            end,
        });
    }
    if quote != at + 1 {
        return Ok(reserved(end));
    }
    if text[at] != b'$' {
        return Ok(reserved(end));
    }
    let string = &text[quote..end];
    match quoted_kind(alloc, string) {
        Ok(kind) => Ok(Classified { kind, end }),
        Err(_) => Err(Stop::NoMemory),
    }
}

/// The run that begins at a place, or why none does.
pub fn run_at(alloc: Global, text: &[u8], at: usize) -> Result<Classified, Stop>
    requires begins { beginning_at text.now at ≡ Run }
    requires here { at < length text.now }
    ensures run { MatchResult result (IsRunOfKind text.now at) (IsStoppedRun text.now at) }
{
    let word = word_end(text, at);
    if !goes_on(text, word) {
        return Ok(Classified {
            kind: word_kind(&text[at..word]),
            end: word,
        });
    }
    if text[word] == b'"' {
        return run_with_string(alloc, text, at, word);
    }
    match run_end(text, word) {
        Ok(end) => Ok(reserved(end)),
        Err(fault) => Err(Stop::Fault(fault)),
    }
}
