//! A text that is printed token by token: one space stands between two tokens, but none behind `(` and none in front of `)`.
//!
//! A printer counts the bytes of the text or keeps them, so that one walk over a tree serves to measure its text and to print it.

ghost use Rattle.std.specs.Prelude.{◌≡◌, ◌+◌, ◌<◌, ◌^◌, [], true, OnOk, IfOk, string_bytes};
ghost use Rattle.print_table.specs.TextOf.{results_tokens};
ghost use Rattle.tree_print.specs.Taken.{token_of, spaced, append, capped, written_of, written_length, written_bytes, tight_behind, taken, step, put, counted, kept};

use crate::size::{results_size, spaced_size};
use crate::token::{Token, is_opening, push_spaced};
use std::alloc::{AllocError, Global};

/// What becomes of the bytes.
#[derive(Drop)]
enum Output {
    /// They are counted; `u64::MAX` stands for every greater number.
    Count(u64),
    /// They are kept.
    Text(String),
}

/// What was printed so far.
#[derive(Drop)]
pub struct Printer {
    /// What became of it.
    output: Output,
    /// Whether the next token follows without a space: behind `(`, and where nothing was printed.
    tight: bool,
}

/// So many more bytes.
fn more_bytes(count: u64, more: u64) -> u64
    ensures sum { result ≡ capped (count + more) }
    ensures small { count < 2 ^ 64 }
{
    count.saturating_add(more)
}

/// Prints a token, with the space in front of it where one stands.
fn put_spaced(output: &mut Output, tight: bool, token: Token<'_>) -> Result<(), AllocError>
    ensures { OnOk result (written_of output.new ≡ append (spaced tight (token_of token.entry)) (written_of output.old)) }
{
    match output {
        Output::Count(count) => {
            *count = more_bytes(*count, spaced_size(tight, token));
            Ok(())
        }
        Output::Text(text) => push_spaced(text, tight, token),
    }
}

/// Whether the next token follows without a space behind so many results.
#[tactic(auto, using(crate::proofs::Puts::results_loose))]
fn tight_behind_results(tight: bool, count: u32) -> bool
    ensures { result ≡ tight_behind tight (results_tokens count) }
{
    if count == 0 {
        return tight;
    }
    false
}

impl Printer {
    /// One that counts, before the first token.
    pub fn counting() -> Printer
        ensures written { (taken result).written ≡ counted 0 }
        ensures tight { (taken result).tight ≡ true }
    {
        Printer {
            output: Output::Count(0),
            tight: true,
        }
    }

    /// One that keeps, before the first token, with room for so many bytes. It is refused where memory ran out.
    pub fn keeping(alloc: Global, room: usize) -> Result<Printer, AllocError>
        ensures written { IfOk result (λ p. (taken p).written ≡ kept []) }
        ensures tight { IfOk result (λ p. (taken p).tight ≡ true) }
    {
        let text = String::with_capacity(alloc, room)?;
        Ok(Printer {
            output: Output::Text(text),
            tight: true,
        })
    }

    /// Prints one more token. It is refused where memory ran out.
    #[tactic(auto, unfolding(crate::specs::Taken::step))]
    pub fn put(&mut self, token: Token<'_>) -> Result<(), AllocError>
        ensures { OnOk result (taken self.new ≡ step (token_of token.entry) (taken self.old)) }
    {
        put_spaced(&mut self.output, self.tight, token)?;
        self.tight = is_opening(token);
        Ok(())
    }
    /// Prints `(result (value))`.
    fn put_result(&mut self) -> Result<(), AllocError>
        ensures { OnOk result (taken self.new ≡ put (results_tokens 1) (taken self.old)) }
    {
        self.put(Token::Opening)?;
        self.put(Token::Word("result"))?;
        self.put(Token::Opening)?;
        self.put(Token::Word("value"))?;
        self.put(Token::Closing)?;
        self.put(Token::Closing)
    }

    /// Prints so many results of a start function, one by one.
    fn put_each_result(&mut self, count: u32) -> Result<(), AllocError>
        ensures { OnOk result (taken self.new ≡ put (results_tokens count) (taken self.old)) }
    {
        for _ in 0..count {
            self.put_result()?;
        }
        Ok(())
    }

    /// Prints so many results of a start function, `(result (value))` for each. Where bytes are counted, it takes no longer for many than
    /// for one. It is refused where memory ran out.
    pub fn put_results(&mut self, count: u32) -> Result<(), AllocError>
        ensures { OnOk result (taken self.new ≡ put (results_tokens count) (taken self.old)) }
    {
        match &mut self.output {
            Output::Count(bytes) => {
                *bytes = more_bytes(*bytes, results_size(self.tight, count));
                self.tight = tight_behind_results(self.tight, count);
                Ok(())
            }
            Output::Text(_) => self.put_each_result(count),
        }
    }
    /// How many bytes were printed; of those that are counted, `u64::MAX` stands for every greater number.
    pub fn length(&self) -> u64
        ensures { result ≡ written_length (taken self.now).written }
    {
        match &self.output {
            Output::Count(count) => *count,
            Output::Text(text) => text.len() as u64,
        }
    }

    /// The text, where it was kept, else the empty one.
    pub fn into_text(self, alloc: Global) -> String
        ensures { string_bytes result ≡ written_bytes (taken self).written }
    {
        match self.output {
            Output::Count(_) => String::new(alloc),
            Output::Text(text) => text,
        }
    }
}
