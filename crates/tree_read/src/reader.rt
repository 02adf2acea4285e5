//! A reader's place, with the numbers of the next two tokens.

ghost use Rattle.std.specs.Prelude.{◌≡◌, ◌<◌, ◌≤◌, ◌+◌, false};
ghost use Rattle.wast_grammar.specs.Classes.{same, among, finish};
ghost use Rattle.wast_grammar.specs.Stand.{IsInside, Stand, class_at, class_after, moved, offset_of};
ghost use Rattle.wast_grammar.specs.Grammar.{a_text, a_binary, a_number, an_id, text, num, none, checked, nothing, holds};
ghost use Rattle.text_table.specs.Code.{one_class, test_of};
ghost use Rattle.wast_grammar.specs.Read.{read, start_of};
ghost use Rattle.wast_parser.specs.View.{text_of, stand_of, id_view};
ghost use Rattle.token_codes.specs.Numbers.{number};
ghost use Rattle.tree_read.specs.Comes.{Took, TookIndex, Kept, Gives};

use crate::fault::{Fault, fault_of};
use std::alloc::Global;
use std::marker::Model;
use text_table::rule::Test;
use token_codes::numbers::{ID, OTHER};
use token_codes::{number_at, number_behind, number_next};
use wast_parser::{Cursor, Id, Index, ParseBuffer, ParseView, Parser, Span};
use wast_tokens::numeral;

/// A reader's place.
#[derive(Drop)]
pub(crate) struct Reader<'a> {
    parser: Parser<'a>,
    code: u8,
    ahead: u8,
}

impl<'a> Model for Reader<'a> {
    ghost use Rattle.std.specs.Prelude.{◌≡◌};
    ghost use Rattle.wast_grammar.specs.Stand.{Stand, class_at, class_after};
    ghost use Rattle.token_codes.specs.Numbers.{number};

    ghost Value = { Stand };

    ghost view = { λ r. r.parser };

    ghost invariant = { λ r. (r.code ≡ number (class_at r.parser)) × (r.ahead ≡ number (class_after r.parser)) };
}

impl<'a> Reader<'a> {
    /// A reader before the first token of a buffer.
    pub(crate) fn at_start(buffer: &'a ParseBuffer<'a>) -> Reader<'a>
        ensures { result ≡ start_of (text_of buffer.now) }
    {
        let parser = Parser::at_start(buffer);
        let code = number_at(parser.cursor());
        let ahead = number_behind(parser.cursor());
        Reader {
            parser,
            code,
            ahead,
        }
    }

    /// A reader that stands where a parser does, which stays.
    pub(crate) fn behind(parser: &Parser<'a>) -> Reader<'a>
        ensures { result ≡ parser.now }
    {
        let code = number_at(parser.cursor());
        let ahead = number_behind(parser.cursor());
        Reader {
            parser: parser.fork(),
            code,
            ahead,
        }
    }

    /// A parser that stands where the reader does.
    pub(crate) fn into_parser(self) -> Parser<'a>
        ensures { result ≡ self.entry }
    {
        self.parser
    }

    /// The number of the next token.
    #[inline]
    pub(crate) fn code(&self) -> u8
        ensures { result ≡ number (class_at self.now) }
    {
        self.code
    }

    /// The number of the token behind it.
    #[inline]
    pub(crate) fn ahead(&self) -> u8
        ensures { result ≡ number (class_after self.now) }
    {
        self.ahead
    }

    /// The parser, to look further ahead.
    #[inline]
    pub(crate) fn parser(&self) -> &Parser<'a>
        ensures { result.now ≡ self.now }
    {
        &self.parser
    }

    /// Where the next token begins.
    #[inline]
    pub(crate) fn offset(&self) -> u32
        ensures { result ≡ offset_of self.now }
    {
        self.parser.cur_span().offset
    }

    /// The first word of what is read from here on: behind a parenthesis, where one is next.
    #[inline]
    pub(crate) fn word(&self) -> Span {
        match self.parser.cursor().lparen() {
            Some(behind) => {
                let mut ahead = self.parser.fork();
                ahead.advance(behind);
                ahead.cur_span()
            }
            None => self.parser.cur_span(),
        }
    }

    /// Goes behind the next token.
    #[inline]
    pub(crate) fn pass(&mut self)
        requires { same (class_at self.old) finish ≡ false }
        ensures { self.new ≡ moved self.old 1 }
    {
        let behind = self.parser.cursor().behind();
        self.parser.advance(behind);
        self.code = self.ahead;
        self.ahead = number_behind(self.parser.cursor());
    }

    /// Goes to a place further on, over the token behind the next one, and says where that begins.
    #[inline]
    pub(crate) fn go(&mut self, to: Cursor<'a>) -> u32
        requires token { same (class_at self.old) finish ≡ false }
        requires text { (stand_of to).text ≡ self.old.text }
        requires forward { self.old.at + 1 ≤ to.at }
        requires inside { IsInside (stand_of to) }
        ensures offset { result ≡ offset_of (moved self.old 1) }
        ensures place { self.new ≡ stand_of to.entry }
    {
        let behind = self.parser.cursor().behind();
        self.parser.advance(behind);
        let offset = self.parser.cur_span().offset;
        self.parser.advance(to);
        self.code = number_next(self.parser.cursor());
        self.ahead = number_behind(self.parser.cursor());
        offset
    }

    /// Whether a token of the class of a number is next; of no class where the number tells none.
    #[inline]
    pub(crate) fn is_next(&self, code: u8) -> bool
        ensures { result ≡ among (one_class code) (class_at self.now) }
    {
        self.code == code && code < OTHER
    }

    /// Whether a token of the class of a number stands behind the next one.
    #[inline]
    pub(crate) fn is_behind(&self, code: u8) -> bool
        ensures { result ≡ among (one_class code) (class_after self.now) }
    {
        self.ahead == code && code < OTHER
    }

    /// Takes a token of the class of a number.
    #[inline]
    pub(crate) fn take(&mut self, code: u8) -> Result<(), Fault>
        requires { 0 < code }
        ensures { Took (one_class code) result self.old self.new }
    {
        if self.is_next(code) {
            self.pass();
            Ok(())
        } else {
            Err(Fault::Parse)
        }
    }

    /// Takes a text.
    pub(crate) fn text(&mut self) -> Result<&'a str, Fault>
        ensures { Kept (λ t. text t.now) a_text result self.old self.new }
    {
        match self.parser.cursor().string() {
            Some((bytes, _)) => match str::from_utf8(bytes) {
                Ok(text) => {
                    self.pass();
                    Ok(text)
                }
                Err(_) => Err(Fault::Parse),
            },
            None => Err(Fault::Parse),
        }
    }

    /// Takes a string that isn't UTF-8.
    pub(crate) fn bytes(&mut self) -> Result<&'a [u8], Fault>
        ensures { Kept (λ t. text t.now) a_binary result self.old self.new }
    {
        match self.parser.cursor().string() {
            Some((bytes, _)) => match str::from_utf8(bytes) {
                Ok(_) => Err(Fault::Parse),
                Err(_) => {
                    self.pass();
                    Ok(bytes)
                }
            },
            None => Err(Fault::Parse),
        }
    }

    /// Takes a number.
    pub(crate) fn count(&mut self) -> Result<u32, Fault>
        ensures { Kept num a_number result self.old self.new }
    {
        match self.parser.cursor().integer() {
            Some((spelled, _)) => match numeral(spelled.as_bytes()) {
                Some(number) => {
                    self.pass();
                    Ok(number)
                }
                None => Err(Fault::Parse),
            },
            None => Err(Fault::Parse),
        }
    }

    /// Takes an id.
    pub(crate) fn id(&mut self) -> Result<Id<'a>, Fault>
        ensures { Kept id_view an_id result self.old self.new }
    {
        match self.parser.cursor().id() {
            Some((id, _)) => {
                self.pass();
                Ok(id)
            }
            None => Err(Fault::Parse),
        }
    }

    /// Whether a checked item may begin here.
    #[inline]
    pub(crate) fn depth_check(&self) -> Result<(), Fault>
        ensures { Gives (λ _. none) result self.now (read (checked nothing) self.now) }
    {
        match self.parser.depth_check() {
            Ok(()) => Ok(()),
            Err(refusal) => Err(fault_of(refusal)),
        }
    }

    /// Reads by a reader of the parser.
    pub(crate) fn parse<T: ParseView<'a>>(&mut self, alloc: Global) -> Result<T, Fault>
        ensures { Gives T.view result self.new (read T.grammar self.old) }
    {
        let value = self.parser.parse_view::<T>(alloc);
        self.code = number_at(self.parser.cursor());
        self.ahead = number_behind(self.parser.cursor());
        match value {
            Ok(value) => Ok(value),
            Err(refusal) => Err(fault_of(refusal)),
        }
    }

    /// Takes an index.
    pub(crate) fn index(&mut self) -> Result<Index<'a>, Fault>
        ensures { TookIndex result self.old self.new }
    {
        if self.code == ID {
            return Ok(Index::Id(self.id()?));
        }
        let span = self.parser.cur_span();
        let number = self.count()?;
        Ok(Index::Num(number, span))
    }

    /// Whether a test of the next tokens holds.
    #[inline]
    pub(crate) fn holds(&self, test: &Test<'_>) -> bool
        ensures { result ≡ holds (test_of test.now) self.now }
    {
        text_table::holds(test, &self.parser, self.code, self.ahead)
    }
}
