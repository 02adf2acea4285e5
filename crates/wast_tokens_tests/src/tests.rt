//! Texts with the tokens that they are cut into, and texts with their faults.

use std::alloc::Global;
use std::test::Fail;
use wast_tokens::{CoreRule, Error, ErrorKind, FormKind, LexFault, Token, TokenKind, lex};

/// A letter for each kind of token.
fn letter(kind: TokenKind) -> u8 {
    match kind {
        TokenKind::LParen => b'(',
        TokenKind::Annotation => b'@',
        TokenKind::RParen => b')',
        TokenKind::Text => b'"',
        TokenKind::Id => b'$',
        TokenKind::Integer => b'0',
        TokenKind::Keyword => b'a',
        TokenKind::Reserved => b'!',
    }
}

/// Texts, and the kinds of their tokens by letters.
const GAPS: [(&str, &str); 24] = [
    ("", ""),
    (" \t\r\n", ""),
    ("a\r\nb", "aa"),
    (";;", ""),
    (";; a (; \"\nb", "a"),
    (";; a\rb", "a"),
    (";;é\u{0}\u{7f}\u{feff}", ""),
    ("a;;b", "a"),
    ("a;b", "!"),
    (";", "!"),
    ("; ;", "!!"),
    ("a;(;;)", "!"),
    ("(;;)", ""),
    ("(;)a;)b", "a"),
    ("(;(;;);)a", "a"),
    ("(; ;; ;)a", "a"),
    ("(; (; ;)a;)b", "a"),
    ("(;\"(;\";);)a", "a"),
    ("(;é\u{0}\u{7f};)", ""),
    ("a(;;)b", "aa"),
    ("(a)", "(a)"),
    ("()()", "()()"),
    ("a)b(", "a)a("),
    (";)", "!)"),
];

const STRINGS: [(&str, &str); 18] = [
    ("\"\"", "\""),
    (
        "\" ~\u{80}\u{7ff}\u{800}\u{ffff}\u{10000}\u{10ffff}\"",
        "\"",
    ),
    ("\"\\t\\n\\r\\\"\\'\\\\\"", "\""),
    ("\"\\00\\7F\\fF\\Aa\"", "\""),
    ("\"\\u{0}\\u{d7ff}\\u{e000}\\u{10ffff}\"", "\""),
    ("\"\\u{1_0}\\u{1_0F_fff}\"", "\""),
    ("\"\\u{000000000000000000000000000041}\"", "\""),
    ("\";;(;$(@\"", "\""),
    ("\"a\" \"b\"", "\"\""),
    ("\"a\"\"b\"", "!"),
    ("\"a\"b", "!"),
    ("a\"b\"", "!"),
    ("\"a\",", "!"),
    ("\"a\";", "!"),
    ("\"a\";;", "\""),
    ("\"a\"(\"b\")", "\"(\")"),
    ("\"a\"(;;)\"b\"", "\"\""),
    ("0\"\"", "!"),
];

const IDS: [(&str, &str); 18] = [
    ("$a", "$"),
    ("$0", "$"),
    ("$$", "$"),
    ("$!#$%&'*+-./:<=>?@\\^_`|~", "$"),
    ("$a$b", "$"),
    ("$a $b", "$$"),
    ("$a(", "$("),
    ("$a;;", "$"),
    ("$\"a b\"", "$"),
    ("$\"\\61\\u{62}\"", "$"),
    ("$\"é\\c3\\a9\"", "$"),
    ("$\"a\"b", "!"),
    ("$\"a\"\"b\"", "!"),
    ("$a\"b\"", "!"),
    ("$$\"b\"", "!"),
    ("$,", "!"),
    ("$\"\\ff\"x", "!"),
    ("$\"\",", "!"),
];

const RUNS: [(&str, &str); 37] = [
    ("0", "0"),
    ("007", "0"),
    ("18446744073709551616", "0"),
    ("1_000_0", "0"),
    ("+1", "0"),
    ("-0", "0"),
    ("0x1", "0"),
    ("-0xAf_09", "0"),
    ("+0x0", "0"),
    ("1_", "!"),
    ("_1", "!"),
    ("1__0", "!"),
    ("+_1", "!"),
    ("0x", "!"),
    ("0x_1", "!"),
    ("0x1_", "!"),
    ("0X1", "!"),
    ("0x1g", "!"),
    ("1a", "!"),
    ("1.0", "!"),
    ("1,", "!"),
    ("+", "!"),
    ("+-1", "!"),
    ("x1", "a"),
    ("a", "a"),
    ("z", "a"),
    ("i32.const", "a"),
    ("a_Z-9", "a"),
    ("A", "!"),
    ("`a", "!"),
    ("|", "!"),
    ("a,b", "!"),
    ("[0]", "!"),
    ("{}", "!"),
    ("a [", "a!"),
    ("@a", "!"),
    ("=", "!"),
];

const ANNOTATIONS: [(&str, &str); 11] = [
    ("(@a)", "@)"),
    ("(@a b)", "@a)"),
    ("(@$)", "@)"),
    ("(@0@", "@"),
    ("(@@", "@"),
    ("(@a(b", "@(a"),
    ("(@a(;;)b", "@a"),
    ("(@a;;b", "@"),
    ("x(@a)", "a@)"),
    ("( @a", "(!"),
    ("((@a", "(@"),
];

/// Texts with their fault and its offset.
const FAULTS: [(&str, LexFault, u32); 68] = [
    ("\"", LexFault::UnclosedString, 0),
    ("(component (import \"i", LexFault::UnclosedString, 19),
    ("a\"b", LexFault::UnclosedString, 1),
    ("\"a\\\"", LexFault::UnclosedString, 0),
    ("x\"a\"\"b", LexFault::UnclosedString, 4),
    ("\"\\\\\\\"", LexFault::UnclosedString, 0),
    ("\"a\nb\"", LexFault::BadStringChar, 2),
    ("\"\u{1f}\"", LexFault::BadStringChar, 1),
    ("\"\u{7f}\"", LexFault::BadStringChar, 1),
    ("\"\t\"", LexFault::BadStringChar, 1),
    ("\"\0\"", LexFault::BadStringChar, 1),
    ("\"é\r", LexFault::BadStringChar, 3),
    ("$\"\n\"", LexFault::BadStringChar, 2),
    ("\"\\a\"", LexFault::BadEscape, 1),
    ("\"\\g0\"", LexFault::BadEscape, 1),
    ("\"\\0g\"", LexFault::BadEscape, 1),
    ("\"\\x41\"", LexFault::BadEscape, 1),
    ("\"\\T\"", LexFault::BadEscape, 1),
    ("\"é\\q\"", LexFault::BadEscape, 3),
    ("\"\\u{}\"", LexFault::BadEscape, 1),
    ("\"\\u{d800}\"", LexFault::BadEscape, 1),
    ("\"\\u{dfff}\"", LexFault::BadEscape, 1),
    ("\"\\u{110000}\"", LexFault::BadEscape, 1),
    ("\"\\u{100000000000000000041}\"", LexFault::BadEscape, 1),
    ("\"\\u{_1}\"", LexFault::BadEscape, 1),
    ("\"\\u{1_}\"", LexFault::BadEscape, 1),
    ("\"\\u{1__0}\"", LexFault::BadEscape, 1),
    ("\"\\u{g}\"", LexFault::BadEscape, 1),
    ("\"\\u41\"", LexFault::BadEscape, 1),
    ("\"\\U{41}\"", LexFault::BadEscape, 1),
    ("\"\\u{41\"", LexFault::BadEscape, 1),
    ("\"\\", LexFault::BadEscape, 1),
    ("\"\\u{41", LexFault::BadEscape, 1),
    ("(;", LexFault::UnclosedComment, 0),
    ("(;)", LexFault::UnclosedComment, 0),
    ("(;;", LexFault::UnclosedComment, 0),
    ("a (; (; ;)", LexFault::UnclosedComment, 2),
    ("(;\n(", LexFault::UnclosedComment, 0),
    ("é", LexFault::BadChar, 0),
    ("a é", LexFault::BadChar, 2),
    ("aé", LexFault::BadChar, 1),
    ("\0", LexFault::BadChar, 0),
    ("\u{b}", LexFault::BadChar, 0),
    ("\u{c}", LexFault::BadChar, 0),
    ("\u{7f}", LexFault::BadChar, 0),
    ("\u{a0}", LexFault::BadChar, 0),
    ("\u{feff}(component)", LexFault::BadChar, 0),
    ("(\u{2028})", LexFault::BadChar, 1),
    ("(@aé", LexFault::BadChar, 3),
    ("$", LexFault::EmptyId, 0),
    ("(a $)", LexFault::EmptyId, 3),
    ("$;;", LexFault::EmptyId, 0),
    ("$\"\"", LexFault::EmptyId, 0),
    ("$(a)", LexFault::EmptyId, 0),
    ("(@", LexFault::EmptyId, 0),
    ("(@)", LexFault::EmptyId, 0),
    ("(@\"a\")", LexFault::EmptyId, 0),
    ("((@ a)", LexFault::EmptyId, 1),
    ("(@,", LexFault::EmptyId, 0),
    ("$\"\\ff\"", LexFault::BadIdText, 0),
    ("$\"\\c3\"", LexFault::BadIdText, 0),
    ("a $\"\\ed\\a0\\80\"", LexFault::BadIdText, 2),
    ("$\"\\ff\" \"", LexFault::BadIdText, 0),
    ("(@a\"b\")", LexFault::Glued, 3),
    ("(@a,b)", LexFault::Glued, 3),
    ("(@a;)", LexFault::Glued, 3),
    ("(@a$b\"c\")", LexFault::Glued, 5),
    ("(@a\"\"$)", LexFault::Glued, 3),
];

/// Texts with several faults, with the one that is met first; a fault in a string of a run comes before one of the run.
const FIRST_FAULTS: [(&str, LexFault, u32); 6] = [
    ("(@a\"b", LexFault::UnclosedString, 3),
    ("$\"\\ff\"\"", LexFault::UnclosedString, 6),
    ("(@a\"\",\"", LexFault::UnclosedString, 6),
    ("(@a\"\\q\"", LexFault::BadEscape, 4),
    ("\"a\n(;", LexFault::BadStringChar, 2),
    ("é(;\"", LexFault::BadChar, 0),
];

/// The kinds of the tokens of a text, by letters.
fn letters(alloc: Global, text: &str) -> Result<String, Error> {
    let tokens = lex(alloc, text)?;
    let mut found = String::new(alloc);
    for token in &tokens {
        found.push(char::from(letter(token.kind)))?;
    }
    Ok(found)
}

/// The fault of a text, with its offset.
fn fault(alloc: Global, text: &str) -> Option<(LexFault, u32)> {
    match lex(alloc, text) {
        Ok(_) => None,
        Err(error) => match error.kind {
            ErrorKind::Lex(fault) => Some((fault, error.offset)),
            _ => None,
        },
    }
}

/// A kind of refusal, and its message at offset 7.
const MESSAGES: [(ErrorKind, &str); 9] = [
    (
        ErrorKind::TooBig {
            found: 67_108_865,
            limit: 67_108_864,
        },
        "too big a text or component (67108865 of 67108864) at byte 7",
    ),
    (
        ErrorKind::Lex(LexFault::UnclosedString),
        "unclosed string at byte 7",
    ),
    (
        ErrorKind::Parse,
        "unexpected token or end of the text at byte 7",
    ),
    (
        ErrorKind::TooDeep,
        "more than 100 open parentheses at byte 7",
    ),
    (
        ErrorKind::Form(FormKind::U2),
        "map types are not supported, in the definition at byte 7",
    ),
    (
        ErrorKind::Duplicate,
        "name that is already defined at byte 7",
    ),
    (ErrorKind::Unknown, "unknown name at byte 7"),
    (
        ErrorKind::Core(CoreRule::ImportOrder),
        "import after a function, table, memory or global of the core module at byte 7",
    ),
    (ErrorKind::NoMemory, "out of memory at byte 7"),
];

#[test]
fn messages(rt: HostRuntime) -> Result<(), Fail> {
    for (kind, message) in MESSAGES {
        let found = Error { kind, offset: 7 }.message(rt.alloc())?;
        assert_eq!(rt; found.as_str(), message);
    }
    Ok(())
}

#[test]
fn kinds(rt: HostRuntime) -> Result<(), Fail> {
    for table in [
        &GAPS[..],
        &STRINGS[..],
        &IDS[..],
        &RUNS[..],
        &ANNOTATIONS[..],
    ] {
        for (text, expected) in table {
            let found = letters(rt.alloc(), text)?;
            assert_eq!(rt; found.as_str(), *expected, "{text}");
        }
    }
    Ok(())
}

#[test]
fn faults(rt: HostRuntime) {
    for table in [&FAULTS[..], &FIRST_FAULTS[..]] {
        for (text, kind, offset) in table {
            let found = fault(rt.alloc(), text);
            assert!(rt; found == Some((*kind, *offset)), "{text}");
        }
    }
}

#[test]
fn places(rt: HostRuntime) -> Result<(), Fail> {
    let found = lex(rt.alloc(), "(@a \"é\")\r\n$x;;\n1a")?;
    let expected = [
        (TokenKind::Annotation, 0, 3),
        (TokenKind::Text, 4, 8),
        (TokenKind::RParen, 8, 9),
        (TokenKind::Id, 11, 13),
        (TokenKind::Reserved, 16, 18),
    ];
    assert_eq!(rt; found.len(), expected.len());
    for (token, (kind, start, end)) in found.iter().zip(&expected) {
        assert_eq!(rt;
            *token,
            Token {
                kind: *kind,
                start: *start,
                end: *end
            }
        );
    }
    Ok(())
}
