//! The words of the command.

ghost use Rattle.std.specs.Prelude.{◌≡◌, [], ◌∷◌, map, string_bytes, true, false};
ghost use Rattle.wast_prog.specs.Command.{encode_words, origins_words, raw_words, asked_by, sample_asked, named, command};

use list_replies::Ask;
use sample_text::count_of;

/// What is printed of the encoding of a text.
#[derive(Clone, Copy, PartialEq, Eq, Debug)]
pub enum Print {
    /// Its binary in hexadecimal.
    Hex,
    /// Its binary alone.
    Raw,
    /// Where each of its definitions comes from.
    Origins,
}

/// What the words of a command ask for.
#[derive(Clone, Copy, PartialEq, Eq, Debug)]
pub enum Command {
    /// To read a text, in which references are read in their older forms too by `legacy`, and to print that of its encoding.
    Encode { legacy: bool, print: Print },
    /// To encode the sample of so many types, and to print how long it is.
    Sample { count: u32 },
    /// To read the binary of a component, as it is by `raw` and else in hexadecimal, and to print what is asked of it.
    Binary { raw: bool, ask: Ask },
    /// To read the binary of a component, as it is by `raw` and else in hexadecimal, and to print its text.
    Text { raw: bool },
    /// To read a plan, and to print the binary of the component that it composes, as it is by `raw` and else in hexadecimal.
    Compose { raw: bool },
}

/// What one word behind `encode` asks for.
fn one_option(word: &str) -> Option<Command>
    ensures { result ≡ asked_by encode_words (word.now ∷ []) }
{
    if word == "--legacy" {
        Some(Command::Encode {
            legacy: true,
            print: Print::Hex,
        })
    } else if word == "--raw" {
        Some(Command::Encode {
            legacy: false,
            print: Print::Raw,
        })
    } else {
        None
    }
}

/// What two words behind `encode` ask for: both, in any order.
fn two_options(first: &str, second: &str) -> Option<Command>
    ensures { result ≡ asked_by encode_words (first.now ∷ second.now ∷ []) }
{
    let both = Command::Encode {
        legacy: true,
        print: Print::Raw,
    };
    if second == "--raw" && first == "--legacy" {
        Some(both)
    } else if second == "--legacy" && first == "--raw" {
        Some(both)
    } else {
        None
    }
}

/// What the words behind `encode` ask for: each at most once, in any order.
fn encode_options(words: &[String]) -> Option<Command>
    ensures { result ≡ asked_by encode_words (map string_bytes words.now) }
{
    match words {
        [] => Some(Command::Encode {
            legacy: false,
            print: Print::Hex,
        }),
        [word] => one_option(word.as_str()),
        [first, second] => two_options(first.as_str(), second.as_str()),
        _ => None,
    }
}

/// What the word behind `origins` asks for.
fn origins_option(word: &str) -> Option<Command>
    ensures { result ≡ asked_by origins_words (word.now ∷ []) }
{
    if word == "--legacy" {
        Some(Command::Encode {
            legacy: true,
            print: Print::Origins,
        })
    } else {
        None
    }
}

/// What the words behind `origins` ask for: one at most.
fn origins_options(words: &[String]) -> Option<Command>
    ensures { result ≡ asked_by origins_words (map string_bytes words.now) }
{
    match words {
        [] => Some(Command::Encode {
            legacy: false,
            print: Print::Origins,
        }),
        [word] => origins_option(word.as_str()),
        _ => None,
    }
}

/// What the word after a command that takes `--raw` alone asks for.
fn raw_option(word: &str, bare: Command, raw: Command) -> Option<Command>
    ensures { result ≡ asked_by (raw_words bare raw) (word.now ∷ []) }
{
    if word == "--raw" { Some(raw) } else { None }
}

/// What the words after a command that takes `--raw` alone ask for, one at most: `bare` without it.
fn raw_options(words: &[String], bare: Command, raw: Command) -> Option<Command>
    ensures { result ≡ asked_by (raw_words bare raw) (map string_bytes words.now) }
{
    match words {
        [] => Some(bare),
        [word] => raw_option(word.as_str(), bare, raw),
        _ => None,
    }
}

/// What the words after `list` or `order` ask for.
fn binary_options(words: &[String], ask: Ask) -> Option<Command>
    ensures { result ≡ asked_by (raw_words (Command.Binary false ask) (Command.Binary true ask)) (map string_bytes words.now) }
{
    let bare = Command::Binary { raw: false, ask };
    raw_options(words, bare, Command::Binary { raw: true, ask })
}

/// What the words after `print` ask for.
fn text_options(words: &[String]) -> Option<Command>
    ensures { result ≡ asked_by (raw_words (Command.Text false) (Command.Text true)) (map string_bytes words.now) }
{
    let bare = Command::Text { raw: false };
    raw_options(words, bare, Command::Text { raw: true })
}

/// What the words after `compose` ask for.
fn compose_options(words: &[String]) -> Option<Command>
    ensures { result ≡ asked_by (raw_words (Command.Compose false) (Command.Compose true)) (map string_bytes words.now) }
{
    let bare = Command::Compose { raw: false };
    raw_options(words, bare, Command::Compose { raw: true })
}

/// What the words behind `gen` ask for: one numeral.
fn sample_option(words: &[String]) -> Option<Command>
    ensures { result ≡ sample_asked (map string_bytes words.now) }
{
    match words {
        [word] => match count_of(word.as_str()) {
            Some(count) => Some(Command::Sample { count }),
            None => None,
        },
        _ => None,
    }
}

/// What the words behind the name of a command ask for.
fn named(name: &str, words: &[String]) -> Option<Command>
    ensures { result ≡ named name.now (map string_bytes words.now) }
{
    if name == "encode" {
        return encode_options(words);
    }
    if name == "origins" {
        return origins_options(words);
    }
    if name == "gen" {
        return sample_option(words);
    }
    if name == "list" {
        return binary_options(words, Ask::List);
    }
    if name == "order" {
        return binary_options(words, Ask::Order);
    }
    if name == "print" {
        return text_options(words);
    }
    if name == "compose" {
        return compose_options(words);
    }
    None
}

/// What the words ask for, or none where they are no command.
pub(crate) fn command_of(words: &[String]) -> Option<Command>
    ensures { result ≡ command (map string_bytes words.now) }
{
    match words {
        [name, words @ ..] => named(name.as_str(), words),
        [] => None,
    }
}
