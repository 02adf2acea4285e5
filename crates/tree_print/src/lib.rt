//! The printer of component binaries, which goes by the table of printed lines.
#![tactic(auto)]

mod component;
mod definitions;
mod depth;
mod has_text;
mod inner;
mod leaf;
mod line;
mod modules;
mod name_section;
mod print;
mod printer;
mod size;
mod text_bytes;
mod token;
mod walk;
mod weight;
mod word;

pub use print::{PrintError, PrintKind, print_scope};
