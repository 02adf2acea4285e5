//! Numbers in core modules: each name in the fields of a module becomes the number that it means, each type use gets the index of its
//! type, and the types that uses need beyond the written ones stand behind the fields (WebAssembly, text format, Abbreviations of
//! Type Uses).
//!
//! It is the second pass over the fields of a module, behind one that refuses broken rules and leaves the names of the module's items.
#![tactic(auto)]

mod added;
mod body;
mod field;
mod index;
mod module;
mod nameless;
mod needed;
mod signature;
mod type_table;
mod type_use;
mod types;
mod written;

pub use module::number_fields;
