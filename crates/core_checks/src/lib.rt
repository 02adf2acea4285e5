//! The rules of core modules: which one a module breaks first, and where.
//!
//! `check_rules` takes the fields of a module as they were read, and gives the ids of each index space where no rule is broken. Rules are
//! looked for in this order: imports stand before definitions; no two items of a space, and no two parameters and locals of a function,
//! have the same id; each name is that of an item; an index beside a signature is that of a type with this signature (WebAssembly, text
//! format, Modules).
#![tactic(auto)]

mod fields;
mod ids;
mod instructions;
mod locals;
mod order;
mod refusals;
mod rules;
mod scope;
mod signatures;
mod uses;
mod values;

pub use rules::check_rules;
