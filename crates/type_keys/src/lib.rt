//! By what an inline type is looked up among the types of its scope (Component Model text format, "Type Definitions").
//!
//! A value type or function type that is written inline is a reference to the first type of its scope that is equal as written, where
//! there is one. So that a look-up takes no longer than the type's own leaves, its [`TypeKey`] has them alone: for each type that stands
//! inline in it the key has a number, that of the first type of the scope that is equal to that one. All keys of a scope together are as
//! long as its text. [`Types`] finds a key's number. That keys are equal exactly where types are, and that a search by key finds the first
//! equal type, is said in the module [`laws`], over the definitions in `specs/Keys`. `tree_expand` asks it
//! which type an inline one reuses.
#![tactic(auto)]

mod key;
pub mod laws;
mod types;

pub use key::{KeyPart, KeyReach, TypeKey};
pub use types::Types;
