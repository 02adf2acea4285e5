//! An expanded scope, with the scopes in it, becomes its resolved scope: names become indices, and what they need stands before their use.
//!
//! A scope goes through three passes over its list of definitions. The first registers the ids of its items, the
//! second counts the index of each definition's first item, and with both it is open. In the third each definition is
//! resolved among the open scopes and put behind the definitions that it needs, into one new list; a definition that holds a scope is
//! resolved as that scope is. `tree_names` does what is done inside a definition.
#![tactic(auto)]

mod alias;
mod build;
mod component;
pub mod laws;
mod marks;
mod naming;
mod opening;
mod origins;
mod plain;
mod register;
mod scope;
mod sole;
mod table;

pub use component::resolve;
pub use origins::planned_origins;
