//! Names in core modules.
//!
//! A `Namespace` holds the ids of one index space, and says what a reference into it means; `ModuleNames` holds those of a module.
//! `ResolvedType` is what a value type is once its name is resolved.
#![tactic(auto)]

mod laws;
mod module_names;
mod namespace;
mod resolved;
mod resolving;

pub use laws::names_find_declarations;
pub use module_names::ModuleNames;
pub use namespace::Namespace;
pub use resolved::{ResolvedType, resolved_type};
pub use resolving::ResolveCoreType;
