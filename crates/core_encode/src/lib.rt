//! From the tree of a core module to its bytes.
//!
//! The fields come from the readers of `core_syntax`. `resolve_fields` refuses those that break a rule, and makes numbers of their names;
//! `encode_module` gives the bytes of what it leaves. A `Namespace` holds the ids of one index space, and says what a reference into it
//! means.
#![tactic(auto)]

mod resolve;

pub use core_fits::fits_core;
pub use core_names::{Namespace, ResolveCoreType, names_find_declarations};
pub use core_write::encode_module;
pub use resolve::resolve_fields;
