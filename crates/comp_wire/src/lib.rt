//! The binary form of components: what its bytes are, and a sink that writes them.
//!
//! `specs/Table` has the bytes of each row of the model, a line a row, and `Reads` says that bytes are those of a component, of at
//! most one. The types of this crate hold one definition each, with indices alone; `ComponentSink` writes them one after the other,
//! for callers that make components without a text. What is made of a text is written from its tree, by the same table
//! (`tree_write`).
#![tactic(auto)]

mod append;
mod append_canon;
mod append_defs;
mod append_entries;
mod append_externs;
mod append_lists;
mod append_names;
mod append_types;
mod append_values;
mod canon;
mod defs;
mod externs;
mod kinds;
mod laws;
mod leb;
mod memory;
mod names;
mod origin;
mod sections;
mod seq;
mod sink;
mod spaces;
mod types;
mod values;

pub use canon::{CanonicalOption, WireCanon};
pub use comp_model::Space;
pub use defs::WireDef;
pub use externs::{Alias, ComponentExternName, ComponentTypeRef, TypeBounds, WireEntity};
pub use kinds::{ComponentExportKind, ComponentOuterAliasKind, ExportKind, ModuleArg};
pub use laws::{
    bytes_read_once, canonical_lines_are_complete, component_has_one_spelling, fits_is_exact,
    names_stand_in_subsections, read_is_binary, sections_hang_on_no_item,
    short_rows_can_be_written, writers_ask_no_more, written_bytes_are_read,
};
pub use leb::{sleb, uleb};
pub use memory::NoMemory;
pub use names::{NameMap, NameMaps};
pub use origin::{ItemOrigin, Origin, ScopeOrigins};
pub use sections::{SectionKind, has_count, section_number};
pub use seq::Seq;
pub use sink::ComponentSink;
pub use spaces::space_number;
pub use types::{WireCoreType, WireDecl, WireType};
pub use values::{ComponentValType, PrimitiveValType, WireFunc, WireHeap, WireVal};
