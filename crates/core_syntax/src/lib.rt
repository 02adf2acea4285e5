//! Core modules as trees: what the text of a core module holds, field by field.
//!
//! A tree is made by a reader or by hand. What it stands for as data is `fields_of` in `specs/Fields.antt`; its rule, its types, its
//! bytes and its weight are definitions of `core_model` over that data (WebAssembly, text format, Modules).
#![tactic(auto)]

mod definition_read;
mod export_read;
mod expression_read;
mod field_read;
mod fields;
mod func_read;
mod global_read;
mod instructions;
mod item_read;
mod items;
mod limits_read;
mod module;
mod module_field_read;
mod module_read;
mod operation_read;
mod producers_read;
mod resolved;
mod table_read;
mod type_read;
mod types;
mod uncovered;
mod value_read;
mod weight;

pub use fields::{Export, Func, GlobalField, Local, Memory, ModuleField, Table};
pub use instructions::{Expression, Instruction};
pub use items::{ExportKind, Imports, ItemKind, ItemSig, Limits};
pub use module::{Module, ModuleKind, Producers, Stage};
pub use resolved::is_resolved_core;
pub use types::{FunctionType, HeapType, Param, Rec, RefType, Type, TypeDef, TypeUse, ValType};
pub use uncovered::core_uncovered;
pub use weight::core_weight;
