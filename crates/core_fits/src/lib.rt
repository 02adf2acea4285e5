//! When a core module can be written: each count, index and length in its bytes is below `2 ^ 32`.
#![tactic(auto)]

mod code;
mod exports;
mod instructions;
mod items;
pub mod laws;
mod lengths;
mod module;
mod name_section;
mod names;
mod sections;
mod size;
mod types;
mod values;

pub use module::fits_core;
