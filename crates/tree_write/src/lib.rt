//! The bytes of a resolved component, by the table of rows.
#![tactic(auto)]

mod component;
mod core_bytes;
mod encode;
mod fits;
mod item_names;
mod leaf;
mod leaf_fits;
mod name_lengths;
mod name_section;
mod nodes;
mod numbers;
mod plans;
mod producers;
mod sections;
mod short;
mod sink;
mod space_counts;

pub use component::write_component;
pub use core_bytes::CoreBytes;
pub use encode::{component_bytes, encode_scope};
pub use short::{can_be_written, is_short};
pub use sink::{Buffer, Count, Sink};
