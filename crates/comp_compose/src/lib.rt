//! The composer of binaries: a plan of parts, instances and exports becomes the one component that holds the parts' bytes unchanged.
#![tactic(auto)]

mod arguments;
mod composer;
mod demands;
mod error;
mod from_plan;
mod names;
mod writer;

pub use error::{PlanError, PlanKind};
pub use from_plan::compose;
