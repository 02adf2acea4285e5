//! What is to be written for a plan.

ghost use Rattle.std.specs.Prelude.{◌≡◌, ◌⊎◌, ℕ, List, IfOk, string_bytes};
ghost use Rattle.comp_compose.specs.Refused.{Refused, no_memory};
ghost use Rattle.compose_replies.specs.Answer.{Tells, IsRefusal, printed};

use crate::kinds::plan_kind_name;
use comp_compose::{PlanError, compose};
use std::alloc::{AllocError, Global};
use wast_refusals::refusal_line;

/// What is to be written.
#[derive(Drop)]
pub enum Told {
    /// The binary that was composed.
    Output(Vec<u8>),
    /// The line that says why the plan is refused.
    Refusal(String),
}

/// The bytes as they are, or in lower-case hexadecimal and with a line feed.
fn printed(alloc: Global, bytes: Vec<u8>, raw: bool) -> Result<Vec<u8>, AllocError>
    ensures { IfOk result (λ out. out.items ≡ printed raw bytes.items) }
{
    if raw {
        return Ok(bytes);
    }
    let mut line = hex::encode(alloc, bytes.as_slice())?;
    line.push_str("\n")?;
    Ok(line.into_bytes())
}

/// The line that says why a plan is refused; want of memory has none.
fn line_of(alloc: Global, refusal: PlanError) -> Result<String, AllocError>
    ensures { (plan : List ℕ) → (refusal ≡ no_memory) ⊎ Refused plan refusal → IfOk result (λ line. IsRefusal plan (string_bytes line)) }
{
    match plan_kind_name(refusal.kind) {
        Some(name) => refusal_line(alloc, name, refusal.offset as usize),
        None => Err(AllocError),
    }
}

/// What is to be written for a plan: the binary of the component that it composes, by `raw` as it is, else in hexadecimal; or why there is
/// none.
///
/// It is refused where memory ran out.
pub fn reply_to_plan(alloc: Global, plan: &[u8], raw: bool) -> Result<Told, AllocError>
    ensures { IfOk result (Tells plan.now raw) }
{
    match compose(alloc, plan) {
        Ok(bytes) => Ok(Told::Output(printed(alloc, bytes, raw)?)),
        Err(refusal) => Ok(Told::Refusal(line_of(alloc, refusal)?)),
    }
}
