//! The lines of references, passed one after the other.

ghost use Rattle.std.specs.Prelude.{◌≡◌, ◌∷◌, [], List, map};
ghost use Rattle.comp_model.specs.Model.{Defs, Leaves};
ghost use Rattle.comp_model.specs.declared.row.Row.{Row};
ghost use Rattle.comp_list.specs.References.{maybe_reference};
ghost use Rattle.comp_order.specs.Counts.{HasCounts};
ghost use Rattle.comp_order.specs.Before.{AllCounted, HasOwn};
ghost use Rattle.comp_order.specs.Order.{verdict_of};
ghost use Rattle.comp_order.specs.Pass.{pass};

use crate::before::{Judge, judge_reference};
use crate::verdict::{Order, Verdict};
use comp_list::Reference;

/// Passes a line.
fn pass_one(line: u64, verdict: Verdict) -> Result<u64, Order>
    ensures { result ≡ pass line (verdict ∷ []) }
{
    match verdict {
        Verdict::InOrder => Ok(line.saturating_add(1)),
        Verdict::Early => Err(Order::Index { line }),
        Verdict::OutOfRange => Err(Order::Outer { line }),
    }
}

/// Passes the line of a reference.
fn pass_reference(judge: &Judge<'_>, line: u64, reference: Reference) -> Result<u64, Order>
    ensures { (before : Defs) (befores : List Defs) (t : Row) (ls : Leaves) → HasCounts judge.now.before.now before → HasOwn judge.now.own.now t ls → AllCounted judge.now.outer befores → result ≡ pass line (verdict_of befores before t ls judge.now.up reference ∷ []) }
{
    pass_one(line, judge_reference(judge, reference))
}

/// Passes the line of a reference, if there is one.
pub fn pass_some(judge: &Judge<'_>, line: u64, reference: Option<Reference>) -> Result<u64, Order>
    ensures { (before : Defs) (befores : List Defs) (t : Row) (ls : Leaves) → HasCounts judge.now.before.now before → HasOwn judge.now.own.now t ls → AllCounted judge.now.outer befores → result ≡ pass line (map (verdict_of befores before t ls judge.now.up) (maybe_reference reference)) }
{
    match reference {
        Some(reference) => pass_reference(judge, line, reference),
        None => Ok(line),
    }
}
