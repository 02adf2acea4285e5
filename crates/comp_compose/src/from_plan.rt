//! From a plan to the binary of the component that it composes.

ghost use Rattle.std.specs.Prelude.{◌≡◌, ◌⊎◌, ◌≤◌, ◌^◌, ◌<◌, [], List, length, IfOk, IfErr, MatchResult, None, Err};
ghost use Rattle.plan_lines.specs.Lines.{lines, said, first_bad};
ghost use Rattle.comp_compose.specs.Composed.{IsComposed};
ghost use Rattle.comp_compose.specs.Composing.{Composing, AllAdded};
ghost use Rattle.comp_compose.specs.Refused.{Refused, LinesRefused, no_memory, plan_limit};
ghost use Rattle.comp_compose.specs.declared.error.PlanError.{PlanError as Refusal};

use crate::composer::Composer;
use crate::error::{PlanError, PlanKind, no_memory};
use plan_lines::{all_of, first_bad_line, next_line};
use std::alloc::Global;

/// Adds the lines of a plan, each of which says something.
fn add_lines<'p>(composer: &mut Composer<'p>, plan: &'p [u8]) -> Result<(), PlanError>
    requires small { length plan.now ≤ plan_limit }
    requires read { first_bad (lines plan.now) ≡ None }
    requires begun { Composing composer.old [] 0 }
    ensures { MatchResult result (λ _. AllAdded composer.new plan.entry.now) (λ e. (e ≡ no_memory) ⊎ LinesRefused [] (said (lines plan.entry.now)) e) }
{
    let mut left = all_of(plan);
    while let Some((line, rest)) = next_line(left) {
        match composer.add_line(line) {
            Ok(()) => {}
            Err(refusal) => return Err(refusal),
        }
        left = rest;
    }
    Ok(())
}

/// The component of a plan, each of whose lines says something.
fn compose_lines(alloc: Global, plan: &[u8]) -> Result<Vec<u8>, PlanError>
    requires small { length plan.now ≤ plan_limit }
    requires read { first_bad (lines plan.now) ≡ None }
    ensures { MatchResult result (λ out. IsComposed plan.now out.items) (λ e. (e ≡ no_memory) ⊎ Refused plan.now e) }
{
    match Composer::new(alloc) {
        Ok(mut composer) => match add_lines(&mut composer, plan) {
            Ok(()) => match composer.finish() {
                Ok(out) => Ok(out),
                Err(_) => Err(no_memory()),
            },
            Err(refusal) => Err(refusal),
        },
        Err(_) => Err(no_memory()),
    }
}

/// The component of a plan, or why there is none.
fn compose_plan(alloc: Global, plan: &[u8]) -> Result<Vec<u8>, PlanError>
    ensures { MatchResult result (λ out. IsComposed plan.now out.items) (λ e. (e ≡ no_memory) ⊎ Refused plan.now e) }
{
    if plan.len() > 67_108_864 {
        return Err(PlanError {
            kind: PlanKind::TooBig {
                found: plan.len() as u64,
                limit: 67_108_864,
            },
            offset: 0,
        });
    }
    match first_bad_line(plan) {
        Some(at) => Err(PlanError {
            kind: PlanKind::Syntax,
            offset: at as u64,
        }),
        None => compose_lines(alloc, plan),
    }
}

/// The binary of the component that a plan composes (Component Model, binary format): a definition for each line, in order. The component
/// of a part has the part's bytes, unchanged; an instance is instantiated with its arguments, each an instance; an export is an instance,
/// without a description, and counts as one more. Whether the component is valid isn't asked.
///
/// A plan is lines, each ended by a line feed, which the last one may lack; the words of a line are parted by one space:
///
/// - `part NAME DIGITS`: a component, by its bytes in hexadecimal;
/// - `instance NAME PART TEXT=INSTANCE ..`: a part instantiated, with an instance for each text;
/// - `export TEXT INSTANCE`: an instance exported.
///
/// A name is letters from `a` to `z`, digits and `-`; a text is printed characters of ASCII other than the space and `=`.
///
/// The plan is refused, in this order, with `TooBig` at 0 where it has more than 67,108,864 bytes; with `Syntax` at the start of the first
/// line that is none of these; and, line by line and from left to right, with `Duplicate` at a name that an earlier line declares, with
/// `Unknown` at a name that no earlier line declares as what is asked for, and with `Part` at digits that are an odd number, or whose bytes
/// are none that `wire_read::read_tree` takes. `NoMemory`, at 0, is want of memory.
pub fn compose(alloc: Global, plan: &[u8]) -> Result<Vec<u8>, PlanError>
    ensures composed { IfOk result (λ out. IsComposed plan.now out.items) }
    ensures refused { IfErr result (λ e. (e ≡ no_memory) ⊎ Refused plan.now e) }
    ensures exact { (e : Refusal) → Refused plan.now e → (result ≡ Err e) ⊎ (result ≡ Err no_memory) }
{
    compose_plan(alloc, plan)
}
