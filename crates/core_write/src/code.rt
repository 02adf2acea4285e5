//! Entries of code.

ghost use Rattle.std.specs.Prelude.{◌≡◌, ◌∷◌, [], ◌++◌, map, length, true, OnOk, IfOk};
ghost use Rattle.comp_model.specs.Payloads.{framed, joined};
ghost use Rattle.core_model.specs.Words.{Word};
ghost use Rattle.core_model.specs.Bytes.{has_bytes as is_written, value, run_bytes, runs};
ghost use Rattle.core_syntax.specs.Fields.{value_of, local_of, body_of};
ghost use Rattle.core_write.specs.Runs.{open_run, extends};
ghost use Rattle.core_write.specs.Written.{values_of, code_entry};
ghost use Rattle.core_write.specs.Fits.{FitsRuns};

use crate::bytes::push_counted;
use crate::instructions::push_expression;
use crate::values::{has_bytes, push_value, same_value};
use comp_wire::{NoMemory, uleb};
use core_syntax::{Expression, Local, ValType};
use std::alloc::Global;

/// Whether a local of the type `next` belongs to the open run, of `count` locals of the type `ty`; none is open where it has none.
pub fn extends_run(count: u64, ty: &ValType<'_>, next: &ValType<'_>) -> bool
    requires first { is_written (value [] (value_of ty.now)) ≡ true }
    requires second { is_written (value [] (value_of next.now)) ≡ true }
    ensures { result ≡ extends count (value [] (value_of ty.now)) (value [] (value_of next.now)) }
{
    count > 0 && same_value(ty, next)
}

/// Appends the open run, how many locals and their type, where it has a local; answers how many runs that are.
fn push_run(alloc: Global, out: &mut Vec<u8>, count: u32, ty: &ValType<'_>) -> Result<u32, NoMemory>
    ensures number { IfOk result (λ n. n ≡ length (open_run count (value [] (value_of ty.now)))) }
    ensures appended { OnOk result (out.new.items ≡ out.old.items ++ joined (map run_bytes (open_run count (value [] (value_of ty.now))))) }
{
    if count == 0 {
        return Ok(0);
    }
    uleb(alloc, out, count)?;
    push_value(alloc, out, ty)?;
    Ok(1)
}

/// Appends the runs of locals, neighbours of one type joined; answers how many there are.
fn push_runs(alloc: Global, out: &mut Vec<u8>, locals: &[Local<'_>]) -> Result<u32, NoMemory>
    requires fits { FitsRuns (runs (values_of (map local_of locals.now))) }
    requires count { Word (length (runs (values_of (map local_of locals.now)))) }
    ensures number { IfOk result (λ n. n ≡ length (runs (values_of (map local_of locals.now)))) }
    ensures appended { OnOk result (out.new.items ≡ out.old.items ++ joined (map run_bytes (runs (values_of (map local_of locals.now))))) }
{
    let mut written = 0;
    let mut count = 0;
    let mut ty = ValType::I32;
    for local in locals {
        if !has_bytes(&local.ty) {
            continue;
        }
        if extends_run(count as u64, &ty, &local.ty) {
            count += 1;
            continue;
        }
        written += push_run(alloc, out, count, &ty)?;
        count = 1;
        ty = local.ty;
    }
    written += push_run(alloc, out, count, &ty)?;
    Ok(written)
}

/// Appends an entry of code: its length, the runs of locals, the instructions. `room` is for its bytes, whatever it holds.
pub(crate) fn push_code(
    alloc: Global,
    out: &mut Vec<u8>,
    room: &mut Vec<u8>,
    locals: &[Local<'_>],
    body: &Expression<'_>,
) -> Result<(), NoMemory>
    requires fits { FitsRuns (runs (values_of (map local_of locals.now))) }
    requires count { Word (length (runs (values_of (map local_of locals.now)))) }
    requires whole { Word (length (code_entry (map local_of locals.now) (body_of body.now))) }
    ensures { OnOk result (out.new.items ≡ out.old.items ++ framed (code_entry (map local_of locals.now) (body_of body.now))) }
{
    room.clear();
    let count = push_runs(alloc, room, locals)?;
    push_expression(alloc, room, body)?;
    push_counted(alloc, out, count, room.as_slice())
}
