//! The sizes of entries of code.

ghost use Rattle.std.specs.Prelude.{◌≡◌, ◌∷◌, [], map, length};
ghost use Rattle.comp_model.specs.Payloads.{framed};
ghost use Rattle.core_model.specs.Bytes.{value, run_bytes, runs};
ghost use Rattle.core_syntax.specs.Fields.{value_of, local_of, body_of};
ghost use Rattle.core_syntax.specs.Measures.{capped};
ghost use Rattle.core_write.specs.Runs.{open_run};
ghost use Rattle.core_write.specs.Written.{values_of, code_entry};
ghost use Rattle.core_fits.specs.Sizes.{IsSize};
ghost use Rattle.core_fits.specs.Tests.{fits_runs};

use crate::instructions::expression_length;
use crate::lengths::add;
use crate::size::Size;
use crate::values::value_length;
use core_syntax::{Expression, Local, ValType};
use core_write::{extends_run, has_bytes};
use leb_lengths::{framed_length, is_word, uleb_length};

/// The size of the open run, where it has a local.
fn run_size(count: u64, ty: &ValType<'_>) -> Size
    ensures { IsSize result (map run_bytes (open_run count (value [] (value_of ty.now)))) (fits_runs (open_run count (value [] (value_of ty.now)))) }
{
    if count == 0 {
        return Size::none();
    }
    Size::one(add(uleb_length(count), value_length(ty)), is_word(count))
}

/// The size of the runs of locals, neighbours of one type joined.
fn runs_size(locals: &[Local<'_>]) -> Size
    ensures { IsSize result (map run_bytes (runs (values_of (map local_of locals.now)))) (fits_runs (runs (values_of (map local_of locals.now)))) }
{
    let mut size = Size::none();
    let mut count = 0;
    let mut ty = ValType::I32;
    for local in locals {
        if !has_bytes(&local.ty) {
            continue;
        }
        if extends_run(count, &ty, &local.ty) {
            count += 1;
            continue;
        }
        size = size.and(run_size(count, &ty));
        count = 1;
        ty = local.ty;
    }
    size.and(run_size(count, &ty))
}

/// The size of an entry of code: its length, the runs of locals, the instructions.
pub(crate) fn code_size(locals: &[Local<'_>], body: &Expression<'_>) -> Size
    ensures { IsSize result (framed (code_entry (map local_of locals.now) (body_of body.now)) ∷ []) (fits_runs (runs (values_of (map local_of locals.now)))) }
{
    let runs = runs_size(locals);
    let entry = add(runs.counted_length(), expression_length(body));
    Size::one(framed_length(entry), runs.fits)
}
