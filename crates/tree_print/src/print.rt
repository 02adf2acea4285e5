//! A component as text, or why it isn't printed.

ghost use Rattle.std.specs.Prelude.{◌≡◌, ◌⊎◌, ℕ, MatchResult, IfOk, IfErr, IfSome, Option, None, Some, string_bytes};
ghost use Rattle.comp_wire.specs.Read.{FitsComponent};
ghost use Rattle.wire_tree.specs.Model.{scope_of};
ghost use Rattle.print_table.specs.Printable.{IsPrintable};
ghost use Rattle.print_table.specs.TextOf.{unnamed, text_of};
ghost use Rattle.tree_print.specs.Cause.{cause, size_cause, weight_cause, too_big, too_deep, Refuses};
ghost use Rattle.print_table.specs.Depths.{is_deep};
ghost use Rattle.tree_print.specs.Taken.{capped};
ghost use Rattle.tree_print.specs.declared.print.PrintKind.{PrintKind as Kind};
ghost use Rattle.tree_print.specs.declared.print.PrintKind.TheVariants as kinds;

use crate::component::{text_length, text_of};
use crate::depth::is_deep;
use crate::has_text::has_text;
use crate::modules::holds_module;
use crate::text_bytes::texts_are_bytes;
use crate::weight::printed_weight;
use print_table::laws::passing_is_printable;
use std::alloc::Global;
use wire_tree::Scope;

/// Why a component isn't printed.
#[derive(Clone, Copy, PartialEq, Eq, Debug)]
pub enum PrintKind {
    /// A core module is defined in it, or in a component in it.
    CoreModule,
    /// A part of it has no text: bytes that should be UTF-8 aren't, or there is no word for a kind in its place, or no line for a row.
    NoText,
    /// Its text has too many or the component that it spells weighs too much.
    TooBig {
        /// How many or the weight; `u64::MAX` stands for every greater number.
        found: u64,
        /// How many may be.
        limit: u64,
    },
    /// A part of its text stands below too many open parentheses.
    TooDeep,
    /// Memory ran out.
    NoMemory,
}

/// A refusal.
#[derive(Clone, Copy, PartialEq, Eq, Debug)]
pub struct PrintError {
    /// Why.
    pub kind: PrintKind,
}

/// The refusal of a size; none where it is at most 67,108,864.
#[tactic(auto, using(crate::proofs::Causes::too_big_found, crate::proofs::Causes::small_enough))]
fn too_big(found: u64) -> Option<PrintKind>
    ensures some { (n : ℕ) (more : Option Kind) → found ≡ capped n → IfSome result (λ k. Some k ≡ too_big n more) }
    ensures none { (n : ℕ) (more : Option Kind) → found ≡ capped n → result ≡ None → more ≡ too_big n more }
{
    if found > 67_108_864 {
        return Some(PrintKind::TooBig {
            found,
            limit: 67_108_864,
        });
    }
    None
}

/// The refusal of a component by its depth.
fn too_deep(scope: &Scope<'_, '_>) -> Option<PrintKind>
    ensures { result ≡ too_deep (is_deep (scope_of scope.now)) }
{
    if is_deep(scope) {
        return Some(PrintKind::TooDeep);
    }
    None
}

/// The refusal of a component by its weight, or else by its depth.
fn too_heavy(scope: &Scope<'_, '_>) -> Option<PrintKind>
    ensures { result ≡ weight_cause (scope_of scope.now) }
{
    match too_big(printed_weight(scope)) {
        Some(kind) => Some(kind),
        None => too_deep(scope),
    }
}

/// How many bytes the text of a component has, if neither they nor its weight and depth are too great.
fn admit_sizes(scope: &Scope<'_, '_>) -> Result<u64, PrintKind>
    ensures { MatchResult result (λ _. size_cause (scope_of scope.now) ≡ None) (λ k. (k ≡ kinds.NoMemory) ⊎ (size_cause (scope_of scope.now) ≡ Some k)) }
{
    let length = match text_length(scope) {
        Ok(length) => length,
        Err(_) => return Err(PrintKind::NoMemory),
    };
    match too_big(length) {
        Some(kind) => Err(kind),
        None => match too_heavy(scope) {
            Some(kind) => Err(kind),
            None => Ok(length),
        },
    }
}

/// How many bytes the text of a component has, if nothing is against its being printed.
fn admit(scope: &Scope<'_, '_>) -> Result<u64, PrintKind>
    ensures { MatchResult result (λ _. cause (scope_of scope.now) ≡ None) (Refuses (scope_of scope.now)) }
{
    if holds_module(scope) {
        return Err(PrintKind::CoreModule);
    }
    if !has_text(scope) {
        return Err(PrintKind::NoText);
    }
    admit_sizes(scope)
}

/// The text of a component, its custom sections of names left out.
///
/// It is refused, in this order, with `CoreModule` where a core module is defined in the component or in one in it; with `NoText` where a
/// part of it has no text; with `TooBig` where its text has more than 67,108,864 or else the component that it spells weighs more;
/// with `TooDeep` where a part of the text that is checked for its depth stands below more than 100 open parentheses; and with `NoMemory`
/// where memory ran out.
pub fn print_scope(alloc: Global, scope: &Scope<'_, '_>) -> Result<String, PrintError>
    ensures printed { IfOk result (λ text. string_bytes text ≡ text_of (scope_of scope.now)) }
    ensures admitted { IfOk result (λ _. cause (scope_of scope.now) ≡ None) }
    ensures refused { IfErr result (λ e. Refuses (scope_of scope.now) e.kind) }
    ensures printable { FitsComponent (scope_of scope.now) → IfOk result (λ _. IsPrintable (unnamed (scope_of scope.now))) }
{
    passing_is_printable();
    texts_are_bytes(scope);
    match admit(scope) {
        Ok(length) => match text_of(alloc, scope, length as usize) {
            Ok(text) => Ok(text),
            Err(_) => Err(PrintError {
                kind: PrintKind::NoMemory,
            }),
        },
        Err(kind) => Err(PrintError { kind }),
    }
}
