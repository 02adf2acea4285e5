//! The arguments of an instance.

ghost use Rattle.std.specs.Prelude.{◌≡◌, ◌⊎◌, ◌∷◌, ◌<◌, ◌^◌, List, MatchResult, Some, IsTrue, true};
ghost use Rattle.comp_wire.specs.Values.{argument_row, rows_of_list};
ghost use Rattle.plan_lines.specs.Lines as plan;
ghost use Rattle.plan_lines.specs.Lines.{Line, Argument};
ghost use Rattle.plan_lines.specs.Shown.{word_of, rest_of, span, SpansBelow};
ghost use Rattle.comp_compose.specs.Composed.{AreArguments};
ghost use Rattle.comp_compose.specs.Refused.{FirstUnmet, IsUnmet, no_memory};
ghost use Rattle.comp_compose.specs.Demands.{names_part, names_instance, argument_demands};
ghost use Rattle.comp_compose.specs.Meanings.{declared};
ghost use Rattle.comp_compose.specs.Shown.{Shows};
ghost use Rattle.comp_compose.specs.declared.names.Item.TheVariants.{Component};
ghost use Rattle.comp_compose.specs.Passed.{IsPassed};
ghost use Rattle.comp_compose.specs.Weights.{IsText};

use crate::demands::{find_component, find_instance};
use crate::error::{PlanError, no_memory};
use crate::names::Names;
use comp_wire::ComponentExportKind;
use plan_lines::{Word, cut, read_argument};
use std::alloc::Global;

/// A text of a plan, all of whose characters are of ASCII.
pub fn text_of<'p>(word: &Word<'p>) -> &'p str
    requires { IsText (word_of word.now) }
    ensures { result.now ≡ word.now.bytes.now }
{
    match str::from_utf8(word.bytes) {
        Ok(text) => text,
        Err(_) => unreachable!(),
    }
}

/// What a word passes to an instance: an instance, under a text.
fn pass<'p>(
    names: &Names<'_>,
    word: Word<'p>,
) -> Result<(&'p str, ComponentExportKind, u32), PlanError>
    requires spans { span word < 2 ^ 64 }
    requires argument { (a : Argument) × (plan.argument (word_of word) ≡ Some a) }
    ensures { (ls : List Line) (a : Argument) → Shows names.now ls → plan.argument (word_of word.entry) ≡ Some a → MatchResult result (IsPassed ls a) (IsUnmet ls (names_instance a.instance)) }
{
    match read_argument(word) {
        Some(argument) => match find_instance(names, &argument.instance) {
            Ok(index) => Ok((
                text_of(&argument.text),
                ComponentExportKind::Instance,
                index,
            )),
            Err(refusal) => Err(refusal),
        },
        None => unreachable!(),
    }
}

/// What the words of what is left of a line pass to an instance.
pub fn pass_all<'p>(
    alloc: Global,
    names: &Names<'_>,
    arguments: Option<Word<'p>>,
) -> Result<Vec<(&'p str, ComponentExportKind, u32)>, PlanError>
    requires spans { SpansBelow arguments (2 ^ 64) }
    requires arguments { (as' : List Argument) × (plan.arguments (rest_of 32 arguments) ≡ Some as') }
    ensures { (ls : List Line) (as' : List Argument) → Shows names.now ls → plan.arguments (rest_of 32 arguments.entry) ≡ Some as' → MatchResult result (λ v. AreArguments ls as' (rows_of_list argument_row v.items)) (λ e. (e ≡ no_memory) ⊎ FirstUnmet ls (argument_demands as') e) }
{
    let mut passed = Vec::new(alloc);
    let mut left = arguments;
    while let Some(words) = left {
        let (word, more) = cut(words, b' ');
        match pass(names, word) {
            Ok(argument) => match passed.push(argument) {
                Ok(()) => {}
                Err(_) => return Err(no_memory()),
            },
            Err(refusal) => return Err(refusal),
        }
        left = more;
    }
    Ok(passed)
}

/// The component of a part's name, and what is passed to it.
pub fn passed_to<'p>(
    alloc: Global,
    names: &Names<'_>,
    part: Word<'p>,
    arguments: Option<Word<'p>>,
) -> Result<(u32, Vec<(&'p str, ComponentExportKind, u32)>), PlanError>
    requires spans { SpansBelow arguments (2 ^ 64) }
    requires arguments { (as' : List Argument) × (plan.arguments (rest_of 32 arguments) ≡ Some as') }
    ensures { (ls : List Line) (as' : List Argument) → Shows names.now ls → plan.arguments (rest_of 32 arguments.entry) ≡ Some as' → MatchResult result (λ p. (declared ls part.entry.bytes.now ≡ Some (Component p.0)) × AreArguments ls as' (rows_of_list argument_row p.1.items)) (λ e. (e ≡ no_memory) ⊎ FirstUnmet ls (names_part (word_of part.entry) ∷ argument_demands as') e) }
{
    match find_component(names, &part) {
        Ok(component) => match pass_all(alloc, names, arguments) {
            Ok(passed) => Ok((component, passed)),
            Err(refusal) => Err(refusal),
        },
        Err(refusal) => Err(refusal),
    }
}
