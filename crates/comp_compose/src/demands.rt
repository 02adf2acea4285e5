//! What lines ask for: names that are new, names that are declared, and bytes of a component.

ghost use Rattle.std.specs.Prelude.{◌≡◌, ◌⊎◌, [], List, MatchResult, IfOk, Some, Ok, true, false};
ghost use Rattle.hex.specs.Hex.{decode_of};
ghost use Rattle.comp_model.specs.Model.{Scope};
ghost use Rattle.plan_lines.specs.Lines.{Line};
ghost use Rattle.plan_lines.specs.Shown.{word_of};
ghost use Rattle.comp_compose.specs.Meanings.{declared};
ghost use Rattle.comp_compose.specs.Parts.{IsPart};
ghost use Rattle.comp_compose.specs.Demands.{is_new, names_part, names_instance, has_part};
ghost use Rattle.comp_compose.specs.Refused.{IsUnmet, no_memory};
ghost use Rattle.comp_compose.specs.Composing.{Meets};
ghost use Rattle.comp_compose.specs.Shown.{Shows};
ghost use Rattle.comp_compose.specs.declared.names.Item.TheVariants.{Component, Instance};

use crate::error::{PlanError, PlanKind, no_memory, refusal_at};
use crate::names::{Item, Names};
use bumpalo::Bump;
use hex::FromHexError;
use plan_lines::Word;
use std::alloc::{AllocError, Global};
use wire_read::{ReadKind, read_tree};

/// That no line so far declares a name.
pub fn expect_new(names: &Names<'_>, name: &Word<'_>) -> Result<(), PlanError>
    ensures { (ls : List Line) → Shows names.now ls → Meets ls (is_new (word_of name.now)) result }
{
    match names.find(name.bytes) {
        None => Ok(()),
        Some(_) => Err(refusal_at(PlanKind::Duplicate, name)),
    }
}

/// The index of the component of a part's name.
pub fn find_component(names: &Names<'_>, name: &Word<'_>) -> Result<u32, PlanError>
    ensures { (ls : List Line) → Shows names.now ls → MatchResult result (λ i. declared ls name.now.bytes.now ≡ Some (Component i)) (IsUnmet ls (names_part (word_of name.now))) }
{
    match names.find(name.bytes) {
        Some(Item::Component(index)) => Ok(index),
        Some(Item::Instance(_)) => Err(refusal_at(PlanKind::Unknown, name)),
        None => Err(refusal_at(PlanKind::Unknown, name)),
    }
}

/// The index of an instance by its name.
pub fn find_instance(names: &Names<'_>, name: &Word<'_>) -> Result<u32, PlanError>
    ensures { (ls : List Line) → Shows names.now ls → MatchResult result (λ i. declared ls name.now.bytes.now ≡ Some (Instance i)) (IsUnmet ls (names_instance (word_of name.now))) }
{
    match names.find(name.bytes) {
        Some(Item::Instance(index)) => Ok(index),
        Some(Item::Component(_)) => Err(refusal_at(PlanKind::Unknown, name)),
        None => Err(refusal_at(PlanKind::Unknown, name)),
    }
}

/// Whether bytes are a part: whether they are read as a component in which no scope is inside 100 others.
fn is_part(alloc: Global, bytes: &[u8]) -> Result<bool, AllocError>
    ensures part { IfOk result (λ b. b ≡ true → (s : Scope) × IsPart bytes.now s) }
    ensures none { IfOk result (λ b. b ≡ false → (s : Scope) → IsPart bytes.now s → ⊥) }
{
    let bump = Bump::new(alloc);
    match read_tree(alloc, &bump, bytes) {
        Ok(_) => Ok(true),
        Err(error) => match error.kind {
            ReadKind::NoMemory => Err(AllocError),
            ReadKind::TooBig { .. } => Ok(false),
            ReadKind::NotComponent => Ok(false),
            ReadKind::TooDeep => Ok(false),
        },
    }
}

/// The bytes, where they are a part.
fn only_part(alloc: Global, bytes: Vec<u8>, digits: &Word<'_>) -> Result<Vec<u8>, PlanError>
    requires { decode_of digits.now.bytes.now ≡ Ok bytes.items }
    ensures { MatchResult result (λ v. (s : Scope) × (decode_of digits.now.bytes.now ≡ Ok v.items) × IsPart v.items s) (λ e. (e ≡ no_memory) ⊎ IsUnmet [] (has_part (word_of digits.now)) e) }
{
    match is_part(alloc, bytes.as_slice()) {
        Ok(accepted) => {
            if accepted {
                return Ok(bytes);
            }
            Err(refusal_at(PlanKind::Part, digits))
        }
        Err(_) => Err(no_memory()),
    }
}

/// The bytes of a part that digits say.
pub fn part_bytes(alloc: Global, digits: &Word<'_>) -> Result<Vec<u8>, PlanError>
    ensures { MatchResult result (λ v. (s : Scope) × (decode_of digits.now.bytes.now ≡ Ok v.items) × IsPart v.items s) (λ e. (e ≡ no_memory) ⊎ IsUnmet [] (has_part (word_of digits.now)) e) }
{
    match hex::decode(alloc, digits.bytes) {
        Ok(bytes) => only_part(alloc, bytes, digits),
        Err(FromHexError::OddLength) => Err(refusal_at(PlanKind::Part, digits)),
        Err(FromHexError::InvalidHexCharacter { .. }) => Err(refusal_at(PlanKind::Part, digits)),
        Err(FromHexError::OutOfMemory) => Err(no_memory()),
        Err(FromHexError::InvalidStringLength) => unreachable!(),
    }
}
