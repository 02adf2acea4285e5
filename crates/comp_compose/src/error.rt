//! Why a plan is refused.

ghost use Rattle.std.specs.Prelude.{◌≡◌};
ghost use Rattle.comp_compose.specs.Refused.{error, no_memory};

use plan_lines::Word;

/// Why a plan is refused.
#[derive(Clone, Copy, PartialEq, Eq, Debug)]
pub enum PlanKind {
    /// The plan has more bytes than are read.
    TooBig {
        /// How many it has.
        found: u64,
        /// How many it may have.
        limit: u64,
    },
    /// A line is none of a plan.
    Syntax,
    /// A line declares a name that an earlier one declares.
    Duplicate,
    /// No earlier line declares a name, as a part or an instance, as is asked for.
    Unknown,
    /// The digits of a part are an odd number, or say bytes that are read as no component, or as one with a scope inside 100 others.
    Part,
    /// Memory ran out.
    NoMemory,
}

/// A refusal: why, and the offset in the plan.
#[derive(Clone, Copy, PartialEq, Eq, Debug)]
pub struct PlanError {
    /// Why.
    pub kind: PlanKind,
    /// Where.
    pub offset: u64,
}

/// Want of memory.
pub fn no_memory() -> PlanError
    ensures { result ≡ no_memory }
{
    PlanError {
        kind: PlanKind::NoMemory,
        offset: 0,
    }
}

/// The refusal of a word of a plan.
pub fn refusal_at(kind: PlanKind, word: &Word<'_>) -> PlanError
    ensures { result ≡ error kind word.now.at }
{
    PlanError {
        kind,
        offset: word.at as u64,
    }
}
