//! Forms that are read and never written: the first that a tree holds.

ghost use Rattle.std.specs.Prelude.{◌≡◌, Option, Some, None, option_map};
ghost use Rattle.comp_model.specs.Covered.{form_of_row, uncovered_in_defs};
ghost use Rattle.core_model.specs.Uncovered.{core_uncovered};
ghost use Rattle.comp_walks.specs.Lists.{definitions};
ghost use Rattle.comp_walks.specs.Sought as s;
ghost use Rattle.comp_walks.specs.Sought.{form_number, uncovered_of, and_then, settled, answer};

use crate::part::{CoreValue, Part};
use crate::visitor::{CoreSource, Visitor};
use crate::walk::{Definition, walk_definitions};
use comp_model::Row;
use std::marker::Model;
use wast_parser::FormKind;

/// A form that is read and never written, and where what holds it stands: the innermost definition around it, or the field of a core
/// module.
#[derive(Clone, Copy, PartialEq, Eq, Debug)]
pub struct Uncovered {
    /// The form.
    pub form: FormKind,
    /// The first word of what holds it, behind the parenthesis.
    pub offset: u32,
}

/// The number of a form.
fn number_of(form: FormKind) -> u8
    ensures { result ≡ form_number form }
{
    match form {
        FormKind::U1 => 1,
        FormKind::U2 => 2,
        FormKind::U3 => 3,
        FormKind::U4 => 4,
        FormKind::U5 => 5,
        FormKind::U6 => 6,
        FormKind::U7 => 7,
    }
}

/// The form of a row that is read and never written.
fn form_of(row: Row) -> Option<FormKind>
    ensures { option_map form_number result ≡ form_of_row row }
{
    match row {
        Row::AttributedName => Some(FormKind::U1),
        Row::MapType => Some(FormKind::U2),
        Row::ValueDescription => Some(FormKind::U3),
        Row::OptionGc | Row::OptionCoreType => Some(FormKind::U4),
        Row::StreamForward
        | Row::FutureForward
        | Row::WaitableSetWait
        | Row::WaitableSetPoll
        | Row::ThreadIndex
        | Row::ThreadNewIndirect
        | Row::ThreadResumeLater
        | Row::ThreadSuspend
        | Row::ThreadYield
        | Row::ThreadSuspendThenResume
        | Row::ThreadYieldThenResume
        | Row::ThreadSuspendThenPromote
        | Row::ThreadYieldThenPromote => Some(FormKind::U5),
        Row::OtherCoreType | Row::OtherEntity => Some(FormKind::U6),
        _ => None,
    }
}

/// What was found so far.
#[derive(Clone, Copy)]
enum Found {
    /// Nothing.
    Nothing,
    /// The lowest form that the definition around it holds itself.
    Own(FormKind),
    /// What stands in something that this definition holds.
    Inner(Uncovered),
}

/// The first uncovered form of a tree, as far as it was told.
#[derive(Drop)]
struct First {
    found: Found,
}

impl Model for First {
    ghost use Rattle.comp_walks.specs.Sought.{Sought};

    ghost Value = { Sought };

    ghost use Rattle.comp_walks.specs.SoughtView.{sought_of};

    ghost view = { λ f. sought_of f.found };
}

impl First {
    /// Of nothing.
    fn new() -> First
        ensures { result ≡ s.nothing }
    {
        First {
            found: Found::Nothing,
        }
    }

    /// Whether nothing is found.
    fn is_nothing(&self) -> bool
        ensures { result ≡ s.is_nothing self.now }
    {
        matches!(&self.found, Found::Nothing)
    }

    /// What was found, behind all definitions.
    fn answer(&self) -> Option<Uncovered>
        ensures { option_map uncovered_of result ≡ answer self.now }
    {
        match &self.found {
            Found::Inner(uncovered) => Some(*uncovered),
            Found::Nothing | Found::Own(_) => None,
        }
    }

    /// A form in a part of the definition around it.
    fn add_form(&mut self, form: FormKind)
        ensures { self.new ≡ and_then self.old (Some (form_number form)) None }
    {
        let lowest = match &self.found {
            Found::Own(other) => {
                if number_of(form) < number_of(*other) {
                    form
                } else {
                    *other
                }
            }
            Found::Nothing | Found::Inner(_) => form,
        };
        self.found = Found::Own(lowest);
    }

    /// What stands in something that the definition around it holds.
    fn add_inner(&mut self, inner: Option<Uncovered>)
        ensures { self.new ≡ and_then self.old None (option_map uncovered_of inner) }
    {
        if let Found::Nothing = &self.found {
            if let Some(uncovered) = inner {
                self.found = Found::Inner(uncovered);
            }
        }
    }

    /// The definition at the offset ends.
    fn settle(&mut self, offset: u32)
        ensures { self.new ≡ settled offset self.old }
    {
        if let Found::Own(form) = &self.found {
            self.found = Found::Inner(Uncovered {
                form: *form,
                offset,
            });
        }
    }

    /// A row in the definition around it.
    fn add_row(&mut self, row: Row)
        ensures { self.new ≡ and_then self.old (form_of_row row) None }
    {
        if let Some(form) = form_of(row) {
            self.add_form(form);
        }
    }
}

impl Visitor for First {
    ghost use Rattle.comp_walks.specs.Sought.{sought_step, is_nothing};
    ghost use Rattle.core_model.specs.Uncovered.{core_uncovered};

    ghost step = { sought_step (λ c. core_uncovered c.fields) };

    ghost enters = { is_nothing };

    fn enters(&self) -> bool {
        self.is_nothing()
    }

    #[inline(always)]
    fn tell(&mut self, part: Part<'_>) {
        match part {
            Part::Row(row) => self.add_row(row),
            Part::CoreValue(CoreValue::Other) => self.add_form(FormKind::U6),
            Part::Ended(span) => self.settle(span.offset),
            _ => {}
        }
    }

    fn tell_module<M: CoreSource>(&mut self, source: &M) {
        self.add_inner(source.first_uncovered());
    }
}

/// The first uncovered form of the definitions of a scope: of the first definition or core field, in the order of the text, that holds
/// one, the form with the lowest number. A definition stands before what it holds.
pub fn first_uncovered<T: Definition>(items: &[T]) -> Option<Uncovered>
    ensures { option_map uncovered_of result ≡ uncovered_in_defs (λ c. core_uncovered c.fields) (definitions T.def items.now) }
{
    let mut first = First::new();
    walk_definitions(items, &mut first);
    first.answer()
}
