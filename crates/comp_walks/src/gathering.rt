//! The numbers of the references in a tree, in the order in which they are visited.

ghost use Rattle.std.specs.Prelude.{◌≡◌, ◌≤◌, [], false, IfOk, length};
ghost use Rattle.comp_model.specs.Events.{leaf};
ghost use Rattle.comp_model.specs.Model.{ref, core_value};
ghost use Rattle.comp_scopes.specs.References.{references};
ghost use Rattle.comp_walks.specs.Gathered.{numbers, pushed, gather_step};
ghost use Rattle.comp_walks.specs.Lent.{target_of, texts_of, core_value_of};

use crate::part::{CoreValue, Part};
use crate::visitor::{CoreSource, Visitor};
use crate::walk::Node;
use comp_model::Space;
use std::alloc::{AllocError, Global};
use std::marker::Model;
use wast_parser::Index;

/// Numbers, in the room that was reserved for them.
#[derive(Drop)]
struct Numerals {
    numbers: Vec<u32>,
    room: usize,
    full: bool,
}

impl Model for Numerals {
    ghost use Rattle.std.specs.Prelude.{◌≤◌, vec_capacity};
    ghost use Rattle.comp_walks.specs.Gathered.{Gathered};

    ghost Value = { Gathered };

    ghost view = { λ n. record { numbers = n.numbers.items; room = n.room; full = n.full } };

    ghost invariant = { λ n. n.room ≤ vec_capacity n.numbers };
}

impl Numerals {
    /// Room for so many numbers.
    fn with_room(alloc: Global, room: usize) -> Result<Numerals, AllocError>
        ensures { IfOk result (λ n. n ≡ record { numbers = []; room = room; full = false }) }
    {
        let numbers = Vec::with_capacity(alloc, room)?;
        Ok(Numerals {
            numbers,
            room,
            full: false,
        })
    }

    /// Puts a number behind the others, if there is room.
    fn push(&mut self, number: u32)
        ensures { self.new ≡ pushed number self.old }
    {
        if self.numbers.len() < self.room {
            let _ = self.numbers.push(number);
        } else {
            self.full = true;
        }
    }

    /// The numbers, which had room.
    fn into_numbers(self) -> Vec<u32>
        ensures { result.items ≡ self.numbers }
    {
        self.numbers
    }
}

impl Numerals {
    /// Puts the number of a reference by its index or a path.
    fn push_reference(&mut self, space: Space, index: Index<'_>, exports: &[&str])
        ensures { self.new ≡ gather_step self.old (leaf (ref space (target_of index.entry (texts_of exports.now)))) }
    {
        if !exports.is_empty() {
            self.push(0);
            return;
        }
        match index {
            Index::Num(number, _) => self.push(number),
            Index::Id(_) => self.push(0),
        }
    }

    /// Puts the number of a core value type that is a reference.
    fn push_core_value(&mut self, value: CoreValue<'_>)
        ensures { self.new ≡ gather_step self.old (leaf (core_value (core_value_of value.entry))) }
    {
        match value {
            CoreValue::RefConcrete(_, _, Index::Num(number, _)) => self.push(number),
            CoreValue::RefConcrete(_, _, Index::Id(_)) => self.push(0),
            _ => {}
        }
    }
}

impl Visitor for Numerals {
    ghost use Rattle.comp_model.specs.Events.{enters_none};
    ghost use Rattle.comp_walks.specs.Gathered.{gather_step};

    ghost step = { gather_step };

    ghost enters = { enters_none };

    fn enters(&self) -> bool {
        false
    }

    #[inline(always)]
    fn tell(&mut self, part: Part<'_>) {
        match part {
            Part::CoreValue(value) => self.push_core_value(value),
            Part::Index(_, _, Index::Num(number, _)) => self.push(number),
            Part::Index(_, _, Index::Id(_)) => self.push(0),
            Part::Reference(space, index, exports) => self.push_reference(space, index, exports),
            Part::Inline(_) | Part::Bundle(_) => self.push(0),
            _ => {}
        }
    }

    fn tell_module<M: CoreSource>(&mut self, _source: &M) {}
}

/// The numbers of the references in a node, of which there are at most `most`: of each numeral its number, and 0 of each other
/// reference. Scopes in it are not entered.
pub fn gather<T: Node>(alloc: Global, node: &T, most: usize) -> Result<Vec<u32>, AllocError>
    requires { references (T.leaves node.now) ≤ most }
    ensures { IfOk result (λ v. v.items ≡ numbers (T.leaves node.now)) }
{
    let mut numerals = Numerals::with_room(alloc, most)?;
    node.walk_leaves(&mut numerals);
    Ok(numerals.into_numbers())
}
