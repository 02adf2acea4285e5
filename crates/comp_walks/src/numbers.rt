//! The numbers that references become.

ghost use Rattle.std.specs.Prelude.{◌≡◌, ◌<◌, ◌+◌, length, slice_index};
ghost use Rattle.comp_model.specs.Core as core;
ghost use Rattle.comp_model.specs.Model as m;
ghost use Rattle.comp_walks.specs.Lent.{index_of, index_offset};
ghost use Rattle.comp_walks.specs.Numbered.{past};

use std::marker::Model;
use wast_parser::Index;

/// A table of numbers, and how many of them are taken.
#[derive(Drop)]
pub struct Numbers<'t> {
    table: &'t [u32],
    at: usize,
}

impl<'t> Model for Numbers<'t> {
    ghost use Rattle.comp_walks.specs.Numbered.{Table};

    ghost Value = { Table };

    ghost view = { λ n. record { list = n.table.now; at = n.at } };
}

impl<'t> Numbers<'t> {
    /// The whole table.
    pub fn new(table: &'t [u32]) -> Numbers<'t>
        ensures { result ≡ record { list = table.now; at = 0 } }
    {
        Numbers { table, at: 0 }
    }

    /// Takes the next number.
    pub fn take(&mut self) -> u32
        requires { self.old.at < length self.old.list }
        ensures number { result ≡ slice_index self.old.list self.old.at }
        ensures past { self.new ≡ past 1 self.old }
    {
        let number = self.table[self.at];
        self.at += 1;
        number
    }
}

/// Makes a reference the next number, at the place where it stood.
pub fn renumber_index(index: &mut Index<'_>, numbers: &mut Numbers<'_>)
    requires { numbers.old.at < length numbers.old.list }
    ensures number { (r : core.Reach) → index_of r index.new ≡ m.numeral (index_offset index.old) (slice_index numbers.old.list numbers.old.at) }
    ensures past { numbers.new ≡ past 1 numbers.old }
{
    *index = Index::Num(numbers.take(), index.span());
}
