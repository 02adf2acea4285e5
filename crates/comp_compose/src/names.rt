//! The names of a plan, and what each stands for.

ghost use Rattle.std.specs.Prelude.{◌≡◌, ◌++◌, ◌∷◌, [], List, OnOk, Some, None};
ghost use Rattle.plan_lines.specs.Lines.{Line};
ghost use Rattle.comp_compose.specs.Meanings.{declared};
ghost use Rattle.comp_compose.specs.Shown.{Shows, Adds};

use std::alloc::{AllocError, Global};
use std::collections::BTreeMap;

/// What a name stands for, and its index.
#[derive(Clone, Copy)]
pub enum Item {
    /// A part: the index of its component.
    Component(u32),
    /// An instance.
    Instance(u32),
}

/// The names that lines declare.
#[derive(Drop)]
pub struct Names<'p> {
    items: BTreeMap<&'p [u8], Item>,
}

impl<'p> Names<'p> {
    /// None. It takes no memory.
    pub fn new(alloc: Global) -> Names<'p>
        ensures { Shows result [] }
    {
        Names {
            items: BTreeMap::new(alloc),
        }
    }

    /// What a name stands for.
    pub fn find(&self, name: &[u8]) -> Option<Item>
        ensures { (ls : List Line) → Shows self.now ls → result ≡ declared ls name.now }
    {
        self.items.get(name).copied()
    }

    /// Adds a name that isn't there, and what it stands for.
    pub fn add(&mut self, name: &'p [u8], item: Item) -> Result<(), AllocError>
        ensures { OnOk result (Adds self.old self.new name.entry.now item) }
    {
        match self.items.insert(name, item) {
            Ok(_) => Ok(()),
            Err(_) => Err(AllocError),
        }
    }
}
