//! The core modules of a text, beside its tree.

ghost use Rattle.std.specs.Prelude.{◌≡◌, []};
ghost use Rattle.tree_build.specs.Cores.{IsEmpty};

use core_syntax::ModuleField;
use std::alloc::Global;
use wast_parser::Id;

/// A core module: its names, and the number of its fields in the list of them.
#[derive(Clone, Copy)]
pub struct NamedModule<'a> {
    /// The id of its definition.
    pub id: Option<Id<'a>>,
    /// The label of its definition.
    pub label: Option<&'a str>,
    /// The number of its fields.
    pub fields: usize,
}

/// The core modules of a text.
#[derive(Drop)]
pub struct Cores<'a> {
    /// The fields of each, as they were read.
    pub fields: Vec<Vec<ModuleField<'a>>>,
    /// The modules that the tree names by their numbers.
    pub modules: Vec<NamedModule<'a>>,
}

impl<'a> Cores<'a> {
    /// No modules.
    pub(crate) fn new(alloc: Global) -> Cores<'a>
        ensures { IsEmpty result }
    {
        Cores {
            fields: Vec::new(alloc),
            modules: Vec::new(alloc),
        }
    }
}
