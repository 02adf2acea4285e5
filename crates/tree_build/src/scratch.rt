//! Loose parts, until a rule makes something of them.

ghost use Rattle.std.specs.Prelude.{◌≡◌, ◌∷◌, List, [], true, Some, option_map};
ghost use Rattle.comp_model.specs.Model as m;
ghost use Rattle.text_rules.specs.Rule.{a_row};
ghost use Rattle.text_rules.specs.Made.{empty};
ghost use Rattle.text_rules.specs.Makes.{adds, a_leaf, an_export_made, a_place_made};
ghost use Rattle.comp_tree.specs.Model.{id_of, index_of, reach_of, lent_text};
ghost use Rattle.comp_model.specs.CoreModules.{CoreModule, Field};
ghost use Rattle.tree_build.specs.Held.{held, loose};
ghost use Rattle.tree_build.specs.Adds.{Adds};

use crate::cores::Cores;
use bumpalo::Bump;
use comp_model::{Row, Space};
use comp_tree::{Def, Leaf, Node, Reach, place, reference};
use std::alloc::{AllocError, Global};
use wast_parser::{Id, Index};

/// Loose parts, each kind on a stack of its own: what was read last stands last. A rule leaves its parts behind those that were there.
#[derive(Drop)]
pub struct Scratch<'t, 'a> {
    /// The arena, for what is made of them.
    pub bump: &'t Bump,
    /// The allocator of the stacks.
    pub alloc: Global,
    /// The rows of nodes.
    pub rows: Vec<Row>,
    /// Leaves of nodes. A core module is told by the number of its fields, until a definition gives it its names.
    pub leaves: Vec<Leaf<'t, 'a>>,
    /// The entries of lists.
    pub nodes: Vec<Node<'t, 'a>>,
    /// The ids of definitions, None for one that has none.
    pub ids: Vec<Option<Id<'a>>>,
    /// The labels of definitions, None for one that has none.
    pub labels: Vec<Option<&'a str>>,
    /// The names of inline exports.
    pub exports: Vec<&'a str>,
    /// The offsets of definitions into the text, in bytes.
    pub places: Vec<u32>,
    /// The definitions of scopes.
    pub defs: Vec<Def<'t, 'a>>,
    /// The core modules that were read.
    pub cores: Cores<'a>,
}

impl<'t, 'a> Scratch<'t, 'a> {
    /// Empty stacks, beside an arena.
    pub fn new(alloc: Global, bump: &'t Bump) -> Scratch<'t, 'a>
        ensures { (fs : List (List Field)) (cs : List CoreModule) → held fs cs result ≡ empty }
    {
        Scratch {
            bump,
            alloc,
            rows: Vec::new(alloc),
            leaves: Vec::new(alloc),
            nodes: Vec::new(alloc),
            ids: Vec::new(alloc),
            labels: Vec::new(alloc),
            exports: Vec::new(alloc),
            places: Vec::new(alloc),
            defs: Vec::new(alloc),
            cores: Cores::new(alloc),
        }
    }

    /// Puts a leaf behind the others. Fails when memory runs out.
    #[inline]
    pub fn leaf(&mut self, leaf: Leaf<'t, 'a>) -> Result<(), AllocError>
        ensures { Adds result self.old self.new (λ fs cs. a_leaf (loose fs cs leaf.entry)) }
    {
        match self.leaves.push(leaf) {
            Ok(()) => Ok(()),
            Err(_) => Err(AllocError),
        }
    }

    /// Puts a reference behind the leaves: an index into a space, and how far its name is looked for. Fails when memory runs out.
    #[inline]
    pub fn reference(
        &mut self,
        space: Space,
        reach: &'t Reach<'t, 'a>,
        index: Index<'a>,
    ) -> Result<(), AllocError>
        ensures { Adds result self.old self.new (λ fs cs. a_leaf (m.ref space (index_of (reach_of reach.entry.now) index.entry))) }
    {
        match reference(self.bump, space, reach, index) {
            Ok(leaf) => self.leaf(leaf),
            Err(AllocError) => Err(AllocError),
        }
    }

    /// Puts the id of a case behind the leaves. Fails when memory runs out.
    #[inline]
    pub fn case_id(&mut self, id: Id<'a>) -> Result<(), AllocError>
        ensures { Adds result self.old self.new (λ fs cs. a_leaf (m.case_id (Some (id_of id.entry)))) }
    {
        match place(self.bump, Some(id)) {
            Ok(id) => self.leaf(Leaf::CaseId(id)),
            Err(AllocError) => Err(AllocError),
        }
    }

    /// Puts the row of a node behind the others. Fails when memory runs out.
    #[inline]
    pub fn row(&mut self, row: Row) -> Result<(), AllocError>
        ensures { Adds result self.old self.new (λ fs cs. adds (a_row row)) }
    {
        match self.rows.push(row) {
            Ok(()) => Ok(()),
            Err(_) => Err(AllocError),
        }
    }

    /// Puts the id of a definition behind the others, or that it has none. Fails when memory runs out.
    #[inline]
    pub fn id(&mut self, id: Option<Id<'a>>) -> Result<(), AllocError>
        ensures { Adds result self.old self.new (λ fs cs. record empty { ids = option_map id_of id.entry ∷ [] }) }
    {
        match self.ids.push(id) {
            Ok(()) => Ok(()),
            Err(_) => Err(AllocError),
        }
    }

    /// Puts the label of a definition behind the others, or that it has none. Fails when memory runs out.
    #[inline]
    pub fn label(&mut self, label: Option<&'a str>) -> Result<(), AllocError>
        ensures { Adds result self.old self.new (λ fs cs. record empty { labels = option_map lent_text label.entry ∷ [] }) }
    {
        match self.labels.push(label) {
            Ok(()) => Ok(()),
            Err(_) => Err(AllocError),
        }
    }

    /// Puts the name of an inline export behind the others. Fails when memory runs out.
    #[inline]
    pub fn export(&mut self, name: &'a str) -> Result<(), AllocError>
        ensures { Adds result self.old self.new (λ fs cs. an_export_made name.entry.now) }
    {
        match self.exports.push(name) {
            Ok(()) => Ok(()),
            Err(_) => Err(AllocError),
        }
    }

    /// Puts the offset of a definition, in bytes of the text, behind the others. Fails when memory runs out.
    #[inline]
    pub fn place(&mut self, offset: u32) -> Result<(), AllocError>
        ensures { Adds result self.old self.new (λ fs cs. a_place_made true offset) }
    {
        match self.places.push(offset) {
            Ok(()) => Ok(()),
            Err(_) => Err(AllocError),
        }
    }
}
