//! What is told the parts of a tree.

ghost use Rattle.std.specs.Prelude.{◌≡◌, Bool, option_map};
ghost use Rattle.comp_model.specs.CoreModules.{CoreModule};
ghost use Rattle.comp_model.specs.Events.{Event, leaf};
ghost use Rattle.comp_model.specs.Model.{core_source};
ghost use Rattle.core_model.specs.Uncovered.{core_uncovered};
ghost use Rattle.core_model.specs.Weight.{module_weight};
ghost use Rattle.comp_walks.specs.Parts.{event_of};
ghost use Rattle.comp_walks.specs.Sought.{uncovered_of};
ghost use Rattle.comp_walks.specs.Weigh.{capped};

use crate::part::Part;
use crate::uncovered::Uncovered;

/// A core module in a tree: what visitors ask of it.
pub trait CoreSource {
    /// The module.
    ghost core_module: { Self → CoreModule };

    /// What it adds to the weight of the leaf that holds it.
    fn weight(&self) -> u64
        ensures { result ≡ capped (module_weight (core_module self.now)) };

    /// The first of its fields that holds a form which is read and never written.
    fn first_uncovered(&self) -> Option<Uncovered>
        ensures { option_map uncovered_of result ≡ core_uncovered (core_module self.now).fields };
}

/// What is told the parts of a tree, in the order of its leaves.
pub trait Visitor {
    /// What becomes of a visitor that is told an event.
    ghost step: { Self → Event → Self };

    /// Whether it is told the definition of a scope that comes next.
    ghost enters: { Self → Bool };

    /// Whether it is told the definition of a scope that comes next, or passes it over.
    fn enters(&self) -> bool
        ensures { result ≡ enters self.now };

    /// Tells it a part.
    fn tell(&mut self, part: Part<'_>)
        ensures { self.new ≡ step self.old (event_of part.entry) };

    /// Tells it a leaf that is a core module.
    fn tell_module<M: CoreSource>(&mut self, source: &M)
        ensures { self.new ≡ step self.old (leaf (core_source (M.core_module source.now))) };
}
